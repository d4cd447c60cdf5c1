//! Capacity for the rows of a block, made before they are read.

ghost use Rattle.std.specs.Prelude.{◌≡◌, ◌≤◌, ◌*◌, length, map, All};
ghost use Rattle.std.specs.List.{AllZip};
ghost use Rattle.arrow_builders.specs.MutableArrays.{builder_type, nodes};
ghost use Rattle.arrow_builders.specs.Nodes.{IsEmpty};
ghost use Rattle.arrow_builders.specs.Shapes.{shape};
ghost use Rattle.arrow_builders.specs.Tight.{IsTight};
ghost use Rattle.avro_decode.specs.Capacity.{AtNodes, IsReserved};

use arrow_builders::MutableArray;
use avro_schema::Block;

/// Makes spare capacity for the rows of a block, before they are read, in each builder that has one
/// node.
///
/// Each is asked for `rows_within` slots and content bytes, so that over all builders it is no more
/// than the block has bytes. Builders of lists and of records stay as they are: they grow as they
/// are filled. So does each builder where there is no memory for its rows; but a single field of
/// booleans, ints or longs asks for all of it once more.
pub(crate) fn reserve_rows(block: &Block, builders: &mut [MutableArray])
    requires tight { All IsTight builders.old }
    requires empty { AtNodes IsEmpty builders.old }
    ensures shapes { map shape builders.new ≡ map shape builders.old }
    ensures data_types { map builder_type builders.new ≡ map builder_type builders.old }
    ensures tight { All IsTight builders.new }
    ensures empty { AtNodes IsEmpty builders.new }
    ensures nested { AllZip IsReserved builders.old builders.new }
{
    let rows = rows_within(block, builders.len());
    for i in 0..builders.len() {
        reserve_column(rows, &mut builders[i]);
    }
}

/// Makes spare capacity for so many slots and content bytes in a builder that has one node. Another
/// stays as it is.
fn reserve_column(rows: usize, builder: &mut MutableArray)
    ensures shape { shape builder.new ≡ shape builder.old }
    ensures tight { IsTight builder.old → IsTight builder.new }
    ensures empty { All IsEmpty (nodes builder.old) → All IsEmpty (nodes builder.new) }
    ensures nested { IsReserved builder.old builder.new }
{
    if builder.node_lengths(1).is_some() {
        return;
    }
    let _reserved = builder.reserve_for(rows);
}

/// The rows that a block states, or as many as its bytes can be, if these are fewer: each column has
/// a byte in each row at least.
fn rows_within(block: &Block, columns: usize) -> usize
    ensures stated { result ≤ block.now.number_of_rows }
    ensures backed { result * columns ≤ length block.now.bytes }
{
    if columns == 0 {
        return 0;
    }
    block
        .number_of_rows
        .min(block.bytes.as_slice().len() / columns)
}
