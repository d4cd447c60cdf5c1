//! Values that are lent, and then pushed.
ghost use Rattle.std.specs.Prelude.{◌≡◌, ◌≤◌, ℕ, List, length, OnOk};
ghost use Rattle.arrow_builders.specs.Shapes.{shape};
ghost use Rattle.arrow_builders.specs.Tight.{IsTight};
ghost use Rattle.json_tree.specs.Reading.{value_at};
ghost use Rattle.json_line.specs.declared.field_names.FieldNames.{FieldNames};
ghost use Rattle.json_line.specs.Builders.{IsOfLists, ReadsInto, SuitsFields};

use crate::ends::push_null;
use crate::flat::push_flat;
use arrow_builders::MutableArray;
use json_lend::{GivenUp, Lent, lend};
use json_tree::reader::Reader;

/// Reads a value, to a builder without children.
#[inline(always)]
pub(crate) fn push_single<'a>(
    buffer: &mut String,
    reader: &mut Reader<'a>,
    depth: usize,
    builder: &mut MutableArray,
) -> Result<(), GivenUp>
    ensures same_shape { shape builder.new ≡ shape builder.old }
    ensures tight { OnOk result (IsTight builder.new) }
    ensures forward { length reader.new ≤ length reader.old }
    ensures ok { OnOk result
        (ReadsInto (value_at depth) reader.old reader.new builder.old builder.new) }
{
    let lent = lend(reader, depth)?;
    push_flat(buffer, builder, &lent)
}

/// Reads a value, to a builder of lists, which takes a null. An array is given up.
#[inline(never)]
pub(crate) fn push_null_list<'a>(
    reader: &mut Reader<'a>,
    depth: usize,
    builder: &mut MutableArray,
) -> Result<(), GivenUp>
    requires lists { IsOfLists (shape builder.old) }
    requires tight { IsTight builder.old }
    ensures same_shape { shape builder.new ≡ shape builder.old }
    ensures tight { OnOk result (IsTight builder.new) }
    ensures forward { length reader.new ≤ length reader.old }
    ensures ok { OnOk result
        (ReadsInto (value_at depth) reader.old reader.new builder.old builder.new) }
{
    let lent = lend(reader, depth)?;
    match lent {
        Lent::Array(_) => Err(GivenUp),
        _ => push_null(builder),
    }
}

/// Reads a value, to a builder of structs, which takes a null. An object is given up.
#[inline(never)]
pub(crate) fn push_null_struct<'a>(
    reader: &mut Reader<'a>,
    depth: usize,
    builder: &mut MutableArray,
) -> Result<(), GivenUp>
    requires suits { (own : List (List ℕ)) × (below : List FieldNames)
        × SuitsFields own below (shape builder.old) }
    requires tight { IsTight builder.old }
    ensures same_shape { shape builder.new ≡ shape builder.old }
    ensures tight { OnOk result (IsTight builder.new) }
    ensures forward { length reader.new ≤ length reader.old }
    ensures ok { OnOk result
        (ReadsInto (value_at depth) reader.old reader.new builder.old builder.new) }
{
    let lent = lend(reader, depth)?;
    match lent {
        Lent::Object(_) => Err(GivenUp),
        _ => push_null(builder),
    }
}
