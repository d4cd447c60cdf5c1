//! Blocks into builders that the caller has: what a cursor counts, how far a false count lets them
//! grow, and builders that are used again.

ghost use Rattle.std.specs.Prelude.{◌≡◌, length, map, All};
ghost use Rattle.arrow_builders.specs.Fits.{TypesFit};
ghost use Rattle.arrow_builders.specs.Nodes.{IsEmpty};
ghost use Rattle.arrow_builders.specs.MutableArrays.{builder_type};
ghost use Rattle.arrow_builders.specs.Shapes.{shape};
ghost use Rattle.arrow_builders.specs.Tight.{IsTight};
ghost use Rattle.avro_schema.specs.Carried.{CarriedList};
ghost use Rattle.avro_schema.specs.ValidBlock.{kept};
ghost use Rattle.avro_schema.specs.Types.{Fits};
ghost use Rattle.avro_schema.specs.Columns.{kept_types};
ghost use Rattle.avro_decode.specs.Suits.{AllSuit};
ghost use Rattle.avro_decode.specs.Capacity.{AtNodes};

use crate::blocks::{ROWS, are_columns, avro_fields, fields};
use crate::samples::{avro_field, or_null, record};
use arrow_array::Chunk;
use arrow_builders::MutableArray;
use arrow_core::{Box, DataType, Error, Field, Reason};
use avro_decode::{deserialize_into, make_builders};
use avro_schema::{AvroField, AvroSchema, Record, SliceCursor};
use avro_types::infer_schema;
use std::alloc::Global;
use std::process::Abort;

/// What a cursor tells when rows were read.
#[derive(Clone, Copy)]
struct Counts {
    shown: u64,
    jumped: u64,
    calls: u64,
}

/// Reads so many rows of these bytes.
fn read_rows(
    rows: usize,
    bytes: &[u8],
    fields: &[Field],
    avro_fields: &[AvroField],
    projection: &[bool],
    builders: &mut [MutableArray],
) -> Result<Counts, Error>
    requires lengths { length avro_fields.now ≡ length projection.now }
    requires carried { CarriedList avro_fields.now }
    requires fits { Fits fields.now avro_fields.now }
    requires data_types { map builder_type builders.old ≡ kept_types fields.now projection.now }
    requires suits { AllSuit (kept avro_fields.now projection.now) builders.old }
    requires types_fit { All (λ b. TypesFit (shape b)) builders.old }
    requires tight { All IsTight builders.old }
    requires empty { AtNodes IsEmpty builders.old }
    ensures data_types { map builder_type builders.new ≡ map builder_type builders.old }
    ensures shapes { map shape builders.new ≡ map shape builders.old }
{
    let mut cursor = SliceCursor::new(bytes);
    deserialize_into(&mut cursor, rows, fields, avro_fields, projection, builders)?;
    Ok(Counts {
        shown: cursor.shown(),
        jumped: cursor.jumped(),
        calls: cursor.calls(),
    })
}

/// Reads them into builders of their own.
fn read_new(
    alloc: Global,
    rows: usize,
    bytes: &[u8],
    fields: &[Field],
    avro_fields: &[AvroField],
    projection: &[bool],
) -> Result<Counts, Error> {
    let mut builders = make_builders(alloc, fields, avro_fields, projection)?;
    let builders = builders.as_mut_slice();
    read_rows(rows, bytes, fields, avro_fields, projection, builders)
}

/// What a cursor tells of so many rows of these Avro fields.
fn counted(
    rt: &impl Abort,
    alloc: Global,
    avro_fields: Vec<AvroField>,
    rows: usize,
    bytes: &[u8],
    projection: &[bool],
) -> Counts {
    let row = record(rt, alloc, avro_fields);
    let fields = infer_schema(alloc, &row).expect(rt, "memory").fields;
    let avro_fields = row.fields.as_slice();
    read_new(
        alloc,
        rows,
        bytes,
        fields.as_slice(),
        avro_fields,
        projection,
    )
    .expect(rt, "rows")
}

#[test]
fn a_string_that_is_not_kept_is_skipped(rt: HostRuntime) {
    let avro_fields = avro_fields(&rt, rt.alloc());
    let counts = counted(&rt, rt.alloc(), avro_fields, 2, ROWS, &[true, false]);
    assert!(rt; counts.shown == 5 && counts.jumped == 2 && counts.calls <= 10);
}

#[test]
fn an_int_that_is_not_kept_is_shown_once(rt: HostRuntime) {
    let avro_fields = avro_fields(&rt, rt.alloc());
    let counts = counted(&rt, rt.alloc(), avro_fields, 2, ROWS, &[false, true]);
    assert!(rt; counts.shown == 7 && counts.jumped == 0 && counts.calls <= 14);
}

/// An array `a` of longs, and an int `b`.
fn list_and_int(rt: &impl Abort, alloc: Global) -> Vec<AvroField> {
    let item = Box::new(alloc, AvroSchema::Long(None)).expect(rt, "memory");
    let a = avro_field(rt, alloc, "a", AvroSchema::Array(item));
    let b = avro_field(rt, alloc, "b", AvroSchema::Int(None));
    vec![in alloc; a, b].expect(rt, "memory")
}

/// Two bytes that are no long stand in a block of the array that states their size.
#[test]
fn a_block_that_is_not_kept_is_skipped_by_its_size(rt: HostRuntime) {
    let bytes = b"\x03\x04\xff\xff\x00\x02";
    let avro_fields = list_and_int(&rt, rt.alloc());
    let counts = counted(&rt, rt.alloc(), avro_fields, 1, bytes, &[false, true]);
    assert!(rt; counts.shown <= 4 && counts.calls <= 8);
}

/// An array `a` of records of an int `x`, or null in place of one.
fn nullable_records(rt: &impl Abort, alloc: Global) -> Record {
    let x = avro_field(rt, alloc, "x", AvroSchema::Int(None));
    let item = record(rt, alloc, vec![in alloc; x].expect(rt, "memory"));
    let item = or_null(rt, alloc, AvroSchema::Record(item));
    let array = AvroSchema::Array(Box::new(alloc, item).expect(rt, "memory"));
    let a = avro_field(rt, alloc, "a", array);
    record(rt, alloc, vec![in alloc; a].expect(rt, "memory"))
}

/// The count 2^63 - 1, and one null.
const FALSE_COUNT: &[u8] = b"\xfe\xff\xff\xff\xff\xff\xff\xff\xff\x01\x00";

/// Whether a builder has three nodes, and none of them more slots than there were bytes.
fn has_few_slots(builder: &MutableArray) -> bool {
    for node in 0..3 {
        let is_few = match builder.node_lengths(node) {
            Some(lengths) => lengths.slots <= 11,
            None => false,
        };
        if !is_few {
            return false;
        }
    }
    builder.node_lengths(3).is_none()
}

/// Whether the count is refused, and makes no node long.
fn is_bounded(rt: &impl Abort, alloc: Global, row: Record) -> bool {
    let fields = infer_schema(alloc, &row).expect(rt, "memory").fields;
    let (fields, avro_fields) = (fields.as_slice(), row.fields.as_slice());
    let projection = [true];
    let mut builders = make_builders(alloc, fields, avro_fields, &projection).expect(rt, "memory");
    let builders = builders.as_mut_slice();
    let read = read_rows(1, FALSE_COUNT, fields, avro_fields, &projection, builders);
    assert!(rt; read.err() == Some(Error::ExternalFormat(Reason::BlockBytes)));
    match builders {
        [builder] => has_few_slots(builder),
        _ => false,
    }
}

#[test]
fn a_false_count_makes_no_node_long(rt: HostRuntime) {
    assert!(rt; is_bounded(&rt, rt.alloc(), nullable_records(&rt, rt.alloc())));
}

/// Makes spare capacity for so many bytes.
fn reserve(rt: &impl Abort, builders: &mut [MutableArray], bytes: usize)
    requires tight { All IsTight builders.old }
    requires empty { AtNodes IsEmpty builders.old }
    ensures data_types { map builder_type builders.new ≡ map builder_type builders.old }
    ensures shapes { map shape builders.new ≡ map shape builders.old }
    ensures tight { All IsTight builders.new }
    ensures empty { AtNodes IsEmpty builders.new }
{
    for i in 0..builders.len() {
        builders[i].reserve_for(bytes).expect(rt, "memory");
    }
}

/// Drops every slot, and keeps the capacity.
fn clear(builders: &mut [MutableArray])
    ensures data_types { map builder_type builders.new ≡ map builder_type builders.old }
    ensures shapes { map shape builders.new ≡ map shape builders.old }
    ensures tight { All IsTight builders.new }
    ensures empty { AtNodes IsEmpty builders.new }
{
    for i in 0..builders.len() {
        builders[i].clear();
    }
}

/// Reserves for the seven bytes of the two rows, reads the rows, clears the builders, and reads the
/// rows again.
fn read_twice(
    rt: &impl Abort,
    fields: &[Field],
    avro_fields: &[AvroField],
    projection: &[bool],
    builders: &mut [MutableArray],
)
    requires lengths { length avro_fields.now ≡ length projection.now }
    requires carried { CarriedList avro_fields.now }
    requires fits { Fits fields.now avro_fields.now }
    requires data_types { map builder_type builders.old ≡ kept_types fields.now projection.now }
    requires suits { AllSuit (kept avro_fields.now projection.now) builders.old }
    requires types_fit { All (λ b. TypesFit (shape b)) builders.old }
    requires tight { All IsTight builders.old }
    requires empty { AtNodes IsEmpty builders.old }
{
    reserve(rt, builders, 7);
    read_rows(2, ROWS, fields, avro_fields, projection, builders).expect(rt, "rows");
    clear(builders);
    read_rows(2, ROWS, fields, avro_fields, projection, builders).expect(rt, "rows");
}

/// The arrays of builders.
fn boxed(alloc: Global, builders: &mut [MutableArray]) -> Result<Chunk, Error> {
    let mut arrays = Vec::new(alloc);
    for i in 0..builders.len() {
        let array = builders[i].as_box()?;
        arrays.push(array)?;
    }
    Chunk::try_new(arrays)
}

/// The columns of the two rows, from builders that took them twice.
fn built(
    rt: &impl Abort,
    alloc: Global,
    fields: &[Field],
    avro_fields: &[AvroField],
) -> Result<Chunk, Error> {
    let projection = [true, true];
    let mut builders = make_builders(alloc, fields, avro_fields, &projection)?;
    let builders = builders.as_mut_slice();
    read_twice(rt, fields, avro_fields, &projection, builders);
    boxed(alloc, builders)
}

#[test]
fn reserved_builders_take_rows_twice(rt: HostRuntime) {
    let avro_fields = avro_fields(&rt, rt.alloc());
    let fields = fields(&rt, rt.alloc(), DataType::Int32);
    let chunk = built(&rt, rt.alloc(), fields.as_slice(), avro_fields.as_slice());
    assert!(rt; are_columns(&chunk.expect(&rt, "memory")));
}
