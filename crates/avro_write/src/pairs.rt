//! Whether a data type pairs with a schema.
ghost use Rattle.std.specs.Prelude.{◌≡◌, ◌↔◌, true, IsTrue};
ghost use Rattle.arrow_core.specs.declared.physical.PhysicalType.TheVariants as physical;
ghost use Rattle.arrow_core.specs.declared.physical.PrimitiveType.TheVariants as primitive;
ghost use Rattle.arrow_core.specs.Layouts.{physical_type};
ghost use Rattle.avro_schema.specs.Carried.{IsNoUnion};
ghost use Rattle.avro_schema.specs.Types.{IsString};
ghost use Rattle.avro_encode.specs.Flat.{HasNoParts};
ghost use Rattle.avro_encode.specs.Listed.{PairsColumns, PairsListOf, PairsMemberTypeOf, PairsStructOf};
ghost use Rattle.avro_encode.specs.PairTypes.{PairsBytesType, PairsFixedType, PairsType};

use arrow_core::{DataType, Field, IntervalUnit, PhysicalType, PrimitiveType};
use avro_schema::{AvroField, AvroSchema, BytesLogical, Fixed, FixedLogical};
use avro_types::is_null;

/// Whether columns of the type can be written under the schema.
#[cycle(pairs)]
pub(crate) fn pairs(schema: &AvroSchema, data_type: &DataType) -> bool
    ensures { IsTrue result ↔ PairsType schema.now data_type.now }
{
    match schema {
        AvroSchema::Array(item) => pairs_list(item.get(), data_type),
        AvroSchema::Record(record) => pairs_struct(record.fields.as_slice(), data_type),
        AvroSchema::Union(members) => pairs_member(members.as_slice(), data_type),
        _ => pairs_flat(schema, data_type),
    }
}

/// The same of a schema without others in it.
fn pairs_flat(schema: &AvroSchema, data_type: &DataType) -> bool
    requires flat { HasNoParts schema.now }
    ensures { IsTrue result ↔ PairsType schema.now data_type.now }
{
    match schema {
        AvroSchema::Boolean => matches!(data_type, DataType::Boolean),
        AvroSchema::Int(_) => is_int(data_type),
        AvroSchema::Long(_) => is_long(data_type),
        AvroSchema::Bytes(logical) => pairs_bytes(data_type, *logical),
        AvroSchema::String(_) => is_string(data_type),
        AvroSchema::Fixed(fixed) => pairs_fixed(data_type, fixed),
        _ => false,
    }
}

fn is_int(data_type: &DataType) -> bool
    ensures { IsTrue result
        ↔ (physical_type data_type.now ≡ physical.Primitive primitive.Int32) }
{
    match data_type.to_physical_type() {
        PhysicalType::Primitive(primitive) => primitive == PrimitiveType::Int32,
        _ => false,
    }
}

fn is_long(data_type: &DataType) -> bool
    ensures { IsTrue result
        ↔ (physical_type data_type.now ≡ physical.Primitive primitive.Int64) }
{
    match data_type.to_physical_type() {
        PhysicalType::Primitive(primitive) => primitive == PrimitiveType::Int64,
        _ => false,
    }
}

fn is_string(data_type: &DataType) -> bool
    ensures { IsTrue result ↔ IsString true data_type.now }
{
    match data_type {
        DataType::Utf8 => true,
        DataType::LargeUtf8 => true,
        _ => false,
    }
}

fn pairs_bytes(data_type: &DataType, logical: Option<BytesLogical>) -> bool
    ensures { IsTrue result ↔ PairsBytesType logical data_type.now }
{
    match logical {
        None => match data_type {
            DataType::Binary => true,
            DataType::LargeBinary => true,
            _ => false,
        },
        Some(BytesLogical::Decimal(_, _)) => matches!(data_type, DataType::Decimal(_, _)),
    }
}

fn pairs_fixed(data_type: &DataType, fixed: &Fixed) -> bool
    ensures { IsTrue result ↔ PairsFixedType fixed.now.size fixed.now.logical data_type.now }
{
    match fixed.logical {
        None => matches!(data_type, DataType::FixedSizeBinary(size) if *size == fixed.size),
        Some(FixedLogical::Duration) => {
            matches!(data_type, DataType::Interval(IntervalUnit::MonthDayNano))
        }
        Some(FixedLogical::Decimal(_, _)) => false,
    }
}

#[cycle(pairs)]
fn pairs_list(item: &AvroSchema, data_type: &DataType) -> bool
    ensures { IsTrue result ↔ PairsListOf item.now data_type.now }
{
    match data_type {
        DataType::List(field) => pairs(item, &field.get().data_type),
        DataType::LargeList(field) => pairs(item, &field.get().data_type),
        _ => false,
    }
}

#[cycle(pairs)]
fn pairs_struct(fields: &[AvroField], data_type: &DataType) -> bool
    ensures { IsTrue result ↔ PairsStructOf fields.now data_type.now }
{
    match data_type {
        DataType::Struct(columns) => pairs_columns(fields, columns.as_slice()),
        _ => false,
    }
}

/// Whether there are as many columns as fields, and they pair in order.
#[cycle(pairs)]
fn pairs_columns(fields: &[AvroField], columns: &[Field]) -> bool
    ensures { IsTrue result ↔ PairsColumns fields.now columns.now }
{
    if columns.len() != fields.len() {
        return false;
    }
    for i in 0..fields.len() {
        if !pairs(&fields[i].schema, &columns[i].data_type) {
            return false;
        }
    }
    true
}

/// Whether a union has null and one member that pairs and is no union.
#[cycle(pairs)]
fn pairs_member(members: &[AvroSchema], data_type: &DataType) -> bool
    ensures { IsTrue result ↔ PairsMemberTypeOf members.now data_type.now }
{
    match members {
        [first, second] => {
            (is_null(first) && pairs_item(second, data_type))
                || (is_null(second) && pairs_item(first, data_type))
        }
        _ => false,
    }
}

#[cycle(pairs)]
fn pairs_item(schema: &AvroSchema, data_type: &DataType) -> bool
    ensures { IsTrue result ↔ (IsNoUnion schema.now × PairsType schema.now data_type.now) }
{
    !matches!(schema, AvroSchema::Union(_)) && pairs(schema, data_type)
}
