//! Whether the fields of columns have the types and the nullability of Avro schemas.

ghost use Rattle.std.specs.Prelude.{◌≡◌, ◌↔◌, true, IsTrue};
ghost use Rattle.avro_schema.specs.Types.{is_union as is_union_of, HasType, HasColumnType, Fits};
ghost use Rattle.avro_schema.specs.TypeLaws.{HasMemberTypeOf};
ghost use Rattle.avro_types.specs.Columns.{HasListType, HasStructType};

use crate::carried::is_null;
use crate::flat_types::has_flat_type;
use arrow_core::{DataType, Field};
use avro_schema::{AvroField, AvroSchema};

/// Whether there are as many fields as Avro fields, and each has the type and the nullability of
/// its Avro field's schema, at every depth, in small or large forms. Names and metadata don't
/// count.
pub fn all_fit(fields: &[Field], avro_fields: &[AvroField]) -> bool
    ensures { IsTrue result ↔ Fits fields.now avro_fields.now }
{
    has_column_types(avro_fields, fields)
}

/// The same, with the schemas first, since the recursion goes down these.
#[cycle(types)]
fn has_column_types(avro_fields: &[AvroField], fields: &[Field]) -> bool
    ensures { IsTrue result ↔ Fits fields.now avro_fields.now }
{
    if fields.len() != avro_fields.len() {
        return false;
    }
    for i in 0..fields.len() {
        if !has_column_type(&avro_fields[i].schema, &fields[i]) {
            return false;
        }
    }
    true
}

#[cycle(types)]
fn has_column_type(schema: &AvroSchema, field: &Field) -> bool
    ensures { IsTrue result ↔ HasColumnType true schema.now field.now }
{
    field.is_nullable == is_union(schema) && has_type(schema, &field.data_type)
}

fn is_union(schema: &AvroSchema) -> bool
    ensures { result ≡ is_union_of schema.now }
{
    matches!(schema, AvroSchema::Union(_))
}

#[cycle(types)]
fn has_type(schema: &AvroSchema, data_type: &DataType) -> bool
    ensures { IsTrue result ↔ HasType true schema.now data_type.now }
{
    match schema {
        AvroSchema::Record(record) => has_record_type(record.fields.as_slice(), data_type),
        AvroSchema::Array(item) => has_list_type(item.get(), data_type),
        AvroSchema::Union(members) => has_member_type(members.as_slice(), data_type),
        AvroSchema::Map(_) => false,
        _ => has_flat_type(schema, data_type),
    }
}

#[cycle(types)]
fn has_record_type(avro_fields: &[AvroField], data_type: &DataType) -> bool
    ensures { IsTrue result ↔ HasStructType avro_fields.now data_type.now }
{
    match data_type {
        DataType::Struct(fields) => has_column_types(avro_fields, fields.as_slice()),
        _ => false,
    }
}

#[cycle(types)]
fn has_list_type(item: &AvroSchema, data_type: &DataType) -> bool
    ensures { IsTrue result ↔ HasListType item.now data_type.now }
{
    match data_type {
        DataType::List(field) => has_column_type(item, field.get()),
        DataType::LargeList(field) => has_column_type(item, field.get()),
        _ => false,
    }
}

/// Whether a column has the type of the member that isn't null.
#[cycle(types)]
fn has_member_type(members: &[AvroSchema], data_type: &DataType) -> bool
    ensures { IsTrue result ↔ HasMemberTypeOf true members.now data_type.now }
{
    match members {
        [first, second] => {
            (is_null(first) && has_type(second, data_type))
                || (is_null(second) && has_type(first, data_type))
        }
        _ => false,
    }
}
