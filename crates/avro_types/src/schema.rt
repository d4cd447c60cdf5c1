//! The schema of columns for an Avro schema.

ghost use Rattle.std.specs.Prelude.{◌≡◌, [], Some, None, IfOk, IfErr, OnOk};
ghost use Rattle.std.specs.Option.{option_copied};
ghost use Rattle.arrow_core.specs.Errors.{OnlyOutOfMemory};
ghost use Rattle.avro_schema.specs.declared.schema.Record.{out-Record};
ghost use Rattle.avro_schema.specs.declared.schema.Schema.{Record as RecordSchema};
ghost use Rattle.avro_schema.specs.Carried.{CarriedList};
ghost use Rattle.avro_schema.specs.Types.{int_type as int_type_of, long_type as long_type_of, utc, fixed_type as fixed_type_of, is_union};
ghost use Rattle.avro_schema.specs.TypeLaws.{inferred_member_of};
ghost use Rattle.avro_schema.specs.Inferred.{inferred, columns_of, inferred_columns, own_doc as own_doc_of, is_item as is_item_of, HasMapOrUnion};
ghost use Rattle.avro_types.specs.Columns.{AllTyped};
ghost use Rattle.avro_types.specs.Inference.{SchemaRefused, doc_entries, HasNoParts};

use arrow_core::{
    Box, DataType, Error, Field, IntegerType, IntervalUnit, Items, Metadata, Reason, Result,
    Schema, Text, TimeUnit,
};
use avro_schema::{
    AvroField, AvroSchema, BytesLogical, Fixed, FixedLogical, IntLogical, LongLogical, Record,
};
use std::alloc::Global;

/// The zone of a timestamp whose instants are told in UTC.
pub const UTC: &str = "00:00";

/// The name of the field that holds a list's items.
const ITEM: &str = "item";

/// The metadata key of an Avro doc.
const DOC: &str = "avro::doc";

/// The fields of the columns that hold a record's fields, in the record's order (Avro 1.11,
/// "Schema Declaration").
///
/// Each field has the name of its Avro field. It is nullable exactly where its schema is a union
/// of null and another type. A field whose schema is itself a record or an enum with a doc keeps
/// that doc in its metadata; a field of a nested record keeps the doc of its Avro field.
///
/// `NotYetImplemented(MapOrUnion)` exactly where, at any depth, a map stands, or a union that
/// isn't two members of which one is null and the other neither null nor a union. None of these
/// is carried. `OutOfMemory` at any time.
pub fn infer_schema(alloc: Global, root: &Record) -> Result<Schema>
    ensures fields { IfOk result (λ schema. inferred_columns (out-Record root.now).fields
        ≡ Some schema.fields) }
    ensures metadata { IfOk result (λ schema. schema.metadata ≡ []) }
    ensures typed { IfOk result (λ schema. AllTyped schema.fields (out-Record root.now).fields) }
    ensures ok { OnOk result (HasMapOrUnion (RecordSchema root.now) → ⊥) }
    ensures err { IfErr result (SchemaRefused (HasMapOrUnion (RecordSchema root.now))) }
    ensures carried { CarriedList (out-Record root.now).fields
        → OnlyOutOfMemory result }
{
    let mut fields = Vec::new(alloc);
    for field in root.fields.as_slice() {
        let (data_type, is_nullable) = infer_column(alloc, &field.schema)?;
        let doc = own_doc(field);
        fields.push(named_field(alloc, &field.name, data_type, is_nullable, doc)?)?;
    }
    Ok(Schema {
        fields: Items::from_vec(fields),
        metadata: Metadata::new(alloc),
    })
}

/// The doc that a field's record or enum has itself.
fn own_doc(field: &AvroField) -> Option<&Text>
    ensures { option_copied result ≡ own_doc_of field.now }
{
    match &field.schema {
        AvroSchema::Record(record) => record.doc.as_ref(),
        AvroSchema::Enum(enumeration) => enumeration.doc.as_ref(),
        _ => None,
    }
}

/// The field of this name and type, with the doc in its metadata.
fn named_field(
    alloc: Global,
    name: &Text,
    data_type: DataType,
    is_nullable: bool,
    doc: Option<&Text>,
) -> Result<Field>
    ensures ok { IfOk result (λ f. f ≡ record {
      name = name.now;
      data_type = data_type;
      is_nullable
          = is_nullable;
      metadata = doc_entries (option_copied doc.entry);
    }) }
    ensures memory { OnlyOutOfMemory result }
{
    match label(alloc, name, doc) {
        Ok((name, metadata)) => Ok(Field {
            name,
            data_type,
            is_nullable,
            metadata,
        }),
        Err(error) => Err(error),
    }
}

/// A copy of a field's name, and the metadata that holds its doc.
fn label(alloc: Global, name: &Text, doc: Option<&Text>) -> Result<(Text, Metadata)>
    ensures name { IfOk result (λ l. l.0 ≡ name.now) }
    ensures metadata { IfOk result (λ l. l.1 ≡ doc_entries (option_copied doc.entry)) }
    ensures memory { OnlyOutOfMemory result }
{
    let mut metadata = Metadata::new(alloc);
    if let Some(doc) = doc {
        metadata.insert(Text::try_from_str(alloc, DOC)?, doc.try_clone(alloc)?)?;
    }
    Ok((name.try_clone(alloc)?, metadata))
}

/// The type of a column that holds values of `schema`, and whether it is nullable.
#[cycle(infer)]
fn infer_column(alloc: Global, schema: &AvroSchema) -> Result<(DataType, bool)>
    ensures data_type { IfOk result (λ c. inferred schema.now ≡ Some c.0) }
    ensures nullable { IfOk result (λ c. c.1 ≡ is_union schema.now) }
    ensures err { IfErr result (SchemaRefused (inferred schema.now ≡ None)) }
{
    match schema {
        AvroSchema::Union(members) => Ok((infer_union(alloc, members)?, true)),
        AvroSchema::Record(record) => {
            let fields = infer_fields(alloc, &record.fields)?;
            Ok((DataType::Struct(fields), false))
        }
        AvroSchema::Array(item) => {
            let (data_type, is_nullable) = infer_column(alloc, item.get())?;
            let name = Text::try_from_str(alloc, ITEM)?;
            let field = Field::new(alloc, name, data_type, is_nullable);
            Ok((DataType::List(Box::new(alloc, field)?), false))
        }
        AvroSchema::Map(_) => Err(Error::NotYetImplemented(Reason::MapOrUnion)),
        _ => Ok((flat_type(alloc, schema)?, false)),
    }
}

/// The type of the member that isn't null, in a union of null and one type that is neither null
/// nor a union.
#[cycle(infer)]
fn infer_union(alloc: Global, members: &Items<AvroSchema>) -> Result<DataType>
    ensures data_type { IfOk result (λ t. inferred_member_of members.now ≡ Some t) }
    ensures err { IfErr result (SchemaRefused (inferred_member_of members.now ≡ None)) }
{
    match members.as_slice() {
        [AvroSchema::Null, item] | [item, AvroSchema::Null] if is_item(item) => {
            let (data_type, _) = infer_column(alloc, item)?;
            Ok(data_type)
        }
        _ => Err(Error::NotYetImplemented(Reason::MapOrUnion)),
    }
}

/// Whether a schema may stand beside null in a union.
fn is_item(schema: &AvroSchema) -> bool
    ensures { result ≡ is_item_of schema.now }
{
    !matches!(schema, AvroSchema::Null | AvroSchema::Union(_))
}

/// The fields of a nested record. Each keeps its Avro field's doc in its metadata.
#[cycle(infer)]
fn infer_fields(alloc: Global, avro_fields: &Items<AvroField>) -> Result<Items<Field>>
    ensures fields { IfOk result (λ fields. columns_of (λ a. a.doc) avro_fields.now ≡ Some fields) }
    ensures err { IfErr result (SchemaRefused (columns_of (λ a. a.doc) avro_fields.now ≡ None)) }
{
    let mut fields = Vec::new(alloc);
    for field in avro_fields.as_slice() {
        let (data_type, is_nullable) = infer_column(alloc, &field.schema)?;
        let doc = field.doc.as_ref();
        fields.push(named_field(alloc, &field.name, data_type, is_nullable, doc)?)?;
    }
    Ok(Items::from_vec(fields))
}

/// The type of a column that holds values of a schema without parts.
fn flat_type(alloc: Global, schema: &AvroSchema) -> Result<DataType>
    requires flat { HasNoParts schema.now }
    ensures data_type { IfOk result (λ t. inferred schema.now ≡ Some t) }
    ensures memory { OnlyOutOfMemory result }
{
    match schema {
        AvroSchema::Null => Ok(DataType::Null),
        AvroSchema::Boolean => Ok(DataType::Boolean),
        AvroSchema::Int(logical) => Ok(int_type(*logical)),
        AvroSchema::Long(logical) => long_type(alloc, *logical),
        AvroSchema::Float => Ok(DataType::Float32),
        AvroSchema::Double => Ok(DataType::Float64),
        AvroSchema::Bytes(None) => Ok(DataType::Binary),
        AvroSchema::Bytes(Some(BytesLogical::Decimal(precision, scale))) => {
            Ok(DataType::Decimal(*precision, *scale))
        }
        AvroSchema::String(_) => Ok(DataType::Utf8),
        AvroSchema::Enum(_) => {
            let symbol = Box::new(alloc, DataType::Utf8)?;
            Ok(DataType::Dictionary(IntegerType::Int32, symbol, false))
        }
        AvroSchema::Fixed(fixed) => Ok(fixed_type(fixed)),
        _ => unreachable!(),
    }
}

fn int_type(logical: Option<IntLogical>) -> DataType
    ensures { result ≡ int_type_of logical }
{
    match logical {
        None => DataType::Int32,
        Some(IntLogical::Date) => DataType::Date32,
        Some(IntLogical::Time) => DataType::Time32(TimeUnit::Millisecond),
    }
}

fn long_type(alloc: Global, logical: Option<LongLogical>) -> Result<DataType>
    ensures data_type { IfOk result (λ t. t ≡ long_type_of logical) }
    ensures memory { OnlyOutOfMemory result }
{
    match logical {
        None => Ok(DataType::Int64),
        Some(LongLogical::Time) => Ok(DataType::Time64(TimeUnit::Microsecond)),
        Some(LongLogical::TimestampMillis) => utc_type(alloc, TimeUnit::Millisecond),
        Some(LongLogical::TimestampMicros) => utc_type(alloc, TimeUnit::Microsecond),
        Some(LongLogical::TimestampNanos) => utc_type(alloc, TimeUnit::Nanosecond),
        Some(LongLogical::LocalTimestampMillis) => Ok(local_type(TimeUnit::Millisecond)),
        Some(LongLogical::LocalTimestampMicros) => Ok(local_type(TimeUnit::Microsecond)),
        Some(LongLogical::LocalTimestampNanos) => Ok(local_type(TimeUnit::Nanosecond)),
    }
}

/// Instants, told in UTC.
fn utc_type(alloc: Global, unit: TimeUnit) -> Result<DataType>
    ensures data_type { IfOk result (λ t. t ≡ DataType.Timestamp unit utc) }
    ensures memory { OnlyOutOfMemory result }
{
    let zone = Text::try_from_str(alloc, UTC)?;
    Ok(DataType::Timestamp(unit, Some(zone)))
}

/// Readings of a local clock.
fn local_type(unit: TimeUnit) -> DataType
    ensures { result ≡ DataType.Timestamp unit None }
{
    DataType::Timestamp(unit, None)
}

fn fixed_type(fixed: &Fixed) -> DataType
    ensures { result ≡ fixed_type_of fixed.now.size fixed.now.logical }
{
    match fixed.logical {
        None => DataType::FixedSizeBinary(fixed.size),
        Some(FixedLogical::Decimal(precision, scale)) => DataType::Decimal(precision, scale),
        Some(FixedLogical::Duration) => DataType::Interval(IntervalUnit::MonthDayNano),
    }
}
