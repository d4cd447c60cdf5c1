//! The words of types, at the end of a buffer.
ghost use Rattle.std.specs.Prelude.{◌≡◌, ◌++◌, codes, decimal, map, OnOk};
ghost use Rattle.arrow_core.specs.Errors.{OnlyOutOfMemory};
ghost use Rattle.cli_words.specs.Printed as spec;

use crate::field::MOST_DEPTH;
use crate::worded::{has_type, is_null, members_of};
use arrow_core::{Result, Text};
use avro_schema::{
    AvroField, AvroSchema, BytesLogical, FixedLogical, IntLogical, LongLogical, StringLogical,
};
use itoa::Buffer;

/// Appends the word of a type, as a field's word names it after `=`, and `-` where it has none.
///
/// The names, namespaces and docs of records, enums and fixed-size types, and the docs of fields,
/// aren't part of the word. No word has a map, a union but of null and one other type, a name or a
/// symbol with other characters than a field's word may have, an enum without symbols, a number
/// above 2147483647, a decimal without digits or with more of them after the point than in all, or
/// types that nest more than 64 deep.
///
/// `OutOfMemory` alone; the buffer may then have a part of the word more.
pub fn push_type(text: &mut Vec<u8>, schema: &AvroSchema) -> Result<()>
    ensures appended { OnOk result (text.new.items ≡ text.old.items ++ spec.type_text schema.now) }
    ensures memory { OnlyOutOfMemory result }
{
    if has_type(schema, MOST_DEPTH) {
        push_word(text, schema, MOST_DEPTH)
    } else {
        push(text, b"-")
    }
}

/// The word of a type in which types nest at most `depth` deep.
#[cycle(print)]
fn push_word(text: &mut Vec<u8>, schema: &AvroSchema, depth: usize) -> Result<()>
    ensures appended { OnOk result (text.new.items
        ≡ text.old.items ++ spec.type_word depth schema.now) }
    ensures memory { OnlyOutOfMemory result }
{
    if depth == 0 {
        return Ok(());
    }
    match members_of(schema) {
        Some(members) => push_marked(text, members, depth - 1),
        None => push_base(text, schema, depth - 1),
    }
}

/// The word of a union of null and one other type.
#[cycle(print)]
fn push_marked(text: &mut Vec<u8>, members: &[AvroSchema], depth: usize) -> Result<()>
    ensures appended { OnOk result (text.new.items ≡ text.old.items
        ++ spec.marked_word (spec.base_word (spec.type_word depth)) members.now) }
    ensures memory { OnlyOutOfMemory result }
{
    let [one, other] = members else {
        return Ok(());
    };
    if is_null(one) {
        push_base(text, other, depth)?;
        push(text, b"?")
    } else {
        push_base(text, one, depth)?;
        push(text, b"!")
    }
}

/// A word without a mark.
#[cycle(print)]
fn push_base(text: &mut Vec<u8>, schema: &AvroSchema, depth: usize) -> Result<()>
    ensures appended { OnOk result (text.new.items ≡ text.old.items
        ++ spec.base_word (spec.type_word depth) schema.now) }
    ensures memory { OnlyOutOfMemory result }
{
    match schema {
        AvroSchema::Null => push(text, b"null"),
        AvroSchema::Boolean => push(text, b"boolean"),
        AvroSchema::Int(logical) => push(text, int_name(*logical).as_bytes()),
        AvroSchema::Long(logical) => push(text, long_name(*logical).as_bytes()),
        AvroSchema::Float => push(text, b"float"),
        AvroSchema::Double => push(text, b"double"),
        AvroSchema::Bytes(logical) => push_bytes(text, *logical),
        AvroSchema::String(logical) => push(text, string_name(*logical).as_bytes()),
        AvroSchema::Record(record) => push_record(text, record.fields.as_slice(), depth),
        AvroSchema::Enum(symbols) => push_enum(text, symbols.symbols.as_slice()),
        AvroSchema::Array(item) => push_list(text, item.get(), depth),
        AvroSchema::Map(_) => Ok(()),
        AvroSchema::Union(_) => Ok(()),
        AvroSchema::Fixed(fixed) => push_fixed(text, fixed.size, fixed.logical),
    }
}

#[cycle(print)]
fn push_list(text: &mut Vec<u8>, item: &AvroSchema, depth: usize) -> Result<()>
    ensures appended { OnOk result (text.new.items ≡ text.old.items
        ++ (codes "[" ++ (spec.type_word depth item.now ++ codes "]"))) }
    ensures memory { OnlyOutOfMemory result }
{
    push(text, b"[")?;
    push_word(text, item, depth)?;
    push(text, b"]")
}

#[cycle(print)]
fn push_record(text: &mut Vec<u8>, fields: &[AvroField], depth: usize) -> Result<()>
    ensures appended { OnOk result (text.new.items ≡ text.old.items ++ (codes "{"
        ++ (spec.joined (codes ";") (map (spec.field_word (spec.type_word depth)) fields.now)
        ++ codes "}"))) }
    ensures memory { OnlyOutOfMemory result }
{
    push(text, b"{")?;
    push_fields(text, fields, depth)?;
    push(text, b"}")
}

#[cycle(print)]
#[tactic(auto, using(crate::proofs::Joins::led_joined))]
fn push_fields(text: &mut Vec<u8>, fields: &[AvroField], depth: usize) -> Result<()>
    ensures appended { OnOk result (text.new.items ≡ text.old.items
        ++ spec.joined (codes ";") (map (spec.field_word (spec.type_word depth)) fields.now)) }
    ensures memory { OnlyOutOfMemory result }
{
    let mut before: &[u8] = b"";
    for field in fields {
        push(text, before)?;
        push_field(text, field, depth)?;
        before = b";";
    }
    Ok(())
}

#[cycle(print)]
fn push_field(text: &mut Vec<u8>, field: &AvroField, depth: usize) -> Result<()>
    ensures appended { OnOk result (text.new.items ≡ text.old.items
        ++ spec.field_word (spec.type_word depth) field.now) }
    ensures memory { OnlyOutOfMemory result }
{
    push(text, field.name.as_str().as_bytes())?;
    push(text, b"=")?;
    push_word(text, &field.schema, depth)
}

/// Appends these bytes. `OutOfMemory` alone.
fn push(text: &mut Vec<u8>, part: &[u8]) -> Result<()>
    ensures appended { OnOk result (text.new.items ≡ text.old.items ++ part.now) }
    ensures memory { OnlyOutOfMemory result }
{
    text.extend_from_slice(part)?;
    Ok(())
}

fn push_number(text: &mut Vec<u8>, number: usize) -> Result<()>
    ensures appended { OnOk result (text.new.items ≡ text.old.items ++ decimal number) }
    ensures memory { OnlyOutOfMemory result }
{
    let mut buffer = Buffer::new();
    push(text, buffer.format(number).as_bytes())
}

fn int_name(logical: Option<IntLogical>) -> &'static str
    ensures { result.now ≡ spec.int_word logical }
{
    match logical {
        None => "int",
        Some(IntLogical::Date) => "date",
        Some(IntLogical::Time) => "time-millis",
    }
}

fn long_name(logical: Option<LongLogical>) -> &'static str
    ensures { result.now ≡ spec.long_word logical }
{
    match logical {
        None => "long",
        Some(LongLogical::Time) => "time-micros",
        Some(LongLogical::TimestampMillis) => "timestamp-millis",
        Some(LongLogical::TimestampMicros) => "timestamp-micros",
        Some(LongLogical::TimestampNanos) => "timestamp-nanos",
        Some(LongLogical::LocalTimestampMillis) => "local-timestamp-millis",
        Some(LongLogical::LocalTimestampMicros) => "local-timestamp-micros",
        Some(LongLogical::LocalTimestampNanos) => "local-timestamp-nanos",
    }
}

fn string_name(logical: Option<StringLogical>) -> &'static str
    ensures { result.now ≡ spec.string_word logical }
{
    match logical {
        None => "string",
        Some(StringLogical::Uuid) => "uuid",
    }
}

fn push_bytes(text: &mut Vec<u8>, logical: Option<BytesLogical>) -> Result<()>
    ensures appended { OnOk result (text.new.items ≡ text.old.items ++ spec.bytes_word logical) }
    ensures memory { OnlyOutOfMemory result }
{
    match logical {
        None => push(text, b"bytes"),
        Some(BytesLogical::Decimal(precision, scale)) => push_bytes_decimal(text, precision, scale),
    }
}

fn push_bytes_decimal(text: &mut Vec<u8>, precision: usize, scale: usize) -> Result<()>
    ensures appended { OnOk result (text.new.items ≡ text.old.items
        ++ (spec.decimal_word precision scale ++ codes ")")) }
    ensures memory { OnlyOutOfMemory result }
{
    push_decimal(text, precision, scale)?;
    push(text, b")")
}

/// The word of a decimal, without what follows its scale.
fn push_decimal(text: &mut Vec<u8>, precision: usize, scale: usize) -> Result<()>
    ensures appended { OnOk result (text.new.items ≡ text.old.items
        ++ spec.decimal_word precision scale) }
    ensures memory { OnlyOutOfMemory result }
{
    push(text, b"decimal(")?;
    push_number(text, precision)?;
    push(text, b",")?;
    push_number(text, scale)
}

fn push_fixed(text: &mut Vec<u8>, size: usize, logical: Option<FixedLogical>) -> Result<()>
    ensures appended { OnOk result (text.new.items ≡ text.old.items ++ spec.fixed_word size logical) }
    ensures memory { OnlyOutOfMemory result }
{
    match logical {
        Some(FixedLogical::Duration) => push(text, b"duration"),
        Some(FixedLogical::Decimal(precision, scale)) => {
            push_decimal(text, precision, scale)?;
            push(text, b",")?;
            push_size(text, size)
        }
        None => {
            push(text, b"fixed(")?;
            push_size(text, size)
        }
    }
}

/// A size, and the parenthesis after it.
fn push_size(text: &mut Vec<u8>, size: usize) -> Result<()>
    ensures appended { OnOk result (text.new.items
        ≡ text.old.items ++ (decimal size ++ codes ")")) }
    ensures memory { OnlyOutOfMemory result }
{
    push_number(text, size)?;
    push(text, b")")
}

fn push_enum(text: &mut Vec<u8>, symbols: &[Text]) -> Result<()>
    ensures appended { OnOk result (text.new.items ≡ text.old.items
        ++ (codes "<" ++ (spec.joined (codes ",") symbols.now ++ codes ">"))) }
    ensures memory { OnlyOutOfMemory result }
{
    push(text, b"<")?;
    push_symbols(text, symbols)?;
    push(text, b">")
}

#[tactic(auto, using(crate::proofs::Joins::led_joined))]
fn push_symbols(text: &mut Vec<u8>, symbols: &[Text]) -> Result<()>
    ensures appended { OnOk result (text.new.items ≡ text.old.items
        ++ spec.joined (codes ",") symbols.now) }
    ensures memory { OnlyOutOfMemory result }
{
    let mut before: &[u8] = b"";
    for symbol in symbols {
        push(text, before)?;
        push(text, symbol.as_str().as_bytes())?;
        before = b",";
    }
    Ok(())
}
