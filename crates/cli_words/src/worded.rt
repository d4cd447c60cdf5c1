//! Which types have a word.
ghost use Rattle.std.specs.Prelude.{◌≡◌};
ghost use Rattle.std.specs.List.{list_all};
ghost use Rattle.std.specs.Option.{option_copied};
ghost use Rattle.avro_schema.specs.Encodes.{is_null as is_null_of};
ghost use Rattle.cli_words.specs.Printed as spec;

use crate::names::{GREATEST_SIZE, is_name};
use crate::plain::DURATION_SIZE;
use arrow_core::Text;
use avro_schema::{AvroField, AvroSchema, BytesLogical, FixedLogical};

/// Whether a type in which types nest at most `depth` deep has a word.
#[cycle(worded)]
pub(crate) fn has_type(schema: &AvroSchema, depth: usize) -> bool
    ensures { result ≡ spec.has_type depth schema.now }
{
    if depth == 0 {
        return false;
    }
    match members_of(schema) {
        Some(members) => has_marked(members, depth - 1),
        None => has_base(schema, depth - 1),
    }
}

/// Whether a union of these members has a word.
#[cycle(worded)]
fn has_marked(members: &[AvroSchema], depth: usize) -> bool
    ensures { result ≡ spec.has_marked (spec.has_base (spec.has_type depth)) members.now }
{
    let [one, other] = members else {
        return false;
    };
    if is_null(one) {
        has_base(other, depth)
    } else {
        is_null(other) && has_base(one, depth)
    }
}

/// Whether a type has a word without a mark.
#[cycle(worded)]
fn has_base(schema: &AvroSchema, depth: usize) -> bool
    ensures { result ≡ spec.has_base (spec.has_type depth) schema.now }
{
    match schema {
        AvroSchema::Null => true,
        AvroSchema::Boolean => true,
        AvroSchema::Int(_) => true,
        AvroSchema::Long(_) => true,
        AvroSchema::Float => true,
        AvroSchema::Double => true,
        AvroSchema::Bytes(logical) => has_bytes(*logical),
        AvroSchema::String(_) => true,
        AvroSchema::Record(record) => has_fields(record.fields.as_slice(), depth),
        AvroSchema::Enum(symbols) => has_symbols(symbols.symbols.as_slice()),
        AvroSchema::Array(item) => has_type(item.get(), depth),
        AvroSchema::Map(_) => false,
        AvroSchema::Union(_) => false,
        AvroSchema::Fixed(fixed) => has_fixed(fixed.size, fixed.logical),
    }
}

/// Whether the fields have words.
#[cycle(worded)]
fn has_fields(fields: &[AvroField], depth: usize) -> bool
    ensures { result ≡ list_all (spec.has_field (spec.has_type depth)) fields.now }
{
    for field in fields {
        if !has_field(field, depth) {
            return false;
        }
    }
    true
}

/// Whether a field has a word.
#[cycle(worded)]
fn has_field(field: &AvroField, depth: usize) -> bool
    ensures { result ≡ spec.has_field (spec.has_type depth) field.now }
{
    is_name_text(field.name.as_str()) && has_type(&field.schema, depth)
}

/// The members of a union.
pub(crate) fn members_of(schema: &AvroSchema) -> Option<&[AvroSchema]>
    ensures { option_copied result ≡ spec.members_of schema.now }
{
    match schema {
        AvroSchema::Union(members) => Some(members.as_slice()),
        _ => None,
    }
}

pub(crate) fn is_null(schema: &AvroSchema) -> bool
    ensures { result ≡ is_null_of schema.now }
{
    matches!(schema, AvroSchema::Null)
}

fn is_name_text(name: &str) -> bool
    ensures { result ≡ spec.is_name_text name.now }
{
    is_name(name)
}

/// Whether there is a symbol, and each is a name.
fn has_symbols(symbols: &[Text]) -> bool
    ensures { result ≡ spec.has_symbols symbols.now }
{
    !symbols.is_empty() && are_names(symbols)
}

fn are_names(symbols: &[Text]) -> bool
    ensures { result ≡ list_all spec.is_name_text symbols.now }
{
    for symbol in symbols {
        if !is_name_text(symbol.as_str()) {
            return false;
        }
    }
    true
}

fn has_bytes(logical: Option<BytesLogical>) -> bool
    ensures { result ≡ spec.has_bytes logical }
{
    match logical {
        None => true,
        Some(BytesLogical::Decimal(precision, scale)) => are_digits(precision, scale),
    }
}

fn has_fixed(size: usize, logical: Option<FixedLogical>) -> bool
    ensures { result ≡ spec.has_fixed size logical }
{
    match logical {
        None => is_size(size),
        Some(FixedLogical::Duration) => size == DURATION_SIZE,
        Some(FixedLogical::Decimal(precision, scale)) => {
            are_digits(precision, scale) && is_size(size)
        }
    }
}

fn are_digits(precision: usize, scale: usize) -> bool
    ensures { result ≡ spec.are_digits precision scale }
{
    is_size(precision) && is_size(scale) && 1 <= precision && scale <= precision
}

fn is_size(number: usize) -> bool
    ensures { result ≡ spec.is_size number }
{
    number <= GREATEST_SIZE
}
