//! Parts of the texts of schemas in which no schema stands.
ghost use Rattle.std.specs.Prelude.{◌≡◌, ◌++◌, codes, decimal, map, OnOk};
ghost use Rattle.arrow_core.specs.Errors.{OnlyOutOfMemory};
ghost use Rattle.arrow_base.specs.Joined.{joined};
ghost use Rattle.arrow_base.specs.WrittenString.{json_string};
ghost use Rattle.avro_file.specs.Writing as spec;

use arrow_base::write_str;
use arrow_core::{Error, Result, Text};
use avro_schema::{
    BytesLogical, Enum, Fixed, FixedLogical, IntLogical, LongLogical, StringLogical,
};
use itoa::Buffer;

/// Appends these bytes. `OutOfMemory` alone.
pub(crate) fn push(text: &mut Vec<u8>, part: &[u8]) -> Result<()>
    ensures appended { OnOk result (text.new.items ≡ text.old.items ++ part.now) }
    ensures memory { OnlyOutOfMemory result }
{
    text.extend_from_slice(part)?;
    Ok(())
}

/// Appends the JSON string of `value`. `OutOfMemory` alone.
pub(crate) fn push_string(text: &mut Vec<u8>, value: &str) -> Result<()>
    ensures appended { OnOk result (text.new.items ≡ text.old.items ++ json_string value.now) }
    ensures memory { OnlyOutOfMemory result }
{
    match write_str(text, value) {
        Ok(()) => Ok(()),
        Err(_) => Err(Error::OutOfMemory),
    }
}

fn push_number(text: &mut Vec<u8>, number: usize) -> Result<()>
    ensures appended { OnOk result (text.new.items ≡ text.old.items ++ decimal number) }
    ensures memory { OnlyOutOfMemory result }
{
    let mut buffer = Buffer::new();
    push(text, buffer.format(number).as_bytes())
}

/// An attribute that is a JSON string, where it is given, after what stands before it.
pub(crate) fn push_given(text: &mut Vec<u8>, before: &[u8], value: &Option<Text>) -> Result<()>
    ensures appended { OnOk result (text.new.items ≡ text.old.items
        ++ spec.given before.now value.now) }
    ensures memory { OnlyOutOfMemory result }
{
    match value {
        Some(value) => {
            push(text, before)?;
            push_string(text, value.as_str())
        }
        None => Ok(()),
    }
}

/// A primitive type with a logical type.
fn push_logical(text: &mut Vec<u8>, type_name: &str, logical: &str) -> Result<()>
    ensures appended { OnOk result (text.new.items ≡ text.old.items
        ++ spec.logical_text type_name.now logical.now) }
    ensures memory { OnlyOutOfMemory result }
{
    push(text, b"{\"type\":\"")?;
    push(text, type_name.as_bytes())?;
    push(text, b"\",\"logicalType\":\"")?;
    push(text, logical.as_bytes())?;
    push(text, b"\"}")
}

pub(crate) fn push_int(text: &mut Vec<u8>, logical: Option<IntLogical>) -> Result<()>
    ensures appended { OnOk result (text.new.items ≡ text.old.items ++ spec.int_text logical) }
    ensures memory { OnlyOutOfMemory result }
{
    match logical {
        None => push(text, b"\"int\""),
        Some(IntLogical::Date) => push_logical(text, "int", "date"),
        Some(IntLogical::Time) => push_logical(text, "int", "time-millis"),
    }
}

pub(crate) fn push_long(text: &mut Vec<u8>, logical: Option<LongLogical>) -> Result<()>
    ensures appended { OnOk result (text.new.items ≡ text.old.items ++ spec.long_text logical) }
    ensures memory { OnlyOutOfMemory result }
{
    match logical {
        None => push(text, b"\"long\""),
        Some(logical) => push_logical(text, "long", long_name(logical)),
    }
}

fn long_name(logical: LongLogical) -> &'static str
    ensures { result.now ≡ spec.long_name logical }
{
    match logical {
        LongLogical::Time => "time-micros",
        LongLogical::TimestampMillis => "timestamp-millis",
        LongLogical::TimestampMicros => "timestamp-micros",
        LongLogical::LocalTimestampMillis => "local-timestamp-millis",
        LongLogical::LocalTimestampMicros => "local-timestamp-micros",
        LongLogical::TimestampNanos => "timestamp-nanos",
        LongLogical::LocalTimestampNanos => "local-timestamp-nanos",
    }
}

pub(crate) fn push_string_type(text: &mut Vec<u8>, logical: Option<StringLogical>) -> Result<()>
    ensures appended { OnOk result (text.new.items ≡ text.old.items ++ spec.string_text logical) }
    ensures memory { OnlyOutOfMemory result }
{
    match logical {
        None => push(text, b"\"string\""),
        Some(StringLogical::Uuid) => push_logical(text, "string", "uuid"),
    }
}

/// The attributes of a decimal.
fn push_decimal(text: &mut Vec<u8>, precision: usize, scale: usize) -> Result<()>
    ensures appended { OnOk result (text.new.items ≡ text.old.items
        ++ spec.decimal_text precision scale) }
    ensures memory { OnlyOutOfMemory result }
{
    push(text, b",\"logicalType\":\"decimal\",\"precision\":")?;
    push_number(text, precision)?;
    push(text, b",\"scale\":")?;
    push_number(text, scale)
}

pub(crate) fn push_bytes(text: &mut Vec<u8>, logical: Option<BytesLogical>) -> Result<()>
    ensures appended { OnOk result (text.new.items ≡ text.old.items ++ spec.bytes_text logical) }
    ensures memory { OnlyOutOfMemory result }
{
    match logical {
        None => push(text, b"\"bytes\""),
        Some(BytesLogical::Decimal(precision, scale)) => push_bytes_decimal(text, precision, scale),
    }
}

/// A decimal over bytes.
fn push_bytes_decimal(text: &mut Vec<u8>, precision: usize, scale: usize) -> Result<()>
    ensures appended { OnOk result (text.new.items ≡ text.old.items
        ++ (codes "{\"type\":\"bytes\"" ++ spec.decimal_text precision scale ++ codes "}")) }
    ensures memory { OnlyOutOfMemory result }
{
    push(text, b"{\"type\":\"bytes\"")?;
    push_decimal(text, precision, scale)?;
    push(text, b"}")
}

/// The attributes of a fixed type's logical type.
fn push_fixed_logical(text: &mut Vec<u8>, logical: Option<FixedLogical>) -> Result<()>
    ensures appended { OnOk result (text.new.items ≡ text.old.items
        ++ spec.fixed_logical_text logical) }
    ensures memory { OnlyOutOfMemory result }
{
    match logical {
        None => Ok(()),
        Some(FixedLogical::Decimal(precision, scale)) => push_decimal(text, precision, scale),
        Some(FixedLogical::Duration) => push(text, b",\"logicalType\":\"duration\""),
    }
}

pub(crate) fn push_fixed(text: &mut Vec<u8>, fixed: &Fixed) -> Result<()>
    ensures appended { OnOk result (text.new.items ≡ text.old.items ++ spec.fixed_text fixed.now) }
    ensures memory { OnlyOutOfMemory result }
{
    push(text, b"{\"type\":\"fixed\",\"name\":")?;
    push_string(text, fixed.name.as_str())?;
    push_given(text, b",\"namespace\":", &fixed.namespace)?;
    push_given(text, b",\"doc\":", &fixed.doc)?;
    push(text, b",\"size\":")?;
    push_number(text, fixed.size)?;
    push_fixed_logical(text, fixed.logical)?;
    push(text, b"}")
}

pub(crate) fn push_enum(text: &mut Vec<u8>, symbols: &Enum) -> Result<()>
    ensures appended { OnOk result (text.new.items ≡ text.old.items ++ spec.enum_text symbols.now) }
    ensures memory { OnlyOutOfMemory result }
{
    push(text, b"{\"type\":\"enum\",\"name\":")?;
    push_string(text, symbols.name.as_str())?;
    push_given(text, b",\"namespace\":", &symbols.namespace)?;
    push_given(text, b",\"doc\":", &symbols.doc)?;
    push(text, b",\"symbols\":[")?;
    push_strings(text, symbols.symbols.as_slice())?;
    push(text, b"]}")
}

/// JSON strings, with a comma between each two.
#[tactic(auto, using(arrow_base::proofs::Joins::led_joined))]
fn push_strings(text: &mut Vec<u8>, values: &[Text]) -> Result<()>
    ensures appended { OnOk result (text.new.items ≡ text.old.items
        ++ joined (map json_string values.now)) }
    ensures memory { OnlyOutOfMemory result }
{
    let mut before: &[u8] = b"";
    for value in values {
        push(text, before)?;
        push_string(text, value.as_str())?;
        before = b",";
    }
    Ok(())
}
