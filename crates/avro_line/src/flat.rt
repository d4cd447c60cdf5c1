//! Booleans, numbers and strings.
ghost use Rattle.std.specs.Prelude.{◌≡◌, ◌++◌, OnOk};
ghost use Rattle.std.specs.Str.{IsUtf8};
ghost use Rattle.arrow_base.specs.WrittenString.{json_string};
ghost use Rattle.arrow_core.specs.declared.types.DataType.TheVariants.{Boolean as BooleanType, Utf8};
ghost use Rattle.avro_reference.specs.Read.{boolean_at, int_at, long_at, string_at};
ghost use Rattle.avro_line.specs.Values.{AddsInteger, ShowsSlot, ShowsIntegers, ShowsFlat};

use crate::given_up::GivenUp;
use arrow_core::is_utf8;
use avro_reference::{ByteReader, read_length};
use avro_schema::AvroSchema;
use json_text::{IntegerForm, integer_in_range, push_boolean_if, push_integer_if, push_string};
use std::convert::AsSlice;

/// Appends the text of a value of a schema that has no others in it.
///
/// `GivenUp` may come at any time, and then anything may have been appended.
#[inline(always)]
pub(crate) fn push_flat<A: ByteReader>(
    out: &mut Vec<u8>,
    cursor: &mut A,
    schema: &AvroSchema,
    form: &IntegerForm,
) -> Result<(), GivenUp>
    ensures { OnOk result (ShowsFlat schema.now form.now
        (A.rest cursor.old) (A.rest cursor.new) out.old.items out.new.items) }
{
    match schema {
        AvroSchema::Boolean => push_boolean(out, cursor),
        AvroSchema::Int(_) => push_int(out, cursor, form),
        AvroSchema::Long(_) => push_long(out, cursor, form),
        AvroSchema::String(_) => push_text(out, cursor),
        _ => Err(GivenUp),
    }
}

/// Appends the text of a boolean: one byte, 0 or 1.
#[inline(always)]
fn push_boolean<A: ByteReader>(out: &mut Vec<u8>, cursor: &mut A) -> Result<(), GivenUp>
    ensures { OnOk result (ShowsSlot boolean_at BooleanType
        (A.rest cursor.old) (A.rest cursor.new) out.old.items out.new.items) }
{
    let Some(byte) = cursor.byte() else {
        return Err(GivenUp);
    };
    if byte > 1 {
        return Err(GivenUp);
    }
    push_boolean_if(out, true, byte == 1)?;
    Ok(())
}

/// Appends the text of a number of 32 bits.
#[inline(always)]
fn push_int<A: ByteReader>(
    out: &mut Vec<u8>,
    cursor: &mut A,
    form: &IntegerForm,
) -> Result<(), GivenUp>
    ensures { OnOk result (ShowsIntegers int_at form.now
        (A.rest cursor.old) (A.rest cursor.new) out.old.items out.new.items) }
{
    let Some(number) = cursor.number() else {
        return Err(GivenUp);
    };
    match i32::try_from(number) {
        Ok(_) => push_formed(out, form, number),
        Err(_) => Err(GivenUp),
    }
}

/// Appends the text of a number of 64 bits.
#[inline(always)]
fn push_long<A: ByteReader>(
    out: &mut Vec<u8>,
    cursor: &mut A,
    form: &IntegerForm,
) -> Result<(), GivenUp>
    ensures { OnOk result (ShowsIntegers long_at form.now
        (A.rest cursor.old) (A.rest cursor.new) out.old.items out.new.items) }
{
    let Some(number) = cursor.number() else {
        return Err(GivenUp);
    };
    push_formed(out, form, number)
}

/// Appends the text of an integer by its form. A date out of range is given up.
#[inline(always)]
fn push_formed(out: &mut Vec<u8>, form: &IntegerForm, number: i64) -> Result<(), GivenUp>
    ensures { OnOk result (AddsInteger form.now number out.old.items out.new.items) }
{
    if !integer_in_range(form, number) {
        return Err(GivenUp);
    }
    push_integer_if(out, form, true, number)?;
    Ok(())
}

/// Appends the text of a string: a length of 0 or more, and as many bytes, which have to be UTF-8.
// Inlined wherever a value is read it would make the other values slower.
#[inline(never)]
fn push_text<A: ByteReader>(out: &mut Vec<u8>, cursor: &mut A) -> Result<(), GivenUp>
    ensures { OnOk result (ShowsSlot string_at Utf8
        (A.rest cursor.old) (A.rest cursor.new) out.old.items out.new.items) }
{
    let Some(length) = read_length(cursor) else {
        return Err(GivenUp);
    };
    let Some(bytes) = cursor.take(length) else {
        return Err(GivenUp);
    };
    push_bytes(out, bytes.as_slice())
}

/// Appends the text of a string, which has to be UTF-8.
#[inline(always)]
fn push_bytes(out: &mut Vec<u8>, bytes: &[u8]) -> Result<(), GivenUp>
    ensures utf8 { OnOk result (IsUtf8 bytes.now) }
    ensures ok { OnOk result (out.new.items ≡ out.old.items ++ json_string bytes.now) }
{
    if !is_utf8(bytes) {
        return Err(GivenUp);
    }
    let string = unsafe { std::str::from_utf8_unchecked(bytes) };
    push_string(out, string)?;
    Ok(())
}
