//! Columns of strings and of bytes.
ghost use Rattle.std.specs.Prelude.{◌≡◌, ◌+◌, ◌<◌, ◌≤◌, ◌++◌, ◌∷◌, [], ◌⊎◌, cond, length, string_bytes, OnOk, IfOk, IfErr};
ghost use Rattle.std.specs.Option.{option_copied};
ghost use Rattle.arrow_array.specs.Parts.{binary_type, utf8_type};
ghost use Rattle.arrow_core.specs.Errors.{OnlyOutOfMemory};
ghost use Rattle.arrow_core.specs.declared.error.Error.TheVariants.{OutOfMemory, Overflow};
ghost use Rattle.arrow_core.specs.Numbers.{greatest_offset};
ghost use Rattle.arrow_core.specs.declared.slot.Slot.TheVariants.{Binary as BinarySlot, String as StringSlot};
ghost use Rattle.arrow_flat.specs.Builders.{optional_slot};
ghost use Rattle.json_tree.specs.Grammar.{text_false, text_true};
ghost use Rattle.json_flat.specs.Meaning.{bytes_in, slot_of, text_in, with_exponent};
ghost use Rattle.json_flat.specs.Columns.{AreSlotsOf, IsColumnFault, IsTextFault, IsTooLong, Pushes, lent, means, size_of};

use arrow_array::{BinaryArray, Utf8Array};
use arrow_core::{Offset, Result};
use arrow_flat::{Container, MutableBinaryArray, MutableUtf8Array};
use json_tree::{Number, Value};
use std::alloc::Global;

// The text of a number that has an exponent, in place of what the buffer holds.
fn write_number(buffer: &mut String, mantissa: &str, exponent: &str) -> Result<()>
    ensures text { OnOk result (string_bytes buffer.new ≡ mantissa.now ++ (101 ∷ exponent.now)) }
    ensures memory { OnlyOutOfMemory result }
{
    buffer.clear();
    buffer.push_str(mantissa)?;
    buffer.push_str("e")?;
    buffer.push_str(exponent)?;
    Ok(())
}

// Appends the text of a number. The buffer takes it where it has an exponent. `Overflow` exactly
// where the strings would have more bytes together than the greatest offset.
fn push_number<O: Offset>(
    builder: &mut MutableUtf8Array<O>,
    buffer: &mut String,
    mantissa: &str,
    exponent: &str,
) -> Result<()>
    ensures data_type { builder.new.data_type ≡ builder.old.data_type }
    ensures ok { OnOk result (builder.new.slots
        ≡ builder.old.slots ++ StringSlot (with_exponent mantissa.now exponent.now) ∷ []) }
    ensures bytes { OnOk result (builder.new.bytes
        ≡ builder.old.bytes + length (with_exponent mantissa.now exponent.now)) }
    ensures within { OnOk result (builder.new.bytes ≤ greatest_offset O.IS_LARGE) }
    ensures err { IfErr result (λ e. (e ≡ OutOfMemory) ⊎ ((e ≡ Overflow)
        × (greatest_offset O.IS_LARGE
        < builder.old.bytes + length (with_exponent mantissa.now exponent.now)))) }
{
    if exponent.is_empty() {
        return builder.push(Some(mantissa));
    }
    write_number(buffer, mantissa, exponent)?;
    builder.push(Some(buffer.as_str()))
}

fn boolean_text(boolean: bool) -> &'static str
    ensures { result.now ≡ cond boolean text_true text_false }
{
    if boolean { "true" } else { "false" }
}

// Appends a string, the text of a number, or `true` or `false`, and else a null. `Overflow`
// exactly where the strings would have more bytes together than the greatest offset.
fn push_text<O: Offset>(
    builder: &mut MutableUtf8Array<O>,
    buffer: &mut String,
    value: &Value,
) -> Result<()>
    ensures data_type { builder.new.data_type ≡ builder.old.data_type }
    ensures ok { OnOk result (Pushes text_in value.now builder.old.slots builder.new.slots) }
    ensures bytes { OnOk result
        (builder.new.bytes ≡ builder.old.bytes + size_of (means text_in value.now)) }
    ensures within { OnOk result (builder.new.bytes ≤ greatest_offset O.IS_LARGE) }
    ensures err { IfErr result
        (IsTextFault (greatest_offset O.IS_LARGE) builder.old.bytes text_in value.now) }
{
    match value {
        Value::String(text) => builder.push(Some(text.as_str())),
        Value::Number(Number::Integer(mantissa, exponent)) => {
            push_number(builder, buffer, mantissa.as_str(), exponent.as_str())
        }
        Value::Number(Number::Float(mantissa, exponent)) => {
            push_number(builder, buffer, mantissa.as_str(), exponent.as_str())
        }
        Value::Bool(boolean) => builder.push(Some(boolean_text(*boolean))),
        _ => builder.push(None),
    }
}

/// The column of strings, one slot a value: a string itself, the text of a number with `e` before its
/// exponent, `true` or `false`, and null for any other value.
///
/// `Overflow` exactly where they have more bytes together than the greatest offset, 2^31 - 1 or
/// 2^63 - 1. `OutOfMemory` may come in place of any answer.
pub fn read_strings<O: Offset>(alloc: Global, values: &[&Value]) -> Result<Utf8Array<O>>
    ensures data_type { IfOk result (λ a. a.data_type ≡ utf8_type O.IS_LARGE) }
    ensures slots { IfOk result (λ a. AreSlotsOf text_in (lent values.now) a.slots) }
    ensures counted { OnOk result
        (IsTooLong (greatest_offset O.IS_LARGE) text_in (lent values.now) → ⊥) }
    ensures err { IfErr result (IsColumnFault text_in
        (IsTooLong (greatest_offset O.IS_LARGE) text_in (lent values.now)) (lent values.now)) }
{
    let mut builder = MutableUtf8Array::<O>::with_capacity(alloc, values.len())?;
    let mut buffer = String::new(alloc);
    for value in values {
        push_text(&mut builder, &mut buffer, value)?;
    }
    builder.as_box()
}

// The bytes of a string; `None` for any other value.
fn bytes_of(value: &Value) -> Option<&[u8]>
    ensures { means bytes_in value.now
        ≡ slot_of (optional_slot BinarySlot (option_copied result)) }
{
    match value {
        Value::String(text) => Some(text.as_str().as_bytes()),
        _ => None,
    }
}

// Appends the bytes of a string, and else a null. `Overflow` exactly where there would be more
// bytes together than the greatest offset.
fn push_bytes<O: Offset>(builder: &mut MutableBinaryArray<O>, value: &Value) -> Result<()>
    ensures data_type { builder.new.data_type ≡ builder.old.data_type }
    ensures ok { OnOk result (Pushes bytes_in value.now builder.old.slots builder.new.slots) }
    ensures bytes { OnOk result
        (builder.new.bytes ≡ builder.old.bytes + size_of (means bytes_in value.now)) }
    ensures within { OnOk result (builder.new.bytes ≤ greatest_offset O.IS_LARGE) }
    ensures err { IfErr result
        (IsTextFault (greatest_offset O.IS_LARGE) builder.old.bytes bytes_in value.now) }
{
    builder.push(bytes_of(value))
}

/// The column of bytes, one slot a value: the bytes of a string, and null for any other value.
///
/// `Overflow` exactly where there are more bytes together than the greatest offset, 2^31 - 1 or
/// 2^63 - 1. `OutOfMemory` may come in place of any answer.
pub fn read_binaries<O: Offset>(alloc: Global, values: &[&Value]) -> Result<BinaryArray<O>>
    ensures data_type { IfOk result (λ a. a.data_type ≡ binary_type O.IS_LARGE) }
    ensures slots { IfOk result (λ a. AreSlotsOf bytes_in (lent values.now) a.slots) }
    ensures counted { OnOk result
        (IsTooLong (greatest_offset O.IS_LARGE) bytes_in (lent values.now) → ⊥) }
    ensures err { IfErr result (IsColumnFault bytes_in
        (IsTooLong (greatest_offset O.IS_LARGE) bytes_in (lent values.now)) (lent values.now)) }
{
    let mut builder = MutableBinaryArray::<O>::with_capacity(alloc, values.len())?;
    for value in values {
        push_bytes(&mut builder, value)?;
    }
    builder.as_box()
}
