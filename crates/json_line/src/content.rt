//! Strings and bytes that are lent.
ghost use Rattle.std.specs.Prelude.{◌≡◌, ◌++◌, ◌∷◌, [], cond, OnOk};
ghost use Rattle.arrow_core.specs.declared.slot.Slot.TheVariants.{Binary as BinarySlot, Null as NullSlot, String as StringSlot};
ghost use Rattle.json_tree.specs.Grammar.{text_false, text_true};
ghost use Rattle.json_flat.specs.Meaning.{bytes_in, text_in};
ghost use Rattle.json_flat.specs.Columns.{Pushes};
ghost use Rattle.json_lend.specs.Standing.{lent_value};

use arrow_builders::{Content, MutableBinaryArray, MutableContentArray, MutableUtf8Array};
use arrow_core::Offset;
use json_lend::{EscapedString, GivenUp, Lent};

#[inline(always)]
fn push_str<O: Offset>(builder: &mut MutableUtf8Array<O>, value: &str) -> Result<(), GivenUp>
    ensures data_type { builder.new.data_type ≡ builder.old.data_type }
    ensures ok { OnOk result
        (builder.new.slots ≡ builder.old.slots ++ StringSlot value.now ∷ []) }
{
    builder.push(Some(value))?;
    Ok(())
}

// A string that has escapes, after a call, since few have. `buffer` takes its text.
#[inline(never)]
fn push_escaped<'a, O: Offset>(
    buffer: &mut String,
    builder: &mut MutableUtf8Array<O>,
    string: &EscapedString<'a>,
) -> Result<(), GivenUp>
    ensures data_type { builder.new.data_type ≡ builder.old.data_type }
    ensures ok { OnOk result
        (builder.new.slots ≡ builder.old.slots ++ StringSlot string.now ∷ []) }
{
    string.read_into(buffer)?;
    push_str(builder, buffer.as_str())
}

// A null.
#[inline(always)]
fn push_null_content<C: Content, O: Offset>(
    builder: &mut MutableContentArray<C, O>,
) -> Result<(), GivenUp>
    ensures data_type { builder.new.data_type ≡ builder.old.data_type }
    ensures ok { OnOk result (builder.new.slots ≡ builder.old.slots ++ NullSlot ∷ []) }
{
    builder.push_null()?;
    Ok(())
}

fn boolean_text(boolean: bool) -> &'static str
    ensures { result.now ≡ cond boolean text_true text_false }
{
    if boolean { "true" } else { "false" }
}

/// Appends a string, the text of a number without an exponent, or `true` or `false`; and a null for
/// null, an array and an object. A number with an exponent is given up.
#[inline(always)]
pub(crate) fn push_text<'a, O: Offset>(
    buffer: &mut String,
    builder: &mut MutableUtf8Array<O>,
    lent: &Lent<'a>,
) -> Result<(), GivenUp>
    ensures data_type { builder.new.data_type ≡ builder.old.data_type }
    ensures ok { OnOk result
        (Pushes text_in (lent_value lent.now) builder.old.slots builder.new.slots) }
{
    match lent {
        Lent::String(text) => push_str(builder, text),
        Lent::Escaped(string) => push_escaped(buffer, builder, string),
        Lent::Number(mantissa, exponent) => {
            if exponent.is_empty() {
                return push_str(builder, mantissa);
            }
            Err(GivenUp)
        }
        Lent::Bool(boolean) => push_str(builder, boolean_text(*boolean)),
        _ => push_null_content(builder),
    }
}

#[inline(always)]
fn push_slice<O: Offset>(builder: &mut MutableBinaryArray<O>, value: &[u8]) -> Result<(), GivenUp>
    ensures data_type { builder.new.data_type ≡ builder.old.data_type }
    ensures ok { OnOk result
        (builder.new.slots ≡ builder.old.slots ++ BinarySlot value.now ∷ []) }
{
    builder.push(Some(value))?;
    Ok(())
}

// The bytes of a string that has escapes, after a call, since few have. `buffer` takes its text.
#[inline(never)]
fn push_escaped_bytes<'a, O: Offset>(
    buffer: &mut String,
    builder: &mut MutableBinaryArray<O>,
    string: &EscapedString<'a>,
) -> Result<(), GivenUp>
    ensures data_type { builder.new.data_type ≡ builder.old.data_type }
    ensures ok { OnOk result
        (builder.new.slots ≡ builder.old.slots ++ BinarySlot string.now ∷ []) }
{
    string.read_into(buffer)?;
    push_slice(builder, buffer.as_str().as_bytes())
}

/// Appends the bytes of a string, and a null for any other value.
#[inline(always)]
pub(crate) fn push_bytes<'a, O: Offset>(
    buffer: &mut String,
    builder: &mut MutableBinaryArray<O>,
    lent: &Lent<'a>,
) -> Result<(), GivenUp>
    ensures data_type { builder.new.data_type ≡ builder.old.data_type }
    ensures ok { OnOk result
        (Pushes bytes_in (lent_value lent.now) builder.old.slots builder.new.slots) }
{
    match lent {
        Lent::String(text) => push_slice(builder, text.as_bytes()),
        Lent::Escaped(string) => push_escaped_bytes(buffer, builder, string),
        _ => push_null_content(builder),
    }
}
