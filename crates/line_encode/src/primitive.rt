//! Values without others in them: booleans, numbers and strings.
ghost use Rattle.std.specs.Prelude.{◌≡◌, ◌++◌, ◌∷◌, [], ◌≤◌, ◌<◌, ◌^◌, true, length, OnOk};
ghost use Rattle.json_tree.specs.Reading.{found, value_at};
ghost use Rattle.json_tree.specs.Tree.{boolean, null, number, string};
ghost use Rattle.json_lend.specs.Standing.{lent_value};
ghost use Rattle.line_encode.specs.Plans.{index, Adds, OrNull, Reads, WritesBoolean, WritesBytes, WritesPrimitive};

use crate::plan::Primitive;
use avro_encode::{append_counted, append_counted_after, append_number};
use json_flat::IntegerText;
use json_lend::{EscapedString, GivenUp, Lent, lend};
use json_tree::reader::Reader;
use std::alloc::Global;

/// Appends the index of the value's schema in a union, where there is one: 1, whose encoding is the
/// byte 2 (Avro 1.11, "Unions").
#[inline(always)]
pub(crate) fn push_index(nullable: bool, out: &mut Vec<u8>) -> Result<(), GivenUp>
    ensures { OnOk result (out.new.items ≡ out.old.items ++ index nullable) }
{
    if nullable {
        out.push(2)?;
    }
    Ok(())
}

/// Appends the index of null in a union, which is 0. Where null may not stand it is given up.
#[inline(always)]
pub(crate) fn push_null(nullable: bool, out: &mut Vec<u8>) -> Result<(), GivenUp>
    ensures nullable { OnOk result (nullable ≡ true) }
    ensures ok { OnOk result (out.new.items ≡ out.old.items ++ 0 ∷ []) }
{
    if !nullable {
        return Err(GivenUp);
    }
    out.push(0)?;
    Ok(())
}

/// Reads `null` where it may stand, and appends it.
#[inline(never)]
pub(crate) fn read_null<'a>(
    reader: &mut Reader<'a>,
    depth: usize,
    nullable: bool,
    out: &mut Vec<u8>,
) -> Result<(), GivenUp>
    ensures forward { length reader.new ≤ length reader.old }
    ensures nullable { OnOk result (nullable ≡ true) }
    ensures null { OnOk result (value_at depth reader.old ≡ found null reader.new) }
    ensures ok { OnOk result (out.new.items ≡ out.old.items ++ 0 ∷ []) }
{
    match lend(reader, depth)? {
        Lent::Null => push_null(nullable, out),
        _ => Err(GivenUp),
    }
}

/// There are less than 2^63 bytes. It tells so of a slice, and does nothing.
#[inline(always)]
fn length_bound(_bytes: &[u8])
    ensures { length _bytes.now < 2 ^ 63 }
{}

/// Appends a boolean.
#[inline(always)]
fn push_boolean(nullable: bool, value: bool, out: &mut Vec<u8>) -> Result<(), GivenUp>
    ensures { OnOk result (Adds (OrNull nullable WritesBoolean (boolean value))
        out.old.items out.new.items) }
{
    push_index(nullable, out)?;
    out.push(value as u8)?;
    Ok(())
}

/// Appends a number of 32 bits, from the parts of its text.
#[inline(always)]
fn push_int(
    nullable: bool,
    mantissa: &str,
    exponent: &str,
    out: &mut Vec<u8>,
) -> Result<(), GivenUp>
    ensures { OnOk result
        (Adds (OrNull nullable (WritesPrimitive Primitive.Int) (number mantissa.now exponent.now))
        out.old.items out.new.items) }
{
    let Some(value) = i32::from_parts(mantissa, exponent) else {
        return Err(GivenUp);
    };
    push_index(nullable, out)?;
    append_number(value as i64, out)?;
    Ok(())
}

/// Appends a number of 64 bits, from the parts of its text.
#[inline(always)]
fn push_long(
    nullable: bool,
    mantissa: &str,
    exponent: &str,
    out: &mut Vec<u8>,
) -> Result<(), GivenUp>
    ensures { OnOk result
        (Adds (OrNull nullable (WritesPrimitive Primitive.Long) (number mantissa.now exponent.now))
        out.old.items out.new.items) }
{
    let Some(value) = i64::from_parts(mantissa, exponent) else {
        return Err(GivenUp);
    };
    push_index(nullable, out)?;
    append_number(value, out)?;
    Ok(())
}

/// Appends a string.
#[inline(always)]
fn push_text(nullable: bool, text: &str, out: &mut Vec<u8>) -> Result<(), GivenUp>
    ensures { OnOk result (Adds (OrNull nullable WritesBytes (string text.now))
        out.old.items out.new.items) }
{
    let bytes = text.as_bytes();
    length_bound(bytes);
    if nullable {
        append_counted_after(2, bytes, out)?;
    } else {
        append_counted(bytes, out)?;
    }
    Ok(())
}

/// Appends a string that has escapes, after a call, since few have.
#[inline(never)]
fn push_escaped<'a>(
    alloc: Global,
    nullable: bool,
    escaped: &EscapedString<'a>,
    out: &mut Vec<u8>,
) -> Result<(), GivenUp>
    ensures { OnOk result (Adds (OrNull nullable WritesBytes (string escaped.now))
        out.old.items out.new.items) }
{
    let text = escaped.to_text(alloc)?;
    push_text(nullable, text.as_str(), out)
}

/// Appends a value that was lent. One of another kind is given up.
#[inline(always)]
fn push_lent<'a>(
    alloc: Global,
    lent: &Lent<'a>,
    nullable: bool,
    primitive: Primitive,
    out: &mut Vec<u8>,
) -> Result<(), GivenUp>
    ensures { OnOk result (Adds (OrNull nullable (WritesPrimitive primitive) (lent_value lent.now))
        out.old.items out.new.items) }
{
    match (primitive, lent) {
        (Primitive::Bytes, Lent::String(text)) => push_text(nullable, text, out),
        (Primitive::Bytes, Lent::Escaped(string)) => push_escaped(alloc, nullable, string, out),
        (Primitive::Int, Lent::Number(mantissa, exponent)) => {
            push_int(nullable, mantissa, exponent, out)
        }
        (Primitive::Long, Lent::Number(mantissa, exponent)) => {
            push_long(nullable, mantissa, exponent, out)
        }
        (Primitive::Boolean, Lent::Bool(value)) => push_boolean(nullable, *value, out),
        (_, Lent::Null) => push_null(nullable, out),
        _ => Err(GivenUp),
    }
}

/// Reads a value without others in it, and appends it.
#[inline(always)]
pub(crate) fn push_primitive<'a>(
    alloc: Global,
    reader: &mut Reader<'a>,
    depth: usize,
    nullable: bool,
    primitive: Primitive,
    out: &mut Vec<u8>,
) -> Result<(), GivenUp>
    ensures forward { length reader.new ≤ length reader.old }
    ensures ok { OnOk result (Reads (OrNull nullable (WritesPrimitive primitive)) (value_at depth)
        reader.old reader.new out.old.items out.new.items) }
{
    let lent = lend(reader, depth)?;
    push_lent(alloc, &lent, nullable, primitive, out)
}
