//! Values that are skipped (RFC 8259, sections 3 to 5). Nothing of them is kept.
ghost use Rattle.std.specs.Prelude.{◌≡◌, ◌≢◌, ◌≤◌, length, IfErr};
ghost use Rattle.json_tree.specs.Reading.{scalar_at, array_at, object_at, value_at};
ghost use Rattle.json_lend.specs.Skips.{Skips};

use crate::numbers::skip_number;
use crate::strings::skip_string;
use json_tree::JsonFault;
use json_tree::grammar::{closes, goes_on, literal, name_separator};
use json_tree::reader::Reader;

// A value that is no array and no object.
#[inline(always)]
fn skip_scalar<'a>(reader: &mut Reader<'a>) -> Result<(), JsonFault>
    ensures reads { Skips result reader.new (scalar_at reader.old) }
    ensures forward { length reader.new ≤ length reader.old }
    ensures no_memory { IfErr result (λ e. e ≢ JsonFault.Memory) }
{
    let Some(byte) = reader.peek() else {
        return Err(JsonFault::Text);
    };
    if byte == b'"' {
        return skip_string(reader);
    }
    if byte == b'n' {
        return literal(reader, b"null");
    }
    if byte == b't' {
        return literal(reader, b"true");
    }
    if byte == b'f' {
        return literal(reader, b"false");
    }
    skip_number(reader)
}

/// Skips a value in which at most `depth` brackets are open at once. Its first byte is next. `Depth`
/// where one bracket more is open, else `Text` where no value stands there.
#[cycle(value)]
#[tactic(auto, unfolding(json_tree::specs::Reading::value_at))]
#[inline(always)]
pub fn skip_value<'a>(reader: &mut Reader<'a>, depth: usize) -> Result<(), JsonFault>
    ensures reads { Skips result reader.new (value_at depth reader.old) }
    ensures forward { length reader.new ≤ length reader.old }
    ensures no_memory { IfErr result (λ e. e ≢ JsonFault.Memory) }
{
    let Some(byte) = reader.peek() else {
        return Err(JsonFault::Text);
    };
    if byte == b'[' {
        reader.next();
        if depth == 0 {
            return Err(JsonFault::Depth);
        }
        return skip_array(reader, depth - 1);
    }
    if byte == b'{' {
        reader.next();
        if depth == 0 {
            return Err(JsonFault::Depth);
        }
        return skip_object(reader, depth - 1);
    }
    skip_scalar(reader)
}

/// Skips what follows the opening bracket of an array.
#[cycle(value)]
#[inline(never)]
pub(crate) fn skip_array<'a>(reader: &mut Reader<'a>, depth: usize) -> Result<(), JsonFault>
    ensures reads { Skips result reader.new (array_at (value_at depth) reader.old) }
    ensures forward { length reader.new ≤ length reader.old }
    ensures no_memory { IfErr result (λ e. e ≢ JsonFault.Memory) }
{
    if closes(reader, b']') {
        return Ok(());
    }
    loop {
        reader.skip_spaces();
        skip_value(reader, depth)?;
        if !goes_on(reader, b']')? {
            return Ok(());
        }
    }
}

/// Skips what follows the opening bracket of an object.
#[cycle(value)]
#[inline(never)]
pub(crate) fn skip_object<'a>(reader: &mut Reader<'a>, depth: usize) -> Result<(), JsonFault>
    ensures reads { Skips result reader.new (object_at (value_at depth) reader.old) }
    ensures forward { length reader.new ≤ length reader.old }
    ensures no_memory { IfErr result (λ e. e ≢ JsonFault.Memory) }
{
    if closes(reader, b'}') {
        return Ok(());
    }
    loop {
        reader.skip_spaces();
        skip_string(reader)?;
        name_separator(reader)?;
        reader.skip_spaces();
        skip_value(reader, depth)?;
        if !goes_on(reader, b'}')? {
            return Ok(());
        }
    }
}
