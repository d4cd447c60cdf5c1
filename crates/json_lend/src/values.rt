//! Values that are lent, one after another (RFC 8259, section 3).
ghost use Rattle.std.specs.Prelude.{◌≡◌, ◌≢◌, ◌≤◌, length, IfErr};
ghost use Rattle.json_tree.specs.Reading.{scalar_at, string_at, array_at, object_at, value_at, bind, found, strip};
ghost use Rattle.json_tree.specs.Tree.{string};
ghost use Rattle.json_tree.specs.Gives.{Gives};
ghost use Rattle.json_lend.specs.Standing.{lent_value};

use crate::lent::{EscapedString, Lent, LentArray, LentObject};
use crate::numbers::lend_number;
use crate::skip::{skip_array, skip_object};
use crate::strings::skip_escaped;
use json_tree::JsonFault;
use json_tree::grammar::literal;
use json_tree::reader::Reader;

// A string of any kind, after a call, since few have escapes.
#[inline(never)]
fn lend_escaped<'a>(reader: &mut Reader<'a>) -> Result<Lent<'a>, JsonFault>
    ensures reads { Gives lent_value result reader.new
        (bind (string_at reader.old) (λ s r. found (string s) r)) }
    ensures forward { length reader.new ≤ length reader.old }
    ensures no_memory { IfErr result (λ e. e ≢ JsonFault.Memory) }
{
    let start = reader.again();
    skip_escaped(reader)?;
    Ok(Lent::Escaped(EscapedString { reader: start }))
}

#[inline(always)]
fn lend_string<'a>(reader: &mut Reader<'a>) -> Result<Lent<'a>, JsonFault>
    ensures reads { Gives lent_value result reader.new
        (bind (string_at reader.old) (λ s r. found (string s) r)) }
    ensures forward { length reader.new ≤ length reader.old }
    ensures no_memory { IfErr result (λ e. e ≢ JsonFault.Memory) }
{
    if let Some(run) = reader.plain_string() {
        return Ok(Lent::String(run));
    }
    lend_escaped(reader)
}

// The value for which this word stands.
#[inline(always)]
fn lend_word<'a>(
    reader: &mut Reader<'a>,
    word: &[u8],
    value: Lent<'a>,
) -> Result<Lent<'a>, JsonFault>
    ensures reads { Gives lent_value result reader.new
        (bind (strip word.now reader.old) (λ _ r. found (lent_value value.entry) r)) }
    ensures forward { length reader.new ≤ length reader.old }
    ensures no_memory { IfErr result (λ e. e ≢ JsonFault.Memory) }
{
    literal(reader, word)?;
    Ok(value)
}

// A value that is no array and no object.
#[inline(always)]
fn lend_scalar<'a>(reader: &mut Reader<'a>) -> Result<Lent<'a>, JsonFault>
    ensures reads { Gives lent_value result reader.new (scalar_at reader.old) }
    ensures forward { length reader.new ≤ length reader.old }
    ensures no_memory { IfErr result (λ e. e ≢ JsonFault.Memory) }
{
    let Some(byte) = reader.peek() else {
        return Err(JsonFault::Text);
    };
    if byte == b'"' {
        return lend_string(reader);
    }
    if byte == b'n' {
        return lend_word(reader, b"null", Lent::Null);
    }
    if byte == b't' {
        return lend_word(reader, b"true", Lent::Bool(true));
    }
    if byte == b'f' {
        return lend_word(reader, b"false", Lent::Bool(false));
    }
    lend_number(reader)
}

// What follows the opening bracket of an array. It is skipped whole.
#[inline(never)]
fn lend_array<'a>(reader: &mut Reader<'a>, depth: usize) -> Result<Lent<'a>, JsonFault>
    ensures reads { Gives lent_value result reader.new (array_at (value_at depth) reader.old) }
    ensures forward { length reader.new ≤ length reader.old }
    ensures no_memory { IfErr result (λ e. e ≢ JsonFault.Memory) }
{
    let start = reader.again();
    skip_array(reader, depth)?;
    Ok(Lent::Array(LentArray {
        reader: start,
        depth,
    }))
}

// What follows the opening bracket of an object. It is skipped whole.
#[inline(never)]
fn lend_object<'a>(reader: &mut Reader<'a>, depth: usize) -> Result<Lent<'a>, JsonFault>
    ensures reads { Gives lent_value result reader.new (object_at (value_at depth) reader.old) }
    ensures forward { length reader.new ≤ length reader.old }
    ensures no_memory { IfErr result (λ e. e ≢ JsonFault.Memory) }
{
    let start = reader.again();
    skip_object(reader, depth)?;
    Ok(Lent::Object(LentObject {
        reader: start,
        depth,
    }))
}

/// The value whose first byte is next, in which at most `depth` brackets are open at once. It is
/// checked and skipped. `Depth` where one bracket more is open, else `Text` where no value stands
/// there.
#[inline(always)]
#[tactic(auto, unfolding(json_tree::specs::Reading::value_at))]
pub fn lend<'a>(reader: &mut Reader<'a>, depth: usize) -> Result<Lent<'a>, JsonFault>
    ensures reads { Gives lent_value result reader.new (value_at depth reader.old) }
    ensures forward { length reader.new ≤ length reader.old }
    ensures no_memory { IfErr result (λ e. e ≢ JsonFault.Memory) }
{
    let Some(byte) = reader.peek() else {
        return Err(JsonFault::Text);
    };
    if byte == b'[' {
        reader.next();
        if depth == 0 {
            return Err(JsonFault::Depth);
        }
        return lend_array(reader, depth - 1);
    }
    if byte == b'{' {
        reader.next();
        if depth == 0 {
            return Err(JsonFault::Depth);
        }
        return lend_object(reader, depth - 1);
    }
    lend_scalar(reader)
}
