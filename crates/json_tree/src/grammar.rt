//! Values, arrays and objects (RFC 8259, sections 3 to 5).
ghost use Rattle.std.specs.Prelude.{◌≡◌, ◌≢◌, ◌≤◌, ◌<◌, ◌++◌, [], ◌∷◌, length, OnOk, IfErr, MatchBool, MatchResult};
ghost use Rattle.json_tree.specs.Tree.{null, boolean, string};
ghost use Rattle.json_tree.specs.Grammar.{text_null};
ghost use Rattle.json_tree.specs.Reading.{skip, First, strip, bind, found, wrong, scalar_at, array_at, object_at, value_at, string_at};
ghost use Rattle.json_tree.specs.Gives.{Gives};

use crate::members::Members;
use crate::number::number;
use crate::reader::Reader;
use crate::strings::{escaped_string, owned, string};
use crate::value::{Blank, JsonFault, Object, Value};
use arrow_core::Items;
use std::alloc::Global;

/// The capacity of an array that has an item.
const FIRST_CAPACITY: usize = 4;

// One more item, for which the array may have to grow.
#[inline(never)]
fn push_growing<T: Blank>(items: &mut Vec<T>) -> Result<(), JsonFault>
    ensures pushed { OnOk result ((item : T) × (items.new.items ≡ items.old.items ++ item ∷ [])) }
    ensures memory { IfErr result (λ e. e ≡ JsonFault.Memory) }
{
    if items.reserve(1).is_err() {
        return Err(JsonFault::Memory);
    }
    items.push_reserved(T::blank());
    Ok(())
}

// One more item, which is blank. Where there is spare capacity, it is made where it stays.
fn push_blank<T: Blank>(items: &mut Vec<T>) -> Result<(), JsonFault>
    ensures pushed { OnOk result ((item : T) × (items.new.items ≡ items.old.items ++ item ∷ [])) }
    ensures memory { IfErr result (λ e. e ≡ JsonFault.Memory) }
{
    if items.len() < items.capacity() {
        items.push_reserved(T::blank());
        return Ok(());
    }
    push_growing(items)
}

// No items yet, and capacity for a few.
fn reserved_items<T: Drop>(alloc: Global) -> Result<Vec<T>, JsonFault>
    ensures { MatchResult result (λ items. items.items ≡ []) (λ e. e ≡ JsonFault.Memory) }
{
    match Vec::with_capacity(alloc, FIRST_CAPACITY) {
        Ok(items) => Ok(items),
        Err(_) => Err(JsonFault::Memory),
    }
}

/// Whether the closing bracket is next, after white space. Then it is passed.
pub fn closes<'a>(reader: &mut Reader<'a>, close: u8) -> bool
    ensures forward { length reader.new ≤ length reader.old }
    ensures found { MatchBool result (skip reader.old ≡ close ∷ reader.new)
        ((reader.new ≡ skip reader.old) × First (λ x t. x ≢ close) (skip reader.old)) }
{
    reader.skip_spaces();
    reader.takes(close)
}

/// Passes a comma or the closing bracket, after white space, and tells whether it was the comma.
/// `Text` where neither is next.
pub fn goes_on<'a>(reader: &mut Reader<'a>, close: u8) -> Result<bool, JsonFault>
    ensures forward { length reader.new ≤ length reader.old }
    ensures shorter { OnOk result (length reader.new < length reader.old) }
    ensures found { MatchResult result
        (λ b. MatchBool b (skip reader.old ≡ 44 ∷ reader.new)
        ((skip reader.old ≡ close ∷ reader.new) × (close ≢ 44)))
        (λ e. (e ≡ JsonFault.Text) × First (λ x t. (x ≢ 44) × (x ≢ close)) (skip reader.old)) }
{
    reader.skip_spaces();
    match reader.next() {
        Some(byte) => {
            if byte == b',' {
                Ok(true)
            } else if byte == close {
                Ok(false)
            } else {
                Err(JsonFault::Text)
            }
        }
        None => Err(JsonFault::Text),
    }
}

/// Passes this word. `Text` where the bytes ahead don't begin with it.
#[inline(always)]
pub fn literal<'a>(reader: &mut Reader<'a>, word: &[u8]) -> Result<(), JsonFault>
    ensures reads { MatchResult result (λ _. strip word.now reader.old ≡ found tt reader.new)
        (λ e. (e ≡ JsonFault.Text) × (strip word.now reader.old ≡ wrong)) }
    ensures forward { length reader.new ≤ length reader.old }
{
    if !reader.rest().starts_with(word) {
        return Err(JsonFault::Text);
    }
    reader.advance(word.len());
    Ok(())
}

#[inline(never)]
fn null_value<'a>(reader: &mut Reader<'a>, out: &mut Value) -> Result<(), JsonFault>
    ensures reads { Gives (λ _. out.new) result reader.new
        (bind (strip text_null reader.old) (λ _ r. found null r)) }
    ensures forward { length reader.new ≤ length reader.old }
{
    literal(reader, b"null")?;
    out.fill(Value::Null);
    Ok(())
}

// The boolean for which this word stands.
#[inline(never)]
fn boolean_value<'a>(
    reader: &mut Reader<'a>,
    word: &[u8],
    value: bool,
    out: &mut Value,
) -> Result<(), JsonFault>
    ensures reads { Gives (λ _. out.new) result reader.new
        (bind (strip word.now reader.old) (λ _ r. found (boolean value) r)) }
    ensures forward { length reader.new ≤ length reader.old }
{
    literal(reader, word)?;
    out.fill(Value::Bool(value));
    Ok(())
}

// The string that consists of these characters.
#[inline(always)]
fn plain_value(alloc: Global, text: &str, out: &mut Value) -> Result<(), JsonFault>
    ensures { MatchResult result (λ _. out.new ≡ string text.now) (λ e. e ≡ JsonFault.Memory) }
{
    let text = owned(alloc, text)?;
    out.fill(Value::String(text));
    Ok(())
}

// A string of any kind. It stands after a call, since few have escapes.
#[inline(never)]
fn escaped_value<'a>(
    alloc: Global,
    reader: &mut Reader<'a>,
    out: &mut Value,
) -> Result<(), JsonFault>
    ensures reads { Gives (λ _. out.new) result reader.new
        (bind (string_at reader.old) (λ s r. found (string s) r)) }
    ensures forward { length reader.new ≤ length reader.old }
{
    let text = escaped_string(alloc, reader)?;
    out.fill(Value::String(text));
    Ok(())
}

#[inline(never)]
fn string_value<'a>(
    alloc: Global,
    reader: &mut Reader<'a>,
    out: &mut Value,
) -> Result<(), JsonFault>
    ensures reads { Gives (λ _. out.new) result reader.new
        (bind (string_at reader.old) (λ s r. found (string s) r)) }
    ensures forward { length reader.new ≤ length reader.old }
{
    if let Some(run) = reader.plain_string() {
        return plain_value(alloc, run, out);
    }
    escaped_value(alloc, reader, out)
}

// A value that is no array and no object.
#[inline(always)]
fn scalar<'a>(alloc: Global, reader: &mut Reader<'a>, out: &mut Value) -> Result<(), JsonFault>
    ensures reads { Gives (λ _. out.new) result reader.new (scalar_at reader.old) }
    ensures forward { length reader.new ≤ length reader.old }
{
    let Some(byte) = reader.peek() else {
        return Err(JsonFault::Text);
    };
    if byte == b'"' {
        return string_value(alloc, reader, out);
    }
    if byte == b'n' {
        return null_value(reader, out);
    }
    if byte == b't' {
        return boolean_value(reader, b"true", true, out);
    }
    if byte == b'f' {
        return boolean_value(reader, b"false", false, out);
    }
    number(alloc, reader, out)
}

/// A value in which at most `depth` brackets are open at once. It is written to `out`, as by each
/// of these functions, so that it isn't moved through the results of nested calls. After a fault
/// `out` has any value.
#[cycle(value)]
#[tactic(auto, unfolding(crate::specs::Reading::value_at))]
#[inline(always)]
pub(crate) fn value<'a>(
    alloc: Global,
    reader: &mut Reader<'a>,
    depth: usize,
    out: &mut Value,
) -> Result<(), JsonFault>
    ensures reads { Gives (λ _. out.new) result reader.new (value_at depth reader.old) }
    ensures forward { length reader.new ≤ length reader.old }
{
    let Some(byte) = reader.peek() else {
        return Err(JsonFault::Text);
    };
    if byte == b'[' {
        reader.next();
        if depth == 0 {
            return Err(JsonFault::Depth);
        }
        return array(alloc, reader, depth - 1, out);
    }
    if byte == b'{' {
        reader.next();
        if depth == 0 {
            return Err(JsonFault::Depth);
        }
        return object(alloc, reader, depth - 1, out);
    }
    scalar(alloc, reader, out)
}

// What follows the opening bracket of an array. An item is made blank first and is read into.
#[cycle(value)]
#[inline(never)]
fn array<'a>(
    alloc: Global,
    reader: &mut Reader<'a>,
    depth: usize,
    out: &mut Value,
) -> Result<(), JsonFault>
    ensures reads { Gives (λ _. out.new) result reader.new (array_at (value_at depth) reader.old) }
    ensures forward { length reader.new ≤ length reader.old }
{
    if closes(reader, b']') {
        out.fill(Value::Array(Items::from_vec(Vec::new(alloc))));
        return Ok(());
    }
    let mut items = reserved_items(alloc)?;
    loop {
        reader.skip_spaces();
        push_blank(&mut items)?;
        let last = items.len() - 1;
        value(alloc, reader, depth, &mut items[last])?;
        if !goes_on(reader, b']')? {
            out.fill(Value::Array(Items::from_vec(items)));
            return Ok(());
        }
    }
}

/// Passes a colon and the white space before it. `Text` where no colon is next.
pub fn name_separator<'a>(reader: &mut Reader<'a>) -> Result<(), JsonFault>
    ensures forward { length reader.new ≤ length reader.old }
    ensures found { MatchResult result
        (λ _. skip reader.old ≡ 58 ∷ reader.new)
        (λ e. (e ≡ JsonFault.Text) × First (λ x t. x ≢ 58) (skip reader.old)) }
{
    reader.skip_spaces();
    if reader.takes(b':') {
        Ok(())
    } else {
        Err(JsonFault::Text)
    }
}

// What follows the opening bracket of an object. A member is made blank first and is read into.
#[cycle(value)]
#[inline(never)]
fn object<'a>(
    alloc: Global,
    reader: &mut Reader<'a>,
    depth: usize,
    out: &mut Value,
) -> Result<(), JsonFault>
    ensures reads { Gives (λ _. out.new) result reader.new (object_at (value_at depth) reader.old) }
    ensures forward { length reader.new ≤ length reader.old }
{
    if closes(reader, b'}') {
        let members = Members::new(alloc);
        out.fill(Value::Object(Object { members }));
        return Ok(());
    }
    let mut members = Members::with_capacity(alloc)?;
    loop {
        reader.skip_spaces();
        let key = string(alloc, reader)?;
        name_separator(reader)?;
        reader.skip_spaces();
        let at = members.put(alloc, key)?;
        let member = &mut members.pairs[at];
        value(alloc, reader, depth, &mut member.1)?;
        if !goes_on(reader, b'}')? {
            out.fill(Value::Object(Object { members }));
            return Ok(());
        }
    }
}
