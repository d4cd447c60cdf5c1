//! Names of fields, among which keys are looked up.
ghost use Rattle.std.specs.Prelude.{◌≡◌, ◌<◌, ◌≤◌, length, true, false, Ok, Some, IfOk, MatchOption};
ghost use Rattle.std.specs.Str.{bytes_eq};
ghost use Rattle.json_tree.specs.Layout.{distinct, key_index};
ghost use Rattle.json_tree.specs.Reading.{string_at};
ghost use Rattle.json_lend.specs.Fields.{AreOthers, IsIndex, ReadsIndex};

use crate::given_up::GivenUp;
use crate::lent::EscapedString;
use crate::name::Name;
use crate::strings::skip_escaped;
use json_tree::JsonFault;
use json_tree::reader::Reader;

// A key is compared with at most so many names, but for keys in the names' order.
const MOST_SCANNED: usize = 256;

#[inline(always)]
fn are_same(one: &str, other: &str) -> bool
    ensures { result ≡ bytes_eq one.now other.now }
{
    one == other
}

// The index of a key among the names from `from` to before `to`.
fn scan(names: &[Name], from: usize, to: usize, key: &str) -> Option<usize>
    requires distinct { distinct names.now ≡ true }
    requires within { to ≤ length names.now }
    ensures { MatchOption result (AreOthers names.now from to key.now)
        (λ i. (i ≡ key_index key.now names.now) × (i < length names.now)) }
{
    let mut i = from;
    while i < to {
        if are_same(names[i].as_str(), key) {
            return Some(i);
        }
        i += 1;
    }
    None
}

// The index of a key among the names. It is looked for from `guess` on, and then before: where some
// keys of an ordered row are missing, the next one is near.
#[inline(never)]
fn look_up(names: &[Name], guess: usize, key: &str) -> Option<usize>
    requires { distinct names.now ≡ true }
    ensures { IsIndex names.now key.now result }
{
    let from = guess.min(names.len());
    match scan(names, from, names.len(), key) {
        Some(i) => Some(i),
        None => scan(names, 0, from, key),
    }
}

// Whether a key that has escapes is the name.
fn is_name<'a>(key: &EscapedString<'a>, name: &str) -> bool
    ensures { result ≡ bytes_eq name.now key.now }
{
    key.is(name)
}

// The index among the names of a key that has escapes.
fn scan_escaped<'a>(names: &[Name], key: &EscapedString<'a>) -> Option<usize>
    ensures { IsIndex names.now key.now result }
{
    let mut i = 0;
    while i < names.len() {
        if is_name(key, names[i].as_str()) {
            return Some(i);
        }
        i += 1;
    }
    None
}

// Reads a key that has escapes, or that is no string, and tells its index among the names.
#[cold]
#[inline(never)]
fn escaped_index<'a>(reader: &mut Reader<'a>, names: &[Name]) -> Result<Option<usize>, JsonFault>
    ensures reads { ReadsIndex names.now result reader.new (string_at reader.old) }
    ensures forward { length reader.new ≤ length reader.old }
{
    let start = reader.again();
    skip_escaped(reader)?;
    let key = EscapedString { reader: start };
    Ok(scan_escaped(names, &key))
}

// Passes the key that is next where it is the name at the index and has no escapes, and tells whether
// it did.
#[inline(always)]
fn passes_at<'a>(reader: &mut Reader<'a>, names: &[Name], i: usize) -> bool
    requires { distinct names.now ≡ true }
    ensures reads { result ≡ true → ReadsIndex names.now (Ok (Some i)) reader.new
        (string_at reader.old) }
    ensures stays { result ≡ false → reader.new ≡ reader.old }
    ensures forward { length reader.new ≤ length reader.old }
{
    if i >= names.len() {
        return false;
    }
    names[i].passes(reader)
}

// Reads a key that isn't the name at `guess`, and tells its index among the names.
#[inline(always)]
fn other_index<'a>(
    reader: &mut Reader<'a>,
    names: &[Name],
    guess: usize,
) -> Result<Option<usize>, JsonFault>
    requires { distinct names.now ≡ true }
    ensures reads { ReadsIndex names.now result reader.new (string_at reader.old) }
    ensures forward { length reader.new ≤ length reader.old }
{
    if let Some(key) = reader.plain_string() {
        return Ok(look_up(names, guess, key));
    }
    escaped_index(reader, names)
}

// Reads a key among many names, and tells its index, where it has no escape and is a name from
// `guess` on; any other is given up. So all keys of an object take time linear in keys and names.
#[inline(never)]
fn later_index<'a>(
    reader: &mut Reader<'a>,
    names: &[Name],
    guess: usize,
) -> Result<Option<usize>, GivenUp>
    requires { distinct names.now ≡ true }
    ensures reads { IfOk result
        (λ at. ReadsIndex names.now (Ok at) reader.new (string_at reader.old)) }
    ensures forward { length reader.new ≤ length reader.old }
{
    let Some(key) = reader.plain_string() else {
        return Err(GivenUp);
    };
    match scan(names, guess.min(names.len()), names.len(), key) {
        Some(i) => Ok(Some(i)),
        None => Err(GivenUp),
    }
}

/// Reads a key, and tells its index among the names. It is first looked for at `guess`. Among more
/// than `MOST_SCANNED` names a key that has an escape, or is none of the names from `guess` on, is
/// given up, since each key would else be compared with each name.
#[inline(always)]
pub(crate) fn bounded_index<'a>(
    reader: &mut Reader<'a>,
    names: &[Name],
    guess: usize,
) -> Result<Option<usize>, GivenUp>
    requires { distinct names.now ≡ true }
    ensures reads { IfOk result
        (λ at. ReadsIndex names.now (Ok at) reader.new (string_at reader.old)) }
    ensures forward { length reader.new ≤ length reader.old }
{
    if passes_at(reader, names, guess) {
        return Ok(Some(guess));
    }
    if names.len() > MOST_SCANNED {
        return later_index(reader, names, guess);
    }
    let at = other_index(reader, names, guess)?;
    Ok(at)
}
