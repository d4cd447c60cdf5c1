//! Numbers (RFC 8259, section 6).
ghost use Rattle.std.specs.Prelude.{◌≡◌, ◌≤◌, ℕ, List, length, take, drop, MatchResult};
ghost use Rattle.std.specs.Str.{IsUtf8};
ghost use Rattle.json_tree.specs.Grammar.{is_exponent_mark};
ghost use Rattle.json_tree.specs.Reading.{found, digits_at, int_at, minus_at, frac_at, sign_at, exp_at, number_at};
ghost use Rattle.json_tree.specs.Gives.{Gives, Moves};

use crate::reader::{Reader, is_decimal};
use crate::strings::owned;
use crate::value::{JsonFault, Number, Value};
use arrow_core::Text;
use std::alloc::Global;

/// One digit or more. The fault is `Text`, as in each of these parts.
#[tactic(auto, unfolding(crate::specs::Reading::digits_at))]
pub fn some_digits<'a>(reader: &mut Reader<'a>) -> Result<(), JsonFault>
    ensures reads { Moves digits_at result reader.old reader.new }
    ensures forward { length reader.new ≤ length reader.old }
{
    match reader.next() {
        None => Err(JsonFault::Text),
        Some(byte) => {
            if !is_decimal(byte) {
                return Err(JsonFault::Text);
            }
            reader.skip_digits();
            Ok(())
        }
    }
}

/// 0, or digits of which the first is not 0. Where 0 comes first, the digits after it are left.
#[tactic(auto, unfolding(crate::specs::Reading::int_at))]
pub fn integer_part<'a>(reader: &mut Reader<'a>) -> Result<(), JsonFault>
    ensures reads { Moves int_at result reader.old reader.new }
    ensures forward { length reader.new ≤ length reader.old }
{
    if reader.takes(b'0') {
        return Ok(());
    }
    some_digits(reader)
}

/// Passes a minus sign where one is next.
#[tactic(auto, unfolding(crate::specs::Reading::minus_at))]
pub fn optional_minus<'a>(reader: &mut Reader<'a>)
    ensures reads { (s : List ℕ) × (minus_at reader.old ≡ found s reader.new) }
    ensures forward { length reader.new ≤ length reader.old }
{
    reader.takes(b'-');
}

/// Nothing, or a point and digits.
#[tactic(auto, unfolding(crate::specs::Reading::frac_at))]
pub fn fraction_part<'a>(reader: &mut Reader<'a>) -> Result<(), JsonFault>
    ensures reads { Moves frac_at result reader.old reader.new }
    ensures forward { length reader.new ≤ length reader.old }
{
    if reader.takes(b'.') {
        return some_digits(reader);
    }
    Ok(())
}

fn optional_sign<'a>(reader: &mut Reader<'a>)
    ensures reads { (s : List ℕ) × (sign_at reader.old ≡ found s reader.new) }
    ensures forward { length reader.new ≤ length reader.old }
{
    if reader.takes(b'-') {
        return;
    }
    reader.takes(b'+');
}

/// Whether an exponent begins with this byte: e of either case.
pub fn is_exponent(byte: u8) -> bool
    ensures { result ≡ is_exponent_mark byte }
{
    byte == b'e' || byte == b'E'
}

/// Passes e of either case, a sign where one is next, and digits; nothing where no e is next.
/// `Text` where no digit follows.
#[tactic(auto, unfolding(crate::specs::Reading::exp_at))]
pub fn exponent_part<'a>(reader: &mut Reader<'a>) -> Result<(), JsonFault>
    ensures reads { Moves exp_at result reader.old reader.new }
    ensures forward { length reader.new ≤ length reader.old }
{
    match reader.peek() {
        None => Ok(()),
        Some(byte) => {
            if is_exponent(byte) {
                reader.next();
                optional_sign(reader);
                return some_digits(reader);
            }
            Ok(())
        }
    }
}

// The text of a mantissa. It does not call `owned`: were that the one caller of `try_from_str`, the
// compiler would put `try_from_str` into it, and no longer put `owned` into its callers.
#[inline(always)]
fn mantissa_text(alloc: Global, bytes: &[u8]) -> Result<Text, JsonFault>
    requires { IsUtf8 bytes.now }
    ensures text { MatchResult result (λ t. t ≡ bytes.now) (λ e. e ≡ JsonFault.Memory) }
{
    match Text::try_from_str(alloc, unsafe { std::str::from_utf8_unchecked(bytes) }) {
        Ok(text) => Ok(text),
        Err(_) => Err(JsonFault::Memory),
    }
}

// The text of an exponent that is there, after a call, since most numbers have none.
#[cold]
#[inline(never)]
fn encoded_exponent(alloc: Global, bytes: &[u8]) -> Result<Text, JsonFault>
    requires { IsUtf8 bytes.now }
    ensures text { MatchResult result (λ t. t ≡ bytes.now) (λ e. e ≡ JsonFault.Memory) }
{
    owned(alloc, unsafe { std::str::from_utf8_unchecked(bytes) })
}

// The text of an exponent, or of none. The empty text is made first, so that the compiler sees that
// it takes no memory.
#[inline(always)]
fn exponent_text(alloc: Global, bytes: &[u8]) -> Result<Text, JsonFault>
    requires { IsUtf8 bytes.now }
    ensures text { MatchResult result (λ t. t ≡ bytes.now) (λ e. e ≡ JsonFault.Memory) }
{
    let none = owned(alloc, "")?;
    if bytes.is_empty() {
        return Ok(none);
    }
    encoded_exponent(alloc, bytes)
}

/// All but the first of the first n bytes.
pub fn after_first(bytes: &[u8], n: usize) -> &[u8]
    requires { n ≤ length bytes.now }
    ensures { result.now ≡ drop 1 (take n bytes.now) }
{
    let prefix = &bytes[..n];
    match prefix.split_first() {
        Some((_, rest)) => rest,
        None => prefix,
    }
}

/// A number, read as far as it goes. After a leading 0, digits are left ahead.
#[inline(never)]
pub(crate) fn number<'a>(
    alloc: Global,
    reader: &mut Reader<'a>,
    out: &mut Value,
) -> Result<(), JsonFault>
    ensures reads { Gives (λ _. out.new) result reader.new (number_at reader.old) }
    ensures forward { length reader.new ≤ length reader.old }
{
    let start = reader.rest();
    optional_minus(reader);
    integer_part(reader)?;
    let whole = reader.rest();
    fraction_part(reader)?;
    let tail = reader.rest();
    let mantissa = &start[..start.len() - tail.len()];
    exponent_part(reader)?;
    let left = reader.rest();
    let following = after_first(tail, tail.len() - left.len());
    let exponent = exponent_text(alloc, following)?;
    let mantissa = mantissa_text(alloc, mantissa)?;
    if tail.len() < whole.len() {
        out.fill(Value::Number(Number::Float(mantissa, exponent)));
    } else {
        out.fill(Value::Number(Number::Integer(mantissa, exponent)));
    }
    Ok(())
}
