//! Strings (RFC 8259, section 7).
ghost use Rattle.std.specs.Prelude.{◌≡◌, ◌⊎◌, ◌≤◌, ◌<◌, length, MatchBool, MatchResult, IfSome};
ghost use Rattle.std.specs.Char.{digit_value, encode_utf8};
ghost use Rattle.std.specs.Str.{IsUtf8};
ghost use Rattle.arrow_base.specs.JsonString.{short_escape, hexadecimal};
ghost use Rattle.std.specs.Char.Utf16.{is_high_surrogate, is_low_surrogate};
ghost use Rattle.json_tree.specs.Reading.{found, wrong, unit_at, low_at, unicode_at, escape_at, string_at};
ghost use Rattle.json_tree.specs.Gives.{Gives};

use crate::pieces::Pieces;
use crate::reader::Reader;
use crate::value::JsonFault;
use arrow_core::Text;
use std::alloc::Global;

// The digit's value, and 16 or more where the byte is no hexadecimal digit.
fn digit_value(byte: u8) -> u32
    ensures value { result ≡ digit_value byte }
    ensures ascii { result < 16 → byte < 128 }
{
    match byte {
        b'0'..=b'9' => (byte - b'0') as u32,
        b'A'..=b'Z' => (byte - b'A') as u32 + 10,
        b'a'..=b'z' => (byte - b'a') as u32 + 10,
        _ => 36,
    }
}

// What four hexadecimal digits encode.
fn hexadecimal(a: u8, b: u8, c: u8, d: u8) -> Option<u32>
    ensures value { result ≡ hexadecimal a b c d }
    ensures bounds { IfSome result (λ u. (u < 65536) × (d < 128)) }
{
    let (a, b, c, d) = (
        digit_value(a),
        digit_value(b),
        digit_value(c),
        digit_value(d),
    );
    if (a < 16) & (b < 16) & (c < 16) & (d < 16) {
        Some(a * 4096 + b * 256 + c * 16 + d)
    } else {
        None
    }
}

// The code unit that stands after `\u`.
fn code_unit<'a>(reader: &mut Reader<'a>) -> Result<u32, JsonFault>
    requires { IsUtf8 reader.old }
    ensures reads { MatchResult result
        (λ u. (unit_at reader.old ≡ found u reader.new) × (u < 65536) × IsUtf8 reader.new)
        (λ e. (e ≡ JsonFault.Text) × (unit_at reader.old ≡ wrong)) }
    ensures forward { length reader.new ≤ length reader.old }
{
    let rest = reader.rest();
    if rest.len() < 4 {
        return Err(JsonFault::Text);
    }
    match hexadecimal(rest[0], rest[1], rest[2], rest[3]) {
        Some(unit) => {
            reader.advance(4);
            Ok(unit)
        }
        None => Err(JsonFault::Text),
    }
}

fn is_high_surrogate(unit: u32) -> bool
    ensures value { result ≡ is_high_surrogate unit }
    ensures range { MatchBool result
        ((0xd800 ≤ unit) × (unit < 0xdc00)) ((unit < 0xd800) ⊎ (0xdc00 ≤ unit)) }
{
    (0xd800 <= unit) & (unit < 0xdc00)
}

fn is_low_surrogate(unit: u32) -> bool
    ensures value { result ≡ is_low_surrogate unit }
    ensures range { MatchBool result
        ((0xdc00 ≤ unit) × (unit < 0xe000)) ((unit < 0xdc00) ⊎ (0xe000 ≤ unit)) }
{
    (0xdc00 <= unit) & (unit < 0xe000)
}

// The character of a pair of surrogates, whose first stands after and whose second is ahead.
fn low_surrogate<'a>(reader: &mut Reader<'a>, high: u32) -> Result<char, JsonFault>
    requires text { IsUtf8 reader.old }
    requires high { (0xd800 ≤ high) × (high < 0xdc00) }
    ensures reads { MatchResult result
        (λ c. (low_at high reader.old ≡ found (encode_utf8 c) reader.new) × IsUtf8 reader.new)
        (λ e. (e ≡ JsonFault.Text) × (low_at high reader.old ≡ wrong)) }
    ensures forward { length reader.new ≤ length reader.old }
{
    if !reader.takes(b'\\') {
        return Err(JsonFault::Text);
    }
    if !reader.takes(b'u') {
        return Err(JsonFault::Text);
    }
    let low = code_unit(reader)?;
    if !is_low_surrogate(low) {
        return Err(JsonFault::Text);
    }
    match char::from_u32(0x10000 + (high - 0xd800) * 1024 + (low - 0xdc00)) {
        Some(c) => Ok(c),
        None => Err(JsonFault::Text),
    }
}

// The character whose escape goes on after `\u`.
fn unicode_escape<'a>(reader: &mut Reader<'a>) -> Result<char, JsonFault>
    requires { IsUtf8 reader.old }
    ensures reads { MatchResult result
        (λ c. (unicode_at reader.old ≡ found (encode_utf8 c) reader.new) × IsUtf8 reader.new)
        (λ e. (e ≡ JsonFault.Text) × (unicode_at reader.old ≡ wrong)) }
    ensures forward { length reader.new ≤ length reader.old }
{
    let unit = code_unit(reader)?;
    if is_high_surrogate(unit) {
        return low_surrogate(reader, unit);
    }
    if is_low_surrogate(unit) {
        return Err(JsonFault::Text);
    }
    match char::from_u32(unit) {
        Some(c) => Ok(c),
        None => Err(JsonFault::Text),
    }
}

// What a reverse solidus and this byte stand for, where the byte is no `u`.
fn short_escape(byte: u8) -> Option<u8>
    ensures value { result ≡ short_escape byte }
    ensures ascii { IfSome result (λ c. (c < 128) × (byte < 128)) }
{
    match byte {
        b'"' | b'\\' | b'/' => Some(byte),
        b'b' => Some(8),
        b'f' => Some(12),
        b'n' => Some(b'\n'),
        b'r' => Some(b'\r'),
        b't' => Some(b'\t'),
        _ => None,
    }
}

/// The character of an escape, after its reverse solidus (RFC 8259, section 7). `Text` where none
/// stands there, as at a surrogate without its partner.
pub fn escape<'a>(reader: &mut Reader<'a>) -> Result<char, JsonFault>
    requires { IsUtf8 reader.old }
    ensures reads { MatchResult result
        (λ c. (escape_at reader.old ≡ found (encode_utf8 c) reader.new) × IsUtf8 reader.new)
        (λ e. (e ≡ JsonFault.Text) × (escape_at reader.old ≡ wrong)) }
    ensures forward { length reader.new ≤ length reader.old }
{
    match reader.next() {
        None => Err(JsonFault::Text),
        Some(byte) => {
            if byte == b'u' {
                return unicode_escape(reader);
            }
            match short_escape(byte) {
                Some(c) => Ok(c as char),
                None => Err(JsonFault::Text),
            }
        }
    }
}

// A text of its own, of no more capacity than it needs.
pub(crate) fn owned(alloc: Global, text: &str) -> Result<Text, JsonFault>
    ensures { MatchResult result (λ t. t ≡ text.now) (λ e. e ≡ JsonFault.Memory) }
{
    match Text::try_from_str(alloc, text) {
        Ok(text) => Ok(text),
        Err(_) => Err(JsonFault::Memory),
    }
}

/// A string of any kind. Runs of characters that stand for themselves are copied as slices.
#[inline(never)]
pub fn escaped_string<'a>(alloc: Global, reader: &mut Reader<'a>) -> Result<Text, JsonFault>
    ensures reads { Gives (λ v. v) result reader.new (string_at reader.old) }
    ensures forward { length reader.new ≤ length reader.old }
{
    if !reader.takes(b'"') {
        return Err(JsonFault::Text);
    }
    let mut out = Pieces::new(alloc);
    loop {
        let run = reader.unescaped_run();
        out.push_str(run)?;
        if reader.takes(b'"') {
            return out.to_text(alloc);
        }
        if !reader.takes(b'\\') {
            return Err(JsonFault::Text);
        }
        let c = escape(reader)?;
        out.push(c)?;
    }
}

/// A string, from its opening to its closing quotation mark. One without escapes is copied at once.
#[inline(always)]
pub fn string<'a>(alloc: Global, reader: &mut Reader<'a>) -> Result<Text, JsonFault>
    ensures reads { Gives (λ v. v) result reader.new (string_at reader.old) }
    ensures forward { length reader.new ≤ length reader.old }
{
    if let Some(run) = reader.plain_string() {
        return owned(alloc, run);
    }
    escaped_string(alloc, reader)
}
