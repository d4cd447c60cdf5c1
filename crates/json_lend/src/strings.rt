//! Strings (RFC 8259, section 7).
ghost use Rattle.std.specs.Prelude.{◌≡◌, ◌≢◌, ◌≤◌, ◌++◌, ℕ, List, length, string_bytes, IfErr, MatchOption, MatchResult, OnOk};
ghost use Rattle.std.specs.Str.{bytes_eq};
ghost use Rattle.std.specs.Char.{encode_utf8};
ghost use Rattle.json_tree.specs.Reading.{found, string_at};
ghost use Rattle.json_lend.specs.Skips.{Fills, Skips};

use crate::lent::EscapedString;
use arrow_core::Text;
use json_tree::JsonFault;
use json_tree::reader::Reader;
use json_tree::strings::{escape, escaped_string};
use std::alloc::Global;

/// Skips a string of any kind. The fault is `Text`.
#[inline(never)]
pub(crate) fn skip_escaped<'a>(reader: &mut Reader<'a>) -> Result<(), JsonFault>
    ensures reads { Skips result reader.new (string_at reader.old) }
    ensures forward { length reader.new ≤ length reader.old }
    ensures no_memory { IfErr result (λ e. e ≢ JsonFault.Memory) }
{
    if !reader.takes(b'"') {
        return Err(JsonFault::Text);
    }
    loop {
        let _run = reader.unescaped_run();
        if reader.takes(b'"') {
            return Ok(());
        }
        if !reader.takes(b'\\') {
            return Err(JsonFault::Text);
        }
        escape(reader)?;
    }
}

/// Skips a string, which mostly has no escapes. The fault is `Text`.
#[inline(always)]
pub(crate) fn skip_string<'a>(reader: &mut Reader<'a>) -> Result<(), JsonFault>
    ensures reads { Skips result reader.new (string_at reader.old) }
    ensures forward { length reader.new ≤ length reader.old }
    ensures no_memory { IfErr result (λ e. e ≢ JsonFault.Memory) }
{
    if let Some(_run) = reader.plain_string() {
        return Ok(());
    }
    skip_escaped(reader)
}

// What follows the prefix in the bytes, where they begin with it.
#[inline(always)]
fn after_prefix<'b>(bytes: &'b [u8], prefix: &str) -> Option<&'b [u8]>
    ensures { MatchOption result ((rest : List ℕ) → bytes.now ≢ prefix.now ++ rest)
        (λ rest. bytes.now ≡ prefix.now ++ rest.now) }
{
    bytes.strip_prefix(prefix.as_bytes())
}

// What follows the character in the bytes, where they begin with it.
fn after_char<'b>(bytes: &'b [u8], c: char) -> Option<&'b [u8]>
    ensures { MatchOption result ((rest : List ℕ) → bytes.now ≢ encode_utf8 c ++ rest)
        (λ rest. bytes.now ≡ encode_utf8 c ++ rest.now) }
{
    let mut buffer = [0; 4];
    after_prefix(bytes, c.encode_utf8(&mut buffer))
}

// Whether a string stands for this text. It is compared as it is read, piece after piece.
fn is_text<'a>(reader: &mut Reader<'a>, text: &[u8]) -> bool
    ensures { (s r : List ℕ) → string_at reader.old ≡ found s r → result ≡ bytes_eq s text.now }
{
    if !reader.takes(b'"') {
        return false;
    }
    let mut left = text;
    loop {
        let run = reader.unescaped_run();
        let Some(behind) = after_prefix(left, run) else {
            return false;
        };
        if reader.takes(b'"') {
            return behind.is_empty();
        }
        if !reader.takes(b'\\') {
            return false;
        }
        let Ok(c) = escape(reader) else {
            return false;
        };
        let Some(behind) = after_char(behind, c) else {
            return false;
        };
        left = behind;
    }
}

// Appends a piece. The fault is `Memory`.
fn append(buffer: &mut String, piece: &str) -> Result<(), JsonFault>
    ensures added { OnOk result (string_bytes buffer.new ≡ string_bytes buffer.old ++ piece.now) }
    ensures memory { IfErr result (λ e. e ≡ JsonFault.Memory) }
{
    if buffer.push_str(piece).is_err() {
        return Err(JsonFault::Memory);
    }
    Ok(())
}

// Appends a character. The fault is `Memory`.
fn append_char(buffer: &mut String, c: char) -> Result<(), JsonFault>
    ensures added { OnOk result
        (string_bytes buffer.new ≡ string_bytes buffer.old ++ encode_utf8 c) }
    ensures memory { IfErr result (λ e. e ≡ JsonFault.Memory) }
{
    if buffer.push(c).is_err() {
        return Err(JsonFault::Memory);
    }
    Ok(())
}

// Reads a string of any kind into a buffer, in place of what it held. Runs of characters that stand
// for themselves are copied as slices.
fn fill<'a>(reader: &mut Reader<'a>, buffer: &mut String) -> Result<(), JsonFault>
    ensures { Fills result (string_bytes buffer.new) reader.new (string_at reader.old) }
{
    if !reader.takes(b'"') {
        return Err(JsonFault::Text);
    }
    buffer.clear();
    loop {
        let run = reader.unescaped_run();
        append(buffer, run)?;
        if reader.takes(b'"') {
            return Ok(());
        }
        if !reader.takes(b'\\') {
            return Err(JsonFault::Text);
        }
        let c = escape(reader)?;
        append_char(buffer, c)?;
    }
}

impl<'a> EscapedString<'a> {
    /// The text that the string stands for, with a character in place of each escape. The fault is
    /// `Memory`.
    pub fn to_text(&self, alloc: Global) -> Result<Text, JsonFault>
        ensures { MatchResult result (λ text. text ≡ self.now) (λ e. e ≡ JsonFault.Memory) }
    {
        let mut reader = self.reader.again();
        escaped_string(alloc, &mut reader)
    }

    /// The same into a buffer, in place of what it held. It takes memory only where the text is
    /// longer than the buffer's capacity. After the fault, which is `Memory`, the buffer holds
    /// anything.
    pub fn read_into(&self, buffer: &mut String) -> Result<(), JsonFault>
        ensures { MatchResult result (λ _. string_bytes buffer.new ≡ self.now)
            (λ e. e ≡ JsonFault.Memory) }
    {
        let mut reader = self.reader.again();
        fill(&mut reader, buffer)
    }

    /// Whether the string stands for this text. That takes no memory.
    pub fn is(&self, text: &str) -> bool
        ensures { result ≡ bytes_eq self.now text.now }
    {
        let mut reader = self.reader.again();
        is_text(&mut reader, text.as_bytes())
    }
}
