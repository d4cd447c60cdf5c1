//! The JSON string of a text (RFC 8259, section 7).
ghost use Rattle.std.specs.Prelude.{◌≡◌, ℕ, List, ◌<◌, ◌≤◌, [], ◌∷◌, length, slice_index, take, flat_map, MatchOption, IfNone, IfSome, OnOk, OnErr, IfErr};
ghost use Rattle.std.specs.Bool.{OnFalse};
ghost use Rattle.std.specs.Char.{digit_char};
ghost use Rattle.std.specs.Io.KnownBytes.{Appends};
ghost use Rattle.arrow_base.specs.Outside.{RoseOrFull, AppendsPrefix};
ghost use Rattle.arrow_base.specs.JsonString.{JsonString};
ghost use Rattle.arrow_base.specs.WrittenString.{escape_bytes, escaped, json_string};

use crate::sink::{Sink, write_all};
use arrow_core::{Error, Result};

// How many bytes are looked at together.
const BLOCK: usize = 16;

/// How a character stands in a string that can't hold it as it is.
#[derive(Clone, Copy, PartialEq, Eq, Debug)]
pub enum CharEscape {
    /// `\"`
    Quote,
    /// `\\`
    ReverseSolidus,
    /// `\b`
    Backspace,
    /// `\f`
    FormFeed,
    /// `\n`
    LineFeed,
    /// `\r`
    CarriageReturn,
    /// `\t`
    Tab,
    /// `\u00` and two lower hexadecimal digits of the byte.
    AsciiControl(u8),
}

impl CharEscape {
    // The escape of a byte, where it has one.
    #[inline]
    fn of(byte: u8) -> Option<CharEscape>
        ensures { MatchOption result (escaped byte ≡ byte ∷ [])
            (λ escape. escaped byte ≡ escape_bytes escape) }
    {
        match byte {
            b'"' => Some(CharEscape::Quote),
            b'\\' => Some(CharEscape::ReverseSolidus),
            0x08 => Some(CharEscape::Backspace),
            0x0c => Some(CharEscape::FormFeed),
            b'\n' => Some(CharEscape::LineFeed),
            b'\r' => Some(CharEscape::CarriageReturn),
            b'\t' => Some(CharEscape::Tab),
            _ if byte < 0x20 => Some(CharEscape::AsciiControl(byte)),
            _ => None,
        }
    }
}

fn hex_digit(value: u8) -> u8
    requires { value < 16 }
    ensures { result ≡ digit_char value }
{
    if value < 10 {
        b'0' + value
    } else {
        b'a' + (value - 10)
    }
}

fn write_escape<K: Sink>(sink: &mut K, escape: CharEscape) -> Result<()>
    ensures ok { OnOk result (Appends (K.held sink.old) (K.held sink.new) (escape_bytes escape)) }
    ensures only { IfErr result (λ e. e ≡ Error.WriteFault) }
    ensures prefix { OnErr result
        (AppendsPrefix (K.held sink.old) (K.held sink.new) (escape_bytes escape)) }
    ensures never_falls { K.faults sink.old ≤ K.faults sink.new }
    ensures cause { OnErr result (RoseOrFull (K.faults sink.old) (K.faults sink.new)) }
    ensures same { K.identity sink.new ≡ K.identity sink.old }
{
    match escape {
        CharEscape::Quote => write_all(sink, b"\\\""),
        CharEscape::ReverseSolidus => write_all(sink, b"\\\\"),
        CharEscape::Backspace => write_all(sink, b"\\b"),
        CharEscape::FormFeed => write_all(sink, b"\\f"),
        CharEscape::LineFeed => write_all(sink, b"\\n"),
        CharEscape::CarriageReturn => write_all(sink, b"\\r"),
        CharEscape::Tab => write_all(sink, b"\\t"),
        CharEscape::AsciiControl(byte) => {
            let high = hex_digit(byte / 16);
            let low = hex_digit(byte % 16);
            write_all(sink, &[b'\\', b'u', b'0', b'0', high, low])
        }
    }
}

// Whether a byte of the block needs an escape. It has no early exit, so that all bytes are compared
// at once.
fn has_escape(block: &[u8; BLOCK]) -> bool
    ensures { OnFalse result (flat_map escaped block.now ≡ block.now) }
{
    let mut found = false;
    for byte in block {
        found |= *byte < 0x20 || *byte == b'"' || *byte == b'\\';
    }
    found
}

// How many bytes at the start are in whole blocks that need no escape.
fn plain_blocks_len(text: &[u8]) -> usize
    ensures within { result ≤ length text.now }
    ensures plain { flat_map escaped (take result text.now) ≡ take result text.now }
{
    let mut rest = text;
    while let Some((block, more)) = rest.split_first_chunk::<BLOCK>() {
        if has_escape(block) {
            break;
        }
        rest = more;
    }
    text.len() - rest.len()
}

// The first byte that needs an escape: how many stand before it, and the escape.
fn next_escape(text: &[u8]) -> Option<(usize, CharEscape)>
    ensures none { IfNone result (flat_map escaped text.now ≡ text.now) }
    ensures within { IfSome result (λ found. found.0 < length text.now) }
    ensures plain { IfSome result
        (λ found. flat_map escaped (take found.0 text.now) ≡ take found.0 text.now) }
    ensures escape { IfSome result
        (λ found. escaped (slice_index text.now found.0) ≡ escape_bytes found.1) }
{
    for i in plain_blocks_len(text)..text.len() {
        if let Some(escape) = CharEscape::of(text[i]) {
            return Some((i, escape));
        }
    }
    None
}

// Writes what stands between the quotation marks, each run of bytes that need no escape at once.
fn write_escaped<K: Sink>(sink: &mut K, text: &[u8]) -> Result<()>
    ensures ok { OnOk result
        (Appends (K.held sink.old) (K.held sink.new) (flat_map escaped text.now)) }
    ensures only { IfErr result (λ e. e ≡ Error.WriteFault) }
    ensures prefix { OnErr result
        (AppendsPrefix (K.held sink.old) (K.held sink.new) (flat_map escaped text.now)) }
    ensures never_falls { K.faults sink.old ≤ K.faults sink.new }
    ensures cause { OnErr result (RoseOrFull (K.faults sink.old) (K.faults sink.new)) }
    ensures same { K.identity sink.new ≡ K.identity sink.old }
{
    let mut rest = text;
    while let Some((plain, escape)) = next_escape(rest) {
        write_all(sink, &rest[..plain])?;
        write_escape(sink, escape)?;
        rest = &rest[plain + 1..];
    }
    write_all(sink, rest)
}

/// Appends the JSON string of `value`: in quotation marks, with a [`CharEscape`] in place of each
/// quotation mark, reverse solidus and byte below 0x20. It is a string of RFC 8259, section 7, and
/// `value` is its one meaning. `WriteFault` comes where a write failed; the sink then took a prefix
/// of the string. Takes no memory.
pub fn write_str<K: Sink>(sink: &mut K, value: &str) -> Result<()>
    ensures ok { OnOk result (Appends (K.held sink.old) (K.held sink.new) (json_string value.now)) }
    ensures reads_back { JsonString (json_string value.now) value.now }
    ensures one_meaning { (other : List ℕ) → JsonString (json_string value.now) other
        → other ≡ value.now }
    ensures only { IfErr result (λ e. e ≡ Error.WriteFault) }
    ensures prefix { OnErr result
        (AppendsPrefix (K.held sink.old) (K.held sink.new) (json_string value.now)) }
    ensures never_falls { K.faults sink.old ≤ K.faults sink.new }
    ensures cause { OnErr result (RoseOrFull (K.faults sink.old) (K.faults sink.new)) }
    ensures same { K.identity sink.new ≡ K.identity sink.old }
{
    write_all(sink, b"\"")?;
    write_escaped(sink, value.as_bytes())?;
    write_all(sink, b"\"")
}
