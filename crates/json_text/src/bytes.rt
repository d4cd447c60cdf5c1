//! Text that grows in memory.
ghost use Rattle.std.specs.Prelude.{◌≡◌, ◌*◌, ◌≤◌, ◌++◌, ◌==◌, [], pos, codes, length, take, OnOk, if◌then◌else◌};
ghost use Rattle.std.specs.Bool.{OnFalse};
ghost use Rattle.std.specs.Fmt.{decimal, signed_decimal};
ghost use Rattle.std.specs.Io.{StartsWith};
ghost use Rattle.arrow_base.specs.WrittenString.{json_string};
ghost use Rattle.json_text.specs.JsonText.{null};
ghost use Rattle.json_text.specs.Unescaped.{IsUnescaped};

use arrow_base::utf8::write_str;
use itoa::{Buffer, write_digits};
use std::alloc::AllocError;

/// What appending a text answers: nothing, or that there is no memory. The wider error of calls
/// would go through memory at each value.
///
/// What stood in the buffer stays: on `Ok` the text follows it, on an error a part of the text.
pub type Appended = std::result::Result<(), AllocError>;

/// Appends the bytes.
///
/// `AllocError` where there is no memory. What stood in `out` stays: on `Ok` the text follows it, on
/// an error a part of the text.
#[inline]
pub fn push(out: &mut Vec<u8>, bytes: &[u8]) -> Appended
    ensures ok { OnOk result (out.new.items ≡ out.old.items ++ bytes.now) }
    ensures kept { StartsWith out.new.items out.old.items }
{
    out.extend_from_slice(bytes)?;
    Ok(())
}

/// Appends the first of 16 bytes, as many as `len` says. All are copied, in one step of constant
/// length, and the others taken away again.
///
/// `AllocError` where there is no memory. What stood in `out` stays: on `Ok` the text follows it, on
/// an error a part of the text.
#[inline]
pub(crate) fn push_prefix(out: &mut Vec<u8>, bytes: &[u8; 16], len: u8) -> Appended
    ensures ok { OnOk result (out.new.items ≡ out.old.items ++ take len bytes.now) }
    ensures kept { StartsWith out.new.items out.old.items }
{
    let start = out.len();
    out.extend_from_slice(bytes)?;
    out.truncate(start + len as usize);
    Ok(())
}

/// Appends the comma that stands before the item at `index`: none where that is 0.
///
/// `AllocError` where there is no memory. What stood in `out` stays: on `Ok` the text follows it, on
/// an error a part of the text.
#[inline]
pub fn push_comma(out: &mut Vec<u8>, index: usize) -> Appended
    ensures ok { OnOk result
        (out.new.items ≡ out.old.items ++ (if index == 0 then [] else codes ",")) }
    ensures kept { StartsWith out.new.items out.old.items }
{
    if index == 0 {
        return Ok(());
    }
    push(out, b",")
}

/// Whether a byte of the chunk needs an escape. It has no early exit, so that bytes are compared
/// together.
#[inline]
fn chunk_has_escape(chunk: &[u8]) -> bool
    ensures { OnFalse result (IsUnescaped chunk.now) }
{
    let mut found = false;
    for byte in chunk {
        found |= *byte < 0x20 || *byte == b'"' || *byte == b'\\';
    }
    found
}

/// Whether one of the first `n` bytes or of the last `n` needs an escape, of a string that has no
/// byte between them. Where `n` is a constant, those of each end are compared at once.
#[inline(always)]
fn ends_have_escape(string: &[u8], n: usize) -> bool
    requires within { n ≤ length string.now }
    requires covered { length string.now ≤ 2 * n }
    ensures { OnFalse result (IsUnescaped string.now) }
{
    let (first, _) = string.split_at(n);
    let (_, last) = string.split_at(string.len() - n);
    chunk_has_escape(first) | chunk_has_escape(last)
}

/// Whether a byte of the string needs an escape. Chunks have a constant length, so that the bytes of
/// each are compared at once.
#[inline]
pub(crate) fn has_escape(string: &[u8]) -> bool
    ensures { OnFalse result (IsUnescaped string.now) }
{
    let mut rest = string;
    while rest.len() > 32 {
        let (chunk, more) = rest.split_at(16);
        if chunk_has_escape(chunk) {
            return true;
        }
        rest = more;
    }
    short_has_escape(rest)
}

/// The same of a string of at most 32 bytes: its ends may overlap, so that no more than 3 bytes are
/// looked at one by one.
#[inline]
fn short_has_escape(string: &[u8]) -> bool
    requires { length string.now ≤ 32 }
    ensures { OnFalse result (IsUnescaped string.now) }
{
    match string.len() {
        0..=3 => chunk_has_escape(string),
        4..=7 => ends_have_escape(string, 4),
        8..=15 => ends_have_escape(string, 8),
        _ => ends_have_escape(string, 16),
    }
}

/// Appends the JSON string of a string (RFC 8259, section 7).
///
/// `AllocError` where there is no memory. What stood in `out` stays: on `Ok` the text follows it, on
/// an error a part of the text.
#[inline]
pub fn push_string(out: &mut Vec<u8>, string: &str) -> Appended
    ensures ok { OnOk result (out.new.items ≡ out.old.items ++ json_string string.now) }
    ensures kept { StartsWith out.new.items out.old.items }
{
    if has_escape(string.as_bytes()) {
        return push_escaped(out, string);
    }
    push_unescaped(out, string)
}

/// Appends the JSON string of a string that needs no escape.
///
/// `AllocError` where there is no memory.
#[inline]
fn push_unescaped(out: &mut Vec<u8>, string: &str) -> Appended
    requires { IsUnescaped string.now }
    ensures ok { OnOk result (out.new.items ≡ out.old.items ++ json_string string.now) }
    ensures kept { StartsWith out.new.items out.old.items }
{
    out.push(b'"')?;
    out.extend_from_slice(string.as_bytes())?;
    out.push(b'"')?;
    Ok(())
}

fn push_escaped(out: &mut Vec<u8>, string: &str) -> Appended
    ensures ok { OnOk result (out.new.items ≡ out.old.items ++ json_string string.now) }
    ensures kept { StartsWith out.new.items out.old.items }
{
    match write_str(out, string) {
        Ok(()) => Ok(()),
        Err(_) => Err(AllocError),
    }
}

/// Appends `null`.
///
/// `AllocError` where there is no memory. What stood in `out` stays: on `Ok` the text follows it, on
/// an error a part of the text.
#[inline(never)]
pub fn push_null(out: &mut Vec<u8>) -> Appended
    ensures ok { OnOk result (out.new.items ≡ out.old.items ++ null) }
    ensures kept { StartsWith out.new.items out.old.items }
{
    push(out, b"null")
}

/// Appends the JSON string, or `null` where there is none.
#[inline(never)]
pub(crate) fn push_string_if(out: &mut Vec<u8>, is_valid: bool, string: &str) -> Appended
    ensures ok { OnOk result
        (out.new.items ≡ out.old.items ++ (if is_valid then json_string string.now else null)) }
    ensures kept { StartsWith out.new.items out.old.items }
{
    if is_valid {
        push_string(out, string)
    } else {
        push_null(out)
    }
}

/// How many digits an integer has in decimal.
#[inline]
fn count_digits(integer: u64) -> usize
    ensures { result ≡ length (decimal integer) }
{
    match integer.checked_ilog10() {
        Some(power) => power as usize + 1,
        None => 1,
    }
}

/// Appends an unsigned integer in decimal. As many bytes as the longest has are added, in one step
/// of constant length, and what is too much taken away again: the digits are written where they
/// stay.
#[inline]
fn push_digits(out: &mut Vec<u8>, integer: u64) -> Appended
    ensures ok { OnOk result (out.new.items ≡ out.old.items ++ decimal integer) }
    ensures kept { StartsWith out.new.items out.old.items }
{
    let start = out.len();
    out.extend_from_slice(&[b'0'; 20])?;
    let end = start + count_digits(integer);
    out.truncate(end);
    write_digits(integer, out.as_mut_slice(), end);
    Ok(())
}

/// Appends the sign of a negative integer.
#[inline]
fn push_sign(out: &mut Vec<u8>, is_negative: bool) -> Appended
    ensures ok { OnOk result
        (out.new.items ≡ out.old.items ++ (if is_negative then codes "-" else [])) }
    ensures kept { StartsWith out.new.items out.old.items }
{
    if !is_negative {
        return Ok(());
    }
    push(out, b"-")
}

/// Appends a signed integer in decimal.
#[inline]
fn push_integer(out: &mut Vec<u8>, integer: i64) -> Appended
    ensures ok { OnOk result (out.new.items ≡ out.old.items ++ signed_decimal integer) }
    ensures kept { StartsWith out.new.items out.old.items }
{
    push_sign(out, integer < 0)?;
    push_digits(out, integer.unsigned_abs())
}

/// The same, by a call.
#[inline(never)]
pub(crate) fn push_signed(out: &mut Vec<u8>, integer: i64) -> Appended
    ensures ok { OnOk result (out.new.items ≡ out.old.items ++ signed_decimal integer) }
    ensures kept { StartsWith out.new.items out.old.items }
{
    push_integer(out, integer)
}

/// Appends a signed integer in decimal, or `null` where there is none.
#[inline(never)]
pub(crate) fn push_signed_if(out: &mut Vec<u8>, is_valid: bool, integer: i64) -> Appended
    ensures ok { OnOk result
        (out.new.items ≡ out.old.items ++ (if is_valid then signed_decimal integer else null)) }
    ensures kept { StartsWith out.new.items out.old.items }
{
    if is_valid {
        push_integer(out, integer)
    } else {
        push_null(out)
    }
}

/// The same for an unsigned integer.
#[inline(never)]
pub(crate) fn push_unsigned_if(out: &mut Vec<u8>, is_valid: bool, integer: u64) -> Appended
    ensures ok { OnOk result
        (out.new.items ≡ out.old.items ++
        (if is_valid then signed_decimal (pos integer) else null)) }
    ensures kept { StartsWith out.new.items out.old.items }
{
    if is_valid {
        push_digits(out, integer)
    } else {
        push_null(out)
    }
}

/// The same for an integer of 128 bits.
#[inline(never)]
pub(crate) fn push_wide_if(out: &mut Vec<u8>, is_valid: bool, integer: i128) -> Appended
    ensures ok { OnOk result
        (out.new.items ≡ out.old.items ++ (if is_valid then signed_decimal integer else null)) }
    ensures kept { StartsWith out.new.items out.old.items }
{
    if is_valid {
        push(out, Buffer::new().format(integer).as_bytes())
    } else {
        push_null(out)
    }
}

/// Appends a boolean, or `null` where there is none.
///
/// `AllocError` where there is no memory. What stood in `out` stays: on `Ok` the text follows it, on
/// an error a part of the text.
#[inline(never)]
pub fn push_boolean_if(out: &mut Vec<u8>, is_valid: bool, boolean: bool) -> Appended
    ensures ok { OnOk result
        (out.new.items
        ≡ out.old.items
        ++ (if is_valid then (if boolean then codes "true" else codes "false") else null)) }
    ensures kept { StartsWith out.new.items out.old.items }
{
    if !is_valid {
        push_null(out)
    } else if boolean {
        push(out, b"true")
    } else {
        push(out, b"false")
    }
}
