//! Numbers, and bytes after their length, in their shortest encoding.

ghost use Rattle.std.specs.Prelude.{◌≡◌, ◌<◌, ◌≤◌, length, IfSome};
ghost use Rattle.avro_schema.specs.Number.{zigzag};
ghost use Rattle.avro_verbatim.specs.Begins.{BeginsWithCounted, BeginsWithGroups, BeginsWithLength, BeginsWithNumber};

use avro_schema::{Cursor, SliceCursor, next_number};

/// What follows the groups of seven bits of a number that the bytes begin with: at most so many of
/// them with the top bit set, and a last one, which is below the limit where there are as many.
// The lengths are known where it is inlined, and so the loop is unrolled, without tests of bounds.
#[inline(always)]
pub(crate) fn skip_groups(bytes: &[u8], most: usize, limit: u8) -> Option<&[u8]>
    requires many { most < length bytes.now }
    requires short { most < 10 }
    requires some { 0 < limit }
    requires group { limit ≤ 128 }
    ensures { IfSome result (λ rest. BeginsWithGroups most limit bytes.now rest.now) }
{
    for last in 0..most {
        let byte = bytes[last];
        if byte < 128 {
            // The last of several isn't 0 in the shortest encoding.
            if byte == 0 && last > 0 {
                return None;
            }
            return Some(&bytes[last + 1..]);
        }
    }
    let byte = bytes[most];
    if byte >= limit || byte == 0 {
        return None;
    }
    Some(&bytes[most + 1..])
}

/// The number whose shortest encoding the bytes begin with, and what follows it (Avro 1.11,
/// "Primitive Types").
// Numbers at the end of the bytes, and long lengths, are few.
#[inline(never)]
pub(crate) fn split_number(bytes: &[u8]) -> Option<(i64, &[u8])>
    ensures { IfSome result (λ split. BeginsWithNumber bytes.now split.0 split.1.now) }
{
    match bytes.split_first() {
        Some((byte, rest)) if *byte < 128 => Some((signed(*byte), rest)),
        _ => split_long_number(bytes),
    }
}

/// The number that zigzag encodes as a byte.
#[inline(always)]
fn signed(byte: u8) -> i64
    ensures { result ≡ zigzag byte }
{
    let half = (byte / 2) as i64;
    if byte % 2 == 0 { half } else { -1 - half }
}

/// The same of a number of several bytes: its encoding is the shortest unless the last byte is 0.
#[inline(always)]
fn split_long_number(bytes: &[u8]) -> Option<(i64, &[u8])>
    ensures { IfSome result (λ split. BeginsWithNumber bytes.now split.0 split.1.now) }
{
    let mut cursor = SliceCursor::new(bytes);
    let number = next_number(&mut cursor)?;
    let left = cursor.left();
    let rest = cursor.take(left)?;
    let end = bytes.len() - left;
    if bytes[end - 1] == 0 {
        return None;
    }
    Some((number, rest))
}

/// A number of 0 or more, and what follows it. Most have one byte, which zigzag makes even.
#[inline(always)]
pub(crate) fn split_length(bytes: &[u8]) -> Option<(usize, &[u8])>
    ensures { IfSome result (λ split. BeginsWithLength bytes.now split.0 split.1.now) }
{
    match bytes.split_first() {
        Some((byte, rest)) if *byte < 128 => {
            if *byte % 2 != 0 {
                return None;
            }
            Some(((*byte / 2) as usize, rest))
        }
        _ => split_long_length(bytes),
    }
}

/// The same of any number of bytes.
#[inline(always)]
fn split_long_length(bytes: &[u8]) -> Option<(usize, &[u8])>
    ensures { IfSome result (λ split. BeginsWithLength bytes.now split.0 split.1.now) }
{
    let (number, rest) = split_number(bytes)?;
    if number < 0 {
        return None;
    }
    Some((number as usize, rest))
}

/// Bytes after their length, which the bytes begin with, and what follows them (Avro 1.11,
/// "Primitive Types").
#[inline(always)]
pub(crate) fn split_counted(bytes: &[u8]) -> Option<(&[u8], &[u8])>
    ensures { IfSome result (λ split. BeginsWithCounted bytes.now split.0.now split.1.now) }
{
    let (length, rest) = split_length(bytes)?;
    rest.split_at_checked(length)
}
