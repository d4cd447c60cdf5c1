//! Which bytes are UTF-8.

ghost use Rattle.std.specs.Prelude.{◌≤◌, ◌↔◌, length, IsTrue};
ghost use Rattle.std.specs.Str.{IsAscii, IsUtf8};

use simdutf8::basic::from_utf8;
use std::simd::prelude::*;

/// The most bytes of a string that is looked at without a call.
const SHORT_LEN: usize = 16;

/// The most bytes of a string that is looked at for ASCII alone at first.
const MIDDLE_LEN: usize = 64;

/// Whether these bytes are UTF-8.
///
/// Most strings are short and ASCII, and a look at the bytes where they stand costs less than a call.
#[inline(always)]
pub fn is_utf8(bytes: &[u8]) -> bool
    ensures { IsTrue result ↔ IsUtf8 bytes.now }
{
    if bytes.len() <= SHORT_LEN && is_short_ascii(bytes) {
        return true;
    }
    is_long_utf8(bytes)
}

/// The same by a call, which looks at many bytes at once. It takes a
/// frame of its own, which short strings are spared.
#[inline(never)]
fn is_long_utf8(bytes: &[u8]) -> bool
    ensures { IsTrue result ↔ IsUtf8 bytes.now }
{
    let len = bytes.len();
    if len > SHORT_LEN && len <= MIDDLE_LEN && is_middle_ascii(bytes) {
        return true;
    }
    from_utf8(bytes).is_ok()
}

/// Whether each of 16 to 64 bytes is below 128, so that each is a character: the first 32 and the last
/// 32 are all, and so with 16.
fn is_middle_ascii(bytes: &[u8]) -> bool
    requires long { 16 ≤ length bytes.now }
    requires short { length bytes.now ≤ 64 }
    ensures { IsTrue result → IsUtf8 bytes.now }
{
    let len = bytes.len();
    if len >= 32 {
        let first = u8x32::from_slice(bytes);
        let last = u8x32::from_slice(&bytes[len - 32..]);
        return thirty_two_are_ascii(first) & thirty_two_are_ascii(last);
    }
    let first = u8x16::from_slice(bytes);
    let last = u8x16::from_slice(&bytes[len - 16..]);
    sixteen_are_ascii(first) & sixteen_are_ascii(last)
}

#[inline(always)]
fn thirty_two_are_ascii(bytes: u8x32) -> bool
    ensures { IsTrue result → IsAscii bytes }
{
    bytes.simd_ge(u8x32::splat(0x80)).to_bitmask() == 0
}

#[inline(always)]
fn sixteen_are_ascii(bytes: u8x16) -> bool
    ensures { IsTrue result → IsAscii bytes }
{
    bytes.simd_ge(u8x16::splat(0x80)).to_bitmask() == 0
}

/// Whether each of at most 16 bytes is below 128, so that each is a character.
///
/// The first eight and the last eight are all where there are eight or more, and so with four.
#[inline(always)]
fn is_short_ascii(bytes: &[u8]) -> bool
    requires short { length bytes.now ≤ 16 }
    ensures { IsTrue result → IsUtf8 bytes.now }
{
    let len = bytes.len();
    if len >= 8 {
        let first = u8x8::from_slice(bytes);
        let last = u8x8::from_slice(&bytes[len - 8..]);
        return eight_are_ascii(first) & eight_are_ascii(last);
    }
    if len >= 4 {
        let first = u8x4::from_slice(bytes);
        let last = u8x4::from_slice(&bytes[len - 4..]);
        return four_are_ascii(first) & four_are_ascii(last);
    }
    each_is_ascii(bytes)
}

#[inline(always)]
fn eight_are_ascii(bytes: u8x8) -> bool
    ensures { IsTrue result → IsAscii bytes }
{
    bytes.simd_ge(u8x8::splat(0x80)).to_bitmask() == 0
}

#[inline(always)]
fn four_are_ascii(bytes: u8x4) -> bool
    ensures { IsTrue result → IsAscii bytes }
{
    bytes.simd_ge(u8x4::splat(0x80)).to_bitmask() == 0
}

#[inline(always)]
fn each_is_ascii(bytes: &[u8]) -> bool
    ensures { IsTrue result → IsUtf8 bytes.now }
{
    for i in 0..bytes.len() {
        if bytes[i] >= 128 {
            return false;
        }
    }
    true
}
