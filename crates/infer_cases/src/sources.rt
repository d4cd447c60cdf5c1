//! Sources of the bytes that a case has.
use arrow_base::{Bytes, Items, MemorySource};
use arrow_core::Result;
use std::alloc::Global;

/// How far an escape has been read.
#[derive(Clone, Copy)]
enum Escape {
    None,
    Backslash,
    Digits,
    SecondDigit(u8),
}

/// The number of a hexadecimal digit.
fn digit(byte: u8) -> u8 {
    match byte {
        b'0'..=b'9' => byte.wrapping_sub(b'0'),
        _ => byte.wrapping_sub(b'a').wrapping_add(10),
    }
}

fn push(bytes: &mut Vec<u8>, byte: u8) -> Result<Escape> {
    bytes.push(byte)?;
    Ok(Escape::None)
}

/// Appends what comes to an end with this byte of a text.
fn push_next(bytes: &mut Vec<u8>, escape: Escape, byte: u8) -> Result<Escape> {
    match escape {
        Escape::None if byte == b'\\' => Ok(Escape::Backslash),
        Escape::None => push(bytes, byte),
        Escape::Backslash => match byte {
            b'n' => push(bytes, b'\n'),
            b'r' => push(bytes, b'\r'),
            b'x' => Ok(Escape::Digits),
            _ => push(bytes, byte),
        },
        Escape::Digits => Ok(Escape::SecondDigit(byte)),
        Escape::SecondDigit(first) => push(bytes, (digit(first) << 4) | digit(byte)),
    }
}

/// The bytes that a text with escapes stands for.
pub fn bytes_of(alloc: Global, text: &str) -> Result<Vec<u8>> {
    let mut bytes = Vec::new(alloc);
    let mut escape = Escape::None;
    for &byte in text.as_bytes() {
        escape = push_next(&mut bytes, escape, byte)?;
    }
    Ok(bytes)
}

/// A source of these bytes that gives three of them a read at most, and whose read of this number,
/// counted from 1, fails.
pub fn source_of(alloc: Global, text: &str, failing: u64) -> Result<MemorySource> {
    let bytes = Bytes::from_vec(bytes_of(alloc, text)?);
    let failing = Items::try_from_slice(alloc, &[failing])?;
    Ok(MemorySource::new(bytes, 3, failing))
}
