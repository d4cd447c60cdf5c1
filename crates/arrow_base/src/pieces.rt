//! Bytes that are given in pieces.
ghost use Rattle.std.specs.Prelude.{◌≡◌, ◌<◌, ◌≤◌, ◌++◌, [], Some, min, length, drop, take, IfOk, OnErr};
ghost use Rattle.std.specs.Io.{StopsAt};
ghost use Rattle.arrow_core.specs.Errors.{OnlyOutOfMemory};
ghost use Rattle.arrow_base.specs.Outside.{GivesThrough};

use arrow_core::{Bytes, Result};
use memchr::memchr;

// How many bytes there are through the first that is `byte`, or to the end.
pub(crate) fn len_through(bytes: &[u8], byte: u8) -> usize
    ensures within { result ≤ length bytes.now }
    ensures some { 0 < length bytes.now → 0 < result }
    ensures stops { StopsAt (take result bytes.now) byte }
{
    match memchr(byte, bytes) {
        Some(i) => i + 1,
        None => bytes.len(),
    }
}

// Bytes that are given in pieces.
#[derive(Drop)]
pub(crate) struct Pieces {
    bytes: Bytes,
    at: usize,
    piece: usize,
    ghost within: { at ≤ length bytes },
    ghost some: { 1 ≤ piece },
}

impl Pieces {
    pub(crate) fn new(bytes: Bytes, piece: usize) -> Pieces
        requires { 1 ≤ piece }
        ensures left { drop result.at result.bytes ≡ bytes }
        ensures piece { result.piece ≡ piece }
    {
        Pieces {
            bytes,
            at: 0,
            piece,
        }
    }

    // Gives as much as the buffer, the piece and the bytes that are left allow.
    pub(crate) fn give(&mut self, buffer: &mut [u8]) -> usize
        ensures as_much { result
            ≡ min (length buffer.old)
            (min self.old.piece (length (drop self.old.at self.old.bytes))) }
        ensures given { drop self.old.at self.old.bytes
            ≡ take result buffer.new ++ drop self.new.at self.new.bytes }
        ensures same { self.new.piece ≡ self.old.piece }
    {
        let left = &self.bytes.as_slice()[self.at..];
        let n = buffer.len().min(self.piece).min(left.len());
        buffer[..n].copy_from_slice(&left[..n]);
        self.at += n;
        n
    }
    // Puts the next bytes at the end of the line, through the first that is `byte`, as many as
    // `most` and the piece allow, and answers how many.
    pub(crate) fn give_through(
        &mut self,
        byte: u8,
        most: usize,
        line: &mut Vec<u8>,
    ) -> Result<usize>
        requires { 0 < most }
        ensures given { IfOk result (λ n. GivesThrough
            (Some (drop self.old.at self.old.bytes)) (Some (drop self.new.at self.new.bytes))
            byte most line.old.items line.new.items n) }
        ensures end { IfOk result (λ n. n ≡ 0 → drop self.new.at self.new.bytes ≡ []) }
        ensures unchanged { OnErr result (self.new ≡ self.old) }
        ensures unchanged_line { OnErr result (line.new.items ≡ line.old.items) }
        ensures memory { OnlyOutOfMemory result }
        ensures same { self.new.piece ≡ self.old.piece }
    {
        let left = &self.bytes.as_slice()[self.at..];
        let most = most.min(self.piece).min(left.len());
        let given = len_through(&left[..most], byte);
        line.extend_from_slice(&left[..given])?;
        self.at += given;
        Ok(given)
    }
}
