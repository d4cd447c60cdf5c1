//! Sources in memory, which fail where they are told to.
ghost use Rattle.std.specs.Prelude.{◌≡◌, ◌<◌, ◌≤◌, ◌+◌, Some, min, take, drop, length, is_err, IfOk, OnErr};
ghost use Rattle.std.specs.Io.KnownBytes.{Consumes, Keeps, IsAtEnd};
ghost use Rattle.arrow_base.specs.Outside.{RoseOrFull, is_among, one_more, counted};

use crate::calls::Calls;
use crate::faults::{Failed, Faults};
use crate::pieces::Pieces;
use crate::source::{Source, TellsAlike};
use arrow_core::{Bytes, Error, Items, Result};

/// Bytes in memory as a source, which gives them in pieces and fails at the reads that it was told
/// to fail at.
#[derive(Drop)]
pub struct MemorySource {
    pieces: Pieces,
    calls: Calls,
    faults: Faults,
}

impl MemorySource {
    ghost use Rattle.arrow_base.specs.MemorySource.{left_of, piece_of, failing_of, reads_of, faults_of};

    /// A source of these bytes. A read gives at most `piece` of them, which is at least 1, and the
    /// reads whose numbers, counted from 1, are in `failing` fail.
    pub fn new(bytes: Bytes, piece: usize, failing: Items<u64>) -> MemorySource
        requires { 1 ≤ piece }
        ensures left { left_of result ≡ bytes }
        ensures piece { piece_of result ≡ piece }
        ensures failing { failing_of result ≡ failing }
        ensures no_read_yet { reads_of result ≡ 0 }
        ensures no_fault_yet { faults_of result ≡ 0 }
    {
        MemorySource {
            pieces: Pieces::new(bytes, piece),
            calls: Calls::new(failing),
            faults: Faults::new(),
        }
    }
}

impl Source for MemorySource {
    ghost use Rattle.arrow_base.specs.MemorySource.{left_of, piece_of, failing_of, reads_of, faults_of};

    ghost left = { λ s. Some (left_of s) };

    ghost faults = { faults_of };

    fn read(&mut self, buffer: &mut [u8]) -> std::result::Result<usize, Failed>
        requires { 0 < length buffer.old }
        ensures count { IfOk result (λ n. n ≤ length buffer.old) }
        ensures given { IfOk result
            (λ n. Consumes (Some (left_of self.old)) (Some (left_of self.new))
            (take n buffer.new)) }
        ensures end { IfOk result (λ n. n ≡ 0 → IsAtEnd (Some (left_of self.new))) }
        ensures unchanged { OnErr result
            (Keeps (Some (left_of self.old)) (Some (left_of self.new))) }
        ensures never_falls { faults_of self.old ≤ faults_of self.new }
        ensures cause { OnErr result (RoseOrFull (faults_of self.old) (faults_of self.new)) }

        // What a read gives, and which reads fail, is known to the last byte.
        ensures as_much { IfOk result
            (λ n. n ≡ min (length buffer.old)
            (min (piece_of self.old) (length (left_of self.old)))) }
        ensures fails { is_err result ≡ is_among (failing_of self.old) (reads_of self.old + 1) }
        ensures numbered { reads_of self.new ≡ one_more (reads_of self.old) }
        ensures counted { faults_of self.new ≡ counted (is_err result) (faults_of self.old) }
        ensures same_piece { piece_of self.new ≡ piece_of self.old }
        ensures same_failing { failing_of self.new ≡ failing_of self.old }
    {
        if self.calls.is_next_to_fail() {
            return Err(self.faults.fail());
        }
        Ok(self.pieces.give(buffer))
    }

    // A read, as far as its number and its failing go.
    fn read_through(&mut self, byte: u8, most: usize, line: &mut Vec<u8>) -> Result<usize> {
        if self.calls.is_next_to_fail() {
            self.faults.fail();
            return Err(Error::ReadFault { line: None });
        }
        self.pieces.give_through(byte, most, line)
    }

    ghost bounded = { λ s. s.faults.fits };
}

impl TellsAlike for MemorySource {
    ghost use Rattle.arrow_base.specs.MemorySource.{left_of};
    ghost use Rattle.arrow_base.specs.Told.{told};

    ghost alike = { λ before _ untold. absurd (told (left_of before) untold) };
}
