//! Sources in memory, which never fail.
ghost use Rattle.std.specs.Prelude.{◌≡◌, ◌<◌, ◌≤◌, Some, min, take, length, IfOk, IsOk};
ghost use Rattle.std.specs.Io.KnownBytes.{Consumes, IsAtEnd};

use crate::faults::Failed;
use crate::pieces::Pieces;
use crate::source::{Source, TellsAlike};
use arrow_core::{Bytes, Result};

/// Bytes in memory as a source that gives them in pieces and never fails.
#[derive(Drop)]
pub struct SteadySource {
    pieces: Pieces,
}

impl SteadySource {
    ghost use Rattle.arrow_base.specs.SteadySource.{left_of, piece_of};

    /// A source of these bytes, which gives at most `piece` of them in one read. `piece` is at
    /// least 1.
    pub fn new(bytes: Bytes, piece: usize) -> SteadySource
        requires { 1 ≤ piece }
        ensures left { left_of result ≡ bytes }
        ensures piece { piece_of result ≡ piece }
    {
        SteadySource {
            pieces: Pieces::new(bytes, piece),
        }
    }
}

impl Source for SteadySource {
    ghost use Rattle.arrow_base.specs.SteadySource.{left_of, piece_of};

    ghost left = { λ s. Some (left_of s) };

    ghost faults = { λ _. 0 };

    fn read(&mut self, buffer: &mut [u8]) -> std::result::Result<usize, Failed>
        requires { 0 < length buffer.old }
        ensures count { IfOk result (λ n. n ≤ length buffer.old) }
        ensures given { IfOk result
            (λ n. Consumes (Some (left_of self.old)) (Some (left_of self.new))
            (take n buffer.new)) }
        ensures end { IfOk result (λ n. n ≡ 0 → IsAtEnd (Some (left_of self.new))) }

        // What a read gives is known to the last byte.
        ensures never_fails { IsOk result }
        ensures as_much { IfOk result
            (λ n. n ≡ min (length buffer.old)
            (min (piece_of self.old) (length (left_of self.old)))) }
        ensures same_piece { piece_of self.new ≡ piece_of self.old }
    {
        Ok(self.pieces.give(buffer))
    }

    fn read_through(&mut self, byte: u8, most: usize, line: &mut Vec<u8>) -> Result<usize> {
        self.pieces.give_through(byte, most, line)
    }

    ghost use Rattle.std.proofs.Common.{rules};

    ghost bounded = { λ _. Prim.search rules };
}

impl TellsAlike for SteadySource {
    ghost use Rattle.arrow_base.specs.SteadySource.{left_of};
    ghost use Rattle.arrow_base.specs.Told.{told};

    ghost alike = { λ before _ untold. absurd (told (left_of before) untold) };
}
