//! Where bytes come from.
ghost use Rattle.std.specs.Prelude.{◌≡◌, ℕ, ◌<◌, ◌≤◌, List, Option, None, take, length, IfOk, IfErr, OnErr};
ghost use Rattle.std.specs.Io.KnownBytes.{Consumes, Keeps, IsAtEnd};
ghost use Rattle.arrow_base.specs.Outside.{RoseOrFull, GivesThrough, NoneGiven, last_count};

use crate::faults::Failed;
use arrow_core::{Error, Result};

/// What gives bytes in order, one at least and as many more as it likes; none at the end alone.
/// Contracts see the bytes still to come, where it tells them, and a count of its failures.
pub trait Source {
    // The bytes still to come, where they are told.
    ghost left: { Self → Option (List ℕ) };

    // How often it failed, up to the last value of 64 bits.
    ghost faults: { Self → ℕ };

    // Which reference it is, where it is one.
    ghost identity: { Self → ℕ } = { λ _. 0 };

    /// Puts the next bytes at the start of the buffer, which isn't empty, and answers how many; 0
    /// at the end alone. `Failed` is answered only where the count of faults rose, or stands at its
    /// last value; no byte is lost then.
    fn read(&mut self, buffer: &mut [u8]) -> std::result::Result<usize, Failed>
        requires { 0 < length buffer.old }
        ensures count { IfOk result (λ n. n ≤ length buffer.old) }
        ensures given { IfOk result
            (λ n. Consumes (left self.old) (left self.new) (take n buffer.new)) }
        ensures end { IfOk result (λ n. n ≡ 0 → IsAtEnd (left self.new)) }
        ensures unchanged { OnErr result (Keeps (left self.old) (left self.new)) }
        ensures never_falls { faults self.old ≤ faults self.new }
        ensures cause { OnErr result (RoseOrFull (faults self.old) (faults self.new)) }
        ensures same { identity self.new ≡ identity self.old };

    /// Puts the next bytes at the end of `line`, and answers how many: one at least, and 0 at the
    /// end alone. They are `most` at most, which isn't 0, and none but the last of them is `byte`.
    ///
    /// `ReadFault`, without a line, is answered only where the count of faults rose, or stands at
    /// its last value; `OutOfMemory`. After an error no byte is lost, and the line is as it was.
    fn read_through(&mut self, byte: u8, most: usize, line: &mut Vec<u8>) -> Result<usize>
        requires { 0 < most }
        ensures given { IfOk result (λ n. GivesThrough (left self.old) (left self.new) byte most
            line.old.items line.new.items n) }
        ensures end { IfOk result (λ n. n ≡ 0 → IsAtEnd (left self.new)) }
        ensures err { IfErr result (NoneGiven (faults self.old) (faults self.new)) }
        ensures unchanged { OnErr result (Keeps (left self.old) (left self.new)) }
        ensures unchanged_line { OnErr result (line.new.items ≡ line.old.items) }
        ensures never_falls { faults self.old ≤ faults self.new }
        ensures same { identity self.new ≡ identity self.old }
    {
        line.reserve(1)?;
        let mut next = [0u8; 1];
        match self.read(&mut next) {
            Ok(0) => Ok(0),
            Ok(_) => {
                line.push(next[0])?;
                Ok(1)
            }
            Err(Failed) => Err(Error::ReadFault { line: None }),
        }
    }

    ghost bounded: { (source : Self) → faults source ≤ last_count };
}

/// A source that tells the bytes still to come in each of its states, or in none that comes after
/// one in which it doesn't. Code that reads a source twice can decide once by which way it reads,
/// whether the bytes are told.
pub trait TellsAlike: Source {
    // A source that doesn't tell the bytes still to come never begins to.
    ghost alike: { (before after : Self) → Self.left before ≡ None → Self.left after ≡ None };
}

impl<S: Source> Source for &mut S {
    ghost left = { λ s. S.left s.now };

    ghost faults = { λ s. S.faults s.now };

    ghost identity = { λ s. s.ghost_name };

    fn read(&mut self, buffer: &mut [u8]) -> std::result::Result<usize, Failed> {
        (**self).read(buffer)
    }

    fn read_through(&mut self, byte: u8, most: usize, line: &mut Vec<u8>) -> Result<usize> {
        (**self).read_through(byte, most, line)
    }

    ghost bounded = { λ s. S.bounded s.now };
}

impl<S: TellsAlike> TellsAlike for &mut S {
    ghost alike = { λ before after. S.alike before.now after.now };
}
