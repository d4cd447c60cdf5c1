//! Readers of std as sources.
ghost use Rattle.std.specs.Prelude.{◌≡◌, ◌<◌, ◌≤◌, take, length, is_err, IfOk, IfErr, OnErr};
ghost use Rattle.std.specs.Io.KnownBytes.{Consumes, Keeps, IsAtEnd};
ghost use Rattle.arrow_base.specs.Outside.{RoseOrFull, GivesThrough, NoneGiven, last_count, counted};

use crate::faults::{Failed, Faults};
use crate::pieces::len_through;
use crate::source::{Source, TellsAlike};
use arrow_core::{Error, Result};
use std::io::{BufRead, BufReader, Read, Stdin};

/// A real reader with a buffer as a source. It tells the bytes that its reader tells: none, where
/// that is a file or a pipe. Each error of the reader counts as a fault.
#[derive(Drop)]
pub struct StdSource<R> {
    reader: R,
    faults: Faults,
}

impl<R: BufRead> StdSource<R> {
    /// A source over the reader. Nothing is read: what the reader tells is still to come.
    pub fn new(reader: R) -> StdSource<R>
        ensures left { ⟦<StdSource<R> as Source>⟧.left result ≡ R.remaining reader }
        ensures no_fault_yet { ⟦<StdSource<R> as Source>⟧.faults result ≡ 0 }
    {
        StdSource {
            reader,
            faults: Faults::new(),
        }
    }
}

// Moves the next bytes of the reader's buffer to the end of the line, through the first that is
// `byte`, and answers how many: none where the buffer is empty. `ReadFault` where the reader answered
// an error.
fn append_through<R: BufRead>(
    reader: &mut R,
    byte: u8,
    most: usize,
    line: &mut Vec<u8>,
) -> Result<usize>
    requires { 0 < most }
    ensures given { IfOk result (λ n. GivesThrough
        (R.remaining reader.old) (R.remaining reader.new) byte most line.old.items line.new.items
        n) }
    ensures err { IfErr result (NoneGiven 0 last_count) }
    ensures unchanged { OnErr result (Keeps (R.remaining reader.old) (R.remaining reader.new)) }
    ensures unchanged_line { OnErr result (line.new.items ≡ line.old.items) }
{
    let Ok(shown) = reader.fill_buf() else {
        return Err(Error::ReadFault { line: None });
    };
    let n = len_through(&shown[..most.min(shown.len())], byte);
    line.extend_from_slice(&shown[..n])?;
    reader.consume(n);
    Ok(n)
}

// Reads the next byte to the end of the line, and answers how many: none at the end.
fn append_next<R: Read>(reader: &mut R, byte: u8, most: usize, line: &mut Vec<u8>) -> Result<usize>
    requires { 0 < most }
    ensures given { IfOk result (λ n. GivesThrough
        (R.remaining reader.old) (R.remaining reader.new) byte most line.old.items line.new.items
        n) }
    ensures end { IfOk result (λ n. n ≡ 0 → IsAtEnd (R.remaining reader.new)) }
    ensures err { IfErr result (NoneGiven 0 last_count) }
    ensures unchanged { OnErr result (Keeps (R.remaining reader.old) (R.remaining reader.new)) }
    ensures unchanged_line { OnErr result (line.new.items ≡ line.old.items) }
{
    line.reserve(1)?;
    let mut next = [0u8; 1];
    match reader.read(&mut next) {
        Ok(0) => Ok(0),
        Ok(_) => {
            line.push(next[0])?;
            Ok(1)
        }
        Err(_) => Err(Error::ReadFault { line: None }),
    }
}

// The same by the reader's buffer. That this is empty doesn't tell the end of a reader that tells no
// bytes, so there `read` is asked.
fn append_some<R: BufRead>(
    reader: &mut R,
    byte: u8,
    most: usize,
    line: &mut Vec<u8>,
) -> Result<usize>
    requires { 0 < most }
    ensures given { IfOk result (λ n. GivesThrough
        (R.remaining reader.old) (R.remaining reader.new) byte most line.old.items line.new.items
        n) }
    ensures end { IfOk result (λ n. n ≡ 0 → IsAtEnd (R.remaining reader.new)) }
    ensures err { IfErr result (NoneGiven 0 last_count) }
    ensures unchanged { OnErr result (Keeps (R.remaining reader.old) (R.remaining reader.new)) }
    ensures unchanged_line { OnErr result (line.new.items ≡ line.old.items) }
{
    let given = append_through(reader, byte, most, line)?;
    if given > 0 {
        return Ok(given);
    }
    append_next(reader, byte, most, line)
}

impl<R: BufRead> Source for StdSource<R> {
    ghost left = { λ s. R.remaining s.reader };

    ghost faults = { λ s. s.faults.count };

    fn read(&mut self, buffer: &mut [u8]) -> std::result::Result<usize, Failed>
        requires { 0 < length buffer.old }
        ensures count { IfOk result (λ n. n ≤ length buffer.old) }
        ensures given { IfOk result
            (λ n. Consumes (R.remaining self.old.reader) (R.remaining self.new.reader)
            (take n buffer.new)) }
        ensures end { IfOk result (λ n. n ≡ 0 → IsAtEnd (R.remaining self.new.reader)) }
        ensures unchanged { OnErr result
            (Keeps (R.remaining self.old.reader) (R.remaining self.new.reader)) }
        ensures never_falls { self.old.faults.count ≤ self.new.faults.count }
        ensures cause { OnErr result (RoseOrFull self.old.faults.count self.new.faults.count) }

        // The count rises at an error alone.
        ensures counted { self.new.faults.count ≡ counted (is_err result) self.old.faults.count }
    {
        match self.reader.read(buffer) {
            Ok(n) => Ok(n),
            Err(_) => Err(self.faults.fail()),
        }
    }

    fn read_through(&mut self, byte: u8, most: usize, line: &mut Vec<u8>) -> Result<usize> {
        let answer = append_some(&mut self.reader, byte, most, line);
        if let Err(Error::ReadFault { .. }) = answer {
            self.faults.fail();
        }
        answer
    }

    ghost bounded = { λ s. s.faults.fits };
}

// Standard input tells no bytes.
impl TellsAlike for StdSource<BufReader<Stdin>> {
    ghost use Rattle.arrow_base.specs.Told.{either_way};

    ghost alike = { λ _ _ _. either_way _ };
}
