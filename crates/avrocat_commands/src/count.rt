//! The command `count`: how many rows and blocks an Avro file has.
ghost use Rattle.std.specs.Prelude.{◌≡◌, ◌++◌, IfOk, OnOk, IfErr};
ghost use Rattle.arrow_core.specs.Errors.{OnlyOutOfMemory};
ghost use Rattle.avro_container.specs.Changes.{change_of};
ghost use Rattle.avrocat_commands.specs.Count.{count_line, counts_text, CountDone, CountFails};

use crate::input::BYTE_LIMIT;
use arrow_base::{Result, Sink, Source, write_all};
use avro_inspect::{FileCounts, count_rows};
use itoa::Buffer;
use std::alloc::Global;

/// Appends a name, a number and a line feed.
fn push_line(text: &mut Vec<u8>, name: &[u8], number: u128) -> Result<()>
    ensures appended { OnOk result
        (text.new.items ≡ text.old.items ++ count_line name.now number) }
    ensures memory { OnlyOutOfMemory result }
{
    text.extend_from_slice(name)?;
    text.extend_from_slice(Buffer::new().format(number).as_bytes())?;
    text.push(b'\n')?;
    Ok(())
}

/// The two lines of a file's counts.
fn count_lines(alloc: Global, counts: FileCounts) -> Result<Vec<u8>>
    ensures lines { IfOk result (λ text. text.items ≡ counts_text counts) }
    ensures memory { OnlyOutOfMemory result }
{
    let mut text = Vec::new(alloc);
    push_line(&mut text, b"rows ", counts.rows)?;
    push_line(&mut text, b"blocks ", counts.blocks as u128)?;
    Ok(text)
}

/// Reads the source to its end as an Avro file, and writes how many rows and blocks it has.
///
/// The errors are those of `count_rows`, then `WriteFault`.
pub fn run_count<S: Source, K: Sink>(alloc: Global, source: &mut S, sink: &mut K) -> Result<()>
    ensures done { OnOk result (CountDone
        (change_of (S.left source.old) (S.faults source.old) (S.left source.new)
        (S.faults source.new))
        (change_of (K.held sink.old) (K.faults sink.old) (K.held sink.new) (K.faults sink.new))) }
    ensures fails { IfErr result (CountFails
        (change_of (S.left source.old) (S.faults source.old) (S.left source.new)
        (S.faults source.new))
        (change_of (K.held sink.old) (K.faults sink.old) (K.held sink.new) (K.faults sink.new))) }
{
    let counts = count_rows(alloc, source, BYTE_LIMIT as u64)?;
    let text = count_lines(alloc, counts)?;
    write_all(sink, text.as_slice())
}
