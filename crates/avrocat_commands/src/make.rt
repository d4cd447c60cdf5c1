//! The command `make`: what rows add up to that are drawn, encoded and read back.
ghost use Rattle.std.specs.Prelude.{OnOk, IfErr};
ghost use Rattle.avro_container.specs.Changes.{change_of};
ghost use Rattle.avrocat_commands.specs.Make.{MakeDone, MakeFails};

use arrow_base::{Result, Sink, write_all};
use cli_words::MakeWords;
use sample_rows::make_lines;
use std::alloc::Global;

/// Draws the rows, and writes the lines that tell what they add up to.
///
/// `WriteFault`, and `OutOfMemory`, with which nothing is written.
pub fn run_make<K: Sink>(alloc: Global, words: MakeWords, sink: &mut K) -> Result<()>
    ensures done { OnOk result (MakeDone words
        (change_of (K.held sink.old) (K.faults sink.old) (K.held sink.new) (K.faults sink.new))) }
    ensures fails { IfErr result (MakeFails words
        (change_of (K.held sink.old) (K.faults sink.old) (K.held sink.new) (K.faults sink.new))) }
{
    let lines = make_lines(alloc, words.start, words.rows)?;
    write_all(sink, lines.as_slice())
}
