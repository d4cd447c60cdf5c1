//! The command `rewrite`: an Avro file in its canonical form.
ghost use Rattle.std.specs.Prelude.{OnOk, IfErr};
ghost use Rattle.avro_container.specs.Changes.{change_of};
ghost use Rattle.avrocat_commands.specs.Rewrite.{RewriteDone, RewriteFails};

use crate::input::BYTE_LIMIT;
use arrow_base::{Result, Sink, Source};
use avro_canonical::avro_rewrite;
use cli_words::RewriteWords;
use std::alloc::Global;

/// Reads the source to its end as an Avro file, and writes its canonical form under the name and
/// the marker, block by block.
///
/// The errors are those of `avro_rewrite`.
pub fn run_rewrite<S: Source, K: Sink>(
    alloc: Global,
    words: RewriteWords,
    source: &mut S,
    sink: &mut K,
) -> Result<()>
    ensures done { OnOk result (RewriteDone words
        (change_of (S.left source.old) (S.faults source.old) (S.left source.new)
        (S.faults source.new))
        (change_of (K.held sink.old) (K.faults sink.old) (K.held sink.new) (K.faults sink.new))) }
    ensures fails { IfErr result (RewriteFails words
        (change_of (S.left source.old) (S.faults source.old) (S.left source.new)
        (S.faults source.new))
        (change_of (K.held sink.old) (K.faults sink.old) (K.held sink.new) (K.faults sink.new))) }
{
    let RewriteWords { name, marker } = words;
    match avro_rewrite(
        alloc,
        source,
        sink,
        name.as_str(),
        marker,
        BYTE_LIMIT as u64,
    ) {
        Ok(_) => Ok(()),
        Err(error) => Err(error),
    }
}
