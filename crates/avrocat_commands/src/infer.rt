//! The command `infer`: the type of the rows of JSON lines.
ghost use Rattle.std.specs.Prelude.{◌≡◌, OnOk, IfOk, IfErr};
ghost use Rattle.arrow_core.specs.Errors.{OnlyOutOfMemory};
ghost use Rattle.avro_container.specs.Changes.{change_of};
ghost use Rattle.avrocat_commands.specs.Infer.{InferDone, InferFails, type_line};

use crate::input::BYTE_LIMIT;
use arrow_base::{DataType, Result, Sink, Source, write_all};
use json_infer::append_type_text;
use ndjson_read::infer;
use std::alloc::Global;

/// The text of a type, and a line feed.
fn line_of(alloc: Global, data_type: &DataType) -> Result<Vec<u8>>
    ensures line { IfOk result (λ line. line.items ≡ type_line data_type.now) }
    ensures memory { OnlyOutOfMemory result }
{
    let mut line = Vec::new(alloc);
    append_type_text(&mut line, data_type)?;
    line.push(b'\n')?;
    Ok(line)
}

/// Reads the source to its end as JSON lines, and writes the type of its rows and a line feed.
///
/// The errors are those of `infer`, and `WriteFault`. Nothing is written before the last.
pub fn run_infer<S: Source, K: Sink>(alloc: Global, source: &mut S, sink: &mut K) -> Result<()>
    ensures done { OnOk result (InferDone
        (change_of (S.left source.old) (S.faults source.old) (S.left source.new)
        (S.faults source.new))
        (change_of (K.held sink.old) (K.faults sink.old) (K.held sink.new) (K.faults sink.new))) }
    ensures fails { IfErr result (InferFails
        (change_of (S.left source.old) (S.faults source.old) (S.left source.new)
        (S.faults source.new))
        (change_of (K.held sink.old) (K.faults sink.old) (K.held sink.new) (K.faults sink.new))) }
{
    let data_type = infer(alloc, source, None, BYTE_LIMIT as u64)?;
    let line = line_of(alloc, &data_type)?;
    write_all(sink, line.as_slice())
}
