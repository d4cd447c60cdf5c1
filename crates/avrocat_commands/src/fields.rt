//! The command `fields`: the fields of an Avro file's record, their types and whether they can be shown.
ghost use Rattle.std.specs.Prelude.{◌≡◌, ◌++◌, decimal, OnOk, IfOk, IfErr};
ghost use Rattle.arrow_core.specs.Errors.{OnlyOutOfMemory};
ghost use Rattle.arrow_base.specs.WrittenString.{json_string};
ghost use Rattle.avro_container.specs.Changes.{change_of};
ghost use Rattle.avrocat_commands.specs.Fields.{AppendsLine, AppendsVerdict, AreFieldLines, FieldsDone, FieldsFails};

use crate::input::BYTE_LIMIT;
use arrow_base::{Error, Result, Sink, Source, write_all, write_str};
use avro_file::read_metadata;
use avro_ndjson::reason_not_shown;
use avro_schema::AvroField;
use cli_words::push_type;
use itoa::Buffer;
use std::alloc::Global;

/// Appends these bytes. `OutOfMemory` alone.
fn push(text: &mut Vec<u8>, part: &[u8]) -> Result<()>
    ensures appended { OnOk result (text.new.items ≡ text.old.items ++ part.now) }
    ensures memory { OnlyOutOfMemory result }
{
    text.extend_from_slice(part)?;
    Ok(())
}

/// Appends a number in decimal. `OutOfMemory` alone.
fn push_number(text: &mut Vec<u8>, number: usize) -> Result<()>
    ensures appended { OnOk result (text.new.items ≡ text.old.items ++ decimal number) }
    ensures memory { OnlyOutOfMemory result }
{
    let mut buffer = Buffer::new();
    push(text, buffer.format(number).as_bytes())
}

/// Appends the JSON string of `value`. `OutOfMemory` alone.
fn push_string(text: &mut Vec<u8>, value: &str) -> Result<()>
    ensures appended { OnOk result (text.new.items ≡ text.old.items ++ json_string value.now) }
    ensures memory { OnlyOutOfMemory result }
{
    match write_str(text, value) {
        Ok(()) => Ok(()),
        // A vector takes all bytes that there is memory for.
        Err(_) => Err(Error::OutOfMemory),
    }
}

/// Appends `ndjson`, or the name of the reason why the field can't be shown. `OutOfMemory` alone.
fn push_verdict(alloc: Global, text: &mut Vec<u8>, field: &AvroField) -> Result<()>
    ensures appended { OnOk result (AppendsVerdict field.now text.old.items text.new.items) }
    ensures memory { OnlyOutOfMemory result }
{
    match reason_not_shown(alloc, field)? {
        None => push(text, b"ndjson"),
        Some(reason) => push(text, reason.name().as_bytes()),
    }
}

/// Appends the line of a field. `OutOfMemory` alone.
fn push_line(alloc: Global, text: &mut Vec<u8>, number: usize, field: &AvroField) -> Result<()>
    ensures appended { OnOk result (AppendsLine number field.now text.old.items text.new.items) }
    ensures memory { OnlyOutOfMemory result }
{
    push_number(text, number)?;
    push(text, b"\t")?;
    push_string(text, field.name.as_str())?;
    push(text, b"\t")?;
    push_type(text, &field.schema)?;
    push(text, b"\t")?;
    push_verdict(alloc, text, field)?;
    push(text, b"\n")
}

/// The lines of a record's fields. `OutOfMemory` alone.
fn field_lines(alloc: Global, fields: &[AvroField]) -> Result<Vec<u8>>
    ensures lines { IfOk result (λ text. AreFieldLines 0 fields.now text.items) }
    ensures memory { OnlyOutOfMemory result }
{
    let mut text = Vec::new(alloc);
    for i in 0..fields.len() {
        push_line(alloc, &mut text, i, &fields[i])?;
    }
    Ok(text)
}

/// Reads the header of an Avro file, and writes a line for each field of its record: its number from
/// 0, its name as a JSON string, the word of its type or `-` where it has none, and `ndjson` or the
/// reason why it can't be shown, with a tab between each two. No byte is taken past the header.
///
/// The errors are those of `read_metadata`, and `WriteFault`. Nothing is written before the last.
pub fn run_fields<S: Source, K: Sink>(alloc: Global, source: &mut S, sink: &mut K) -> Result<()>
    ensures done { OnOk result (FieldsDone
        (change_of (S.left source.old) (S.faults source.old) (S.left source.new)
        (S.faults source.new))
        (change_of (K.held sink.old) (K.faults sink.old) (K.held sink.new) (K.faults sink.new))) }
    ensures fails { IfErr result (FieldsFails
        (change_of (S.left source.old) (S.faults source.old) (S.left source.new)
        (S.faults source.new))
        (change_of (K.held sink.old) (K.faults sink.old) (K.held sink.new) (K.faults sink.new))) }
{
    let (metadata, _) = read_metadata(alloc, source, BYTE_LIMIT as u64)?;
    let text = field_lines(alloc, metadata.root.fields.as_slice())?;
    write_all(sink, text.as_slice())
}
