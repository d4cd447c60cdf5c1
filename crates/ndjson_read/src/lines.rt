//! The type of the rows of a source of JSON lines.
ghost use Rattle.std.specs.Prelude.{◌≡◌, ◌≢◌, ◌≤◌, ◌++◌, ◌-◌, [], List, Some, None, IfOk, IfErr, OnOk, length, cond};
ghost use Rattle.std.specs.Option.{option_map};
ghost use Rattle.json_tree.specs.declared.value.Value as value;
ghost use Rattle.json_infer.specs.RowsSeen.{StandsFor};
ghost use Rattle.ndjson_read.specs.FileReader.{source_of, batch_of, limit_of, byte_limit_of, lines_of, failure_of, wanted_of, state_of};
ghost use Rattle.ndjson_read.specs.Inference.{told_of, InfersType, NoType, IsComplete};
ghost use Rattle.ndjson_read.specs.SoFar.{EndsInFeed, AddsRow, NoRow};

use crate::FileReader;
use crate::rows::add_text;
use arrow_base::{DataType, Error, Reason, Result, Source, Text};
use json_infer::RowTypes;
use std::alloc::Global;

// Whether a row ends with its line feed.
fn ends_in_feed(row: &[u8]) -> bool
    ensures { cond result (EndsInFeed row.now) (EndsInFeed row.now → ⊥) }
{
    row.last() == Some(&b'\n')
}

// Adds the type of the next row, and says whether there may be another: the last may lack its line
// feed. Without one the source has ended, or no row is due.
fn add_row<S: Source>(
    alloc: Global,
    reader: &mut FileReader<S>,
    types: &mut RowTypes,
) -> Result<bool>
    requires open { failure_of reader.old ≡ None }
    requires batch { batch_of reader.old ≡ 1 }
    ensures ok { IfOk result (λ more. (values : List value.Value)
        × AddsRow (wanted_of reader.old) (state_of S.left S.faults reader.old)
        (state_of S.left S.faults reader.new) values more
        × ((rows : List value.Value) → StandsFor types.old rows
        → StandsFor types.new (rows ++ values))
        × (limit_of reader.new ≡ option_map (λ limit. limit - length values)
        (limit_of reader.old))) }
    ensures err { IfErr result (NoRow (wanted_of reader.old)
        (state_of S.left S.faults reader.old) (state_of S.left S.faults reader.new)) }
    ensures open { OnOk result (failure_of reader.new ≡ None) }
    ensures batch { batch_of reader.new ≡ 1 }
    ensures same { S.identity (source_of reader.new) ≡ S.identity (source_of reader.old) }
{
    reader.advance()?;
    match reader.get() {
        Some([row, ..]) => {
            let text = row.as_str();
            add_text(alloc, types, text)?;
            Ok(ends_in_feed(text.as_bytes()))
        }
        _ => Ok(false),
    }
}

// The type of the rows that a reader of batches of one shows, of which it has shown none. Their types
// are kept in `types`, where there is none yet.
fn infer_into<S: Source>(
    alloc: Global,
    reader: &mut FileReader<S>,
    types: &mut RowTypes,
) -> Result<DataType>
    requires open { failure_of reader.old ≡ None }
    requires batch { batch_of reader.old ≡ 1 }
    requires fresh { lines_of reader.old ≡ 0 }
    requires some { limit_of reader.old ≢ Some 0 }
    requires none { StandsFor types.old [] }
    ensures ok { IfOk result (InfersType (limit_of reader.old) (byte_limit_of reader.old)
        (told_of S.left S.faults (source_of reader.old))
        (told_of S.left S.faults (source_of reader.new))) }
    ensures err { IfErr result (NoType (limit_of reader.old) (byte_limit_of reader.old)
        (told_of S.left S.faults (source_of reader.old))
        (told_of S.left S.faults (source_of reader.new))) }
    ensures same { S.identity (source_of reader.new) ≡ S.identity (source_of reader.old) }
{
    let mut more = true;
    while more {
        more = add_row(alloc, reader, types)?;
    }
    if reader.lines() == 0 {
        return Err(Error::ExternalFormat(Reason::EmptyInput));
    }
    types.result()
}

// The same, where the types are let go.
fn infer_rows<S: Source>(alloc: Global, reader: &mut FileReader<S>) -> Result<DataType>
    requires open { failure_of reader.old ≡ None }
    requires batch { batch_of reader.old ≡ 1 }
    requires fresh { lines_of reader.old ≡ 0 }
    requires some { limit_of reader.old ≢ Some 0 }
    ensures ok { IfOk result (InfersType (limit_of reader.old) (byte_limit_of reader.old)
        (told_of S.left S.faults (source_of reader.old))
        (told_of S.left S.faults (source_of reader.new))) }
    ensures err { IfErr result (NoType (limit_of reader.old) (byte_limit_of reader.old)
        (told_of S.left S.faults (source_of reader.old))
        (told_of S.left S.faults (source_of reader.new))) }
    ensures same { S.identity (source_of reader.new) ≡ S.identity (source_of reader.old) }
{
    let mut types = RowTypes::new(alloc);
    infer_into(alloc, reader, &mut types)
}

// The type of no rows. A byte is taken, since the source may have none.
fn infer_no_rows<S: Source>(reader: &mut S, byte_limit: u64) -> Result<DataType>
    ensures ok { IfOk result (InfersType (Some 0) byte_limit
        (told_of S.left S.faults reader.old) (told_of S.left S.faults reader.new)) }
    ensures err { IfErr result (NoType (Some 0) byte_limit
        (told_of S.left S.faults reader.old) (told_of S.left S.faults reader.new)) }
    ensures never_falls { S.faults reader.old ≤ S.faults reader.new }
{
    let mut next = [0u8; 1];
    match reader.read(&mut next) {
        Ok(0) => Err(Error::ExternalFormat(Reason::EmptyInput)),
        Ok(_) if byte_limit == 0 => Err(Error::LimitExceeded),
        Ok(_) => Ok(DataType::Null),
        Err(_) => Err(Error::ReadFault { line: Some(1) }),
    }
}

// The type of some rows, or of all.
fn infer_some_rows<S: Source>(
    alloc: Global,
    reader: &mut S,
    number_of_rows: Option<usize>,
    byte_limit: u64,
) -> Result<DataType>
    requires some { number_of_rows ≢ Some 0 }
    ensures ok { IfOk result (InfersType number_of_rows byte_limit
        (told_of S.left S.faults reader.old) (told_of S.left S.faults reader.new)) }
    ensures err { IfErr result (NoType number_of_rows byte_limit
        (told_of S.left S.faults reader.old) (told_of S.left S.faults reader.new)) }
{
    let mut rows = Vec::new(alloc);
    rows.push(Text::from_string(String::new(alloc)))?;
    let mut lines = FileReader::new(alloc, &mut *reader, rows, number_of_rows, byte_limit);
    let answer = infer_rows(alloc, &mut lines);
    let (source, _rows) = lines.into_inner();
    // No effect at run time. The proof reads what the source holds from this use of it.
    let _ = &*source;
    answer
}

// The same by the number of rows.
fn infer_first<S: Source>(
    alloc: Global,
    reader: &mut S,
    number_of_rows: Option<usize>,
    byte_limit: u64,
) -> Result<DataType>
    ensures ok { IfOk result (InfersType number_of_rows byte_limit
        (told_of S.left S.faults reader.old) (told_of S.left S.faults reader.new)) }
    ensures err { IfErr result (NoType number_of_rows byte_limit
        (told_of S.left S.faults reader.old) (told_of S.left S.faults reader.new)) }
{
    match number_of_rows {
        Some(0) => infer_no_rows(reader, byte_limit),
        _ => infer_some_rows(alloc, reader, number_of_rows, byte_limit),
    }
}

/// The type of the first rows of a source of JSON lines, `number_of_rows` of them, or of all: the
/// coercion of their distinct types that aren't Null, in order of first appearance. A line is a row
/// as it is for `FileReader`. At most `byte_limit` bytes are taken of the source, and one more where
/// that is the cause of `LimitExceeded`.
///
/// No byte is taken past the line feed of the last of the rows, nor past a faulty line: each row is
/// parsed before a byte of the next line is taken. With `Some(0)` one byte is taken. Nothing is kept
/// of a row but its type.
///
/// `ReadFault` with the number of the line being read, counted from 1, where a read failed;
/// `LimitExceeded` where one byte more than the byte limit was taken, or a row has more than 128
/// brackets open at once; `ExternalFormat(Utf8Line)` where a line isn't UTF-8;
/// `ExternalFormat(Json)` where a row is no JSON text; `ExternalFormat(EmptyInput)` exactly where the
/// source has no byte; `OutOfMemory`.
pub fn infer<S: Source>(
    alloc: Global,
    reader: &mut S,
    number_of_rows: Option<usize>,
    byte_limit: u64,
) -> Result<DataType>
    ensures ok { IfOk result (InfersType number_of_rows byte_limit
        (told_of S.left S.faults reader.old) (told_of S.left S.faults reader.new)) }
    ensures err { IfErr result (NoType number_of_rows byte_limit
        (told_of S.left S.faults reader.old) (told_of S.left S.faults reader.new)) }
    ensures complete { IsComplete number_of_rows byte_limit
        (told_of S.left S.faults reader.old) (told_of S.left S.faults reader.new) result }
    ensures never_falls { S.faults reader.old ≤ S.faults reader.new }
{
    infer_first(alloc, reader, number_of_rows, byte_limit)
}
