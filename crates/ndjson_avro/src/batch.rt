//! The rows of a batch.
ghost use Rattle.std.specs.Prelude.{◌≡◌, ◌++◌, ◌∷◌, [], IfOk, IfErr, OnOk};
ghost use Rattle.arrow_core.specs.Errors.{OnlyOutOfMemory};
ghost use Rattle.ndjson_read.specs.FileReader.{source_of, state_of};
ghost use Rattle.ndjson_avro.specs.BatchSteps.{IsOpen, NextRow, NoRow, NoRowsOf, TakesSome};

use arrow_base::{Result, Source, Text};
use ndjson_read::FileReader;
use std::alloc::Global;
use std::mem;

/// The rows of a batch. The memory of their texts is used again from batch to batch.
#[derive(Drop)]
pub(crate) struct Batch {
    pub(crate) rows: Vec<Text>,
    // Texts of the batch before, whose memory isn't used again yet.
    spare: Vec<Text>,
}

/// A copy of the row, in the memory of a text.
fn copy_to(text: Text, row: &str) -> Result<Text>
    ensures copy { IfOk result (λ copied. copied ≡ row.now) }
    ensures memory { OnlyOutOfMemory result }
{
    let mut string = text.into_string();
    string.clear();
    string.push_str(row)?;
    Ok(Text::from_string(string))
}

/// A copy of the row, in the memory of one of the spare texts, where there is one.
fn copy_row(alloc: Global, spare: &mut Vec<Text>, row: &str) -> Result<Text>
    ensures copy { IfOk result (λ copied. copied ≡ row.now) }
    ensures memory { OnlyOutOfMemory result }
{
    match spare.pop() {
        Some(text) => copy_to(text, row),
        None => Text::try_from_str(alloc, row),
    }
}

impl Batch {
    /// A batch of no rows.
    pub(crate) fn new(alloc: Global) -> Batch {
        Batch {
            rows: Vec::new(alloc),
            spare: Vec::new(alloc),
        }
    }

    /// Drops the rows, and keeps their memory for those that come next.
    fn clear(&mut self)
        ensures { self.new.rows.items ≡ [] }
    {
        mem::swap(&mut self.rows, &mut self.spare);
        self.rows.clear();
    }

    /// Adds a copy of a row, in the memory of an earlier one where there is any.
    fn push(&mut self, alloc: Global, row: &str) -> Result<()>
        ensures pushed { OnOk result (self.new.rows.items ≡ self.old.rows.items ++ row.now ∷ []) }
        ensures memory { OnlyOutOfMemory result }
    {
        let text = copy_row(alloc, &mut self.spare, row)?;
        self.rows.push(text)?;
        Ok(())
    }
}

/// Takes the next row into the batch, and says whether there is one.
fn read_row<S: Source>(alloc: Global, reader: &mut FileReader<S>, batch: &mut Batch) -> Result<bool>
    requires { IsOpen reader.old }
    ensures ok { IfOk result (NextRow (state_of S.left S.faults reader.old)
        (state_of S.left S.faults reader.new) batch.old.rows.items batch.new.rows.items) }
    ensures err { IfErr result (NoRow (state_of S.left S.faults reader.old)
        (state_of S.left S.faults reader.new)) }
    ensures open { OnOk result (IsOpen reader.new) }
    ensures same { S.identity (source_of reader.new) ≡ S.identity (source_of reader.old) }
{
    reader.advance()?;
    match reader.get() {
        Some([row, ..]) => {
            batch.push(alloc, row.as_str())?;
            Ok(true)
        }
        _ => Ok(false),
    }
}

/// Takes rows into an empty batch, `wanted` of them, or fewer at the end of the source.
fn read_rows<S: Source>(
    alloc: Global,
    reader: &mut FileReader<S>,
    batch: &mut Batch,
    wanted: usize,
) -> Result<()>
    requires open { IsOpen reader.old }
    requires empty { batch.old.rows.items ≡ [] }
    ensures ok { OnOk result (TakesSome wanted (state_of S.left S.faults reader.old)
        (state_of S.left S.faults reader.new) batch.new.rows.items) }
    ensures err { IfErr result (NoRowsOf wanted (state_of S.left S.faults reader.old)
        (state_of S.left S.faults reader.new)) }
    ensures open { OnOk result (IsOpen reader.new) }
    ensures same { S.identity (source_of reader.new) ≡ S.identity (source_of reader.old) }
{
    'rows: while batch.rows.len() < wanted {
        let more = read_row(alloc, reader, batch)?;
        if !more {
            return Ok(());
        }
    }
    Ok(())
}

/// Takes the next rows into the batch, in place of those that it has: `wanted` of them, or fewer at
/// the end of the source.
///
/// The errors are those of `FileReader::advance`, of any of these rows. `OutOfMemory` at any time.
pub(crate) fn read_batch<S: Source>(
    alloc: Global,
    reader: &mut FileReader<S>,
    batch: &mut Batch,
    wanted: usize,
) -> Result<()>
    requires open { IsOpen reader.old }
    ensures ok { OnOk result (TakesSome wanted (state_of S.left S.faults reader.old)
        (state_of S.left S.faults reader.new) batch.new.rows.items) }
    ensures err { IfErr result (NoRowsOf wanted (state_of S.left S.faults reader.old)
        (state_of S.left S.faults reader.new)) }
    ensures open { OnOk result (IsOpen reader.new) }
    ensures same { S.identity (source_of reader.new) ≡ S.identity (source_of reader.old) }
{
    batch.clear();
    read_rows(alloc, reader, batch, wanted)
}
