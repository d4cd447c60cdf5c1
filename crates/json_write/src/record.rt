//! Rows as JSON objects, one after another.
ghost use Rattle.std.specs.Prelude.{◌≡◌, ◌≤◌, ◌⊎◌, ℕ, List, Option, Some, None, Result, IfOk, OnOk, IfErr};
ghost use Rattle.std.specs.Borrow.{sem};
ghost use Rattle.std.specs.Io.BufRead.{Rests};
ghost use Rattle.lending.specs.Lending.{Advanced, AdvancedNext, IsShown, IsNext};
ghost use Rattle.arrow_core.specs.declared.error.Error.TheVariants.{OutOfMemory};
ghost use Rattle.arrow_array.specs.Structs.{HaveSlots};
ghost use Rattle.json_text.specs.Columns.{AreColumns};
ghost use Rattle.json_write.specs.Prepared.{columns-prop};

use crate::keys::prepare;
use arrow_base::{Error, Result, Schema};
use arrow_columns::{Array, Chunk};
use json_text::{Column, push_object};
use lending::FallibleStreamingIterator;
use std::alloc::Global;

/// Shows one JSON object for each row of a chunk.
#[derive(Drop)]
pub struct RecordSerializer<'a> {
    arrays: &'a [Array],
    columns: Vec<Column>,
    count: usize,
    at: usize,
    buffer: Vec<u8>,
    is_valid: bool,
    ghost slots: { HaveSlots count arrays.now },
    ghost within: { at ≤ count },
    ghost prepared: { AreColumns arrays.now columns.items } by { columns-prop arrays.now columns.items },
}

/// Lets go of a schema.
fn drop_both(_schema: Schema) {}

impl<'a> RecordSerializer<'a> {
    ghost use Rattle.json_write.specs.Rows.{chunk_refusal, names_of, objects};
    ghost use Rattle.json_write.specs.Serializing.{shown_of, rows_of};

    /// Shows the rows of the chunk, in order, each as a JSON object with a member for each field of
    /// the schema, in order, under the field's name. A value's text is that of its array's type,
    /// whatever the field's is. The buffer is emptied before each row. Nothing is shown before the
    /// first `advance`.
    ///
    /// `InvalidArgumentError(Lengths)` where there are more or fewer fields than arrays. Then for
    /// each array in order: `NotYetImplemented(NoJsonText)` where its type has no JSON text,
    /// `InvalidArgumentError(ZoneOffset)` where the zone of a timestamp, at any depth, is no
    /// offset, and `InvalidArgumentError(DateRange)` where it shows a date or a timestamp whose
    /// year isn't one of 0 to 9999. `OutOfMemory`.
    pub fn new(
        alloc: Global,
        schema: Schema,
        chunk: &'a Chunk,
        buffer: Vec<u8>,
    ) -> Result<RecordSerializer<'a>>
        ensures rows { IfOk result
            (λ s. rows_of s ≡ objects (names_of schema.fields) chunk.now) }
        ensures nothing_shown { IfOk result (λ s. shown_of s ≡ None) }
        ensures accepted { OnOk result (chunk_refusal schema.fields chunk.now ≡ None) }
        ensures err { IfErr result
            (λ e. (e ≡ OutOfMemory) ⊎ (chunk_refusal schema.fields chunk.now ≡ Some e)) }
    {
        let arrays = chunk.arrays();
        let prepared = prepare(alloc, schema.fields.as_slice(), arrays);
        drop_both(schema);
        match prepared {
            Ok(columns) => Ok(RecordSerializer {
                arrays,
                columns,
                count: chunk.len(),
                at: 0,
                buffer,
                is_valid: false,
            }),
            Err(error) => Err(error),
        }
    }
}

impl<'a> FallibleStreamingIterator for RecordSerializer<'a> {
    ghost use Rattle.json_write.specs.Serializing.{Advances, shown_of, rows_left, rows_of};

    type Error = Error;

    ghost can_advance = { λ _. Unit {0} };

    ghost step = { λ before answer after. Advances before answer after };

    ghost shown = { λ s. shown_of s };

    ghost to_come = { λ s. rows_left s };

    ghost items = { λ s told. told ≡ rows_of s };

    ghost hints = { λ _ hint. hint ≡ (0, None) };

    /// Goes on to the next row.
    ///
    /// `OutOfMemory` alone, and then no row comes any more.
    fn advance(&mut self) -> Result<()> {
        self.is_valid = false;
        if self.at == self.count {
            return Ok(());
        }
        self.buffer.clear();
        let columns = self.columns.as_slice();
        match push_object(&mut self.buffer, self.arrays, self.at, columns) {
            Ok(()) => {
                self.at += 1;
                self.is_valid = true;
                Ok(())
            }
            Err(_) => {
                self.at = self.count;
                Err(Error::OutOfMemory)
            }
        }
    }

    fn get(&self) -> Option<&[u8]> {
        if self.is_valid {
            Some(self.buffer.as_slice())
        } else {
            None
        }
    }

    fn next(&mut self) -> Result<Option<&[u8]>> {
        FallibleStreamingIterator::advance(self)?;
        Ok(FallibleStreamingIterator::get(self))
    }

    fn size_hint(&self) -> (usize, Option<usize>) {
        (0, None)
    }
}
