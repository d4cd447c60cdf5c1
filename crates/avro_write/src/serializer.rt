//! The canonical encodings of an array's slots, one after another.
ghost use Rattle.std.specs.Prelude.{◌≡◌, ◌<◌, ◌++◌, ℕ, List, [], Option, Some, None, Result, length, map, drop, slice_index_or, All, IfErr, IfOk, OnErr, OnOk};
ghost use Rattle.std.specs.List.{concat};
ghost use Rattle.arrow_core.specs.Errors.{OnlyOutOfMemory};
ghost use Rattle.arrow_array.specs.Arrays.{array_slots};
ghost use Rattle.avro_encode.specs.Pairs.{Pairs};
ghost use Rattle.avro_encode.specs.Plain.{plain};
ghost use Rattle.avro_write.specs.Flaws.{IsAccepted, IsRefused};

use crate::flaws::{Flaw, column_shows};
use crate::pairs::pairs;
use arrow_array::Array;
use arrow_core::{Error, Reason, Result};
use avro_encode::ColumnEncoder;
use avro_schema::AvroSchema;
use lending::StreamingIterator;
use std::alloc::{AllocError, Global};
use std::marker::Model;

/// Shows the canonical encodings of an array's slots under a schema, one after another, from a
/// buffer that it uses again. `new_serializer` makes it.
///
/// Contracts see the items that are still to be shown, `left`, and what is `shown`.
#[derive(Drop)]
pub struct BoxSerializer<'a> {
    column: ColumnEncoder<'a>,
    next: usize,
    buffer: Vec<u8>,
    is_shown: bool,
}

impl<'a> Model for BoxSerializer<'a> {
    ghost use Rattle.std.specs.Prelude.{◌≤◌, Some, None, cond, drop, length};
    ghost use Rattle.avro_write.specs.Serializing.{Serializing, serializing_code};

    ghost Value = { Serializing };

    ghost coded = { serializing_code };

    ghost view = { λ s. record {
      left = drop s.next s.column;
      shown = cond s.is_shown (Some s.buffer.items) None;
    } };

    ghost invariant = { λ s. s.next ≤ length s.column };
}

/// What shows the canonical encodings of an array's slots under the schema, in order: nothing yet,
/// and then one item for each slot. What the buffers hold beneath nulls and outside of slices plays
/// no part.
///
/// `NotYetImplemented(SerializerPair)` exactly where the data type doesn't pair with the schema.
/// Then `InvalidArgumentError(NullUnderRequired)` exactly where a null that isn't beneath a null
/// stands under a schema that is no union. Then `InvalidArgumentError(Interval)` exactly where an
/// interval that isn't beneath a null is not whole milliseconds in 32 bits. `OutOfMemory`.
pub fn new_serializer<'a>(
    alloc: Global,
    array: &'a Array,
    schema: &AvroSchema,
) -> Result<BoxSerializer<'a>>
    ensures items { IfOk result
        (λ s. s.left ≡ map (plain schema.now) (array_slots array.now)) }
    ensures nothing_shown { IfOk result (λ s. s.shown ≡ None) }
    ensures accepted { OnOk result (IsAccepted schema.now array.now) }
    ensures pairs { OnOk result (All (Pairs schema.now) (array_slots array.now)) }
    ensures err { IfErr result (IsRefused schema.now array.now) }
{
    if !pairs(schema, array.data_type()) {
        return Err(Error::NotYetImplemented(Reason::SerializerPair));
    }
    if column_shows(array, schema, Flaw::Null) {
        return Err(Error::InvalidArgumentError(Reason::NullUnderRequired));
    }
    if column_shows(array, schema, Flaw::Interval) {
        return Err(Error::InvalidArgumentError(Reason::Interval));
    }
    array.slots_are_typed();
    let column = ColumnEncoder::new(alloc, array, schema)?;
    Ok(BoxSerializer {
        column,
        next: 0,
        buffer: Vec::new(alloc),
        is_shown: false,
    })
}

impl<'a> BoxSerializer<'a> {
    /// How many items are still to be shown. It takes no memory.
    pub fn left(&self) -> usize
        ensures { result ≡ length self.now.left }
    {
        self.column.len() - self.next
    }

    /// Appends the item before which `k` others are still to be shown, and shows none.
    ///
    /// `AllocError` alone.
    #[inline(always)]
    pub(crate) fn append_item(
        &self,
        k: usize,
        out: &mut Vec<u8>,
    ) -> std::result::Result<(), AllocError>
        requires left { k < length self.now.left }
        ensures ok { OnOk result (out.new.items
            ≡ out.old.items ++ slice_index_or self.now.left k []) }
    {
        // It tells that the index is a number.
        let _ = self.column.len();
        self.column.append(self.next + k, out)
    }

    /// Appends the items that are still to be shown, one after another, and shows none.
    ///
    /// `AllocError` alone.
    pub(crate) fn append_left(&self, out: &mut Vec<u8>) -> std::result::Result<(), AllocError>
        ensures ok { OnOk result (out.new.items ≡ out.old.items ++ concat self.now.left) }
    {
        self.column.append_from(self.next, out)
    }

    /// Leaves no item to be shown. What is shown stays.
    pub(crate) fn end(&mut self)
        ensures { self.new.left ≡ [] }
    {
        self.next = self.column.len();
    }
}

impl<'a> StreamingIterator for BoxSerializer<'a> {
    ghost use Rattle.std.specs.Borrow.{sem};
    ghost use Rattle.std.specs.Io.BufRead.{Rests};
    ghost use Rattle.arrow_core.specs.declared.error.Error.{Error};
    ghost use Rattle.lending.specs.Lending.{Advanced, AdvancedNext, IsShown};
    ghost use Rattle.avro_write.specs.Serializing.{Steps};

    ghost can_advance = { λ _. Unit {0} };

    ghost step = { λ before answer after. Steps before answer after };

    ghost shown = { λ s. s.shown };

    ghost to_come = { λ s. length s.left };

    ghost items = { λ s told. told ≡ s.left };

    ghost hints = { λ s hint. (hint.0 ≡ length s.left) × (hint.1 ≡ Some (length s.left)) };

    /// Goes on to the next item.
    ///
    /// `OutOfMemory` alone, and then no item comes any more.
    fn advance(&mut self) -> Result<()> {
        self.is_shown = false;
        let index = self.next;
        let count = self.column.len();
        if index == count {
            return Ok(());
        }
        self.next = count;
        self.buffer.clear();
        self.column.append(index, &mut self.buffer)?;
        self.next = index + 1;
        self.is_shown = true;
        Ok(())
    }

    fn get(&self) -> Option<&[u8]> {
        if self.is_shown {
            Some(self.buffer.as_slice())
        } else {
            None
        }
    }

    fn next(&mut self) -> Result<Option<&[u8]>> {
        StreamingIterator::advance(self)?;
        Ok(StreamingIterator::get(self))
    }

    fn size_hint(&self) -> (usize, Option<usize>) {
        (self.left(), Some(self.left()))
    }
}
