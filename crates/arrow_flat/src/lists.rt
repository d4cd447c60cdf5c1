//! What a builder of lists keeps besides its child.

ghost use Rattle.std.specs.Prelude.{◌≡◌, ◌+◌, ◌-◌, ◌<◌, ◌≤◌, ◌⊎◌, ◌↔◌, ◌++◌, ◌∷◌, [], None, Some, is_some, length, map, Err, IsOk, IfOk, IfErr, OnOk, OnErr};
ghost use Rattle.arrow_core.specs.Errors.{OnlyOutOfMemory};
ghost use Rattle.arrow_core.specs.declared.error.Error.TheVariants.{OutOfMemory, Overflow};
ghost use Rattle.arrow_core.specs.Numbers.{greatest_offset};
ghost use Rattle.arrow_array.specs.Offsets.{AreRising};
ghost use Rattle.arrow_flat.specs.Nested.{items_of, lists_node, offsets_of};
ghost use Rattle.arrow_flat.specs.Nodes.{KeepsCapacity, NoLessSpare, Emptied, HasSpare};

use crate::content::first_offset;
use crate::lengths::NodeLengths;
use crate::marks::MutableMarks;
use arrow_array::Bitmap;
use arrow_core::{DataType, Error, Offset, Result};
use std::alloc::Global;
use std::marker::Model;
use std::mem;

/// The data type of lists, where each of them ends in the child, and which are valid
/// (Arrow columnar format, "Variable-size List Layout").
#[derive(Drop)]
pub struct MutableLists<O: Offset> {
    marks: MutableMarks,
    offsets: Vec<O>,
}

impl<O: Offset> Model for MutableLists<O> {
    ghost use Rattle.std.specs.Prelude.{◌+◌, ◌-◌, length, map, min, vec_capacity};
    ghost use Rattle.arrow_flat.specs.Nested.{HoldLists, ListMarks, list_marks_code, lens_of};

    ghost Value = { ListMarks };

    ghost coded = { list_marks_code };

    ghost view = { λ b. record {
      data_type = b.marks.data_type;
      lens = lens_of (map O.number b.offsets.items) b.marks.booleans;
      spare = min (vec_capacity b.offsets - (length b.marks.booleans + 1)) b.marks.spare;
    } };

    ghost invariant = { λ b. HoldLists O.IS_LARGE (map O.number b.offsets.items) b.marks.booleans
        (lens_of (map O.number b.offsets.items) b.marks.booleans) };
}

impl<O: Offset> MutableLists<O> {
    /// No list. Of the capacity nothing is promised. `OutOfMemory` alone.
    pub fn new(alloc: Global, data_type: DataType, capacity: usize) -> Result<MutableLists<O>>
        ensures data_type { IfOk result (λ b. b.data_type ≡ data_type) }
        ensures lens { IfOk result (λ b. b.lens ≡ []) }
        ensures memory { OnlyOutOfMemory result }
    {
        let offsets = first_offset(alloc, capacity.saturating_add(1))?;
        Ok(MutableLists {
            marks: MutableMarks::new(alloc, data_type),
            offsets,
        })
    }

    /// The allocator that it was made with.
    pub fn alloc(&self) -> Global {
        self.marks.alloc()
    }

    /// How many lists there are, nulls among them.
    pub fn len(&self) -> usize
        ensures { result ≡ length self.now.lens }
    {
        self.marks.len()
    }

    /// How many slots there are, as a node of a builder.
    pub fn lengths(&self) -> NodeLengths
        ensures slots { result.slots ≡ length self.now.lens }
        ensures bytes { result.bytes ≡ 0 }
    {
        NodeLengths {
            slots: self.marks.len(),
            bytes: 0,
        }
    }

    /// The data type that it was made with; no call changes it.
    pub fn data_type(&self) -> &DataType
        ensures { result.now ≡ self.now.data_type }
    {
        self.marks.data_type()
    }

    /// The index in the child at which the last list ends, and the next begins.
    pub fn end(&self) -> usize
        ensures end { result ≡ items_of self.now.lens }
        ensures limit { items_of self.now.lens ≤ greatest_offset O.IS_LARGE }
    {
        self.offsets[self.marks.len()].to_usize()
    }

    /// Appends a null, which has no items. `OutOfMemory` changes nothing.
    pub fn push_null(&mut self) -> Result<()>
        ensures data_type { self.new.data_type ≡ self.old.data_type }
        ensures ok { OnOk result (self.new.lens ≡ self.old.lens ++ None ∷ []) }
        ensures err { OnErr result (self.new ≡ self.old) }
        ensures memory { OnlyOutOfMemory result }
        ensures capacity { KeepsCapacity (lists_node self.old) (lists_node self.new) }
        ensures has_capacity { 1 ≤ self.old.spare → IsOk result }
    {
        let end = self.end();
        let Some(offset) = O::from_usize(end) else {
            unreachable!()
        };
        self.offsets.reserve(1)?;
        self.marks.push(false)?;
        self.offsets.push_reserved(offset);
        Ok(())
    }

    /// Appends the list of the items from the end of the last list up to, and without, `end`.
    ///
    /// `Overflow` exactly where `end` lies before the end of the last list, or past the greatest
    /// offset, 2^31 - 1 or 2^63 - 1. `OutOfMemory`. Either changes nothing.
    pub fn push_list(&mut self, end: usize) -> Result<()>
        ensures data_type { self.new.data_type ≡ self.old.data_type }
        ensures ok { OnOk result (self.new.lens
            ≡ self.old.lens ++ Some (end - items_of self.old.lens) ∷ []) }
        ensures order { OnOk result (items_of self.old.lens ≤ end) }
        ensures err { OnErr result (self.new ≡ self.old) }
        ensures errors { IfErr result (λ e. (e ≡ Overflow) ⊎ (e ≡ OutOfMemory)) }
        ensures overflow { (result ≡ Err Overflow)
            ↔ ((end < items_of self.old.lens) ⊎ (greatest_offset O.IS_LARGE < end)) }
        ensures capacity { KeepsCapacity (lists_node self.old) (lists_node self.new) }
        ensures has_capacity { 1 ≤ self.old.spare
            → items_of self.old.lens ≤ end
            → end ≤ greatest_offset O.IS_LARGE
            → IsOk result }
    {
        if end < self.end() {
            return Err(Error::Overflow);
        }
        let Some(offset) = O::from_usize(end) else {
            return Err(Error::Overflow);
        };
        self.offsets.reserve(1)?;
        self.marks.push(true)?;
        self.offsets.push_reserved(offset);
        Ok(())
    }

    /// Makes spare capacity for so many more lists. `OutOfMemory` leaves the lists as they are.
    pub fn reserve_for(&mut self, additional: usize) -> Result<()>
        ensures data_type { self.new.data_type ≡ self.old.data_type }
        ensures lens { self.new.lens ≡ self.old.lens }
        ensures memory { OnlyOutOfMemory result }
        ensures capacity { NoLessSpare (lists_node self.old) (lists_node self.new) }
        ensures ok { OnOk result (HasSpare additional (lists_node self.new)) }
    {
        self.offsets.reserve(additional)?;
        self.marks.reserve_for(additional)?;
        Ok(())
    }

    /// Drops every list and keeps the capacity.
    pub fn clear(&mut self)
        ensures data_type { self.new.data_type ≡ self.old.data_type }
        ensures lens { self.new.lens ≡ [] }
        ensures capacity { Emptied (lists_node self.old) (lists_node self.new) }
    {
        self.offsets.truncate(1);
        self.marks.clear();
    }

    /// The data type, the offsets and the validity of the lists, of which none stays.
    ///
    /// After `OutOfMemory` the lists may be gone too.
    pub fn take(&mut self) -> Result<(DataType, Vec<O>, Bitmap)>
        ensures data_type { self.new.data_type ≡ self.old.data_type }
        ensures lens { OnOk result (self.new.lens ≡ []) }
        ensures same_type { IfOk result (λ p. p.0 ≡ self.old.data_type) }
        ensures offsets { IfOk result (λ p. map O.number p.1.items ≡ offsets_of self.old.lens) }
        ensures rising { IfOk result (λ p. AreRising (map O.number p.1.items)) }
        ensures validity { IfOk result (λ p. p.2.booleans ≡ map is_some self.old.lens) }
        ensures memory { OnlyOutOfMemory result }
    {
        let first = first_offset(self.marks.alloc(), 1)?;
        let offsets = mem::replace(&mut self.offsets, first);
        let (data_type, validity) = self.marks.take()?;
        Ok((data_type, offsets, validity))
    }
}
