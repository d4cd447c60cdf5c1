//! What a builder of structs, or of fixed-size lists, keeps besides its children.

ghost use Rattle.std.specs.Prelude.{◌≡◌, ◌≤◌, ◌++◌, ◌∷◌, [], length, IsOk, IfOk, OnOk, OnErr};
ghost use Rattle.arrow_core.specs.Errors.{OnlyOutOfMemory};
ghost use Rattle.arrow_core.specs.declared.error.Error.TheVariants.{OutOfMemory};
ghost use Rattle.arrow_flat.specs.Nested.{marks_node};
ghost use Rattle.arrow_flat.specs.Nodes.{KeepsCapacity, NoLessSpare, Emptied, HasSpare};

use crate::bitmap::MutableBitmap;
use crate::lengths::NodeLengths;
use arrow_array::Bitmap;
use arrow_core::{DataType, Result};
use std::alloc::Global;
use std::marker::Model;
use std::mem;

/// The data type, and which slots are valid.
#[derive(Drop)]
pub struct MutableMarks {
    alloc: Global,
    data_type: DataType,
    validity: MutableBitmap,
}

impl Model for MutableMarks {
    ghost use Rattle.arrow_flat.specs.Nested.{Marks, marks_code};

    ghost Value = { Marks };

    ghost coded = { marks_code };

    ghost view = { λ m. record {
      data_type = m.data_type;
      booleans = m.validity.items;
      spare = m.validity.spare;
    } };
}

impl MutableMarks {
    /// No slot. It takes no memory.
    pub fn new(alloc: Global, data_type: DataType) -> MutableMarks
        ensures data_type { result.data_type ≡ data_type }
        ensures booleans { result.booleans ≡ [] }
    {
        MutableMarks {
            alloc,
            data_type,
            validity: MutableBitmap::new(alloc),
        }
    }

    /// The allocator that it was made with.
    pub fn alloc(&self) -> Global {
        self.alloc
    }

    /// How many slots there are, nulls among them.
    pub fn len(&self) -> usize
        ensures { result ≡ length self.now.booleans }
    {
        self.validity.len()
    }

    /// How many slots there are, as a node of a builder.
    pub fn lengths(&self) -> NodeLengths
        ensures slots { result.slots ≡ length self.now.booleans }
        ensures bytes { result.bytes ≡ 0 }
    {
        NodeLengths {
            slots: self.validity.len(),
            bytes: 0,
        }
    }

    /// The data type that it was made with; no call changes it.
    pub fn data_type(&self) -> &DataType
        ensures { result.now ≡ self.now.data_type }
    {
        &self.data_type
    }

    /// Appends a slot, valid or null. `OutOfMemory` changes nothing.
    #[inline(always)]
    pub fn push(&mut self, is_valid: bool) -> Result<()>
        ensures data_type { self.new.data_type ≡ self.old.data_type }
        ensures ok { OnOk result (self.new.booleans ≡ self.old.booleans ++ is_valid ∷ []) }
        ensures err { OnErr result (self.new ≡ self.old) }
        ensures memory { OnlyOutOfMemory result }
        ensures capacity { KeepsCapacity (marks_node self.old) (marks_node self.new) }
        ensures has_capacity { 1 ≤ self.old.spare → IsOk result }
    {
        if self.validity.push_within(is_valid) {
            return Ok(());
        }
        self.push_word(is_valid)
    }

    /// `push`, where the bit begins a word.
    #[inline(never)]
    fn push_word(&mut self, is_valid: bool) -> Result<()>
        ensures data_type { self.new.data_type ≡ self.old.data_type }
        ensures ok { OnOk result (self.new.booleans ≡ self.old.booleans ++ is_valid ∷ []) }
        ensures err { OnErr result (self.new ≡ self.old) }
        ensures memory { OnlyOutOfMemory result }
        ensures capacity { KeepsCapacity (marks_node self.old) (marks_node self.new) }
        ensures has_capacity { 1 ≤ self.old.spare → IsOk result }
    {
        self.validity.reserve_one()?;
        self.validity.push_reserved(is_valid);
        Ok(())
    }

    /// Makes spare capacity for so many more slots. `OutOfMemory` leaves the slots as they are.
    pub fn reserve_for(&mut self, additional: usize) -> Result<()>
        ensures data_type { self.new.data_type ≡ self.old.data_type }
        ensures booleans { self.new.booleans ≡ self.old.booleans }
        ensures memory { OnlyOutOfMemory result }
        ensures capacity { NoLessSpare (marks_node self.old) (marks_node self.new) }
        ensures ok { OnOk result (HasSpare additional (marks_node self.new)) }
    {
        self.validity.reserve(additional)?;
        Ok(())
    }

    /// Drops every slot and keeps the capacity.
    pub fn clear(&mut self)
        ensures data_type { self.new.data_type ≡ self.old.data_type }
        ensures booleans { self.new.booleans ≡ [] }
        ensures capacity { Emptied (marks_node self.old) (marks_node self.new) }
    {
        self.validity.clear();
    }

    /// The data type, and the validity of the slots, of which none stays, after `OutOfMemory` too.
    pub fn take(&mut self) -> Result<(DataType, Bitmap)>
        ensures data_type { self.new.data_type ≡ self.old.data_type }
        ensures booleans { self.new.booleans ≡ [] }
        ensures same_type { IfOk result (λ p. p.0 ≡ self.old.data_type) }
        ensures validity { IfOk result (λ p. p.1.booleans ≡ self.old.booleans) }
        ensures memory { OnlyOutOfMemory result }
    {
        let validity = mem::replace(&mut self.validity, MutableBitmap::new(self.alloc));
        let validity = validity.freeze()?;
        let data_type = self.data_type.try_clone(self.alloc)?;
        Ok((data_type, validity))
    }
}
