//! A builder of lists with offsets of 32 bits.

ghost use Rattle.std.specs.Prelude.{◌≡◌, ◌<◌, ◌≤◌, ◌++◌, ◌∷◌, [], ◌⊎◌, ◌↔◌, false, length, drop, Err, IsOk, IfOk, IfErr, OnOk, OnErr};
ghost use Rattle.std.specs.Borrow.{sem};
ghost use Rattle.arrow_core.specs.Errors.{OnlyOutOfMemory};
ghost use Rattle.arrow_core.specs.declared.error.Error.TheVariants.{OutOfMemory, Overflow};
ghost use Rattle.arrow_core.specs.Numbers.{greatest_offset};
ghost use Rattle.arrow_core.specs.declared.slot.Slot.TheVariants.{List as ListSlot};
ghost use Rattle.arrow_array.specs.declared.array.Array.TheVariants.{List as ArrayOf};
ghost use Rattle.arrow_builders.specs.Calls.{Boxes, Clears, PushesNulls, Reserves};
ghost use Rattle.arrow_builders.specs.FixedContent.{HasFixedContent};
ghost use Rattle.arrow_builders.specs.Found.{found_at};
ghost use Rattle.arrow_builders.specs.Lending.{LendsListValues};
ghost use Rattle.arrow_builders.specs.MutableArrays.{builder_type, builder_slots, nodes};
ghost use Rattle.arrow_flat.specs.Nested.{items_of, lists_node};
ghost use Rattle.arrow_flat.specs.Nodes.{Takes};
ghost use Rattle.arrow_builders.specs.Tight.{IsTight};
ghost use Rattle.arrow_builders.specs.declared.array.MutableArray.{List};

use crate::array::MutableArray;
use crate::find::here_or;
use arrow_array::ListArray;
use arrow_core::{DataType, Result};
use arrow_flat::{MutableLists, NodeLengths};
use std::alloc::Global;

/// A builder of lists: the items of each are the slots that its child took since the last one
/// (Arrow columnar format, "Variable-size List Layout"). Offsets have 32 bits.
#[cycle(builders)]
#[derive(Drop)]
pub struct DynMutableListArray {
    lists: MutableLists<i32>,
    values: Box<MutableArray>,
}

impl DynMutableListArray {
    /// An empty builder of lists of the slots that `values` takes from now on. Of the capacity
    /// nothing is promised.
    ///
    /// Where the type isn't that of lists of the child's type, `as_box` refuses. `OutOfMemory`
    /// alone.
    pub fn new_from(
        alloc: Global,
        values: MutableArray,
        data_type: DataType,
        capacity: usize,
    ) -> Result<DynMutableListArray>
        ensures data_type { IfOk result (λ b. b.lists.data_type ≡ data_type) }
        ensures lens { IfOk result (λ b. b.lists.lens ≡ []) }
        ensures slots { IfOk result (λ b. builder_slots (List b) ≡ []) }
        ensures values { IfOk result (λ b. b.values.value ≡ values) }
        ensures tight { IsTight values
            → builder_slots values ≡ []
            → IfOk result (λ b. IsTight (List b)) }
        ensures memory { OnlyOutOfMemory result }
    {
        let values = Box::new(alloc, values)?;
        let lists = MutableLists::new(alloc, data_type, capacity)?;
        Ok(DynMutableListArray { lists, values })
    }

    /// The child, which takes the items of the lists.
    pub fn mut_values(&mut self) -> &mut MutableArray
        ensures* writes_back { sem 𝓛 (LendsListValues self.entry result) }
        ensures value { result.now ≡ self.old.values.value }
    {
        &mut self.values
    }

    /// Appends the list of the items that the child took since the last list. A null list has none.
    ///
    /// `Overflow` exactly where the child has fewer items than the lists so far, or more than the
    /// greatest offset. `OutOfMemory`. Either changes nothing.
    pub fn try_push_valid(&mut self) -> Result<()>
        ensures data_type { self.new.lists.data_type ≡ self.old.lists.data_type }
        ensures values { self.new.values ≡ self.old.values }
        ensures ok { OnOk result (builder_slots (List self.new) ≡ builder_slots (List self.old)
            ++ ListSlot (drop (items_of self.old.lists.lens)
            (builder_slots self.old.values.value)) ∷ []) }
        ensures end { OnOk result
            (items_of self.new.lists.lens ≡ length (builder_slots self.old.values.value)) }
        ensures err { OnErr result (self.new ≡ self.old) }
        ensures errors { IfErr result (λ e. (e ≡ Overflow) ⊎ (e ≡ OutOfMemory)) }
        ensures overflow { (result ≡ Err Overflow)
            ↔ ((length (builder_slots self.old.values.value) < items_of self.old.lists.lens)
            ⊎ (greatest_offset false < length (builder_slots self.old.values.value))) }
        ensures takes { Takes 1 0 (lists_node self.old.lists) (lists_node self.new.lists) }
        ensures has_capacity { 1 ≤ self.old.lists.spare
            → items_of self.old.lists.lens ≤ length (builder_slots self.old.values.value)
            → length (builder_slots self.old.values.value) ≤ greatest_offset false
            → IsOk result }
    {
        let end = self.values.len();
        self.lists.push_list(end)?;
        Ok(())
    }

    /// How many slots there are, nulls among them.
    pub(crate) fn len(&self) -> usize
        ensures { result ≡ length (builder_slots (List self.now)) }
    {
        self.lists.len()
    }

    /// The data type that it was made with; no call changes it.
    pub(crate) fn data_type(&self) -> &DataType
        ensures { result.now ≡ builder_type (List self.now) }
    {
        self.lists.data_type()
    }

    /// What the node of this number holds, counted in preorder from 0, or how far the number is
    /// past the last one.
    #[cycle(searches)]
    pub(crate) fn find_node(&self, node: usize) -> std::result::Result<NodeLengths, usize>
        ensures { result ≡ found_at (nodes (List self.now)) node }
    {
        match here_or(self.lists.lengths(), node) {
            Ok(here) => Ok(here),
            Err(left) => self.values.find_node(left),
        }
    }

    /// The law `fixed_content_is_whole`, of the child.
    #[cycle(contents)]
    pub(crate) fn fixed_content_is_whole(&self)
        ensures { HasFixedContent (List self.now) }
    {
        self.values.fixed_content_is_whole();
    }

    /// Appends a null, which has no items.
    pub(crate) fn push_null(&mut self) -> Result<()>
        ensures { PushesNulls 1 (List self.old) (List self.new) result }
    {
        self.lists.push_null()
    }

    /// Makes spare capacity for so many more lists, and as much in the child.
    #[cycle(reserves)]
    pub(crate) fn reserve_for(&mut self, additional: usize) -> Result<()>
        ensures { Reserves additional (List self.old) (List self.new) result }
    {
        self.lists.reserve_for(additional)?;
        self.values.reserve_nodes(additional)
    }

    /// Drops every slot, those of the child too, and keeps the capacity.
    #[cycle(clears)]
    pub(crate) fn clear(&mut self)
        ensures { Clears (List self.old) (List self.new) }
    {
        self.lists.clear();
        self.values.clear_nodes();
    }

    /// The array of the slots. The builder and its child are then empty.
    #[cycle(boxes)]
    pub(crate) fn as_box(&mut self) -> Result<ListArray>
        ensures { Boxes ArrayOf (List self.old) (List self.new) result }
    {
        let alloc = self.lists.alloc();
        let values = self.values.box_nodes()?;
        let (data_type, offsets, validity) = self.lists.take()?;
        ListArray::try_from_rising(alloc, data_type, offsets, values, Some(validity))
    }
}
