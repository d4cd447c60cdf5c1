//! A builder of fixed-size lists.

ghost use Rattle.std.specs.Prelude.{◌≡◌, ◌+◌, ◌*◌, ◌≤◌, ◌++◌, ◌∷◌, [], true, length, drop, IsOk, IfOk, OnOk, OnErr};
ghost use Rattle.std.specs.Borrow.{sem};
ghost use Rattle.arrow_core.specs.Errors.{OnlyOutOfMemory};
ghost use Rattle.arrow_core.specs.declared.error.Error.TheVariants.{OutOfMemory};
ghost use Rattle.arrow_core.specs.declared.slot.Slot.TheVariants.{List as ListSlot};
ghost use Rattle.arrow_array.specs.FixedLists.{list_size};
ghost use Rattle.arrow_array.specs.declared.array.Array.TheVariants.{FixedSizeList as ArrayOf};
ghost use Rattle.arrow_builders.specs.Calls.{Boxes, Clears, PushesNulls, Reserves};
ghost use Rattle.arrow_builders.specs.FixedContent.{HasFixedContent};
ghost use Rattle.arrow_builders.specs.Found.{found_at};
ghost use Rattle.arrow_builders.specs.Lending.{LendsFixedSizeListValues};
ghost use Rattle.arrow_builders.specs.MutableArrays.{builder_type, builder_slots, nodes};
ghost use Rattle.arrow_flat.specs.Nested.{marks_node};
ghost use Rattle.arrow_flat.specs.Nodes.{Takes};
ghost use Rattle.arrow_builders.specs.Tight.{IsTight};
ghost use Rattle.arrow_builders.specs.declared.array.MutableArray.{FixedSizeList};

use crate::array::MutableArray;
use crate::find::here_or;
use arrow_array::FixedSizeListArray;
use arrow_core::{DataType, Result};
use arrow_flat::{MutableMarks, NodeLengths};
use std::alloc::Global;

/// A builder of fixed-size lists: the items of each are as many slots of its child, one list
/// after another (Arrow columnar format, "Fixed-Size List Layout").
///
/// A null takes as many of the child's slots as a list.
#[cycle(builders)]
#[derive(Drop)]
pub struct MutableFixedSizeListArray {
    marks: MutableMarks,
    values: Box<MutableArray>,
}

/// How many items each list of this type has; 0 where it is no type of fixed-size lists.
fn list_size_of(data_type: &DataType) -> usize
    ensures { result ≡ list_size data_type.now }
{
    match data_type {
        DataType::FixedSizeList(_, size) => *size,
        _ => 0,
    }
}

impl MutableFixedSizeListArray {
    /// An empty builder of lists of `_size` of the slots that `values` takes. The type is one of
    /// lists of this size, and says it already.
    ///
    /// Where the size is 0, or the items of the type have another type than the child, `as_box`
    /// refuses. `OutOfMemory` alone.
    pub fn new_from(
        alloc: Global,
        values: MutableArray,
        data_type: DataType,
        _size: usize,
    ) -> Result<MutableFixedSizeListArray>
        requires { list_size data_type ≡ _size }
        ensures data_type { IfOk result (λ b. b.marks.data_type ≡ data_type) }
        ensures booleans { IfOk result (λ b. b.marks.booleans ≡ []) }
        ensures slots { IfOk result (λ b. builder_slots (FixedSizeList b) ≡ []) }
        ensures values { IfOk result (λ b. b.values.value ≡ values) }
        ensures tight { IsTight values
            → builder_slots values ≡ []
            → IfOk result (λ b. IsTight (FixedSizeList b)) }
        ensures memory { OnlyOutOfMemory result }
    {
        let values = Box::new(alloc, values)?;
        Ok(MutableFixedSizeListArray {
            marks: MutableMarks::new(alloc, data_type),
            values,
        })
    }

    /// The child, which takes the items of the lists.
    pub fn mut_values(&mut self) -> &mut MutableArray
        ensures* writes_back { sem 𝓛 (LendsFixedSizeListValues self.entry result) }
        ensures value { result.now ≡ self.old.values.value }
    {
        &mut self.values
    }

    /// Appends the list of the items that the child took since the last slot, which are as many
    /// as each list has. `OutOfMemory` changes nothing.
    pub fn try_push_valid(&mut self) -> Result<()>
        requires { length (builder_slots self.old.values.value)
            ≡ (length self.old.marks.booleans + 1) * list_size self.old.marks.data_type }
        ensures data_type { self.new.marks.data_type ≡ self.old.marks.data_type }
        ensures values { self.new.values ≡ self.old.values }
        ensures booleans { OnOk result
            (self.new.marks.booleans ≡ self.old.marks.booleans ++ true ∷ []) }
        ensures ok { OnOk result
            (builder_slots (FixedSizeList self.new) ≡ builder_slots (FixedSizeList self.old)
            ++ ListSlot (drop (length self.old.marks.booleans * list_size self.old.marks.data_type)
            (builder_slots self.old.values.value)) ∷ []) }
        ensures err { OnErr result (self.new ≡ self.old) }
        ensures memory { OnlyOutOfMemory result }
        ensures takes { Takes 1 0 (marks_node self.old.marks) (marks_node self.new.marks) }
        ensures has_capacity { 1 ≤ self.old.marks.spare → IsOk result }
    {
        self.marks.push(true)?;
        Ok(())
    }

    /// How many slots there are, nulls among them.
    pub(crate) fn len(&self) -> usize
        ensures { result ≡ length (builder_slots (FixedSizeList self.now)) }
    {
        self.marks.len()
    }

    /// The data type that it was made with; no call changes it.
    pub(crate) fn data_type(&self) -> &DataType
        ensures { result.now ≡ builder_type (FixedSizeList self.now) }
    {
        self.marks.data_type()
    }

    /// What the node of this number holds, counted in preorder from 0, or how far the number is
    /// past the last one.
    #[cycle(searches)]
    pub(crate) fn find_node(&self, node: usize) -> std::result::Result<NodeLengths, usize>
        ensures { result ≡ found_at (nodes (FixedSizeList self.now)) node }
    {
        match here_or(self.marks.lengths(), node) {
            Ok(here) => Ok(here),
            Err(left) => self.values.find_node(left),
        }
    }

    /// The law `fixed_content_is_whole`, of the child.
    #[cycle(contents)]
    pub(crate) fn fixed_content_is_whole(&self)
        ensures { HasFixedContent (FixedSizeList self.now) }
    {
        self.values.fixed_content_is_whole();
    }

    /// Appends a null, and beneath it as many nulls as a list has items.
    ///
    /// After `OutOfMemory` the child may have taken some of them.
    #[cycle(nulls)]
    pub(crate) fn push_null(&mut self) -> Result<()>
        ensures { PushesNulls 1 (FixedSizeList self.old) (FixedSizeList self.new) result }
    {
        let size = list_size_of(self.marks.data_type());
        push_nulls(&mut self.values, size)?;
        self.marks.push(false)
    }

    /// Makes spare capacity for so many more lists, and as much in the child.
    #[cycle(reserves)]
    pub(crate) fn reserve_for(&mut self, additional: usize) -> Result<()>
        ensures { Reserves additional (FixedSizeList self.old) (FixedSizeList self.new) result }
    {
        self.marks.reserve_for(additional)?;
        self.values.reserve_nodes(additional)
    }

    /// Drops every slot, those of the child too, and keeps the capacity.
    #[cycle(clears)]
    pub(crate) fn clear(&mut self)
        ensures { Clears (FixedSizeList self.old) (FixedSizeList self.new) }
    {
        self.marks.clear();
        self.values.clear_nodes();
    }

    /// The array of the slots. The builder and its child are then empty.
    #[cycle(boxes)]
    pub(crate) fn as_box(&mut self) -> Result<FixedSizeListArray>
        ensures { Boxes ArrayOf (FixedSizeList self.old) (FixedSizeList self.new) result }
    {
        let alloc = self.marks.alloc();
        let values = self.values.box_nodes()?;
        let (data_type, validity) = self.marks.take()?;
        FixedSizeListArray::try_new(alloc, data_type, values, Some(validity))
    }
}

/// Appends so many nulls. After `OutOfMemory` some of them may be there.
#[cycle(nulls)]
fn push_nulls(builder: &mut MutableArray, count: usize) -> Result<()>
    ensures { PushesNulls count builder.old builder.new result }
{
    for _ in 0..count {
        builder.append_null()?;
    }
    Ok(())
}
