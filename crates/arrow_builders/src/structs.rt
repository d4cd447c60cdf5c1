//! A builder of structs.

ghost use Rattle.std.specs.Prelude.{◌≡◌, ◌<◌, ◌≤◌, ◌++◌, ◌∷◌, [], true, length, map, get_or, vec_len, All, IsOk, IfOk, OnOk, OnErr};
ghost use Rattle.std.specs.Borrow.{sem};
ghost use Rattle.arrow_core.specs.Errors.{OnlyOutOfMemory};
ghost use Rattle.arrow_core.specs.declared.error.Error.TheVariants.{OutOfMemory};
ghost use Rattle.arrow_array.specs.Structs.{record_at};
ghost use Rattle.arrow_array.specs.declared.array.Array.TheVariants.{Struct as ArrayOf};
ghost use Rattle.arrow_builders.specs.Calls.{AllBox, AllClear, AllPushNull, AllReserve, Boxes, Clears, PushesNulls, Reserves};
ghost use Rattle.arrow_builders.specs.Children.{all_nodes};
ghost use Rattle.arrow_builders.specs.FixedContent.{HasFixedContent};
ghost use Rattle.arrow_builders.specs.Found.{found_at};
ghost use Rattle.arrow_builders.specs.Lending.{LendsField};
ghost use Rattle.arrow_builders.specs.MutableArrays.{builder_type, builder_slots, nodes};
ghost use Rattle.arrow_flat.specs.Nested.{marks_node};
ghost use Rattle.arrow_flat.specs.Nodes.{Takes};
ghost use Rattle.arrow_builders.specs.Tight.{IsTight, AllTight};
ghost use Rattle.arrow_builders.specs.declared.array.MutableArray.{Struct};

use crate::array::MutableArray;
use crate::find::here_or;
use arrow_array::{Array, StructArray};
use arrow_core::{DataType, Result};
use arrow_flat::{MutableMarks, NodeLengths};
use std::alloc::Global;

/// A builder of structs: the fields of each are the slots of its children at its index
/// (Arrow columnar format, "Struct Layout").
///
/// Beneath a null struct each child takes a null.
#[cycle(builders)]
#[derive(Drop)]
pub struct DynMutableStructArray {
    marks: MutableMarks,
    values: Vec<MutableArray>,
}

impl DynMutableStructArray {
    /// An empty builder of structs of the slots that `values` take, one for each field.
    ///
    /// Where there is no child, or the type isn't that of structs of their types in order,
    /// `as_box` refuses. `OutOfMemory` alone.
    pub fn new(
        alloc: Global,
        values: Vec<MutableArray>,
        data_type: DataType,
    ) -> Result<DynMutableStructArray>
        ensures data_type { IfOk result (λ b. b.marks.data_type ≡ data_type) }
        ensures booleans { IfOk result (λ b. b.marks.booleans ≡ []) }
        ensures slots { IfOk result (λ b. builder_slots (Struct b) ≡ []) }
        ensures values { IfOk result (λ b. b.values ≡ values) }
        ensures tight { AllTight 0 values.items → IfOk result (λ b. IsTight (Struct b)) }
        ensures memory { OnlyOutOfMemory result }
    {
        Ok(DynMutableStructArray {
            marks: MutableMarks::new(alloc, data_type),
            values,
        })
    }

    /// The child of this field, counted from 0, lent to be filled.
    pub fn mut_values(&mut self, field: usize) -> &mut MutableArray
        requires { field < vec_len self.old.values }
        ensures* writes_back { sem 𝓛 (LendsField self.entry field result) }
        ensures value { result.now ≡ get_or self.old.values.items field result.now }
    {
        &mut self.values[field]
    }

    /// Appends the struct of the children's slots at its index. `OutOfMemory` changes nothing.
    pub fn try_push_valid(&mut self) -> Result<()>
        ensures data_type { self.new.marks.data_type ≡ self.old.marks.data_type }
        ensures values { self.new.values ≡ self.old.values }
        ensures booleans { OnOk result
            (self.new.marks.booleans ≡ self.old.marks.booleans ++ true ∷ []) }
        ensures ok { OnOk result (builder_slots (Struct self.new) ≡ builder_slots (Struct self.old)
            ++ record_at (map builder_slots self.old.values.items)
            (length self.old.marks.booleans) ∷ []) }
        ensures err { OnErr result (self.new ≡ self.old) }
        ensures memory { OnlyOutOfMemory result }
        ensures takes { Takes 1 0 (marks_node self.old.marks) (marks_node self.new.marks) }
        ensures has_capacity { 1 ≤ self.old.marks.spare → IsOk result }
    {
        self.marks.push(true)?;
        Ok(())
    }

    /// How many slots there are, nulls among them.
    pub(crate) fn len(&self) -> usize
        ensures { result ≡ length (builder_slots (Struct self.now)) }
    {
        self.marks.len()
    }

    /// The data type that it was made with; no call changes it.
    pub(crate) fn data_type(&self) -> &DataType
        ensures { result.now ≡ builder_type (Struct self.now) }
    {
        self.marks.data_type()
    }

    /// What the node of this number holds, counted in preorder from 0, or how far the number is
    /// past the last one.
    #[cycle(searches)]
    pub(crate) fn find_node(&self, node: usize) -> std::result::Result<NodeLengths, usize>
        ensures { result ≡ found_at (nodes (Struct self.now)) node }
    {
        match here_or(self.marks.lengths(), node) {
            Ok(here) => Ok(here),
            Err(left) => find_below(self.values.as_slice(), left),
        }
    }

    /// The law `fixed_content_is_whole`, of each child.
    #[cycle(contents)]
    pub(crate) fn fixed_content_is_whole(&self)
        ensures { HasFixedContent (Struct self.now) }
    {
        all_content_is_whole(self.values.as_slice());
    }

    /// Appends a null, and a null to each child.
    ///
    /// After `OutOfMemory` some children may have taken one.
    #[cycle(nulls)]
    pub(crate) fn push_null(&mut self) -> Result<()>
        ensures { PushesNulls 1 (Struct self.old) (Struct self.new) result }
    {
        push_null_all(&mut self.values)?;
        self.marks.push(false)
    }

    /// Makes spare capacity for so many more structs, and as much in each child.
    #[cycle(reserves)]
    pub(crate) fn reserve_for(&mut self, additional: usize) -> Result<()>
        ensures { Reserves additional (Struct self.old) (Struct self.new) result }
    {
        self.marks.reserve_for(additional)?;
        reserve_all(&mut self.values, additional)
    }

    /// Drops every slot, those of the children too, and keeps the capacity.
    #[cycle(clears)]
    pub(crate) fn clear(&mut self)
        ensures { Clears (Struct self.old) (Struct self.new) }
    {
        self.marks.clear();
        clear_all(&mut self.values);
    }

    /// The array of the slots. The builder and its children are then empty.
    #[cycle(boxes)]
    pub(crate) fn as_box(&mut self) -> Result<StructArray>
        ensures { Boxes ArrayOf (Struct self.old) (Struct self.new) result }
    {
        let alloc = self.marks.alloc();
        let values = box_all(alloc, &mut self.values)?;
        let (data_type, validity) = self.marks.take()?;
        StructArray::try_new(alloc, data_type, values, Some(validity))
    }
}

/// What the node of this number beneath the children holds, or how far the number is past the last.
#[cycle(searches)]
fn find_below(children: &[MutableArray], node: usize) -> std::result::Result<NodeLengths, usize>
    ensures { result ≡ found_at (all_nodes children.now) node }
{
    let mut left = node;
    for child in children {
        match child.find_node(left) {
            Ok(here) => return Ok(here),
            Err(past) => left = past,
        }
    }
    Err(left)
}

/// The law `fixed_content_is_whole`, of each of several builders.
#[cycle(contents)]
fn all_content_is_whole(children: &[MutableArray])
    ensures { All HasFixedContent children.now }
{
    for child in children {
        child.fixed_content_is_whole();
    }
}

/// Appends a null to each child. After `OutOfMemory` some may have taken one.
#[cycle(nulls)]
fn push_null_all(children: &mut [MutableArray]) -> Result<()>
    ensures { AllPushNull children.old children.new result }
{
    for i in 0..children.len() {
        children[i].append_null()?;
    }
    Ok(())
}

/// Makes spare capacity in each child.
#[cycle(reserves)]
fn reserve_all(children: &mut [MutableArray], additional: usize) -> Result<()>
    ensures { AllReserve additional children.old children.new result }
{
    for i in 0..children.len() {
        children[i].reserve_nodes(additional)?;
    }
    Ok(())
}

/// Drops every slot of each child and keeps the capacity.
#[cycle(clears)]
fn clear_all(children: &mut [MutableArray])
    ensures { AllClear children.old children.new }
{
    for i in 0..children.len() {
        children[i].clear_nodes();
    }
}

/// The arrays of the children's slots. The children are then empty.
#[cycle(boxes)]
fn box_all(alloc: Global, children: &mut [MutableArray]) -> Result<Vec<Array>>
    ensures { AllBox (λ v. v.items) children.old children.new result }
{
    let mut arrays = Vec::with_capacity(alloc, children.len())?;
    for i in 0..children.len() {
        let array = children[i].box_nodes()?;
        arrays.push(array)?;
    }
    Ok(arrays)
}
