//! Structs.
ghost use Rattle.std.specs.Prelude.{◌≡◌, ℕ, ◌+◌, ◌<◌, ◌≤◌, ◌↔◌, false, IsTrue, IfOk, IfErr, [], length, map, take, drop, All};
ghost use Rattle.std.specs.Option.{option_copied};
ghost use Rattle.arrow_core.specs.Errors.{OnlyOutOfMemory};
ghost use Rattle.arrow_core.specs.declared.error.Error.TheVariants.{OutOfMemory};
ghost use Rattle.arrow_array.specs.Arrays.{array_type, array_slots, all_dictionaries};
ghost use Rattle.arrow_array.specs.HoldsDictionary.{HoldsNone, holds_dictionary};
ghost use Rattle.arrow_array.specs.Kinds.{IsStructType};
ghost use Rattle.arrow_array.specs.SlotTypes.{IsTyped, SlotOf};
ghost use Rattle.arrow_array.specs.Slots.{TellsHeld, is_held, slot_at, slots_of};
ghost use Rattle.arrow_array.specs.Structs.{AreChildren, AreCuts, HaveSlots, IsStructOf, StructFits, first_len, record_at};
ghost use Rattle.arrow_array.specs.Parts.{IsRefusalOf};

use crate::Bitmap;
use crate::array::Array;
use crate::drops::{both, drop_both};
use crate::validity::{self, slice_with_type};
use arrow_core::{DataType, Error, Field, Reason, Result};
use std::alloc::Global;
use std::marker::Model;

/// Structs of the slots of several children, of which there is at least one
/// (Arrow columnar format, "Struct Layout").
#[cycle(arrays)]
#[derive(Drop)]
pub struct StructArray {
    data_type: DataType,
    values: Vec<Array>,
    count: usize,
    validity: Option<Bitmap>,
}

impl Model for StructArray {
    ghost use Rattle.std.specs.Prelude.{map};
    ghost use Rattle.arrow_core.specs.declared.types.DataType.{size-DataType};
    ghost use Rattle.arrow_array.specs.Columns.{NestedColumn, nested_column_code};
    ghost use Rattle.arrow_array.specs.Slots.{slots_of};

    ghost Value = { NestedColumn };

    ghost coded = { nested_column_code };

    ghost use Rattle.arrow_array.specs.Arrays.{array_slots, all_dictionaries};
    ghost use Rattle.arrow_array.specs.Structs.{StructParts, record_at};

    ghost view = { λ a. record {
      data_type = a.data_type;
      slots = slots_of (record_at (map array_slots a.values.items)) a.validity 0 a.count;
      dictionaries = all_dictionaries a.values.items;
    } };

    ghost invariant = { λ a. StructParts a.data_type a.values.items a.count a.validity };

    ghost size = { λ a. size-DataType a.data_type };

    ghost use Rattle.arrow_array.specs.Falls.{struct_falls};

    ghost size_decreases = { λ a h. struct_falls a.data_type a.values.items a.count h.kind };
}

/// Whether each child has its field's type, and so many slots.
fn are_children(fields: &[Field], children: &[Array], count: usize) -> bool
    ensures { IsTrue result ↔ AreChildren count fields.now children.now }
{
    if fields.len() != children.len() {
        return false;
    }
    for k in 0..children.len() {
        let field = &fields[k];
        let child = &children[k];
        if child.len() != count {
            return false;
        }
        if !field.data_type.is_same(child.data_type()) {
            return false;
        }
    }
    true
}

/// Whether this is the type of structs of the children, which have so many slots each.
fn is_struct_type(data_type: &DataType, children: &[Array], count: usize) -> bool
    ensures { IsTrue result ↔ IsStructOf data_type.now children.now count }
{
    match data_type {
        DataType::Struct(fields) => are_children(fields.as_slice(), children, count),
        _ => false,
    }
}

/// Whether these parts make an array of structs.
fn fits(data_type: &DataType, children: &[Array], validity: &Option<Bitmap>) -> bool
    ensures { IsTrue result ↔ StructFits data_type.now children.now validity.now }
{
    if children.is_empty() {
        return false;
    }
    let count = children[0].len();
    if !is_struct_type(data_type, children, count) {
        return false;
    }
    validity::fits(validity, count)
}

impl StructArray {
    /// The array of the structs of the children's slots, index by index, null where the validity
    /// is false.
    ///
    /// `InvalidArgumentError(ArrayParts)` where the type isn't that of structs; where there is no
    /// child, or not one for each field, of the field's type; where two children have different
    /// lengths; or where a given validity hasn't their length. `OutOfMemory`.
    pub fn try_new(
        _alloc: Global,
        data_type: DataType,
        values: Vec<Array>,
        validity: Option<Bitmap>,
    ) -> Result<StructArray>
        ensures data_type { IfOk result (λ a. a.data_type ≡ data_type) }
        ensures slots { IfOk result
            (λ a. a.slots
            ≡ slots_of (record_at (map array_slots values.items)) validity 0
            (first_len values.items)) }
        ensures dictionaries { IfOk result
            (λ a. a.dictionaries ≡ all_dictionaries values.items) }
        ensures fits { IfOk result (λ _. StructFits data_type values.items validity) }
        ensures err { IfErr result (IsRefusalOf (StructFits data_type values.items validity)) }
    {
        if !fits(&data_type, values.as_slice(), &validity) {
            drop_both((data_type, validity), values);
            return Err(Error::InvalidArgumentError(Reason::ArrayParts));
        }
        let count = values[0].len();
        Ok(StructArray {
            data_type,
            values,
            count,
            validity,
        })
    }

    /// How many slots there are, nulls among them.
    pub fn len(&self) -> usize
        ensures { result ≡ length self.now.slots }
    {
        self.count
    }

    /// The data type, which is Struct of at least 1 field.
    pub fn data_type(&self) -> &DataType
        ensures data_type { result.now ≡ self.now.data_type }
        ensures kind { IsStructType self.now.data_type }
    {
        &self.data_type
    }

    /// The children, one for each field, of its type, each with as many slots as there are
    /// structs. A slot that isn't null is the struct of the children's slots at its index; what
    /// they hold beneath a null isn't told.
    pub fn values(&self) -> &[Array]
        ensures data_type { IsStructOf self.now.data_type result.now (length self.now.slots) }
        ensures slots { (k : ℕ) → k < length self.now.slots
            → IsTrue (is_held (slot_at self.now.slots k))
            → slot_at self.now.slots k ≡ record_at (map array_slots result.now) k }
        ensures dictionaries { all_dictionaries result.now ≡ self.now.dictionaries }
    {
        self.values.as_slice()
    }

    /// Which slots aren't null. It is `None` only where no slot is null.
    pub fn validity(&self) -> Option<&Bitmap>
        ensures { TellsHeld (option_copied result) self.now.slots }
    {
        self.validity.as_ref()
    }

    /// Whether slot `i` isn't null.
    pub fn is_valid(&self, i: usize) -> bool
        requires { i < length self.now.slots }
        ensures { result ≡ is_held (slot_at self.now.slots i) }
    {
        validity::is_valid(&self.validity, self.count, i)
    }

    /// Tells that each slot is one of the data type.
    #[cycle(typed)]
    pub(crate) fn slots_are_typed(&self)
        ensures { All (SlotOf self.now.data_type) self.now.slots }
    {
        all_are_typed(self.values.as_slice());
    }

    /// Tells that it holds no dictionary where its type holds none.
    #[cycle(plain)]
    pub(crate) fn holds_no_dictionary(&self)
        ensures { holds_dictionary self.now.data_type ≡ false → self.now.dictionaries ≡ [] }
    {
        all_hold_no_dictionary(self.values.as_slice());
    }

    /// The `count` slots from index `offset` on, those of each child. It shares the children's
    /// buffers.
    ///
    /// `OutOfMemory` alone.
    #[cycle(slices)]
    pub fn slice(&self, alloc: Global, offset: usize, count: usize) -> Result<StructArray>
        requires { offset + count ≤ length self.now.slots }
        ensures data_type { IfOk result (λ a. a.data_type ≡ self.now.data_type) }
        ensures slots { IfOk result (λ a. a.slots ≡ take count (drop offset self.now.slots)) }
        ensures memory { OnlyOutOfMemory result }
    {
        let values = slice_all(self.values.as_slice(), alloc, offset, count);
        let len = self.count;
        let parts = slice_with_type(alloc, &self.data_type, &self.validity, len, offset, count);
        let (values, (data_type, validity)) = both(values, parts)?;
        Ok(StructArray {
            data_type,
            values,
            count,
            validity,
        })
    }
}

/// The `count` slots of each array from index `offset` on.
#[cycle(slices)]
fn slice_all(arrays: &[Array], alloc: Global, offset: usize, count: usize) -> Result<Vec<Array>>
    requires { HaveSlots (offset + count) arrays.now }
    ensures cuts { IfOk result (λ slices. AreCuts offset count arrays.now slices.items) }
    ensures memory { OnlyOutOfMemory result }
{
    let mut slices = Vec::new(alloc);
    for array in arrays {
        let slice = array.slice(alloc, offset, count)?;
        slices.push(slice)?;
    }
    Ok(slices)
}

/// Tells that the slots of each array are of its type.
#[cycle(typed)]
fn all_are_typed(arrays: &[Array])
    ensures { All IsTyped arrays.now }
{
    for array in arrays {
        array.slots_are_typed();
    }
}

/// Tells of each array that it holds no dictionary where its type holds none.
#[cycle(plain)]
fn all_hold_no_dictionary(arrays: &[Array])
    ensures { All HoldsNone arrays.now }
{
    for array in arrays {
        array.holds_no_dictionary();
    }
}
