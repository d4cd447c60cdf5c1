//! Lists with offsets of 32 bits, or of 64.
ghost use Rattle.std.specs.Prelude.{◌≡◌, ℕ, ◌+◌, ◌-◌, ◌<◌, ◌≤◌, ◌↔◌, false, true, IsTrue, IfOk, IfErr, [], length, map, take, drop, vec_len, All};
ghost use Rattle.std.specs.Option.{option_copied};
ghost use Rattle.arrow_core.specs.Errors.{OnlyOutOfMemory};
ghost use Rattle.arrow_core.specs.declared.error.Error.TheVariants.{OutOfMemory};
ghost use Rattle.arrow_core.specs.declared.slot.Slot.TheVariants.{List as ListSlot};
ghost use Rattle.arrow_array.specs.Arrays.{array_type, array_slots, dictionaries_of};
ghost use Rattle.arrow_array.specs.HoldsDictionary.{holds_dictionary};
ghost use Rattle.arrow_array.specs.Kinds.{IsListType};
ghost use Rattle.arrow_array.specs.Lent.{IsPart, part_slots};
ghost use Rattle.arrow_array.specs.Lists.{IsListOf, ListFits, list_at};
ghost use Rattle.arrow_array.specs.Offsets.{AreRising, IsOffsets};
ghost use Rattle.arrow_array.specs.SlotTypes.{SlotOf};
ghost use Rattle.arrow_array.specs.Slots.{TellsHeld, is_held, slot_at, slots_of};
ghost use Rattle.arrow_array.specs.Parts.{IsRefusalOf};

use crate::Bitmap;
use crate::array::Array;
use crate::buffer::Buffer;
use crate::drops::{beside, both, boxed, drop_both};
use crate::offsets::{are_rising, end_within, part_bounds};
use crate::part::Part;
use crate::ranges::tell_offset_ranges;
use crate::validity::{self, slice_with_type};
use arrow_core::{Box, DataType, Error, Offset, Reason, Result};
use std::alloc::Global;
use std::marker::Model;

/// Lists of neighbouring slots of a child, between shared offsets of 32 bits
/// (Arrow columnar format, "Variable-size List Layout").
#[cycle(arrays)]
#[derive(Drop)]
pub struct ListArray {
    data_type: DataType,
    offsets: Buffer<i32>,
    values: Box<Array>,
    validity: Option<Bitmap>,
}

impl Model for ListArray {
    ghost use Rattle.std.specs.Prelude.{false, ◌-◌, length};
    ghost use Rattle.arrow_core.specs.declared.types.DataType.{size-DataType};
    ghost use Rattle.arrow_array.specs.Lists.{ListColumn, list_column_code, list_at, ListFits};
    ghost use Rattle.arrow_array.specs.Slots.{slots_of};

    ghost Value = { ListColumn };

    ghost coded = { list_column_code };

    ghost use Rattle.arrow_array.specs.Arrays.{array_type, array_slots, dictionaries_of};

    ghost view = { λ a. record {
      data_type = a.data_type;
      slots = slots_of (list_at a.offsets (array_slots a.values)) a.validity 0
          (length a.offsets - 1);
      offsets = a.offsets;
      items = array_slots a.values;
      dictionaries = dictionaries_of a.values;
    } };

    ghost invariant = { λ a. ListFits false a.data_type (array_type a.values) a.offsets
        (array_slots a.values) a.validity };

    ghost size = { λ a. size-DataType a.data_type };

    ghost use Rattle.arrow_array.specs.Falls.{list_falls};

    ghost size_decreases = { λ a h. list_falls false a.data_type a.values h.kind };
}

/// Lists of neighbouring slots of a child, between shared offsets of 64 bits
/// (Arrow columnar format, "Variable-size List Layout").
#[cycle(arrays)]
#[derive(Drop)]
pub struct LargeListArray {
    data_type: DataType,
    offsets: Buffer<i64>,
    values: Box<Array>,
    validity: Option<Bitmap>,
}

impl Model for LargeListArray {
    ghost use Rattle.std.specs.Prelude.{true, ◌-◌, length};
    ghost use Rattle.arrow_core.specs.declared.types.DataType.{size-DataType};
    ghost use Rattle.arrow_array.specs.Lists.{ListColumn, list_column_code, list_at, ListFits};
    ghost use Rattle.arrow_array.specs.Slots.{slots_of};

    ghost Value = { ListColumn };

    ghost coded = { list_column_code };

    ghost use Rattle.arrow_array.specs.Arrays.{array_type, array_slots, dictionaries_of};

    ghost view = { λ a. record {
      data_type = a.data_type;
      slots = slots_of (list_at a.offsets (array_slots a.values)) a.validity 0
          (length a.offsets - 1);
      offsets = a.offsets;
      items = array_slots a.values;
      dictionaries = dictionaries_of a.values;
    } };

    ghost invariant = { λ a. ListFits true a.data_type (array_type a.values) a.offsets
        (array_slots a.values) a.validity };

    ghost size = { λ a. size-DataType a.data_type };

    ghost use Rattle.arrow_array.specs.Falls.{list_falls};

    ghost size_decreases = { λ a h. list_falls true a.data_type a.values h.kind };
}

/// Whether this is the type of lists of such items, with such offsets.
fn is_list_of<O: Offset>(data_type: &DataType, item: &DataType) -> bool
    ensures { IsTrue result ↔ IsListOf O.IS_LARGE data_type.now item.now }
{
    match data_type {
        DataType::List(field) => !O::IS_LARGE && field.get().data_type.is_same(item),
        DataType::LargeList(field) => O::IS_LARGE && field.get().data_type.is_same(item),
        _ => false,
    }
}

/// Whether these parts, of which the offsets don't fall, make an array of lists.
fn fits<O: Offset>(
    data_type: &DataType,
    offsets: &[O],
    values: &Array,
    validity: &Option<Bitmap>,
) -> bool
    requires { AreRising (map O.number offsets.now) }
    ensures { IsTrue result
        ↔ ListFits O.IS_LARGE data_type.now (array_type values.now) (map O.number offsets.now)
        (array_slots values.now) validity.now }
{
    if !is_list_of::<O>(data_type, values.data_type()) {
        return false;
    }
    if !end_within(offsets, values.len()) {
        return false;
    }
    validity::fits(validity, offsets.len() - 1)
}

/// The slots of the child between offset `i` and the next.
fn part_of<'a, O: Offset>(offsets: &[O], values: &'a Array, i: usize) -> Part<'a>
    requires offsets { IsOffsets (map O.number offsets.now) (length (array_slots values.now)) }
    requires within { i + 1 < length offsets.now }
    ensures array { result.array.now ≡ values.now }
    ensures part { IsPart result }
    ensures slots { ListSlot (part_slots result)
        ≡ list_at (map O.number offsets.now) (array_slots values.now) i }
{
    let (start, end) = part_bounds(offsets, i, values.len());
    Part {
        array: values,
        start,
        end,
    }
}

impl ListArray {
    /// The array of the lists of the child's slots between each two neighbouring offsets, null
    /// where the validity is false.
    ///
    /// `InvalidArgumentError(ArrayParts)` where the type isn't that of lists with such offsets of
    /// the child's type; where there is no offset, or one is negative, below the one before, or
    /// past the end of the child; or where a given validity hasn't one value fewer than there are
    /// offsets. `OutOfMemory`.
    pub fn try_new(
        alloc: Global,
        data_type: DataType,
        offsets: Vec<i32>,
        values: Array,
        validity: Option<Bitmap>,
    ) -> Result<ListArray>
        ensures data_type { IfOk result (λ a. a.data_type ≡ data_type) }
        ensures slots { IfOk result
            (λ a. a.slots
            ≡ slots_of (list_at offsets.items (array_slots values)) validity 0
            (vec_len offsets - 1)) }
        ensures offsets { IfOk result (λ a. a.offsets ≡ offsets.items) }
        ensures items { IfOk result (λ a. a.items ≡ array_slots values) }
        ensures dictionaries { IfOk result (λ a. a.dictionaries ≡ dictionaries_of values) }
        ensures fits { IfOk result
            (λ _. ListFits false data_type (array_type values) offsets.items (array_slots values)
            validity) }
        ensures err { IfErr result
            (IsRefusalOf
            (ListFits false data_type (array_type values) offsets.items (array_slots values)
            validity)) }
    {
        if !are_rising(offsets.as_slice()) {
            drop_both((data_type, validity), (offsets, values));
            return Err(Error::InvalidArgumentError(Reason::ArrayParts));
        }
        ListArray::try_from_rising(alloc, data_type, offsets, values, validity)
    }

    /// The array that `try_new` gives, for offsets that are known to be one or more, none below 0 and
    /// none below the one before: of them it looks at the last alone.
    ///
    /// `InvalidArgumentError(ArrayParts)` where the type isn't that of lists with such offsets of
    /// the child's type; where the last offset is past the end of the child; or where a given
    /// validity hasn't one value fewer than there are offsets. `OutOfMemory`.
    pub fn try_from_rising(
        alloc: Global,
        data_type: DataType,
        offsets: Vec<i32>,
        values: Array,
        validity: Option<Bitmap>,
    ) -> Result<ListArray>
        requires { AreRising offsets.items }
        ensures data_type { IfOk result (λ a. a.data_type ≡ data_type) }
        ensures slots { IfOk result
            (λ a. a.slots
            ≡ slots_of (list_at offsets.items (array_slots values)) validity 0
            (vec_len offsets - 1)) }
        ensures offsets { IfOk result (λ a. a.offsets ≡ offsets.items) }
        ensures items { IfOk result (λ a. a.items ≡ array_slots values) }
        ensures dictionaries { IfOk result (λ a. a.dictionaries ≡ dictionaries_of values) }
        ensures fits { IfOk result
            (λ _. ListFits false data_type (array_type values) offsets.items (array_slots values)
            validity) }
        ensures err { IfErr result
            (IsRefusalOf
            (ListFits false data_type (array_type values) offsets.items (array_slots values)
            validity)) }
    {
        if !fits(&data_type, offsets.as_slice(), &values, &validity) {
            drop_both((data_type, validity), (offsets, values));
            return Err(Error::InvalidArgumentError(Reason::ArrayParts));
        }
        let shared = both(Buffer::try_from_vec(offsets), Box::new(alloc, values));
        let ((offsets, values), data_type, validity) = beside(shared, data_type, validity)?;
        Ok(ListArray {
            data_type,
            offsets,
            values,
            validity,
        })
    }

    /// How many slots there are, nulls among them.
    pub fn len(&self) -> usize
        ensures { result ≡ length self.now.slots }
    {
        self.offsets.len() - 1
    }

    /// The data type, which is List of some field.
    pub fn data_type(&self) -> &DataType
        ensures data_type { result.now ≡ self.now.data_type }
        ensures kind { IsListType false self.now.data_type }
    {
        &self.data_type
    }

    /// The offsets of the slots, one more than there are slots: a slot that isn't null is the list
    /// of the slots of `values` between its offset and the next.
    pub fn offsets(&self) -> &[i32]
        ensures offsets { result.now ≡ self.now.offsets }
        ensures fit { IsOffsets result.now (length self.now.items) }
        ensures count { length result.now ≡ length self.now.slots + 1 }
        ensures slots { (k : ℕ) → k < length self.now.slots
            → IsTrue (is_held (slot_at self.now.slots k))
            → slot_at self.now.slots k ≡ list_at result.now self.now.items k }
    {
        self.offsets.as_slice()
    }

    /// The child that the lists lie in.
    pub fn values(&self) -> &Array
        ensures data_type { IsListOf false self.now.data_type (array_type result.now) }
        ensures items { array_slots result.now ≡ self.now.items }
        ensures dictionaries { dictionaries_of result.now ≡ self.now.dictionaries }
    {
        self.values.get()
    }

    /// Which slots aren't null. It is `None` only where no slot is null.
    pub fn validity(&self) -> Option<&Bitmap>
        ensures { TellsHeld (option_copied result) self.now.slots }
    {
        self.validity.as_ref()
    }

    /// Whether slot `i` isn't null.
    pub fn is_valid(&self, i: usize) -> bool
        requires { i < length self.now.slots }
        ensures { result ≡ is_held (slot_at self.now.slots i) }
    {
        validity::is_valid(&self.validity, self.len(), i)
    }

    /// The items of the list in slot `i`; at a null, whatever lies between its offsets.
    pub fn value(&self, i: usize) -> Part<'_>
        requires { i < length self.now.slots }
        ensures data_type { IsListOf false self.now.data_type (array_type result.array.now) }
        ensures part { IsPart result }
        ensures slot { IsTrue (is_held (slot_at self.now.slots i))
            → slot_at self.now.slots i ≡ ListSlot (part_slots result) }
    {
        part_of(self.offsets.as_slice(), self.values.get(), i)
    }

    /// Tells that each slot is one of the data type.
    #[cycle(typed)]
    pub(crate) fn slots_are_typed(&self)
        ensures { All (SlotOf self.now.data_type) self.now.slots }
    {
        tell_offset_ranges(self.offsets.as_slice());
        self.values.get().slots_are_typed();
    }

    /// Tells that it holds no dictionary where its type holds none.
    #[cycle(plain)]
    pub(crate) fn holds_no_dictionary(&self)
        ensures { holds_dictionary self.now.data_type ≡ false → self.now.dictionaries ≡ [] }
    {
        self.values.get().holds_no_dictionary();
    }

    /// The `count` slots from index `offset` on. It shares the offsets and the buffers of the
    /// child, of which it keeps all slots.
    ///
    /// `OutOfMemory` alone.
    #[cycle(slices)]
    pub fn slice(&self, alloc: Global, offset: usize, count: usize) -> Result<ListArray>
        requires { offset + count ≤ length self.now.slots }
        ensures data_type { IfOk result (λ a. a.data_type ≡ self.now.data_type) }
        ensures slots { IfOk result (λ a. a.slots ≡ take count (drop offset self.now.slots)) }
        ensures offsets { IfOk result
            (λ a. a.offsets ≡ take (count + 1) (drop offset self.now.offsets)) }
        ensures items { IfOk result (λ a. a.items ≡ self.now.items) }
        ensures memory { OnlyOutOfMemory result }
    {
        let child = self.values.get();
        let values = boxed(alloc, child.slice(alloc, 0, child.len()));
        let len = self.len();
        let parts = slice_with_type(alloc, &self.data_type, &self.validity, len, offset, count);
        let shared = both(self.offsets.slice_and_next(offset, count), values);
        let ((offsets, values), (data_type, validity)) = both(shared, parts)?;
        Ok(ListArray {
            data_type,
            offsets,
            values,
            validity,
        })
    }
}

impl LargeListArray {
    /// The array of the lists of the child's slots between each two neighbouring offsets, null
    /// where the validity is false.
    ///
    /// `InvalidArgumentError(ArrayParts)` where the type isn't that of lists with such offsets of
    /// the child's type; where there is no offset, or one is negative, below the one before, or
    /// past the end of the child; or where a given validity hasn't one value fewer than there are
    /// offsets. `OutOfMemory`.
    pub fn try_new(
        alloc: Global,
        data_type: DataType,
        offsets: Vec<i64>,
        values: Array,
        validity: Option<Bitmap>,
    ) -> Result<LargeListArray>
        ensures data_type { IfOk result (λ a. a.data_type ≡ data_type) }
        ensures slots { IfOk result
            (λ a. a.slots
            ≡ slots_of (list_at offsets.items (array_slots values)) validity 0
            (vec_len offsets - 1)) }
        ensures offsets { IfOk result (λ a. a.offsets ≡ offsets.items) }
        ensures items { IfOk result (λ a. a.items ≡ array_slots values) }
        ensures dictionaries { IfOk result (λ a. a.dictionaries ≡ dictionaries_of values) }
        ensures fits { IfOk result
            (λ _. ListFits true data_type (array_type values) offsets.items (array_slots values)
            validity) }
        ensures err { IfErr result
            (IsRefusalOf
            (ListFits true data_type (array_type values) offsets.items (array_slots values)
            validity)) }
    {
        if !are_rising(offsets.as_slice()) {
            drop_both((data_type, validity), (offsets, values));
            return Err(Error::InvalidArgumentError(Reason::ArrayParts));
        }
        LargeListArray::try_from_rising(alloc, data_type, offsets, values, validity)
    }

    /// The array that `try_new` gives, for offsets that are known to be one or more, none below 0 and
    /// none below the one before: of them it looks at the last alone.
    ///
    /// `InvalidArgumentError(ArrayParts)` where the type isn't that of lists with such offsets of
    /// the child's type; where the last offset is past the end of the child; or where a given
    /// validity hasn't one value fewer than there are offsets. `OutOfMemory`.
    pub fn try_from_rising(
        alloc: Global,
        data_type: DataType,
        offsets: Vec<i64>,
        values: Array,
        validity: Option<Bitmap>,
    ) -> Result<LargeListArray>
        requires { AreRising offsets.items }
        ensures data_type { IfOk result (λ a. a.data_type ≡ data_type) }
        ensures slots { IfOk result
            (λ a. a.slots
            ≡ slots_of (list_at offsets.items (array_slots values)) validity 0
            (vec_len offsets - 1)) }
        ensures offsets { IfOk result (λ a. a.offsets ≡ offsets.items) }
        ensures items { IfOk result (λ a. a.items ≡ array_slots values) }
        ensures dictionaries { IfOk result (λ a. a.dictionaries ≡ dictionaries_of values) }
        ensures fits { IfOk result
            (λ _. ListFits true data_type (array_type values) offsets.items (array_slots values)
            validity) }
        ensures err { IfErr result
            (IsRefusalOf
            (ListFits true data_type (array_type values) offsets.items (array_slots values)
            validity)) }
    {
        if !fits(&data_type, offsets.as_slice(), &values, &validity) {
            drop_both((data_type, validity), (offsets, values));
            return Err(Error::InvalidArgumentError(Reason::ArrayParts));
        }
        let shared = both(Buffer::try_from_vec(offsets), Box::new(alloc, values));
        let ((offsets, values), data_type, validity) = beside(shared, data_type, validity)?;
        Ok(LargeListArray {
            data_type,
            offsets,
            values,
            validity,
        })
    }

    /// How many slots there are, nulls among them.
    pub fn len(&self) -> usize
        ensures { result ≡ length self.now.slots }
    {
        self.offsets.len() - 1
    }

    /// The data type, which is LargeList of some field.
    pub fn data_type(&self) -> &DataType
        ensures data_type { result.now ≡ self.now.data_type }
        ensures kind { IsListType true self.now.data_type }
    {
        &self.data_type
    }

    /// The offsets of the slots, one more than there are slots: a slot that isn't null is the list
    /// of the slots of `values` between its offset and the next.
    pub fn offsets(&self) -> &[i64]
        ensures offsets { result.now ≡ self.now.offsets }
        ensures fit { IsOffsets result.now (length self.now.items) }
        ensures count { length result.now ≡ length self.now.slots + 1 }
        ensures slots { (k : ℕ) → k < length self.now.slots
            → IsTrue (is_held (slot_at self.now.slots k))
            → slot_at self.now.slots k ≡ list_at result.now self.now.items k }
    {
        self.offsets.as_slice()
    }

    /// The child that the lists lie in.
    pub fn values(&self) -> &Array
        ensures data_type { IsListOf true self.now.data_type (array_type result.now) }
        ensures items { array_slots result.now ≡ self.now.items }
        ensures dictionaries { dictionaries_of result.now ≡ self.now.dictionaries }
    {
        self.values.get()
    }

    /// Which slots aren't null. It is `None` only where no slot is null.
    pub fn validity(&self) -> Option<&Bitmap>
        ensures { TellsHeld (option_copied result) self.now.slots }
    {
        self.validity.as_ref()
    }

    /// Whether slot `i` isn't null.
    pub fn is_valid(&self, i: usize) -> bool
        requires { i < length self.now.slots }
        ensures { result ≡ is_held (slot_at self.now.slots i) }
    {
        validity::is_valid(&self.validity, self.len(), i)
    }

    /// The items of the list in slot `i`; at a null, whatever lies between its offsets.
    pub fn value(&self, i: usize) -> Part<'_>
        requires { i < length self.now.slots }
        ensures data_type { IsListOf true self.now.data_type (array_type result.array.now) }
        ensures part { IsPart result }
        ensures slot { IsTrue (is_held (slot_at self.now.slots i))
            → slot_at self.now.slots i ≡ ListSlot (part_slots result) }
    {
        part_of(self.offsets.as_slice(), self.values.get(), i)
    }

    /// Tells that each slot is one of the data type.
    #[cycle(typed)]
    pub(crate) fn slots_are_typed(&self)
        ensures { All (SlotOf self.now.data_type) self.now.slots }
    {
        tell_offset_ranges(self.offsets.as_slice());
        self.values.get().slots_are_typed();
    }

    /// Tells that it holds no dictionary where its type holds none.
    #[cycle(plain)]
    pub(crate) fn holds_no_dictionary(&self)
        ensures { holds_dictionary self.now.data_type ≡ false → self.now.dictionaries ≡ [] }
    {
        self.values.get().holds_no_dictionary();
    }

    /// The `count` slots from index `offset` on. It shares the offsets and the buffers of the
    /// child, of which it keeps all slots.
    ///
    /// `OutOfMemory` alone.
    #[cycle(slices)]
    pub fn slice(&self, alloc: Global, offset: usize, count: usize) -> Result<LargeListArray>
        requires { offset + count ≤ length self.now.slots }
        ensures data_type { IfOk result (λ a. a.data_type ≡ self.now.data_type) }
        ensures slots { IfOk result (λ a. a.slots ≡ take count (drop offset self.now.slots)) }
        ensures offsets { IfOk result
            (λ a. a.offsets ≡ take (count + 1) (drop offset self.now.offsets)) }
        ensures items { IfOk result (λ a. a.items ≡ self.now.items) }
        ensures memory { OnlyOutOfMemory result }
    {
        let child = self.values.get();
        let values = boxed(alloc, child.slice(alloc, 0, child.len()));
        let len = self.len();
        let parts = slice_with_type(alloc, &self.data_type, &self.validity, len, offset, count);
        let shared = both(self.offsets.slice_and_next(offset, count), values);
        let ((offsets, values), (data_type, validity)) = both(shared, parts)?;
        Ok(LargeListArray {
            data_type,
            offsets,
            values,
            validity,
        })
    }
}
