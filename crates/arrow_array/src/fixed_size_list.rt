//! Lists of one size.
ghost use Rattle.std.specs.Prelude.{◌≡◌, ◌+◌, ◌*◌, ◌/◌, ◌<◌, ◌≤◌, ◌↔◌, ℕ, false, IsTrue, IfOk, IfErr, [], length, take, drop, All};
ghost use Rattle.std.specs.Option.{option_copied};
ghost use Rattle.arrow_core.specs.Errors.{OnlyOutOfMemory};
ghost use Rattle.arrow_core.specs.declared.error.Error.TheVariants.{OutOfMemory};
ghost use Rattle.arrow_core.specs.declared.slot.Slot.TheVariants.{List as ListSlot};
ghost use Rattle.arrow_array.specs.Arrays.{array_type, array_slots, dictionaries_of};
ghost use Rattle.arrow_array.specs.FixedLists.{FixedListFits, IsFixedListOf, fixed_list_at, list_size};
ghost use Rattle.arrow_array.specs.HoldsDictionary.{holds_dictionary};
ghost use Rattle.arrow_array.specs.Kinds.{IsFixedListType};
ghost use Rattle.arrow_array.specs.Lent.{IsPart, part_slots};
ghost use Rattle.arrow_array.specs.SlotTypes.{SlotOf};
ghost use Rattle.arrow_array.specs.Slots.{TellsHeld, is_held, slot_at, slots_of};
ghost use Rattle.arrow_array.specs.Parts.{IsRefusalOf};

use crate::Bitmap;
use crate::array::Array;
use crate::drops::{beside, both, boxed, drop_both};
use crate::part::Part;
use crate::validity::{self, slice_with_type};
use arrow_core::{Box, DataType, Error, Reason, Result};
use std::alloc::Global;
use std::marker::Model;

/// Fixed-size lists, one after another in a child (Arrow columnar format,
/// "Fixed-Size List Layout").
#[cycle(arrays)]
#[derive(Drop)]
pub struct FixedSizeListArray {
    data_type: DataType,
    size: usize,
    count: usize,
    values: Box<Array>,
    validity: Option<Bitmap>,
}

impl Model for FixedSizeListArray {
    ghost use Rattle.std.specs.Prelude.{◌/◌, length};
    ghost use Rattle.arrow_core.specs.declared.types.DataType.{size-DataType};
    ghost use Rattle.arrow_array.specs.Columns.{NestedColumn, nested_column_code};
    ghost use Rattle.arrow_array.specs.FixedLists.{FixedListParts, fixed_list_at, list_size};
    ghost use Rattle.arrow_array.specs.Slots.{slots_of};

    ghost Value = { NestedColumn };

    ghost coded = { nested_column_code };

    ghost use Rattle.arrow_array.specs.Arrays.{array_type, array_slots, dictionaries_of};

    ghost view = { λ a. record {
      data_type = a.data_type;
      slots = slots_of (fixed_list_at (list_size a.data_type) (array_slots a.values)) a.validity 0
          (length (array_slots a.values) / list_size a.data_type);
      dictionaries = dictionaries_of a.values;
    } };

    ghost invariant = { λ a. FixedListParts a.data_type (array_type a.values)
        (length (array_slots a.values)) a.validity a.size a.count };

    ghost size = { λ a. size-DataType a.data_type };

    ghost use Rattle.arrow_array.specs.Falls.{fixed_list_falls};

    ghost size_decreases = { λ a h. fixed_list_falls a.data_type a.values h.fits.kind };
}

/// How many items each list of this type has; 0 where the type isn't FixedSizeList.
fn size_of_type(data_type: &DataType) -> usize
    ensures { result ≡ list_size data_type.now }
{
    match data_type {
        DataType::FixedSizeList(_, size) => *size,
        _ => 0,
    }
}

/// Whether this is the type of fixed-size lists of such items.
fn is_fixed_list_of(data_type: &DataType, item: &DataType) -> bool
    ensures { IsTrue result ↔ IsFixedListOf data_type.now item.now }
{
    match data_type {
        DataType::FixedSizeList(field, _) => field.get().data_type.is_same(item),
        _ => false,
    }
}

/// Whether these parts make an array of fixed-size lists.
fn fits(data_type: &DataType, values: &Array, validity: &Option<Bitmap>) -> bool
    ensures { IsTrue result
        ↔ FixedListFits data_type.now (array_type values.now) (length (array_slots values.now))
        validity.now }
{
    if !is_fixed_list_of(data_type, values.data_type()) {
        return false;
    }
    let size = size_of_type(data_type);
    if size == 0 {
        return false;
    }
    let len = values.len();
    if len % size != 0 {
        return false;
    }
    validity::fits(validity, len / size)
}

impl FixedSizeListArray {
    /// The array of the lists of neighbouring slots of the child, each as long as the type says,
    /// null where the validity is false.
    ///
    /// `InvalidArgumentError(ArrayParts)` where the type isn't FixedSizeList of at least 1 item of
    /// the child's type, where the child's length isn't a multiple of that, or where a given
    /// validity has another length than the array. `OutOfMemory`.
    pub fn try_new(
        alloc: Global,
        data_type: DataType,
        values: Array,
        validity: Option<Bitmap>,
    ) -> Result<FixedSizeListArray>
        ensures data_type { IfOk result (λ a. a.data_type ≡ data_type) }
        ensures slots { IfOk result
            (λ a. a.slots
            ≡ slots_of (fixed_list_at (list_size data_type) (array_slots values)) validity 0
            (length (array_slots values) / list_size data_type)) }
        ensures dictionaries { IfOk result (λ a. a.dictionaries ≡ dictionaries_of values) }
        ensures fits { IfOk result
            (λ _. FixedListFits data_type (array_type values) (length (array_slots values))
            validity) }
        ensures err { IfErr result
            (IsRefusalOf
            (FixedListFits data_type (array_type values) (length (array_slots values)) validity)) }
    {
        if !fits(&data_type, &values, &validity) {
            drop_both((data_type, validity), values);
            return Err(Error::InvalidArgumentError(Reason::ArrayParts));
        }
        let size = size_of_type(&data_type);
        let count = values.len() / size;
        let values = Box::new(alloc, values);
        let (values, data_type, validity) = beside(values, data_type, validity)?;
        Ok(FixedSizeListArray {
            data_type,
            size,
            count,
            values,
            validity,
        })
    }

    /// How many slots there are, nulls among them.
    pub fn len(&self) -> usize
        ensures { result ≡ length self.now.slots }
    {
        self.count
    }

    /// The data type, which is FixedSizeList of at least 1 item.
    pub fn data_type(&self) -> &DataType
        ensures data_type { result.now ≡ self.now.data_type }
        ensures kind { IsFixedListType self.now.data_type }
    {
        &self.data_type
    }

    /// Which slots aren't null. It is `None` only where no slot is null.
    pub fn validity(&self) -> Option<&Bitmap>
        ensures { TellsHeld (option_copied result) self.now.slots }
    {
        self.validity.as_ref()
    }

    /// Whether slot `i` isn't null.
    pub fn is_valid(&self, i: usize) -> bool
        requires { i < length self.now.slots }
        ensures { result ≡ is_held (slot_at self.now.slots i) }
    {
        validity::is_valid(&self.validity, self.count, i)
    }

    /// The items of the list in slot `i`, as many as the type says; at a null, whatever the child
    /// has there.
    pub fn value(&self, i: usize) -> Part<'_>
        requires { i < length self.now.slots }
        ensures data_type { IsFixedListOf self.now.data_type (array_type result.array.now) }
        ensures part { IsPart result }
        ensures size { length (part_slots result) ≡ list_size self.now.data_type }
        ensures slot { IsTrue (is_held (slot_at self.now.slots i))
            → slot_at self.now.slots i ≡ ListSlot (part_slots result) }
    {
        let array = self.values.get();
        let start = i * self.size;
        let end = start + self.size;
        Part { array, start, end }
    }

    /// The child, of the items' type, with the items of each list one after another, as many a list
    /// as the type says. A slot that isn't null is the list of its items in the child; what the
    /// child has there for a null isn't told.
    pub fn values(&self) -> &Array
        ensures data_type { IsFixedListOf self.now.data_type (array_type result.now) }
        ensures count { length (array_slots result.now)
            ≡ length self.now.slots * list_size self.now.data_type }
        ensures slots { (k : ℕ) → k < length self.now.slots
            → IsTrue (is_held (slot_at self.now.slots k))
            → slot_at self.now.slots k
            ≡ fixed_list_at (list_size self.now.data_type) (array_slots result.now) k }
        ensures dictionaries { dictionaries_of result.now ≡ self.now.dictionaries }
    {
        self.values.get()
    }

    /// Tells that each slot is one of the data type.
    #[cycle(typed)]
    pub(crate) fn slots_are_typed(&self)
        ensures { All (SlotOf self.now.data_type) self.now.slots }
    {
        self.values.get().slots_are_typed();
    }

    /// Tells that it holds no dictionary where its type holds none.
    #[cycle(plain)]
    pub(crate) fn holds_no_dictionary(&self)
        ensures { holds_dictionary self.now.data_type ≡ false → self.now.dictionaries ≡ [] }
    {
        self.values.get().holds_no_dictionary();
    }

    /// The `count` slots from index `offset` on, and of the child the slots that they need. It
    /// shares the child's buffers.
    ///
    /// `OutOfMemory` alone.
    #[cycle(slices)]
    pub fn slice(&self, alloc: Global, offset: usize, count: usize) -> Result<FixedSizeListArray>
        requires { offset + count ≤ length self.now.slots }
        ensures data_type { IfOk result (λ a. a.data_type ≡ self.now.data_type) }
        ensures slots { IfOk result (λ a. a.slots ≡ take count (drop offset self.now.slots)) }
        ensures memory { OnlyOutOfMemory result }
    {
        let size = self.size;
        let child = self.values.get();
        let values = boxed(alloc, child.slice(alloc, offset * size, count * size));
        let len = self.count;
        let parts = slice_with_type(alloc, &self.data_type, &self.validity, len, offset, count);
        let (values, (data_type, validity)) = both(values, parts)?;
        Ok(FixedSizeListArray {
            data_type,
            size,
            count,
            values,
            validity,
        })
    }
}
