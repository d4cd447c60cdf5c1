//! Values by their indices in an array of values.
ghost use Rattle.std.specs.Prelude.{◌≡◌, ◌+◌, ◌<◌, ◌≤◌, ◌↔◌, ℕ, true, IsTrue, IfOk, IfErr, length, map, take, drop, All};
ghost use Rattle.std.specs.Option.{option_copied};
ghost use Rattle.arrow_core.specs.Errors.{OnlyOutOfMemory};
ghost use Rattle.arrow_core.specs.declared.error.Error.TheVariants.{OutOfMemory};
ghost use Rattle.arrow_array.specs.Arrays.{array_type, array_slots};
ghost use Rattle.arrow_array.specs.Dictionaries.{DictionaryFits, IsDictionaryOf, IsKeyInto, keys_slots, keys_type, looked_up};
ghost use Rattle.arrow_array.specs.HoldsDictionary.{holds_dictionary};
ghost use Rattle.arrow_array.specs.Kinds.{IsDictionaryType, key_type};
ghost use Rattle.arrow_array.specs.SlotTypes.{SlotOf};
ghost use Rattle.arrow_array.specs.Slots.{TellsHeld, is_held, slot_at};
ghost use Rattle.arrow_array.specs.Parts.{IsRefusalOf};

use crate::Bitmap;
use crate::array::Array;
use crate::drops::{beside, both, boxed, drop_both};
use crate::keys::Keys;
use arrow_core::{Box, DataType, Error, IntegerType, Reason, Result};
use std::alloc::Global;
use std::marker::Model;

/// Values by their indices in an array of values (Arrow columnar format,
/// "Dictionary-encoded Layout").
#[cycle(arrays)]
#[derive(Drop)]
pub struct DictionaryArray {
    data_type: DataType,
    keys: Keys,
    values: Box<Array>,
}

impl Model for DictionaryArray {
    ghost use Rattle.std.specs.Prelude.{length, map};
    ghost use Rattle.arrow_core.specs.declared.types.DataType.{size-DataType};
    ghost use Rattle.arrow_array.specs.Dictionaries.{DictionaryColumn, DictionaryFits, dictionary_column_code, keys_slots, keys_type, looked_up};

    ghost Value = { DictionaryColumn };

    ghost coded = { dictionary_column_code };

    ghost use Rattle.arrow_array.specs.Arrays.{array_type, array_slots};

    ghost view = { λ a. record {
      data_type = a.data_type;
      slots = map (looked_up (array_slots a.values)) (keys_slots a.keys);
      keys = keys_slots a.keys;
      items = array_slots a.values;
    } };

    ghost invariant = { λ a. DictionaryFits a.data_type (keys_type a.keys) (keys_slots a.keys)
        (array_type a.values) (length (array_slots a.values)) };

    ghost size = { λ a. size-DataType a.data_type };

    ghost use Rattle.arrow_array.specs.Falls.{dictionary_falls};

    ghost size_decreases = { λ a h. dictionary_falls (keys_type a.keys) a.data_type a.values h.kind };
}

/// Whether this is the type of a dictionary of such keys over such values.
fn is_dictionary_of(data_type: &DataType, key: IntegerType, value: &DataType) -> bool
    ensures { IsTrue result ↔ IsDictionaryOf key data_type.now value.now }
{
    match data_type {
        DataType::Dictionary(key_2, value_2, _) => {
            if *key_2 != key {
                return false;
            }
            value_2.get().is_same(value)
        }
        _ => false,
    }
}

/// Whether key `i` is null, or an index into `len` values.
fn is_key_into(keys: &Keys, i: usize, len: usize) -> bool
    requires { i < length (keys_slots keys.now) }
    ensures { IsTrue result ↔ IsKeyInto len (slot_at (keys_slots keys.now) i) }
{
    match keys.index(i) {
        Some(index) => index < len,
        None => !keys.is_valid(i),
    }
}

/// Whether each key is null, or an index into `len` values.
fn are_keys_into(keys: &Keys, len: usize) -> bool
    ensures { IsTrue result
        ↔ ((i : ℕ) → i < length (keys_slots keys.now)
        → IsKeyInto len (slot_at (keys_slots keys.now) i)) }
{
    for i in 0..keys.len() {
        if !is_key_into(keys, i, len) {
            return false;
        }
    }
    true
}

/// Whether these parts make an array of a dictionary.
fn fits(data_type: &DataType, keys: &Keys, values: &Array) -> bool
    ensures { IsTrue result
        ↔ DictionaryFits data_type.now (keys_type keys.now) (keys_slots keys.now)
        (array_type values.now) (length (array_slots values.now)) }
{
    if !is_dictionary_of(data_type, keys.integer_type(), values.data_type()) {
        return false;
    }
    are_keys_into(keys, values.len())
}

impl DictionaryArray {
    /// The array of the values at the keys, null where a key is null.
    ///
    /// `InvalidArgumentError(ArrayParts)` where the type isn't that of a dictionary of such keys
    /// over such values, or where a key that isn't null is negative or past the end of the values.
    /// `OutOfMemory`.
    pub fn try_new(
        alloc: Global,
        data_type: DataType,
        keys: Keys,
        values: Array,
    ) -> Result<DictionaryArray>
        ensures data_type { IfOk result (λ a. a.data_type ≡ data_type) }
        ensures slots { IfOk result
            (λ a. a.slots ≡ map (looked_up (array_slots values)) (keys_slots keys)) }
        ensures keys { IfOk result (λ a. a.keys ≡ keys_slots keys) }
        ensures items { IfOk result (λ a. a.items ≡ array_slots values) }
        ensures fits { IfOk result
            (λ _. DictionaryFits data_type (keys_type keys) (keys_slots keys) (array_type values)
            (length (array_slots values))) }
        ensures err { IfErr result
            (IsRefusalOf
            (DictionaryFits data_type (keys_type keys) (keys_slots keys) (array_type values)
            (length (array_slots values)))) }
    {
        if !fits(&data_type, &keys, &values) {
            drop_both((data_type, keys), values);
            return Err(Error::InvalidArgumentError(Reason::ArrayParts));
        }
        DictionaryArray::from_parts(alloc, data_type, keys, values)
    }

    /// The array of parts that fit, as `try_new` gives it, without a look at the keys.
    ///
    /// `OutOfMemory` alone.
    pub fn from_parts(
        alloc: Global,
        data_type: DataType,
        keys: Keys,
        values: Array,
    ) -> Result<DictionaryArray>
        requires { DictionaryFits data_type (keys_type keys) (keys_slots keys) (array_type values)
            (length (array_slots values)) }
        ensures data_type { IfOk result (λ a. a.data_type ≡ data_type) }
        ensures slots { IfOk result
            (λ a. a.slots ≡ map (looked_up (array_slots values)) (keys_slots keys)) }
        ensures keys { IfOk result (λ a. a.keys ≡ keys_slots keys) }
        ensures items { IfOk result (λ a. a.items ≡ array_slots values) }
        ensures err { OnlyOutOfMemory result }
    {
        let values = Box::new(alloc, values);
        let (values, data_type, keys) = beside(values, data_type, keys)?;
        Ok(DictionaryArray {
            data_type,
            keys,
            values,
        })
    }

    /// How many slots there are, nulls among them.
    pub fn len(&self) -> usize
        ensures { result ≡ length self.now.slots }
    {
        self.keys.len()
    }

    /// The data type, which is Dictionary.
    pub fn data_type(&self) -> &DataType
        ensures data_type { result.now ≡ self.now.data_type }
        ensures kind { IsDictionaryType self.now.data_type }
    {
        &self.data_type
    }

    /// The keys, one for each slot, of the integer type that the data type names: a slot is that
    /// of `values` at its key, and null where the key is null.
    pub fn keys(&self) -> &Keys
        ensures keys { keys_slots result.now ≡ self.now.keys }
        ensures key_type { keys_type result.now ≡ key_type self.now.data_type }
        ensures slots { self.now.slots ≡ map (looked_up self.now.items) (keys_slots result.now) }
        ensures within { (i : ℕ) → i < length self.now.slots
            → IsKeyInto (length self.now.items) (slot_at (keys_slots result.now) i) }
    {
        &self.keys
    }

    /// The values that keys are indices into.
    pub fn values(&self) -> &Array
        ensures data_type { IsDictionaryOf (key_type self.now.data_type) self.now.data_type
            (array_type result.now) }
        ensures items { array_slots result.now ≡ self.now.items }
    {
        self.values.get()
    }

    /// Which keys aren't null. It is `None` only where no key is null. A slot may be null beneath
    /// a key that isn't.
    pub fn validity(&self) -> Option<&Bitmap>
        ensures { TellsHeld (option_copied result) self.now.keys }
    {
        self.keys.validity()
    }

    /// Whether slot `i` isn't null.
    #[cycle(valid)]
    pub fn is_valid(&self, i: usize) -> bool
        requires { i < length self.now.slots }
        ensures { result ≡ is_held (slot_at self.now.slots i) }
    {
        match self.keys.index(i) {
            Some(index) => self.values.get().is_valid(index),
            None => false,
        }
    }

    /// Tells that each slot is one of the data type.
    #[cycle(typed)]
    pub(crate) fn slots_are_typed(&self)
        ensures { All (SlotOf self.now.data_type) self.now.slots }
    {
        self.values.get().slots_are_typed();
    }

    /// Tells that its type holds a dictionary.
    pub(crate) fn type_holds_dictionary(&self)
        ensures { holds_dictionary self.now.data_type ≡ true }
    {
        // The type is that of a dictionary.
        let _ = &self.data_type;
    }

    /// The `count` slots from index `offset` on, over the same values. It shares the buffers.
    ///
    /// `OutOfMemory` alone.
    #[cycle(slices)]
    pub fn slice(&self, alloc: Global, offset: usize, count: usize) -> Result<DictionaryArray>
        requires { offset + count ≤ length self.now.slots }
        ensures data_type { IfOk result (λ a. a.data_type ≡ self.now.data_type) }
        ensures slots { IfOk result (λ a. a.slots ≡ take count (drop offset self.now.slots)) }
        ensures keys { IfOk result (λ a. a.keys ≡ take count (drop offset self.now.keys)) }
        ensures items { IfOk result (λ a. a.items ≡ self.now.items) }
        ensures memory { OnlyOutOfMemory result }
    {
        let child = self.values.get();
        let values = boxed(alloc, child.slice(alloc, 0, child.len()));
        let parts = both(
            self.data_type.try_clone(alloc),
            self.keys.slice(alloc, offset, count),
        );
        let (values, (data_type, keys)) = both(values, parts)?;
        Ok(DictionaryArray {
            data_type,
            keys,
            values,
        })
    }
}
