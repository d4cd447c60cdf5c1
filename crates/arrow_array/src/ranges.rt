//! What the types of numbers say of their ranges, told of the numbers of a buffer.
ghost use Rattle.std.specs.Prelude.{◌≡◌, ℕ, ◌≤◌, pos, All};
ghost use Rattle.arrow_core.specs.Numbers.{greatest_offset};
ghost use Rattle.arrow_array.specs.SlotTypes.{IsPrimitive};

use arrow_core::{MonthsDaysNs, NativeType, Offset};

/// A number that lies in the range of its type.
pub(crate) trait Ranged: NativeType {
    /// Lemma: each value is in range.
    fn tell_range(self)
        ensures { IsPrimitive Self.PRIMITIVE (Self.native_slot self) };
}

impl Ranged for i8 {
    fn tell_range(self) {}
}

impl Ranged for i16 {
    fn tell_range(self) {}
}

impl Ranged for i32 {
    fn tell_range(self) {}
}

impl Ranged for i64 {
    fn tell_range(self) {}
}

impl Ranged for i128 {
    fn tell_range(self) {}
}

impl Ranged for u8 {
    fn tell_range(self) {}
}

impl Ranged for u16 {
    fn tell_range(self) {}
}

impl Ranged for u32 {
    fn tell_range(self) {}
}

impl Ranged for u64 {
    fn tell_range(self) {}
}

impl Ranged for MonthsDaysNs {
    fn tell_range(self) {}
}

/// An offset that isn't past the greatest of its type.
pub(crate) trait RangedOffset: Offset {
    /// Lemma: each value is in range.
    fn tell_offset_range(self)
        ensures { (n : ℕ) → Self.number self ≡ pos n → n ≤ greatest_offset Self.IS_LARGE };
}

impl RangedOffset for i32 {
    fn tell_offset_range(self) {}
}

impl RangedOffset for i64 {
    fn tell_offset_range(self) {}
}

/// Tells that the values lie in the range of their type.
///
/// The loop does nothing, so that an optimizing compiler leaves it out.
pub(crate) fn tell_ranges<T: Ranged>(values: &[T])
    ensures { All (λ x. IsPrimitive T.PRIMITIVE (T.native_slot x)) values.now }
{
    for value in values {
        value.tell_range();
    }
}

/// Tells that no offset is past the greatest of its type.
///
/// The loop does nothing, so that an optimizing compiler leaves it out.
pub(crate) fn tell_offset_ranges<O: RangedOffset>(offsets: &[O])
    ensures { All (λ x. (n : ℕ) → O.number x ≡ pos n → n ≤ greatest_offset O.IS_LARGE) offsets.now }
{
    for offset in offsets {
        offset.tell_offset_range();
    }
}
