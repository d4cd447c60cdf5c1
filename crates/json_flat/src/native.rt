//! The integers that columns keep, from JSON numbers.
ghost use Rattle.std.specs.Prelude.{◌≡◌, ◌≤ℤ◌, ℤ, pos, cond, Some, None, MatchOption};
ghost use Rattle.arrow_core.specs.declared.slot.Slot.TheVariants.{Integer as IntegerSlot};
ghost use Rattle.json_flat.specs.Whole.{number_value, within};

use crate::whole::read_whole;
use arrow_core::NativeType;
use json_tree::Number;

/// An integer of a column, which is from `low` to `high`.
pub trait WholeNumber: NativeType {
    ghost low: { ℤ };

    ghost high: { ℤ };

    /// The number's whole value; `None` exactly where it has none from `low` to `high`.
    fn from_number(number: &Number) -> Option<Self>
        ensures { MatchOption result (within low high (number_value number.now) ≡ None)
            (λ x. (n : ℤ) × (within low high (number_value number.now) ≡ Some n)
            × (Self.native_slot x ≡ IntegerSlot n)) };

    /// 1 for true, and 0 for false.
    fn from_bool(boolean: bool) -> Self
        ensures { Self.native_slot result ≡ IntegerSlot (pos (cond boolean 1 0)) };
}

// The number's whole value, and that it lies between these bounds.
fn whole_between(number: &Number, low: i128, high: i128) -> Option<i128>
    ensures { MatchOption result (within low high (number_value number.now) ≡ None)
        (λ n. (within low high (number_value number.now) ≡ Some n) × (low ≤ℤ n) × (n ≤ℤ high)) }
{
    read_whole(number, low, high)
}

impl WholeNumber for i8 {
    ghost use Rattle.std.specs.Prelude.{pos, negsuc};

    ghost low = { negsuc 127 };

    ghost high = { pos 127 };

    fn from_number(number: &Number) -> Option<i8> {
        match whole_between(number, i8::MIN as i128, i8::MAX as i128) {
            Some(whole) => Some(whole as i8),
            None => None,
        }
    }

    fn from_bool(boolean: bool) -> i8 {
        if boolean { 1 } else { 0 }
    }
}

impl WholeNumber for i16 {
    ghost use Rattle.std.specs.Prelude.{pos, negsuc};

    ghost low = { negsuc 32767 };

    ghost high = { pos 32767 };

    fn from_number(number: &Number) -> Option<i16> {
        match whole_between(number, i16::MIN as i128, i16::MAX as i128) {
            Some(whole) => Some(whole as i16),
            None => None,
        }
    }

    fn from_bool(boolean: bool) -> i16 {
        if boolean { 1 } else { 0 }
    }
}

impl WholeNumber for i32 {
    ghost use Rattle.std.specs.Prelude.{pos, negsuc};

    ghost low = { negsuc 2147483647 };

    ghost high = { pos 2147483647 };

    fn from_number(number: &Number) -> Option<i32> {
        match whole_between(number, i32::MIN as i128, i32::MAX as i128) {
            Some(whole) => Some(whole as i32),
            None => None,
        }
    }

    fn from_bool(boolean: bool) -> i32 {
        if boolean { 1 } else { 0 }
    }
}

impl WholeNumber for i64 {
    ghost use Rattle.std.specs.Prelude.{pos, negsuc};

    ghost low = { negsuc 9223372036854775807 };

    ghost high = { pos 9223372036854775807 };

    fn from_number(number: &Number) -> Option<i64> {
        match whole_between(number, i64::MIN as i128, i64::MAX as i128) {
            Some(whole) => Some(whole as i64),
            None => None,
        }
    }

    fn from_bool(boolean: bool) -> i64 {
        if boolean { 1 } else { 0 }
    }
}

impl WholeNumber for u8 {
    ghost use Rattle.std.specs.Prelude.{pos};

    ghost low = { pos 0 };

    ghost high = { pos 255 };

    fn from_number(number: &Number) -> Option<u8> {
        match whole_between(number, u8::MIN as i128, u8::MAX as i128) {
            Some(whole) => Some(whole as u8),
            None => None,
        }
    }

    fn from_bool(boolean: bool) -> u8 {
        if boolean { 1 } else { 0 }
    }
}

impl WholeNumber for u16 {
    ghost use Rattle.std.specs.Prelude.{pos};

    ghost low = { pos 0 };

    ghost high = { pos 65535 };

    fn from_number(number: &Number) -> Option<u16> {
        match whole_between(number, u16::MIN as i128, u16::MAX as i128) {
            Some(whole) => Some(whole as u16),
            None => None,
        }
    }

    fn from_bool(boolean: bool) -> u16 {
        if boolean { 1 } else { 0 }
    }
}

impl WholeNumber for u32 {
    ghost use Rattle.std.specs.Prelude.{pos};

    ghost low = { pos 0 };

    ghost high = { pos 4294967295 };

    fn from_number(number: &Number) -> Option<u32> {
        match whole_between(number, u32::MIN as i128, u32::MAX as i128) {
            Some(whole) => Some(whole as u32),
            None => None,
        }
    }

    fn from_bool(boolean: bool) -> u32 {
        if boolean { 1 } else { 0 }
    }
}

impl WholeNumber for u64 {
    ghost use Rattle.std.specs.Prelude.{pos};

    ghost low = { pos 0 };

    ghost high = { pos 18446744073709551615 };

    fn from_number(number: &Number) -> Option<u64> {
        match whole_between(number, u64::MIN as i128, u64::MAX as i128) {
            Some(whole) => Some(whole as u64),
            None => None,
        }
    }

    fn from_bool(boolean: bool) -> u64 {
        if boolean { 1 } else { 0 }
    }
}
