//! The offsets that cut a column into parts.
ghost use Rattle.std.specs.Prelude.{◌≡◌, ℤ, pos, [], ◌∷◌, Bool, false, true, ◌↔◌, ◌≤◌, IsSome, IfSome, MatchOption};
ghost use Rattle.arrow_core.specs.Numbers.{IsNegative, IsIndex, greatest_offset};

use crate::native::NativeType;

/// A signed number that says where a part of a column ends (Arrow columnar format,
/// "Variable-size Binary Layout" and "Variable-size List Layout").
pub trait Offset: NativeType {
    ghost IS_LARGE: { Bool };

    /// Whether the offset has 64 bits, and not 32.
    const IS_LARGE: bool;

    // the number
    ghost number: { Self → ℤ };

    /// The same number. It must not be negative.
    fn to_usize(&self) -> usize
        requires { IsIndex (number self.now) }
        ensures { number self.now ≡ pos result };

    /// The same number, or `None` where it is negative.
    fn checked_to_usize(&self) -> Option<usize>
        ensures { MatchOption result (IsNegative (number self.now))
            (λ n. number self.now ≡ pos n) };

    /// The same number, or `None` where it is past the greatest offset: 2^31 - 1 in 32 bits and
    /// 2^63 - 1 in 64 bits.
    fn from_usize(value: usize) -> Option<Self>
        ensures fits { IsSome result ↔ (value ≤ greatest_offset IS_LARGE) }
        ensures same { IfSome result (λ o. number o ≡ pos value) };

    // the number is the one that the value stands for
    ghost is_number: { (x : Self) → Self.numbers x ≡ number x ∷ [] };
}

impl Offset for i32 {
    ghost use Rattle.std.proofs.Common.{rules};

    ghost IS_LARGE = { false };

    const IS_LARGE: bool = false;

    ghost number = { λ x. x };

    fn to_usize(&self) -> usize {
        *self as usize
    }

    fn checked_to_usize(&self) -> Option<usize> {
        if *self < 0 {
            None
        } else {
            Some(*self as usize)
        }
    }

    fn from_usize(value: usize) -> Option<i32> {
        if value <= i32::MAX as usize {
            Some(value as i32)
        } else {
            None
        }
    }

    ghost is_number = { Prim.search rules };
}

impl Offset for i64 {
    ghost use Rattle.std.proofs.Common.{rules};

    ghost IS_LARGE = { true };

    const IS_LARGE: bool = true;

    ghost number = { λ x. x };

    fn to_usize(&self) -> usize {
        *self as usize
    }

    fn checked_to_usize(&self) -> Option<usize> {
        if *self < 0 {
            None
        } else {
            Some(*self as usize)
        }
    }

    fn from_usize(value: usize) -> Option<i64> {
        if value <= i64::MAX as usize {
            Some(value as i64)
        } else {
            None
        }
    }

    ghost is_number = { Prim.search rules };
}
