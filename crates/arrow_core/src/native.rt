//! The numbers that a column keeps as they are.
ghost use Rattle.std.specs.Prelude.{◌≡◌, ℤ, pos, List, [], ◌∷◌, true, ◌↔◌};
ghost use Rattle.arrow_core.specs.declared.slot.Slot.{Slot};
ghost use Rattle.arrow_core.specs.declared.physical.PrimitiveType.{PrimitiveType};
ghost use Rattle.arrow_core.specs.Numbers.{AreZeros, slot_of_numbers};

use crate::physical::PrimitiveType;

/// A value that a primitive column keeps as it is: one integer, or a few in a fixed order.
///
/// Two values are equal exactly where the numbers that they stand for are.
pub trait NativeType: Copy + Eq + Drop {
    ghost PRIMITIVE: { PrimitiveType };

    /// How a column of these values is laid out.
    const PRIMITIVE: PrimitiveType;

    // the integers that a value stands for
    ghost numbers: { Self → List ℤ };

    // what a column that holds the value shows there
    ghost native_slot: { Self → Slot };

    /// The value whose numbers are all 0.
    fn zero() -> Self
        ensures { AreZeros (numbers result) };

    // the slot is the one number, or the struct of the several numbers
    ghost tells_slot: { (x : Self) → native_slot x ≡ slot_of_numbers (numbers x) };

    // the numbers leave nothing of the value out
    ghost tells_value: { (x y : Self) → numbers x ≡ numbers y → x ≡ y };

    // `==` says whether the values are the same
    ghost tells_equal: { (x y : Self) → (Self.eq x y ≡ true) ↔ (x ≡ y) };
}

impl NativeType for i8 {
    ghost use Rattle.std.proofs.Common.{rules};
    ghost use Rattle.arrow_core.specs.declared.slot.Slot.TheVariants as slot;
    ghost use Rattle.arrow_core.specs.Natives.{layout, of_i8};

    ghost PRIMITIVE = { layout of_i8 };

    const PRIMITIVE: PrimitiveType = PrimitiveType::Int8;

    ghost numbers = { λ x. x ∷ [] };

    ghost native_slot = { λ x. slot.Integer x };

    fn zero() -> i8 {
        0
    }

    ghost tells_slot = { Prim.search rules };

    ghost tells_value = { Prim.search rules };

    ghost tells_equal = { Prim.search rules };
}

impl NativeType for i16 {
    ghost use Rattle.std.proofs.Common.{rules};
    ghost use Rattle.arrow_core.specs.declared.slot.Slot.TheVariants as slot;
    ghost use Rattle.arrow_core.specs.Natives.{layout, of_i16};

    ghost PRIMITIVE = { layout of_i16 };

    const PRIMITIVE: PrimitiveType = PrimitiveType::Int16;

    ghost numbers = { λ x. x ∷ [] };

    ghost native_slot = { λ x. slot.Integer x };

    fn zero() -> i16 {
        0
    }

    ghost tells_slot = { Prim.search rules };

    ghost tells_value = { Prim.search rules };

    ghost tells_equal = { Prim.search rules };
}

impl NativeType for i32 {
    ghost use Rattle.std.proofs.Common.{rules};
    ghost use Rattle.arrow_core.specs.declared.slot.Slot.TheVariants as slot;
    ghost use Rattle.arrow_core.specs.Natives.{layout, of_i32};

    ghost PRIMITIVE = { layout of_i32 };

    const PRIMITIVE: PrimitiveType = PrimitiveType::Int32;

    ghost numbers = { λ x. x ∷ [] };

    ghost native_slot = { λ x. slot.Integer x };

    fn zero() -> i32 {
        0
    }

    ghost tells_slot = { Prim.search rules };

    ghost tells_value = { Prim.search rules };

    ghost tells_equal = { Prim.search rules };
}

impl NativeType for i64 {
    ghost use Rattle.std.proofs.Common.{rules};
    ghost use Rattle.arrow_core.specs.declared.slot.Slot.TheVariants as slot;
    ghost use Rattle.arrow_core.specs.Natives.{layout, of_i64};

    ghost PRIMITIVE = { layout of_i64 };

    const PRIMITIVE: PrimitiveType = PrimitiveType::Int64;

    ghost numbers = { λ x. x ∷ [] };

    ghost native_slot = { λ x. slot.Integer x };

    fn zero() -> i64 {
        0
    }

    ghost tells_slot = { Prim.search rules };

    ghost tells_value = { Prim.search rules };

    ghost tells_equal = { Prim.search rules };
}

impl NativeType for i128 {
    ghost use Rattle.std.proofs.Common.{rules};
    ghost use Rattle.arrow_core.specs.declared.slot.Slot.TheVariants as slot;
    ghost use Rattle.arrow_core.specs.Natives.{layout, of_i128};

    ghost PRIMITIVE = { layout of_i128 };

    const PRIMITIVE: PrimitiveType = PrimitiveType::Int128;

    ghost numbers = { λ x. x ∷ [] };

    ghost native_slot = { λ x. slot.Integer x };

    fn zero() -> i128 {
        0
    }

    ghost tells_slot = { Prim.search rules };

    ghost tells_value = { Prim.search rules };

    ghost tells_equal = { Prim.search rules };
}

impl NativeType for u8 {
    ghost use Rattle.std.proofs.Common.{rules};
    ghost use Rattle.arrow_core.specs.declared.slot.Slot.TheVariants as slot;
    ghost use Rattle.arrow_core.specs.Natives.{layout, of_u8};

    ghost PRIMITIVE = { layout of_u8 };

    const PRIMITIVE: PrimitiveType = PrimitiveType::UInt8;

    ghost numbers = { λ x. pos x ∷ [] };

    ghost native_slot = { λ x. slot.Integer (pos x) };

    fn zero() -> u8 {
        0
    }

    ghost tells_slot = { Prim.search rules };

    ghost tells_value = { Prim.search rules };

    ghost tells_equal = { Prim.search rules };
}

impl NativeType for u16 {
    ghost use Rattle.std.proofs.Common.{rules};
    ghost use Rattle.arrow_core.specs.declared.slot.Slot.TheVariants as slot;
    ghost use Rattle.arrow_core.specs.Natives.{layout, of_u16};

    ghost PRIMITIVE = { layout of_u16 };

    const PRIMITIVE: PrimitiveType = PrimitiveType::UInt16;

    ghost numbers = { λ x. pos x ∷ [] };

    ghost native_slot = { λ x. slot.Integer (pos x) };

    fn zero() -> u16 {
        0
    }

    ghost tells_slot = { Prim.search rules };

    ghost tells_value = { Prim.search rules };

    ghost tells_equal = { Prim.search rules };
}

impl NativeType for u32 {
    ghost use Rattle.std.proofs.Common.{rules};
    ghost use Rattle.arrow_core.specs.declared.slot.Slot.TheVariants as slot;
    ghost use Rattle.arrow_core.specs.Natives.{layout, of_u32};

    ghost PRIMITIVE = { layout of_u32 };

    const PRIMITIVE: PrimitiveType = PrimitiveType::UInt32;

    ghost numbers = { λ x. pos x ∷ [] };

    ghost native_slot = { λ x. slot.Integer (pos x) };

    fn zero() -> u32 {
        0
    }

    ghost tells_slot = { Prim.search rules };

    ghost tells_value = { Prim.search rules };

    ghost tells_equal = { Prim.search rules };
}

impl NativeType for u64 {
    ghost use Rattle.std.proofs.Common.{rules};
    ghost use Rattle.arrow_core.specs.declared.slot.Slot.TheVariants as slot;
    ghost use Rattle.arrow_core.specs.Natives.{layout, of_u64};

    ghost PRIMITIVE = { layout of_u64 };

    const PRIMITIVE: PrimitiveType = PrimitiveType::UInt64;

    ghost numbers = { λ x. pos x ∷ [] };

    ghost native_slot = { λ x. slot.Integer (pos x) };

    fn zero() -> u64 {
        0
    }

    ghost tells_slot = { Prim.search rules };

    ghost tells_value = { Prim.search rules };

    ghost tells_equal = { Prim.search rules };
}
