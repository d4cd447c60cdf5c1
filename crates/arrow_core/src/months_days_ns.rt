//! Intervals.
ghost use Rattle.std.specs.Prelude.{[], ◌∷◌};

use crate::native::NativeType;
use crate::physical::PrimitiveType;

/// An interval of months, days and nanoseconds, none of which is a fixed number of the next.
/// The three parts may differ in sign.
#[derive(Clone, Copy, PartialEq, Eq, Debug)]
#[repr(C)]
pub struct MonthsDaysNs {
    /// Whole months.
    pub months: i32,
    /// Whole days.
    pub days: i32,
    /// Nanoseconds.
    pub ns: i64,
}

impl NativeType for MonthsDaysNs {
    ghost use Rattle.std.proofs.Common.{rules};
    ghost use Rattle.arrow_core.specs.declared.slot.Slot.TheVariants as slot;
    ghost use Rattle.arrow_core.specs.Moments.{equal_parts};
    ghost use Rattle.arrow_core.specs.Natives.{layout, of_interval};

    ghost PRIMITIVE = { layout of_interval };

    const PRIMITIVE: PrimitiveType = PrimitiveType::MonthDayNano;

    ghost numbers = { λ x. x.months ∷ x.days ∷ x.ns ∷ [] };

    ghost native_slot = { λ x.
        slot.Struct (slot.Integer x.months ∷ slot.Integer x.days ∷ slot.Integer x.ns ∷ []) };

    fn zero() -> MonthsDaysNs {
        MonthsDaysNs {
            months: 0,
            days: 0,
            ns: 0,
        }
    }

    ghost tells_slot = { Prim.search rules };

    ghost tells_value = { Prim.search rules };

    ghost tells_equal = { equal_parts };
}
