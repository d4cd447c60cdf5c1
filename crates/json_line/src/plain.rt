//! Values that are lent, under Null, as booleans and as integers.
ghost use Rattle.std.specs.Prelude.{◌≡◌, ◌++◌, ◌∷◌, [], cond, true, IfOk, OnOk};
ghost use Rattle.arrow_flat.specs.Builders.{optional_slot};
ghost use Rattle.arrow_core.specs.declared.slot.Slot.TheVariants.{Null as NullSlot};
ghost use Rattle.json_flat.specs.Meaning.{boolean_meaning, int64_in, moment_in, slot_of, boolean_in, whole_in};
ghost use Rattle.json_flat.specs.Columns.{Pushes, means};
ghost use Rattle.json_lend.specs.Standing.{lent_value};
ghost use Rattle.json_line.specs.Builders.{is_timestamp as is_timestamp_of};

use crate::types::is_timestamp;
use arrow_builders::{MutableBooleanArray, MutableNullArray, MutablePrimitiveArray};
use arrow_core::DataType;
use json_flat::IntegerText;
use json_lend::{GivenUp, Lent};

/// Appends a null, which each value means under Null, also one that isn't null.
#[inline(always)]
pub(crate) fn push_as_null(builder: &mut MutableNullArray) -> Result<(), GivenUp>
    ensures data_type { builder.new.data_type ≡ builder.old.data_type }
    ensures ok { OnOk result (builder.new.slots ≡ builder.old.slots ++ NullSlot ∷ []) }
{
    builder.push_null()?;
    Ok(())
}

// The boolean; `None` for any other value.
fn boolean_of<'a>(lent: &Lent<'a>) -> Option<bool>
    ensures { means boolean_in (lent_value lent.now) ≡ boolean_meaning result }
{
    match lent {
        Lent::Bool(boolean) => Some(*boolean),
        _ => None,
    }
}

/// Appends a boolean, and a null for any other value.
#[inline(always)]
pub(crate) fn push_boolean<'a>(
    builder: &mut MutableBooleanArray,
    lent: &Lent<'a>,
) -> Result<(), GivenUp>
    ensures data_type { builder.new.data_type ≡ builder.old.data_type }
    ensures ok { OnOk result
        (Pushes boolean_in (lent_value lent.now) builder.old.slots builder.new.slots) }
{
    builder.push(boolean_of(lent))?;
    Ok(())
}

// The whole value of a number, 1 for true or 0 for false; `None` for any other value. A number that
// doesn't fit is given up.
#[inline(always)]
fn integer_of<'a, T: IntegerText>(lent: &Lent<'a>) -> Result<Option<T>, GivenUp>
    ensures { IfOk result (λ n. means (whole_in T.low T.high) (lent_value lent.now)
        ≡ slot_of (optional_slot T.native_slot n)) }
{
    match lent {
        Lent::Number(mantissa, exponent) => match T::from_parts(mantissa, exponent) {
            Some(whole) => Ok(Some(whole)),
            None => Err(GivenUp),
        },
        Lent::Bool(boolean) => Ok(Some(T::from_bool(*boolean))),
        _ => Ok(None),
    }
}

/// Appends an integer: the whole value of a number, 1 for true or 0 for false, and a null for any
/// other value.
#[inline(always)]
pub(crate) fn push_integer<'a, T: IntegerText>(
    builder: &mut MutablePrimitiveArray<T>,
    lent: &Lent<'a>,
) -> Result<(), GivenUp>
    ensures data_type { builder.new.data_type ≡ builder.old.data_type }
    ensures ok { OnOk result
        (Pushes (whole_in T.low T.high) (lent_value lent.now) builder.old.slots builder.new.slots) }
{
    let value = integer_of::<T>(lent)?;
    builder.push(value)?;
    Ok(())
}

// Whether the value means under the type what it means as an integer of 64 bits. Under a timestamp a
// boolean or a string doesn't.
#[inline(always)]
fn is_integer_under<'a>(data_type: &DataType, lent: &Lent<'a>) -> bool
    ensures { result ≡ true → means (cond (is_timestamp_of data_type.now) moment_in int64_in)
        (lent_value lent.now) ≡ means int64_in (lent_value lent.now) }
{
    if !is_timestamp(data_type) {
        return true;
    }
    match lent {
        Lent::Bool(_) => false,
        Lent::String(_) => false,
        Lent::Escaped(_) => false,
        _ => true,
    }
}

/// Appends an integer of 64 bits, as `push_integer` does. A boolean or a string under a timestamp is
/// given up.
#[inline(always)]
pub(crate) fn push_int64<'a>(
    builder: &mut MutablePrimitiveArray<i64>,
    lent: &Lent<'a>,
) -> Result<(), GivenUp>
    ensures data_type { builder.new.data_type ≡ builder.old.data_type }
    ensures ok { OnOk result (Pushes (cond (is_timestamp_of builder.old.data_type) moment_in
        int64_in)
        (lent_value lent.now) builder.old.slots builder.new.slots) }
{
    if !is_integer_under(builder.data_type(), lent) {
        return Err(GivenUp);
    }
    push_integer(builder, lent)
}
