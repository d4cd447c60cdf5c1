//! Columns of timestamps.
ghost use Rattle.std.specs.Prelude.{◌≡◌, OnOk, IfOk, IfErr};
ghost use Rattle.arrow_array.specs.Parts.{IsPlain};
ghost use Rattle.arrow_core.specs.declared.physical.PrimitiveType.TheVariants.{Int64 as Int64Layout};
ghost use Rattle.arrow_core.specs.declared.error.Error.TheVariants.{Overflow as OverflowFault};
ghost use Rattle.json_flat.specs.Meaning.{moment_in, unfit};
ghost use Rattle.json_flat.specs.Columns.{AreSlotsOf, Has, IsColumnFault, IsPushFault, Pushes, lent};

use crate::native::WholeNumber;
use arrow_array::PrimitiveArray;
use arrow_core::{DataType, Error, Reason, Result};
use arrow_flat::{Container, MutablePrimitiveArray};
use json_tree::Value;
use std::alloc::Global;

// Appends the whole value of a number, and else a null.
// `NotYetImplemented(TextTimestamp)` exactly for a string, and `Overflow` exactly where a number has
// no whole value in 64 bits.
fn push_moment(builder: &mut MutablePrimitiveArray<i64>, value: &Value) -> Result<()>
    ensures data_type { builder.new.data_type ≡ builder.old.data_type }
    ensures ok { OnOk result (Pushes moment_in value.now builder.old.slots builder.new.slots) }
    ensures err { IfErr result (IsPushFault moment_in value.now) }
{
    match value {
        Value::Number(number) => match i64::from_number(number) {
            Some(whole) => builder.push(Some(whole)),
            None => Err(Error::Overflow),
        },
        Value::String(_) => Err(Error::NotYetImplemented(Reason::TextTimestamp)),
        _ => builder.push(None),
    }
}

/// The column of this type, one slot a value: the exact value of a number, cut towards zero, and
/// null for any other value but a string. The type is one whose values lie in memory as 64-bit
/// integers.
///
/// `NotYetImplemented(TextTimestamp)` only where a string comes, and `Overflow` only where a number
/// comes that has no whole value in 64 bits; where both come, either may be answered. `OutOfMemory`
/// may come in place of any answer.
pub fn read_moments(
    alloc: Global,
    values: &[&Value],
    data_type: &DataType,
) -> Result<PrimitiveArray<i64>>
    requires plain { IsPlain Int64Layout data_type.now }
    ensures data_type { IfOk result (λ a. a.data_type ≡ data_type.now) }
    ensures slots { IfOk result (λ a. AreSlotsOf moment_in (lent values.now) a.slots) }
    ensures err { IfErr result (IsColumnFault moment_in ⊥ (lent values.now)) }
    ensures overflow { IfErr result
        (λ e. e ≡ OverflowFault → Has unfit moment_in (lent values.now)) }
{
    let builder = MutablePrimitiveArray::<i64>::with_capacity(alloc, values.len())?;
    let mut builder = builder.to(data_type.try_clone(alloc)?);
    for value in values {
        push_moment(&mut builder, value)?;
    }
    builder.as_box()
}
