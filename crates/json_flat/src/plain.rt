//! Columns of nulls, of booleans and of integers.
ghost use Rattle.std.specs.Prelude.{◌≡◌, OnOk, IfOk, IfErr};
ghost use Rattle.arrow_array.specs.Parts.{IsPlain};
ghost use Rattle.arrow_core.specs.Errors.{OnlyOutOfMemory};
ghost use Rattle.arrow_core.specs.declared.types.DataType.TheVariants.{Boolean, Null};
ghost use Rattle.json_flat.specs.Meaning.{boolean_meaning, null_in, boolean_in, whole_in};
ghost use Rattle.json_flat.specs.Columns.{AreSlotsOf, IsColumnFault, IsPushFault, Pushes, lent, means};

use crate::native::WholeNumber;
use arrow_array::{BooleanArray, NullArray, PrimitiveArray};
use arrow_core::{DataType, Error, Result};
use arrow_flat::{Container, MutableBooleanArray, MutableNullArray, MutablePrimitiveArray};
use json_tree::Value;
use std::alloc::Global;

// Appends the whole value of a number, 1 for true or 0 for false, and else a null. `Overflow`
// exactly where a number has no whole value of this type.
fn push_integer<T: WholeNumber>(builder: &mut MutablePrimitiveArray<T>, value: &Value) -> Result<()>
    ensures data_type { builder.new.data_type ≡ builder.old.data_type }
    ensures ok { OnOk result
        (Pushes (whole_in T.low T.high) value.now builder.old.slots builder.new.slots) }
    ensures err { IfErr result (IsPushFault (whole_in T.low T.high) value.now) }
{
    match value {
        Value::Number(number) => match T::from_number(number) {
            Some(whole) => builder.push(Some(whole)),
            None => Err(Error::Overflow),
        },
        Value::Bool(boolean) => builder.push(Some(T::from_bool(*boolean))),
        _ => builder.push(None),
    }
}

/// The column of this type, one slot a value: the exact value of a number, cut towards zero, 1 for
/// true, 0 for false, and null for any other value. The type is one whose values lie in memory as
/// those of `T` do.
///
/// `Overflow` exactly where a number has no whole value of this type. `OutOfMemory` may come in
/// place of any answer.
pub fn read_integers<T: WholeNumber>(
    alloc: Global,
    values: &[&Value],
    data_type: &DataType,
) -> Result<PrimitiveArray<T>>
    requires plain { IsPlain T.PRIMITIVE data_type.now }
    ensures data_type { IfOk result (λ a. a.data_type ≡ data_type.now) }
    ensures slots { IfOk result (λ a. AreSlotsOf (whole_in T.low T.high) (lent values.now)
        a.slots) }
    ensures err { IfErr result (IsColumnFault (whole_in T.low T.high) ⊥ (lent values.now)) }
{
    let builder = MutablePrimitiveArray::<T>::with_capacity(alloc, values.len())?;
    let mut builder = builder.to(data_type.try_clone(alloc)?);
    for value in values {
        push_integer(&mut builder, value)?;
    }
    builder.as_box()
}

// The boolean; `None` for any other value.
fn boolean_of(value: &Value) -> Option<bool>
    ensures { means boolean_in value.now ≡ boolean_meaning result }
{
    match value {
        Value::Bool(boolean) => Some(*boolean),
        _ => None,
    }
}

/// The column of booleans, one slot a value, null where the value is no boolean. `OutOfMemory` alone.
pub fn read_booleans(alloc: Global, values: &[&Value]) -> Result<BooleanArray>
    ensures data_type { IfOk result (λ a. a.data_type ≡ Boolean) }
    ensures slots { IfOk result (λ a. AreSlotsOf boolean_in (lent values.now) a.slots) }
    ensures memory { OnlyOutOfMemory result }
{
    let mut builder = MutableBooleanArray::with_capacity(alloc, values.len())?;
    for value in values {
        builder.push(boolean_of(value))?;
    }
    builder.as_box()
}

/// The column of nulls, one a value. `OutOfMemory` alone.
pub fn read_nulls(alloc: Global, values: &[&Value]) -> Result<NullArray>
    ensures data_type { IfOk result (λ a. a.data_type ≡ Null) }
    ensures slots { IfOk result (λ a. AreSlotsOf null_in (lent values.now) a.slots) }
    ensures memory { OnlyOutOfMemory result }
{
    let mut builder = MutableNullArray::new(alloc);
    for _value in values {
        builder.push_null()?;
    }
    builder.as_box()
}
