//! Columns of types with no type beneath them.
ghost use Rattle.std.specs.Prelude.{◌≡◌, [], true, IfOk, IfErr, OnOk};
ghost use Rattle.arrow_array.specs.Arrays.{array_slots, array_type, dictionaries_of};
ghost use Rattle.arrow_array.specs.Parts.{IsPlain};
ghost use Rattle.arrow_core.specs.declared.physical.PrimitiveType.TheVariants.{Int32 as Int32Layout, Int64 as Int64Layout};
ghost use Rattle.json_flat.specs.Columns.{AreSlotsOf, IsColumnFault, lent};
ghost use Rattle.json_flat.specs.Meaning.{int64_in};
ghost use Rattle.json_columns.specs.Faults.{IsFault, TooMany};
ghost use Rattle.json_columns.specs.Gathered.{HasNoFields};
ghost use Rattle.json_flat.specs.Reading.{has_reading, int32_in, reading};

use arrow_array::Array;
use arrow_core::{DataType, IntervalUnit, Result};
use json_flat::{
    read_binaries, read_booleans, read_integers, read_moments, read_nulls, read_strings,
};
use json_tree::Value;
use std::alloc::Global;

/// The column of integers under a type whose values lie in memory as integers of 32 bits.
fn read_int32(alloc: Global, data_type: &DataType, values: &[&Value]) -> Result<Array>
    requires plain { IsPlain Int32Layout data_type.now }
    ensures data_type { IfOk result (λ a. array_type a ≡ data_type.now) }
    ensures slots { IfOk result
        (λ a. AreSlotsOf int32_in (lent values.now) (array_slots a)) }
    ensures dictionaries { IfOk result (λ a. dictionaries_of a ≡ []) }
    ensures counted { OnOk result (TooMany data_type.now (lent values.now) → ⊥) }
    ensures err { IfErr result (IsColumnFault int32_in ⊥ (lent values.now)) }
{
    Ok(Array::Int32(read_integers(alloc, values, data_type)?))
}

/// The column of integers under a type whose values lie in memory as integers of 64 bits.
fn read_int64(alloc: Global, data_type: &DataType, values: &[&Value]) -> Result<Array>
    requires plain { IsPlain Int64Layout data_type.now }
    ensures data_type { IfOk result (λ a. array_type a ≡ data_type.now) }
    ensures slots { IfOk result
        (λ a. AreSlotsOf int64_in (lent values.now) (array_slots a)) }
    ensures dictionaries { IfOk result (λ a. dictionaries_of a ≡ []) }
    ensures counted { OnOk result (TooMany data_type.now (lent values.now) → ⊥) }
    ensures err { IfErr result (IsColumnFault int64_in ⊥ (lent values.now)) }
{
    Ok(Array::Int64(read_integers(alloc, values, data_type)?))
}

/// The column of values under a type with no type beneath it, which holds no dictionary.
pub(crate) fn read_flat(alloc: Global, data_type: &DataType, values: &[&Value]) -> Result<Array>
    requires flat { HasNoFields data_type.now }
    requires readable { has_reading data_type.now ≡ true }
    ensures data_type { IfOk result (λ a. array_type a ≡ data_type.now) }
    ensures slots { IfOk result
        (λ a. AreSlotsOf (reading data_type.now) (lent values.now) (array_slots a)) }
    ensures dictionaries { IfOk result (λ a. dictionaries_of a ≡ []) }
    ensures counted { OnOk result (TooMany data_type.now (lent values.now) → ⊥) }
    ensures err { IfErr result (IsFault data_type.now (lent values.now)) }
{
    match data_type {
        DataType::Null => Ok(Array::Null(read_nulls(alloc, values)?)),
        DataType::Boolean => Ok(Array::Boolean(read_booleans(alloc, values)?)),
        DataType::Int8 => Ok(Array::Int8(read_integers(alloc, values, data_type)?)),
        DataType::Int16 => Ok(Array::Int16(read_integers(alloc, values, data_type)?)),
        DataType::Int32 => read_int32(alloc, data_type, values),
        DataType::Date32 => read_int32(alloc, data_type, values),
        DataType::Time32(_) => read_int32(alloc, data_type, values),
        DataType::Interval(IntervalUnit::YearMonth) => read_int32(alloc, data_type, values),
        DataType::Int64 => read_int64(alloc, data_type, values),
        DataType::Date64 => read_int64(alloc, data_type, values),
        DataType::Time64(_) => read_int64(alloc, data_type, values),
        DataType::Duration(_) => read_int64(alloc, data_type, values),
        DataType::UInt8 => Ok(Array::UInt8(read_integers(alloc, values, data_type)?)),
        DataType::UInt16 => Ok(Array::UInt16(read_integers(alloc, values, data_type)?)),
        DataType::UInt32 => Ok(Array::UInt32(read_integers(alloc, values, data_type)?)),
        DataType::UInt64 => Ok(Array::UInt64(read_integers(alloc, values, data_type)?)),
        DataType::Timestamp(_, _) => Ok(Array::Int64(read_moments(alloc, values, data_type)?)),
        DataType::Utf8 => Ok(Array::Utf8(read_strings(alloc, values)?)),
        DataType::LargeUtf8 => Ok(Array::LargeUtf8(read_strings(alloc, values)?)),
        DataType::Binary => Ok(Array::Binary(read_binaries(alloc, values)?)),
        DataType::LargeBinary => Ok(Array::LargeBinary(read_binaries(alloc, values)?)),
        _ => unreachable!(),
    }
}
