//! Builders that are made by their types.
ghost use Rattle.std.specs.Prelude.{◌≡◌, map, true, IfOk};
ghost use Rattle.arrow_array.specs.FixedLists.{list_size};
ghost use Rattle.arrow_array.specs.Parts.{IsPlain};
ghost use Rattle.arrow_builders.specs.Children.{fields_of};
ghost use Rattle.arrow_builders.specs.Shapes.{shape, fixed_lists, flat, lists, records};
ghost use Rattle.arrow_core.specs.Errors.{OnlyOutOfMemory};
ghost use Rattle.arrow_core.specs.Layouts.{physical_type};
ghost use Rattle.arrow_core.specs.declared.physical.PhysicalType.TheVariants.{List as ListKind, LargeList as LargeListKind};
ghost use Rattle.json_line.specs.Builders.{line_shape, shapes_of, IsNotNested};
ghost use Rattle.json_line.specs.Lines.{have_line_readings as have_line_readings_of};
ghost use Rattle.json_line.specs.Types.{has_line_reading as has_line_reading_of};

use arrow_builders::{
    Container, DynMutableLargeListArray, DynMutableListArray, DynMutableStructArray, MutableArray,
    MutableBinaryArray, MutableBooleanArray, MutableFixedSizeListArray, MutableNullArray,
    MutablePrimitiveArray, MutableUtf8Array,
};
use arrow_core::{DataType, Field, IntervalUnit, NativeType, Result};
use std::alloc::Global;

// A builder of values of one size.
fn primitive<T: NativeType>(alloc: Global, data_type: &DataType) -> Result<MutablePrimitiveArray<T>>
    requires { IsPlain T.PRIMITIVE data_type.now }
    ensures data_type { IfOk result (λ b. b.data_type ≡ data_type.now) }
    ensures memory { OnlyOutOfMemory result }
{
    let values = MutablePrimitiveArray::<T>::with_capacity(alloc, 0)?;
    Ok(values.to(data_type.try_clone(alloc)?))
}

// An empty builder of a type with no types in it.
fn make_flat(alloc: Global, data_type: &DataType) -> Result<MutableArray>
    requires flat { IsNotNested data_type.now }
    requires readable { has_line_reading_of data_type.now ≡ true }
    ensures shape { IfOk result (λ b. shape b ≡ flat (physical_type data_type.now) data_type.now) }
    ensures memory { OnlyOutOfMemory result }
{
    match data_type {
        DataType::Null => Ok(MutableArray::Null(MutableNullArray::new(alloc))),
        DataType::Boolean => {
            Ok(MutableArray::Boolean(MutableBooleanArray::with_capacity(alloc, 0)?))
        }
        DataType::Int8 => Ok(MutableArray::Int8(primitive(alloc, data_type)?)),
        DataType::Int16 => Ok(MutableArray::Int16(primitive(alloc, data_type)?)),
        DataType::Int32
        | DataType::Date32
        | DataType::Time32(_)
        | DataType::Interval(IntervalUnit::YearMonth) => {
            Ok(MutableArray::Int32(primitive(alloc, data_type)?))
        }
        DataType::Int64
        | DataType::Date64
        | DataType::Time64(_)
        | DataType::Duration(_)
        | DataType::Timestamp(_, _) => Ok(MutableArray::Int64(primitive(alloc, data_type)?)),
        DataType::UInt8 => Ok(MutableArray::UInt8(primitive(alloc, data_type)?)),
        DataType::UInt16 => Ok(MutableArray::UInt16(primitive(alloc, data_type)?)),
        DataType::UInt32 => Ok(MutableArray::UInt32(primitive(alloc, data_type)?)),
        DataType::UInt64 => Ok(MutableArray::UInt64(primitive(alloc, data_type)?)),
        DataType::Utf8 => Ok(MutableArray::Utf8(MutableUtf8Array::with_capacity(alloc, 0)?)),
        DataType::LargeUtf8 => {
            Ok(MutableArray::LargeUtf8(MutableUtf8Array::with_capacity(alloc, 0)?))
        }
        DataType::Binary => {
            Ok(MutableArray::Binary(MutableBinaryArray::with_capacity(alloc, 0)?))
        }
        DataType::LargeBinary => {
            Ok(MutableArray::LargeBinary(MutableBinaryArray::with_capacity(alloc, 0)?))
        }
        _ => unreachable!(),
    }
}

// An empty builder of lists of what `values` takes.
#[tactic(auto, using(crate::proofs::Making::new_lists))]
fn make_list(alloc: Global, values: MutableArray, data_type: &DataType) -> Result<MutableArray>
    ensures shape { IfOk result (λ b. shape b ≡ lists ListKind data_type.now (shape values)) }
    ensures memory { OnlyOutOfMemory result }
{
    match data_type.try_clone(alloc) {
        Ok(data_type) => {
            let lists = DynMutableListArray::new_from(alloc, values, data_type, 0)?;
            Ok(MutableArray::List(lists))
        }
        Err(error) => Err(error),
    }
}

// The same with offsets of 64 bits.
#[tactic(auto, using(crate::proofs::Making::new_lists))]
fn make_large_list(
    alloc: Global,
    values: MutableArray,
    data_type: &DataType,
) -> Result<MutableArray>
    ensures shape { IfOk result (λ b. shape b ≡ lists LargeListKind data_type.now (shape values)) }
    ensures memory { OnlyOutOfMemory result }
{
    match data_type.try_clone(alloc) {
        Ok(data_type) => {
            let lists = DynMutableLargeListArray::new_from(alloc, values, data_type, 0)?;
            Ok(MutableArray::LargeList(lists))
        }
        Err(error) => Err(error),
    }
}

// An empty builder of lists of `size` of what `values` takes.
#[tactic(auto, using(crate::proofs::Making::new_lists))]
fn make_sized_list(
    alloc: Global,
    values: MutableArray,
    data_type: &DataType,
    size: usize,
) -> Result<MutableArray>
    requires { list_size data_type.now ≡ size }
    ensures shape { IfOk result (λ b. shape b ≡ fixed_lists data_type.now (shape values)) }
    ensures memory { OnlyOutOfMemory result }
{
    match data_type.try_clone(alloc) {
        Ok(data_type) => {
            let lists = MutableFixedSizeListArray::new_from(alloc, values, data_type, size)?;
            Ok(MutableArray::FixedSizeList(lists))
        }
        Err(error) => Err(error),
    }
}

// An empty builder of structs of what `values` take.
#[tactic(auto, using(crate::proofs::Making::new_structs))]
fn make_struct(
    alloc: Global,
    values: Vec<MutableArray>,
    data_type: &DataType,
) -> Result<MutableArray>
    ensures shape { IfOk result (λ b. shape b
        ≡ records data_type.now (fields_of (map shape values.items))) }
    ensures memory { OnlyOutOfMemory result }
{
    match data_type.try_clone(alloc) {
        Ok(data_type) => {
            let records = DynMutableStructArray::new(alloc, values, data_type)?;
            Ok(MutableArray::Struct(records))
        }
        Err(error) => Err(error),
    }
}

/// An empty builder of this type, which is one that lines are read into.
#[cycle(make)]
fn make_builder(alloc: Global, data_type: &DataType) -> Result<MutableArray>
    requires { has_line_reading_of data_type.now ≡ true }
    ensures shape { IfOk result (λ b. shape b ≡ line_shape data_type.now) }
    ensures memory { OnlyOutOfMemory result }
{
    match data_type {
        DataType::List(item) => {
            let values = make_builder(alloc, &item.get().data_type)?;
            make_list(alloc, values, data_type)
        }
        DataType::LargeList(item) => {
            let values = make_builder(alloc, &item.get().data_type)?;
            make_large_list(alloc, values, data_type)
        }
        DataType::FixedSizeList(item, size) => {
            let values = make_builder(alloc, &item.get().data_type)?;
            make_sized_list(alloc, values, data_type, *size)
        }
        DataType::Struct(fields) => {
            let values = make_builders(alloc, fields.as_slice())?;
            make_struct(alloc, values, data_type)
        }
        _ => make_flat(alloc, data_type),
    }
}

/// A builder for each field.
#[cycle(make)]
pub(crate) fn make_builders(alloc: Global, fields: &[Field]) -> Result<Vec<MutableArray>>
    requires { have_line_readings_of fields.now ≡ true }
    ensures shapes { IfOk result (λ builders. map shape builders.items ≡ shapes_of fields.now) }
    ensures memory { OnlyOutOfMemory result }
{
    let mut builders = Vec::with_capacity(alloc, fields.len())?;
    for field in fields {
        let builder = make_builder(alloc, &field.data_type)?;
        builders.push(builder)?;
    }
    Ok(builders)
}
