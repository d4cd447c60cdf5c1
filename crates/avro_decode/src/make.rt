//! Empty builders for the values of schemas.

ghost use Rattle.std.specs.Prelude.{◌≡◌, ◌≤◌, [], length, map, sum_by, true, All, IfOk};
ghost use Rattle.arrow_core.specs.Errors.{OnlyOutOfMemory};
ghost use Rattle.arrow_core.specs.declared.physical.PhysicalType.TheVariants.{List as ListKind, LargeList as LargeListKind};
ghost use Rattle.arrow_core.specs.declared.slot.Slot.TheVariants.{String as StringSlot};
ghost use Rattle.arrow_core.specs.Layouts.{physical_type};
ghost use Rattle.arrow_array.specs.Parts.{IsPlain};
ghost use Rattle.arrow_builders.specs.Children.{fields_of};
ghost use Rattle.arrow_builders.specs.MutableArrays.{nodes};
ghost use Rattle.arrow_builders.specs.Nodes.{IsEmpty};
ghost use Rattle.arrow_builders.specs.Shapes.{shape, flat, dictionary, lists, records};
ghost use Rattle.avro_schema.specs.declared.schema.Schema.{Union};
ghost use Rattle.avro_schema.specs.Types.{HasType, Fits, symbol_type};
ghost use Rattle.avro_schema.specs.ValidBlock.{small_limit};
ghost use Rattle.avro_decode.specs.Making.{CanBeKept, IsNewBuilder, AreNewBuilders, IsFlatType};

use arrow_array::Utf8Array;
use arrow_builders::{
    Container, DynMutableLargeListArray, DynMutableListArray, DynMutableStructArray,
    FixedItemsUtf8Dictionary, MutableArray, MutableBinaryArray, MutableBooleanArray,
    MutableFixedSizeBinaryArray, MutablePrimitiveArray, MutableUtf8Array,
};
use arrow_core::{DataType, Error, Field, IntervalUnit, NativeType, Result, Text};
use avro_schema::{AvroField, AvroSchema};
use avro_types::is_null;
use std::alloc::Global;

/// An empty builder for the values of a schema, of its data type, and of its children's types.
#[cycle(make)]
pub fn make_builder(
    alloc: Global,
    schema: &AvroSchema,
    data_type: &DataType,
) -> Result<MutableArray>
    requires kept { CanBeKept schema.now }
    requires typed { HasType true schema.now data_type.now }
    ensures made { IfOk result (IsNewBuilder schema.now data_type.now) }
    ensures memory { OnlyOutOfMemory result }
{
    match schema {
        AvroSchema::Union(members) => make_nullable(alloc, members.as_slice(), data_type),
        AvroSchema::Array(item) => match data_type {
            DataType::List(field) => {
                let values = make_builder(alloc, item.get(), &field.get().data_type)?;
                make_list(alloc, values, data_type)
            }
            DataType::LargeList(field) => {
                let values = make_builder(alloc, item.get(), &field.get().data_type)?;
                make_large_list(alloc, values, data_type)
            }
            _ => unreachable!(),
        },
        AvroSchema::Record(record) => {
            let DataType::Struct(fields) = data_type else {
                unreachable!()
            };
            let values = make_children(alloc, record.fields.as_slice(), fields.as_slice())?;
            make_struct(alloc, values, data_type)
        }
        AvroSchema::Enum(enumeration) => make_dictionary(alloc, enumeration.symbols.as_slice()),
        _ => make_flat(alloc, data_type),
    }
}

/// An empty builder for the member that isn't null, which takes nulls too.
#[cycle(make)]
fn make_nullable(
    alloc: Global,
    members: &[AvroSchema],
    data_type: &DataType,
) -> Result<MutableArray>
    requires kept { CanBeKept (Union members.now) }
    requires typed { HasType true (Union members.now) data_type.now }
    ensures made { IfOk result (IsNewBuilder (Union members.now) data_type.now) }
    ensures memory { OnlyOutOfMemory result }
{
    let [first, second] = members else {
        unreachable!()
    };
    if is_null(first) {
        make_builder(alloc, second, data_type)
    } else {
        make_builder(alloc, first, data_type)
    }
}

/// An empty builder for each field of a record.
#[cycle(make)]
fn make_children(
    alloc: Global,
    avro_fields: &[AvroField],
    fields: &[Field],
) -> Result<Vec<MutableArray>>
    requires kept { All (λ a. CanBeKept a.schema) avro_fields.now }
    requires typed { Fits fields.now avro_fields.now }
    ensures made { IfOk result (λ bs. AreNewBuilders avro_fields.now fields.now bs.items) }
    ensures memory { OnlyOutOfMemory result }
{
    let mut children = Vec::new(alloc);
    for i in 0..avro_fields.len() {
        let child = make_builder(alloc, &avro_fields[i].schema, &fields[i].data_type)?;
        children.push(child)?;
    }
    Ok(children)
}

#[tactic(auto, using(crate::proofs::NewBuilders::new_lists))]
fn make_list(alloc: Global, values: MutableArray, data_type: &DataType) -> Result<MutableArray>
    requires empty { All IsEmpty (nodes values) }
    ensures shape { IfOk result (λ b. shape b ≡ lists ListKind data_type.now (shape values)) }
    ensures empty { IfOk result (λ b. All IsEmpty (nodes b)) }
    ensures memory { OnlyOutOfMemory result }
{
    match data_type.try_clone(alloc) {
        Ok(data_type) => {
            let lists = DynMutableListArray::new_from(alloc, values, data_type, 0)?;
            Ok(MutableArray::List(lists))
        }
        Err(error) => Err(error),
    }
}

#[tactic(auto, using(crate::proofs::NewBuilders::new_large_lists))]
fn make_large_list(
    alloc: Global,
    values: MutableArray,
    data_type: &DataType,
) -> Result<MutableArray>
    requires empty { All IsEmpty (nodes values) }
    ensures shape { IfOk result (λ b. shape b ≡ lists LargeListKind data_type.now (shape values)) }
    ensures empty { IfOk result (λ b. All IsEmpty (nodes b)) }
    ensures memory { OnlyOutOfMemory result }
{
    match data_type.try_clone(alloc) {
        Ok(data_type) => {
            let lists = DynMutableLargeListArray::new_from(alloc, values, data_type, 0)?;
            Ok(MutableArray::LargeList(lists))
        }
        Err(error) => Err(error),
    }
}

#[tactic(auto, using(crate::proofs::NewBuilders::new_structs))]
fn make_struct(
    alloc: Global,
    values: Vec<MutableArray>,
    data_type: &DataType,
) -> Result<MutableArray>
    requires empty { All (λ b. All IsEmpty (nodes b)) values.items }
    ensures shape { IfOk result (λ b. shape b
        ≡ records data_type.now (fields_of (map shape values.items))) }
    ensures empty { IfOk result (λ b. All IsEmpty (nodes b)) }
    ensures memory { OnlyOutOfMemory result }
{
    match data_type.try_clone(alloc) {
        Ok(data_type) => {
            let records = DynMutableStructArray::new(alloc, values, data_type)?;
            Ok(MutableArray::Struct(records))
        }
        Err(error) => Err(error),
    }
}

/// An empty builder of a dictionary of these symbols.
#[tactic(auto, using(crate::proofs::NewBuilders::new_empties))]
fn make_dictionary(alloc: Global, symbols: &[Text]) -> Result<MutableArray>
    requires total { sum_by length symbols.now ≤ small_limit }
    ensures shape { IfOk result (λ b. shape b
        ≡ dictionary symbol_type (map StringSlot symbols.now)) }
    ensures empty { IfOk result (λ b. All IsEmpty (nodes b)) }
    ensures memory { OnlyOutOfMemory result }
{
    let strings = symbol_strings(alloc, symbols)?;
    let keys = FixedItemsUtf8Dictionary::with_capacity(alloc, strings, 0)?;
    Ok(MutableArray::Dictionary(keys))
}

/// The symbols as an array of strings.
fn symbol_strings(alloc: Global, symbols: &[Text]) -> Result<Utf8Array<i32>>
    requires total { sum_by length symbols.now ≤ small_limit }
    ensures slots { IfOk result (λ strings. strings.slots ≡ map StringSlot symbols.now) }
    ensures memory { OnlyOutOfMemory result }
{
    let mut strings = MutableUtf8Array::with_capacity(alloc, 0)?;
    for i in 0..symbols.len() {
        strings.push(Some(symbols[i].as_str()))?;
    }
    strings.as_box()
}

/// An empty builder of values of one size, of this type.
fn primitive<T: NativeType>(alloc: Global, data_type: &DataType) -> Result<MutablePrimitiveArray<T>>
    requires { IsPlain T.PRIMITIVE data_type.now }
    ensures data_type { IfOk result (λ b. b.data_type ≡ data_type.now) }
    ensures slots { IfOk result (λ b. b.slots ≡ []) }
    ensures memory { OnlyOutOfMemory result }
{
    let values = MutablePrimitiveArray::<T>::with_capacity(alloc, 0)?;
    Ok(values.to(data_type.try_clone(alloc)?))
}

/// An empty builder of the type of a flat value that is no enum's.
#[tactic(auto, using(crate::proofs::NewBuilders::new_empties))]
fn make_flat(alloc: Global, data_type: &DataType) -> Result<MutableArray>
    requires flat { IsFlatType data_type.now }
    ensures shape { IfOk result (λ b. shape b ≡ flat (physical_type data_type.now) data_type.now) }
    ensures empty { IfOk result (λ b. All IsEmpty (nodes b)) }
    ensures memory { OnlyOutOfMemory result }
{
    match data_type {
        DataType::Boolean => {
            let values = MutableBooleanArray::with_capacity(alloc, 0)?;
            Ok(MutableArray::Boolean(values))
        }
        DataType::Int32 | DataType::Date32 | DataType::Time32(_) => {
            Ok(MutableArray::Int32(primitive(alloc, data_type)?))
        }
        DataType::Int64 | DataType::Time64(_) | DataType::Timestamp(_, _) => {
            Ok(MutableArray::Int64(primitive(alloc, data_type)?))
        }
        DataType::Utf8 => {
            let values = MutableUtf8Array::with_capacity(alloc, 0)?;
            Ok(MutableArray::Utf8(values))
        }
        DataType::LargeUtf8 => {
            let values = MutableUtf8Array::with_capacity(alloc, 0)?;
            Ok(MutableArray::LargeUtf8(values))
        }
        DataType::Binary => {
            let values = MutableBinaryArray::with_capacity(alloc, 0)?;
            Ok(MutableArray::Binary(values))
        }
        DataType::LargeBinary => {
            let values = MutableBinaryArray::with_capacity(alloc, 0)?;
            Ok(MutableArray::LargeBinary(values))
        }
        DataType::Decimal(_, _) => { Ok(MutableArray::Int128(primitive(alloc, data_type)?)) }
        DataType::Interval(IntervalUnit::MonthDayNano) => {
            let values = MutablePrimitiveArray::with_capacity(alloc, 0)?;
            Ok(MutableArray::MonthDayNano(values))
        }
        DataType::FixedSizeBinary(size) => {
            let values = MutableFixedSizeBinaryArray::with_capacity(alloc, *size, 0)?;
            Ok(MutableArray::FixedSizeBinary(values))
        }
        _ => unreachable!(),
    }
}
