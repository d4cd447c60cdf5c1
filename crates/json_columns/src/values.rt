//! Arrays of JSON values as columns.
ghost use Rattle.std.specs.Prelude.{◌≡◌, true, false, IfOk, IfErr, OnOk};
ghost use Rattle.arrow_array.specs.Arrays.{array_slots, array_type};
ghost use Rattle.arrow_dictionaries.specs.Encoding.{HasFirstValues};
ghost use Rattle.json_flat.specs.Columns.{AreSlotsOf};
ghost use Rattle.json_flat.specs.Names.{names_twice as names_twice_of};
ghost use Rattle.json_flat.specs.Reading.{has_reading, reading};
ghost use Rattle.json_columns.specs.Refusals.{IsColumnOf, IsListRefusal, IsRefusal, IsTypeRefusal};
ghost use Rattle.arrow_core.specs.declared.error.Error.TheVariants.{Overflow};
ghost use Rattle.json_columns.specs.Faults.{IsFault, TooMany};
ghost use Rattle.json_tree.specs.Tree.{array};

use crate::column::read_column;
use crate::gather::lend_all;
use crate::names::names_twice;
use crate::texts::any_has_text;
use crate::types::has_json_reading;
use arrow_array::Array;
use arrow_core::{DataType, Error, Reason, Result};
use json_tree::Value;
use std::alloc::Global;

/// Tells that values are read under a type.
fn check_type(alloc: Global, data_type: &DataType) -> Result<()>
    ensures distinct { OnOk result (names_twice_of data_type.now ≡ false) }
    ensures readable { OnOk result (has_reading data_type.now ≡ true) }
    ensures err { IfErr result (IsTypeRefusal data_type.now) }
{
    if names_twice(alloc, data_type)? {
        return Err(Error::InvalidArgumentError(Reason::DuplicateName));
    }
    if !has_json_reading(data_type) {
        return Err(Error::NotYetImplemented(Reason::NoJsonReading));
    }
    Ok(())
}

/// The column of values under a type that has a reading.
fn read_all(alloc: Global, values: &[Value], data_type: &DataType) -> Result<Array>
    requires readable { has_reading data_type.now ≡ true }
    ensures data_type { IfOk result (λ a. array_type a ≡ data_type.now) }
    ensures slots { IfOk result
        (λ a. AreSlotsOf (reading data_type.now) values.now (array_slots a)) }
    ensures dictionaries { IfOk result HasFirstValues }
    ensures counted { OnOk result (TooMany data_type.now values.now → ⊥) }
    ensures err { IfErr result (IsFault data_type.now values.now) }
{
    let null = Value::Null;
    let mut lent_values = Vec::new(alloc);
    lend_all(&mut lent_values, values)?;
    read_column(alloc, data_type, lent_values.as_slice(), &null)
}

/// The column of JSON values under a type, one slot a value, as the table of types in
/// `docs/FORMATS.md` has them. The values of each dictionary, at every depth, are its distinct slots
/// but null, in order of first appearance.
///
/// The first of these that applies, each exactly there: `InvalidArgumentError(DuplicateName)` where a
/// Struct at any depth names a field twice, `NotYetImplemented(NoJsonReading)` where a type has no
/// reading, `NotYetImplemented(TextTimestamp)` where a string stands under a timestamp, and
/// `Overflow` where a number doesn't fit its type, the items of lists or the bytes of strings or of
/// binary values are more together than the greatest offset, 2^31 - 1 or 2^63 - 1, or the distinct
/// slots of a dictionary are more than its keys have numbers from 0 on; of the strings of a
/// dictionary each distinct one counts once. `OutOfMemory` may come in place of any answer.
pub fn read_values(alloc: Global, values: &[Value], data_type: &DataType) -> Result<Array>
    ensures data_type { IfOk result (λ a. array_type a ≡ data_type.now) }
    ensures slots { IfOk result
        (λ a. AreSlotsOf (reading data_type.now) values.now (array_slots a)) }
    ensures dictionaries { IfOk result HasFirstValues }
    ensures distinct { OnOk result (names_twice_of data_type.now ≡ false) }
    ensures readable { OnOk result (has_reading data_type.now ≡ true) }
    ensures counted { OnOk result (TooMany data_type.now values.now → ⊥) }
    ensures err { IfErr result (IsRefusal data_type.now values.now) }
{
    check_type(alloc, data_type)?;
    match read_all(alloc, values, data_type) {
        Ok(array) => Ok(array),
        Err(error) => Err(first_fault(data_type, values, error)),
    }
}

/// The fault of a column that comes first by the order of `read_values`.
fn first_fault(data_type: &DataType, values: &[Value], error: Error) -> Error
    requires distinct { names_twice_of data_type.now ≡ false }
    requires readable { has_reading data_type.now ≡ true }
    requires fault { IsFault data_type.now values.now error }
    ensures { IsRefusal data_type.now values.now result }
{
    match error {
        Error::Overflow => overflow(data_type, values),
        other => other,
    }
}

/// What is answered in place of `Overflow` where there may be a string under a timestamp.
fn overflow(data_type: &DataType, values: &[Value]) -> Error
    requires distinct { names_twice_of data_type.now ≡ false }
    requires readable { has_reading data_type.now ≡ true }
    requires fault { IsFault data_type.now values.now Overflow }
    ensures { IsRefusal data_type.now values.now result }
{
    if any_has_text(data_type, values) {
        Error::NotYetImplemented(Reason::TextTimestamp)
    } else {
        Error::Overflow
    }
}

/// The column of the items of a JSON array under the item type of a List or a LargeList. The values
/// of each dictionary, at every depth, are its distinct slots but null, in order of first
/// appearance.
///
/// The first of these that applies: `NotYetImplemented(NotAnArray)` where the value is no array or
/// the type neither List nor LargeList, and then what `read_values` refuses of the items under the
/// item type. `OutOfMemory` may come in place of any other answer.
pub fn deserialize(alloc: Global, json: &Value, data_type: DataType) -> Result<Array>
    ensures column { IfOk result
        (λ a. IsColumnOf json.now data_type (array_type a) (array_slots a)) }
    ensures dictionaries { IfOk result HasFirstValues }
    ensures err { IfErr result (IsListRefusal json.now data_type) }
{
    match json {
        Value::Array(items) => read_items(alloc, items.as_slice(), &data_type),
        _ => Err(Error::NotYetImplemented(Reason::NotAnArray)),
    }
}

/// The column of an array's items under the item type of lists.
fn read_items(alloc: Global, items: &[Value], data_type: &DataType) -> Result<Array>
    ensures column { IfOk result
        (λ a. IsColumnOf (array items.now) data_type.now (array_type a) (array_slots a)) }
    ensures dictionaries { IfOk result HasFirstValues }
    ensures err { IfErr result (IsListRefusal (array items.now) data_type.now) }
{
    match data_type {
        DataType::List(item) => read_values(alloc, items, &item.get().data_type),
        DataType::LargeList(item) => read_values(alloc, items, &item.get().data_type),
        _ => Err(Error::NotYetImplemented(Reason::NotAnArray)),
    }
}
