//! Columns of which dictionaries are made, at every depth. The values of each are its distinct
//! slots but null, in order of first appearance.
ghost use Rattle.std.specs.Prelude.{◌≡◌, false, map, IfOk, IsTrue, OnOk};
ghost use Rattle.arrow_array.specs.Arrays.{array_slots, array_type};
ghost use Rattle.arrow_array.specs.HoldsDictionary.{holds_dictionary as holds_dictionary_of};
ghost use Rattle.arrow_dictionaries.specs.Encoding.{HasFirstValues, HaveFirstValues};
ghost use Rattle.ndjson.specs.LineColumns.{AreMadeOf, IsMadeOf};

use crate::keys::dictionary_of;
use crate::rebuilt::{fixed_lists_over, large_lists_over, lists_over, structs_over};
use arrow_array::{Array, holds_dictionary};
use arrow_core::{DataType, Field};
use json_line::GivenUp;
use std::alloc::Global;

// Whether the column is of this type, and the type holds no dictionary.
fn is_plain(data_type: &DataType, column: &Array) -> bool
    ensures same { IsTrue result → array_type column.now ≡ data_type.now }
    ensures plain { IsTrue result → holds_dictionary_of (array_type column.now) ≡ false }
{
    !holds_dictionary(data_type) && column.data_type().is_same(data_type)
}

// All slots of a column that holds no dictionary, which share its buffers.
fn whole(alloc: Global, column: &Array) -> Result<Array, GivenUp>
    requires { holds_dictionary_of (array_type column.now) ≡ false }
    ensures data_type { IfOk result (λ a. array_type a ≡ array_type column.now) }
    ensures slots { IfOk result (λ a. array_slots a ≡ array_slots column.now) }
    ensures dictionaries { IfOk result HasFirstValues }
{
    let array = column.slice(alloc, 0, column.len())?;
    array.holds_no_dictionary();
    Ok(array)
}

// The column of this type with the same slots, of one that was read under this type or another.
#[cycle(encode)]
fn encoded(alloc: Global, data_type: &DataType, column: &Array) -> Result<Array, GivenUp>
    ensures data_type { IfOk result (λ a. array_type a ≡ data_type.now) }
    ensures slots { IfOk result (λ a. array_slots a ≡ array_slots column.now) }
    ensures dictionaries { IfOk result HasFirstValues }
{
    if is_plain(data_type, column) {
        return whole(alloc, column);
    }
    match data_type {
        DataType::Dictionary(key, _, _) => dictionary_of(alloc, *key, data_type, column),
        DataType::List(item) => encoded_lists(alloc, item.get(), data_type, column),
        DataType::LargeList(item) => encoded_lists(alloc, item.get(), data_type, column),
        DataType::FixedSizeList(item, _) => encoded_lists(alloc, item.get(), data_type, column),
        DataType::Struct(fields) => encoded_structs(alloc, fields.as_slice(), data_type, column),
        _ => Err(GivenUp),
    }
}

// The same of lists of this field.
#[cycle(encode)]
fn encoded_lists(
    alloc: Global,
    item: &Field,
    data_type: &DataType,
    column: &Array,
) -> Result<Array, GivenUp>
    ensures data_type { IfOk result (λ a. array_type a ≡ data_type.now) }
    ensures slots { IfOk result (λ a. array_slots a ≡ array_slots column.now) }
    ensures dictionaries { IfOk result HasFirstValues }
{
    match column {
        Array::List(lists) => {
            let values = encoded(alloc, &item.data_type, lists.values())?;
            let array = lists_over(alloc, data_type, lists, values)?;
            Ok(Array::List(array))
        }
        Array::LargeList(lists) => {
            let values = encoded(alloc, &item.data_type, lists.values())?;
            let array = large_lists_over(alloc, data_type, lists, values)?;
            Ok(Array::LargeList(array))
        }
        Array::FixedSizeList(lists) => {
            let values = encoded(alloc, &item.data_type, lists.values())?;
            let array = fixed_lists_over(alloc, data_type, lists, values)?;
            Ok(Array::FixedSizeList(array))
        }
        _ => Err(GivenUp),
    }
}

// The same of structs of these fields.
#[cycle(encode)]
fn encoded_structs(
    alloc: Global,
    fields: &[Field],
    data_type: &DataType,
    column: &Array,
) -> Result<Array, GivenUp>
    ensures data_type { IfOk result (λ a. array_type a ≡ data_type.now) }
    ensures slots { IfOk result (λ a. array_slots a ≡ array_slots column.now) }
    ensures dictionaries { IfOk result HasFirstValues }
{
    match column {
        Array::Struct(structs) => {
            let values = encoded_all(alloc, fields, structs.values())?;
            let array = structs_over(alloc, data_type, structs, values)?;
            Ok(Array::Struct(array))
        }
        _ => Err(GivenUp),
    }
}

// The same of several columns, one for each field.
#[cycle(encode)]
fn encoded_all(alloc: Global, fields: &[Field], columns: &[Array]) -> Result<Vec<Array>, GivenUp>
    ensures slots { IfOk result
        (λ made. map array_slots made.items ≡ map array_slots columns.now) }
    ensures dictionaries { IfOk result (λ made. HaveFirstValues made.items) }
{
    if fields.len() != columns.len() {
        return Err(GivenUp);
    }
    let mut made = Vec::with_capacity(alloc, columns.len())?;
    for i in 0..columns.len() {
        let column = encoded(alloc, &fields[i].data_type, &columns[i])?;
        made.push(column)?;
    }
    Ok(made)
}

// Turns a column, as it was read, into one of this type with the same slots.
fn encode_column(alloc: Global, data_type: &DataType, column: &mut Array) -> Result<(), GivenUp>
    ensures { OnOk result (IsMadeOf data_type.now column.old column.new) }
{
    if is_plain(data_type, column) {
        column.holds_no_dictionary();
        return Ok(());
    }
    *column = encoded(alloc, data_type, column)?;
    Ok(())
}

/// Turns each column, as it was read, into one of its field's type with the same slots. The values of
/// each dictionary, at every depth, are its distinct slots but null, in order of first appearance.
pub(crate) fn encode_columns(
    alloc: Global,
    fields: &[Field],
    columns: &mut [Array],
) -> Result<(), GivenUp>
    ensures { OnOk result (AreMadeOf fields.now columns.old columns.new) }
{
    if fields.len() != columns.len() {
        return Err(GivenUp);
    }
    for i in 0..columns.len() {
        encode_column(alloc, &fields[i].data_type, &mut columns[i])?;
    }
    Ok(())
}
