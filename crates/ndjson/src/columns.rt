//! The column of rows of JSON lines.
ghost use Rattle.std.specs.Prelude.{◌≡◌, ◌≢◌, [], IfOk, IfErr, IfSome, OnOk};
ghost use Rattle.std.specs.Iterator.{IsFinite};
ghost use Rattle.arrow_array.specs.Arrays.{array_slots, array_type};
ghost use Rattle.arrow_dictionaries.specs.Encoding.{HasFirstValues};
ghost use Rattle.arrow_core.specs.declared.types.DataType.{Struct};
ghost use Rattle.ndjson.specs.LineColumns.{AreRowsOf};
ghost use Rattle.ndjson.specs.Columns.{IsColumnOf, IsColumnOfAll, IsNoColumn, IteratorRefused, IsRefusalOf};

use crate::line_columns::{LineColumns, struct_fields};
use crate::rows::{push_given, push_values};
use arrow_array::Array;
use arrow_core::{DataType, Error, Field, Reason, Result, Text};
use json_columns::read_values;
use json_tree::Value;
use std::alloc::Global;

/// The column of rows, whose values are kept in `values`, where there is none yet.
fn read_rows(
    alloc: Global,
    values: &mut Vec<Value>,
    rows: &[Text],
    data_type: &DataType,
) -> Result<Array>
    requires none { values.old.items ≡ [] }
    ensures column { IfOk result
        (λ a. IsColumnOf rows.now data_type.now (array_type a) (array_slots a)) }
    ensures dictionaries { IfOk result HasFirstValues }
    ensures err { IfErr result (IsNoColumn rows.now data_type.now) }
{
    push_values(alloc, values, rows)?;
    read_values(alloc, values.as_slice(), data_type)
}

/// The column of rows as structs of these fields, read without trees; `None` where `LineColumns` has
/// no builders of the fields' columns, and where the rows are given up.
fn read_structs(
    alloc: Global,
    rows: &[Text],
    fields: Vec<Field>,
    data_type: &DataType,
) -> Option<Array>
    requires { data_type.now ≡ Struct fields.items }
    ensures rows { IfSome result
        (λ a. AreRowsOf rows.now data_type.now (array_type a) (array_slots a)) }
    ensures dictionaries { IfSome result HasFirstValues }
{
    match LineColumns::new(alloc, fields) {
        Ok(Some(mut columns)) => match columns.read_rows(rows, data_type) {
            Ok(array) => Some(array),
            Err(_) => None,
        },
        _ => None,
    }
}

/// The column of rows, read without trees; `None` where they are to be read as trees.
fn read_lines(alloc: Global, rows: &[Text], data_type: &DataType) -> Option<Array>
    ensures column { IfSome result
        (λ a. IsColumnOf rows.now data_type.now (array_type a) (array_slots a)) }
    ensures dictionaries { IfSome result HasFirstValues }
{
    let Ok(row_type) = data_type.try_clone(alloc) else {
        return None;
    };
    match struct_fields(row_type) {
        Some(fields) => read_structs(alloc, rows, fields, data_type),
        None => None,
    }
}

/// The column of the rows that an iterator gives, whose values are kept in `values`, where there is
/// none yet.
fn read_given<'a, I: Iterator<Item = &'a str> + Drop>(
    alloc: Global,
    values: &mut Vec<Value>,
    rows: I,
    data_type: &DataType,
) -> Result<Array>
    requires can { I.can_next rows }
    requires ends { IsFinite (I.remaining rows) }
    requires none { values.old.items ≡ [] }
    ensures column { IfOk result
        (λ a. IsColumnOfAll I.next_gives rows data_type.now (array_type a) (array_slots a)) }
    ensures dictionaries { IfOk result HasFirstValues }
    ensures err { IfErr result (IteratorRefused I.next_gives rows data_type.now) }
{
    push_given(alloc, values, rows)?;
    read_values(alloc, values.as_slice(), data_type)
}

/// The column of rows under a type, one slot a row: what the row's value means under the type, as
/// the table of types in `docs/FORMATS.md` has it. The values of each dictionary, at every depth,
/// are its distinct slots but null, in order of first appearance. Each row is a JSON text (RFC
/// 8259), and may end with its line feed.
///
/// The first of these that applies: `ExternalFormat(EmptyInput)` where there is no row; of the first
/// row that is no such text, `LimitExceeded` where it has more than 128 brackets open at once, else
/// `ExternalFormat(Json)`; then what `json_columns::read_values` refuses, from
/// `InvalidArgumentError(DuplicateName)` on. `OutOfMemory` may come in place of any answer but the
/// first.
pub fn deserialize(alloc: Global, rows: &[Text], data_type: DataType) -> Result<Array>
    ensures some { OnOk result (rows.now ≢ []) }
    ensures column { IfOk result
        (λ a. IsColumnOf rows.now data_type (array_type a) (array_slots a)) }
    ensures dictionaries { IfOk result HasFirstValues }
    ensures err { IfErr result (IsRefusalOf rows.now data_type) }
{
    if rows.is_empty() {
        return Err(Error::ExternalFormat(Reason::EmptyInput));
    }
    if let Some(array) = read_lines(alloc, rows, &data_type) {
        return Ok(array);
    }
    let mut values = Vec::new(alloc);
    read_rows(alloc, &mut values, rows, &data_type)
}

/// The column of the rows that an iterator gives under a type, as `deserialize` has it, the values
/// of each dictionary too. The column of no rows is empty. The iterator has to end.
///
/// The refusals are those of `deserialize` but the first. Where a row is no JSON text, none after it
/// is asked for; no clause says so, since nothing is left of the iterator after the call.
pub fn deserialize_iter<'a, I: Iterator<Item = &'a str> + Drop>(
    alloc: Global,
    rows: I,
    data_type: DataType,
) -> Result<Array>
    requires can { I.can_next rows }
    requires ends { IsFinite (I.remaining rows) }
    ensures column { IfOk result
        (λ a. IsColumnOfAll I.next_gives rows data_type (array_type a) (array_slots a)) }
    ensures dictionaries { IfOk result HasFirstValues }
    ensures err { IfErr result (IteratorRefused I.next_gives rows data_type) }
{
    let mut values = Vec::new(alloc);
    read_given(alloc, &mut values, rows, &data_type)
}
