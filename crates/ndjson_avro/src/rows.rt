//! The texts of rows into an array of structs: straight, or by trees.
ghost use Rattle.std.specs.Prelude.{◌≡◌, true, All, IfOk, IfErr, IfSome, MatchResult};
ghost use Rattle.std.specs.List.{AllZip};
ghost use Rattle.arrow_array.specs.Arrays.{array_slots, array_type};
ghost use Rattle.arrow_core.specs.declared.types.DataType.{Struct};
ghost use Rattle.json_tree.specs.Meaning.{IsJson};
ghost use Rattle.ndjson_avro.specs.Steps.{AreBuildersOf, AreNotParsed, AreNotRead, AreRead, HasNonObject};
ghost use Rattle.ndjson_avro.specs.Values.{is_object as is_object_of, IsNoValue};

use arrow_array::{Array, StructArray};
use arrow_base::Text;
use arrow_core::{DataType, Error, Reason, Result};
use json_columns::read_values;
use json_line::{GivenUp, LineBuilders};
use json_tree::{Value, parse};
use std::alloc::Global;

/// The value of a row's text. `ExternalFormat(Json)` where it has none, `LimitExceeded` where more
/// than 128 brackets are open at once; `OutOfMemory`.
fn row_value(alloc: Global, row: &[u8]) -> Result<Value>
    ensures ok { IfOk result (λ value. IsJson value row.now) }
    ensures err { IfErr result (IsNoValue row.now) }
{
    match parse(alloc, row) {
        Ok(value) => Ok(value),
        Err(fault) => Err(Error::from(fault)),
    }
}

/// The values of rows' texts, or why the first that has none has none; `OutOfMemory`.
fn parse_rows(alloc: Global, rows: &[Text]) -> Result<Vec<Value>>
    ensures ok { IfOk result (λ values. AllZip IsJson values.items rows.now) }
    ensures err { IfErr result (AreNotParsed rows.now) }
{
    let mut values = Vec::with_capacity(alloc, rows.len())?;
    for row in rows {
        let value = row_value(alloc, row.as_str().as_bytes())?;
        values.push(value)?;
    }
    Ok(values)
}

fn is_object(value: &Value) -> bool
    ensures { result ≡ is_object_of value.now }
{
    matches!(value, Value::Object(_))
}

/// `NotAnObject` where one of the values is no object.
fn check_objects(values: &[Value]) -> Result<()>
    ensures { MatchResult result (λ _. All (λ value. is_object_of value ≡ true) values.now)
        (HasNonObject values.now) }
{
    for value in values {
        if !is_object(value) {
            return Err(Error::ExternalFormat(Reason::NotAnObject));
        }
    }
    Ok(())
}

/// The array of the rows, each read as a tree.
///
/// In this order: the error of the first row that has no value, as `row_value` has it;
/// `ExternalFormat(NotAnObject)` where a value is no object; and those of `read_values`.
/// `OutOfMemory` at any time.
fn read_trees(alloc: Global, rows: &[Text], row_type: &DataType) -> Result<Array>
    ensures data_type { IfOk result (λ a. array_type a ≡ row_type.now) }
    ensures ok { IfOk result (λ a. AreRead row_type.now rows.now (array_slots a)) }
    ensures err { IfErr result (AreNotRead row_type.now rows.now) }
{
    let parsed = parse_rows(alloc, rows)?;
    let values = parsed.as_slice();
    check_objects(values)?;
    let array = read_values(alloc, values, row_type)?;
    Ok(array)
}

/// The array of the rows, read without trees.
fn read_lines(
    alloc: Global,
    rows: &[Text],
    row_type: &DataType,
    lines: &mut LineBuilders,
) -> std::result::Result<Array, GivenUp>
    requires { row_type.now ≡ Struct lines.old }
    ensures data_type { IfOk result (λ a. array_type a ≡ row_type.now) }
    ensures ok { IfOk result (λ a. AreRead row_type.now rows.now (array_slots a)) }
    ensures same { lines.new ≡ lines.old }
{
    let columns = lines.read_lines(rows)?;
    let data_type = row_type.try_clone(alloc)?;
    let array = StructArray::try_new(alloc, data_type, columns, None)?;
    Ok(Array::Struct(array))
}

/// The same, where there are builders that read them, and they aren't given up.
fn try_lines(
    alloc: Global,
    rows: &[Text],
    row_type: &DataType,
    lines: &mut Option<LineBuilders>,
) -> Option<Array>
    requires { AreBuildersOf row_type.now lines.old }
    ensures data_type { IfSome result (λ a. array_type a ≡ row_type.now) }
    ensures ok { IfSome result (λ a. AreRead row_type.now rows.now (array_slots a)) }
    ensures same { lines.new ≡ lines.old }
{
    match lines {
        Some(builders) => match read_lines(alloc, rows, row_type, builders) {
            Ok(array) => Some(array),
            Err(_) => None,
        },
        None => None,
    }
}

/// The array of the rows: straight from their texts, and only where these are given up, by trees,
/// which decide what is refused. The errors are those of `read_trees`.
pub(crate) fn read_array(
    alloc: Global,
    rows: &[Text],
    row_type: &DataType,
    lines: &mut Option<LineBuilders>,
) -> Result<Array>
    requires { AreBuildersOf row_type.now lines.old }
    ensures data_type { IfOk result (λ a. array_type a ≡ row_type.now) }
    ensures ok { IfOk result (λ a. AreRead row_type.now rows.now (array_slots a)) }
    ensures err { IfErr result (AreNotRead row_type.now rows.now) }
    ensures same { lines.new ≡ lines.old }
{
    match try_lines(alloc, rows, row_type, lines) {
        Some(array) => Ok(array),
        None => read_trees(alloc, rows, row_type),
    }
}
