//! The values of rows, each a JSON text.
ghost use Rattle.std.specs.Prelude.{◌≡◌, ◌∷◌, ◌++◌, [], IfOk, IfErr, OnOk};
ghost use Rattle.std.specs.Iterator.{IsFinite};
ghost use Rattle.json_tree.specs.declared.value.Value as value;
ghost use Rattle.json_tree.specs.Meaning.{IsJson};
ghost use Rattle.ndjson_read.specs.Needed.{StandFor};
ghost use Rattle.ndjson_read.specs.Inference.{NoValue};
ghost use Rattle.ndjson_read.specs.GivenRows.{FailsAt};
ghost use Rattle.ndjson.specs.Rows.{AllStandFor, FailsAtRow};

use arrow_core::{Error, Result, Text};
use json_tree::{Value, parse};
use std::alloc::Global;

/// The value of a row.
fn value_of(alloc: Global, row: &[u8]) -> Result<Value>
    ensures value { IfOk result (λ v. IsJson v row.now) }
    ensures err { IfErr result (NoValue row.now) }
{
    match parse(alloc, row) {
        Ok(value) => Ok(value),
        Err(fault) => Err(Error::from(fault)),
    }
}

/// Appends the value of a row.
fn push_value(alloc: Global, values: &mut Vec<Value>, row: &[u8]) -> Result<()>
    ensures value { IfOk result (λ _. (v : value.Value) × IsJson v row.now
        × (values.new.items ≡ values.old.items ++ v ∷ [])) }
    ensures err { IfErr result (NoValue row.now) }
{
    let value = value_of(alloc, row)?;
    values.push(value)?;
    Ok(())
}

/// Appends the value of each row.
pub(crate) fn push_values(alloc: Global, values: &mut Vec<Value>, rows: &[Text]) -> Result<()>
    requires none { values.old.items ≡ [] }
    ensures values { OnOk result (StandFor rows.now values.new.items) }
    ensures err { IfErr result (FailsAtRow rows.now) }
{
    for row in rows {
        push_value(alloc, values, row.as_str().as_bytes())?;
    }
    Ok(())
}

/// Appends the value of each row that an iterator gives.
pub(crate) fn push_given<'a, I: Iterator<Item = &'a str> + Drop>(
    alloc: Global,
    values: &mut Vec<Value>,
    rows: I,
) -> Result<()>
    requires can { I.can_next rows }
    requires ends { IsFinite (I.remaining rows) }
    requires none { values.old.items ≡ [] }
    ensures values { OnOk result (AllStandFor I.next_gives rows values.new.items) }
    ensures err { IfErr result (FailsAt I.next_gives rows) }
{
    for row in rows {
        push_value(alloc, values, row.as_bytes())?;
    }
    Ok(())
}
