//! The types of rows that are texts.
ghost use Rattle.std.specs.Prelude.{◌≡◌, ◌∷◌, ◌++◌, [], List, true, IfOk, IfErr, cond};
ghost use Rattle.json_tree.specs.declared.value.Value as value;
ghost use Rattle.json_tree.specs.Meaning.{IsJson};
ghost use Rattle.json_infer.specs.RowsSeen.{StandsFor};
ghost use Rattle.std.specs.Iterator.{IsFinite};
ghost use Rattle.ndjson_read.specs.Inference.{NoValue};
ghost use Rattle.arrow_core.specs.declared.error.Error.TheVariants.{OutOfMemory};
ghost use Rattle.ndjson_read.specs.GivenRows.{InfersAll, StandsForAll, FailsAt, GivesValues};

use crate::repeated::adds_nothing;
use arrow_base::{DataType, Error, Result};
use json_infer::RowTypes;
use json_tree::{Value, parse};
use std::alloc::Global;

// The value of a row.
fn value_of(alloc: Global, row: &[u8]) -> Result<Value>
    ensures value { IfOk result (λ v. IsJson v row.now) }
    ensures err { IfErr result (NoValue row.now) }
{
    match parse(alloc, row) {
        Ok(value) => Ok(value),
        Err(fault) => Err(Error::from(fault)),
    }
}

// Adds the type of a row, of which nothing else is kept. Most rows add nothing.
pub(crate) fn add_text(alloc: Global, types: &mut RowTypes, row: &str) -> Result<()>
    ensures added { IfOk result (λ _. (v : value.Value) × IsJson v row.now
        × ((rows : List value.Value)
        → StandsFor types.old rows → StandsFor types.new (rows ++ v ∷ []))) }
    ensures err { IfErr result (NoValue row.now) }
{
    if adds_nothing(alloc, types, row) {
        return Ok(());
    }
    let value = value_of(alloc, row.as_bytes())?;
    types.add(&value)
}

// Adds the types of all rows that an iterator gives.
fn add_texts<'a, I: Iterator<Item = &'a str> + Drop>(
    alloc: Global,
    types: &mut RowTypes,
    rows: I,
) -> Result<()>
    requires can { I.can_next rows }
    requires ends { IsFinite (I.remaining rows) }
    requires none { StandsFor types.old [] }
    ensures ok { IfOk result (λ _. StandsForAll I.next_gives rows (StandsFor types.new)) }
    ensures err { IfErr result (FailsAt I.next_gives rows) }
{
    for row in rows {
        add_text(alloc, types, row)?;
    }
    Ok(())
}

// The type of all rows that an iterator gives. Their types are kept in `types`, where there is none
// yet.
fn infer_into<'a, I: Iterator<Item = &'a str> + Drop>(
    alloc: Global,
    types: &mut RowTypes,
    rows: I,
) -> Result<DataType>
    requires can { I.can_next rows }
    requires ends { IsFinite (I.remaining rows) }
    requires none { StandsFor types.old [] }
    ensures ok { IfOk result (InfersAll I.next_gives rows) }
    ensures err { IfErr result (FailsAt I.next_gives rows) }
{
    add_texts(alloc, types, rows)?;
    types.result()
}

/// The type of rows: the coercion of their distinct types that aren't Null, in order of first
/// appearance. Each row is a JSON text; that of no rows is Null. The iterator has to end. Nothing is
/// kept of a row but its type.
///
/// The first row that is no such text decides: `LimitExceeded` where it has more than 128 brackets
/// open at once, else `ExternalFormat(Json)`; where there is none, `OutOfMemory` alone. No row after
/// it is asked for; no clause says so, since nothing is left of the iterator after the call.
pub fn infer_iter<'a, I: Iterator<Item = &'a str> + Drop>(
    alloc: Global,
    rows: I,
) -> Result<DataType>
    requires can { I.can_next rows }
    requires ends { IsFinite (I.remaining rows) }
    ensures ok { IfOk result (InfersAll I.next_gives rows) }
    ensures err { IfErr result (FailsAt I.next_gives rows) }
    ensures complete { GivesValues I.next_gives rows → IfErr result (λ e. e ≡ OutOfMemory) }
{
    let mut types = RowTypes::new(alloc);
    infer_into(alloc, &mut types, rows)
}
