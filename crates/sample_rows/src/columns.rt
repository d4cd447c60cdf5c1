//! The columns of rows that are drawn.
ghost use Rattle.std.specs.Prelude.{◌≡◌, ◌<◌, ◌^◌, ◌++◌, ◌∷◌, [], pos, OnOk, IfOk};
ghost use Rattle.arrow_core.specs.Errors.{OnlyOutOfMemory};
ghost use Rattle.arrow_array.specs.Arrays.{array_slots};
ghost use Rattle.sample_rows.specs.Drawing as spec;
ghost use Rattle.sample_rows.specs.Drawn.{ids, oks, tag_lists, users};

use crate::generator::{after_row, drawn, next};
use crate::names::{push_string, write_name};
use crate::tags::draw_tags;
use arrow_array::Array;
use arrow_core::{Error, Result};
use arrow_flat::{Container, MutableBooleanArray, MutablePrimitiveArray, MutableUtf8Array};
use std::alloc::Global;

/// The id of row `i`.
fn id_of(i: usize) -> i64
    requires { i < 2 ^ 63 }
    ensures { result ≡ pos i }
{
    i as i64
}

/// Appends the ids of so many rows. `OutOfMemory` alone, also where an index passes 63 bits.
fn push_ids(column: &mut MutablePrimitiveArray<i64>, rows: usize) -> Result<()>
    ensures ok { OnOk result (column.new.slots ≡ column.old.slots ++ ids rows) }
    ensures memory { OnlyOutOfMemory result }
{
    if rows > i64::MAX as usize {
        return Err(Error::OutOfMemory);
    }
    for i in 0..rows {
        column.push(Some(id_of(i)))?;
    }
    Ok(())
}

/// The ids of rows: their indexes.
fn draw_ids(alloc: Global, rows: usize) -> Result<Array>
    ensures slots { IfOk result (λ a. array_slots a ≡ ids rows) }
    ensures memory { OnlyOutOfMemory result }
{
    let mut column = MutablePrimitiveArray::<i64>::with_capacity(alloc, 0)?;
    let array = match push_ids(&mut column, rows) {
        Ok(()) => column.as_box(),
        Err(error) => Err(error),
    };
    drop(column);
    Ok(Array::Int64(array?))
}

/// Appends the user of the row that is drawn from this state.
fn push_user(column: &mut MutableUtf8Array<i32>, text: &mut String, state: u32) -> Result<()>
    ensures ok { OnOk result (column.new.slots ≡ column.old.slots ++ spec.user state ∷ []) }
    ensures memory { OnlyOutOfMemory result }
{
    let number = drawn(next(state));
    if number % 4 == 0 {
        return push_string(column, None);
    }
    write_name(text, "u", number % 1000)?;
    push_string(column, Some(text.as_str()))
}

/// Appends the users of so many rows.
fn push_users(
    column: &mut MutableUtf8Array<i32>,
    text: &mut String,
    start: u32,
    rows: usize,
) -> Result<()>
    ensures ok { OnOk result (column.new.slots ≡ column.old.slots ++ users start rows) }
    ensures memory { OnlyOutOfMemory result }
{
    let mut state = start;
    for _ in 0..rows {
        push_user(column, text, state)?;
        state = after_row(state);
    }
    Ok(())
}

/// The users of rows.
fn draw_users(alloc: Global, start: u32, rows: usize) -> Result<Array>
    ensures slots { IfOk result (λ a. array_slots a ≡ users start rows) }
    ensures memory { OnlyOutOfMemory result }
{
    let mut column = MutableUtf8Array::<i32>::with_capacity(alloc, 0)?;
    let mut text = String::new(alloc);
    let array = match push_users(&mut column, &mut text, start, rows) {
        Ok(()) => column.as_box(),
        Err(error) => Err(error),
    };
    drop((column, text));
    Ok(Array::Utf8(array?))
}

/// Appends the booleans of so many rows.
fn push_oks(column: &mut MutableBooleanArray, start: u32, rows: usize) -> Result<()>
    ensures ok { OnOk result (column.new.slots ≡ column.old.slots ++ oks start rows) }
    ensures memory { OnlyOutOfMemory result }
{
    let mut state = start;
    for _ in 0..rows {
        state = after_row(state);
        column.push(Some(drawn(state) % 2 == 1))?;
    }
    Ok(())
}

/// The booleans of rows.
fn draw_oks(alloc: Global, start: u32, rows: usize) -> Result<Array>
    ensures slots { IfOk result (λ a. array_slots a ≡ oks start rows) }
    ensures memory { OnlyOutOfMemory result }
{
    let mut column = MutableBooleanArray::with_capacity(alloc, 0)?;
    let array = match push_oks(&mut column, start, rows) {
        Ok(()) => column.as_box(),
        Err(error) => Err(error),
    };
    drop(column);
    Ok(Array::Boolean(array?))
}

/// The columns of rows that are drawn.
#[derive(Drop)]
pub struct DrawnColumns {
    /// Numbers of 64 bits: the rows' indexes.
    pub ids: Array,
    /// Strings and nulls.
    pub users: Array,
    /// Lists of strings.
    pub tags: Array,
    /// Booleans.
    pub oks: Array,
}

/// The columns of so many rows that are drawn from this state on.
///
/// `OutOfMemory` alone, also where offsets of 32 bits can't count what a column holds.
pub fn draw_columns(alloc: Global, start: u32, rows: usize) -> Result<DrawnColumns>
    ensures ids { IfOk result (λ columns. array_slots columns.ids ≡ ids rows) }
    ensures users { IfOk result (λ columns. array_slots columns.users ≡ users start rows) }
    ensures tags { IfOk result (λ columns. array_slots columns.tags ≡ tag_lists start rows) }
    ensures oks { IfOk result (λ columns. array_slots columns.oks ≡ oks start rows) }
    ensures memory { OnlyOutOfMemory result }
{
    Ok(DrawnColumns {
        ids: draw_ids(alloc, rows)?,
        users: draw_users(alloc, start, rows)?,
        tags: draw_tags(alloc, start, rows)?,
        oks: draw_oks(alloc, start, rows)?,
    })
}
