//! What columns and bytes add up to.
ghost use Rattle.std.specs.Prelude.{◌≡◌, ◌<◌, length, sum, IfOk};
ghost use Rattle.arrow_core.specs.Errors.{OnlyOutOfMemory};
ghost use Rattle.arrow_array.specs.Arrays.{array_slots};
ghost use Rattle.arrow_array.specs.Slots.{slot_at};
ghost use Rattle.arrow_columns.specs.Cells.{cell_slot, CellFits};
ghost use Rattle.sample_rows.specs.Totals as spec;

use crate::memory::add;
use arrow_array::Array;
use arrow_columns::{Cell, cell_at};
use arrow_core::Result;

/// What of a slot is counted.
#[derive(Clone, Copy)]
pub enum Measure {
    /// The integer that it holds, where it holds one that isn't negative.
    Number,
    /// One where it isn't null.
    Held,
    /// The items, where it holds a list.
    Items,
    /// One where it holds true.
    Trues,
}

fn number_in(cell: &Cell<'_>) -> u128
    ensures { result ≡ spec.number_in (cell_slot cell.now) }
{
    match cell {
        Cell::Integer(number) if *number >= 0 => *number as u128,
        _ => 0,
    }
}

fn items_in(cell: &Cell<'_>) -> u128
    requires { CellFits cell.now }
    ensures { result ≡ spec.items_in (cell_slot cell.now) }
{
    match cell {
        Cell::List(part) => (part.end - part.start) as u128,
        _ => 0,
    }
}

fn trues_in(cell: &Cell<'_>) -> u128
    ensures { result ≡ spec.trues_in (cell_slot cell.now) }
{
    match cell {
        Cell::Boolean(true) => 1,
        _ => 0,
    }
}

/// What of slot `i` is counted.
fn measure_at(array: &Array, i: usize, measure: Measure) -> u128
    requires within { i < length (array_slots array.now) }
    ensures { result ≡ spec.measured measure (slot_at (array_slots array.now) i) }
{
    match measure {
        Measure::Number => number_in(&cell_at(array, i)),
        Measure::Held => array.is_valid(i) as u128,
        Measure::Items => items_in(&cell_at(array, i)),
        Measure::Trues => trues_in(&cell_at(array, i)),
    }
}

/// The sum over the slots of an array.
///
/// `OutOfMemory` where 128 bits can't hold it.
pub(crate) fn total(array: &Array, measure: Measure) -> Result<u128>
    ensures sum { IfOk result (λ sum. sum ≡ spec.total measure (array_slots array.now)) }
    ensures memory { OnlyOutOfMemory result }
{
    let mut sum: u128 = 0;
    for i in 0..array.len() {
        sum = add(sum, measure_at(array, i, measure))?;
    }
    Ok(sum)
}

/// The sum of bytes, each a number from 0 to 255.
///
/// `OutOfMemory` where 128 bits can't hold it.
pub(crate) fn sum_of(bytes: &[u8]) -> Result<u128>
    ensures sum { IfOk result (λ all. all ≡ sum bytes.now) }
    ensures memory { OnlyOutOfMemory result }
{
    let mut all: u128 = 0;
    for byte in bytes {
        all = add(all, *byte as u128)?;
    }
    Ok(all)
}
