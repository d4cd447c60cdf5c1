//! The lines that tell what rows add up to.
ghost use Rattle.std.specs.Prelude.{◌≡◌, ◌++◌, IfOk, OnOk};
ghost use Rattle.arrow_core.specs.Errors.{OnlyOutOfMemory};
ghost use Rattle.sample_rows.specs.Made as spec;

use crate::read::{KeptTotals, Totals};
use arrow_core::Result;
use itoa::Buffer;
use std::alloc::Global;

/// Appends a name, a space and a number.
fn push_entry(text: &mut Vec<u8>, name: &[u8], number: u128) -> Result<()>
    ensures appended { OnOk result
        (text.new.items ≡ text.old.items ++ spec.entry name.now number) }
    ensures memory { OnlyOutOfMemory result }
{
    let mut buffer = Buffer::new();
    text.extend_from_slice(name)?;
    text.extend_from_slice(b" ")?;
    text.extend_from_slice(buffer.format(number).as_bytes())?;
    Ok(())
}

/// Appends a name, a space, a number and a line feed.
fn push_line(text: &mut Vec<u8>, name: &[u8], number: u128) -> Result<()>
    ensures appended { OnOk result
        (text.new.items ≡ text.old.items ++ spec.line name.now number) }
    ensures memory { OnlyOutOfMemory result }
{
    push_entry(text, name, number)?;
    text.push(b'\n')?;
    Ok(())
}

/// Appends the lines of the rows' columns.
fn push_totals(text: &mut Vec<u8>, totals: Totals) -> Result<()>
    ensures appended { OnOk result (text.new.items ≡ text.old.items
        ++ spec.column_lines totals.ids totals.users totals.tags totals.oks) }
    ensures memory { OnlyOutOfMemory result }
{
    push_line(text, b"id", totals.ids)?;
    push_line(text, b"user", totals.users)?;
    push_line(text, b"tags", totals.tags)?;
    push_line(text, b"ok", totals.oks)
}

/// Appends the line of the columns of ids and booleans, read without the others.
fn push_kept(text: &mut Vec<u8>, kept: KeptTotals) -> Result<()>
    ensures appended { OnOk result (text.new.items ≡ text.old.items
        ++ spec.kept_line kept.ids kept.oks) }
    ensures memory { OnlyOutOfMemory result }
{
    push_entry(text, b"kept id", kept.ids)?;
    text.push(b' ')?;
    push_line(text, b"ok", kept.oks)
}

/// The lines of so many rows, of an encoding of so many bytes, which have this sum.
pub(crate) fn write_lines(
    alloc: Global,
    rows: usize,
    bytes: usize,
    sum: u128,
    totals: Totals,
    kept: KeptTotals,
) -> Result<Vec<u8>>
    ensures lines { IfOk result (λ text. text.items ≡ spec.encoding_lines rows bytes sum
        ++ (spec.column_lines totals.ids totals.users totals.tags totals.oks
        ++ spec.kept_line kept.ids kept.oks)) }
    ensures memory { OnlyOutOfMemory result }
{
    let mut text = Vec::new(alloc);
    push_line(&mut text, b"rows", rows as u128)?;
    push_line(&mut text, b"bytes", bytes as u128)?;
    push_line(&mut text, b"sum", sum)?;
    push_totals(&mut text, totals)?;
    push_kept(&mut text, kept)?;
    Ok(text)
}
