//! Rows as JSON lines: one JSON object after another, each with a line feed (RFC 8259, section 4).
ghost use Rattle.std.specs.Prelude.{◌≡◌, ◌++◌, ◌⊎◌, IsSome, None, Some, codes, flat_map, IfOk, OnOk, IfErr};
ghost use Rattle.std.specs.Io.{StartsWith};
ghost use Rattle.arrow_core.specs.Errors.{OnlyOutOfMemory};
ghost use Rattle.arrow_core.specs.declared.error.Error.TheVariants.{OutOfMemory};
ghost use Rattle.arrow_array.specs.Structs.{HaveSlots};
ghost use Rattle.json_text.specs.Columns.{AreColumns};
ghost use Rattle.json_write.specs.Rows.{chunk_refusal, names_of, objects};
ghost use Rattle.json_write.specs.Serializing.{column_rows};

use crate::keys::prepare;
use arrow_base::{Field, Result};
use arrow_columns::{Array, Chunk};
use arrow_core::Items;
use json_text::{Appended, Column, push, push_object};
use std::alloc::Global;

/// Writes the rows of chunks as lines. It is made once for the fields, and takes chunk after chunk.
#[derive(Drop)]
pub struct LineEncoder {
    fields: Items<Field>,
}

/// Appends the object of each of the first `count` rows, and a line feed after each.
///
/// `AllocError` where there is no memory. What stood in `out` stays.
fn push_rows(out: &mut Vec<u8>, arrays: &[Array], count: usize, columns: &[Column]) -> Appended
    requires slots { HaveSlots count arrays.now }
    requires columns { AreColumns arrays.now columns.now }
    ensures ok { OnOk result
        (out.new.items
        ≡ out.old.items
        ++ flat_map (λ row. row ++ codes "\n") (column_rows arrays.now columns.now 0 count)) }
    ensures kept { StartsWith out.new.items out.old.items }
{
    for i in 0..count {
        push_object(out, arrays, i, columns)?;
        push(out, b"\n")?;
    }
    Ok(())
}

impl LineEncoder {
    /// An encoder of rows under these fields.
    ///
    /// `OutOfMemory` alone.
    pub fn new(_alloc: Global, fields: Items<Field>) -> Result<LineEncoder>
        ensures fields { IfOk result (λ encoder. encoder.fields ≡ fields) }
        ensures memory { OnlyOutOfMemory result }
    {
        Ok(LineEncoder { fields })
    }

    /// Appends a line for each row of the chunk, in order: a JSON object with a member for each
    /// field, in order, under the field's name, and a line feed. A value's text is that of its
    /// array's type, whatever the field's is.
    ///
    /// `InvalidArgumentError(Lengths)` where there are more or fewer fields than arrays. Then for
    /// each array in order: `NotYetImplemented(NoJsonText)` where its type has no JSON text,
    /// `InvalidArgumentError(ZoneOffset)` where the zone of a timestamp, at any depth, is no
    /// offset, and `InvalidArgumentError(DateRange)` where it shows a date or a timestamp whose
    /// year isn't one of 0 to 9999. After any of these `out` is as it was. `OutOfMemory`.
    ///
    /// What stood in `out` stays: on `Ok` the lines follow it, after `OutOfMemory` a part of the
    /// lines.
    pub fn push(&self, out: &mut Vec<u8>, chunk: &Chunk) -> Result<()>
        ensures ok { OnOk result
            (out.new.items
            ≡ out.old.items
            ++ flat_map (λ row. row ++ codes "\n") (objects (names_of self.now.fields) chunk.now)) }
        ensures kept { StartsWith out.new.items out.old.items }
        ensures accepted { OnOk result (chunk_refusal self.now.fields chunk.now ≡ None) }
        ensures err { IfErr result
            (λ e. (e ≡ OutOfMemory) ⊎ (chunk_refusal self.now.fields chunk.now ≡ Some e)) }
        ensures unchanged { IsSome (chunk_refusal self.now.fields chunk.now)
            → out.new.items ≡ out.old.items }
    {
        let arrays = chunk.arrays();
        let columns = prepare(*out.allocator(), self.fields.as_slice(), arrays)?;
        push_rows(out, arrays, chunk.len(), columns.as_slice())?;
        Ok(())
    }
}
