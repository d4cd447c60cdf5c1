//! The rows of a block, each a line.
ghost use Rattle.std.specs.Prelude.{◌≡◌, length, OnOk};
ghost use Rattle.avro_schema.specs.Carried.{Carried, CarriedList};
ghost use Rattle.avro_schema.specs.ValidBlock.{kept};
ghost use Rattle.avro_line.specs.Rows.{HaveTexts, SkipsTo, ShowsLine, ShowsLines, ShowsRowsOf};

use crate::given_up::GivenUp;
use crate::values::{next_column, push_value};
use avro_reference::{ByteReader, Lent};
use avro_schema::{AvroField, AvroSchema, SliceCursor};
use avro_skip::skip_value;
use json_text::{Column, push, push_key};
use std::marker::PhantomData;

/// Appends the lines of a block's rows: for each an object (RFC 8259) with a member for each kept
/// field, in order, and a line feed. The bytes are the rows and nothing else (Avro 1.11, "Object
/// Container Files"). The columns are those that `json_text::push_column` makes of the kept fields,
/// one after another, of the types of their schemas, each of which has a JSON text.
///
/// `GivenUp` may come at any time, and then anything may have been appended: at bytes that aren't
/// such rows, at a date that is in no year from 0 to 9999, at a value that isn't a boolean, an
/// int, a long, a string, or an array, a record or a nullable one of these, at an array of several
/// blocks or of one that states its size, where no field is kept, and where there is no memory.
pub fn push_rows(
    out: &mut Vec<u8>,
    bytes: &[u8],
    avro_fields: &[AvroField],
    projection: &[bool],
    columns: &[Column],
    number_of_rows: usize,
) -> Result<(), GivenUp>
    requires lengths { length avro_fields.now ≡ length projection.now }
    requires carried { CarriedList avro_fields.now }
    requires texts { HaveTexts (kept avro_fields.now projection.now) }
    ensures { OnOk result (ShowsRowsOf number_of_rows avro_fields.now projection.now columns.now
        bytes.now out.old.items out.new.items) }
{
    let mut cursor = SliceCursor::new(bytes);
    let mut lent = Lent {
        cursor: &mut cursor,
        of: &PhantomData,
    };
    push_lines(
        out,
        &mut lent,
        avro_fields,
        projection,
        columns,
        number_of_rows,
    )?;
    if lent.left() > 0 {
        return Err(GivenUp);
    }
    Ok(())
}

/// Appends the lines of so many rows.
#[inline(always)]
fn push_lines<A: ByteReader>(
    out: &mut Vec<u8>,
    cursor: &mut A,
    avro_fields: &[AvroField],
    projection: &[bool],
    columns: &[Column],
    number_of_rows: usize,
) -> Result<(), GivenUp>
    requires lengths { length avro_fields.now ≡ length projection.now }
    requires carried { CarriedList avro_fields.now }
    ensures { OnOk result (ShowsLines number_of_rows avro_fields.now projection.now columns.now
        (A.rest cursor.old) (A.rest cursor.new) out.old.items out.new.items) }
{
    for _ in 0..number_of_rows {
        push_line(out, cursor, avro_fields, projection, columns)?;
    }
    Ok(())
}

/// Appends the line of one row. A field that isn't kept is skipped.
#[inline(always)]
fn push_line<A: ByteReader>(
    out: &mut Vec<u8>,
    cursor: &mut A,
    avro_fields: &[AvroField],
    projection: &[bool],
    columns: &[Column],
) -> Result<(), GivenUp>
    requires lengths { length avro_fields.now ≡ length projection.now }
    requires carried { CarriedList avro_fields.now }
    ensures { OnOk result (ShowsLine avro_fields.now projection.now columns.now
        (A.rest cursor.old) (A.rest cursor.new) out.old.items out.new.items) }
{
    if columns.is_empty() {
        return Err(GivenUp);
    }
    let mut rest = columns;
    for i in 0..avro_fields.len() {
        let field = &avro_fields[i];
        if projection[i] {
            let (column, within, after) = next_column(rest)?;
            push_key(out, &column.key)?;
            push_value(out, cursor, &field.schema, &column.form, within)?;
            rest = after;
        } else {
            skip_field(cursor, &field.schema)?;
        }
    }
    push(out, b"}\n")?;
    Ok(())
}

/// Skips the value of a field that isn't kept.
#[inline(always)]
fn skip_field<A: ByteReader>(cursor: &mut A, schema: &AvroSchema) -> Result<(), GivenUp>
    requires carried { Carried schema.now }
    ensures { OnOk result (SkipsTo schema.now (A.rest cursor.old) (A.rest cursor.new)) }
{
    match skip_value(cursor, schema) {
        Ok(()) => Ok(()),
        Err(_) => Err(GivenUp),
    }
}
