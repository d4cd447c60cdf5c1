//! Values with others in them: arrays, records, and unions of null and another type.
ghost use Rattle.std.specs.Prelude.{◌≡◌, ◌++◌, codes, Some, IfOk, OnOk};
ghost use Rattle.avro_reference.specs.Lengths.{length_at};
ghost use Rattle.avro_line.specs.Values.{IsNextColumn, ShowsArray, ShowsItemsOf, ShowsRecord, ShowsUnion, ShowsValue};

use crate::flat::push_flat;
use crate::given_up::GivenUp;
use crate::union::take_member;
use avro_reference::{ByteReader, read_length};
use avro_schema::{AvroField, AvroSchema};
use avro_types::is_null;
use json_text::{Column, IntegerForm, push, push_comma, push_key, push_null};

/// Appends the text of one value of a schema (Avro 1.11, "Binary Encoding"), by the form of its
/// integers and the columns within its type.
///
/// `GivenUp` may come at any time, and then anything may have been appended.
// It is inlined wherever a value is read, so that a flat one, beneath a union too, takes no call
// into the cycle: `push_array` and `push_record`, which the others go through, are not.
#[cycle(values)]
#[inline(always)]
pub(crate) fn push_value<A: ByteReader>(
    out: &mut Vec<u8>,
    cursor: &mut A,
    schema: &AvroSchema,
    form: &IntegerForm,
    columns: &[Column],
) -> Result<(), GivenUp>
    ensures { OnOk result (ShowsValue schema.now form.now columns.now
        (A.rest cursor.old) (A.rest cursor.new) out.old.items out.new.items) }
{
    match schema {
        AvroSchema::Union(members) => push_union(out, cursor, members.as_slice(), form, columns),
        _ => push_no_union(out, cursor, schema, form, columns),
    }
}

/// Appends the text of one value of a schema that is no union.
#[cycle(values)]
#[inline(always)]
fn push_no_union<A: ByteReader>(
    out: &mut Vec<u8>,
    cursor: &mut A,
    schema: &AvroSchema,
    form: &IntegerForm,
    columns: &[Column],
) -> Result<(), GivenUp>
    ensures { OnOk result (ShowsValue schema.now form.now columns.now
        (A.rest cursor.old) (A.rest cursor.new) out.old.items out.new.items) }
{
    match schema {
        AvroSchema::Array(item) => push_array(out, cursor, item.get(), form, columns),
        AvroSchema::Record(record) => push_record(out, cursor, record.fields.as_slice(), columns),
        _ => push_flat(out, cursor, schema, form),
    }
}

/// Appends the text of a union's member. Null has no bytes.
#[cycle(values)]
#[inline(always)]
fn push_union<A: ByteReader>(
    out: &mut Vec<u8>,
    cursor: &mut A,
    members: &[AvroSchema],
    form: &IntegerForm,
    columns: &[Column],
) -> Result<(), GivenUp>
    ensures { OnOk result (ShowsUnion members.now form.now columns.now
        (A.rest cursor.old) (A.rest cursor.new) out.old.items out.new.items) }
{
    let member = take_member(cursor, members)?;
    if is_null(member) {
        push_null(out)?;
        return Ok(());
    }
    push_no_union(out, cursor, member, form, columns)
}

/// Appends the text of an array: of one block of items, or of none. More blocks, and those that
/// state their size, are given up.
#[cycle(values)]
#[inline(never)]
fn push_array<A: ByteReader>(
    out: &mut Vec<u8>,
    cursor: &mut A,
    item: &AvroSchema,
    form: &IntegerForm,
    columns: &[Column],
) -> Result<(), GivenUp>
    ensures { OnOk result (ShowsArray item.now form.now columns.now
        (A.rest cursor.old) (A.rest cursor.new) out.old.items out.new.items) }
{
    let Some(count) = read_length(cursor) else {
        return Err(GivenUp);
    };
    if count == 0 {
        push(out, b"[]")?;
        return Ok(());
    }
    push(out, b"[")?;
    push_items(out, cursor, item, form, columns, count)?;
    push_end(out, cursor)
}

/// Appends the bracket of an array that has no more blocks.
#[inline(always)]
fn push_end<A: ByteReader>(out: &mut Vec<u8>, cursor: &mut A) -> Result<(), GivenUp>
    ensures end { OnOk result (length_at (A.rest cursor.old) ≡ Some (0, A.rest cursor.new)) }
    ensures ok { OnOk result (out.new.items ≡ out.old.items ++ codes "]") }
{
    match read_length(cursor) {
        Some(0) => {
            push(out, b"]")?;
            Ok(())
        }
        _ => Err(GivenUp),
    }
}

/// Appends the texts of so many items, with commas between them.
#[cycle(values)]
#[inline(always)]
fn push_items<A: ByteReader>(
    out: &mut Vec<u8>,
    cursor: &mut A,
    item: &AvroSchema,
    form: &IntegerForm,
    columns: &[Column],
    count: usize,
) -> Result<(), GivenUp>
    ensures { OnOk result (ShowsItemsOf item.now form.now columns.now count
        (A.rest cursor.old) (A.rest cursor.new) out.old.items out.new.items) }
{
    for k in 0..count {
        push_comma(out, k)?;
        push_value(out, cursor, item, form, columns)?;
    }
    Ok(())
}

/// Appends the object of a record, a member for each of its fields.
#[cycle(values)]
#[inline(never)]
fn push_record<A: ByteReader>(
    out: &mut Vec<u8>,
    cursor: &mut A,
    avro_fields: &[AvroField],
    columns: &[Column],
) -> Result<(), GivenUp>
    ensures { OnOk result (ShowsRecord avro_fields.now columns.now
        (A.rest cursor.old) (A.rest cursor.new) out.old.items out.new.items) }
{
    if columns.is_empty() {
        return Err(GivenUp);
    }
    let mut rest = columns;
    for field in avro_fields {
        let (column, within, after) = next_column(rest)?;
        push_key(out, &column.key)?;
        push_value(out, cursor, &field.schema, &column.form, within)?;
        rest = after;
    }
    push(out, b"}")?;
    Ok(())
}

/// The next column, those within it, and those after them.
#[inline(always)]
pub(crate) fn next_column(columns: &[Column]) -> Result<(&Column, &[Column], &[Column]), GivenUp>
    ensures { IfOk result (λ parts. IsNextColumn columns.now parts.0.now parts.1.now parts.2.now) }
{
    let Some((column, more)) = columns.split_first() else {
        return Err(GivenUp);
    };
    match more.split_at_checked(column.within) {
        Some((within, after)) => Ok((column, within, after)),
        None => Err(GivenUp),
    }
}
