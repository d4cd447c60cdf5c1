//! Rows that are in their canonical encoding.

ghost use Rattle.std.specs.Prelude.{◌≤◌, length, IfSome, IsTrue};
ghost use Rattle.avro_schema.specs.declared.schema.Schema.{Array};
ghost use Rattle.avro_schema.specs.Carried.{IsNoUnion};
ghost use Rattle.avro_schema.specs.Encodes.{IsNull};
ghost use Rattle.avro_verbatim.specs.Begins.{BeginsWithFields, BeginsWithItems, BeginsWithSlot, TakesRows, TakesSlot};
ghost use Rattle.avro_verbatim.specs.Canonical.{AreCanonicalRows};

use crate::flat::{skip_binary, skip_boolean, skip_fixed, skip_int, skip_long, skip_string};
use crate::parts::split_length;
use avro_schema::{AvroField, AvroSchema};

/// Whether the bytes are so many rows of these fields in their canonical encoding: each number in
/// its shortest, and each array in one block without a size (Avro 1.11, "Binary Encoding").
///
/// `true` says so. `false` says nothing. It is answered at every value of a decimal, a duration, an
/// enum, a float, a map, or a union other than of null and, second, one schema. It takes no memory.
pub fn are_canonical_rows(bytes: &[u8], number_of_rows: usize, fields: &[AvroField]) -> bool
    ensures rows { IsTrue result → AreCanonicalRows number_of_rows fields.now bytes.now }
    ensures few { IsTrue result → number_of_rows ≤ length bytes.now }
{
    // Rows without a byte aren't counted through.
    if number_of_rows > bytes.len() {
        return false;
    }
    match rows_len(bytes, number_of_rows, fields) {
        Some(len) => len == bytes.len(),
        None => false,
    }
}

/// How many bytes so many rows have that the bytes begin with.
// It and `array_len` are called; the others are inlined, so that a flat value, beneath a union too,
// mostly takes no call. These answer a length, since a slice in an option is handed back in memory.
#[cycle(canonical)]
#[inline(never)]
fn rows_len(bytes: &[u8], number_of_rows: usize, fields: &[AvroField]) -> Option<usize>
    ensures { IfSome result (λ len. TakesRows fields.now number_of_rows len bytes.now) }
{
    let mut rest = bytes;
    for _ in 0..number_of_rows {
        rest = skip_fields(rest, fields)?;
    }
    Some(bytes.len() - rest.len())
}

/// What follows a slot of each field, in order.
#[cycle(canonical)]
#[inline(always)]
fn skip_fields<'a>(bytes: &'a [u8], fields: &[AvroField]) -> Option<&'a [u8]>
    ensures { IfSome result (λ rest. BeginsWithFields fields.now bytes.now rest.now) }
{
    let mut rest = bytes;
    for field in fields {
        rest = skip_value(rest, &field.schema)?;
    }
    Some(rest)
}

/// What follows the canonical encoding of a value that the bytes begin with.
///
/// Of a union the first member is null and the second no union. The member's index is 0 or 1, which
/// zigzag encodes as 0 and 2.
// The member goes the way of any other value, so that this way stands once in the machine code.
#[cycle(canonical)]
#[inline(always)]
fn skip_value<'a>(bytes: &'a [u8], schema: &AvroSchema) -> Option<&'a [u8]>
    ensures { IfSome result (λ rest. BeginsWithSlot schema.now bytes.now rest.now) }
{
    let mut rest = bytes;
    let mut held = schema;
    if let AvroSchema::Union(members) = schema {
        let [first, second] = members.as_slice() else {
            return None;
        };
        if !is_null_first(first, second) {
            return None;
        }
        let Some((index, more)) = bytes.split_first() else {
            return None;
        };
        if *index == 0 {
            return Some(more);
        }
        if *index != 2 {
            return None;
        }
        rest = more;
        held = second;
    }
    skip_no_union(rest, held)
}

/// The same of a schema that is no union.
// All kinds stand side by side, so that one jump leads to each.
#[cycle(canonical)]
#[inline(always)]
fn skip_no_union<'a>(bytes: &'a [u8], schema: &AvroSchema) -> Option<&'a [u8]>
    ensures { IfSome result (λ rest. BeginsWithSlot schema.now bytes.now rest.now) }
{
    match schema {
        AvroSchema::Boolean => skip_boolean(bytes),
        AvroSchema::Int(_) => skip_int(bytes),
        AvroSchema::Long(_) => skip_long(bytes),
        AvroSchema::Bytes(None) => skip_binary(bytes),
        AvroSchema::String(_) => skip_string(bytes),
        AvroSchema::Fixed(fixed) => skip_fixed(bytes, fixed),
        AvroSchema::Record(record) => {
            let len = rows_len(bytes, 1, record.fields.as_slice())?;
            Some(&bytes[len..])
        }
        AvroSchema::Array(item) => skip_array(bytes, item.get()),
        _ => None,
    }
}

/// Whether the first is null, and the second no union.
#[inline(always)]
fn is_null_first(first: &AvroSchema, second: &AvroSchema) -> bool
    ensures null { IsTrue result → IsNull first.now }
    ensures no_union { IsTrue result → IsNoUnion second.now }
{
    matches!(first, AvroSchema::Null) && !matches!(second, AvroSchema::Union(_))
}

/// What follows an array: the number 0, or a block of items, and then the number 0 (Avro 1.11,
/// "Arrays").
#[cycle(canonical)]
#[inline(always)]
fn skip_array<'a>(bytes: &'a [u8], item: &AvroSchema) -> Option<&'a [u8]>
    ensures { IfSome result (λ rest. BeginsWithSlot (Array item.now) bytes.now rest.now) }
{
    match bytes.split_first() {
        // Many arrays are empty.
        Some((end, rest)) if *end == 0 => Some(rest),
        _ => {
            let len = array_len(bytes, item)?;
            Some(&bytes[len..])
        }
    }
}

/// How many bytes an array of one block has that the bytes begin with: the count of its items, the
/// items, and then the number 0.
#[cycle(canonical)]
#[inline(never)]
fn array_len(bytes: &[u8], item: &AvroSchema) -> Option<usize>
    ensures { IfSome result (λ len. TakesSlot (Array item.now) len bytes.now) }
{
    let (count, items) = split_length(bytes)?;
    // No more items are counted through than there are bytes left.
    if count == 0 || count > items.len() {
        return None;
    }
    let after = skip_items(items, item, count)?;
    match after.split_first() {
        Some((end, rest)) if *end == 0 => Some(bytes.len() - rest.len()),
        _ => None,
    }
}

/// What follows so many items. Records among them are rows.
#[cycle(canonical)]
#[inline(always)]
fn skip_items<'a>(bytes: &'a [u8], item: &AvroSchema, count: usize) -> Option<&'a [u8]>
    ensures { IfSome result (λ rest. BeginsWithItems item.now count bytes.now rest.now) }
{
    if let AvroSchema::Record(record) = item {
        let len = rows_len(bytes, count, record.fields.as_slice())?;
        return Some(&bytes[len..]);
    }
    skip_values(bytes, item, count)
}

/// The same of items of any kind.
#[cycle(canonical)]
#[inline(always)]
fn skip_values<'a>(bytes: &'a [u8], item: &AvroSchema, count: usize) -> Option<&'a [u8]>
    ensures { IfSome result (λ rest. BeginsWithItems item.now count bytes.now rest.now) }
{
    let mut rest = bytes;
    for _ in 0..count {
        rest = skip_value(rest, item)?;
    }
    Some(rest)
}
