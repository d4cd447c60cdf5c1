//! JSON lines into columns, batch by batch.

ghost use Rattle.std.specs.Prelude.{◌≡◌, ◌<◌, ℕ, List, Some, length, vec_len, IfOk, IfSome};
ghost use Rattle.arrow_array.specs.Arrays.{array_slots};
ghost use Rattle.arrow_array.specs.Slots.{slot_at};
ghost use Rattle.json_infer.specs.Parts.{members_of};
ghost use Rattle.ndjson_read.specs.Inference.{told_of};
ghost use Rattle.guide.specs.LineSum.{HasFieldAt, IsFieldOf, IsSumOfLines, added, field_of, long_of};

use arrow_array::{Array, PrimitiveArray, StructArray};
use arrow_base::{DataType, Error, Field, Reason, Result, Source, Text};
use ndjson::{FileReader, deserialize, infer};
use std::alloc::Global;

/// The most bytes that lines may have.
const BYTE_LIMIT: u64 = 1 << 40;

/// How many rows are read at once.
const BATCH: usize = 1000;

/// The sum of the integers under one key of JSON lines; a row without the key, or with null under
/// it, adds nothing. The type of the rows is inferred from the first of them, so the lines are
/// given twice.
///
/// The errors are those of `infer`, of `FileReader::advance` and of `deserialize`.
/// `InvalidArgumentError(UnknownKey)` where no key has this name, `NotYetImplemented(NotCarried)`
/// where its column isn't one of integers, and `Overflow` where the sum is too great. No clause
/// says so.
pub fn sum_of_lines<S: Source + Drop>(
    alloc: Global,
    mut first: S,
    lines: S,
    key: &str,
) -> Result<i128>
    ensures sum { IfOk result (λ sum. (bytes : List ℕ) → S.left lines ≡ Some bytes
        → IsSumOfLines (told_of S.left S.faults first) key.now bytes sum) }
{
    let row_type = infer(alloc, &mut first, Some(BATCH), BYTE_LIMIT)?;
    let place = place_of(&row_type, key)?;
    let mut lines = FileReader::new(alloc, lines, texts(alloc)?, None, BYTE_LIMIT);
    let mut sum: i128 = 0;
    loop {
        lines.advance()?;
        let Some(rows) = lines.get() else {
            return Ok(sum);
        };
        let column = deserialize(alloc, rows, row_type.try_clone(alloc)?)?;
        sum = add_column(sum, &column, place)?;
    }
}

/// The texts that the rows of a batch are read into.
fn texts(alloc: Global) -> Result<Vec<Text>>
    ensures { IfOk result (λ texts. vec_len texts ≡ 1000) }
{
    let mut texts = Vec::new(alloc);
    for _ in 0..BATCH {
        texts.push(Text::from_string(String::new(alloc)))?;
    }
    Ok(texts)
}

/// The place of a key among the fields of rows.
fn place_of(row_type: &DataType, key: &str) -> Result<usize>
    ensures { IfOk result (λ place. HasFieldAt row_type.now place key.now) }
{
    let fields = fields_of(row_type);
    for place in 0..fields.len() {
        if fields[place].name.as_str() == key {
            return Ok(place);
        }
    }
    Err(Error::InvalidArgumentError(Reason::UnknownKey))
}

/// The fields of rows that are structs, and none of others.
fn fields_of(row_type: &DataType) -> &[Field]
    ensures { result.now ≡ members_of row_type.now }
{
    match row_type {
        DataType::Struct(fields) => fields.as_slice(),
        _ => &[],
    }
}

/// A sum, and the integers of one field of a column of rows.
fn add_column(sum: i128, rows: &Array, place: usize) -> Result<i128>
    ensures ok { IfOk result (λ total. total ≡ added place sum (array_slots rows.now)) }
{
    match rows {
        Array::Struct(rows) => add_rows(sum, rows, place),
        _ => Err(Error::NotYetImplemented(Reason::NotCarried)),
    }
}

/// The same of rows that are structs.
fn add_rows(sum: i128, rows: &StructArray, place: usize) -> Result<i128>
    ensures ok { IfOk result (λ total. total ≡ added place sum rows.now.slots) }
{
    let Some(longs) = longs_of(rows, place) else {
        return Err(Error::NotYetImplemented(Reason::NotCarried));
    };
    let mut sum = sum;
    for i in 0..rows.len() {
        let long = long_at(rows, longs, i);
        sum = sum.checked_add(long).ok_or(Error::Overflow)?;
    }
    Ok(sum)
}

/// The column of a field of rows, where there is one of integers.
fn longs_of(rows: &StructArray, place: usize) -> Option<&PrimitiveArray<i64>>
    ensures { IfSome result (λ longs. IsFieldOf place rows.now.slots longs.now.slots) }
{
    let columns = rows.values();
    if place >= columns.len() {
        return None;
    }
    match &columns[place] {
        Array::Int64(longs) => Some(longs),
        _ => None,
    }
}

/// The integer that a row has in the field of a column, 0 where it has none.
fn long_at(rows: &StructArray, longs: &PrimitiveArray<i64>, i: usize) -> i128
    requires row { i < length rows.now.slots }
    requires as_many { length longs.now.slots ≡ length rows.now.slots }
    ensures { (place : ℕ) → IsFieldOf place rows.now.slots longs.now.slots
        → result ≡ long_of (field_of place (slot_at rows.now.slots i)) }
{
    if rows.is_valid(i) && longs.is_valid(i) {
        i128::from(longs.value(i))
    } else {
        0
    }
}
