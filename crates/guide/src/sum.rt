//! A file, chunk by chunk.

ghost use Rattle.std.specs.Prelude.{◌≡◌, ◌⊎◌, ◌<◌, ◌≤◌, ℕ, List, Some, length, map, IfOk, IfErr};
ghost use Rattle.arrow_array.specs.Arrays.{array_slots};
ghost use Rattle.arrow_array.specs.Slots.{slot_at};
ghost use Rattle.arrow_core.specs.declared.error.Error.TheVariants.{InvalidArgumentError, Overflow, OutOfMemory};
ghost use Rattle.arrow_core.specs.declared.error.Reason.TheVariants.{KeepNumber};
ghost use Rattle.avro_read.specs.Reader.{source_of, projected_of, marker_of, state_of, IsOpen};
ghost use Rattle.guide.specs.Sum.{only, long_of, added, AddsColumn, SumsBlocks, IsSumOfFile};
ghost use Rattle.guide.specs.Sum.{PassesBits, ColumnFails, StopsAtBlock, SumFails};

use arrow_array::{Array, Chunk, PrimitiveArray};
use arrow_base::{Error, Reason, Result, Source};
use avro_file::read_metadata;
use avro_read::{Reader, infer_schema};
use std::alloc::Global;

/// The most bytes that a file may have.
const BYTE_LIMIT: u64 = 1 << 40;

/// The sum of the longs of one field of a file's rows, nulls left out; fields are counted from 0.
///
/// The errors are those of `read_metadata`, of `infer_schema`, of `Reader::new` and of
/// `Reader::next`. `InvalidArgumentError(KeepNumber)` where the record has no such field;
/// `NotYetImplemented(NotCarried)` where a block's column isn't one of longs; `Overflow` where the
/// sum is too great.
pub fn sum_of_longs<S: Source + Drop>(alloc: Global, mut source: S, field: usize) -> Result<i128>
    ensures sum { IfOk result (λ sum. (bytes : List ℕ) → S.left source ≡ Some bytes
        → IsSumOfFile field bytes sum) }
    ensures err { IfErr result (SumFails field (S.left source) (S.faults source)) }
{
    let (metadata, taken) = read_metadata(alloc, &mut source, BYTE_LIMIT)?;
    let fields = infer_schema(alloc, &metadata.root)?.fields.into_vec();
    let projection = only(alloc, field, metadata.root.fields.as_slice().len())?;
    let limit = BYTE_LIMIT - taken;
    let mut reader = Reader::new(alloc, source, metadata, fields, Some(projection), limit)?;
    sum_of_chunks(&mut reader)
}

/// The projection that keeps one of so many fields.
fn only(alloc: Global, field: usize, count: usize) -> Result<Vec<bool>>
    ensures ok { IfOk result (λ projection. projection.items ≡ only field count) }
    ensures err { IfErr result (λ e. (e ≡ InvalidArgumentError KeepNumber) × (count ≤ field)
        ⊎ (e ≡ OutOfMemory)) }
{
    if field >= count {
        return Err(Error::InvalidArgumentError(Reason::KeepNumber));
    }
    let mut projection = vec![in alloc; false; count]?;
    projection[field] = true;
    Ok(projection)
}

/// The sum of the longs of all blocks that are left.
fn sum_of_chunks<S: Source>(reader: &mut Reader<S>) -> Result<i128>
    requires { IsOpen reader.old }
    ensures ok { IfOk result (SumsBlocks (projected_of reader.old) (marker_of reader.old)
        (state_of S.left S.faults reader.old) (state_of S.left S.faults reader.new)) }
    ensures err { IfErr result (StopsAtBlock (projected_of reader.old) (marker_of reader.old)
        (state_of S.left S.faults reader.old) (state_of S.left S.faults reader.new)) }
{
    let mut sum: i128 = 0;
    while let Some(chunk) = reader.next() {
        sum = add_chunk(sum, &chunk?)?;
    }
    Ok(sum)
}

/// A sum, and the longs of a chunk's one column.
fn add_chunk(sum: i128, chunk: &Chunk) -> Result<i128>
    ensures ok { IfOk result (AddsColumn sum (map array_slots chunk.now)) }
    ensures err { IfErr result (ColumnFails sum chunk.now) }
{
    match chunk.arrays() {
        [Array::Int64(longs)] => add_longs(sum, longs),
        _ => Err(Error::NotYetImplemented(Reason::NotCarried)),
    }
}

/// A sum, and the longs of a column.
fn add_longs(sum: i128, longs: &PrimitiveArray<i64>) -> Result<i128>
    ensures ok { IfOk result (λ total. total ≡ added sum longs.now.slots) }
    ensures err { IfErr result (λ e. (e ≡ Overflow) × PassesBits sum longs.now.slots) }
{
    let mut sum = sum;
    for i in 0..longs.len() {
        sum = sum.checked_add(long_at(longs, i)).ok_or(Error::Overflow)?;
    }
    Ok(sum)
}

/// The long of a slot, 0 where it is null.
fn long_at(longs: &PrimitiveArray<i64>, i: usize) -> i128
    requires { i < length longs.now.slots }
    ensures { result ≡ long_of (slot_at longs.now.slots i) }
{
    if longs.is_valid(i) {
        i128::from(longs.value(i))
    } else {
        0
    }
}
