//! Skipped numbers, and bytes by their number.

ghost use Rattle.std.specs.Prelude.{◌≡◌, ◌+◌, ◌<◌, ◌≤◌, length, Some, None, MatchResult, OnOk};
ghost use Rattle.avro_schema.specs.Skips.{fixed_size as fixed_size_of};
ghost use Rattle.avro_reference.specs.Skip.{jump_at, skip_raw, skip_number as skip_number_at, skip_sized as skip_sized_at};
ghost use Rattle.avro_reference.specs.Costs.{Moves};
ghost use Rattle.avro_reference.specs.Lengths.{as_length};
ghost use Rattle.avro_skip.specs.Skipping.{Passes, PassesMore, Jumps, sized_items_at};

use crate::fault::SkipFault;
use avro_reference::{ByteReader, read_length};
use avro_schema::{Fixed, FixedLogical};

/// How many bytes a fixed-size value has (Avro 1.11, "Fixed" and "Duration").
#[inline(always)]
pub fn fixed_size(fixed: &Fixed) -> usize
    ensures { result ≡ fixed_size_of fixed.now.size fixed.now.logical }
{
    match fixed.logical {
        Some(FixedLogical::Duration) => 12,
        _ => fixed.size,
    }
}

/// Skips a number.
#[inline(always)]
#[tactic(auto, using(crate::proofs::Sets::numbered))]
pub fn skip_number<A: ByteReader>(cursor: &mut A) -> Result<(), SkipFault>
    ensures same { A.identity cursor.new ≡ A.identity cursor.old }
    ensures moves { Moves A.rest A.calls cursor.old cursor.new }
    ensures shorter { OnOk result (length (A.rest cursor.new) < length (A.rest cursor.old)) }
    ensures passes { Passes A.rest A.shown A.calls cursor.old cursor.new result
        (skip_number_at (A.rest cursor.old)) }
{
    match cursor.number() {
        Some(_) => Ok(()),
        None => Err(SkipFault::Bytes),
    }
}

/// Skips a length and so many bytes, unseen.
#[inline(always)]
#[tactic(auto, using(crate::proofs::Sets::numbered))]
pub fn skip_sized<A: ByteReader>(cursor: &mut A) -> Result<(), SkipFault>
    ensures same { A.identity cursor.new ≡ A.identity cursor.old }
    ensures moves { Moves A.rest A.calls cursor.old cursor.new }
    ensures shorter { OnOk result (length (A.rest cursor.new) < length (A.rest cursor.old)) }
    ensures passes { Passes A.rest A.shown A.calls cursor.old cursor.new result
        (skip_sized_at (A.rest cursor.old)) }
{
    match read_length(cursor) {
        Some(length) => skip_bytes(cursor, length),
        None => Err(SkipFault::Bytes),
    }
}

/// Skips the items of an array's block, unseen, by the size that the block states (Avro 1.11,
/// "Arrays").
#[tactic(auto, using(crate::proofs::Sets::numbered))]
pub fn skip_sized_items<A: ByteReader>(cursor: &mut A) -> Result<(), SkipFault>
    ensures same { A.identity cursor.new ≡ A.identity cursor.old }
    ensures moves { Moves A.rest A.calls cursor.old cursor.new }
    ensures passes { PassesMore A.rest A.shown A.calls cursor.old cursor.new result
        (λ before. sized_items_at before (A.rest cursor.old)) }
{
    let Some(size) = cursor.number() else {
        return Err(SkipFault::Bytes);
    };
    match block_size(size) {
        Ok(length) => skip_bytes(cursor, length),
        Err(fault) => Err(fault),
    }
}

/// The size that a block states.
fn block_size(size: i64) -> Result<usize, SkipFault>
    ensures { MatchResult result (λ length. as_length size ≡ Some length)
        (λ fault. (fault ≡ SkipFault.NegativeSize) × (as_length size ≡ None)) }
{
    match usize::try_from(size) {
        Ok(length) => Ok(length),
        Err(_) => Err(SkipFault::NegativeSize),
    }
}

/// Skips a boolean, which is one byte: to look at it costs less than to pass it unseen.
#[inline(always)]
#[tactic(auto, using(crate::proofs::Sets::bytes))]
pub fn skip_byte<A: ByteReader>(cursor: &mut A) -> Result<(), SkipFault>
    ensures same { A.identity cursor.new ≡ A.identity cursor.old }
    ensures moves { Moves A.rest A.calls cursor.old cursor.new }
    ensures shorter { OnOk result (length (A.rest cursor.new) < length (A.rest cursor.old)) }
    ensures passes { Passes A.rest A.shown A.calls cursor.old cursor.new result
        (skip_raw 1 1 (A.rest cursor.old)) }
{
    match cursor.byte() {
        Some(_) => Ok(()),
        None => Err(SkipFault::Bytes),
    }
}

/// Skips `count` bytes, unseen.
#[inline(always)]
#[tactic(auto, using(crate::proofs::Sets::jumps))]
pub fn skip_bytes<A: ByteReader>(cursor: &mut A, count: usize) -> Result<(), SkipFault>
    ensures same { A.identity cursor.new ≡ A.identity cursor.old }
    ensures moves { Moves A.rest A.calls cursor.old cursor.new }
    ensures shown { A.shown cursor.new ≡ A.shown cursor.old }
    ensures calls { A.calls cursor.new ≤ A.calls cursor.old + 1 }
    ensures shorter { OnOk result (length (A.rest cursor.new) + count
        ≡ length (A.rest cursor.old)) }
    ensures jumps { Jumps (A.rest cursor.new) result (jump_at count (A.rest cursor.old)) }
{
    if cursor.jump(count) {
        Ok(())
    } else {
        Err(SkipFault::Bytes)
    }
}
