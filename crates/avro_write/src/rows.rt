//! Rows of several columns.
ghost use Rattle.std.specs.Prelude.{◌≡◌, ◌<◌, ◌++◌, [], length, OnOk, OnErr, map, All};
ghost use Rattle.arrow_core.specs.Errors.{OnlyOutOfMemory};
ghost use Rattle.avro_write.specs.Rows.{row, rows};

use crate::serializer::BoxSerializer;
use arrow_core::{Error, Result};
use avro_schema::Block;
use std::alloc::AllocError;

/// Appends row `i`: that item of each serializer, in order. `AllocError` alone.
#[inline(always)]
fn append_row(
    serializers: &[BoxSerializer<'_>],
    i: usize,
    out: &mut Vec<u8>,
) -> std::result::Result<(), AllocError>
    requires left { All (λ s. i < length s.left) serializers.now }
    ensures ok { OnOk result (out.new.items
        ≡ out.old.items ++ row i (map (λ s. s.left) serializers.now)) }
{
    for k in 0..serializers.len() {
        serializers[k].append_item(i, out)?;
    }
    Ok(())
}

/// Appends so many rows, item by item. `AllocError` alone.
fn append_each_row(
    serializers: &[BoxSerializer<'_>],
    count: usize,
    out: &mut Vec<u8>,
) -> std::result::Result<(), AllocError>
    requires left { All (λ s. length s.left ≡ count) serializers.now }
    ensures ok { OnOk result (out.new.items
        ≡ out.old.items ++ rows count (map (λ s. s.left) serializers.now)) }
{
    for i in 0..count {
        append_row(serializers, i, out)?;
    }
    Ok(())
}

/// Appends so many rows. Those of one column are its items, in a loop of their own. `AllocError`
/// alone.
fn append_rows(
    serializers: &[BoxSerializer<'_>],
    count: usize,
    out: &mut Vec<u8>,
) -> std::result::Result<(), AllocError>
    requires left { All (λ s. length s.left ≡ count) serializers.now }
    ensures ok { OnOk result (out.new.items
        ≡ out.old.items ++ rows count (map (λ s. s.left) serializers.now)) }
{
    match serializers {
        [serializer] => serializer.append_left(out),
        _ => append_each_row(serializers, count, out),
    }
}

/// Leaves no item to be shown.
fn end_all(serializers: &mut [BoxSerializer<'_>])
    ensures { All (λ s. s.left ≡ []) serializers.new }
{
    for k in 0..serializers.len() {
        serializers[k].end();
    }
}

/// Fills a block with the rows that serializers show, each row in the order of the serializers, in
/// place of the bytes that it has. Each serializer has exactly as many items left as the block
/// states rows, and then none left; without serializers the bytes become empty.
///
/// `OutOfMemory` alone. The block then has no bytes, and the serializers are only to be dropped.
pub fn serialize(serializers: &mut [BoxSerializer<'_>], block: &mut Block) -> Result<()>
    requires left { All (λ s. length s.left ≡ block.old.number_of_rows) serializers.old }
    ensures ok { OnOk result (block.new.bytes
        ≡ rows block.old.number_of_rows (map (λ s. s.left) serializers.old)) }
    ensures rest { OnOk result (All (λ s. s.left ≡ []) serializers.new) }
    ensures err { OnErr result (block.new.bytes ≡ []) }
    ensures number { block.new.number_of_rows ≡ block.old.number_of_rows }
    ensures memory { OnlyOutOfMemory result }
{
    block.bytes.clear();
    match append_rows(serializers, block.number_of_rows, block.bytes.as_mut_vec()) {
        Ok(()) => {
            end_all(serializers);
            Ok(())
        }
        Err(_) => {
            block.bytes.clear();
            Err(Error::OutOfMemory)
        }
    }
}
