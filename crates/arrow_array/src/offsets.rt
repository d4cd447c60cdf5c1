//! Offsets, which cut a buffer into parts (Arrow columnar format, "Variable-size Binary Layout").
ghost use Rattle.std.specs.Prelude.{◌≡◌, ◌+◌, ◌-◌, ◌<◌, ◌≤◌, ◌↔◌, IsTrue, MatchOption, pos, length, map};
ghost use Rattle.arrow_core.specs.Numbers.{IsNegative, IsIndex};
ghost use Rattle.arrow_array.specs.Offsets.{AreRising, IsOffsets, offset_at, part};

use arrow_core::Offset;

/// Offset `k`, or `None` where it is negative.
fn checked_offset<O: Offset>(offsets: &[O], k: usize) -> Option<usize>
    requires { k < length offsets.now }
    ensures { MatchOption result (IsNegative (offset_at (map O.number offsets.now) k))
        (λ n. offset_at (map O.number offsets.now) k ≡ pos n) }
{
    offsets[k].checked_to_usize()
}

/// Offset `k`, which isn't negative.
pub(crate) fn offset<O: Offset>(offsets: &[O], k: usize) -> usize
    requires within { k < length offsets.now }
    requires index { IsIndex (offset_at (map O.number offsets.now) k) }
    ensures { offset_at (map O.number offsets.now) k ≡ pos result }
{
    offsets[k].to_usize()
}

/// Where part `k` of a buffer of `len` items begins and ends.
pub(crate) fn part_bounds<O: Offset>(offsets: &[O], k: usize, len: usize) -> (usize, usize)
    requires offsets { IsOffsets (map O.number offsets.now) len }
    requires within { k + 1 < length offsets.now }
    ensures order { result.0 ≤ result.1 }
    ensures within { result.1 ≤ len }
    ensures start { offset_at (map O.number offsets.now) k ≡ pos result.0 }
    ensures end { offset_at (map O.number offsets.now) (k + 1) ≡ pos result.1 }
{
    let start = offset(offsets, k);
    let end = offset(offsets, k + 1);
    (start, end)
}

/// Where the parts of a buffer of `len` items begin and end, taken together.
pub(crate) fn whole_bounds<O: Offset>(offsets: &[O], len: usize) -> (usize, usize)
    requires { IsOffsets (map O.number offsets.now) len }
    ensures order { result.0 ≤ result.1 }
    ensures within { result.1 ≤ len }
    ensures start { offset_at (map O.number offsets.now) 0 ≡ pos result.0 }
    ensures end { offset_at (map O.number offsets.now) (length offsets.now - 1) ≡ pos result.1 }
{
    let start = offset(offsets, 0);
    let end = offset(offsets, offsets.len() - 1);
    (start, end)
}

/// Part `k` of the values.
pub(crate) fn part_of<'a, O: Offset, T>(offsets: &[O], values: &'a [T], k: usize) -> &'a [T]
    requires offsets { IsOffsets (map O.number offsets.now) (length values.now) }
    requires within { k + 1 < length offsets.now }
    ensures { result.now ≡ part (map O.number offsets.now) values.now k }
{
    let (start, end) = part_bounds(offsets, k, values.len());
    &values[start..end]
}

/// Whether these are offsets into some number of items: at least one, none negative, and none
/// below the one before.
pub(crate) fn are_rising<O: Offset>(offsets: &[O]) -> bool
    ensures { IsTrue result ↔ AreRising (map O.number offsets.now) }
{
    if offsets.is_empty() {
        return false;
    }
    let mut before = 0;
    for i in 0..offsets.len() {
        match checked_offset(offsets, i) {
            None => return false,
            Some(here) => {
                if here < before {
                    return false;
                }
                before = here;
            }
        }
    }
    true
}

/// Whether offsets that don't fall are offsets into a buffer of `len` items: the last isn't past
/// the end, and so none is.
pub(crate) fn end_within<O: Offset>(offsets: &[O], len: usize) -> bool
    requires { AreRising (map O.number offsets.now) }
    ensures { IsTrue result ↔ IsOffsets (map O.number offsets.now) len }
{
    offset(offsets, offsets.len() - 1) <= len
}

/// Whether these are offsets into a buffer of `len` items: at least one, none negative, none
/// below the one before, and none past the end.
pub(crate) fn are_offsets<O: Offset>(offsets: &[O], len: usize) -> bool
    ensures { IsTrue result ↔ IsOffsets (map O.number offsets.now) len }
{
    if !are_rising(offsets) {
        return false;
    }
    end_within(offsets, len)
}
