//! Buffers of values, which arrays share (Arrow columnar format, "Buffers").
ghost use Rattle.std.specs.Prelude.{◌≡◌, ◌+◌, ◌<◌, ◌≤◌, length, take, drop, IfOk};
ghost use Rattle.arrow_core.specs.Errors.{OnlyOutOfMemory};
ghost use Rattle.arrow_core.specs.declared.error.Error.TheVariants.{OutOfMemory};

use arrow_core::Result;
use std::marker::Model;
use std::sync::ArcSlice;

/// Values side by side in shared memory. A slice of a buffer is fewer values of the same memory.
#[derive(Drop)]
pub(crate) struct Buffer<T> {
    values: ArcSlice<T>,
    start: usize,
    count: usize,
}

impl<T> Model for Buffer<T> {
    ghost use Rattle.std.specs.Prelude.{List, ◌+◌, ◌^◌, ◌<◌, ◌≤◌, length, take, drop};
    ghost use Rattle.std.specs.Coded.{coded_list};
    ghost use Rattle.std.specs.Arc.{arc_slice_items};

    ghost Value = { List T };

    ghost coded = { coded_list T.code };

    ghost view = { λ b. take b.count (drop b.start (arc_slice_items b.values)) };

    ghost invariant = { λ b. (b.start + b.count ≤ length (arc_slice_items b.values))
        × (b.start + b.count < 2 ^ 64) };
}

/// The `count` values from index `start` on.
pub(crate) fn run_of<T>(values: &[T], start: usize, count: usize) -> &[T]
    requires { start + count ≤ length values.now }
    ensures { result.now ≡ take count (drop start values.now) }
{
    &values[start..start + count]
}

impl<T: Drop> Buffer<T> {
    /// The buffer of these values, which it keeps.
    ///
    /// `OutOfMemory` where no count of owners can be allocated.
    pub(crate) fn try_from_vec(values: Vec<T>) -> Result<Buffer<T>>
        ensures values { IfOk result (λ b. b ≡ values.items) }
        ensures memory { OnlyOutOfMemory result }
    {
        let count = values.len();
        let values = ArcSlice::from_vec(values)?;
        Ok(Buffer {
            values,
            start: 0,
            count,
        })
    }

    /// How many values there are.
    pub(crate) fn len(&self) -> usize
        ensures { result ≡ length self.now }
    {
        self.count
    }

    /// The values.
    pub(crate) fn as_slice(&self) -> &[T]
        ensures { result.now ≡ self.now }
    {
        run_of(self.values.as_slice(), self.start, self.count)
    }

    /// The same values, in the same memory.
    ///
    /// `OutOfMemory` where the memory has too many owners.
    pub(crate) fn try_clone(&self) -> Result<Buffer<T>>
        ensures values { IfOk result (λ b. b ≡ self.now) }
        ensures memory { OnlyOutOfMemory result }
    {
        let values = self.values.clone()?;
        Ok(Buffer {
            values,
            start: self.start,
            count: self.count,
        })
    }

    /// The `count` values from index `offset` on, in the same memory.
    ///
    /// `OutOfMemory` where the memory has too many owners.
    pub(crate) fn slice(&self, offset: usize, count: usize) -> Result<Buffer<T>>
        requires { offset + count ≤ length self.now }
        ensures values { IfOk result (λ b. b ≡ take count (drop offset self.now)) }
        ensures memory { OnlyOutOfMemory result }
    {
        let values = self.values.clone()?;
        Ok(Buffer {
            values,
            start: self.start + offset,
            count,
        })
    }

    /// The `count` values from index `offset` on, and the one after them, in the same memory.
    ///
    /// `OutOfMemory` where the memory has too many owners.
    pub(crate) fn slice_and_next(&self, offset: usize, count: usize) -> Result<Buffer<T>>
        requires { offset + count < length self.now }
        ensures values { IfOk result (λ b. b ≡ take (count + 1) (drop offset self.now)) }
        ensures memory { OnlyOutOfMemory result }
    {
        let values = self.values.clone()?;
        Ok(Buffer {
            values,
            start: self.start + offset,
            count: count + 1,
        })
    }
}
