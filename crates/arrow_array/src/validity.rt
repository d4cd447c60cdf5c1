//! A validity bitmap, which may be missing (Arrow columnar format, "Validity bitmaps").
ghost use Rattle.std.specs.Prelude.{◌≡◌, ◌+◌, ◌<◌, ◌≤◌, ◌↔◌, IsTrue, IfOk};
ghost use Rattle.arrow_core.specs.Errors.{OnlyOutOfMemory};
ghost use Rattle.arrow_core.specs.declared.error.Error.TheVariants.{OutOfMemory};
ghost use Rattle.arrow_array.specs.Parts.{IsCutOf, IsValidityOf};
ghost use Rattle.arrow_array.specs.Slots.{valid_at};

use crate::Bitmap;
use crate::drops::both;
use arrow_core::{DataType, Result};
use std::alloc::Global;

/// Whether a validity that is given has this length.
pub(crate) fn fits(validity: &Option<Bitmap>, len: usize) -> bool
    ensures { IsTrue result ↔ IsValidityOf validity.now len }
{
    match validity {
        None => true,
        Some(bitmap) => bitmap.len() == len,
    }
}

/// Whether slot `i` isn't null.
pub(crate) fn is_valid(validity: &Option<Bitmap>, len: usize, i: usize) -> bool
    requires fits { IsValidityOf validity.now len }
    requires within { i < len }
    ensures { result ≡ valid_at validity.now i }
{
    match validity {
        None => true,
        Some(bitmap) => bitmap.get(i),
    }
}

/// The `count` values from index `offset` on, of a validity that is given.
///
/// `OutOfMemory` alone.
pub(crate) fn slice(
    validity: &Option<Bitmap>,
    len: usize,
    offset: usize,
    count: usize,
) -> Result<Option<Bitmap>>
    requires fits { IsValidityOf validity.now len }
    requires within { offset + count ≤ len }
    ensures cut { IfOk result (IsCutOf validity.now offset count) }
    ensures memory { OnlyOutOfMemory result }
{
    match validity {
        None => Ok(None),
        Some(bitmap) => Ok(Some(bitmap.slice(offset, count)?)),
    }
}

/// The data type, and the `count` values from index `offset` on of a validity that is given.
///
/// `OutOfMemory` alone.
pub(crate) fn slice_with_type(
    alloc: Global,
    data_type: &DataType,
    validity: &Option<Bitmap>,
    len: usize,
    offset: usize,
    count: usize,
) -> Result<(DataType, Option<Bitmap>)>
    requires fits { IsValidityOf validity.now len }
    requires within { offset + count ≤ len }
    ensures data_type { IfOk result (λ p. p.0 ≡ data_type.now) }
    ensures cut { IfOk result (λ p. IsCutOf validity.now offset count p.1) }
    ensures memory { OnlyOutOfMemory result }
{
    both(
        data_type.try_clone(alloc),
        slice(validity, len, offset, count),
    )
}
