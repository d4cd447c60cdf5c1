//! Builders that can be made without being told a data type.

ghost use Rattle.std.specs.Prelude.{◌≡◌, IfOk};
ghost use Rattle.arrow_core.specs.Errors.{OnlyOutOfMemory};

use arrow_core::Result;
use std::alloc::Global;

/// A builder whose plain data type is known from its kind.
pub trait Container: Sized {
    // an empty builder of the plain type
    ghost is_new: { Self → Type 0 };

    /// An empty builder of the kind's plain type. Of the capacity nothing is promised.
    fn with_capacity(alloc: Global, capacity: usize) -> Result<Self>
        ensures ok { IfOk result is_new }
        ensures err { OnlyOutOfMemory result };
}
