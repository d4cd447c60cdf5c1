//! What is answered where rows aren't shown without columns.
use std::alloc::AllocError;

/// The rows are to be read into columns. It may be answered at any time, and says nothing of the
/// bytes.
#[derive(Clone, Copy, PartialEq, Eq, Debug)]
pub struct GivenUp;

impl From<AllocError> for GivenUp {
    fn from(_error: AllocError) -> GivenUp {
        GivenUp
    }
}
