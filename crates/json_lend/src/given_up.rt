//! What is answered where a text isn't read the fast path.
use arrow_core::Error;
use json_tree::JsonFault;
use std::alloc::{AllocError, AllocFailed};

/// The text is to be read another way, which decides what is refused. It may be answered at any time,
/// and says nothing of the text.
#[derive(Clone, Copy, PartialEq, Eq, Debug)]
pub struct GivenUp;

impl From<Error> for GivenUp {
    fn from(_error: Error) -> GivenUp {
        GivenUp
    }
}

impl From<JsonFault> for GivenUp {
    fn from(_fault: JsonFault) -> GivenUp {
        GivenUp
    }
}

impl From<AllocError> for GivenUp {
    fn from(_error: AllocError) -> GivenUp {
        GivenUp
    }
}

impl<T: Drop> From<AllocFailed<T>> for GivenUp {
    fn from(_error: AllocFailed<T>) -> GivenUp {
        GivenUp
    }
}
