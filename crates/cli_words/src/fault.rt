//! Why words can't be carried out.

use std::alloc::{AllocError, AllocFailed};
use thiserror::Error;

/// Why words are no command that can be carried out.
#[derive(Debug, Drop, Error)]
pub enum WordsFault {
    /// They are no command.
    #[error("the words are no command")]
    Usage,
    /// There is no memory for what they say.
    #[error("there is no memory for the words")]
    Memory,
}

impl From<AllocError> for WordsFault {
    ghost use Rattle.std.specs.Prelude.{◌≡◌};
    ghost use Rattle.cli_words.specs.declared.fault.WordsFault.TheVariants.{Memory};

    ghost from_gives = { λ _ fault. fault ≡ Memory };

    fn from(_error: AllocError) -> WordsFault {
        WordsFault::Memory
    }
}

impl<T: Drop> From<AllocFailed<T>> for WordsFault {
    ghost use Rattle.std.specs.Prelude.{◌≡◌};
    ghost use Rattle.cli_words.specs.declared.fault.WordsFault.TheVariants.{Memory};

    ghost from_gives = { λ _ fault. fault ≡ Memory };

    fn from(_error: AllocFailed<T>) -> WordsFault {
        WordsFault::Memory
    }
}
