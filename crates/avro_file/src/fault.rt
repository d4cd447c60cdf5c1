//! Why bytes give no schema.

use arrow_core::{Error, Reason};
use std::alloc::{AllocError, AllocFailed};

/// Why bytes give no schema.
#[derive(Clone, Copy, PartialEq, Eq, Debug)]
pub enum SchemaTextFault {
    /// The bytes are no JSON text, or the JSON text is no schema.
    Form,
    /// The text is a schema, and gives a type by reference.
    Reference,
    /// The bytes begin as JSON texts do in which more than 128 brackets are open at once.
    Depth,
    /// There is no memory.
    Memory,
}

impl From<SchemaTextFault> for Error {
    ghost use Rattle.avro_file.specs.Reading.{IsErrorOf};

    ghost from_gives = { IsErrorOf };

    fn from(fault: SchemaTextFault) -> Error {
        match fault {
            SchemaTextFault::Form => Error::ExternalFormat(Reason::SchemaText),
            SchemaTextFault::Reference => Error::NotYetImplemented(Reason::TypeReference),
            SchemaTextFault::Depth => Error::LimitExceeded,
            SchemaTextFault::Memory => Error::OutOfMemory,
        }
    }
}

impl From<AllocError> for SchemaTextFault {
    ghost use Rattle.std.specs.Prelude.{◌≡◌};
    ghost use Rattle.avro_file.specs.declared.fault.SchemaTextFault.TheVariants.{Memory};

    ghost from_gives = { λ _ fault. fault ≡ Memory };

    fn from(_error: AllocError) -> SchemaTextFault {
        SchemaTextFault::Memory
    }
}

impl<T: Drop> From<AllocFailed<T>> for SchemaTextFault {
    ghost use Rattle.std.specs.Prelude.{◌≡◌};
    ghost use Rattle.avro_file.specs.declared.fault.SchemaTextFault.TheVariants.{Memory};

    ghost from_gives = { λ _ fault. fault ≡ Memory };

    fn from(_error: AllocFailed<T>) -> SchemaTextFault {
        SchemaTextFault::Memory
    }
}
