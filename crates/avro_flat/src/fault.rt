//! Why a value isn't decoded.

ghost use Rattle.std.specs.Prelude.{◌≡◌, IsOk, IfErr, OnOk, OnErr};
ghost use Rattle.arrow_core.specs.Errors.{OnlyOutOfMemory};
ghost use Rattle.avro_flat.specs.Decoding.{HasMemory};

use arrow_core::Error;

/// Why a value isn't decoded, in one byte.
#[derive(Clone, Copy, PartialEq, Eq, Debug)]
pub enum DecodeFault {
    /// The bytes aren't the value that the schema asks for.
    Bytes,
    /// There is no memory.
    Memory,
}

/// The answer of a push that only out of memory can refuse, as the decoder tells it.
#[inline(always)]
pub fn pushed(answer: Result<(), Error>) -> Result<(), DecodeFault>
    requires memory { OnlyOutOfMemory answer }
    ensures ok { OnOk result (OnErr answer ⊥) }
    ensures err { IfErr result (λ e. e ≡ DecodeFault.Memory) }
    ensures answered { IsOk answer → HasMemory result }
{
    match answer {
        Ok(()) => Ok(()),
        Err(_) => Err(DecodeFault::Memory),
    }
}
