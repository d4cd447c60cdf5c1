//! Vectors of bytes as sinks.
ghost use Rattle.std.specs.Prelude.{◌≡◌};
ghost use Rattle.arrow_base.specs.Outside.{last_count};

use crate::faults::Failed;
use crate::sink::Sink;

/// A vector is a sink that grows in memory and tells its items. A write takes all of the bytes, and
/// fails only where there is no memory. It counts no faults: its count stands at the last value.
impl Sink for Vec<u8> {
    ghost use Rattle.std.specs.Prelude.{Some};
    ghost use Rattle.std.proofs.Common.{arith};

    ghost held = { λ v. Some v.items };

    ghost faults = { λ _. last_count };

    fn write(&mut self, bytes: &[u8]) -> std::result::Result<usize, Failed> {
        match self.extend_from_slice(bytes) {
            Ok(()) => Ok(bytes.len()),
            Err(_) => Err(Failed),
        }
    }

    ghost bounded = { λ _. Prim.omega arith };
}
