//! Where bytes go.
ghost use Rattle.std.specs.Prelude.{◌≡◌, ℕ, ◌<◌, ◌≤◌, List, Option, take, length, IfOk, OnOk, OnErr, IfErr};
ghost use Rattle.std.specs.Int.{IsInRange};
ghost use Rattle.std.specs.Io.KnownBytes.{Appends, Keeps};
ghost use Rattle.arrow_base.specs.Outside.{RoseOrFull, AppendsPrefix, last_count};

use crate::faults::Failed;
use arrow_core::{Error, Result};

/// What takes bytes in order: of those it is given the first at least, and as many more as it likes.
/// Contracts see the bytes taken, where it tells them, and a count of its failures.
pub trait Sink {
    // The bytes taken, where they are told.
    ghost held: { Self → Option (List ℕ) };

    // How often it failed, up to the last value of 64 bits.
    ghost faults: { Self → ℕ };

    // Which reference it is, where it is one.
    ghost identity: { Self → ℕ } = { λ _. 0 };

    /// Takes the first of the bytes, of which there is one at least, and answers how many, which is
    /// at least 1. `Failed` is answered only where the count of faults rose, or stands at its last
    /// value; no byte was taken then.
    fn write(&mut self, bytes: &[u8]) -> std::result::Result<usize, Failed>
        requires { 0 < length bytes.now }
        ensures count { IfOk result (IsInRange 1 (length bytes.now)) }
        ensures taken { IfOk result
            (λ n. Appends (held self.old) (held self.new) (take n bytes.now)) }
        ensures unchanged { OnErr result (Keeps (held self.old) (held self.new)) }
        ensures never_falls { faults self.old ≤ faults self.new }
        ensures cause { OnErr result (RoseOrFull (faults self.old) (faults self.new)) }
        ensures same { identity self.new ≡ identity self.old };

    ghost bounded: { (sink : Self) → faults sink ≤ last_count };
}

impl<S: Sink> Sink for &mut S {
    ghost held = { λ s. S.held s.now };

    ghost faults = { λ s. S.faults s.now };

    ghost identity = { λ s. s.ghost_name };

    fn write(&mut self, bytes: &[u8]) -> std::result::Result<usize, Failed> {
        (**self).write(bytes)
    }

    ghost bounded = { λ s. S.bounded s.now };
}

/// Writes all of the bytes, by as many writes as the sink needs. `WriteFault` comes where a write
/// failed; the sink then took a prefix of the bytes. Takes no memory.
pub fn write_all<K: Sink>(sink: &mut K, bytes: &[u8]) -> Result<()>
    ensures ok { OnOk result (Appends (K.held sink.old) (K.held sink.new) bytes.now) }
    ensures only { IfErr result (λ e. e ≡ Error.WriteFault) }
    ensures prefix { OnErr result (AppendsPrefix (K.held sink.old) (K.held sink.new) bytes.now) }
    ensures never_falls { K.faults sink.old ≤ K.faults sink.new }
    ensures cause { OnErr result (RoseOrFull (K.faults sink.old) (K.faults sink.new)) }
    ensures same { K.identity sink.new ≡ K.identity sink.old }
{
    let mut rest = bytes;
    while !rest.is_empty() {
        match sink.write(rest) {
            Ok(n) => rest = &rest[n..],
            Err(Failed) => return Err(Error::WriteFault),
        }
    }
    Ok(())
}
