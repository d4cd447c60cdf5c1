//! Writers of std as sinks.
ghost use Rattle.std.specs.Prelude.{◌≡◌, ◌<◌, ◌≤◌, None, take, length, is_err, IfOk, OnErr};
ghost use Rattle.std.specs.Int.{IsInRange};
ghost use Rattle.std.specs.Io.KnownBytes.{Appends};
ghost use Rattle.arrow_base.specs.Outside.{RoseOrFull, counted};

use crate::faults::{Failed, Faults};
use crate::sink::Sink;
use std::io::Write;

/// A real writer as a sink, which is flushed after each write. It tells no bytes. A writer that
/// takes nothing has failed.
#[derive(Drop)]
pub struct StdSink<W> {
    writer: W,
    faults: Faults,
}

impl<W: Write> StdSink<W> {
    /// A sink over the writer. Nothing is written: the writer's contents are as they were.
    pub fn new(writer: W) -> StdSink<W>
        ensures contents { W.contents result.writer ≡ W.contents writer }
        ensures no_fault_yet { ⟦<StdSink<W> as Sink>⟧.faults result ≡ 0 }
    {
        StdSink {
            writer,
            faults: Faults::new(),
        }
    }
}

impl<W: Write> Sink for StdSink<W> {
    ghost held = { λ _. None };

    ghost faults = { λ s. s.faults.count };

    fn write(&mut self, bytes: &[u8]) -> std::result::Result<usize, Failed>
        requires { 0 < length bytes.now }
        ensures count { IfOk result (IsInRange 1 (length bytes.now)) }
        ensures never_falls { self.old.faults.count ≤ self.new.faults.count }
        ensures cause { OnErr result (RoseOrFull self.old.faults.count self.new.faults.count) }

        // What an Ok says was taken is what the writer took.
        ensures written { IfOk result
            (λ n. Appends (W.contents self.old.writer) (W.contents self.new.writer)
            (take n bytes.now)) }

        // The count rises at an error alone.
        ensures counted { self.new.faults.count ≡ counted (is_err result) self.old.faults.count }
    {
        match self.writer.write(bytes) {
            Ok(0) | Err(_) => Err(self.faults.fail()),
            Ok(n) => match self.writer.flush() {
                Ok(()) => Ok(n),
                Err(_) => Err(self.faults.fail()),
            },
        }
    }

    ghost bounded = { λ s. s.faults.fits };
}
