//! Lent items, written to a sink as a JSON array (RFC 8259, section 5).
ghost use Rattle.std.specs.Prelude.{◌≡◌, ◌≤◌, ℕ, List, OnOk, IfErr};
ghost use Rattle.std.specs.Io.KnownBytes.{Appends};
ghost use Rattle.json_text.specs.JsonText.{array};
ghost use Rattle.json_write.specs.Written.{WritesArray, StopsArray};

use arrow_base::{Error, Result, Sink, write_all};
use lending::{FallibleStreamingIterator, write_joined};

/// Writes a JSON array of the items that the blocks show, as they stand: `[`, the items with commas
/// between them, and `]`. Condition: `advance` may be called on the blocks.
///
/// `WriteFault` where a write failed; the sink then took a prefix of `[` and some of the items, or,
/// where all of them came, of the whole array. The blocks' own error as it came; the sink then took
/// `[` and the items before it.
pub fn write<K: Sink, I: FallibleStreamingIterator<Error = Error>>(
    sink: &mut K,
    blocks: I,
) -> Result<()>
    requires { I.can_advance blocks }
    ensures shown { OnOk result
        (WritesArray I.step I.shown blocks (K.held sink.old) (K.held sink.new)) }
    ensures told { OnOk result
        ((items : List (List ℕ)) → I.items blocks items
        → Appends (K.held sink.old) (K.held sink.new) (array items)) }
    ensures err { IfErr result
        (StopsArray I.step I.shown blocks (K.held sink.old) (K.held sink.new) (K.faults sink.old)
        (K.faults sink.new)) }
    ensures never_falls { K.faults sink.old ≤ K.faults sink.new }
    ensures same { K.identity sink.new ≡ K.identity sink.old }
{
    if let Err(error) = write_all(sink, b"[") {
        return Err(error);
    }
    if let Err(error) = write_joined(sink, b',', blocks) {
        return Err(error);
    }
    write_all(sink, b"]")
}
