//! Headers and blocks into a sink.
ghost use Rattle.std.specs.Prelude.{◌≡◌, ◌<◌, ◌≤◌, ◌^◌, length, OnOk, OnErr, IfErr};
ghost use Rattle.std.specs.Io.KnownBytes.{Appends};
ghost use Rattle.arrow_base.specs.Outside.{RoseOrFull, AppendsPrefix};
ghost use Rattle.avro_container.specs.Canonical.{canonical_block, canonical_header};
ghost use Rattle.avro_container.specs.File.{the_block};

use crate::encoded::EncodedNumber;
use arrow_base::{Error, Result, Sink, write_all};
use avro_schema::Block;

/// Writes a block of a file (Avro 1.11, "Object Container Files"): its count of rows, its size, its
/// bytes and the marker. The count and the size are at most 2^63 - 1. `WriteFault` where a write
/// failed; the sink then took a prefix. It takes no memory.
pub fn write_block<K: Sink>(sink: &mut K, block: &Block, marker: [u8; 16]) -> Result<()>
    requires count { block.now.number_of_rows < 2 ^ 63 }
    requires size { length block.now.bytes < 2 ^ 63 }
    ensures ok { OnOk result (Appends (K.held sink.old) (K.held sink.new)
        (canonical_block marker (the_block block.now.number_of_rows block.now.bytes))) }
    ensures only { IfErr result (λ e. e ≡ Error.WriteFault) }
    ensures prefix { OnErr result (AppendsPrefix (K.held sink.old) (K.held sink.new)
        (canonical_block marker (the_block block.now.number_of_rows block.now.bytes))) }
    ensures never_falls { K.faults sink.old ≤ K.faults sink.new }
    ensures cause { OnErr result (RoseOrFull (K.faults sink.old) (K.faults sink.new)) }
    ensures same { K.identity sink.new ≡ K.identity sink.old }
{
    let bytes = block.bytes.as_slice();
    let count = EncodedNumber::of(block.number_of_rows as i64);
    let size = EncodedNumber::of(bytes.len() as i64);
    write_all(sink, count.as_slice())?;
    write_all(sink, size.as_slice())?;
    write_all(sink, bytes)?;
    write_all(sink, marker.as_slice())?;
    Ok(())
}

/// Writes the header of a file (Avro 1.11, "Object Container Files") that has one entry, the text of
/// a schema, which is at most 2^63 - 1 bytes. `WriteFault` where a write failed; the sink then took
/// a prefix. It takes no memory.
pub fn write_header<K: Sink>(sink: &mut K, text: &[u8], marker: [u8; 16]) -> Result<()>
    requires { length text.now < 2 ^ 63 }
    ensures ok { OnOk result (Appends (K.held sink.old) (K.held sink.new)
        (canonical_header text.now marker)) }
    ensures only { IfErr result (λ e. e ≡ Error.WriteFault) }
    ensures prefix { OnErr result (AppendsPrefix (K.held sink.old) (K.held sink.new)
        (canonical_header text.now marker)) }
    ensures never_falls { K.faults sink.old ≤ K.faults sink.new }
    ensures cause { OnErr result (RoseOrFull (K.faults sink.old) (K.faults sink.new)) }
    ensures same { K.identity sink.new ≡ K.identity sink.old }
{
    let size = EncodedNumber::of(text.len() as i64);
    write_all(sink, b"Obj\x01\x02\x16avro.schema")?;
    write_all(sink, size.as_slice())?;
    write_all(sink, text)?;
    write_all(sink, b"\x00")?;
    write_all(sink, marker.as_slice())?;
    Ok(())
}
