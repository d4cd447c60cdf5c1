//! The schema of an Avro file.

ghost use Rattle.std.specs.Prelude.{◌≡◌, ◌≤◌, IfOk, IfErr};
ghost use Rattle.avro_container.specs.ReadHeader.{change};
ghost use Rattle.avro_file.specs.Metadata.{MetadataFails};
ghost use Rattle.avro_inspect.specs.Stated.{StatesSchema};

use arrow_base::{Bytes, Result, Source};
use avro_file::{read_metadata, record_text};
use std::alloc::Global;

/// Reads the header of an Avro file (Avro 1.11, "Object Container Files"), and answers the text of
/// its schema as `record_text` writes it: so attributes that a schema here doesn't keep, such as
/// aliases and defaults, are left out. No byte is taken past the header, and at most `byte_limit`
/// bytes, and one more where the answer is `LimitExceeded`. The errors are those of `read_metadata`.
pub fn schema_of<S: Source>(alloc: Global, source: &mut S, byte_limit: u64) -> Result<Bytes>
    ensures ok { IfOk result (StatesSchema
        (change S.left S.faults source.old source.new byte_limit)) }
    ensures err { IfErr result (MetadataFails
        (change S.left S.faults source.old source.new byte_limit)) }
    ensures never_falls { S.faults source.old ≤ S.faults source.new }
    ensures same { S.identity source.new ≡ S.identity source.old }
{
    let (metadata, _) = read_metadata(alloc, source, byte_limit)?;
    record_text(alloc, &metadata.root)
}
