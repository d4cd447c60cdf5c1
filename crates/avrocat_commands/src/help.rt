//! The commands `help` and `version`: what the program says of itself.
ghost use Rattle.std.specs.Prelude.{OnOk, IfErr};
ghost use Rattle.std.specs.Io.KnownBytes.{Appends};
ghost use Rattle.avro_container.specs.Changes.{change_of};
ghost use Rattle.avrocat_commands.specs.Help.{help_text, version_text, BreaksOff};

use crate::note::write_both;
use arrow_base::{Result, Sink, write_all};

/// The program's version.
pub const VERSION: &str = "0.3.0";

/// What each command takes and gives.
pub const HELP: &str = "avrocat COMMAND WORD.. < INPUT > OUTPUT

avrocat reads standard input and writes standard output.

ndjson KEEP..              an Avro file into JSON lines, one for each row
    KEEP is the number of a field to keep, counted from 0; no KEEP keeps all.
    avrocat ndjson 2 0 < events.avro
avro NAME PER_BLOCK MARKER FIELD..    JSON lines into an Avro file
    NAME is that of the record, PER_BLOCK how many rows a block has, from 1,
    and MARKER 32 hexadecimal digits. Names are written as given. The file can
    be read back where the text of its schema has at most 128 brackets open at
    once: 41 records, each in the one before, are read, and 42 aren't.
    M=00112233445566778899aabbccddeeff
    avrocat avro r 100 $M 'id=long' 'user=string?' < events.ndjson > r.avro
rewrite NAME MARKER        an Avro file into its canonical form
    avrocat rewrite r $M < r.avro
infer                      the type of JSON lines
    avrocat infer < events.ndjson
count                      how many rows and blocks an Avro file has
    avrocat count < events.avro
schema                     the schema of an Avro file, as a JSON text
    avrocat schema < events.avro
fields                     the fields of an Avro file, one a line
    A line has the number of the field, its name, its TYPE, or - where no TYPE
    says it, and ndjson, or the reason why ndjson can't show it.
    avrocat fields < events.avro
block ROWS FIELD..         the columns of one block, a line for each field
block-large ROWS FIELD..   the same, by way of columns in large forms
    ROWS is how many rows the block has. A field with ~ before it is skipped.
    avrocat block 2 'a=int' '~b=string?' < two_rows.avroblock
make START ROWS            what ROWS rows that are drawn add up to
    START, up to 2147483647, is the state before the first draw. Nothing is
    read, and ROWS is at most 1000000.
    avrocat make 1 1000
help, --help, -h           this text
version, --version         the program's name and version

FIELD is NAME=TYPE, of letters, digits, _, - and . in NAME. TYPE is one of
these, then ? for a union with null first, or ! for one with null second:
    null boolean int long float double bytes string uuid duration
    date time-millis time-micros timestamp-millis timestamp-micros
    timestamp-nanos local-timestamp-millis local-timestamp-micros
    local-timestamp-nanos
    fixed(N)                         N bytes
    decimal(P,S) decimal(P,S,N)      P digits, S of them after the point
    [TYPE]                           an array
    {NAME=TYPE;NAME=TYPE}            a record
    <NAME,NAME>                      an enum

Exit status, with a line on standard error for each but 0:
    0  the command was carried out
    1  the words are no command
    2  a KEEP, a name, a date's year or a null that doesn't fit the fields
    3  a type, a schema or a codec that the command doesn't take
    4  bytes or texts that aren't of their format
    5  a skipped array that states a size below 0
    6  a number, or a count of symbols or items, that is too great
    7  more than 1073741824 bytes, or 129 brackets open at once
    8  a read failed
    9  a write failed
    10 out of memory
";

/// Writes what each command takes and gives. `WriteFault` alone; the sink then took a prefix.
pub fn run_help<K: Sink>(sink: &mut K) -> Result<()>
    ensures done { OnOk result (Appends (K.held sink.old) (K.held sink.new) help_text) }
    ensures fails { IfErr result (BreaksOff help_text
        (change_of (K.held sink.old) (K.faults sink.old) (K.held sink.new) (K.faults sink.new))) }
{
    write_all(sink, HELP.as_bytes())
}

/// Writes the program's name and version. `WriteFault` alone; the sink then took a prefix.
pub fn run_version<K: Sink>(sink: &mut K) -> Result<()>
    ensures done { OnOk result (Appends (K.held sink.old) (K.held sink.new) version_text) }
    ensures fails { IfErr result (BreaksOff version_text
        (change_of (K.held sink.old) (K.faults sink.old) (K.held sink.new) (K.faults sink.new))) }
{
    write_both(sink, b"avrocat ", VERSION.as_bytes())?;
    write_all(sink, b"\n")
}
