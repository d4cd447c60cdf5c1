//! What the program says of a command that it didn't carry out.
ghost use Rattle.std.specs.Prelude.{◌≡◌, ◌≤◌, ◌++◌, codes, OnOk, OnErr, IfErr};
ghost use Rattle.std.specs.Io.KnownBytes.{Appends};
ghost use Rattle.arrow_base.specs.Outside.{AppendsPrefix, RoseOrFull};
ghost use Rattle.arrow_core.specs.declared.error.Error.TheVariants.{WriteFault};
ghost use Rattle.avrocat_commands.specs.Note.{usage_note, error_note, note_line};

use arrow_base::{Error, Result, Sink, write_all};
use itoa::Buffer;

/// Writes the note of words that are no command. `WriteFault` comes where a write failed; the sink
/// then took a prefix of the note.
pub fn note_usage<N: Sink>(note: &mut N) -> Result<()>
    ensures ok { OnOk result (Appends (N.held note.old) (N.held note.new) usage_note) }
    ensures prefix { OnErr result (AppendsPrefix (N.held note.old) (N.held note.new) usage_note) }
    ensures only { IfErr result (λ e. e ≡ WriteFault) }
    ensures cause { OnErr result (RoseOrFull (N.faults note.old) (N.faults note.new)) }
    ensures never_falls { N.faults note.old ≤ N.faults note.new }
{
    write_all(note, b"avrocat: usage\n")
}

/// Writes the note of an error: its name, then its reason or line where it has one. `WriteFault`
/// comes where a write failed; the sink then took a prefix of the note.
pub fn note_error<N: Sink>(note: &mut N, error: Error) -> Result<()>
    ensures ok { OnOk result (Appends (N.held note.old) (N.held note.new) (error_note error)) }
    ensures prefix { OnErr result (AppendsPrefix (N.held note.old) (N.held note.new)
        (error_note error)) }
    ensures only { IfErr result (λ e. e ≡ WriteFault) }
    ensures cause { OnErr result (RoseOrFull (N.faults note.old) (N.faults note.new)) }
    ensures never_falls { N.faults note.old ≤ N.faults note.new }
{
    let name = error.name().as_bytes();
    match error {
        Error::InvalidArgumentError(reason)
        | Error::NotYetImplemented(reason)
        | Error::ExternalFormat(reason)
        | Error::OutOfSpec(reason) => write_line(note, name, b": ", reason.name().as_bytes()),
        Error::ReadFault { line: Some(line) } => {
            write_line(
                note,
                name,
                b": line ",
                Buffer::new().format(line).as_bytes(),
            )
        }
        _ => write_line(note, name, b"", b""),
    }
}

/// Writes the program's name, the error's name, a mark and a detail, and a line feed.
fn write_line<N: Sink>(note: &mut N, name: &[u8], mark: &[u8], detail: &[u8]) -> Result<()>
    ensures ok { OnOk result (Appends (N.held note.old) (N.held note.new)
        (note_line name.now mark.now detail.now)) }
    ensures prefix { OnErr result (AppendsPrefix (N.held note.old) (N.held note.new)
        (note_line name.now mark.now detail.now)) }
    ensures only { IfErr result (λ e. e ≡ WriteFault) }
    ensures cause { OnErr result (RoseOrFull (N.faults note.old) (N.faults note.new)) }
    ensures never_falls { N.faults note.old ≤ N.faults note.new }
{
    write_both(note, b"avrocat: ", name)?;
    write_both(note, mark, detail)?;
    write_all(note, b"\n")
}

/// Writes two runs of bytes, one after the other.
pub(crate) fn write_both<N: Sink>(note: &mut N, first: &[u8], second: &[u8]) -> Result<()>
    ensures ok { OnOk result (Appends (N.held note.old) (N.held note.new)
        (first.now ++ second.now)) }
    ensures prefix { OnErr result (AppendsPrefix (N.held note.old) (N.held note.new)
        (first.now ++ second.now)) }
    ensures only { IfErr result (λ e. e ≡ WriteFault) }
    ensures cause { OnErr result (RoseOrFull (N.faults note.old) (N.faults note.new)) }
    ensures never_falls { N.faults note.old ≤ N.faults note.new }
{
    write_all(note, first)?;
    write_all(note, second)
}
