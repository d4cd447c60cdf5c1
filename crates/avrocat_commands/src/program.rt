//! The program as a call: words, a source, and two sinks.
ghost use Rattle.std.specs.Prelude.{◌≡◌, ◌<◌, ◌⊎◌, ℕ, List, IfErr, OnOk, MatchResult};
ghost use Rattle.std.specs.Io.KnownBytes.{Keeps};
ghost use Rattle.arrow_core.specs.declared.error.Error.{Error as TheError};
ghost use Rattle.arrow_core.specs.Errors.{status_of};
ghost use Rattle.cli_words.specs.declared.command.Command.{Command as TheCommand};
ghost use Rattle.avro_container.specs.Changes.{change_of, Failed};
ghost use Rattle.avrocat_commands.specs.Commands.{Done, Fails, CanBeDone, Due, Refused};
ghost use Rattle.cli_words.specs.Stands.{Stands, IsUsage};
ghost use Rattle.avrocat_commands.specs.Note.{usage_note, error_note, Notes};

use crate::avro::run_avro;
use crate::block::run_block;
use crate::count::run_count;
use crate::fields::run_fields;
use crate::help::{run_help, run_version};
use crate::infer::run_infer;
use crate::make::run_make;
use crate::ndjson::run_ndjson;
use crate::note::{note_error, note_usage};
use crate::rewrite::run_rewrite;
use crate::schema::run_schema;
use arrow_base::{Error, Result, Sink, Source, Text};
use cli_words::{Command, WordsFault, read_words};
use std::alloc::Global;

/// The status where the words stand for no command.
const USAGE: u8 = 1;

/// Does all that the program does, and answers its exit status.
///
/// The status is 0 where the command was done, 1 where the words stand for no command, and else
/// that of the error by which it failed. Of a source whose bytes the contract knows and doesn't
/// fail: where the command can be done on these bytes the status is 0, unless the sink fails; a
/// wrong block, a file whose record's fields can't be shown or rewritten, fields whose rows can't
/// be written, and lines that have no type, have the status of their error. `ndjson`, `rewrite` and
/// `avro` write block by block, so 9, of a failed write, may come before a later fault. 10, out of
/// memory, may come at any time instead. With status 1 nothing is read or written. With any status
/// but 0 the note gets one line that names the fault; a note that fails holds a prefix of it and
/// changes no status.
pub fn run<S: Source, K: Sink, N: Sink>(
    alloc: Global,
    words: &[Text],
    source: &mut S,
    sink: &mut K,
    note: &mut N,
) -> u8
    ensures done { result ≡ 0 → (command : TheCommand) × Stands words.now command × Done command
        (change_of (S.left source.old) (S.faults source.old) (S.left source.new)
        (S.faults source.new))
        (change_of (K.held sink.old) (K.faults sink.old) (K.held sink.new) (K.faults sink.new)) }
    ensures silent { result ≡ 0 → Keeps (N.held note.old) (N.held note.new) }
    ensures usage { result ≡ 1 → IsUsage words.now }
    ensures usage_noted { result ≡ 1 → Notes
        (change_of (N.held note.old) (N.faults note.old) (N.held note.new) (N.faults note.new))
        usage_note }
    ensures unread { result ≡ 1 → Keeps (S.left source.old) (S.left source.new) }
    ensures unwritten { result ≡ 1 → Keeps (K.held sink.old) (K.held sink.new) }
    ensures refused { 1 < result → Refused result words.now
        (change_of (S.left source.old) (S.faults source.old) (S.left source.new)
        (S.faults source.new))
        (change_of (K.held sink.old) (K.faults sink.old) (K.held sink.new) (K.faults sink.new))
        (change_of (N.held note.old) (N.faults note.old) (N.held note.new) (N.faults note.new)) }

    // The other way round: which status comes where there is memory.
    ensures no_command { IsUsage words.now → (result ≡ 1) ⊎ (result ≡ 10) }
    ensures complete { (command : TheCommand) → Stands words.now command
        → CanBeDone command
        (change_of (S.left source.old) (S.faults source.old) (S.left source.new)
        (S.faults source.new))
        → (Failed (change_of (K.held sink.old) (K.faults sink.old) (K.held sink.new)
        (K.faults sink.new)) → ⊥)
        → (result ≡ 0) ⊎ (result ≡ 10) }
    ensures due { (command : TheCommand) (e : TheError) → Stands words.now command
        → Due command
        (change_of (S.left source.old) (S.faults source.old) (S.left source.new)
        (S.faults source.new))
        e
        → (result ≡ status_of e) ⊎ (result ≡ 10) }
{
    match read_words(alloc, words) {
        Ok(command) => exit_status(note, run_command(alloc, command, source, sink)),
        Err(WordsFault::Usage) => {
            let _ = note_usage(note);
            USAGE
        }
        Err(WordsFault::Memory) => exit_status(note, Err(Error::OutOfMemory)),
    }
}

/// Does what a command says.
fn run_command<S: Source, K: Sink>(
    alloc: Global,
    command: Command,
    source: &mut S,
    sink: &mut K,
) -> Result<()>
    requires { (words : List (List ℕ)) × Stands words command }
    ensures done { OnOk result (Done command
        (change_of (S.left source.old) (S.faults source.old) (S.left source.new)
        (S.faults source.new))
        (change_of (K.held sink.old) (K.faults sink.old) (K.held sink.new) (K.faults sink.new))) }
    ensures fails { IfErr result (Fails command
        (change_of (S.left source.old) (S.faults source.old) (S.left source.new)
        (S.faults source.new))
        (change_of (K.held sink.old) (K.faults sink.old) (K.held sink.new) (K.faults sink.new))) }
{
    match command {
        Command::Help => run_help(sink),
        Command::Version => run_version(sink),
        Command::Count => run_count(alloc, source, sink),
        Command::Schema => run_schema(alloc, source, sink),
        Command::Fields => run_fields(alloc, source, sink),
        Command::Block(block) => run_block(alloc, block, source, sink),
        Command::Ndjson(numbers) => run_ndjson(alloc, numbers, source, sink),
        Command::Make(make) => run_make(alloc, make, sink),
        Command::Infer => run_infer(alloc, source, sink),
        Command::Avro(avro) => run_avro(alloc, avro, source, sink),
        Command::Rewrite(rewrite) => run_rewrite(alloc, rewrite, source, sink),
    }
}

/// The status of a command's answer. An error is noted.
pub fn exit_status<N: Sink>(note: &mut N, answer: Result<()>) -> u8
    ensures { MatchResult answer
        (λ _. (result ≡ 0) × Keeps (N.held note.old) (N.held note.new))
        (λ e. (result ≡ status_of e) × Notes
        (change_of (N.held note.old) (N.faults note.old) (N.held note.new) (N.faults note.new))
        (error_note e)) }
{
    match answer {
        Ok(()) => 0,
        Err(error) => {
            let _ = note_error(note, error);
            error.status()
        }
    }
}
