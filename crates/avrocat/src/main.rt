//! `avrocat`: Avro blocks and files as lines, files in their canonical form, JSON lines as Avro
//! files, the type of JSON lines, and what a file holds.
#![tactic(auto)]

ghost use Rattle.std.specs.Prelude.{◌≡◌, [], length, map, drop, string_bytes, IfOk, IfErr, IsErr};
ghost use Rattle.std.specs.IoError.{error_kind};
ghost use Rattle.std.specs.Vec.Iter.{into_iter_items, into_iter_len};
ghost use Rattle.std.specs.declared.io.ErrorKind.TheVariants.{OutOfMemory};

#[cfg(test)]
mod avro_tests;
#[cfg(test)]
mod fields_tests;
#[cfg(test)]
mod files_tests;
#[cfg(test)]
mod infer_tests;
#[cfg(test)]
mod lines_tests;
#[cfg(test)]
mod make_tests;
#[cfg(test)]
mod ndjson_tests;
#[cfg(test)]
mod rewrite_tests;
#[cfg(test)]
mod tests;
#[cfg(test)]
mod whole_files_tests;

use arrow_base::{Error, StdSink, StdSource, Text};
use avrocat_commands::{exit_status, run};
use std::alloc::{AllocError, Global};
use std::env::{self, Args};
use std::io::{self, BufReader, ErrorKind};
use std::process::ExitCode;

/// How many bytes are read from standard input at once.
const READ_AT_ONCE: usize = 65_536;

/// The words: the arguments after the program's name, or none where one of them is no text.
fn words_of(alloc: Global, given: io::Result<Args>) -> Result<Vec<Text>, AllocError>
    // std doesn't say of an iterator that its length is that of its items.
    ensures words { IfOk given (λ arguments. into_iter_len arguments
        ≡ length (into_iter_items arguments)
        → IfOk result (λ words. words.items
        ≡ map string_bytes (drop 1 (into_iter_items arguments)))) }
    ensures none { IfErr given (λ _. IfOk result (λ words. words.items ≡ [])) }
    ensures memory { IfErr given (λ error. IsErr result → error_kind error ≡ OutOfMemory) }
{
    let mut words = Vec::new(alloc);
    let arguments = match given {
        Ok(arguments) => arguments,
        Err(error) if error.kind() == ErrorKind::OutOfMemory => return Err(AllocError),
        Err(_) => return Ok(words),
    };
    for argument in arguments.skip(1) {
        match Text::try_from_str(alloc, argument.as_str()) {
            Ok(word) => words.push(word)?,
            Err(_) => return Err(AllocError),
        }
    }
    Ok(words)
}

fn main(rt: HostRuntime) -> ExitCode {
    let mut note = StdSink::new(rt.stderr());
    let Ok(words) = words_of(rt.alloc(), env::args(&rt)) else {
        return ExitCode::from(exit_status(&mut note, Err(Error::OutOfMemory)));
    };
    // The numbers of a file are taken byte by byte.
    let Ok(input) = BufReader::with_capacity(rt.alloc(), READ_AT_ONCE, rt.stdin()) else {
        return ExitCode::from(exit_status(&mut note, Err(Error::OutOfMemory)));
    };
    let mut source = StdSource::new(input);
    let mut sink = StdSink::new(rt.stdout());
    let status = run(
        rt.alloc(),
        words.as_slice(),
        &mut source,
        &mut sink,
        &mut note,
    );
    ExitCode::from(status)
}
