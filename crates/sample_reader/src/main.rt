//! `sample_reader`: the rows of Avro files that other programs wrote, as JSON lines on standard output.
//! Its arguments are the files' names. What is wrong is told on standard error.
#![tactic(auto)]

use arrow_base::{Error, Result, StdSink, StdSource};
use arrow_convert::avro_to_ndjson;
use std::env;
use std::fs::File;
use std::io::BufReader;
use std::process::ExitCode;

/// The fields that are shown. The second field of a card is of a fixed type, which has no JSON text.
const SHOWN: [usize; 3] = [0, 2, 3];

/// How many bytes a file may have.
const BYTE_LIMIT: u64 = 4096;

/// Writes the rows of a file, and answers how many they are. The errors are those of
/// `avro_to_ndjson`; `ReadFault` also where the file can't be opened.
fn show(rt: &HostRuntime, name: &str) -> Result<u64> {
    let Ok(file) = File::open(rt, name) else {
        return Err(Error::ReadFault { line: None });
    };
    let Ok(reader) = BufReader::new(rt.alloc(), file) else {
        return Err(Error::OutOfMemory);
    };
    let mut source = StdSource::new(reader);
    let mut sink = StdSink::new(rt.stdout());
    avro_to_ndjson(
        rt.alloc(),
        &mut source,
        &mut sink,
        Some(SHOWN.as_slice()),
        BYTE_LIMIT,
    )
}

fn main(rt: HostRuntime) -> ExitCode {
    let Ok(arguments) = env::args(&rt) else {
        return ExitCode::FAILURE;
    };
    for name in arguments.skip(1) {
        if let Err(error) = show(&rt, name.as_str()) {
            // Where this can't be told either, the status tells it.
            let _ = eprintln!(rt; "{name}: {error}");
            return ExitCode::from(error.status());
        }
    }
    ExitCode::SUCCESS
}
