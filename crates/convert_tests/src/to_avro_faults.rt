//! JSON lines into Avro files: each error, where it comes, and what is written then.

use crate::columns::{How, PLAIN, column, convert, field, gives, is_refused, joined, schema};
use crate::files::{BLOCK, HEADER};
use crate::line_files::{MINUS_TWO, ONE};
use arrow_base::{Error, Reason};
use arrow_core::{DataType, Schema, TimeUnit};
use std::alloc::Global;
use std::process::Abort;

/// Whether columns are refused with nothing written.
fn cannot_be_written(rt: &impl Abort, alloc: Global, columns: Schema, error: Error) -> bool {
    // Nothing is read: the first read would fail.
    let how = How {
        failing_read: 1,
        ..PLAIN
    };
    let is_refused = gives(rt, alloc, b"{}", &columns, how, Err(error), &[]);
    drop(columns);
    is_refused
}

#[test]
fn columns_are_refused_before_anything_is_read(rt: HostRuntime) {
    let alloc = rt.alloc();
    let a = field(&rt, alloc, "a", DataType::Float32, false);
    let again = field(&rt, alloc, "a", DataType::UInt8, false);
    let twice = schema(alloc, vec![in alloc; a, again].expect(&rt, "memory"));
    let name = Error::InvalidArgumentError(Reason::DuplicateName);
    assert!(rt; cannot_be_written(&rt, alloc, twice, name));
    let none = schema(alloc, Vec::new(alloc));
    assert!(rt; cannot_be_written(&rt, alloc, none, Error::NotYetImplemented(Reason::NoField)));
    let no_type = Error::NotYetImplemented(Reason::NoAvroType);
    let byte = column(&rt, alloc, DataType::UInt8);
    assert!(rt; cannot_be_written(&rt, alloc, byte, no_type));
    let null = column(&rt, alloc, DataType::Null);
    assert!(rt; cannot_be_written(&rt, alloc, null, no_type));
    let float = column(&rt, alloc, DataType::Float32);
    let no_reading = Error::NotYetImplemented(Reason::NoJsonReading);
    assert!(rt; cannot_be_written(&rt, alloc, float, no_reading));
}

#[test]
fn a_faulty_row_leaves_the_batches_before(rt: HostRuntime) {
    let alloc = rt.alloc();
    let past = b"{\"a\":1e400}";
    assert!(rt; is_refused(&rt, alloc, past, PLAIN, Error::Overflow, &[HEADER]));
    let null = Error::InvalidArgumentError(Reason::NullUnderRequired);
    assert!(rt; is_refused(&rt, alloc, b"{\"b\":1}", PLAIN, null, &[HEADER]));
    let other = Error::ExternalFormat(Reason::NotAnObject);
    assert!(rt; is_refused(&rt, alloc, b"3", PLAIN, other, &[HEADER]));
    let pair = How {
        rows_per_block: 2,
        ..PLAIN
    };
    let lines = b"{\"a\":1}\n{\"a\":-2}\n{\"a\":1}\n{\"a\":null}\n";
    assert!(rt; is_refused(&rt, alloc, lines, pair, null, &[HEADER, BLOCK]));
    let text = column(&rt, alloc, DataType::Timestamp(TimeUnit::Microsecond, None));
    let moment = convert(&rt, alloc, b"{\"a\":\"now\"}\n{}", &text, PLAIN);
    let refused = Err(Error::NotYetImplemented(Reason::TextTimestamp));
    assert!(rt; moment.answer == refused);
    drop((text, moment));
}

#[test]
fn each_fault_is_sought_in_the_whole_batch(rt: HostRuntime) {
    let alloc = rt.alloc();
    let utf8 = Error::ExternalFormat(Reason::Utf8Line);
    let json = Error::ExternalFormat(Reason::Json);
    let other = Error::ExternalFormat(Reason::NotAnObject);
    let lines = b"{}\n3\n{\n\xff\n";
    assert!(rt; is_refused(&rt, alloc, lines, PLAIN, utf8, &[HEADER]));
    assert!(rt; is_refused(&rt, alloc, b"{}\n3\n{\n", PLAIN, json, &[HEADER]));
    assert!(rt; is_refused(&rt, alloc, b"{}\n3\n", PLAIN, other, &[HEADER]));
    let short = How { limit: 4, ..PLAIN };
    assert!(rt;
        is_refused(
            &rt,
            alloc,
            b"{}\n3\n",
            short,
            Error::LimitExceeded,
            &[HEADER]
        )
    );
}

#[test]
fn a_failed_read_leaves_the_batches_before(rt: HostRuntime) {
    let alloc = rt.alloc();
    let single = How {
        rows_per_block: 1,
        ..PLAIN
    };
    // A read gives no byte past a line feed: one for each line, and one for the end.
    let held: [&[&[u8]]; 3] = [&[HEADER], &[HEADER, ONE], &[HEADER, ONE, MINUS_TWO]];
    for k in 0..3 {
        let how = How {
            failing_read: k as u64 + 1,
            ..single
        };
        let failed = Error::ReadFault {
            line: Some(k as u64 + 1),
        };
        assert!(rt; is_refused(&rt, alloc, b"{\"a\":1}\n{\"a\":-2}\n", how, failed, held[k]));
    }
}

#[test]
fn a_failing_write_leaves_a_prefix(rt: HostRuntime) {
    let alloc = rt.alloc();
    let file = joined(&rt, alloc, &[HEADER, BLOCK]);
    let int = column(&rt, alloc, DataType::Int32);
    for before in 0..file.as_slice().len() {
        let how = How {
            piece: 1,
            failing_write: before as u64 + 1,
            ..PLAIN
        };
        let held = file.as_slice().get(..before).unwrap_or(b"");
        let fault = Err(Error::WriteFault);
        let lines = b"{\"a\":1}\n{\"a\":-2}\n";
        assert!(rt;
            gives(&rt, alloc, lines, &int, how, fault, &[held]),
            "{before}"
        );
    }
    drop((file, int));
}
