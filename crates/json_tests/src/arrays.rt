//! Arrays as the items of a JSON array.

use crate::samples::{copied, days, longs, nulls};
use arrow_base::MemorySink;
use arrow_columns::Array;
use arrow_core::{Error, Items, Reason, Result};
use json_write::{Serializer, write};
use lending::FallibleStreamingIterator;
use std::alloc::Global;
use std::process::Abort;

/// 1 and 2, nothing, 3.
fn three(rt: &impl Abort, alloc: Global) -> Vec<Result<Array>> {
    let arrays = [
        Ok(longs(rt, alloc, &[1, 2])),
        Ok(longs(rt, alloc, &[])),
        Ok(longs(rt, alloc, &[3])),
    ];
    Vec::from_array(alloc, arrays).expect(rt, "memory")
}

#[test]
fn empty_arrays_are_passed_over(rt: HostRuntime) {
    let alloc = rt.alloc();
    let mut texts = Serializer::new(three(&rt, alloc).into_iter(), Vec::new(alloc));
    assert!(rt; texts.get() == None);
    assert!(rt; texts.size_hint() == (0, None));
    assert!(rt; texts.next() == Ok(Some(b"1,2".as_slice())));
    assert!(rt; texts.next() == Ok(Some(b"3".as_slice())));
    assert!(rt; texts.next() == Ok(None));
    assert!(rt; texts.next() == Ok(None));
    drop(texts);
}

#[test]
fn arrays_are_written_as_one(rt: HostRuntime) {
    let alloc = rt.alloc();
    let texts = Serializer::new(three(&rt, alloc).into_iter(), Vec::new(alloc));
    let none = Items::from_vec(Vec::new(alloc));
    let mut sink = MemorySink::with_room(alloc, 64, 2, none).expect(&rt, "memory");
    assert!(rt; write(&mut sink, texts) == Ok(()));
    assert!(rt; sink.held() == b"[1,2,3]".as_slice());
    drop(sink);
}

#[test]
fn no_bracket_closes_what_a_write_cut_off(rt: HostRuntime) {
    let alloc = rt.alloc();
    let texts = Serializer::new(three(&rt, alloc).into_iter(), Vec::new(alloc));
    let fifth = Items::from_vec(copied(&rt, alloc, &[5u64]));
    let mut sink = MemorySink::with_room(alloc, 64, 2, fifth).expect(&rt, "memory");
    assert!(rt; write(&mut sink, texts) == Err(Error::WriteFault));
    assert!(rt; sink.held() == b"[1,2,".as_slice());
    drop(sink);
}

/// A null, a day of the year 10000, a null.
fn refused(rt: &impl Abort, alloc: Global) -> Vec<Result<Array>> {
    let arrays = [
        Ok(nulls(rt, alloc)),
        Ok(days(rt, alloc, 2932897)),
        Ok(nulls(rt, alloc)),
    ];
    Vec::from_array(alloc, arrays).expect(rt, "memory")
}

#[test]
fn nothing_comes_after_an_error(rt: HostRuntime) {
    let alloc = rt.alloc();
    let mut texts = Serializer::new(refused(&rt, alloc).into_iter(), Vec::new(alloc));
    assert!(rt; texts.next() == Ok(Some(b"null".as_slice())));
    let error = Error::InvalidArgumentError(Reason::DateRange);
    assert!(rt; texts.advance() == Err(error));
    assert!(rt; texts.get() == None);
    assert!(rt; texts.next() == Ok(None));
    drop(texts);
}
