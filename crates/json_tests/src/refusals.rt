//! Which arrays have no JSON text, and why.

use crate::samples::{days, hidden_day, list_of_days, longs, numbers, struct_of, timestamp};
use arrow_columns::Array;
use arrow_core::{DataType, Error, Reason, Result, TimeUnit};
use json_text::check;

fn outcome(array: Array) -> Result<()> {
    let outcome = check(&array);
    drop(array);
    outcome
}

#[test]
fn a_duration_has_no_text(rt: HostRuntime) {
    let alloc = rt.alloc();
    let data_type = DataType::Duration(TimeUnit::Second);
    let array = Array::Int64(numbers(&rt, alloc, data_type, &[1i64]));
    assert!(rt; outcome(array) == Err(Error::NotYetImplemented(Reason::NoJsonText)));
    assert!(rt; outcome(longs(&rt, alloc, &[1])) == Ok(()));
}

#[test]
fn a_zone_has_to_be_an_offset(rt: HostRuntime) {
    let alloc = rt.alloc();
    let array = timestamp(&rt, alloc, "Europe/Oslo", i64::MAX);
    assert!(rt; outcome(array) == Err(Error::InvalidArgumentError(Reason::ZoneOffset)));
    assert!(rt; outcome(timestamp(&rt, alloc, "UTC", 0)) == Ok(()));
}

#[test]
fn a_date_that_is_shown_has_four_digits_of_year(rt: HostRuntime) {
    let alloc = rt.alloc();
    let refused = Err(Error::InvalidArgumentError(Reason::DateRange));
    assert!(rt; outcome(days(&rt, alloc, 2932897)) == refused);
    assert!(rt; outcome(days(&rt, alloc, 2932896)) == Ok(()));
    assert!(rt; outcome(hidden_day(&rt, alloc)) == Ok(()));
}

#[test]
fn dates_of_a_list_are_those_between_its_offsets(rt: HostRuntime) {
    let alloc = rt.alloc();
    let refused = Err(Error::InvalidArgumentError(Reason::DateRange));
    assert!(rt; outcome(list_of_days(&rt, alloc, &[0, 2])) == refused);
    assert!(rt; outcome(list_of_days(&rt, alloc, &[1, 2])) == Ok(()));
}

#[test]
fn dates_of_a_struct_are_those_of_its_children(rt: HostRuntime) {
    let alloc = rt.alloc();
    let refused = Err(Error::InvalidArgumentError(Reason::DateRange));
    let number = longs(&rt, alloc, &[1]);
    let array = struct_of(&rt, alloc, number, days(&rt, alloc, 2932897));
    assert!(rt; outcome(array) == refused);
    let number = longs(&rt, alloc, &[1]);
    let array = struct_of(&rt, alloc, number, hidden_day(&rt, alloc));
    assert!(rt; outcome(array) == Ok(()));
}
