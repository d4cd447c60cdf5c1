//! Tests of what no clause of the days and offsets says. Days and texts are those of Python's
//! `datetime`; it has no year 0, so the days of that year are counted by hand.
use json_dates::{day_of_milliseconds, is_printed_day, parse_offset, push_date};
use std::alloc::Global;

fn is_date(alloc: Global, day: i64, wanted: &str) -> bool {
    let mut out = Vec::new(alloc);
    push_date(&mut out, day).is_ok() && out.as_slice() == wanted.as_bytes()
}

#[test]
fn a_day_is_a_date_of_the_calendar(rt: HostRuntime) {
    let dates = [
        (-719_528, "\"0000-01-01\""),
        (-719_469, "\"0000-02-29\""),
        (-719_163, "\"0000-12-31\""),
        (-719_162, "\"0001-01-01\""),
        (-135_081, "\"1600-02-29\""),
        (-25_509, "\"1900-02-28\""),
        (-25_508, "\"1900-03-01\""),
        (-1, "\"1969-12-31\""),
        (0, "\"1970-01-01\""),
        (11_016, "\"2000-02-29\""),
        (19_724, "\"2024-01-02\""),
        (19_782, "\"2024-02-29\""),
        (20_088, "\"2024-12-31\""),
        (47_541, "\"2100-03-01\""),
        (2_932_896, "\"9999-12-31\""),
    ];
    for (day, wanted) in dates {
        assert!(rt;
            is_printed_day(day) && is_date(rt.alloc(), day, wanted),
            "{wanted}"
        );
    }
}

#[test]
fn a_year_without_four_digits_is_null(rt: HostRuntime) {
    for day in [-719_529, 2_932_897, i64::MIN, i64::MAX] {
        assert!(rt;
            !is_printed_day(day) && is_date(rt.alloc(), day, "null"),
            "{day}"
        );
    }
}

#[test]
fn milliseconds_are_of_the_day_that_has_begun(rt: HostRuntime) {
    assert!(rt; day_of_milliseconds(-1) == -1 && day_of_milliseconds(0) == 0);
    assert!(rt; day_of_milliseconds(86_399_999) == 0 && day_of_milliseconds(86_400_000) == 1);
}

#[test]
fn a_date_stands_after_what_was_there(rt: HostRuntime) {
    let mut out = Vec::from_slice(rt.alloc(), b"[").expect(&rt, "memory");
    assert!(rt; push_date(&mut out, 0).is_ok() && out.as_slice() == b"[\"1970-01-01\"".as_slice());
}

#[test]
fn an_offset_is_in_minutes_east_of_utc(rt: HostRuntime) {
    let offsets = [
        ("UTC", 0),
        ("00:00", 0),
        ("-00:00", 0),
        ("05:30", 330),
        ("+05:30", 330),
        ("-08:00", -480),
        ("+23:59", 1439),
        ("-23:59", -1439),
    ];
    for (zone, minutes) in offsets {
        assert!(rt; parse_offset(zone) == Some(minutes), "{zone}");
    }
}

#[test]
fn another_zone_is_no_offset(rt: HostRuntime) {
    let zones = [
        "",
        "+",
        "Z",
        "utc",
        "+5:30",
        "0530",
        "+24:00",
        "-12:60",
        "05:30 ",
        "--5:30",
        "05-30",
        "Europe/Oslo",
    ];
    for zone in zones {
        assert!(rt; parse_offset(zone).is_none(), "{zone}");
    }
}
