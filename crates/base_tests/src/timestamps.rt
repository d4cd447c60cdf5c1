//! Tests of what no clause of the timestamps says. Times and texts are those of Python's `datetime`.
use arrow_core::TimeUnit;
use json_dates::{is_printed_timestamp, push_timestamp};
use std::alloc::Global;

fn is_timestamp(
    alloc: Global,
    unit: TimeUnit,
    offset: Option<i16>,
    value: i64,
    wanted: &str,
) -> bool {
    let mut out = Vec::new(alloc);
    push_timestamp(&mut out, unit, offset, value).is_ok() && out.as_slice() == wanted.as_bytes()
}

#[test]
fn without_a_zone_a_space_stands_between_date_and_time(rt: HostRuntime) {
    let texts = [
        (TimeUnit::Second, -1, "\"1969-12-31 23:59:59\""),
        (
            TimeUnit::Millisecond,
            951_782_400_000,
            "\"2000-02-29 00:00:00\"",
        ),
        (
            TimeUnit::Microsecond,
            1_500_000,
            "\"1970-01-01 00:00:01.500\"",
        ),
        (TimeUnit::Millisecond, -1, "\"1969-12-31 23:59:59.999\""),
        (TimeUnit::Microsecond, -1, "\"1969-12-31 23:59:59.999999\""),
        (TimeUnit::Microsecond, -1_000, "\"1969-12-31 23:59:59.999\""),
        (
            TimeUnit::Nanosecond,
            1_000,
            "\"1970-01-01 00:00:00.000001\"",
        ),
        (
            TimeUnit::Nanosecond,
            -1,
            "\"1969-12-31 23:59:59.999999999\"",
        ),
    ];
    for (unit, value, wanted) in texts {
        assert!(rt;
            is_timestamp(rt.alloc(), unit, None, value, wanted),
            "{wanted}"
        );
    }
}

#[test]
fn with_an_offset_the_time_is_of_its_clock(rt: HostRuntime) {
    let texts = [
        (
            TimeUnit::Millisecond,
            0,
            -1,
            "\"1969-12-31T23:59:59.999+00:00\"",
        ),
        (
            TimeUnit::Second,
            330,
            1_718_000_000,
            "\"2024-06-10T11:43:20+05:30\"",
        ),
        (TimeUnit::Second, -480, 0, "\"1969-12-31T16:00:00-08:00\""),
        (
            TimeUnit::Microsecond,
            -1,
            0,
            "\"1969-12-31T23:59:00-00:01\"",
        ),
        (
            TimeUnit::Nanosecond,
            0,
            1_234_567_890_123_456_789,
            "\"2009-02-13T23:31:30.123456789+00:00\"",
        ),
    ];
    for (unit, offset, value, wanted) in texts {
        assert!(rt;
            is_timestamp(rt.alloc(), unit, Some(offset), value, wanted),
            "{wanted}"
        );
    }
}

// The last second of 9999 is 253402300799, and the first of 0000 is -62167219200.
#[test]
fn the_year_is_that_of_the_offset(rt: HostRuntime) {
    let last = 253_402_300_799;
    assert!(rt;
        is_timestamp(
            rt.alloc(),
            TimeUnit::Second,
            None,
            last,
            "\"9999-12-31 23:59:59\""
        )
    );
    assert!(rt; is_timestamp(rt.alloc(), TimeUnit::Second, None, last + 1, "null"));
    assert!(rt; is_timestamp(rt.alloc(), TimeUnit::Second, Some(1), last, "null"));
    let wanted = "\"9999-12-31T23:59:00-00:01\"";
    assert!(rt; is_timestamp(rt.alloc(), TimeUnit::Second, Some(-1), last + 1, wanted));
    assert!(rt;
        is_timestamp(
            rt.alloc(),
            TimeUnit::Second,
            Some(-1),
            -62_167_219_200,
            "null"
        )
    );
}

#[test]
fn the_ends_of_the_values_are_not_printed(rt: HostRuntime) {
    assert!(rt; !is_printed_timestamp(TimeUnit::Second, Some(1), i64::MAX));
    assert!(rt; !is_printed_timestamp(TimeUnit::Second, Some(-1), i64::MIN));
    assert!(rt; !is_printed_timestamp(TimeUnit::Millisecond, None, i64::MAX));
    assert!(rt; is_printed_timestamp(TimeUnit::Nanosecond, None, i64::MAX));
}
