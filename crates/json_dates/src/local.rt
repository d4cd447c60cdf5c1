//! The day and the time of day of a timestamp, on the clock of its offset.
ghost use Rattle.std.specs.Prelude.{◌≡◌, ◌<◌, pos, IfSome, IfNone, false, true};
ghost use Rattle.std.specs.Int.{int_div_euclid};
ghost use Rattle.json_dates.specs.Civil.{is_printed_day};
ghost use Rattle.json_dates.specs.Times.{whole_seconds, nanoseconds, local_seconds, local_day, second_of_day, is_printed_timestamp};

use arrow_core::TimeUnit;

// 0000-01-01 00:00:00 and 9999-12-31 23:59:59.
const FIRST_SECOND: i64 = -62_167_219_200;

const LAST_SECOND: i64 = 253_402_300_799;

const SECONDS_OF_DAY: i64 = 86_400;

/// A second of a day.
#[derive(Clone, Copy)]
pub struct LocalSecond {
    /// The day, counted from 1970-01-01.
    pub day: i64,
    /// The second of the day, from 0.
    pub second: u32,
}

/// The whole seconds of a value, rounded down.
#[inline]
pub fn whole_seconds(unit: TimeUnit, value: i64) -> i64
    ensures { result ≡ whole_seconds unit value }
{
    match unit {
        TimeUnit::Second => value,
        TimeUnit::Millisecond => value.div_euclid(1_000),
        TimeUnit::Microsecond => value.div_euclid(1_000_000),
        TimeUnit::Nanosecond => value.div_euclid(1_000_000_000),
    }
}

/// What is left of the value after its whole seconds, in nanoseconds.
#[inline]
pub fn nanoseconds(unit: TimeUnit, value: i64) -> u32
    ensures { result ≡ nanoseconds unit value }
{
    match unit {
        TimeUnit::Second => 0,
        TimeUnit::Millisecond => value.rem_euclid(1_000) as u32 * 1_000_000,
        TimeUnit::Microsecond => value.rem_euclid(1_000_000) as u32 * 1_000,
        TimeUnit::Nanosecond => value.rem_euclid(1_000_000_000) as u32,
    }
}

// The whole seconds of a value on the clock of its offset. There are none where they don't fit, and
// so are far from any day that is printed.
#[inline]
#[tactic(auto, unfolding(crate::specs::Civil::is_printed_day, crate::specs::Times::is_printed_timestamp))]
fn local_seconds(unit: TimeUnit, offset: Option<i16>, value: i64) -> Option<i64>
    ensures none { IfNone result (is_printed_timestamp unit offset value ≡ false) }
    ensures value { IfSome result (λ local. local ≡ local_seconds unit offset value) }
{
    let seconds = whole_seconds(unit, value);
    match offset {
        Some(minutes) => seconds.checked_add(i64::from(minutes) * 60),
        None => Some(seconds),
    }
}

/// The second of a value on the clock of its offset, in minutes east of UTC, where its day is
/// printed.
#[inline]
pub fn local_second(unit: TimeUnit, offset: Option<i16>, value: i64) -> Option<LocalSecond>
    ensures none { IfNone result (is_printed_timestamp unit offset value ≡ false) }
    ensures printed { IfSome result (λ at. is_printed_timestamp unit offset value ≡ true) }
    ensures day { IfSome result (λ at. at.day ≡ local_day unit offset value) }
    ensures second { IfSome result (λ at. at.second ≡ second_of_day unit offset value) }
{
    let local = local_seconds(unit, offset, value)?;
    if local < FIRST_SECOND || LAST_SECOND < local {
        return None;
    }
    Some(LocalSecond {
        day: local.div_euclid(SECONDS_OF_DAY),
        second: local.rem_euclid(SECONDS_OF_DAY) as u32,
    })
}
