//! Timestamps and their text.
ghost use Rattle.std.specs.Prelude.{◌≡◌, ◌++◌, ◌∷◌, ◌+◌, ◌<◌, ◌≤◌, [], vec_len, vec_capacity, IsTrue, OnOk, OnErr};
ghost use Rattle.arrow_core.specs.Errors.{OnlyOutOfMemory};
ghost use Rattle.json_dates.specs.Civil.{date_text, is_printed_day};
ghost use Rattle.json_dates.specs.Times.{is_printed_timestamp, timestamp_json, time_text, three_digits, fraction_text, zone_text, separator};

use crate::dates::{date_digits, push_null};
use crate::digits::digit;
use crate::local::{LocalSecond, local_second, nanoseconds};
use arrow_core::{Result, TimeUnit};

// The length of the longest text, which has nine digits of a fraction and an offset.
const LONGEST: usize = 37;

/// Whether a timestamp is printed: its year on the clock of its offset is from 0000 to 9999.
/// `value` counts units from 1970-01-01 00:00:00 UTC, `offset` is in minutes east of UTC.
#[inline]
pub fn is_printed_timestamp(unit: TimeUnit, offset: Option<i16>, value: i64) -> bool
    ensures { result ≡ is_printed_timestamp unit offset value }
{
    local_second(unit, offset, value).is_some()
}

/// Appends the JSON text of a timestamp, or `null` where it isn't printed. `value` counts units
/// from 1970-01-01 00:00:00 UTC.
///
/// Between quotation marks stand, with an offset in minutes east of UTC, `YYYY-MM-DDTHH:MM:SS` on
/// the clock of that offset, a fraction, and the offset as sign and `HH:MM` (`date-time` of
/// RFC 3339, section 5.6); without one, `YYYY-MM-DD HH:MM:SS` and a fraction. A fraction has the
/// least of 3, 6 or 9 digits that is exact, and stands only where it isn't zero. An offset is less
/// than a day, as [`parse_offset`](crate::parse_offset) gives it; of the hours of a greater one the
/// last two digits are printed. `OutOfMemory` at any time; nothing was appended then.
#[tactic(auto, unfolding(crate::specs::Times::is_printed_timestamp, crate::specs::Times::timestamp_json))]
pub fn push_timestamp(
    out: &mut Vec<u8>,
    unit: TimeUnit,
    offset: Option<i16>,
    value: i64,
) -> Result<()>
    ensures ok { OnOk result (out.new.items ≡ out.old.items ++ timestamp_json unit offset value) }
    ensures memory { OnlyOutOfMemory result }
    ensures err { OnErr result (out.new.items ≡ out.old.items) }
{
    let Some(at) = local_second(unit, offset, value) else {
        return push_null(out);
    };
    out.reserve(LONGEST)?;
    push_second(out, offset, at)?;
    push_fraction(out, nanoseconds(unit, value))?;
    push_zone(out, offset)
}

// Appends the quotation mark, the date and the time of day.
fn push_second(out: &mut Vec<u8>, offset: Option<i16>, at: LocalSecond) -> Result<()>
    requires { IsTrue (is_printed_day at.day) }
    ensures ok { OnOk result (out.new.items ≡ out.old.items
        ++ 34 ∷ (date_text at.day ++ separator offset ∷ time_text at.second)) }
    ensures len { OnOk result (vec_len out.new ≡ vec_len out.old + 20) }
    ensures memory { OnlyOutOfMemory result }
    ensures capacity { vec_capacity out.old ≤ vec_capacity out.new }
    ensures full { OnErr result (vec_capacity out.old < vec_len out.old + 20) }
{
    let [a, b, c, d, e, f, g, h, i, j] = date_digits(at.day);
    let separator = separator(offset);
    let [k, l, m, n, o, p, q, r] = time_digits(at.second);
    let text = [
        b'"', a, b, c, d, e, f, g, h, i, j, separator, k, l, m, n, o, p, q, r,
    ];
    Ok(out.extend_from_slice(&text)?)
}

// What stands between date and time.
#[inline]
fn separator(offset: Option<i16>) -> u8
    ensures { result ≡ separator offset }
{
    match offset {
        Some(_) => b'T',
        None => b' ',
    }
}

// `HH:MM:SS` of a second of the day.
#[tactic(auto, unfolding(crate::specs::Times::time_text))]
fn time_digits(second: u32) -> [u8; 8]
    ensures { result ≡ time_text second }
{
    let (hour, minute, second) = (second / 3_600, second / 60 % 60, second % 60);
    [
        digit(hour / 10),
        digit(hour),
        b':',
        digit(minute / 10),
        digit(minute),
        b':',
        digit(second / 10),
        digit(second),
    ]
}

// Appends the fraction of so many nanoseconds.
#[tactic(auto, unfolding(crate::specs::Times::fraction_text))]
fn push_fraction(out: &mut Vec<u8>, nanoseconds: u32) -> Result<()>
    ensures ok { OnOk result (out.new.items ≡ out.old.items ++ fraction_text nanoseconds) }
    ensures len { OnOk result (vec_len out.new ≤ vec_len out.old + 10) }
    ensures memory { OnlyOutOfMemory result }
    ensures capacity { vec_capacity out.old ≤ vec_capacity out.new }
    ensures full { OnErr result (vec_capacity out.old < vec_len out.old + 10) }
{
    if nanoseconds == 0 {
        return Ok(());
    }
    let [a, b, c] = three_digits(nanoseconds / 1_000_000);
    if nanoseconds % 1_000_000 == 0 {
        return Ok(out.extend_from_slice(&[b'.', a, b, c])?);
    }
    let [d, e, f] = three_digits(nanoseconds / 1_000);
    if nanoseconds % 1_000 == 0 {
        return Ok(out.extend_from_slice(&[b'.', a, b, c, d, e, f])?);
    }
    let [g, h, i] = three_digits(nanoseconds);
    Ok(out.extend_from_slice(&[b'.', a, b, c, d, e, f, g, h, i])?)
}

// The last three digits.
fn three_digits(n: u32) -> [u8; 3]
    ensures { result ≡ three_digits n }
{
    [digit(n / 100), digit(n / 10), digit(n)]
}

// Appends the offset, where there is one, and the quotation mark.
#[tactic(auto, unfolding(crate::specs::Times::zone_text))]
fn push_zone(out: &mut Vec<u8>, offset: Option<i16>) -> Result<()>
    ensures ok { OnOk result (out.new.items ≡ out.old.items ++ zone_text offset ++ 34 ∷ []) }
    ensures memory { OnlyOutOfMemory result }
    ensures capacity { vec_capacity out.old ≤ vec_capacity out.new }
    ensures full { OnErr result (vec_capacity out.old < vec_len out.old + 7) }
{
    let Some(minutes) = offset else {
        return Ok(out.extend_from_slice(b"\"")?);
    };
    let sign = if minutes < 0 { b'-' } else { b'+' };
    let minutes = u32::from(minutes.unsigned_abs());
    let (hour, minute) = (minutes / 60, minutes % 60);
    let text = [
        sign,
        digit(hour / 10),
        digit(hour),
        b':',
        digit(minute / 10),
        digit(minute),
        b'"',
    ];
    Ok(out.extend_from_slice(&text)?)
}
