//! Days and their text.
ghost use Rattle.std.specs.Prelude.{◌≡◌, ◌++◌, ◌∷◌, ◌+◌, ◌<◌, ◌≤◌, codes, vec_len, vec_capacity, true, IsTrue, OnOk, OnErr};
ghost use Rattle.arrow_core.specs.Errors.{OnlyOutOfMemory};
ghost use Rattle.json_dates.specs.Civil.{is_printed_day, date_text};
ghost use Rattle.json_dates.specs.Times.{date_json, day_of_milliseconds};

use crate::digits::digit;
use arrow_core::Result;
use jiff_core::civil::Date;

// 0000-01-01 and 9999-12-31.
const FIRST_DAY: i64 = -719_528;

const LAST_DAY: i64 = 2_932_896;

/// Whether a day is printed: its year, in the proleptic Gregorian calendar, is from 0000 to 9999.
/// `day` is counted from 1970-01-01.
#[inline]
#[tactic(auto, unfolding(crate::specs::Civil::is_printed_day))]
pub fn is_printed_day(day: i64) -> bool
    ensures { result ≡ is_printed_day day }
{
    FIRST_DAY <= day && day <= LAST_DAY
}

/// The day, counted from 1970-01-01, in which the moment lies that is so many milliseconds after
/// 1970-01-01 00:00:00, or before it where they are negative.
#[inline]
#[tactic(auto, unfolding(crate::specs::Times::day_of_milliseconds))]
pub fn day_of_milliseconds(value: i64) -> i64
    ensures { result ≡ day_of_milliseconds value }
{
    value.div_euclid(86_400_000)
}

/// Appends the JSON text of a day: a string of the form `YYYY-MM-DD` (`full-date` of RFC 3339,
/// section 5.6), or `null` where the day isn't printed. `day` is counted from 1970-01-01.
/// `OutOfMemory` at any time; nothing was appended then.
#[tactic(auto, unfolding(crate::specs::Times::date_json))]
pub fn push_date(out: &mut Vec<u8>, day: i64) -> Result<()>
    ensures ok { OnOk result (out.new.items ≡ out.old.items ++ date_json day) }
    ensures memory { OnlyOutOfMemory result }
    ensures err { OnErr result (out.new.items ≡ out.old.items) }
{
    if !is_printed_day(day) {
        return push_null(out);
    }
    let [a, b, c, d, e, f, g, h, i, j] = date_digits(day);
    let text = [b'"', a, b, c, d, e, f, g, h, i, j, b'"'];
    Ok(out.extend_from_slice(&text)?)
}

/// Appends `null`. `OutOfMemory` alone; nothing was appended then.
pub fn push_null(out: &mut Vec<u8>) -> Result<()>
    ensures ok { OnOk result (out.new.items ≡ out.old.items ++ codes "null") }
    ensures memory { OnlyOutOfMemory result }
    ensures err { OnErr result (out.new.items ≡ out.old.items) }
{
    Ok(out.extend_from_slice(b"null")?)
}

/// The ten bytes `YYYY-MM-DD` of a printed day, which is counted from 1970-01-01.
pub fn date_digits(day: i64) -> [u8; 10]
    requires { IsTrue (is_printed_day day) }
    ensures { result ≡ date_text day }
{
    let Ok(date) = Date::from_unix_epoch_day(day) else {
        unreachable!()
    };
    let year = u32::from(date.year.unsigned_abs());
    let month = u32::from(date.month);
    let of_month = u32::from(date.day);
    [
        digit(year / 1000),
        digit(year / 100),
        digit(year / 10),
        digit(year),
        b'-',
        digit(month / 10),
        digit(month),
        b'-',
        digit(of_month / 10),
        digit(of_month),
    ]
}
