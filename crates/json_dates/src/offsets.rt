//! Offsets from UTC.
ghost use Rattle.std.specs.Prelude.{◌≡◌, ◌<◌, pos, option_map, IfSome};
ghost use Rattle.json_dates.specs.Times.{offset_of, clock_minutes, number_below};

/// The minutes east of UTC that the text of a zone names: 0 for `UTC`, or those of `HH:MM` with or
/// without `+` or `-` before it, hours from 00 to 23 and minutes from 00 to 59 (`time-numoffset` of
/// RFC 3339, section 5.6, whose sign may be missing here). `None` for any other text, as the name
/// of a zone.
#[tactic(auto, unfolding(crate::specs::Times::offset_of))]
pub fn parse_offset(zone: &str) -> Option<i16>
    ensures { result ≡ offset_of zone.now }
{
    if zone == "UTC" {
        return Some(0);
    }
    match zone.as_bytes() {
        [b'+', clock @ ..] => Some(clock_minutes(clock)? as i16),
        [b'-', clock @ ..] => Some(-(clock_minutes(clock)? as i16)),
        clock => Some(clock_minutes(clock)? as i16),
    }
}

// The minutes of `HH:MM`.
fn clock_minutes(clock: &[u8]) -> Option<u16>
    ensures value { result ≡ clock_minutes clock.now }
    ensures bound { IfSome result (λ minutes. minutes < 1440) }
{
    let [hour, hour_ones, b':', minute, minute_ones] = clock else {
        return None;
    };
    let hours = number_below(24, *hour, *hour_ones)?;
    let minutes = number_below(60, *minute, *minute_ones)?;
    Some(60 * hours + minutes)
}

// The number of two digits.
fn number_below(limit: u16, tens: u8, ones: u8) -> Option<u16>
    ensures value { result ≡ number_below limit tens ones }
    ensures bound { IfSome result (λ number. number < limit) }
{
    if !tens.is_ascii_digit() || !ones.is_ascii_digit() {
        return None;
    }
    let number = 10 * u16::from(tens - b'0') + u16::from(ones - b'0');
    if number < limit { Some(number) } else { None }
}
