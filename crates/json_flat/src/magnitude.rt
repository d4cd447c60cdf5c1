//! Magnitudes: digits, shifted by an exponent and cut.
ghost use Rattle.std.specs.Prelude.{◌≡◌, ◌*◌, ◌^◌, ◌+◌, ◌-◌, ℕ, min, take};
ghost use Rattle.std.specs.Char.{digit_value};
ghost use Rattle.std.specs.Int.{IsInRange};
ghost use Rattle.std.specs.Str.Parse.{digits_value_after, AllDigits};
ghost use Rattle.json_flat.specs.Parts.{Counts, point_of};
ghost use Rattle.json_flat.specs.Whole.{scaled};

use crate::exponent::Exponent;

/// The greatest power of ten in 128 bits.
const GREATEST_TENS: u128 = 38;

// The number with one digit more; `None` exactly where it has more than 128 bits.
fn push_digit(total: u128, digit: u8) -> Option<u128>
    requires { IsInRange 48 57 digit }
    ensures { Counts result (total * 10 + digit_value digit) }
{
    total.checked_mul(10)?.checked_add((digit - b'0') as u128)
}

// The number with these digits behind it; `None` exactly where it has more than 128 bits.
fn append(total: u128, digits: &[u8]) -> Option<u128>
    requires { AllDigits 10 digits.now }
    ensures { Counts result (digits_value_after 10 total digits.now) }
{
    let mut total = total;
    for digit in digits {
        total = push_digit(total, *digit)?;
    }
    Some(total)
}

// The number with this many zeros behind it; `None` exactly where it has more than 128 bits.
fn append_zeros(total: u128, zeros: u128) -> Option<u128>
    ensures { Counts result (total * 10 ^ zeros) }
{
    if total == 0 {
        return Some(0);
    }
    if zeros > GREATEST_TENS {
        return None;
    }
    total.checked_mul(10u128.pow(zeros as u32))
}

// How many of the digits, or of the zeros behind them, stand before the point once the exponent
// has moved it.
fn moved(integer: usize, exponent: Exponent) -> u128
    ensures { result ≡ point_of integer exponent.negative exponent.power }
{
    let integer = integer as u128;
    let power = exponent.power as u128;
    if exponent.negative {
        integer.saturating_sub(power)
    } else {
        integer + power
    }
}

// The first `n` digits, or all of them.
fn first(digits: &[u8], n: u128) -> &[u8]
    ensures { result.now ≡ take n digits.now }
{
    let count = n.min(digits.len() as u128) as usize;
    &digits[..count]
}

/// The digits before and behind the point as one number, times ten to the exponent, and cut;
/// `None` exactly where that has more than 128 bits.
pub(crate) fn magnitude(integer: &[u8], fraction: &[u8], exponent: Exponent) -> Option<u128>
    requires integer { AllDigits 10 integer.now }
    requires fraction { AllDigits 10 fraction.now }
    ensures { (power : ℕ) → exponent.power ≡ min power (2 ^ 64 - 1)
        → Counts result (scaled integer.now fraction.now exponent.negative power) }
{
    let point = moved(integer.len(), exponent);
    let behind = point.saturating_sub(integer.len() as u128);
    let zeros = behind.saturating_sub(fraction.len() as u128);
    let total = append(0, first(integer, point))?;
    let total = append(total, first(fraction, behind))?;
    append_zeros(total, zeros)
}
