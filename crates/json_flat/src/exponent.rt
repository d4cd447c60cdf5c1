//! Exponents.
ghost use Rattle.std.specs.Prelude.{◌≡◌, ◌+◌, ◌*◌, ◌^◌, ◌-◌, true, false, min, MatchOption};
ghost use Rattle.std.specs.Char.{digit_value};
ghost use Rattle.std.specs.Int.{IsInRange};
ghost use Rattle.std.specs.Str.Parse.{digits_value, starts_with_minus, without_leading_sign, AllDigits};
ghost use Rattle.json_flat.specs.Whole.{is_exponent};

use crate::mantissa::are_digits;

/// An exponent: whether it is negative, and its digits as a number, or `u64::MAX` where that is
/// less. No number that has memory for its digits tells such exponents apart: it is 0, or it has
/// more than 128 bits.
#[derive(Clone, Copy)]
pub(crate) struct Exponent {
    pub negative: bool,
    pub power: u64,
}

// What stands behind a plus or a minus.
fn without_sign(bytes: &[u8]) -> &[u8]
    ensures { result.now ≡ without_leading_sign bytes.now }
{
    if !bytes.is_empty() && (bytes[0] == b'-' || bytes[0] == b'+') {
        &bytes[1..]
    } else {
        bytes
    }
}

// The number with one digit more, or `u64::MAX` where that is less.
fn push_digit(power: u64, digit: u8) -> u64
    requires { IsInRange 48 57 digit }
    ensures { result ≡ min (power * 10 + digit_value digit) (2 ^ 64 - 1) }
{
    power
        .saturating_mul(10)
        .saturating_add((digit - b'0') as u64)
}

// The digits as a number, or `u64::MAX` where that is less.
fn power_of(digits: &[u8]) -> u64
    requires { AllDigits 10 digits.now }
    ensures { result ≡ min (digits_value 10 digits.now) (2 ^ 64 - 1) }
{
    let mut power = 0;
    for digit in digits {
        power = push_digit(power, *digit);
    }
    power
}

impl Exponent {
    /// The exponent of a number, 0 where there is none; or `None` exactly where the bytes are no
    /// exponent.
    pub(crate) fn read(bytes: &[u8]) -> Option<Exponent>
        ensures { MatchOption result (is_exponent bytes.now ≡ false)
            (λ e. (is_exponent bytes.now ≡ true) × (e.negative ≡ starts_with_minus bytes.now)
            × (e.power ≡ min (digits_value 10 (without_leading_sign bytes.now)) (2 ^ 64 - 1))) }
    {
        if bytes.is_empty() {
            return Some(Exponent {
                negative: false,
                power: 0,
            });
        }
        let digits = without_sign(bytes);
        if !are_digits(digits) {
            return None;
        }
        Some(Exponent {
            negative: bytes[0] == b'-',
            power: power_of(digits),
        })
    }
}
