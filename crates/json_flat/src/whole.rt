//! The whole value of a number.
ghost use Rattle.std.specs.Prelude.{◌≡◌, ◌^◌, ◌-◌, ℕ, Some, min};
ghost use Rattle.json_flat.specs.Whole.{is_point, number_value, scaled, signed, whole_value, within};
ghost use Rattle.json_flat.specs.Parts.{IsSigned};
ghost use Rattle.std.specs.List.{list_any};
ghost use Rattle.std.specs.Str.Parse.{AllDigits};

use crate::exponent::Exponent;
use crate::magnitude::magnitude;
use crate::mantissa::Mantissa;
use json_tree::Number;

// The number with this magnitude; `None` exactly where it has more than 128 bits.
fn with_sign(negative: bool, magnitude: u128) -> Option<i128>
    ensures { IsSigned result (signed negative magnitude) }
{
    match i128::try_from(magnitude) {
        Ok(value) => Some(if negative { -value } else { value }),
        Err(_) => {
            if negative && magnitude == i128::MIN.unsigned_abs() {
                Some(i128::MIN)
            } else {
                None
            }
        }
    }
}

// The digits of the mantissa, shifted by the exponent and cut, with the sign; `None` exactly where
// that has more than 128 bits.
fn whole(mantissa: Mantissa, exponent: Exponent) -> Option<i128>
    requires integer { AllDigits 10 mantissa.integer.now }
    requires fraction { AllDigits 10 mantissa.fraction.now }
    ensures { (power : ℕ) → exponent.power ≡ min power (2 ^ 64 - 1) → IsSigned result
        (signed mantissa.entry.negative
        (scaled mantissa.entry.integer.now mantissa.entry.fraction.now exponent.negative power)) }
{
    let magnitude = magnitude(mantissa.integer, mantissa.fraction, exponent)?;
    with_sign(mantissa.negative, magnitude)
}

fn in_range(value: i128, low: i128, high: i128) -> Option<i128>
    ensures { result ≡ within low high (Some value) }
{
    if low <= value && value <= high {
        Some(value)
    } else {
        None
    }
}

/// The whole value of the number with this mantissa and this exponent (RFC 8259, section 6): its
/// exact value, cut towards zero.
///
/// The mantissa is all that stands before `e` or `E`, and the exponent is what follows with any
/// sign, or is empty. `None` exactly where these are no mantissa and exponent, or the value isn't
/// from `low` to `high`. It takes no memory, and no more time than the texts are long, whatever
/// the exponent.
pub fn read_whole_text(mantissa: &str, exponent: &str, low: i128, high: i128) -> Option<i128>
    ensures { result ≡ within low high (whole_value mantissa.now exponent.now) }
{
    let mantissa = Mantissa::split(mantissa.as_bytes())?;
    let exponent = Exponent::read(exponent.as_bytes())?;
    let value = whole(mantissa, exponent)?;
    in_range(value, low, high)
}

fn has_point(mantissa: &str) -> bool
    ensures { result ≡ list_any is_point mantissa.now }
{
    mantissa.as_bytes().iter().any(|byte| *byte == b'.')
}

/// The whole value of a number: its exact value, cut towards zero.
///
/// `None` exactly where the value isn't from `low` to `high`, or no JSON text stands for the number.
/// It takes no memory, and no more time than the texts are long, whatever the exponent.
pub fn read_whole(number: &Number, low: i128, high: i128) -> Option<i128>
    ensures { result ≡ within low high (number_value number.now) }
{
    match number {
        Number::Integer(mantissa, exponent) => {
            if has_point(mantissa.as_str()) {
                return None;
            }
            read_whole_text(mantissa.as_str(), exponent.as_str(), low, high)
        }
        Number::Float(mantissa, exponent) => {
            if !has_point(mantissa.as_str()) {
                return None;
            }
            read_whole_text(mantissa.as_str(), exponent.as_str(), low, high)
        }
    }
}
