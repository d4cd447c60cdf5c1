//! Integers of columns, from the text of a JSON number (RFC 8259, section 6).
ghost use Rattle.std.specs.Prelude.{◌≡◌, ◌≤ℤ◌, ◌+◌, ◌*◌, ◌<◌, ◌==◌, ◌||◌, ℤ, [], true, not, length, slice_index, Some, None, IfSome, MatchOption};
ghost use Rattle.std.specs.Char.{digit_value, is_ascii_digit};
ghost use Rattle.std.specs.Str.Parse.{digits_value, starts_with_minus};
ghost use Rattle.arrow_core.specs.declared.slot.Slot.TheVariants.{Integer as IntegerSlot};
ghost use Rattle.json_flat.specs.Whole.{is_int, signed, whole_value, within, without_minus};

use crate::native::WholeNumber;
use crate::whole::read_whole_text;

/// An integer of a column, from the parts of a JSON number's text.
pub trait IntegerText: WholeNumber {
    /// The whole value of the number with this mantissa and this exponent; `None` exactly where it
    /// has none from `low` to `high`.
    fn from_parts(mantissa: &str, exponent: &str) -> Option<Self>
        ensures { MatchOption result
            (within Self.low Self.high (whole_value mantissa.now exponent.now) ≡ None)
            (λ x. (n : ℤ)
            × (within Self.low Self.high (whole_value mantissa.now exponent.now) ≡ Some n)
            × (Self.native_slot x ≡ IntegerSlot n)) };
}

// The number with one digit more; `None` where the byte is no digit, or the number doesn't fit.
#[inline(always)]
fn push_digit(number: u64, byte: u8) -> Option<u64>
    ensures { IfSome result
        (λ n. (is_ascii_digit byte ≡ true) × (n ≡ number * 10 + digit_value byte)) }
{
    if !byte.is_ascii_digit() {
        return None;
    }
    number.checked_mul(10)?.checked_add((byte - b'0') as u64)
}

// Whether the first digit is 0 only where it stands alone.
#[inline(always)]
fn is_unpadded(digits: &[u8]) -> bool
    requires { 0 < length digits.now }
    ensures { result ≡ (not (slice_index digits.now 0 == 0x30) || length digits.now == 1) }
{
    digits[0] != b'0' || digits.len() == 1
}

// The number that digits write, the first of which is 0 only where it stands alone.
#[inline(always)]
fn number_of(digits: &[u8]) -> Option<u64>
    ensures { IfSome result
        (λ n. (is_int digits.now ≡ true) × (n ≡ digits_value 10 digits.now)) }
{
    if digits.is_empty() {
        return None;
    }
    if !is_unpadded(digits) {
        return None;
    }
    let mut number: u64 = 0;
    for digit in digits {
        number = push_digit(number, *digit)?;
    }
    Some(number)
}

// Whether a minus stands first, and what follows it.
#[inline(always)]
fn split_minus(bytes: &[u8]) -> (bool, &[u8])
    ensures negative { result.0 ≡ starts_with_minus bytes.now }
    ensures rest { result.1.now ≡ without_minus bytes.now }
{
    if !bytes.is_empty() && bytes[0] == b'-' {
        (true, &bytes[1..])
    } else {
        (false, bytes)
    }
}

#[inline(always)]
fn with_sign(is_negative: bool, magnitude: u64) -> i128
    ensures { result ≡ signed is_negative magnitude }
{
    let value = magnitude as i128;
    if is_negative { -value } else { value }
}

// The value of a mantissa without a point, as most are.
#[inline(always)]
fn integer_value(mantissa: &[u8]) -> Option<i128>
    ensures { IfSome result (λ n. whole_value mantissa.now [] ≡ Some n) }
{
    let (is_negative, digits) = split_minus(mantissa);
    let magnitude = number_of(digits)?;
    Some(with_sign(is_negative, magnitude))
}

fn in_range(value: i128, low: i128, high: i128) -> Option<i128>
    ensures { result ≡ within low high (Some value) }
{
    if low <= value && value <= high {
        Some(value)
    } else {
        None
    }
}

// The whole value of a number, as `read_whole_text` has it.
#[inline(always)]
fn whole(mantissa: &str, exponent: &str, low: i128, high: i128) -> Option<i128>
    ensures { result ≡ within low high (whole_value mantissa.now exponent.now) }
{
    if exponent.is_empty() {
        if let Some(value) = integer_value(mantissa.as_bytes()) {
            return in_range(value, low, high);
        }
    }
    read_whole_text(mantissa, exponent, low, high)
}

// The same, and that it lies between these bounds.
#[inline(always)]
fn whole_between(mantissa: &str, exponent: &str, low: i128, high: i128) -> Option<i128>
    ensures { MatchOption result (within low high (whole_value mantissa.now exponent.now) ≡ None)
        (λ n. (within low high (whole_value mantissa.now exponent.now) ≡ Some n)
        × (low ≤ℤ n) × (n ≤ℤ high)) }
{
    whole(mantissa, exponent, low, high)
}

impl IntegerText for i8 {
    fn from_parts(mantissa: &str, exponent: &str) -> Option<i8> {
        match whole_between(mantissa, exponent, i8::MIN as i128, i8::MAX as i128) {
            Some(whole) => Some(whole as i8),
            None => None,
        }
    }
}

impl IntegerText for i16 {
    fn from_parts(mantissa: &str, exponent: &str) -> Option<i16> {
        match whole_between(mantissa, exponent, i16::MIN as i128, i16::MAX as i128) {
            Some(whole) => Some(whole as i16),
            None => None,
        }
    }
}

impl IntegerText for i32 {
    fn from_parts(mantissa: &str, exponent: &str) -> Option<i32> {
        match whole_between(mantissa, exponent, i32::MIN as i128, i32::MAX as i128) {
            Some(whole) => Some(whole as i32),
            None => None,
        }
    }
}

impl IntegerText for i64 {
    fn from_parts(mantissa: &str, exponent: &str) -> Option<i64> {
        match whole_between(mantissa, exponent, i64::MIN as i128, i64::MAX as i128) {
            Some(whole) => Some(whole as i64),
            None => None,
        }
    }
}

impl IntegerText for u8 {
    fn from_parts(mantissa: &str, exponent: &str) -> Option<u8> {
        match whole_between(mantissa, exponent, u8::MIN as i128, u8::MAX as i128) {
            Some(whole) => Some(whole as u8),
            None => None,
        }
    }
}

impl IntegerText for u16 {
    fn from_parts(mantissa: &str, exponent: &str) -> Option<u16> {
        match whole_between(mantissa, exponent, u16::MIN as i128, u16::MAX as i128) {
            Some(whole) => Some(whole as u16),
            None => None,
        }
    }
}

impl IntegerText for u32 {
    fn from_parts(mantissa: &str, exponent: &str) -> Option<u32> {
        match whole_between(mantissa, exponent, u32::MIN as i128, u32::MAX as i128) {
            Some(whole) => Some(whole as u32),
            None => None,
        }
    }
}

impl IntegerText for u64 {
    fn from_parts(mantissa: &str, exponent: &str) -> Option<u64> {
        match whole_between(mantissa, exponent, u64::MIN as i128, u64::MAX as i128) {
            Some(whole) => Some(whole as u64),
            None => None,
        }
    }
}
