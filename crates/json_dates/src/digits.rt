//! Decimal digits.
ghost use Rattle.std.specs.Prelude.{◌≡◌};
ghost use Rattle.json_dates.specs.Civil.{digit};

/// The last decimal digit of a number, in ASCII.
#[inline]
pub fn digit(n: u32) -> u8
    ensures { result ≡ digit n }
{
    b'0' + (n % 10) as u8
}
