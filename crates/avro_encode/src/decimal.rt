//! Decimals (Avro 1.11, "Decimal").
ghost use Rattle.std.specs.Prelude.{◌≡◌, ◌<◌, ◌-◌, ◌≤◌, ◌++◌, ◌^◌, length, drop, OnOk};
ghost use Rattle.avro_encode.specs.Decimals.{high_first, even_size, decimal};
ghost use Rattle.avro_encode.specs.Plain.{counted};

use crate::numbers::append_counted;
use std::alloc::AllocError;

/// How many bytes a positive decimal takes: the least even number that leaves its top bit clear.
fn even_size(number: u128) -> usize
    requires { number < 2 ^ 127 }
    ensures size { result ≡ even_size number }
    ensures few { result ≤ 16 }
{
    if number < 1 << 15 {
        2
    } else if number < 1 << 31 {
        4
    } else if number < 1 << 47 {
        6
    } else if number < 1 << 63 {
        8
    } else if number < 1 << 79 {
        10
    } else if number < 1 << 95 {
        12
    } else if number < 1 << 111 {
        14
    } else {
        16
    }
}

/// The last `size` bytes are those of the number, the high byte first.
fn high_first(number: u128, size: usize) -> [u8; 16]
    requires { size ≤ 16 }
    ensures bytes { drop (16 - size) result ≡ high_first size number }
    ensures length { length result ≡ 16 }
{
    let mut bytes = [0u8; 16];
    let mut rest = number;
    for done in 0..size {
        bytes[15 - done] = (rest % 256) as u8;
        rest /= 256;
    }
    bytes
}

/// Appends the bytes of a decimal after their length. `AllocError` alone.
pub(crate) fn append_decimal(number: i128, out: &mut Vec<u8>) -> Result<(), AllocError>
    ensures ok { OnOk result (out.new.items ≡ out.old.items ++ counted (decimal number)) }
{
    if number == 0 {
        return append_counted(&[], out);
    }
    let (size, bits) = if number > 0 {
        (even_size(number as u128), number as u128)
    } else {
        (16, u128::MAX - ((-1 - number) as u128))
    };
    let bytes = high_first(bits, size);
    append_counted(&bytes[16 - size..], out)
}
