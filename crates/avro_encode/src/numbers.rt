//! Numbers, and bytes after their length (Avro 1.11, "Primitive Types").
ghost use Rattle.std.specs.Prelude.{◌≡◌, ℕ, ◌+◌, ◌/◌, ◌%◌, ◌<◌, ◌≤◌, ◌++◌, ◌∷◌, ◌^◌, length, OnOk};
ghost use Rattle.avro_container.specs.Shortest.{groups, shortest, zigzagged as zigzagged_of};
ghost use Rattle.avro_encode.specs.Plain.{counted};

use std::alloc::AllocError;

/// The unsigned number that zigzag makes of a number.
#[inline(always)]
fn zigzagged(value: i64) -> u64
    ensures { result ≡ zigzagged_of value }
{
    if value < 0 {
        ((-1 - value) as u64) * 2 + 1
    } else {
        (value as u64) * 2
    }
}

/// Appends the shortest encoding of a number, which is mostly one byte. `AllocError` alone.
#[inline(always)]
pub fn append_number(value: i64, out: &mut Vec<u8>) -> Result<(), AllocError>
    ensures ok { OnOk result (out.new.items ≡ out.old.items ++ shortest value) }
{
    append_groups(zigzagged(value), out)
}

/// The byte of a number's lowest seven bits, where others follow.
#[inline(always)]
fn low_group(number: u64) -> u8
    ensures { result ≡ 128 + number % 128 }
{
    128 + (number % 128) as u8
}

/// Appends the groups of seven bits of a number that has at most four, the low ones first.
/// `AllocError` alone.
// Appending them at once costs one test and one write of the length, and not one of each a byte.
#[inline(always)]
fn append_few_groups(number: u64, out: &mut Vec<u8>) -> Result<(), AllocError>
    requires few { number < 2 ^ 28 }
    ensures ok { OnOk result (out.new.items ≡ out.old.items ++ groups 3 number) }
{
    if number < 128 {
        out.push(number as u8)?;
        return Ok(());
    }
    let (first, rest) = (low_group(number), number / 128);
    if rest < 128 {
        return out.extend_from_slice(&[first, rest as u8]);
    }
    let (second, rest) = (low_group(rest), rest / 128);
    if rest < 128 {
        return out.extend_from_slice(&[first, second, rest as u8]);
    }
    out.extend_from_slice(&[first, second, low_group(rest), (rest / 128) as u8])
}

/// Appends the four lowest groups of a number that has more. `AllocError` alone.
#[inline(always)]
fn append_low_groups(number: u64, out: &mut Vec<u8>) -> Result<(), AllocError>
    requires more { 2 ^ 28 ≤ number }
    ensures ok { (left : ℕ) → OnOk result (out.new.items ++ groups left (number / 2 ^ 28)
        ≡ out.old.items ++ groups (left + 4) number) }
{
    let second = number / 128;
    let third = second / 128;
    let fourth = third / 128;
    let groups = [
        low_group(number),
        low_group(second),
        low_group(third),
        low_group(fourth),
    ];
    out.extend_from_slice(&groups)
}

/// Appends the groups of a number that has five. `AllocError` alone.
#[inline(always)]
fn append_five_groups(number: u64, out: &mut Vec<u8>) -> Result<(), AllocError>
    requires more { 2 ^ 28 ≤ number }
    requires few { number < 2 ^ 35 }
    ensures ok { OnOk result (out.new.items ≡ out.old.items ++ groups 9 number) }
{
    let second = number / 128;
    let third = second / 128;
    let fourth = third / 128;
    let groups = [
        low_group(number),
        low_group(second),
        low_group(third),
        low_group(fourth),
        (number / (1 << 28)) as u8,
    ];
    out.extend_from_slice(&groups)
}

/// Appends the groups of seven bits of a number, the low ones first. `AllocError` alone.
#[inline(always)]
fn append_groups(number: u64, out: &mut Vec<u8>) -> Result<(), AllocError>
    ensures ok { OnOk result (out.new.items ≡ out.old.items ++ groups 9 number) }
{
    if number < 1 << 28 {
        return append_few_groups(number, out);
    }
    if number < 1 << 35 {
        return append_five_groups(number, out);
    }
    append_low_groups(number, out)?;
    let rest = number / (1 << 28);
    if rest < 1 << 28 {
        return append_few_groups(rest, out);
    }
    append_low_groups(rest, out)?;
    append_few_groups(rest / (1 << 28), out)
}

/// Appends bytes. `AllocError` alone.
#[inline(always)]
pub(crate) fn append_bytes(bytes: &[u8], out: &mut Vec<u8>) -> Result<(), AllocError>
    ensures ok { OnOk result (out.new.items ≡ out.old.items ++ bytes.now) }
{
    out.extend_from_slice(bytes)?;
    Ok(())
}

/// Appends bytes after their length. After `AllocError` a part of these may have been appended.
#[inline(always)]
pub fn append_counted(bytes: &[u8], out: &mut Vec<u8>) -> Result<(), AllocError>
    requires { length bytes.now < 2 ^ 63 }
    ensures ok { OnOk result (out.new.items ≡ out.old.items ++ counted bytes.now) }
{
    append_number(bytes.len() as i64, out)?;
    append_bytes(bytes, out)
}

/// Appends a byte, and then bytes after their length. After `AllocError` a part of these may have
/// been appended.
// The byte and the length of few bytes are appended at once.
#[inline(always)]
pub fn append_counted_after(byte: u8, bytes: &[u8], out: &mut Vec<u8>) -> Result<(), AllocError>
    requires { length bytes.now < 2 ^ 63 }
    ensures ok { OnOk result (out.new.items ≡ out.old.items ++ byte ∷ counted bytes.now) }
{
    if bytes.len() < 64 {
        out.extend_from_slice(&[byte, (bytes.len() * 2) as u8])?;
        return append_bytes(bytes, out);
    }
    out.push(byte)?;
    append_counted(bytes, out)
}
