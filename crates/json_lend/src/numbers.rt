//! Numbers (RFC 8259, section 6).
ghost use Rattle.std.specs.Prelude.{◌≡◌, ◌≢◌, ◌≤◌, length, IfErr};
ghost use Rattle.std.specs.Str.{IsUtf8};
ghost use Rattle.json_tree.specs.Reading.{number_at};
ghost use Rattle.json_tree.specs.Gives.{Gives};
ghost use Rattle.json_lend.specs.Skips.{Skips};
ghost use Rattle.json_lend.specs.Standing.{lent_value};

use crate::lent::Lent;
use json_tree::JsonFault;
use json_tree::number::{after_first, exponent_part, fraction_part, integer_part, optional_minus};
use json_tree::reader::Reader;

/// Skips a number. The fault is `Text`.
#[inline(always)]
pub(crate) fn skip_number<'a>(reader: &mut Reader<'a>) -> Result<(), JsonFault>
    ensures reads { Skips result reader.new (number_at reader.old) }
    ensures forward { length reader.new ≤ length reader.old }
    ensures no_memory { IfErr result (λ e. e ≢ JsonFault.Memory) }
{
    optional_minus(reader);
    integer_part(reader)?;
    fraction_part(reader)?;
    exponent_part(reader)
}

/// A number, read as far as it goes. The fault is `Text`.
#[inline(always)]
pub(crate) fn lend_number<'a>(reader: &mut Reader<'a>) -> Result<Lent<'a>, JsonFault>
    ensures reads { Gives lent_value result reader.new (number_at reader.old) }
    ensures forward { length reader.new ≤ length reader.old }
    ensures no_memory { IfErr result (λ e. e ≢ JsonFault.Memory) }
{
    let start = reader.rest();
    optional_minus(reader);
    integer_part(reader)?;
    fraction_part(reader)?;
    let tail = reader.rest();
    exponent_part(reader)?;
    let left = reader.rest();
    let mantissa = &start[..start.len() - tail.len()];
    let exponent = after_first(tail, tail.len() - left.len());
    let mantissa = unsafe { std::str::from_utf8_unchecked(mantissa) };
    let exponent = unsafe { std::str::from_utf8_unchecked(exponent) };
    Ok(Lent::Number(mantissa, exponent))
}
