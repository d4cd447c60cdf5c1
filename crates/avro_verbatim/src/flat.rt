//! Values of schemas without others in them, in their canonical encoding.

ghost use Rattle.std.specs.Prelude.{None, IfSome, IsTrue};
ghost use Rattle.avro_schema.specs.declared.schema.Schema.TheVariants as schemas;
ghost use Rattle.avro_schema.specs.Encodes.{IsInt};
ghost use Rattle.avro_verbatim.specs.Begins.{BeginsWithSlot};

use crate::parts::{skip_groups, split_counted, split_number};
use arrow_core::is_utf8;
use avro_schema::Fixed;

// Each is inlined wherever a value is looked at, since the calls would cost as much as the looking.

/// What follows the canonical encoding of a boolean that the bytes begin with.
#[inline(always)]
#[tactic(auto, using(crate::proofs::Flats::boolean_begins))]
pub(crate) fn skip_boolean(bytes: &[u8]) -> Option<&[u8]>
    ensures { IfSome result (λ rest. BeginsWithSlot schemas.Boolean bytes.now rest.now) }
{
    match bytes.split_first() {
        Some((byte, rest)) if *byte <= 1 => Some(rest),
        _ => None,
    }
}

/// A number of 32 bits: its encoding has at most five bytes, the fifth of which adds four bits.
/// Logical types play no part in the encoding of numbers and strings.
#[inline(always)]
#[tactic(auto, using(crate::proofs::Flats::groups_begin_int))]
pub(crate) fn skip_int(bytes: &[u8]) -> Option<&[u8]>
    ensures { IfSome result (λ rest. BeginsWithSlot (schemas.Int None) bytes.now rest.now) }
{
    if bytes.len() < 5 {
        return skip_last_int(bytes);
    }
    skip_groups(bytes, 4, 16)
}

/// The same of the last bytes.
#[inline(always)]
#[tactic(auto, using(crate::proofs::Flats::int_begins))]
fn skip_last_int(bytes: &[u8]) -> Option<&[u8]>
    ensures { IfSome result (λ rest. BeginsWithSlot (schemas.Int None) bytes.now rest.now) }
{
    match split_number(bytes) {
        Some((number, rest)) if is_int(number) => Some(rest),
        _ => None,
    }
}

/// Whether the number has 32 bits.
#[inline(always)]
fn is_int(number: i64) -> bool
    ensures { IsTrue result → IsInt number }
{
    number >= -2147483648 && number <= 2147483647
}

/// A number of 64 bits: its encoding has at most ten bytes, the tenth of which adds one bit.
#[inline(always)]
#[tactic(auto, using(crate::proofs::Flats::groups_begin_long))]
pub(crate) fn skip_long(bytes: &[u8]) -> Option<&[u8]>
    ensures { IfSome result (λ rest. BeginsWithSlot (schemas.Long None) bytes.now rest.now) }
{
    if bytes.len() < 10 {
        return skip_last_long(bytes);
    }
    skip_groups(bytes, 9, 2)
}

/// The same of the last bytes.
#[inline(always)]
#[tactic(auto, using(crate::proofs::Flats::long_begins))]
fn skip_last_long(bytes: &[u8]) -> Option<&[u8]>
    ensures { IfSome result (λ rest. BeginsWithSlot (schemas.Long None) bytes.now rest.now) }
{
    match split_number(bytes) {
        Some((_, rest)) => Some(rest),
        None => None,
    }
}

#[inline(always)]
#[tactic(auto, using(crate::proofs::Flats::binary_begins))]
pub(crate) fn skip_binary(bytes: &[u8]) -> Option<&[u8]>
    ensures { IfSome result (λ rest. BeginsWithSlot (schemas.Bytes None) bytes.now rest.now) }
{
    match split_counted(bytes) {
        Some((_, rest)) => Some(rest),
        None => None,
    }
}

#[inline(always)]
#[tactic(auto, using(crate::proofs::Flats::string_begins))]
pub(crate) fn skip_string(bytes: &[u8]) -> Option<&[u8]>
    ensures { IfSome result (λ rest. BeginsWithSlot (schemas.String None) bytes.now rest.now) }
{
    match split_counted(bytes) {
        Some((string, rest)) if is_utf8(string) => Some(rest),
        _ => None,
    }
}

/// A binary value of the declared size; a decimal or a duration isn't looked at.
#[inline(always)]
#[tactic(auto, using(crate::proofs::Flats::fixed_begins))]
pub(crate) fn skip_fixed<'a>(bytes: &'a [u8], fixed: &Fixed) -> Option<&'a [u8]>
    ensures { IfSome result (λ rest. BeginsWithSlot (schemas.Fixed fixed.now) bytes.now rest.now) }
{
    if !fixed.logical.is_none() {
        return None;
    }
    match bytes.split_at_checked(fixed.size) {
        Some((_, rest)) => Some(rest),
        None => None,
    }
}
