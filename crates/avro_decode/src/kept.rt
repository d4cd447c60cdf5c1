//! What is asked of the kept fields alone, and of their schemas.

ghost use Rattle.std.specs.Prelude.{◌≡◌, ◌≤◌, ◌⊎◌, ◌↔◌, length, true, All, IsTrue};
ghost use Rattle.avro_schema.specs.ValidBlock.{kept, small_limit, IsSmall, KeepNoFloat, KeptEnumsFit};

use arrow_core::Field;
use avro_schema::AvroField;
use avro_types::{enums_fit, has_float, is_small};

/// The most bytes that a block may have where a kept field's type holds offsets of 32 bits:
/// 2^31 - 1, the greatest such offset.
pub const MOST_BYTES: usize = 2_147_483_647;

/// Whether no `float` and no `double` stands in the schema of a kept field, at any depth.
pub fn keep_no_float(avro_fields: &[AvroField], projection: &[bool]) -> bool
    requires lengths { length avro_fields.now ≡ length projection.now }
    ensures { IsTrue result ↔ KeepNoFloat avro_fields.now projection.now }
{
    for i in 0..avro_fields.len() {
        if projection[i] && has_float(&avro_fields[i].schema) {
            return false;
        }
    }
    true
}

/// Whether dictionaries can hold the symbols of each enum in the schema of a kept field, at any
/// depth.
pub fn kept_enums_fit(avro_fields: &[AvroField], projection: &[bool]) -> bool
    requires lengths { length avro_fields.now ≡ length projection.now }
    ensures { IsTrue result ↔ KeptEnumsFit avro_fields.now projection.now }
{
    for i in 0..avro_fields.len() {
        if projection[i] && !enums_fit(&avro_fields[i].schema) {
            return false;
        }
    }
    true
}

/// Whether offsets of the kept fields can count so many bytes: these are 2147483647 at most, or no
/// kept field's type holds offsets of 32 bits, at any depth.
pub fn offsets_fit(bytes: usize, fields: &[Field], projection: &[bool]) -> bool
    requires lengths { length fields.now ≡ length projection.now }
    ensures { IsTrue result ↔ ((bytes ≤ small_limit)
        ⊎ All (λ f. IsSmall f.data_type → ⊥) (kept fields.now projection.now)) }
{
    if bytes <= MOST_BYTES {
        return true;
    }
    keep_no_small(fields, projection)
}

/// Whether no kept field's type holds offsets of 32 bits, at any depth.
fn keep_no_small(fields: &[Field], projection: &[bool]) -> bool
    requires lengths { length fields.now ≡ length projection.now }
    ensures { IsTrue result ↔ All (λ f. IsSmall f.data_type → ⊥)
        (kept fields.now projection.now) }
{
    for i in 0..fields.len() {
        if projection[i] && is_small(&fields[i].data_type) {
            return false;
        }
    }
    true
}
