//! Whether what encodes a value of one schema encodes it under another.

ghost use Rattle.std.specs.Prelude.{IsTrue};
ghost use Rattle.avro_schema.specs.declared.schema.Schema.{Union};
ghost use Rattle.avro_verbatim.specs.Alike.{AreAlike, MayBeCopied, IsFixedAlike};

use avro_schema::{AvroField, AvroSchema, Fixed};

/// Whether the fields have schemas of the same kinds as those beside them, at every depth. Where it
/// is true, what encodes a slot under a target encodes it under its source (Avro 1.11, "Binary
/// Encoding"), dictionaries can hold the symbols of the sources' enums, of which there are none, and
/// no target is null by itself.
///
/// Logical types of `int`, `long` and `string` don't matter. It is false of fields that hold
/// decimals, durations, enums, floats, maps or unions other than of null and, second, one schema,
/// however alike they are.
#[cycle(alike)]
pub fn are_alike(sources: &[AvroField], targets: &[AvroField]) -> bool
    ensures { IsTrue result → AreAlike sources.now targets.now }
{
    if sources.len() != targets.len() {
        return false;
    }
    for i in 0..sources.len() {
        if !is_alike(&sources[i].schema, &targets[i].schema) {
            return false;
        }
    }
    true
}

#[cycle(alike)]
fn is_alike(source: &AvroSchema, target: &AvroSchema) -> bool
    ensures { IsTrue result → MayBeCopied source.now target.now }
{
    match (source, target) {
        (AvroSchema::Record(source), AvroSchema::Record(target)) => {
            are_alike(source.fields.as_slice(), target.fields.as_slice())
        }
        (AvroSchema::Array(source), AvroSchema::Array(target)) => {
            is_alike(source.get(), target.get())
        }
        (AvroSchema::Union(sources), AvroSchema::Union(targets)) => {
            is_union_alike(sources.as_slice(), targets.as_slice())
        }
        _ => is_flat_alike(source, target),
    }
}

/// The same of unions, by their members.
#[cycle(alike)]
fn is_union_alike(sources: &[AvroSchema], targets: &[AvroSchema]) -> bool
    ensures { IsTrue result → MayBeCopied (Union sources.now) (Union targets.now) }
{
    let [source_null, source] = sources else {
        return false;
    };
    let [target_null, target] = targets else {
        return false;
    };
    match (source_null, target_null) {
        (AvroSchema::Null, AvroSchema::Null) => is_alike(source, target),
        _ => false,
    }
}

/// The same of schemas without others in them.
fn is_flat_alike(source: &AvroSchema, target: &AvroSchema) -> bool
    ensures { IsTrue result → MayBeCopied source.now target.now }
{
    match (source, target) {
        (AvroSchema::Boolean, AvroSchema::Boolean) => true,
        (AvroSchema::Int(_), AvroSchema::Int(_)) => true,
        (AvroSchema::Long(_), AvroSchema::Long(_)) => true,
        (AvroSchema::Bytes(None), AvroSchema::Bytes(None)) => true,
        (AvroSchema::String(_), AvroSchema::String(_)) => true,
        (AvroSchema::Fixed(source), AvroSchema::Fixed(target)) => is_fixed_alike(source, target),
        _ => false,
    }
}

/// The same of fixed-size binary values.
fn is_fixed_alike(source: &Fixed, target: &Fixed) -> bool
    ensures { IsTrue result → IsFixedAlike source.now target.now }
{
    source.logical.is_none() && target.logical.is_none() && source.size == target.size
}
