//! Attributes of a schema that is a JSON object.
ghost use Rattle.std.specs.Prelude.{◌≡◌, ◌≤◌, ℕ, List, Option, None, Some, IfOk, IfErr, IfSome, MatchOption};
ghost use Rattle.std.specs.Str.Parse.{IsNumeral, digits_value};
ghost use Rattle.avro_file.specs.Attributes as spec;
ghost use Rattle.avro_file.specs.declared.fault.SchemaTextFault.TheVariants.{Memory};

use crate::fault::SchemaTextFault;
use arrow_core::Text;
use json_tree::{Number, Object, Value};
use std::alloc::Global;

/// The greatest size, precision or scale.
const GREATEST: usize = 2_147_483_647;

/// The text of a value that is a string.
pub(crate) fn string_of<'a>(value: &'a Value) -> Option<&'a str>
    ensures { MatchOption result (spec.string_of value.now ≡ None)
        (λ text. spec.string_of value.now ≡ Some text.now) }
{
    match value {
        Value::String(text) => Some(text.as_str()),
        _ => None,
    }
}

/// The text of an attribute that is a string.
pub(crate) fn string_at<'a>(object: &'a Object, name: &str) -> Option<&'a str>
    ensures { MatchOption result (spec.string_at name.now object.now ≡ None)
        (λ text. spec.string_at name.now object.now ≡ Some text.now) }
{
    match object.get(name) {
        Some(value) => string_of(value),
        None => None,
    }
}

/// A copy of an attribute that is a string.
pub(crate) fn copy_at(
    alloc: Global,
    object: &Object,
    name: &str,
) -> Result<Option<Text>, SchemaTextFault>
    ensures copy { IfOk result (λ copied. copied ≡ spec.string_at name.now object.now) }
    ensures memory { IfErr result (λ fault. fault ≡ Memory) }
{
    match string_at(object, name) {
        Some(text) => Ok(Some(copy_of(alloc, text)?)),
        None => Ok(None),
    }
}

pub(crate) fn copy_of(alloc: Global, text: &str) -> Result<Text, SchemaTextFault>
    ensures copy { IfOk result (λ copied. copied ≡ text.now) }
    ensures memory { IfErr result (λ fault. fault ≡ Memory) }
{
    match Text::try_from_str(alloc, text) {
        Ok(copy) => Ok(copy),
        Err(_) => Err(SchemaTextFault::Memory),
    }
}

/// The items of a value that is an array.
fn items_of<'a>(value: &'a Value) -> Option<&'a [Value]>
    ensures { MatchOption result (spec.items_of value.now ≡ None)
        (λ items. spec.items_of value.now ≡ Some items.now) }
{
    match value {
        Value::Array(items) => Some(items.as_slice()),
        _ => None,
    }
}

/// The items of an attribute that is an array.
pub(crate) fn items_at<'a>(object: &'a Object, name: &str) -> Option<&'a [Value]>
    ensures { MatchOption result (spec.items_at name.now object.now ≡ None)
        (λ items. spec.items_at name.now object.now ≡ Some items.now) }
{
    match object.get(name) {
        Some(value) => items_of(value),
        None => None,
    }
}

/// The attributes of a value that is an object.
pub(crate) fn object_of<'a>(value: &'a Value) -> Option<&'a Object>
    ensures { MatchOption result (spec.attributes_of value.now ≡ None)
        (λ object. spec.attributes_of value.now ≡ Some object.now) }
{
    match value {
        Value::Object(object) => Some(object),
        _ => None,
    }
}

/// The number of a value that is a number of digits alone, up to [`GREATEST`].
pub(crate) fn count_of(value: &Value) -> Option<usize>
    ensures { result ≡ spec.count_of value.now }
{
    match value {
        Value::Number(number) => number_count(number),
        _ => None,
    }
}

fn number_count(number: &Number) -> Option<usize>
    ensures { result ≡ spec.number_count number.now }
{
    match number {
        Number::Integer(mantissa, exponent) => digits_count(mantissa.as_str(), exponent.as_str()),
        Number::Float(_, _) => None,
    }
}

fn digits_count(mantissa: &str, exponent: &str) -> Option<usize>
    ensures { result ≡ spec.digits_count mantissa.now exponent.now }
{
    if !exponent.is_empty() {
        return None;
    }
    read_digits(mantissa)
}

fn read_digits(digits: &str) -> Option<usize>
    ensures count { IfSome result (λ count. IsNumeral 10 digits.now
        × (count ≡ digits_value 10 digits.now) × (count ≤ 2147483647)) }
    ensures none { result ≡ None → IsNumeral 10 digits.now → digits_value 10 digits.now ≤ 2147483647
        → ⊥ }
{
    // `parse` takes a plus sign before the digits.
    if digits.starts_with('+') {
        return None;
    }
    match digits.parse::<usize>() {
        Ok(count) if count <= GREATEST => Some(count),
        _ => None,
    }
}

/// The number of an attribute that is a number of digits alone.
pub(crate) fn count_at(object: &Object, name: &str) -> Option<usize>
    ensures { result ≡ spec.count_at name.now object.now }
{
    match object.get(name) {
        Some(value) => count_of(value),
        None => None,
    }
}
