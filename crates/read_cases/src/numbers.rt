//! Whole numbers.
use crate::texts::push;
use arrow_core::{Result, Text};
use json_flat::{read_whole, read_whole_text};
use json_tree::{Number, Value, parse};
use std::alloc::Global;

/// The least number of 64 bits.
pub const LOW: i128 = i64::MIN as i128;

/// The greatest one.
pub const HIGH: i128 = i64::MAX as i128;

/// Appends the number, if there is one.
pub fn append_whole(alloc: Global, out: &mut Vec<u8>, whole: Option<i128>) -> Result<()> {
    match whole {
        Some(number) => push(out, format!(in alloc; "{number}")?.as_str()),
        None => push(out, "none"),
    }
}

/// Appends the whole number of a mantissa and an exponent, where it fits 64 bits.
pub fn append_parts(alloc: Global, out: &mut Vec<u8>, text: &str) -> Result<()> {
    let (mantissa, exponent) = text.split_once(' ').unwrap_or((text, ""));
    append_whole(alloc, out, read_whole_text(mantissa, exponent, LOW, HIGH))
}

fn append_of_value(alloc: Global, out: &mut Vec<u8>, value: &Value) -> Result<()> {
    match value {
        Value::Number(number) => append_whole(alloc, out, read_whole(number, LOW, HIGH)),
        _ => push(out, "no number"),
    }
}

/// Appends the whole number of a JSON text, where it fits 64 bits.
pub fn append_number(alloc: Global, out: &mut Vec<u8>, text: &str) -> Result<()> {
    let value = parse(alloc, text.as_bytes())?;
    let done = append_of_value(alloc, out, &value);
    drop(value);
    done
}

/// Appends the whole number of a number that no JSON text has: an integer with a point, say.
pub fn append_odd(
    alloc: Global,
    out: &mut Vec<u8>,
    is_integer: bool,
    mantissa: &str,
) -> Result<()> {
    let mantissa = Text::try_from_str(alloc, mantissa)?;
    let exponent = Text::from_string(String::new(alloc));
    let number = if is_integer {
        Number::Integer(mantissa, exponent)
    } else {
        Number::Float(mantissa, exponent)
    };
    append_whole(alloc, out, read_whole(&number, LOW, HIGH))
}
