//! Types with numbers in parentheses: fixed-size types and decimals.

ghost use Rattle.std.specs.Prelude.{◌≡◌, ◌++◌, codes, ℕ, Some, None, Err, IfOk, IfErr, IfSome};
ghost use Rattle.avro_schema.specs.declared.schema.Schema.{Schema, Bytes};
ghost use Rattle.avro_schema.specs.declared.schema.BytesLogical.TheVariants as bytes_logical;
ghost use Rattle.avro_schema.specs.declared.schema.FixedLogical.TheVariants as fixed_logical;
ghost use Rattle.avro_schema.specs.TypeExamples.{fixed_of};
ghost use Rattle.cli_words.specs.Names.{IsSize};
ghost use Rattle.cli_words.specs.declared.fault.WordsFault.TheVariants.{Usage, Memory};
ghost use Rattle.cli_words.specs.Types.{AreDigits, IsFixed, IsDecimal, IsSized};

use crate::fault::WordsFault;
use crate::names::read_size;
use arrow_core::Text;
use avro_schema::{AvroSchema, BytesLogical, Fixed, FixedLogical};
use std::alloc::Global;

/// The type of `fixed(N)`, `decimal(P,S)` or `decimal(P,S,N)`, of its word without the last `)`.
pub fn read_sized(alloc: Global, word: &str) -> Result<AvroSchema, WordsFault>
    ensures schema { IfOk result (IsSized (word.now ++ codes ")")) }
    ensures usage { result ≡ Err Usage
        → (schema : Schema) → IsSized (word.now ++ codes ")") schema → ⊥ }
{
    let Some((kind, numbers)) = word.split_once('(') else {
        return Err(WordsFault::Usage);
    };
    match kind {
        "fixed" => read_fixed(alloc, numbers),
        "decimal" => read_decimal(alloc, numbers),
        _ => Err(WordsFault::Usage),
    }
}

/// The type of `fixed(N)`, of its size.
fn read_fixed(alloc: Global, size: &str) -> Result<AvroSchema, WordsFault>
    ensures schema { IfOk result (IsFixed size.now) }
    ensures usage { result ≡ Err Usage → (schema : Schema) → IsFixed size.now schema → ⊥ }
{
    match read_size(size) {
        Some(size) => new_fixed(alloc, size, None),
        None => Err(WordsFault::Usage),
    }
}

/// The type of `decimal(P,S)` or `decimal(P,S,N)`, of its numbers.
fn read_decimal(alloc: Global, numbers: &str) -> Result<AvroSchema, WordsFault>
    ensures schema { IfOk result (IsDecimal numbers.now) }
    ensures usage { result ≡ Err Usage → (schema : Schema) → IsDecimal numbers.now schema → ⊥ }
{
    let Some((precision, rest)) = numbers.split_once(',') else {
        return Err(WordsFault::Usage);
    };
    match rest.split_once(',') {
        None => read_bytes_decimal(precision, rest),
        Some((scale, size)) => read_fixed_decimal(alloc, precision, scale, size),
    }
}

/// A decimal over bytes.
fn read_bytes_decimal(precision: &str, scale: &str) -> Result<AvroSchema, WordsFault>
    ensures schema { IfOk result
        (λ schema. (p : ℕ) × (s : ℕ) × AreDigits precision.now scale.now p s
        × (schema ≡ Bytes (Some (bytes_logical.Decimal p s)))) }
    ensures usage { result ≡ Err Usage
        → (p : ℕ) (s : ℕ) → AreDigits precision.now scale.now p s → ⊥ }
{
    match read_digits(precision, scale) {
        Some((precision, scale)) => {
            let logical = BytesLogical::Decimal(precision, scale);
            Ok(AvroSchema::Bytes(Some(logical)))
        }
        None => Err(WordsFault::Usage),
    }
}

/// A decimal over a fixed-size type.
fn read_fixed_decimal(
    alloc: Global,
    precision: &str,
    scale: &str,
    size: &str,
) -> Result<AvroSchema, WordsFault>
    ensures schema { IfOk result
        (λ schema. (p : ℕ) × (s : ℕ) × (n : ℕ) × AreDigits precision.now scale.now p s
        × IsSize size.now n × (schema ≡ fixed_of n (Some (fixed_logical.Decimal p s)))) }
    ensures usage { result ≡ Err Usage
        → (p : ℕ) (s : ℕ) (n : ℕ) → AreDigits precision.now scale.now p s → IsSize size.now n → ⊥ }
{
    let Some((precision, scale)) = read_digits(precision, scale) else {
        return Err(WordsFault::Usage);
    };
    let Some(size) = read_size(size) else {
        return Err(WordsFault::Usage);
    };
    new_fixed(alloc, size, Some(FixedLogical::Decimal(precision, scale)))
}

/// A precision from 1 and a scale that is no greater.
fn read_digits(precision: &str, scale: &str) -> Option<(usize, usize)>
    ensures digits { IfSome result (λ read. AreDigits precision.now scale.now read.0 read.1) }
    ensures none { result ≡ None → (p : ℕ) (s : ℕ) → AreDigits precision.now scale.now p s → ⊥ }
{
    let precision = read_size(precision)?;
    let scale = read_size(scale)?;
    if precision == 0 || scale > precision {
        return None;
    }
    Some((precision, scale))
}

/// A fixed-size type of this size, whose name is empty. `Memory` alone.
pub fn new_fixed(
    alloc: Global,
    size: usize,
    logical: Option<FixedLogical>,
) -> Result<AvroSchema, WordsFault>
    ensures fixed { IfOk result (λ schema. schema ≡ fixed_of size logical) }
    ensures memory { IfErr result (λ fault. fault ≡ Memory) }
{
    let Ok(name) = Text::try_from_str(alloc, "") else {
        return Err(WordsFault::Memory);
    };
    Ok(AvroSchema::Fixed(Fixed {
        name,
        namespace: None,
        doc: None,
        size,
        logical,
    }))
}
