//! The types that a field's word names: each reader has the part of the word that is its own.

ghost use Rattle.std.specs.Prelude.{◌≡◌, ◌∷◌, [], List, Err, IfOk, IfErr};
ghost use Rattle.avro_schema.specs.declared.schema.AvroField.{AvroField as TheField};
ghost use Rattle.avro_schema.specs.declared.schema.Schema.{Schema, Array, Union};
ghost use Rattle.cli_words.specs.declared.fault.WordsFault.TheVariants.{Usage, Memory};
ghost use Rattle.cli_words.specs.Types.{IsBase, IsNamed, AreNamed, AreFields, IsType, record_of as record_schema};

use crate::fault::WordsFault;
use crate::names::is_name;
use crate::parts::{inside_of, split_field};
use crate::plain::read_plain;
use crate::sized::read_sized;
use crate::symbols::{new_enum, read_symbols};
use arrow_core::{Box, Items, Text};
use avro_schema::{AvroField, AvroSchema, Record};
use std::alloc::Global;

/// The schema of a type in which types nest at most `depth` deep: a base, then `?`
/// for a union with null first, or `!` for one with null second.
#[cycle(types)]
pub fn read_type(alloc: Global, word: &str, depth: usize) -> Result<AvroSchema, WordsFault>
    ensures schema { IfOk result (IsType depth word.now) }
    ensures usage { result ≡ Err Usage → (schema : Schema) → IsType depth word.now schema → ⊥ }
{
    if depth == 0 {
        return Err(WordsFault::Usage);
    }
    if let Some(base) = word.strip_suffix('?') {
        let item = read_base(alloc, base, depth - 1)?;
        return union_of(alloc, AvroSchema::Null, item);
    }
    if let Some(base) = word.strip_suffix('!') {
        let item = read_base(alloc, base, depth - 1)?;
        return union_of(alloc, item, AvroSchema::Null);
    }
    read_base(alloc, word, depth - 1)
}

/// A type without a mark, in which types of at most `depth` stand.
#[cycle(types)]
fn read_base(alloc: Global, word: &str, depth: usize) -> Result<AvroSchema, WordsFault>
    ensures schema { IfOk result (IsBase (IsType depth) word.now) }
    ensures usage { result ≡ Err Usage
        → (schema : Schema) → IsBase (IsType depth) word.now schema → ⊥ }
{
    if let Some(inside) = inside_of(word, '[', ']') {
        let item = read_type(alloc, inside, depth)?;
        return array_of(alloc, item);
    }
    if let Some(inside) = inside_of(word, '{', '}') {
        let fields = read_fields(alloc, inside, depth)?;
        return record_of(alloc, fields);
    }
    if let Some(inside) = inside_of(word, '<', '>') {
        let symbols = read_symbols(alloc, inside)?;
        return new_enum(alloc, symbols);
    }
    if let Some(sized) = word.strip_suffix(')') {
        return read_sized(alloc, sized);
    }
    read_plain(alloc, word)
}

/// The fields between a record's braces.
#[cycle(types)]
fn read_fields(alloc: Global, inside: &str, depth: usize) -> Result<Vec<AvroField>, WordsFault>
    ensures fields { IfOk result (λ fields. AreFields (IsType depth) inside.now fields.items) }
    ensures usage { result ≡ Err Usage
        → (fields : List TheField) → AreFields (IsType depth) inside.now fields → ⊥ }
{
    if inside.is_empty() {
        return Ok(Vec::new(alloc));
    }
    read_named_fields(alloc, inside, depth)
}

/// The fields of `NAME=TYPE;NAME=TYPE`.
#[cycle(types)]
fn read_named_fields(
    alloc: Global,
    fields: &str,
    depth: usize,
) -> Result<Vec<AvroField>, WordsFault>
    ensures fields { IfOk result (λ read. AreNamed (IsType depth) fields.now read.items) }
    ensures usage { result ≡ Err Usage
        → (read : List TheField) → AreNamed (IsType depth) fields.now read → ⊥ }
{
    let mut read = Vec::new(alloc);
    let mut rest = fields;
    while let Some((field, more)) = split_field(rest) {
        read.push(read_named(alloc, field, depth)?)?;
        rest = more;
    }
    read.push(read_named(alloc, rest, depth)?)?;
    Ok(read)
}

/// The field of `NAME=TYPE`.
#[cycle(types)]
pub fn read_named(alloc: Global, word: &str, depth: usize) -> Result<AvroField, WordsFault>
    ensures field { IfOk result (IsNamed (IsType depth) word.now) }
    ensures usage { result ≡ Err Usage
        → (field : TheField) → IsNamed (IsType depth) word.now field → ⊥ }
{
    let Some((name, type_name)) = word.split_once('=') else {
        return Err(WordsFault::Usage);
    };
    if !is_name(name) {
        return Err(WordsFault::Usage);
    }
    let schema = read_type(alloc, type_name, depth)?;
    let Ok(name) = Text::try_from_str(alloc, name) else {
        return Err(WordsFault::Memory);
    };
    Ok(AvroField {
        name,
        doc: None,
        schema,
    })
}

/// A record of these fields, whose name is empty. `Memory` alone.
fn record_of(alloc: Global, fields: Vec<AvroField>) -> Result<AvroSchema, WordsFault>
    ensures fields { IfOk result (λ schema. schema ≡ record_schema fields.items) }
    ensures memory { IfErr result (λ fault. fault ≡ Memory) }
{
    let Ok(name) = Text::try_from_str(alloc, "") else {
        return Err(WordsFault::Memory);
    };
    Ok(AvroSchema::Record(Record {
        name,
        namespace: None,
        doc: None,
        fields: Items::from_vec(fields),
    }))
}

fn union_of(alloc: Global, first: AvroSchema, second: AvroSchema) -> Result<AvroSchema, WordsFault>
    ensures union { IfOk result (λ schema. schema ≡ Union (first ∷ second ∷ [])) }
    ensures memory { IfErr result (λ fault. fault ≡ Memory) }
{
    let mut members = Vec::with_capacity(alloc, 2)?;
    members.push(first)?;
    members.push(second)?;
    Ok(AvroSchema::Union(Items::from_vec(members)))
}

fn array_of(alloc: Global, item: AvroSchema) -> Result<AvroSchema, WordsFault>
    ensures array { IfOk result (λ schema. schema ≡ Array item) }
    ensures memory { IfErr result (λ fault. fault ≡ Memory) }
{
    match Box::new(alloc, item) {
        Ok(item) => Ok(AvroSchema::Array(item)),
        Err(_) => Err(WordsFault::Memory),
    }
}
