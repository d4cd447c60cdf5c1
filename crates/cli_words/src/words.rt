//! The words of a command line, and the command that they stand for.

ghost use Rattle.std.specs.Prelude.{◌≡◌, ◌≢◌, ◌<◌, ◌≤◌, ℕ, Bool, List, [], decimal, Err, None, IfErr, IfOk, IfSome};
ghost use Rattle.avro_schema.specs.declared.schema.AvroField.{AvroField as TheField};
ghost use Rattle.cli_words.specs.Names.{IsRows};
ghost use Rattle.cli_words.specs.declared.command.AvroWords.{AvroWords as TheAvro};
ghost use Rattle.cli_words.specs.declared.command.BlockWords.{BlockWords as TheBlock};
ghost use Rattle.cli_words.specs.declared.command.MakeWords.{MakeWords as TheMake};
ghost use Rattle.cli_words.specs.declared.command.RewriteWords.{RewriteWords as TheRewrite};
ghost use Rattle.cli_words.specs.declared.fault.WordsFault.TheVariants.{Memory, Usage};
ghost use Rattle.cli_words.specs.Words.{AreAvroWords, AreFields, AreKeepWords, AreKeptFields, AreMakeWords, AreRewriteWords, IsMarker, IsRest};
ghost use Rattle.cli_words.specs.Stands.{Stands, IsUsage};

use crate::command::{AvroWords, BlockWords, Command, MakeWords, RewriteWords};
use crate::{WordsFault, is_name, read_field, read_rows};
use arrow_core::{Items, Text};
use avro_schema::AvroField;
use itoa::Buffer;
use std::alloc::Global;

/// The greatest state of the generator of `make`.
const GREATEST_START: usize = 2_147_483_647;

/// How many digits a marker has.
const MARKER_DIGITS: usize = 32;

/// The most rows that `make` draws.
const MOST_ROWS: usize = 1_000_000;

/// The command that the words stand for. `Usage` where they stand for none, and there alone;
/// `Memory` may come in place of any answer.
#[tactic(auto, using(crate::proofs::WordsLemmas::other_word, crate::proofs::WordsLemmas::no_words))]
pub fn read_words(alloc: Global, words: &[Text]) -> Result<Command, WordsFault>
    ensures command { IfOk result (Stands words.now) }
    ensures usage { result ≡ Err Usage → IsUsage words.now }
{
    let [command, rest @ ..] = words else {
        return Err(WordsFault::Usage);
    };
    match command.as_str() {
        "help" | "--help" | "-h" => alone(rest, Command::Help),
        "version" | "--version" => alone(rest, Command::Version),
        "count" => alone(rest, Command::Count),
        "schema" => alone(rest, Command::Schema),
        "fields" => alone(rest, Command::Fields),
        "block" => Ok(Command::Block(read_block(alloc, rest, false)?)),
        "block-large" => Ok(Command::Block(read_block(alloc, rest, true)?)),
        "ndjson" => Ok(Command::Ndjson(read_numbers(alloc, rest)?)),
        "make" => match read_make(rest) {
            Some(make) => Ok(Command::Make(make)),
            None => Err(WordsFault::Usage),
        },
        "infer" => alone(rest, Command::Infer),
        "avro" => Ok(Command::Avro(read_avro(alloc, rest)?)),
        "rewrite" => Ok(Command::Rewrite(read_rewrite(alloc, rest)?)),
        _ => Err(WordsFault::Usage),
    }
}

/// The command whose word stands alone. `Usage` where other words follow it.
fn alone(words: &[Text], command: Command) -> Result<Command, WordsFault>
    ensures command { IfOk result (λ answer. (answer ≡ command) × (words.now ≡ [])) }
    ensures usage { IfErr result (λ fault. (fault ≡ Usage) × (words.now ≢ [])) }
{
    if !words.is_empty() {
        return Err(WordsFault::Usage);
    }
    Ok(command)
}

/// The rows and fields of `block` or `block-large`, after that word.
#[tactic(auto, using(crate::proofs::WordsLemmas::no_rest, crate::proofs::WordsLemmas::empty_rest))]
fn read_block(alloc: Global, words: &[Text], large: bool) -> Result<BlockWords, WordsFault>
    ensures block { IfOk result (IsRest words.now) }
    ensures large { IfOk result (λ block. block.large ≡ large) }
    ensures usage { result ≡ Err Usage → (block : TheBlock) → IsRest words.now block → ⊥ }
{
    let [rows, fields @ ..] = words else {
        return Err(WordsFault::Usage);
    };
    let Some(rows) = read_rows(rows.as_str()) else {
        return Err(WordsFault::Usage);
    };
    let (avro_fields, projection) = read_fields(alloc, fields)?;
    Ok(BlockWords {
        rows,
        avro_fields: Items::from_vec(avro_fields),
        projection: Items::from_vec(projection),
        large,
    })
}

/// The fields that the words name, and which of them are kept.
fn read_fields(alloc: Global, words: &[Text]) -> Result<(Vec<AvroField>, Vec<bool>), WordsFault>
    ensures fields { IfOk result (λ read. AreFields words.now read.1.items read.0.items) }
    ensures usage { result ≡ Err Usage
        → (projection : List Bool) (fields : List TheField) → AreFields words.now projection fields
        → ⊥ }
{
    let mut avro_fields = Vec::new(alloc);
    let mut projection = Vec::new(alloc);
    for word in words {
        let field = read_field(alloc, word.as_str())?;
        projection.push(field.is_kept)?;
        avro_fields.push(field.avro_field)?;
    }
    Ok((avro_fields, projection))
}

/// The numbers of the fields to keep, after the word `ndjson`.
fn read_numbers(alloc: Global, words: &[Text]) -> Result<Items<usize>, WordsFault>
    ensures numbers { IfOk result (AreKeepWords words.now) }
    ensures usage { result ≡ Err Usage → (numbers : List ℕ) → AreKeepWords words.now numbers → ⊥ }
{
    let mut numbers = Vec::new(alloc);
    for word in words {
        let Some(number) = read_rows(word.as_str()) else {
            return Err(WordsFault::Usage);
        };
        numbers.push(number)?;
    }
    Ok(Items::from_vec(numbers))
}

/// The state and the rows of `make`, after that word.
fn read_make(words: &[Text]) -> Option<MakeWords>
    ensures make { IfSome result (AreMakeWords words.now) }
    ensures none { result ≡ None → (make : TheMake) → AreMakeWords words.now make → ⊥ }
{
    let [start, rows] = words else {
        return None;
    };
    let start = read_number(start.as_str(), GREATEST_START)?;
    let rows = read_number(rows.as_str(), MOST_ROWS)?;
    Some(MakeWords {
        start: start as u32,
        rows,
    })
}

/// The number that the word writes in decimal with no zero before it, up to the greatest.
fn read_number(word: &str, greatest: usize) -> Option<usize>
    ensures number { IfSome result (λ number. (word.now ≡ decimal number)
        × (number ≤ greatest)) }
    ensures none { result ≡ None → (number : ℕ) → word.now ≡ decimal number → number ≤ greatest
        → ⊥ }
{
    let number = read_rows(word)?;
    let mut buffer = Buffer::new();
    if number > greatest || buffer.format(number) != word {
        return None;
    }
    Some(number)
}

/// The name, the rows of a block, the marker and the fields of `avro`, after that word.
fn read_avro(alloc: Global, words: &[Text]) -> Result<AvroWords, WordsFault>
    ensures avro { IfOk result (AreAvroWords words.now) }
    ensures usage { result ≡ Err Usage → (avro : TheAvro) → AreAvroWords words.now avro → ⊥ }
{
    let [name, rows, digits, fields @ ..] = words else {
        return Err(WordsFault::Usage);
    };
    if !is_name(name.as_str()) {
        return Err(WordsFault::Usage);
    }
    let Some(rows_per_block) = read_some_rows(rows.as_str()) else {
        return Err(WordsFault::Usage);
    };
    let Some(marker) = read_marker(digits.as_str()) else {
        return Err(WordsFault::Usage);
    };
    let avro_fields = read_kept_fields(alloc, fields)?;
    Ok(AvroWords {
        name: name_of(alloc, name.as_str())?,
        rows_per_block,
        marker,
        avro_fields: Items::from_vec(avro_fields),
    })
}

/// The number of a word of 1 to 20 decimal digits, from 1 to below 2 to the power of 64.
fn read_some_rows(word: &str) -> Option<usize>
    ensures rows { IfSome result (λ rows. IsRows word.now rows × (0 < rows)) }
    ensures none { result ≡ None → (rows : ℕ) → IsRows word.now rows → 0 < rows → ⊥ }
{
    let rows = read_rows(word)?;
    if rows == 0 {
        return None;
    }
    Some(rows)
}

/// The fields that the words name, each of which is kept.
fn read_kept_fields(alloc: Global, words: &[Text]) -> Result<Vec<AvroField>, WordsFault>
    ensures fields { IfOk result (λ read. AreKeptFields words.now read.items) }
    ensures usage { result ≡ Err Usage → (fields : List TheField) → AreKeptFields words.now fields
        → ⊥ }
{
    let mut avro_fields = Vec::new(alloc);
    for word in words {
        let field = read_field(alloc, word.as_str())?;
        if !field.is_kept {
            return Err(WordsFault::Usage);
        }
        avro_fields.push(field.avro_field)?;
    }
    Ok(avro_fields)
}

/// The name and the marker of `rewrite`, after that word.
fn read_rewrite(alloc: Global, words: &[Text]) -> Result<RewriteWords, WordsFault>
    ensures rewrite { IfOk result (AreRewriteWords words.now) }
    ensures usage { result ≡ Err Usage
        → (rewrite : TheRewrite) → AreRewriteWords words.now rewrite → ⊥ }
{
    let [name, digits] = words else {
        return Err(WordsFault::Usage);
    };
    if !is_name(name.as_str()) {
        return Err(WordsFault::Usage);
    }
    let Some(marker) = read_marker(digits.as_str()) else {
        return Err(WordsFault::Usage);
    };
    let name = name_of(alloc, name.as_str())?;
    Ok(RewriteWords { name, marker })
}

/// A name's own text. `Memory` alone.
fn name_of(alloc: Global, name: &str) -> Result<Text, WordsFault>
    ensures name { IfOk result (λ text. text ≡ name.now) }
    ensures memory { IfErr result (λ fault. fault ≡ Memory) }
{
    match Text::try_from_str(alloc, name) {
        Ok(text) => Ok(text),
        Err(_) => Err(WordsFault::Memory),
    }
}

/// The bytes of a marker's digits.
fn read_marker(digits: &str) -> Option<[u8; 16]>
    ensures marker { IfSome result (IsMarker digits.now) }
    ensures none { result ≡ None → (marker : List ℕ) → IsMarker digits.now marker → ⊥ }
{
    // `from_str_radix` takes a plus sign before the digits.
    if digits.len() != MARKER_DIGITS || digits.starts_with('+') {
        return None;
    }
    match u128::from_str_radix(digits, 16) {
        Ok(marker) => Some(marker.to_be_bytes()),
        Err(_) => None,
    }
}
