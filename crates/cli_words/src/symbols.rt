//! Enums: the symbols between angle brackets.

ghost use Rattle.std.specs.Prelude.{◌≡◌, ◌∷◌, [], ◌++◌, ℕ, List, Err, IfOk, IfErr};
ghost use Rattle.cli_words.specs.declared.fault.WordsFault.TheVariants.{Usage, Memory};
ghost use Rattle.cli_words.specs.Names.{IsName};
ghost use Rattle.cli_words.specs.Types.{AreSymbols, enum_of};

use crate::fault::WordsFault;
use crate::names::is_name;
use arrow_core::{Items, Text};
use avro_schema::{AvroSchema, Enum};
use std::alloc::Global;

/// The symbols of `NAME,NAME`, one at least, in order. `Usage` where one is no name; `Memory`.
pub fn read_symbols(alloc: Global, inside: &str) -> Result<Vec<Text>, WordsFault>
    ensures symbols { IfOk result (λ symbols. AreSymbols inside.now symbols.items) }
    ensures usage { result ≡ Err Usage
        → (symbols : List (List ℕ)) → AreSymbols inside.now symbols → ⊥ }
{
    let mut symbols = Vec::new(alloc);
    let mut rest = inside;
    while let Some((symbol, more)) = rest.split_once(',') {
        symbols.push(read_symbol(alloc, symbol)?)?;
        rest = more;
    }
    symbols.push(read_symbol(alloc, rest)?)?;
    Ok(symbols)
}

/// One symbol.
fn read_symbol(alloc: Global, word: &str) -> Result<Text, WordsFault>
    ensures symbol { IfOk result (λ symbol. IsName word.now × (symbol ≡ word.now)) }
    ensures usage { result ≡ Err Usage → IsName word.now → ⊥ }
{
    if !is_name(word) {
        return Err(WordsFault::Usage);
    }
    match Text::try_from_str(alloc, word) {
        Ok(symbol) => Ok(symbol),
        Err(_) => Err(WordsFault::Memory),
    }
}

/// An enum of these symbols, whose name is empty. `Memory` alone.
pub fn new_enum(alloc: Global, symbols: Vec<Text>) -> Result<AvroSchema, WordsFault>
    ensures symbols { IfOk result (λ schema. schema ≡ enum_of symbols.items) }
    ensures memory { IfErr result (λ fault. fault ≡ Memory) }
{
    let Ok(name) = Text::try_from_str(alloc, "") else {
        return Err(WordsFault::Memory);
    };
    Ok(AvroSchema::Enum(Enum {
        name,
        namespace: None,
        doc: None,
        symbols: Items::from_vec(symbols),
    }))
}
