//! The word that names a field: `~` where it is skipped, its name, `=` and its type.

ghost use Rattle.std.specs.Prelude.{◌≡◌, Bool, Err, IfOk};
ghost use Rattle.avro_schema.specs.declared.schema.AvroField.{AvroField as TheField};
ghost use Rattle.cli_words.specs.declared.fault.WordsFault.TheVariants.{Usage};
ghost use Rattle.cli_words.specs.Fields.{IsField};

use crate::fault::WordsFault;
use crate::types::read_named;
use avro_schema::AvroField;
use std::alloc::Global;

/// How deep types may nest.
pub(crate) const MOST_DEPTH: usize = 64;

/// A field as its word names it.
#[derive(Drop)]
pub struct FieldWord {
    /// Whether the field is shown, or only skipped.
    pub is_kept: bool,
    /// The field's name and type.
    pub avro_field: AvroField,
}

/// The field that a word names: an optional `~` where it is skipped, a name, `=` and a type.
///
/// The field has no doc, and the records, enums and fixed-size types in it have empty names.
/// `Usage` exactly where the word names no field; `Memory` at any time.
pub fn read_field(alloc: Global, word: &str) -> Result<FieldWord, WordsFault>
    ensures field { IfOk result (λ read. IsField word.now read.is_kept read.avro_field) }
    ensures usage { result ≡ Err Usage
        → (is_kept : Bool) (field : TheField) → IsField word.now is_kept field → ⊥ }
{
    match word.strip_prefix('~') {
        Some(named) => Ok(FieldWord {
            is_kept: false,
            avro_field: read_named(alloc, named, MOST_DEPTH)?,
        }),
        None => Ok(FieldWord {
            is_kept: true,
            avro_field: read_named(alloc, word, MOST_DEPTH)?,
        }),
    }
}
