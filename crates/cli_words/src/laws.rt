//! Laws of the definitions. The functions do nothing: the contract of each is a law.
ghost use Rattle.std.specs.Prelude.{◌≡◌, ◌≤◌, ℕ, List, length, Bool, true};
ghost use Rattle.avro_schema.specs.declared.schema.AvroField.{AvroField as TheField};
ghost use Rattle.avro_schema.specs.declared.schema.Schema.{Schema};
ghost use Rattle.cli_words.specs.Fields.{IsField};
ghost use Rattle.cli_words.specs.Printed.{has_type, type_word, type_text, unnamed, IsTypeText};
ghost use Rattle.cli_words.specs.Types.{IsType};

/// A word means one type at most.
pub fn one_type()
    ensures { (depth : ℕ) (word : List ℕ) (one other : Schema)
        → IsType depth word one → IsType depth word other → one ≡ other }
{}

/// A word names one field at most.
pub fn one_field()
    ensures { (word : List ℕ) (kept also_kept : Bool) (one other : TheField)
        → IsField word kept one → IsField word also_kept other
        → (kept ≡ also_kept) × (one ≡ other) }
{}

/// What is printed for a type that has a word is one of its words.
pub fn printed_is_word()
    ensures { (depth : ℕ) (schema : Schema) → has_type depth schema ≡ true
        → IsType depth (type_word depth schema) (unnamed schema) }
{}

/// A type that is named by a word has one that is printed, and no word for it is shorter.
pub fn word_is_printed()
    ensures { (depth : ℕ) (word : List ℕ) (schema : Schema)
        → IsType depth word (unnamed schema)
        → (has_type depth schema ≡ true) × (length (type_word depth schema) ≤ length word) }
{}

/// What is printed for a type is a shortest word of it, or `-` where it has none.
pub fn printed_is_right()
    ensures { (schema : Schema) → IsTypeText schema (type_text schema) }
{}
