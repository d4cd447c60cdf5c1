//! `==` of types, fields and schemas is true exactly where they are equal.
ghost use Rattle.std.specs.Prelude.{◌≡◌, ◌↔◌, true};
ghost use Rattle.arrow_core.specs.declared.types.DataType.{DataType};
ghost use Rattle.arrow_core.specs.declared.types.Field.{Field};
ghost use Rattle.arrow_core.specs.declared.types.Schema.{Schema};

use crate::types::{DataType, Field, Schema};

impl DataType {
    /// Whether the types are equal, in every type, name, nullability and metadata within them.
    /// It is `==`, with a contract that says so.
    pub fn is_same(&self, other: &DataType) -> bool
        ensures { (result ≡ true) ↔ (self.now ≡ other.now) }
    {
        *self == *other
    }
}

/// The law of `==`: it is true of two types, fields or schemas exactly where they are equal, in
/// every type, name, nullability and metadata within them. The function does nothing.
pub fn equality_law()
    ensures types { (left right : DataType) → (⟦<DataType as PartialEq>⟧.eq left right ≡ true)
        ↔ (left ≡ right) }
    ensures fields { (left right : Field) → (⟦<Field as PartialEq>⟧.eq left right ≡ true)
        ↔ (left ≡ right) }
    ensures schemas { (left right : Schema) → (⟦<Schema as PartialEq>⟧.eq left right ≡ true)
        ↔ (left ≡ right) }
{}
