//! `==` of schemas, and of what they are made of, is true exactly where they are equal.
ghost use Rattle.std.specs.Prelude.{◌≡◌, ◌↔◌, true};
ghost use Rattle.avro_schema.specs.declared.schema.AvroField.{AvroField};
ghost use Rattle.avro_schema.specs.declared.schema.BytesLogical.{BytesLogical};
ghost use Rattle.avro_schema.specs.declared.schema.Enum.{Enum};
ghost use Rattle.avro_schema.specs.declared.schema.Fixed.{Fixed};
ghost use Rattle.avro_schema.specs.declared.schema.FixedLogical.{FixedLogical};
ghost use Rattle.avro_schema.specs.declared.schema.IntLogical.{IntLogical};
ghost use Rattle.avro_schema.specs.declared.schema.LongLogical.{LongLogical};
ghost use Rattle.avro_schema.specs.declared.schema.Record.{Record};
ghost use Rattle.avro_schema.specs.declared.schema.Schema.{Schema};
ghost use Rattle.avro_schema.specs.declared.schema.StringLogical.{StringLogical};

use crate::schema::{
    AvroField, BytesLogical, Enum, Fixed, FixedLogical, IntLogical, LongLogical, Record, Schema,
    StringLogical,
};

/// The law of `==`: it is true of two schemas, or of two parts of one kind, exactly where they are
/// equal, in every name, namespace, doc, type, size, symbol and logical type within them. The
/// function does nothing.
pub fn equality_law()
    ensures schemas { (left right : Schema) → (⟦<Schema as PartialEq>⟧.eq left right ≡ true)
        ↔ (left ≡ right) }
    ensures records { (left right : Record) → (⟦<Record as PartialEq>⟧.eq left right ≡ true)
        ↔ (left ≡ right) }
    ensures fields { (left right : AvroField) → (⟦<AvroField as PartialEq>⟧.eq left right ≡ true)
        ↔ (left ≡ right) }
    ensures enums { (left right : Enum) → (⟦<Enum as PartialEq>⟧.eq left right ≡ true)
        ↔ (left ≡ right) }
    ensures fixed { (left right : Fixed) → (⟦<Fixed as PartialEq>⟧.eq left right ≡ true)
        ↔ (left ≡ right) }
    ensures ints { (left right : IntLogical) → (⟦<IntLogical as PartialEq>⟧.eq left right ≡ true)
        ↔ (left ≡ right) }
    ensures longs { (left right : LongLogical) →
        (⟦<LongLogical as PartialEq>⟧.eq left right ≡ true) ↔ (left ≡ right) }
    ensures bytes { (left right : BytesLogical) →
        (⟦<BytesLogical as PartialEq>⟧.eq left right ≡ true) ↔ (left ≡ right) }
    ensures strings { (left right : StringLogical) →
        (⟦<StringLogical as PartialEq>⟧.eq left right ≡ true) ↔ (left ≡ right) }
    ensures fixed_logical { (left right : FixedLogical) →
        (⟦<FixedLogical as PartialEq>⟧.eq left right ≡ true) ↔ (left ≡ right) }
{}
