//! The canonical encodings of a column's slots under a schema, which is looked at once.
ghost use Rattle.std.specs.Prelude.{◌≡◌, ◌<◌, ◌++◌, [], length, map, drop, slice_index_or, All, IfOk, OnOk};
ghost use Rattle.std.specs.List.{concat};
ghost use Rattle.arrow_core.specs.Errors.{OnlyOutOfMemory};
ghost use Rattle.arrow_array.specs.Arrays.{array_slots, array_type};
ghost use Rattle.avro_encode.specs.Pairs.{Pairs};
ghost use Rattle.avro_encode.specs.PairTypes.{PairsType};
ghost use Rattle.avro_encode.specs.Plain.{plain};

use crate::column::{ColumnKind, flat_kind};
use crate::nulls::{Nulls, nulls_of};
use arrow_array::Array;
use arrow_core::Result;
use avro_schema::AvroSchema;
use std::alloc::{AllocError, Global};
use std::marker::Model;

/// An array beside what of its slots' schema it takes to append their canonical encodings.
///
/// Contracts see the list of these encodings.
#[derive(Drop)]
pub struct ColumnEncoder<'a> {
    kind: ColumnKind<'a>,
    nulls: Nulls,
    len: usize,
}

impl<'a> Model for ColumnEncoder<'a> {
    ghost use Rattle.std.specs.Prelude.{◌≡◌, ℕ, List, length, map};
    ghost use Rattle.std.specs.Coded.{coded_list, coded_ℕ};
    ghost use Rattle.avro_encode.specs.Columns.{FitColumn, column_encoding, column_slots};

    ghost Value = { List (List ℕ) };

    ghost coded = { coded_list (coded_list coded_ℕ) };

    ghost view = { λ c. map (column_encoding c.nulls c.kind) (column_slots c.kind) };

    ghost invariant = { λ c. (c.len ≡ length (column_slots c.kind)) × FitColumn c.nulls c.kind };
}

impl<'a> ColumnEncoder<'a> {
    /// The encoder of an array whose type and slots pair with the schema. It takes memory for a copy
    /// of the schema alone, and none where the slots have nothing beneath them.
    ///
    /// `OutOfMemory` alone.
    pub fn new(alloc: Global, array: &'a Array, schema: &AvroSchema) -> Result<ColumnEncoder<'a>>
        requires types { PairsType schema.now (array_type array.now) }
        requires slots { All (Pairs schema.now) (array_slots array.now) }
        ensures ok { IfOk result (λ c. c ≡ map (plain schema.now) (array_slots array.now)) }
        ensures memory { OnlyOutOfMemory result }
    {
        let len = array.len();
        // It tells how slots of the type lie in memory.
        let _ = array.data_type();
        match nulls_of(schema) {
            Some(nulls) => Ok(ColumnEncoder {
                kind: flat_kind(array),
                nulls,
                len,
            }),
            None => Ok(ColumnEncoder {
                kind: ColumnKind::Nested(array, schema.try_clone(alloc)?),
                nulls: Nulls::Required,
                len,
            }),
        }
    }

    /// How many slots there are.
    pub fn len(&self) -> usize
        ensures { result ≡ length self.now }
    {
        self.len
    }

    /// Appends the encoding of slot `i`. It takes no memory but the bytes'.
    ///
    /// `AllocError` where there is no memory, and then the bytes are only to be dropped.
    #[inline(always)]
    pub fn append(&self, i: usize, out: &mut Vec<u8>) -> std::result::Result<(), AllocError>
        requires within { i < length self.now }
        ensures ok { OnOk result (out.new.items ≡ out.old.items ++ slice_index_or self.now i []) }
    {
        self.kind.append(self.nulls, i, out)
    }

    /// Appends the encodings of the slots from `start` on, one after another, in a loop of its own
    /// for each kind of slots with nothing beneath them. It takes no memory but the bytes'.
    ///
    /// `AllocError` where there is no memory, and then the bytes are only to be dropped.
    pub fn append_from(
        &self,
        start: usize,
        out: &mut Vec<u8>,
    ) -> std::result::Result<(), AllocError>
        ensures ok { OnOk result (out.new.items ≡ out.old.items ++ concat (drop start self.now)) }
    {
        self.kind.append_from(self.nulls, start, self.len, out)
    }
}
