//! The type of rows that come one at a time.
ghost use Rattle.std.specs.Prelude.{◌≡◌, [], ◌∷◌, ◌++◌, List, IfOk, IfSome, OnOk};
ghost use Rattle.arrow_core.specs.Errors.{OnlyOutOfMemory};
ghost use Rattle.json_tree.specs.declared.value.Value as value;
ghost use Rattle.json_infer.specs.Inferred.{type_of_rows};
ghost use Rattle.json_infer.specs.RowsSeen.{StandsFor};
ghost use Rattle.json_infer.specs.declared.seen.Seen.TheVariants as seen;

use crate::coercion::coerced;
use crate::columns::Columns;
use crate::infer_schema::{add_kept, infer};
use crate::seen::Seen;
use arrow_core::{DataType, Result};
use json_tree::Value;
use std::alloc::Global;
use std::marker::Model;

/// The types of rows that came so far, as far as they matter to the type of all: two distinct ones
/// at most, or the distinct types of each member. What is kept grows only with a row that brings a
/// new type, a new name, or a new type of a name. A row takes time linear in its size, times the
/// logarithm of how many names, or types of one name, came before, and at worst times the square of how
/// deep its arrays nest.
#[derive(Drop)]
pub struct RowTypes {
    alloc: Global,
    seen: Seen,
}

impl Model for RowTypes {
    ghost use Rattle.json_infer.specs.declared.seen.Seen.{Seen};
    ghost use Rattle.std.specs.Coded.{codes};
    ghost use Rattle.arrow_core.specs.contracts.types.DataType as data_type;

    ghost Value = { Seen };

    ghost coded = { Prim.hlevel (codes, data_type.the_row.coded) };

    ghost view = { λ r. r.seen };
}

impl RowTypes {
    /// The types of no rows.
    pub fn new(alloc: Global) -> RowTypes
        ensures { StandsFor result [] }
    {
        RowTypes {
            alloc,
            seen: Seen::Nothing,
        }
    }

    /// Adds a row. `OutOfMemory` alone; after that the types are those of a part of the row, and
    /// stand for no rows.
    pub fn add(&mut self, json: &Value) -> Result<()>
        ensures added { OnOk result ((rows : List value.Value) → StandsFor self.old rows
            → StandsFor self.new (rows ++ json.now ∷ [])) }
        ensures memory { OnlyOutOfMemory result }
    {
        let data_type = infer(self.alloc, json)?;
        add_kept(self.alloc, &mut self.seen, &data_type)
    }

    /// The one type of the rows so far that isn't Null. `None` where there are more or none, which
    /// no clause says.
    pub fn only_type(&self) -> Option<&DataType>
        ensures { IfSome result (λ t. self.now ≡ seen.One t.now) }
    {
        match &self.seen {
            Seen::One(data_type) => Some(data_type),
            _ => None,
        }
    }

    /// The names and types of the members so far, where two distinct types came or more, all of
    /// them Structs; else `None`, which no clause says. A Struct of such members adds nothing.
    pub fn columns(&self) -> Option<&Columns>
        ensures { IfSome result (λ columns. self.now ≡ seen.Structs columns.now) }
    {
        match &self.seen {
            Seen::Structs(columns) => Some(columns),
            _ => None,
        }
    }

    /// The type of the rows so far: the coercion of their distinct types that aren't Null, in order
    /// of first appearance. `OutOfMemory` alone.
    pub fn result(&self) -> Result<DataType>
        ensures inferred { IfOk result (λ t. (rows : List value.Value) → StandsFor self.now rows
            → t ≡ type_of_rows rows) }
        ensures memory { OnlyOutOfMemory result }
    {
        coerced(self.alloc, &self.seen)
    }
}
