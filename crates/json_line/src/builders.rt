//! Builders that are kept from lines to lines.
ghost use Rattle.std.specs.Prelude.{◌≡◌, [], true, false, List, map, All, IfOk, MatchOption};
ghost use Rattle.arrow_core.specs.declared.types.Field.{Field};
ghost use Rattle.arrow_array.specs.Arrays.{array_slots, array_type};
ghost use Rattle.arrow_builders.specs.MutableArrays.{builder_slots, builder_type};
ghost use Rattle.arrow_builders.specs.Shapes.{shape};
ghost use Rattle.arrow_core.specs.Errors.{OnlyOutOfMemory};
ghost use Rattle.arrow_builders.specs.Tight.{AllTight};
ghost use Rattle.json_line.specs.Builders.{AreLineBuilders};
ghost use Rattle.json_line.specs.Lines.{are_line_fields as are_line_fields_of, AreColumnsOf};

use crate::field_names::{FieldNames, names_below, names_of};
use crate::line::push_lines;
use crate::made::make_builders;
use crate::types::are_line_fields;
use arrow_array::Array;
use arrow_builders::MutableArray;
use arrow_core::{Field, Result, Text};
use json_lend::{GivenUp, Name};
use std::alloc::Global;
use std::marker::Model;

/// Builders of the columns that lines are read into. Contracts see the fields of the columns.
#[derive(Drop)]
pub struct LineBuilders {
    alloc: Global,
    fields: Vec<Field>,
    names: Vec<Name>,
    below: Vec<FieldNames>,
    builders: Vec<MutableArray>,
    // what a string with escapes is read into
    buffer: String,
}

impl Model for LineBuilders {
    ghost use Rattle.std.specs.Prelude.{List};
    ghost use Rattle.std.specs.Coded.{coded_list};
    ghost use Rattle.arrow_core.specs.declared.types.Field.{Field};
    ghost use Rattle.arrow_core.specs.contracts.types.Field as the_fields;
    ghost use Rattle.json_line.specs.Builders.{AreLineBuilders};

    ghost Value = { List Field };

    ghost coded = { coded_list the_fields.the_row.coded };

    ghost view = { λ b. b.fields.items };

    ghost invariant = { λ b.
        AreLineBuilders b.fields.items b.names.items b.below.items b.builders.items };
}

/// Drops the slots of each builder.
fn clear_all(builders: &mut [MutableArray])
    ensures shapes { map shape builders.new ≡ map shape builders.old }
    ensures slots { All (λ b. builder_slots b ≡ []) builders.new }
    ensures tight { AllTight 0 builders.new }
{
    for i in 0..builders.len() {
        builders[i].clear();
    }
}

/// The arrays of the builders' slots.
fn box_all(alloc: Global, builders: &mut [MutableArray]) -> std::result::Result<Vec<Array>, GivenUp>
    ensures shapes { map shape builders.new ≡ map shape builders.old }
    ensures array_types { IfOk result
        (λ arrays. map array_type arrays.items ≡ map builder_type builders.old) }
    ensures array_slots { IfOk result
        (λ arrays. map array_slots arrays.items ≡ map builder_slots builders.old) }
{
    let mut arrays = Vec::with_capacity(alloc, builders.len())?;
    for i in 0..builders.len() {
        let array = builders[i].as_box()?;
        arrays.push(array)?;
    }
    Ok(arrays)
}

/// The columns of the lines' members, by the names and the builders of their fields. `below` are the
/// names beneath each. `buffer` takes the text of each string that has escapes, one after another.
fn read_all(
    alloc: Global,
    buffer: &mut String,
    lines: &[Text],
    names: &[Name],
    below: &[FieldNames],
    builders: &mut [MutableArray],
) -> std::result::Result<Vec<Array>, GivenUp>
    requires { (fields : List Field) × AreLineBuilders fields names.now below.now builders.old }
    ensures shapes { map shape builders.new ≡ map shape builders.old }
    ensures ok { (fields : List Field) → AreLineBuilders fields names.now below.now builders.old
        → IfOk result (λ columns. AreColumnsOf fields lines.now columns.items) }
{
    clear_all(builders);
    push_lines(buffer, lines, names, below, builders)?;
    box_all(alloc, builders)
}

impl LineBuilders {
    /// Builders of the columns of these fields. `None` exactly where two fields have the same name,
    /// or a type is none of Null, Boolean, integers of 8 to 64 bits, dates, times, timestamps,
    /// durations, intervals of months, Utf8, Binary and their large forms, List and LargeList of
    /// these, FixedSizeList of at least one item of these, and Struct of at least one field of these
    /// with no name twice. `OutOfMemory` alone.
    pub fn new(alloc: Global, fields: Vec<Field>) -> Result<Option<LineBuilders>>
        ensures ok { IfOk result (λ made. MatchOption made (are_line_fields_of fields.items ≡ false)
            (λ builders. (builders ≡ fields.items) × (are_line_fields_of fields.items ≡ true))) }
        ensures memory { OnlyOutOfMemory result }
    {
        if !are_line_fields(alloc, fields.as_slice())? {
            return Ok(None);
        }
        let names = names_of(alloc, fields.as_slice())?;
        let below = names_below(alloc, fields.as_slice())?;
        let builders = make_builders(alloc, fields.as_slice())?;
        Ok(Some(LineBuilders {
            alloc,
            fields,
            names,
            below,
            builders,
            buffer: String::new(alloc),
        }))
    }

    /// The columns of the lines' members, one for each field: each line is an object (RFC 8259), in
    /// which at most 128 brackets are open at once, and the slot of a column is the one that the
    /// member of the field's name means under its type, a missing one as null, and the last one where
    /// several have the name. A member that no field names is passed over.
    ///
    /// `GivenUp` may come at any time. The builders are then fit for other lines all the same.
    pub fn read_lines(&mut self, lines: &[Text]) -> std::result::Result<Vec<Array>, GivenUp>
        ensures ok { IfOk result
            (λ columns. AreColumnsOf self.old lines.now columns.items) }
        ensures same { self.new ≡ self.old }
    {
        let names = self.names.as_slice();
        let below = self.below.as_slice();
        read_all(
            self.alloc,
            &mut self.buffer,
            lines,
            names,
            below,
            &mut self.builders,
        )
    }
}
