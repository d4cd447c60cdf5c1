//! Builders of columns that are kept from lines to lines.
ghost use Rattle.std.specs.Prelude.{◌≡◌, ◌≢◌, true, false, List, IfOk, MatchOption, OnOk};
ghost use Rattle.arrow_array.specs.Arrays.{array_slots, array_type};
ghost use Rattle.arrow_core.specs.Errors.{OnlyOutOfMemory};
ghost use Rattle.arrow_dictionaries.specs.Encoding.{HasFirstValues, HaveFirstValues};
ghost use Rattle.arrow_core.specs.declared.types.DataType.{Struct};
ghost use Rattle.arrow_core.specs.declared.types.Field.{Field};
ghost use Rattle.json_line.specs.Lines.{AreColumnsOf};
ghost use Rattle.ndjson.specs.LineColumns.{AreRowsOf, is_readable as is_readable_type};

use crate::encode::encode_columns;
use crate::stored::stored_fields;
use arrow_array::{Array, StructArray};
use arrow_core::{DataType, Field, Items, Result, Text};
use json_columns::{has_json_reading, names_twice};
use json_line::{GivenUp, LineBuilders};
use std::alloc::Global;
use std::marker::Model;

/// Builders of the columns that lines are read into. Contracts see the fields of the columns.
#[derive(Drop)]
pub struct LineColumns {
    alloc: Global,
    fields: Vec<Field>,
    // Of the columns before dictionaries are made of them.
    lines: LineBuilders,
}

impl Model for LineColumns {
    ghost use Rattle.std.specs.Prelude.{List};
    ghost use Rattle.std.specs.Coded.{coded_list};
    ghost use Rattle.arrow_core.specs.declared.types.Field.{Field};
    ghost use Rattle.arrow_core.specs.contracts.types.Field as the_fields;
    ghost use Rattle.ndjson.specs.LineColumns.{AreKept};

    ghost Value = { List Field };

    ghost coded = { coded_list the_fields.the_row.coded };

    ghost view = { λ b. b.fields.items };

    ghost invariant = { λ b. AreKept b.fields.items b.lines };
}

/// The fields of a Struct; `None` for another type.
pub(crate) fn struct_fields(row_type: DataType) -> Option<Vec<Field>>
    ensures { MatchOption result ((fields : List Field) → row_type ≢ Struct fields)
        (λ fields. row_type ≡ Struct fields.items) }
{
    match row_type {
        DataType::Struct(fields) => Some(fields.into_vec()),
        _ => None,
    }
}

/// Whether values are read under the type, and no Struct in it names a field twice.
fn is_readable(alloc: Global, data_type: &DataType) -> Result<bool>
    ensures ok { IfOk result (λ b. b ≡ is_readable_type data_type.now) }
    ensures memory { OnlyOutOfMemory result }
{
    if !has_json_reading(data_type) {
        return Ok(false);
    }
    Ok(!names_twice(alloc, data_type)?)
}

/// The fields, where values are read under a Struct of them, in which none names a field twice.
fn readable_fields(alloc: Global, fields: Vec<Field>) -> Result<Option<Vec<Field>>>
    ensures ok { IfOk result
        (λ readable. MatchOption readable (is_readable_type (Struct fields.items) ≡ false)
        (λ kept. (kept.items ≡ fields.items)
        × (is_readable_type (Struct fields.items) ≡ true))) }
    ensures memory { OnlyOutOfMemory result }
{
    let row_type = DataType::Struct(Items::from_vec(fields));
    if !is_readable(alloc, &row_type)? {
        return Ok(None);
    }
    Ok(struct_fields(row_type))
}

impl LineColumns {
    /// Builders of the columns of these fields. `None` exactly where there is no field, where two
    /// fields, or two of a Struct at any depth, have the same name, or where one of the types has
    /// no reading. The types that `json_line` reads have one, and so have dictionaries over strings
    /// or over integers of 8 to 64 bits with a sign, at every depth. `OutOfMemory` alone.
    pub fn new(alloc: Global, fields: Vec<Field>) -> Result<Option<LineColumns>>
        ensures ok { IfOk result
            (λ made. MatchOption made (is_readable_type (Struct fields.items) ≡ false)
            (λ columns. (columns ≡ fields.items)
            × (is_readable_type (Struct fields.items) ≡ true))) }
        ensures memory { OnlyOutOfMemory result }
    {
        let Some(fields) = readable_fields(alloc, fields)? else {
            return Ok(None);
        };
        let stored = stored_fields(alloc, fields.as_slice())?;
        match LineBuilders::new(alloc, stored)? {
            Some(lines) => Ok(Some(LineColumns {
                alloc,
                fields,
                lines,
            })),
            // Never: lines are read into the fields that are stored for these.
            None => Ok(None),
        }
    }

    /// The columns of the lines' members, one for each field, as `LineBuilders` of `json_line` has
    /// them. The values of each dictionary, at every depth, are its distinct slots but null, in
    /// order of first appearance. Each field's type has a reading, and no two fields have the same
    /// name, nor two of a Struct at any depth.
    ///
    /// `GivenUp` may come at any time, also where there are more distinct values than the key type
    /// has numbers from 0 on. The builders are then fit for other lines all the same.
    pub fn read_lines(&mut self, lines: &[Text]) -> std::result::Result<Vec<Array>, GivenUp>
        ensures ok { IfOk result
            (λ columns. AreColumnsOf self.old lines.now columns.items) }
        ensures dictionaries { IfOk result (λ columns. HaveFirstValues columns.items) }
        ensures readable { OnOk result (is_readable_type (Struct self.old) ≡ true) }
        ensures same { self.new ≡ self.old }
    {
        let mut columns = self.lines.read_lines(lines)?;
        encode_columns(self.alloc, self.fields.as_slice(), columns.as_mut_slice())?;
        Ok(columns)
    }

    /// The lines as structs of this type, whose fields are those of the columns: each line is an
    /// object, and its slot is what it means under the type, which has a reading and names no field
    /// twice. The values of each dictionary, at every depth, are its distinct slots but null, in
    /// order of first appearance.
    ///
    /// `GivenUp` may come at any time. The builders are then fit for other lines all the same.
    pub fn read_rows(
        &mut self,
        lines: &[Text],
        row_type: &DataType,
    ) -> std::result::Result<Array, GivenUp>
        requires { row_type.now ≡ Struct self.old }
        ensures ok { IfOk result
            (λ a. AreRowsOf lines.now row_type.now (array_type a) (array_slots a)) }
        ensures dictionaries { IfOk result HasFirstValues }
        ensures same { self.new ≡ self.old }
    {
        let columns = self.read_lines(lines)?;
        let data_type = row_type.try_clone(self.alloc)?;
        let array = StructArray::try_new(self.alloc, data_type, columns, None)?;
        Ok(Array::Struct(array))
    }
}
