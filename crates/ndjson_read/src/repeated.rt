//! Rows whose types add nothing to those of the rows before them. They are read without a tree.
ghost use Rattle.std.specs.Prelude.{◌≡◌, ◌≤◌, ◌⊎◌, ◌∷◌, ◌++◌, [], List, ℕ, length, true, option_map, Some};
ghost use Rattle.json_tree.specs.Meaning.{IsJson};
ghost use Rattle.json_tree.specs.Reading.{found, member_at, object_at, value_at};
ghost use Rattle.json_tree.specs.Tree.{Json, object};
ghost use Rattle.arrow_core.specs.declared.types.DataType as types;
ghost use Rattle.json_infer.specs.Inferred.{type_of};
ghost use Rattle.json_infer.specs.KeptTypes.{more_kept};
ghost use Rattle.json_infer.specs.Lists.{Among};
ghost use Rattle.json_infer.specs.RowsSeen.{StandsFor};
ghost use Rattle.ndjson_read.specs.Compared.{AreKnown, IsKnown};

use crate::comparison::{Comparison, compare_value, has_fields};
use arrow_base::{DataType, Metadata};
use json_infer::{Columns, RowTypes};
use json_tree::grammar::{closes, goes_on, name_separator};
use json_tree::reader::Reader;
use std::alloc::Global;

// Reads a value, and tells whether its type is Null or the expected one, if there is any.
fn is_expected<'a>(
    reader: &mut Reader<'a>,
    expected: Option<&DataType>,
    no_metadata: &Metadata,
) -> bool
    requires { no_metadata.now ≡ [] }
    ensures reads { result ≡ true → (v : Json) × (value_at 127 reader.old ≡ found v reader.new)
        × ((type_of v ≡ types.Null) ⊎ (option_map (λ t. t.now) expected.entry ≡ Some (type_of v))) }
    ensures forward { length reader.new ≤ length reader.old }
{
    !matches!(
        compare_value(reader, 127, expected, no_metadata),
        Comparison::Unequal
    )
}

// Reads a value, and tells whether its type is Null or one of two others.
fn is_either<'a>(
    reader: &mut Reader<'a>,
    one: &DataType,
    other: &DataType,
    no_metadata: &Metadata,
) -> bool
    requires { no_metadata.now ≡ [] }
    ensures reads { result ≡ true → (v : Json) × (value_at 127 reader.old ≡ found v reader.new)
        × ((type_of v ≡ types.Null) ⊎ Among (type_of v) (one.now ∷ other.now ∷ [])) }
    ensures forward { length reader.new ≤ length reader.old }
{
    let mut second = reader.again();
    if is_expected(reader, Some(one), no_metadata) {
        return true;
    }
    let answer = is_expected(&mut second, Some(other), no_metadata);
    *reader = second;
    answer
}

// Reads a value, and tells whether its type is Null or one of the first two of these.
#[inline(always)]
fn is_among<'a>(reader: &mut Reader<'a>, data_types: &[DataType], no_metadata: &Metadata) -> bool
    requires { no_metadata.now ≡ [] }
    ensures reads { result ≡ true → (v : Json) × (value_at 127 reader.old ≡ found v reader.new)
        × ((type_of v ≡ types.Null) ⊎ Among (type_of v) data_types.now) }
    ensures forward { length reader.new ≤ length reader.old }
{
    match data_types {
        [] => is_expected(reader, None, no_metadata),
        [only] => is_expected(reader, Some(only), no_metadata),
        [one, other, ..] => is_either(reader, one, other, no_metadata),
    }
}

// Reads a member of a row, and tells whether its type is Null or one of those of its name.
#[inline(always)]
fn is_known<'a>(
    reader: &mut Reader<'a>,
    columns: &Columns,
    near: &mut usize,
    no_metadata: &Metadata,
) -> bool
    requires { no_metadata.now ≡ [] }
    ensures reads { result ≡ true → (name : List ℕ) × (v : Json)
        × (member_at (value_at 127) reader.old ≡ found (name, v) reader.new)
        × IsKnown columns.now name (type_of v) }
    ensures forward { length reader.new ≤ length reader.old }
{
    reader.skip_spaces();
    let Some(name) = reader.plain_string() else {
        return false;
    };
    let Ok(()) = name_separator(reader) else {
        return false;
    };
    reader.skip_spaces();
    match columns.types_near(near, name) {
        Some(data_types) => is_among(reader, data_types, no_metadata),
        None => is_expected(reader, None, no_metadata),
    }
}

// What follows the opening bracket of a row that is an object: whether the type of each member is
// Null or one of those of its name.
fn are_known<'a>(reader: &mut Reader<'a>, columns: &Columns, no_metadata: &Metadata) -> bool
    requires { no_metadata.now ≡ [] }
    ensures { result ≡ true → (members : List (List ℕ × Json))
        × (object_at (value_at 127) reader.old ≡ found (object members) reader.new)
        × AreKnown columns.now members }
{
    if closes(reader, b'}') {
        return true;
    }
    let mut near = 0;
    loop {
        if !is_known(reader, columns, &mut near, no_metadata) {
            return false;
        }
        let Ok(more) = goes_on(reader, b'}') else {
            return false;
        };
        if !more {
            return true;
        }
    }
}

// What follows the opening bracket of a row that is an object: whether its type adds nothing.
fn is_repeated<'a>(reader: &mut Reader<'a>, types: &RowTypes, no_metadata: &Metadata) -> bool
    requires { no_metadata.now ≡ [] }
    ensures { result ≡ true → (v : Json)
        × (object_at (value_at 127) reader.old ≡ found v reader.new)
        × (more_kept types.now (type_of v) ≡ types.now) }
{
    if let Some(columns) = types.columns() {
        return are_known(reader, columns, no_metadata);
    }
    match types.only_type() {
        Some(DataType::Struct(fields)) => has_fields(reader, 127, fields.as_slice(), no_metadata),
        _ => false,
    }
}

/// Whether a row is a JSON text whose type adds nothing to those of the rows before it, as far as
/// that is told without a tree: where they are Structs and the row is an object, whose members have
/// types that came.
pub(crate) fn adds_nothing(alloc: Global, types: &RowTypes, row: &str) -> bool
    ensures { result ≡ true → (v : Json) × IsJson v row.now × ((rows : List Json)
        → StandsFor types.now rows → StandsFor types.now (rows ++ v ∷ [])) }
{
    let mut reader = Reader::new(row.as_bytes());
    reader.skip_spaces();
    if !reader.takes(b'{') {
        return false;
    }
    let no_metadata = Metadata::new(alloc);
    if !is_repeated(&mut reader, types, &no_metadata) {
        return false;
    }
    reader.skip_spaces();
    match reader.peek() {
        None => true,
        Some(_) => false,
    }
}
