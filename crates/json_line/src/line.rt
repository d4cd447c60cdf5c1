//! Lines into builders.
ghost use Rattle.std.specs.Prelude.{◌≡◌, ◌≤◌, ◌<◌, ◌+◌, List, ℕ, length, map, true, IfSome, OnOk};
ghost use Rattle.arrow_builders.specs.Children.{fields_of};
ghost use Rattle.arrow_builders.specs.Shapes.{shape};
ghost use Rattle.arrow_builders.specs.Tight.{AllTight};
ghost use Rattle.json_tree.specs.Layout.{distinct};
ghost use Rattle.json_tree.specs.Meaning.{IsJson};
ghost use Rattle.json_tree.specs.Tree.{Json, object};
ghost use Rattle.json_line.specs.Builders.{AllSuit, AreTight, ReadsMember, ReadsObject, TakesRow, TakesRows};
ghost use Rattle.json_line.specs.Lines.{AreObjects};

use crate::field_names::FieldNames;
use crate::fill::fill_columns;
use crate::push::push_once;
use arrow_builders::MutableArray;
use arrow_core::Text;
use json_lend::{GivenUp, Name, read_name, skip_value};
use json_tree::grammar::{closes, goes_on};
use json_tree::reader::Reader;

// A member's value, to the builder at the index, or skipped where there is no index.
#[inline(always)]
fn read_column<'a>(
    buffer: &mut String,
    reader: &mut Reader<'a>,
    depth: usize,
    at: Option<usize>,
    below: &[FieldNames],
    builders: &mut [MutableArray],
    count: usize,
) -> Result<(), GivenUp>
    requires within { IfSome at (λ i. i < length builders.old) }
    requires suits { AllSuit below.now (fields_of (map shape builders.old)) }
    requires tight { AreTight builders.old }
    ensures shapes { map shape builders.new ≡ map shape builders.old }
    ensures forward { length reader.new ≤ length reader.old }
    ensures ok { OnOk result
        (ReadsMember depth count at reader.old reader.new builders.old builders.new) }
{
    match at {
        Some(i) => push_once(buffer, reader, depth, &below[i], &mut builders[i], count),
        None => {
            skip_value(reader, depth)?;
            Ok(())
        }
    }
}

// Each member, one after another, and the closing bracket. A builder whose name is no key stays.
#[inline(always)]
fn read_columns<'a>(
    buffer: &mut String,
    reader: &mut Reader<'a>,
    depth: usize,
    names: &[Name],
    below: &[FieldNames],
    builders: &mut [MutableArray],
    count: usize,
) -> Result<(), GivenUp>
    requires distinct { distinct names.now ≡ true }
    requires fits { length builders.old ≡ length names.now }
    requires suits { AllSuit below.now (fields_of (map shape builders.old)) }
    requires tight { AllTight count builders.old }
    ensures shapes { map shape builders.new ≡ map shape builders.old }
    ensures forward { length reader.new ≤ length reader.old }
    ensures ok { OnOk result
        (ReadsObject depth names.now reader.old reader.new builders.old builders.new) }
{
    if closes(reader, b'}') {
        return Ok(());
    }
    let mut guess = 0;
    loop {
        let at = read_name(reader, names, guess)?;
        read_column(buffer, reader, depth, at, below, builders, count)?;
        if let Some(i) = at {
            guess = i + 1;
        }
        if !goes_on(reader, b'}')? {
            return Ok(());
        }
    }
}

/// Reads a line that is an object into builders, one for each name, each of which has `count` slots:
/// each takes the slot that the value of its name means, which is null where no member has the name.
/// `below` are the names beneath each. After `GivenUp` the builders have any slots.
#[inline(always)]
fn push_line(
    buffer: &mut String,
    line: &str,
    names: &[Name],
    below: &[FieldNames],
    builders: &mut [MutableArray],
    count: usize,
) -> Result<(), GivenUp>
    requires distinct { distinct names.now ≡ true }
    requires fits { length builders.old ≡ length names.now }
    requires suits { AllSuit below.now (fields_of (map shape builders.old)) }
    requires tight { AllTight count builders.old }
    ensures shapes { map shape builders.new ≡ map shape builders.old }
    ensures tight { OnOk result (AllTight (count + 1) builders.new) }
    ensures ok { OnOk result ((members : List (List ℕ × Json)) × IsJson (object members) line.now
        × TakesRow names.now members builders.old builders.new) }
{
    let mut reader = Reader::new(line.as_bytes());
    reader.skip_spaces();
    if !reader.takes(b'{') {
        return Err(GivenUp);
    }
    read_columns(buffer, &mut reader, 127, names, below, builders, count)?;
    fill_columns(builders, count)?;
    reader.skip_spaces();
    match reader.peek() {
        None => Ok(()),
        Some(_) => Err(GivenUp),
    }
}

/// Reads lines that are objects into empty builders, one for each name: each takes for each line the
/// slot that the value of its name means. After `GivenUp` the builders have any slots.
pub(crate) fn push_lines(
    buffer: &mut String,
    lines: &[Text],
    names: &[Name],
    below: &[FieldNames],
    builders: &mut [MutableArray],
) -> Result<(), GivenUp>
    requires distinct { distinct names.now ≡ true }
    requires fits { length builders.old ≡ length names.now }
    requires suits { AllSuit below.now (fields_of (map shape builders.old)) }
    requires tight { AllTight 0 builders.old }
    ensures shapes { map shape builders.new ≡ map shape builders.old }
    ensures ok { OnOk result ((rows : List (List (List ℕ × Json))) × AreObjects rows lines.now
        × TakesRows names.now rows builders.old builders.new) }
{
    for i in 0..lines.len() {
        push_line(buffer, lines[i].as_str(), names, below, builders, i)?;
    }
    Ok(())
}
