//! Lines as rows of a block.
ghost use Rattle.std.specs.Prelude.{◌≡◌, List, ℕ, length, true, IfSome, OnOk};
ghost use Rattle.arrow_core.specs.declared.types.Field.{Field};
ghost use Rattle.avro_schema.specs.declared.schema.Record.{Record};
ghost use Rattle.json_tree.specs.Layout.{distinct};
ghost use Rattle.line_encode.specs.Plans.{PushesLine, PushesLines};
ghost use Rattle.line_encode.specs.Makes.{IsLinePlanOf};
ghost use Rattle.line_encode.specs.Lines.{EncodesLines};

use crate::make::{make_names, make_plans};
use crate::names::Names;
use crate::plan::Plan;
use crate::push::push_record;
use arrow_core::{Field, Text};
use avro_schema::Record;
use json_lend::{GivenUp, Name};
use json_tree::reader::Reader;
use std::alloc::Global;

/// Appends the row that a line is: an object, with white space before and after it.
#[inline(always)]
fn push_line(
    alloc: Global,
    line: &str,
    names: &[Name],
    plans: &[Plan],
    out: &mut Vec<u8>,
) -> Result<(), GivenUp>
    requires distinct { distinct names.now ≡ true }
    ensures { OnOk result
        (PushesLine names.now plans.now line.now out.old.items out.new.items) }
{
    let mut reader = Reader::new(line.as_bytes());
    reader.skip_spaces();
    if !reader.takes(b'{') {
        return Err(GivenUp);
    }
    push_record(alloc, &mut reader, 127, names, plans, out)?;
    reader.skip_spaces();
    match reader.peek() {
        None => Ok(()),
        Some(_) => Err(GivenUp),
    }
}

/// Appends the rows that lines are, one after another.
fn push_lines(
    alloc: Global,
    lines: &[Text],
    names: &[Name],
    plans: &[Plan],
    out: &mut Vec<u8>,
) -> Result<(), GivenUp>
    requires distinct { distinct names.now ≡ true }
    ensures { OnOk result
        (PushesLines names.now plans.now lines.now out.old.items out.new.items) }
{
    for line in lines {
        push_line(alloc, line.as_str(), names, plans, out)?;
    }
    Ok(())
}

/// How the rows of lines are encoded, which is settled once for all of them.
#[derive(Drop)]
pub struct LinePlan {
    names: Names,
    plans: Vec<Plan>,
}

impl LinePlan {
    /// The plan of rows of these fields under the record. `None` where there is no field, or two have
    /// the same name, in a struct too; where a record has another number of fields; where a union
    /// isn't null and then another schema; and where a type and its schema are no pair of these:
    /// Boolean and boolean; Int32, Date32, Time32 and int; Int64, Date64, Time64, Timestamp and long;
    /// Utf8, LargeUtf8 and string; Binary, LargeBinary and bytes without a logical type; List,
    /// LargeList and array; Struct and record. Also where there is no memory.
    pub fn new(alloc: Global, fields: &[Field], root: &Record) -> Option<LinePlan>
        ensures { IfSome result (IsLinePlanOf fields.now root.now) }
    {
        let names = make_names(alloc, fields)?;
        let plans = make_plans(alloc, fields, root.fields.as_slice())?;
        Some(LinePlan { names, plans })
    }

    /// Appends the canonical encodings of the rows that the lines are, one after another (Avro 1.11,
    /// "Binary Encoding"). Each line is an object (RFC 8259), in which at most 128 brackets are open
    /// at once; a missing member is as null, and a member that no field names is passed over.
    ///
    /// `GivenUp` may come at any time, and `out` may then hold any bytes: at a line that is no such
    /// object; where fields' keys stand twice or in another order than the fields; under more than 256
    /// fields at a key that is none of theirs or has an escape; at a null or a missing member where
    /// the record requires a value; at a value of another kind than its type's own, though it may mean
    /// a slot (a number under a string), or one that doesn't fit; at a list of more than 2147483647
    /// items; and where there is no memory.
    pub fn encode_lines(
        &self,
        alloc: Global,
        lines: &[Text],
        out: &mut Vec<u8>,
    ) -> Result<(), GivenUp>
        ensures { (fields : List Field) (root : Record) → IsLinePlanOf fields root self.now
            → OnOk result (EncodesLines fields root lines.now out.old.items out.new.items) }
    {
        push_lines(
            alloc,
            lines,
            self.names.as_slice(),
            self.plans.as_slice(),
            out,
        )
    }
}
