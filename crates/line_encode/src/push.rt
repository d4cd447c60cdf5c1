//! Values are encoded as they are read.
ghost use Rattle.std.specs.Prelude.{◌≡◌, ◌≤◌, ◌<◌, ◌∷◌, ◌^◌, length, true, MatchBool, IfOk, IfSome, OnOk};
ghost use Rattle.json_tree.specs.Layout.{distinct};
ghost use Rattle.json_tree.specs.Reading.{array_at, object_at, value_at};
ghost use Rattle.line_encode.specs.Plans.{Blocks, OrNull, Reads, ReadsField, ReadsItems, Writes, WritesList, WritesRecord};

use crate::fields::{push_all_null, push_nulls};
use crate::plan::Plan;
use crate::primitive::{push_index, push_primitive, read_null};
use avro_encode::append_number;
use json_lend::{GivenUp, Name, read_name, skip_value};
use json_tree::grammar::{closes, goes_on};
use json_tree::reader::Reader;
use std::alloc::Global;

/// The greatest count whose encoding is one byte: zigzag makes it 126.
const COUNTED_IN_A_BYTE: usize = 63;

/// Lists of more items are given up. Below 2^62 a count may be counted up and encoded; this is well
/// within that.
const MOST_ITEMS: usize = 0x7fff_ffff;

// Whether one item more may be counted.
#[inline(always)]
fn may_count(count: usize) -> bool
    ensures { result ≡ true → count < 2 ^ 62 }
{
    count < MOST_ITEMS
}

// Whether this bracket is next and may be opened. Then it is passed.
#[inline(always)]
fn opens<'a>(reader: &mut Reader<'a>, bracket: u8, depth: usize) -> bool
    ensures { MatchBool result ((reader.old ≡ bracket ∷ reader.new) × (0 < depth))
        (reader.new ≡ reader.old) }
{
    depth > 0 && reader.takes(bracket)
}

/// Reads the value that is next, in which at most `depth` brackets are open at once, and appends its
/// encoding by the plan.
///
/// `GivenUp` may come at any time, and `out` may then hold any bytes: where no value stands there,
/// where it isn't of the plan's kind, where members stand in another order than the fields, where
/// `read_name` gives a name up, and where there is no memory.
#[cycle(push)]
#[inline(always)]
fn push_value<'a>(
    alloc: Global,
    reader: &mut Reader<'a>,
    depth: usize,
    plan: &Plan,
    out: &mut Vec<u8>,
) -> Result<(), GivenUp>
    ensures forward { length reader.new ≤ length reader.old }
    ensures ok { OnOk result (Reads (Writes plan.now) (value_at depth)
        reader.old reader.new out.old.items out.new.items) }
{
    match plan {
        Plan::Primitive(nullable, primitive) => {
            push_primitive(alloc, reader, depth, *nullable, *primitive, out)
        }
        Plan::List(nullable, item) => push_array(alloc, reader, depth, *nullable, item, out),
        Plan::Record(nullable, names, plans) => {
            let (names, plans) = (names.as_slice(), plans.as_slice());
            push_object(alloc, reader, depth, *nullable, names, plans, out)
        }
    }
}

/// Reads an array, or null where it may stand, and appends it.
#[cycle(push)]
#[inline(always)]
fn push_array<'a>(
    alloc: Global,
    reader: &mut Reader<'a>,
    depth: usize,
    nullable: bool,
    item: &Plan,
    out: &mut Vec<u8>,
) -> Result<(), GivenUp>
    ensures forward { length reader.new ≤ length reader.old }
    ensures ok { OnOk result (Reads (OrNull nullable (WritesList (Writes item.now)))
        (value_at depth)
        reader.old reader.new out.old.items out.new.items) }
{
    if !opens(reader, b'[', depth) {
        return read_null(reader, depth, nullable, out);
    }
    push_index(nullable, out)?;
    push_list(alloc, reader, depth - 1, item, out)
}

/// Reads an object, or null where it may stand, and appends it.
#[cycle(push)]
#[inline(always)]
fn push_object<'a>(
    alloc: Global,
    reader: &mut Reader<'a>,
    depth: usize,
    nullable: bool,
    names: &[Name],
    plans: &[Plan],
    out: &mut Vec<u8>,
) -> Result<(), GivenUp>
    requires distinct { distinct names.now ≡ true }
    ensures forward { length reader.new ≤ length reader.old }
    ensures ok { OnOk result (Reads (OrNull nullable (WritesRecord names.now plans.now))
        (value_at depth) reader.old reader.new out.old.items out.new.items) }
{
    if !opens(reader, b'{', depth) {
        return read_null(reader, depth, nullable, out);
    }
    push_index(nullable, out)?;
    push_record(alloc, reader, depth - 1, names, plans, out)
}

/// Reads what follows the opening bracket of an array, and appends its items as one block after
/// their count, and the end of blocks (Avro 1.11, "Arrays").
// The count is known only at the end. It mostly takes one byte, for which a zero stands until then;
// where there are no items, that zero is the end of blocks.
#[cycle(push)]
#[inline(never)]
fn push_list<'a>(
    alloc: Global,
    reader: &mut Reader<'a>,
    depth: usize,
    item: &Plan,
    out: &mut Vec<u8>,
) -> Result<(), GivenUp>
    ensures forward { length reader.new ≤ length reader.old }
    ensures ok { OnOk result (Reads (WritesList (Writes item.now)) (array_at (value_at depth))
        reader.old reader.new out.old.items out.new.items) }
{
    let start = out.len();
    out.push(0)?;
    let count = push_items(alloc, reader, depth, item, out)?;
    end_block(alloc, start, count, out)
}

/// Puts the count of items before them, in place of the zero that stands at `start`, and appends
/// the end of blocks.
#[inline(always)]
fn end_block(alloc: Global, start: usize, count: usize, out: &mut Vec<u8>) -> Result<(), GivenUp>
    requires within { start < length out.old.items }
    requires few { count < 2 ^ 63 }
    ensures { OnOk result (Blocks start count out.old.items out.new.items) }
{
    if count == 0 {
        return Ok(());
    }
    if count > COUNTED_IN_A_BYTE {
        return move_items(alloc, start, count, out);
    }
    out[start] = (count * 2) as u8;
    out.push(0)?;
    Ok(())
}

/// The same of more items: they are moved, since their count takes more than one byte.
#[cold]
#[inline(never)]
fn move_items(alloc: Global, start: usize, count: usize, out: &mut Vec<u8>) -> Result<(), GivenUp>
    requires within { start < length out.old.items }
    requires some { 0 < count }
    requires few { count < 2 ^ 63 }
    ensures { OnOk result (Blocks start count out.old.items out.new.items) }
{
    let mut items = Vec::new(alloc);
    items.extend_from_slice(&out.as_slice()[start + 1..])?;
    out.truncate(start);
    append_number(count as i64, out)?;
    out.extend_from_slice(items.as_slice())?;
    out.push(0)?;
    Ok(())
}

/// Reads each item, one after another, and the closing bracket, and appends the items' encodings.
/// Answers how many there are.
#[cycle(push)]
#[inline(always)]
fn push_items<'a>(
    alloc: Global,
    reader: &mut Reader<'a>,
    depth: usize,
    item: &Plan,
    out: &mut Vec<u8>,
) -> Result<usize, GivenUp>
    ensures forward { length reader.new ≤ length reader.old }
    ensures ok { IfOk result (λ count. ReadsItems (Writes item.now) depth count
        reader.old reader.new out.old.items out.new.items) }
{
    if closes(reader, b']') {
        return Ok(0);
    }
    let mut count: usize = 0;
    loop {
        if !may_count(count) {
            return Err(GivenUp);
        }
        reader.skip_spaces();
        push_value(alloc, reader, depth, item, out)?;
        count += 1;
        if !goes_on(reader, b']')? {
            return Ok(count);
        }
    }
}

/// Reads what follows the opening bracket of an object, and appends the value of each field in
/// order, which is null where no member has its name. A member that no field names is passed over.
#[cycle(push)]
#[inline(never)]
pub(crate) fn push_record<'a>(
    alloc: Global,
    reader: &mut Reader<'a>,
    depth: usize,
    names: &[Name],
    plans: &[Plan],
    out: &mut Vec<u8>,
) -> Result<(), GivenUp>
    requires distinct { distinct names.now ≡ true }
    ensures forward { length reader.new ≤ length reader.old }
    ensures ok { OnOk result (Reads (WritesRecord names.now plans.now) (object_at (value_at depth))
        reader.old reader.new out.old.items out.new.items) }
{
    // As many where they were made; no clause says it.
    if names.len() != plans.len() {
        return Err(GivenUp);
    }
    if closes(reader, b'}') {
        return push_all_null(plans, out);
    }
    let mut next: usize = 0;
    loop {
        let at = read_name(reader, names, next)?;
        next = push_field(alloc, reader, depth, at, plans, next, out)?;
        if !goes_on(reader, b'}')? {
            return push_nulls(plans, next, plans.len(), out);
        }
    }
}

/// Reads a member's value. Where it is of a field from `next` on, null is appended for the fields
/// before it from `next` on, and then its value. Answers the index of the field after it. A value of
/// a field before `next` is given up, since its own or a later field's value was appended. Where it is
/// of no field, it is passed over.
#[cycle(push)]
#[inline(always)]
fn push_field<'a>(
    alloc: Global,
    reader: &mut Reader<'a>,
    depth: usize,
    at: Option<usize>,
    plans: &[Plan],
    next: usize,
    out: &mut Vec<u8>,
) -> Result<usize, GivenUp>
    requires within { IfSome at (λ i. i < length plans.now) }
    requires next { next ≤ length plans.now }
    ensures forward { length reader.new ≤ length reader.old }
    ensures next { IfOk result (λ after. after ≤ length plans.now) }
    ensures ok { IfOk result (λ after. ReadsField depth at plans.now next after
        reader.old reader.new out.old.items out.new.items) }
{
    match at {
        Some(i) => {
            if i < next {
                return Err(GivenUp);
            }
            push_nulls(plans, next, i, out)?;
            push_value(alloc, reader, depth, &plans[i], out)?;
            Ok(i + 1)
        }
        None => {
            skip_value(reader, depth)?;
            Ok(next)
        }
    }
}
