//! Nulls where none may stand, and intervals that a duration can't hold.
ghost use Rattle.std.specs.Prelude.{◌≡◌, ◌+◌, ◌<◌, ◌&&◌, length, map, not, IsTrue};
ghost use Rattle.std.specs.List.{list_any};
ghost use Rattle.arrow_array.specs.Arrays.{array_slots, array_type};
ghost use Rattle.arrow_array.specs.Kinds.{array_kind};
ghost use Rattle.arrow_array.specs.Parts.{IsOfKind};
ghost use Rattle.arrow_array.specs.Lent.{IsPart, part_slots};
ghost use Rattle.arrow_array.specs.Slots.{is_held, slot_at};
ghost use Rattle.arrow_array.specs.Structs.{HaveSlots};
ghost use Rattle.arrow_core.specs.declared.slot.Slot.TheVariants as slot;
ghost use Rattle.avro_schema.specs.Carried.{IsNoUnion};
ghost use Rattle.avro_schema.specs.Encodes.{is_null as is_null_schema};
ghost use Rattle.avro_encode.specs.Flat.{IsListKind, IsStructKind};
ghost use Rattle.avro_encode.specs.Listed.{PairsListOf, PairsMemberTypeOf, PairsStructOf, PairsTypesOf, slots_across};
ghost use Rattle.avro_encode.specs.PairTypes.{PairsFixedType, PairsType};
ghost use Rattle.avro_encode.specs.Plain.{parts_of};
ghost use Rattle.avro_write.specs.Flaws.{column_shows as column_shows_of, fixed_flaw, has_whole, is_whole as is_whole_of, null_flaw, shows as shows_of};
ghost use Rattle.avro_write.specs.Shown.{IsIntervalKind, fields_show_of, member_shows_of};

use crate::clean::is_clean;
use arrow_array::{Array, Part, PrimitiveArray};
use arrow_core::MonthsDaysNs;
use avro_schema::{AvroField, AvroSchema, Fixed, FixedLogical};

/// What a column may show that keeps it from being written.
#[derive(Clone, Copy)]
pub enum Flaw {
    /// A null under a schema that is no union.
    Null,
    /// An interval that isn't whole milliseconds in 32 bits.
    Interval,
}

/// Whether a null is the flaw, where none may stand.
fn is_null_flaw(flaw: Flaw) -> bool
    ensures { result ≡ null_flaw flaw slot.Null }
{
    matches!(flaw, Flaw::Null)
}

/// Whether a schema is null's.
pub(crate) fn is_null(schema: &AvroSchema) -> bool
    ensures { result ≡ is_null_schema schema.now }
{
    matches!(schema, AvroSchema::Null)
}

/// Whether a slot of the column shows the flaw under the schema.
pub(crate) fn column_shows(array: &Array, schema: &AvroSchema, flaw: Flaw) -> bool
    requires types { PairsType schema.now (array_type array.now) }
    ensures { result ≡ column_shows_of flaw schema.now array.now }
{
    if is_clean(array, schema, flaw) {
        return false;
    }
    for i in 0..array.len() {
        if shows(array, i, schema, flaw) {
            return true;
        }
    }
    false
}

/// Whether slot `i` of the array shows the flaw under the schema.
#[cycle(shows)]
fn shows(array: &Array, i: usize, schema: &AvroSchema, flaw: Flaw) -> bool
    requires within { i < length (array_slots array.now) }
    requires types { PairsType schema.now (array_type array.now) }
    ensures { result ≡ shows_of flaw schema.now (slot_at (array_slots array.now) i) }
{
    match schema {
        AvroSchema::Union(members) => member_shows(array, i, members.as_slice(), flaw),
        _ => value_shows(array, i, schema, flaw),
    }
}

/// Whether a slot shows the flaw under the member of a union beside null, which a null doesn't.
#[cycle(shows)]
fn member_shows(array: &Array, i: usize, members: &[AvroSchema], flaw: Flaw) -> bool
    requires within { i < length (array_slots array.now) }
    requires types { PairsMemberTypeOf members.now (array_type array.now) }
    ensures { result ≡ (is_held (slot_at (array_slots array.now) i)
        && member_shows_of flaw members.now (slot_at (array_slots array.now) i)) }
{
    if !array.is_valid(i) {
        return false;
    }
    let [first, second] = members else {
        unreachable!()
    };
    if is_null(first) {
        value_shows(array, i, second, flaw)
    } else {
        value_shows(array, i, first, flaw)
    }
}

/// Whether a slot shows the flaw under a schema that is no union.
#[cycle(shows)]
fn value_shows(array: &Array, i: usize, schema: &AvroSchema, flaw: Flaw) -> bool
    requires within { i < length (array_slots array.now) }
    requires no_union { IsNoUnion schema.now }
    requires types { PairsType schema.now (array_type array.now) }
    ensures { result ≡ shows_of flaw schema.now (slot_at (array_slots array.now) i) }
{
    if !array.is_valid(i) {
        return is_null_flaw(flaw);
    }
    // It tells how slots of the type lie in memory.
    let _ = array.data_type();
    match schema {
        AvroSchema::Array(item) => list_shows(array, i, item.get(), flaw),
        AvroSchema::Record(record) => struct_shows(array, i, record.fields.as_slice(), flaw),
        AvroSchema::Fixed(fixed) => fixed_shows(array, i, fixed, flaw),
        _ => false,
    }
}

/// Whether an item of a list shows the flaw.
#[cycle(shows)]
fn list_shows(array: &Array, i: usize, item: &AvroSchema, flaw: Flaw) -> bool
    requires within { i < length (array_slots array.now) }
    requires held { IsTrue (is_held (slot_at (array_slots array.now) i)) }
    requires kind { IsListKind (array_kind array.now) }
    requires types { PairsListOf item.now (array_type array.now) }
    ensures { result
        ≡ list_any (shows_of flaw item.now) (parts_of (slot_at (array_slots array.now) i)) }
{
    match array {
        Array::List(array) => items_show(&array.value(i), item, flaw),
        Array::LargeList(array) => items_show(&array.value(i), item, flaw),
        _ => unreachable!(),
    }
}

#[cycle(shows)]
fn items_show(part: &Part<'_>, item: &AvroSchema, flaw: Flaw) -> bool
    requires part { IsPart part.now }
    requires types { PairsType item.now (array_type part.now.array.now) }
    ensures { result ≡ list_any (shows_of flaw item.now) (part_slots part.now) }
{
    for k in part.start..part.end {
        if shows(part.array, k, item, flaw) {
            return true;
        }
    }
    false
}

/// Whether a slot of a struct shows the flaw.
#[cycle(shows)]
fn struct_shows(array: &Array, i: usize, fields: &[AvroField], flaw: Flaw) -> bool
    requires within { i < length (array_slots array.now) }
    requires held { IsTrue (is_held (slot_at (array_slots array.now) i)) }
    requires kind { IsStructKind (array_kind array.now) }
    requires types { PairsStructOf fields.now (array_type array.now) }
    ensures { result
        ≡ fields_show_of flaw fields.now (parts_of (slot_at (array_slots array.now) i)) }
{
    match array {
        Array::Struct(array) => fields_show(array.values(), i, fields, flaw),
        _ => unreachable!(),
    }
}

#[cycle(shows)]
fn fields_show(children: &[Array], i: usize, fields: &[AvroField], flaw: Flaw) -> bool
    requires within { HaveSlots (i + 1) children.now }
    requires types { PairsTypesOf fields.now (map array_type children.now) }
    ensures { result ≡ fields_show_of flaw fields.now (slots_across children.now i) }
{
    for k in 0..fields.len() {
        if shows(&children[k], i, &fields[k].schema, flaw) {
            return true;
        }
    }
    false
}

/// Whether a value of a fixed type shows the flaw: an interval that a duration can't hold.
fn fixed_shows(array: &Array, i: usize, fixed: &Fixed, flaw: Flaw) -> bool
    requires within { i < length (array_slots array.now) }
    requires held { IsTrue (is_held (slot_at (array_slots array.now) i)) }
    requires kind { IsOfKind (array_kind array.now) (array_type array.now) }
    requires types { PairsFixedType fixed.now.size fixed.now.logical (array_type array.now) }
    ensures { result ≡ fixed_flaw flaw fixed.now.logical (slot_at (array_slots array.now) i) }
{
    match flaw {
        Flaw::Null => false,
        Flaw::Interval => match fixed.logical {
            Some(FixedLogical::Duration) => is_broken_interval(array, i),
            _ => false,
        },
    }
}

/// Whether an interval isn't whole milliseconds in 32 bits.
fn is_broken_interval(array: &Array, i: usize) -> bool
    requires within { i < length (array_slots array.now) }
    requires held { IsTrue (is_held (slot_at (array_slots array.now) i)) }
    requires kind { IsIntervalKind (array_kind array.now) }
    ensures { result ≡ not (has_whole (parts_of (slot_at (array_slots array.now) i))) }
{
    match array {
        Array::MonthDayNano(array) => is_broken(array, i),
        _ => unreachable!(),
    }
}

fn is_broken(array: &PrimitiveArray<MonthsDaysNs>, i: usize) -> bool
    requires within { i < length array.now.slots }
    requires held { IsTrue (is_held (slot_at array.now.slots i)) }
    ensures { result ≡ not (has_whole (parts_of (slot_at array.now.slots i))) }
{
    let interval = array.value(i);
    !is_whole(interval.ns)
}

/// Whether nanoseconds are whole milliseconds, which fit 32 bits.
fn is_whole(nanoseconds: i64) -> bool
    ensures { result ≡ is_whole_of nanoseconds }
{
    if nanoseconds % 1_000_000 != 0 {
        return false;
    }
    let milliseconds = nanoseconds / 1_000_000;
    -2147483648 <= milliseconds && milliseconds <= 2147483647
}
