//! Columns that show no flaw, as can be told without a look at their slots.
ghost use Rattle.std.specs.Prelude.{◌≡◌, ◌+◌, ◌<◌, ℕ, false, true, length, map, IsTrue};
ghost use Rattle.std.specs.Bool.{OnTrue};
ghost use Rattle.std.specs.List.{list_any};
ghost use Rattle.arrow_core.specs.declared.slot.Slot.{Slot};
ghost use Rattle.arrow_array.specs.Arrays.{array_slots, array_type};
ghost use Rattle.arrow_array.specs.Kinds.{array_kind};
ghost use Rattle.arrow_array.specs.Slots.{is_held, slot_at};
ghost use Rattle.arrow_array.specs.Structs.{HaveSlots};
ghost use Rattle.avro_schema.specs.Carried.{IsNoUnion};
ghost use Rattle.avro_encode.specs.Flat.{IsListKind, IsStructKind};
ghost use Rattle.avro_encode.specs.Listed.{PairsListOf, PairsMemberTypeOf, PairsStructOf, PairsTypesOf, slots_across};
ghost use Rattle.avro_encode.specs.PairTypes.{PairsType};
ghost use Rattle.avro_encode.specs.Plain.{parts_of};
ghost use Rattle.avro_write.specs.Flaws.{column_shows, fixed_flaw, null_flaw, shows as shows_of};
ghost use Rattle.avro_write.specs.Shown.{EachSlot, NoValueShows, fields_show_of, member_shows_of};

use crate::flaws::{Flaw, is_null};
use arrow_array::Array;
use avro_schema::{AvroField, AvroSchema, Fixed, FixedLogical};

/// Whether an array has no null, as it has no validity.
fn has_no_null(array: &Array) -> bool
    ensures { OnTrue result (EachSlot (array_slots array.now) (λ x. is_held x ≡ true)) }
{
    match array {
        Array::Null(_) => false,
        Array::Dictionary(_) => false,
        _ => array.validity().is_none(),
    }
}

/// Whether no null is the flaw, where none may stand.
fn shows_no_null(array: &Array, flaw: Flaw) -> bool
    ensures { OnTrue result (EachSlot (array_slots array.now) (λ x. null_flaw flaw x ≡ false)) }
{
    match flaw {
        Flaw::Null => has_no_null(array),
        Flaw::Interval => true,
    }
}

/// Whether no slot of the column can show the flaw under the schema: no null without a validity, and
/// no interval without a duration.
#[cycle(clean)]
pub(crate) fn is_clean(array: &Array, schema: &AvroSchema, flaw: Flaw) -> bool
    requires types { PairsType schema.now (array_type array.now) }
    ensures { OnTrue result (column_shows flaw schema.now array.now ≡ false) }
{
    match schema {
        AvroSchema::Union(members) => has_clean_members(array, members.as_slice(), flaw),
        _ => has_clean_slots(array, schema, flaw),
    }
}

/// The same under the member of a union beside null, where a null shows no flaw.
#[cycle(clean)]
fn has_clean_members(array: &Array, members: &[AvroSchema], flaw: Flaw) -> bool
    requires types { PairsMemberTypeOf members.now (array_type array.now) }
    ensures { OnTrue result (NoValueShows (member_shows_of flaw members.now)
        (array_slots array.now)) }
{
    let [first, second] = members else {
        unreachable!()
    };
    if is_null(first) {
        has_clean_values(array, second, flaw)
    } else {
        has_clean_values(array, first, flaw)
    }
}

/// The same under a schema that is no union.
#[cycle(clean)]
fn has_clean_slots(array: &Array, schema: &AvroSchema, flaw: Flaw) -> bool
    requires no_union { IsNoUnion schema.now }
    requires types { PairsType schema.now (array_type array.now) }
    ensures { OnTrue result (column_shows flaw schema.now array.now ≡ false) }
{
    if !shows_no_null(array, flaw) {
        return false;
    }
    has_clean_values(array, schema, flaw)
}

/// Whether no slot but a null can show the flaw, under a schema that is no union.
#[cycle(clean)]
fn has_clean_values(array: &Array, schema: &AvroSchema, flaw: Flaw) -> bool
    requires no_union { IsNoUnion schema.now }
    requires types { PairsType schema.now (array_type array.now) }
    ensures { OnTrue result (NoValueShows (shows_of flaw schema.now) (array_slots array.now)) }
{
    // It tells how slots of the type lie in memory.
    let _ = array.data_type();
    match schema {
        AvroSchema::Array(item) => has_clean_lists(array, item.get(), flaw),
        AvroSchema::Record(record) => has_clean_structs(array, record.fields.as_slice(), flaw),
        AvroSchema::Fixed(fixed) => is_clean_fixed(fixed, flaw),
        _ => true,
    }
}

/// Whether no value of a fixed type can show the flaw.
fn is_clean_fixed(fixed: &Fixed, flaw: Flaw) -> bool
    ensures { OnTrue result ((x : Slot) → fixed_flaw flaw fixed.now.logical x ≡ false) }
{
    match flaw {
        Flaw::Null => true,
        Flaw::Interval => match fixed.logical {
            Some(FixedLogical::Duration) => false,
            _ => true,
        },
    }
}

/// Whether no item of a list can show the flaw.
#[cycle(clean)]
fn has_clean_lists(array: &Array, item: &AvroSchema, flaw: Flaw) -> bool
    requires kind { IsListKind (array_kind array.now) }
    requires types { PairsListOf item.now (array_type array.now) }
    ensures { OnTrue result
        (NoValueShows (λ x. list_any (shows_of flaw item.now) (parts_of x))
        (array_slots array.now)) }
{
    match array {
        Array::List(array) => {
            // They tell which slots of the child the lists are.
            let _ = array.offsets();
            is_clean(array.values(), item, flaw)
        }
        Array::LargeList(array) => {
            let _ = array.offsets();
            is_clean(array.values(), item, flaw)
        }
        _ => unreachable!(),
    }
}

/// Whether no slot of a struct can show the flaw.
#[cycle(clean)]
fn has_clean_structs(array: &Array, fields: &[AvroField], flaw: Flaw) -> bool
    requires kind { IsStructKind (array_kind array.now) }
    requires types { PairsStructOf fields.now (array_type array.now) }
    ensures { OnTrue result
        (NoValueShows (λ x. fields_show_of flaw fields.now (parts_of x)) (array_slots array.now)) }
{
    match array {
        Array::Struct(array) => are_clean(array.values(), fields, flaw),
        _ => unreachable!(),
    }
}

#[cycle(clean)]
fn are_clean(children: &[Array], fields: &[AvroField], flaw: Flaw) -> bool
    requires types { PairsTypesOf fields.now (map array_type children.now) }
    ensures { OnTrue result ((i : ℕ) → HaveSlots (i + 1) children.now
        → fields_show_of flaw fields.now (slots_across children.now i) ≡ false) }
{
    for k in 0..fields.len() {
        if !is_clean(&children[k], &fields[k].schema, flaw) {
            return false;
        }
    }
    true
}
