//! The type that several types are coerced to.
ghost use Rattle.std.specs.Prelude.{◌≡◌, ◌<◌, ◌&&◌, [], ◌∷◌, length, nat_lt, IfNone, IfOk, IfSome};
ghost use Rattle.arrow_core.specs.Errors.{OnlyOutOfMemory};
ghost use Rattle.json_infer.specs.Coercion.{are_both, coerce, flat, pair};
ghost use Rattle.json_infer.specs.Columns.{coerced_columns as coerced_columns_of};
ghost use Rattle.json_infer.specs.Lists.{distinct};
ghost use Rattle.json_infer.specs.Parts.{item_of, list_of, nullable, same, sizes};
ghost use Rattle.json_infer.specs.Seen.{are_two as are_two_of, result_of, seen_after};
ghost use Rattle.json_infer.specs.declared.seen.Seen.TheVariants as variants;

use crate::columns::Columns;
use crate::parts::{are_same, item, list_type};
use crate::seen::Seen;
use arrow_core::{DataType, Field, Items, Result, Text};
use std::alloc::Global;

/// The type that several types are coerced to, by the first of these rules that applies:
///
/// 1. No types: Null.
/// 2. All types are equal: that type.
/// 3. All are Structs: a Struct of all names, in order of first appearance, each nullable and of
///    the coercion of its distinct types, in order of first appearance.
/// 4. There are more than two types, each counted as often as it is given: Utf8.
/// 5. Two Lists: a List of the coercion of both item types.
/// 6. A List and another type: a List of the coercion of the other type and the item type.
/// 7. Int64 and Float64: Float64. Int64 and Boolean: Int64.
/// 8. Utf8.
///
/// The item of a List is named `item` and nullable. `OutOfMemory` alone.
pub fn coerce_data_type(alloc: Global, datatypes: &[DataType]) -> Result<DataType>
    ensures coerced { IfOk result (λ t. t ≡ coerce datatypes.now) }
    ensures memory { OnlyOutOfMemory result }
{
    let seen = Seen::of(alloc, datatypes)?;
    let coerced = coerced_of(alloc, &seen, datatypes);
    drop(seen);
    coerced
}

// The coercion of types of which this is kept. What is kept is dropped by the caller, so that there
// is one drop.
#[tactic(auto, using(crate::proofs::Repeated::coerced_repeats, crate::proofs::Repeated::coerced_result))]
fn coerced_of(alloc: Global, seen: &Seen, datatypes: &[DataType]) -> Result<DataType>
    requires kept { seen.now ≡ seen_after variants.Nothing datatypes.now }
    ensures coerced { IfOk result (λ t. t ≡ coerce datatypes.now) }
    ensures memory { OnlyOutOfMemory result }
{
    if repeats_two(seen, datatypes.len()) {
        return Ok(DataType::Utf8);
    }
    coerced(alloc, seen)
}

// Whether more than two types came of which just two are distinct, and these aren't both Structs.
// Types that are given again play a part in the fourth rule alone.
fn repeats_two(seen: &Seen, count: usize) -> bool
    ensures { result ≡ (nat_lt 2 count && are_two_of seen.now) }
{
    count > 2 && matches!(seen, Seen::Two(_, _))
}

// Whether two types are a and b, in either order.
fn are_both(a: &DataType, b: &DataType, one: &DataType, other: &DataType) -> bool
    ensures { result ≡ are_both a.now b.now one.now other.now }
{
    (are_same(one, a) && are_same(other, b)) || (are_same(one, b) && are_same(other, a))
}

// The coercion of two types that are no Lists.
fn flat_type(one: &DataType, other: &DataType) -> DataType
    ensures { result ≡ flat one.now other.now }
{
    if are_both(&DataType::Int64, &DataType::Float64, one, other) {
        DataType::Float64
    } else if are_both(&DataType::Int64, &DataType::Boolean, one, other) {
        DataType::Int64
    } else {
        DataType::Utf8
    }
}

// What the items of the coercion of two types are coerced from, where one of the types is a List.
fn inner_pair<'a>(one: &'a DataType, other: &'a DataType) -> Option<(&'a DataType, &'a DataType)>
    ensures list { IfSome result
        (λ p. pair coerce (item_of one.now) (item_of other.now) one.now other.now
        ≡ list_of (coerce (p.0.now ∷ p.1.now ∷ []))) }
    ensures less { IfSome result
        (λ p. sizes (p.0.now ∷ p.1.now ∷ []) < sizes (one.now ∷ other.now ∷ [])) }
    ensures none { IfNone result
        (pair coerce (item_of one.now) (item_of other.now) one.now other.now
        ≡ flat one.now other.now) }
{
    match item(one) {
        Some(one_item) => match item(other) {
            Some(other_item) => Some((one_item, other_item)),
            None => Some((other, one_item)),
        },
        None => match item(other) {
            Some(other_item) => Some((one, other_item)),
            None => None,
        },
    }
}

// The coercion of two distinct types that aren't both Structs.
#[cycle(coerced)]
fn coerced_pair(alloc: Global, one: &DataType, other: &DataType) -> Result<DataType>
    ensures coerced { IfOk result
        (λ t. t ≡ pair coerce (item_of one.now) (item_of other.now) one.now other.now) }
    ensures memory { OnlyOutOfMemory result }
{
    let Some(items) = inner_pair(one, other) else {
        return Ok(flat_type(one, other));
    };
    let inner = coerced_both(alloc, items.0, items.1)?;
    list_type(alloc, inner)
}

// The coercion of two types. What is kept of them is dropped here alone.
#[cycle(coerced)]
fn coerced_both(alloc: Global, one: &DataType, other: &DataType) -> Result<DataType>
    ensures coerced { IfOk result (λ t. t ≡ coerce (one.now ∷ other.now ∷ [])) }
    ensures memory { OnlyOutOfMemory result }
{
    let seen = Seen::of_pair(alloc, one, other)?;
    let data_type = coerced(alloc, &seen);
    drop(seen);
    data_type
}

// The coercion of the distinct types among these. What is kept of them is dropped here alone.
#[cycle(coerced)]
fn coerced_distinct(alloc: Global, types: &[DataType]) -> Result<DataType>
    ensures coerced { IfOk result (λ t. t ≡ coerce (distinct same types.now)) }
    ensures memory { OnlyOutOfMemory result }
{
    let seen = Seen::of(alloc, types)?;
    let data_type = coerced(alloc, &seen);
    drop(seen);
    data_type
}

// A field of this name for values of several types.
#[cycle(coerced)]
fn coerced_field(alloc: Global, name: &Text, types: &[DataType]) -> Result<Field>
    ensures field { IfOk result
        (λ f. f ≡ nullable name.now (coerce (distinct same types.now))) }
    ensures memory { OnlyOutOfMemory result }
{
    let name = name.try_clone(alloc)?;
    let data_type = coerced_distinct(alloc, types)?;
    Ok(Field::new(alloc, name, data_type, true))
}

#[cycle(coerced)]
fn coerced_columns(alloc: Global, columns: &Columns) -> Result<Items<Field>>
    ensures fields { IfOk result (λ fs. fs ≡ coerced_columns_of columns.now) }
    ensures memory { OnlyOutOfMemory result }
{
    let mut fields = Vec::new(alloc);
    for index in 0..columns.len() {
        let (name, types) = columns.at(index);
        let field = coerced_field(alloc, name, types)?;
        fields.push(field)?;
    }
    Ok(Items::from_vec(fields))
}

/// The coercion of the distinct types that came.
#[cycle(coerced)]
pub(crate) fn coerced(alloc: Global, seen: &Seen) -> Result<DataType>
    ensures coerced { IfOk result (λ t. t ≡ result_of seen.now) }
    ensures memory { OnlyOutOfMemory result }
{
    match seen {
        Seen::Nothing => Ok(DataType::Null),
        Seen::One(one) => one.try_clone(alloc),
        Seen::Two(one, other) => coerced_pair(alloc, one, other),
        Seen::Structs(columns) => Ok(DataType::Struct(coerced_columns(alloc, columns)?)),
        Seen::Many => Ok(DataType::Utf8),
    }
}
