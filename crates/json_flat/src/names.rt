//! Names of fields.
ghost use Rattle.std.specs.Prelude.{◌≡◌, IfOk};
ghost use Rattle.arrow_core.specs.Errors.{OnlyOutOfMemory};
ghost use Rattle.json_tree.specs.Layout.{distinct, meets};
ghost use Rattle.json_flat.specs.Names.{names_of};

use arrow_core::{Field, Result};
use first_seen::FirstSeen;
use std::alloc::Global;

// Names of at most so many fields are compared each with each, without memory.
const FEW_FIELDS: usize = 64;

// Whether one of the fields has the name.
fn has_name(fields: &[Field], name: &str) -> bool
    ensures { result ≡ meets name.now (names_of fields.now) }
{
    let mut rest = fields;
    while let Some((first, others)) = rest.split_first() {
        if name == first.name.as_str() {
            return true;
        }
        rest = others;
    }
    false
}

// Whether no two of few fields have the same name.
fn few_are_distinct(fields: &[Field]) -> bool
    ensures { result ≡ distinct (names_of fields.now) }
{
    let mut rest = fields;
    while let Some((first, others)) = rest.split_first() {
        if has_name(others, first.name.as_str()) {
            return false;
        }
        rest = others;
    }
    true
}

// Whether no two of many fields have the same name.
fn many_are_distinct(alloc: Global, fields: &[Field]) -> Result<bool>
    ensures ok { IfOk result (λ b. b ≡ distinct (names_of fields.now)) }
    ensures memory { OnlyOutOfMemory result }
{
    let mut seen = FirstSeen::<&str>::new(alloc);
    let mut rest = fields;
    while let Some((first, others)) = rest.split_first() {
        let name = first.name.as_str();
        if seen.index_of(&name).is_some() {
            return Ok(false);
        }
        seen.push(name, name)?;
        rest = others;
    }
    Ok(true)
}

/// Whether no two of the fields have the same name. The names of many fields are looked up among
/// those before them, so that each of n names takes 1024 + log n comparisons at most, whatever names
/// somebody picks. `OutOfMemory` alone.
pub fn have_distinct_names(alloc: Global, fields: &[Field]) -> Result<bool>
    ensures ok { IfOk result (λ b. b ≡ distinct (names_of fields.now)) }
    ensures memory { OnlyOutOfMemory result }
{
    if fields.len() <= FEW_FIELDS {
        return Ok(few_are_distinct(fields));
    }
    many_are_distinct(alloc, fields)
}
