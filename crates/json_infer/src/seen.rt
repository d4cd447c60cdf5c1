//! Types that come one at a time.
ghost use Rattle.std.specs.Prelude.{◌≡◌, [], ◌∷◌, IfOk, OnOk};
ghost use Rattle.arrow_core.specs.Errors.{OnlyOutOfMemory};
ghost use Rattle.json_infer.specs.Columns.{with_fields};
ghost use Rattle.json_infer.specs.Parts.{members_of};
ghost use Rattle.json_infer.specs.Seen.{of_both, more, seen_after};
ghost use Rattle.json_infer.specs.declared.seen.Seen.TheVariants as seen;

use crate::columns::Columns;
use crate::parts::{are_same, fields, is_struct};
use arrow_core::{DataType, Result};
use std::alloc::Global;
use std::mem::replace;

/// What is kept of types that came one at a time, so that their coercion can be told: two of them
/// at most, or the members of all. A type that came before adds nothing.
#[derive(Drop)]
pub(crate) enum Seen {
    /// No type came.
    Nothing,
    /// One type, however often it came.
    One(DataType),
    /// Two distinct types, in order of first appearance, which aren't both Structs.
    Two(DataType, DataType),
    /// Two distinct types or more, all Structs, by their members.
    Structs(Columns),
    /// Three distinct types or more, which aren't all Structs.
    Many,
}

// Two distinct types, which aren't both Structs.
fn two(alloc: Global, one: &DataType, other: &DataType) -> Result<Seen>
    ensures kept { IfOk result (λ s. s ≡ seen.Two one.now other.now) }
    ensures memory { OnlyOutOfMemory result }
{
    let one = one.try_clone(alloc)?;
    match other.try_clone(alloc) {
        Ok(other) => Ok(Seen::Two(one, other)),
        Err(error) => {
            drop(one);
            Err(error)
        }
    }
}

// Two distinct Structs, by their members.
fn structs(alloc: Global, one: &DataType, other: &DataType) -> Result<Seen>
    ensures kept { IfOk result (λ s. s
        ≡ seen.Structs (with_fields (with_fields [] (members_of one.now)) (members_of other.now))) }
    ensures memory { OnlyOutOfMemory result }
{
    let mut columns = Columns::new(alloc);
    columns.add_fields(alloc, fields(one))?;
    columns.add_fields(alloc, fields(other))?;
    Ok(Seen::Structs(columns))
}

// What is kept of two distinct types.
fn of_both(alloc: Global, one: &DataType, other: &DataType) -> Result<Seen>
    ensures kept { IfOk result (λ s. s ≡ of_both one.now other.now) }
    ensures memory { OnlyOutOfMemory result }
{
    if is_struct(one) && is_struct(other) {
        structs(alloc, one, other)
    } else {
        two(alloc, one, other)
    }
}

impl Seen {
    /// What is kept of these types.
    pub(crate) fn of(alloc: Global, types: &[DataType]) -> Result<Seen>
        ensures kept { IfOk result (λ s. s ≡ seen_after seen.Nothing types.now) }
        ensures memory { OnlyOutOfMemory result }
    {
        let mut seen = Seen::Nothing;
        for data_type in types {
            seen.add(alloc, data_type)?;
        }
        Ok(seen)
    }

    /// What is kept of two types, which may be the same.
    pub(crate) fn of_pair(alloc: Global, one: &DataType, other: &DataType) -> Result<Seen>
        ensures kept { IfOk result
            (λ s. s ≡ seen_after seen.Nothing (one.now ∷ other.now ∷ [])) }
        ensures memory { OnlyOutOfMemory result }
    {
        if are_same(other, one) {
            return Ok(Seen::One(one.try_clone(alloc)?));
        }
        of_both(alloc, one, other)
    }

    // Lets go what was kept, and keeps this. A drop looks for what the old value owns, so it
    // stands in a function of its own.
    fn set(&mut self, seen: Seen)
        ensures { self.new ≡ seen }
    {
        drop(replace(self, seen));
    }

    /// Keeps what is needed of one more type.
    pub(crate) fn add(&mut self, alloc: Global, data_type: &DataType) -> Result<()>
        ensures kept { OnOk result (self.new ≡ more self.old data_type.now) }
        ensures memory { OnlyOutOfMemory result }
    {
        match self {
            Seen::Nothing => {
                let one = data_type.try_clone(alloc)?;
                self.set(Seen::One(one));
                Ok(())
            }
            Seen::One(one) => {
                if are_same(data_type, one) {
                    return Ok(());
                }
                let both = of_both(alloc, one, data_type)?;
                self.set(both);
                Ok(())
            }
            Seen::Two(one, other) => {
                if are_same(data_type, one) || are_same(data_type, other) {
                    return Ok(());
                }
                self.set(Seen::Many);
                Ok(())
            }
            Seen::Structs(columns) => {
                if is_struct(data_type) {
                    return columns.add_fields(alloc, fields(data_type));
                }
                self.set(Seen::Many);
                Ok(())
            }
            Seen::Many => Ok(()),
        }
    }
}
