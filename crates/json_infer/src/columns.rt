//! The distinct types of each member of several Structs.
ghost use Rattle.std.specs.Prelude.{◌≡◌, ◌<◌, [], length, map, IfSome, None, OnOk, Some, slice_get};
ghost use Rattle.std.specs.Str.{bytes_eq};
ghost use Rattle.arrow_core.specs.Errors.{OnlyOutOfMemory};
ghost use Rattle.first_seen.specs.Keys.{index_of};
ghost use Rattle.json_infer.specs.Columns.{types_named, with_fields, with_type};
ghost use Rattle.json_infer.specs.Lists.{with_one};
ghost use Rattle.json_infer.specs.Parts.{same};

use arrow_core::{DataType, Field, Result, Text};
use first_seen::FirstSeen;
use std::alloc::Global;
use std::marker::Model;

/// How many names `types_near` compares.
const COMPARED_NAMES: usize = 64;

/// The names of members, in order of first appearance, and the types of each: each type once, in
/// order of first appearance.
#[derive(Drop)]
pub struct Columns {
    names: FirstSeen<Text>,
    // the types of each name
    types: Vec<FirstSeen<DataType>>,
}

impl Model for Columns {
    ghost use Rattle.std.specs.Prelude.{◌≡◌, List, length};
    ghost use Rattle.std.specs.List.{zip};
    ghost use Rattle.json_infer.specs.Columns.{Column};
    ghost use Rattle.std.specs.Coded.{codes};
    ghost use Rattle.arrow_core.specs.contracts.types.DataType as data_type;

    ghost Value = { List Column };

    ghost coded = { Prim.hlevel (codes, data_type.the_row.coded) };

    ghost view = { λ c. zip c.names c.types.items };

    ghost invariant = { λ c. length c.names ≡ length c.types.items };
}

// Adds a type, where it isn't there.
#[tactic(auto, unfolding(crate::specs::Parts::same))]
fn add_type(alloc: Global, types: &mut FirstSeen<DataType>, data_type: &DataType) -> Result<()>
    ensures added { OnOk result (types.new ≡ with_one same types.old data_type.now) }
    ensures memory { OnlyOutOfMemory result }
{
    if types.index_of(data_type).is_some() {
        return Ok(());
    }
    let added = data_type.try_clone(alloc)?;
    let copy = data_type.try_clone(alloc)?;
    types.push(added, copy)
}

impl Columns {
    pub(crate) fn new(alloc: Global) -> Columns
        ensures { result ≡ [] }
    {
        Columns {
            names: FirstSeen::new(alloc),
            types: Vec::new(alloc),
        }
    }

    // Adds a name that isn't there, with its first type.
    fn add_name(&mut self, alloc: Global, name: &Text, data_type: &DataType) -> Result<()>
        requires { index_of bytes_eq (map (λ c. c.0) self.old) name.now ≡ None }
        ensures added { OnOk result (self.new ≡ with_type self.old name.now data_type.now) }
        ensures memory { OnlyOutOfMemory result }
    {
        let mut types = FirstSeen::new(alloc);
        add_type(alloc, &mut types, data_type)?;
        self.types.reserve(1)?;
        let added = name.try_clone(alloc)?;
        let copy = name.try_clone(alloc)?;
        self.names.push(added, copy)?;
        self.types.push_reserved(types);
        Ok(())
    }

    // Adds a type of a name that mostly stands at `near`, and tells the index behind the name.
    fn add(
        &mut self,
        alloc: Global,
        near: usize,
        name: &Text,
        data_type: &DataType,
    ) -> Result<usize>
        ensures added { OnOk result (self.new ≡ with_type self.old name.now data_type.now) }
        ensures memory { OnlyOutOfMemory result }
    {
        match self.names.index_near(near, name) {
            Some(at) => {
                add_type(alloc, &mut self.types[at], data_type)?;
                Ok(at.wrapping_add(1))
            }
            None => {
                self.add_name(alloc, name, data_type)?;
                Ok(self.types.len())
            }
        }
    }

    /// Adds the names and types of fields. Names in an order in which they came before are found
    /// where they stand, and others by a look-up.
    pub(crate) fn add_fields(&mut self, alloc: Global, fields: &[Field]) -> Result<()>
        ensures added { OnOk result (self.new ≡ with_fields self.old fields.now) }
        ensures memory { OnlyOutOfMemory result }
    {
        let mut near = 0;
        for field in fields {
            near = self.add(alloc, near, &field.name, &field.data_type)?;
        }
        Ok(())
    }

    /// How many names there are.
    pub(crate) fn len(&self) -> usize
        ensures { result ≡ length self.now }
    {
        self.types.len()
    }

    /// The name at an index, and its types.
    pub(crate) fn at(&self, index: usize) -> (&Text, &[DataType])
        requires { index < length self.now }
        ensures { slice_get self.now index ≡ Some (result.0.now, result.1.now) }
    {
        let name = self.names.get(index).unwrap();
        (name, self.types[index].as_slice())
    }

    // The types of a name, where it stands at this index.
    #[inline(always)]
    fn types_at(&self, index: usize, name: &str) -> Option<&[DataType]>
        ensures { IfSome result (λ types. types.now ≡ types_named name.now self.now) }
    {
        let other = self.names.get(index)?;
        if other.as_str() != name {
            return None;
        }
        Some(self.types[index].as_slice())
    }

    /// The types of a name. Up to 64 names are compared, from `near` on and from the first again
    /// after the last; `None` where none of them is the name. Where one is, `near` is set behind
    /// it, where the name of an object's next member mostly stands.
    pub fn types_near(&self, near: &mut usize, name: &str) -> Option<&[DataType]>
        ensures { IfSome result (λ types. types.now ≡ types_named name.now self.now) }
    {
        let mut index = *near;
        for _ in 0..self.len().min(COMPARED_NAMES) {
            if index >= self.len() {
                index = 0;
            }
            let types = self.types_at(index, name);
            index = index.wrapping_add(1);
            if types.is_some() {
                *near = index;
                return types;
            }
        }
        None
    }
}
