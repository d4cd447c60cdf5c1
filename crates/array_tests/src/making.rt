//! New builders of nested kinds, each of integers of 32 bits.

ghost use Rattle.std.specs.Prelude.{◌≡◌, [], length, vec_len, IfOk};
ghost use Rattle.arrow_array.specs.FixedLists.{list_size};
ghost use Rattle.arrow_builders.specs.MutableArrays.{builder_slots};

use arrow_builders::{
    Container, DynMutableLargeListArray, DynMutableListArray, DynMutableStructArray, MutableArray,
    MutableFixedSizeListArray, MutablePrimitiveArray,
};
use arrow_core::{Box, DataType, Field, Items, Result, Text};
use std::alloc::Global;
use std::process::Abort;

fn try_integers(alloc: Global) -> Result<MutableArray>
    ensures { IfOk result (λ b. builder_slots b ≡ []) }
{
    Ok(MutableArray::Int32(MutablePrimitiveArray::with_capacity(alloc, 0)?))
}

pub(crate) fn new_integers(rt: &impl Abort, alloc: Global) -> MutableArray
    ensures { builder_slots result ≡ [] }
{
    try_integers(alloc).expect(rt, "memory")
}

fn try_item(alloc: Global) -> Result<Box<Field>> {
    let name = Text::try_from_str(alloc, "item")?;
    Ok(Box::new(alloc, Field::new(alloc, name, DataType::Int32, true))?)
}

fn item(rt: &impl Abort, alloc: Global) -> Box<Field> {
    try_item(alloc).expect(rt, "memory")
}

/// A builder of lists, or out of memory.
pub(crate) fn try_list(alloc: Global) -> Result<DynMutableListArray> {
    let data_type = DataType::List(try_item(alloc)?);
    match try_integers(alloc) {
        Ok(values) => DynMutableListArray::new_from(alloc, values, data_type, 0),
        Err(error) => {
            drop(data_type);
            Err(error)
        }
    }
}

pub(crate) fn new_list(rt: &impl Abort, alloc: Global) -> DynMutableListArray {
    try_list(alloc).expect(rt, "memory")
}

pub(crate) fn new_large_list(rt: &impl Abort, alloc: Global) -> DynMutableLargeListArray {
    let data_type = DataType::LargeList(item(rt, alloc));
    let builder = DynMutableLargeListArray::new_from(alloc, new_integers(rt, alloc), data_type, 0);
    builder.expect(rt, "memory")
}

/// A builder of lists of two.
pub(crate) fn new_pair(rt: &impl Abort, alloc: Global) -> MutableFixedSizeListArray
    ensures empty { length result.marks.booleans ≡ 0 }
    ensures size { list_size result.marks.data_type ≡ 2 }
{
    let data_type = DataType::FixedSizeList(item(rt, alloc), 2);
    let builder = MutableFixedSizeListArray::new_from(alloc, new_integers(rt, alloc), data_type, 2);
    builder.expect(rt, "memory")
}

/// A builder of structs of one field.
pub(crate) fn new_struct(rt: &impl Abort, alloc: Global) -> DynMutableStructArray
    ensures { vec_len result.values ≡ 1 }
{
    let fields = vec![in alloc; item(rt, alloc).into_inner()].expect(rt, "memory");
    let values = vec![in alloc; new_integers(rt, alloc)].expect(rt, "memory");
    let data_type = DataType::Struct(Items::from_vec(fields));
    DynMutableStructArray::new(alloc, values, data_type).expect(rt, "memory")
}
