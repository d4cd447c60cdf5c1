//! Builders whose names are no key of an object take null.
ghost use Rattle.std.specs.Prelude.{◌≡◌, length, map, OnOk};
ghost use Rattle.std.specs.List.{AllZip};
ghost use Rattle.arrow_builders.specs.Shapes.{shape};
ghost use Rattle.arrow_builders.specs.Tight.{IsTight};
ghost use Rattle.json_line.specs.Builders.{AreTight, Fills};

use crate::ends::push_null;
use arrow_builders::{DynMutableStructArray, MutableArray};
use json_lend::GivenUp;

// Appends a null to the builder where it has `count` slots: JSON's null means that under each type.
// Where it has another number of slots, it stays.
#[inline(always)]
fn fill(builder: &mut MutableArray, count: usize) -> Result<(), GivenUp>
    requires { IsTight builder.old }
    ensures same_shape { shape builder.new ≡ shape builder.old }
    ensures ok { OnOk result (Fills count builder.old builder.new) }
{
    if builder.len() != count {
        return Ok(());
    }
    push_null(builder)
}

/// Appends null to each builder that has `count` slots.
#[inline(always)]
pub(crate) fn fill_columns(builders: &mut [MutableArray], count: usize) -> Result<(), GivenUp>
    requires { AreTight builders.old }
    ensures shapes { map shape builders.new ≡ map shape builders.old }
    ensures ok { OnOk result (AllZip (Fills count) builders.old builders.new) }
{
    for i in 0..builders.len() {
        fill(&mut builders[i], count)?;
    }
    Ok(())
}

/// The same of the children of a builder of structs, one for each of the fields.
#[inline(always)]
pub(crate) fn fill_fields(
    structs: &mut DynMutableStructArray,
    fields: usize,
    count: usize,
) -> Result<(), GivenUp>
    requires fields { length structs.old.values.items ≡ fields }
    requires tight { AreTight structs.old.values.items }
    ensures marks { structs.new.marks ≡ structs.old.marks }
    ensures shapes { map shape structs.new.values.items ≡ map shape structs.old.values.items }
    ensures ok { OnOk result
        (AllZip (Fills count) structs.old.values.items structs.new.values.items) }
{
    for i in 0..fields {
        fill(structs.mut_values(i), count)?;
    }
    Ok(())
}
