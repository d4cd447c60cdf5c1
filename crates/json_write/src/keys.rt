//! The columns of rows, prepared once for all rows.
ghost use Rattle.std.specs.Prelude.{◌≡◌, ◌⊎◌, Some, None, length, map, IfOk, OnOk, IfErr, MatchResult};
ghost use Rattle.arrow_core.specs.Errors.{OnlyOutOfMemory};
ghost use Rattle.arrow_core.specs.declared.error.Error.TheVariants.{OutOfMemory};
ghost use Rattle.arrow_array.specs.Arrays.{array_type};
ghost use Rattle.json_text.specs.Columns.{AreNamed};
ghost use Rattle.json_write.specs.Rows.{chunk_refusal, first_refusal, names_of};

use arrow_base::{Error, Field, Reason, Result};
use arrow_columns::Array;
use json_text::{Column, check, push_column};
use std::alloc::Global;

/// Whether each array has a JSON text; the error is that of the first that hasn't.
fn check_all(arrays: &[Array]) -> Result<()>
    ensures { MatchResult result (λ _. first_refusal arrays.now ≡ None)
        (λ e. first_refusal arrays.now ≡ Some e) }
{
    for k in 0..arrays.len() {
        if let Err(error) = check(&arrays[k]) {
            return Err(error);
        }
    }
    Ok(())
}

/// The columns of rows of these arrays, under the fields' names.
///
/// `OutOfMemory` alone.
pub(crate) fn make_columns(alloc: Global, fields: &[Field], arrays: &[Array]) -> Result<Vec<Column>>
    requires { length fields.now ≡ length arrays.now }
    ensures ok { IfOk result
        (λ columns. AreNamed (names_of fields.now) (map array_type arrays.now) columns.items) }
    ensures memory { OnlyOutOfMemory result }
{
    let mut columns = Vec::new(alloc);
    for k in 0..fields.len() {
        let name = fields[k].name.as_str();
        push_column(alloc, &mut columns, name, arrays[k].data_type())?;
    }
    Ok(columns)
}

/// Whether there is one array for each field, and each has a JSON text. It takes no memory.
pub(crate) fn check_chunk(fields: &[Field], arrays: &[Array]) -> Result<()>
    ensures lengths { OnOk result (length fields.now ≡ length arrays.now) }
    ensures refusal { MatchResult result (λ _. chunk_refusal fields.now arrays.now ≡ None)
        (λ e. chunk_refusal fields.now arrays.now ≡ Some e) }
{
    if fields.len() != arrays.len() {
        return Err(Error::InvalidArgumentError(Reason::Lengths));
    }
    check_all(arrays)
}

/// The columns of rows, where there is one array for each field, and each has a JSON text.
pub(crate) fn prepare(alloc: Global, fields: &[Field], arrays: &[Array]) -> Result<Vec<Column>>
    ensures columns { IfOk result
        (λ columns. AreNamed (names_of fields.now) (map array_type arrays.now) columns.items) }
    ensures lengths { OnOk result (length fields.now ≡ length arrays.now) }
    ensures accepted { OnOk result (chunk_refusal fields.now arrays.now ≡ None) }
    ensures err { IfErr result
        (λ e. (e ≡ OutOfMemory) ⊎ (chunk_refusal fields.now arrays.now ≡ Some e)) }
{
    check_chunk(fields, arrays)?;
    make_columns(alloc, fields, arrays)
}
