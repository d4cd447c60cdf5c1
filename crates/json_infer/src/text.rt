//! The text of a data type, at the end of a buffer.
ghost use Rattle.std.specs.Prelude.{◌≡◌, ◌++◌, codes, map, OnOk};
ghost use Rattle.std.specs.Io.{StartsWith};
ghost use Rattle.arrow_core.specs.Errors.{OnlyOutOfMemory};
ghost use Rattle.arrow_base.specs.Joined.{joined};
ghost use Rattle.arrow_base.specs.WrittenString.{json_string};
ghost use Rattle.json_infer.specs.Texts.{member_text, type_text};

use arrow_base::write_str;
use arrow_core::{DataType, Error, Field, Result};

/// Appends these bytes. `OutOfMemory` alone.
fn push(out: &mut Vec<u8>, part: &[u8]) -> Result<()>
    ensures appended { OnOk result (out.new.items ≡ out.old.items ++ part.now) }
    ensures kept { StartsWith out.new.items out.old.items }
    ensures memory { OnlyOutOfMemory result }
{
    out.extend_from_slice(part)?;
    Ok(())
}

/// Appends the JSON string of `value`. `OutOfMemory` alone.
fn push_string(out: &mut Vec<u8>, value: &str) -> Result<()>
    ensures appended { OnOk result (out.new.items ≡ out.old.items ++ json_string value.now) }
    ensures kept { StartsWith out.new.items out.old.items }
    ensures memory { OnlyOutOfMemory result }
{
    match write_str(out, value) {
        Ok(()) => Ok(()),
        // A vector takes all bytes that there is memory for.
        Err(_) => Err(Error::OutOfMemory),
    }
}

/// Appends the text of a type that is inferred from JSON: `Int64`, `List(Utf8)`,
/// `Struct{"a":Int64,"b":Boolean}`. Names are escaped as JSON strings. Other types have no text, and
/// nothing is appended for them.
///
/// `OutOfMemory` alone. What stood in the buffer stays: on `Ok` the text follows it, on an error a
/// part of the text.
#[cycle(texts)]
pub fn append_type_text(out: &mut Vec<u8>, data_type: &DataType) -> Result<()>
    ensures appended { OnOk result (out.new.items ≡ out.old.items ++ type_text data_type.now) }
    ensures kept { StartsWith out.new.items out.old.items }
    ensures memory { OnlyOutOfMemory result }
{
    match data_type {
        DataType::Null => push(out, b"Null"),
        DataType::Boolean => push(out, b"Boolean"),
        DataType::Int64 => push(out, b"Int64"),
        DataType::Float64 => push(out, b"Float64"),
        DataType::Utf8 => push(out, b"Utf8"),
        DataType::List(item) => push_list(out, item.get()),
        DataType::Struct(fields) => push_struct(out, fields.as_slice()),
        _ => Ok(()),
    }
}

/// A list of the field.
#[cycle(texts)]
fn push_list(out: &mut Vec<u8>, item: &Field) -> Result<()>
    ensures appended { OnOk result (out.new.items
        ≡ out.old.items ++ (codes "List(" ++ (type_text item.now.data_type ++ codes ")"))) }
    ensures kept { StartsWith out.new.items out.old.items }
    ensures memory { OnlyOutOfMemory result }
{
    push(out, b"List(")?;
    append_type_text(out, &item.data_type)?;
    push(out, b")")
}

/// A struct of the fields.
#[cycle(texts)]
fn push_struct(out: &mut Vec<u8>, fields: &[Field]) -> Result<()>
    ensures appended { OnOk result (out.new.items ≡ out.old.items
        ++ (codes "Struct{" ++ (joined (map (λ f. member_text f.name (type_text f.data_type))
        fields.now) ++ codes "}"))) }
    ensures kept { StartsWith out.new.items out.old.items }
    ensures memory { OnlyOutOfMemory result }
{
    push(out, b"Struct{")?;
    push_members(out, fields)?;
    push(out, b"}")
}

/// The fields of a struct, with a comma between each two.
#[cycle(texts)]
#[tactic(auto, using(arrow_base::proofs::Joins::led_joined))]
fn push_members(out: &mut Vec<u8>, fields: &[Field]) -> Result<()>
    ensures appended { OnOk result (out.new.items ≡ out.old.items
        ++ joined (map (λ f. member_text f.name (type_text f.data_type)) fields.now)) }
    ensures kept { StartsWith out.new.items out.old.items }
    ensures memory { OnlyOutOfMemory result }
{
    let mut before: &[u8] = b"";
    for field in fields {
        push(out, before)?;
        push_member(out, field)?;
        before = b",";
    }
    Ok(())
}

/// A field of a struct.
#[cycle(texts)]
fn push_member(out: &mut Vec<u8>, field: &Field) -> Result<()>
    ensures appended { OnOk result (out.new.items
        ≡ out.old.items ++ member_text field.now.name (type_text field.now.data_type)) }
    ensures kept { StartsWith out.new.items out.old.items }
    ensures memory { OnlyOutOfMemory result }
{
    push_string(out, field.name.as_str())?;
    push(out, b":")?;
    append_type_text(out, &field.data_type)
}
