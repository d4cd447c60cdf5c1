//! Names for fixed types that have none.
ghost use Rattle.std.specs.Prelude.{◌≡◌, ◌+◌, IfOk, OnOk};
ghost use Rattle.arrow_core.specs.Errors.{OnlyOutOfMemory};
ghost use Rattle.avro_schema.specs.declared.schema.Record.{out-Record};
ghost use Rattle.avro_types.specs.Named.{count_nameless, name_or, named as named_of, named_record as named_record_of, named_root, nameless_in, nameless_in_record};
ghost use Rattle.avro_types.specs.Listed.{named_all as named_all_of, named_members as named_members_of, nameless_in_all, nameless_in_members};

use crate::names::next_name;
use arrow_core::{Box, Items, Result, Text};
use avro_schema::{AvroField, AvroSchema, Fixed, Record};
use std::alloc::Global;

/// The record under this name, in which fixed types with an empty name are named f1, f2 and so on in
/// preorder. All else stays, and it isn't looked whether a name is taken.
///
/// `OutOfMemory` alone.
pub fn name_types(alloc: Global, root: Record, name: &str) -> Result<Record>
    ensures named { IfOk result (λ r. r ≡ named_root name.now root) }
    ensures memory { OnlyOutOfMemory result }
{
    let mut fixed_types = 0;
    let named = named_record(alloc, &root, &mut fixed_types)?;
    let name = Text::try_from_str(alloc, name)?;
    Ok(Record { name, ..named })
}

/// The name of a fixed type, or the next where it is empty. `fixed_types` counts those that were
/// given.
fn fixed_name(alloc: Global, name: &Text, fixed_types: &mut u64) -> Result<Text>
    ensures name { IfOk result (λ n. n ≡ name_or fixed_types.old name.now) }
    ensures count { OnOk result (fixed_types.new ≡ fixed_types.old + count_nameless name.now) }
    ensures memory { OnlyOutOfMemory result }
{
    if name.as_str().is_empty() {
        next_name(alloc, "f", fixed_types)
    } else {
        name.try_clone(alloc)
    }
}

fn named_fixed(alloc: Global, fixed: &Fixed, fixed_types: &mut u64) -> Result<Fixed>
    ensures named { IfOk result
        (λ f. f ≡ record fixed.now { name = name_or fixed_types.old fixed.now.name }) }
    ensures count { OnOk result (fixed_types.new ≡ fixed_types.old
        + count_nameless fixed.now.name) }
    ensures memory { OnlyOutOfMemory result }
{
    let name = fixed_name(alloc, &fixed.name, fixed_types)?;
    let copy = fixed.try_clone(alloc)?;
    Ok(Fixed { name, ..copy })
}

fn cloned(alloc: Global, text: &Option<Text>) -> Result<Option<Text>>
    ensures copy { IfOk result (λ copied. copied ≡ text.now) }
    ensures memory { OnlyOutOfMemory result }
{
    match text {
        Some(text) => Ok(Some(text.try_clone(alloc)?)),
        None => Ok(None),
    }
}

#[cycle(named)]
fn named_record(alloc: Global, root: &Record, fixed_types: &mut u64) -> Result<Record>
    ensures named { IfOk result (λ r. r ≡ named_record_of fixed_types.old root.now) }
    ensures count { OnOk result (fixed_types.new ≡ fixed_types.old + nameless_in_record root.now) }
    ensures memory { OnlyOutOfMemory result }
{
    Ok(Record {
        name: root.name.try_clone(alloc)?,
        namespace: cloned(alloc, &root.namespace)?,
        doc: cloned(alloc, &root.doc)?,
        fields: named_fields(alloc, root.fields.as_slice(), fixed_types)?,
    })
}

#[cycle(named)]
fn named_fields(
    alloc: Global,
    fields: &[AvroField],
    fixed_types: &mut u64,
) -> Result<Items<AvroField>>
    ensures named { IfOk result (λ fs. fs ≡ named_all_of fixed_types.old fields.now) }
    ensures count { OnOk result (fixed_types.new ≡ fixed_types.old + nameless_in_all fields.now) }
    ensures memory { OnlyOutOfMemory result }
{
    let mut named = Vec::new(alloc);
    for field in fields {
        let field = named_field(alloc, field, fixed_types)?;
        named.push(field)?;
    }
    Ok(Items::from_vec(named))
}

#[cycle(named)]
fn named_field(alloc: Global, field: &AvroField, fixed_types: &mut u64) -> Result<AvroField>
    ensures named { IfOk result (λ f. f ≡ record {
      name = field.now.name;
      doc = field.now.doc;
      schema = named_of fixed_types.old field.now.schema;
    }) }
    ensures count { OnOk result
        (fixed_types.new ≡ fixed_types.old + nameless_in field.now.schema) }
    ensures memory { OnlyOutOfMemory result }
{
    Ok(AvroField {
        name: field.name.try_clone(alloc)?,
        doc: cloned(alloc, &field.doc)?,
        schema: named_schema(alloc, &field.schema, fixed_types)?,
    })
}

#[cycle(named)]
fn named_members(
    alloc: Global,
    members: &[AvroSchema],
    fixed_types: &mut u64,
) -> Result<Items<AvroSchema>>
    ensures named { IfOk result (λ ms. ms ≡ named_members_of fixed_types.old members.now) }
    ensures count { OnOk result
        (fixed_types.new ≡ fixed_types.old + nameless_in_members members.now) }
    ensures memory { OnlyOutOfMemory result }
{
    let mut named = Vec::new(alloc);
    for member in members {
        let member = named_schema(alloc, member, fixed_types)?;
        named.push(member)?;
    }
    Ok(Items::from_vec(named))
}

#[cycle(named)]
fn named_schema(alloc: Global, schema: &AvroSchema, fixed_types: &mut u64) -> Result<AvroSchema>
    ensures named { IfOk result (λ s. s ≡ named_of fixed_types.old schema.now) }
    ensures count { OnOk result (fixed_types.new ≡ fixed_types.old + nameless_in schema.now) }
    ensures memory { OnlyOutOfMemory result }
{
    match schema {
        AvroSchema::Fixed(fixed) => {
            Ok(AvroSchema::Fixed(named_fixed(alloc, fixed, fixed_types)?))
        }
        AvroSchema::Record(record) => {
            Ok(AvroSchema::Record(named_record(alloc, record, fixed_types)?))
        }
        AvroSchema::Array(item) => {
            let item = named_schema(alloc, item.get(), fixed_types)?;
            Ok(AvroSchema::Array(Box::new(alloc, item)?))
        }
        AvroSchema::Map(value) => {
            let value = named_schema(alloc, value.get(), fixed_types)?;
            Ok(AvroSchema::Map(Box::new(alloc, value)?))
        }
        AvroSchema::Union(members) => {
            let members = named_members(alloc, members.as_slice(), fixed_types)?;
            Ok(AvroSchema::Union(members))
        }
        _ => schema.try_clone(alloc),
    }
}
