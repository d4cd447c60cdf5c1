//! Copies of schemas, which equal what they copy.
ghost use Rattle.std.specs.Prelude.{◌≡◌, IfOk};
ghost use Rattle.arrow_core.specs.Errors.{OnlyOutOfMemory};

use crate::schema::{AvroField, Enum, Fixed, Record, Schema};
use arrow_core::{Box, Error, Items, Result, Text};
use std::alloc::Global;

impl Schema {
    /// A copy of this schema, with memory of its own. `OutOfMemory` alone.
    pub fn try_clone(&self, alloc: Global) -> Result<Schema>
        ensures copy { IfOk result (λ copied. copied ≡ self.now) }
        ensures memory { OnlyOutOfMemory result }
    {
        clone_schema(self, alloc)
    }
}

impl Record {
    /// A copy of this record, with memory of its own. `OutOfMemory` alone.
    pub fn try_clone(&self, alloc: Global) -> Result<Record>
        ensures copy { IfOk result (λ copied. copied ≡ self.now) }
        ensures memory { OnlyOutOfMemory result }
    {
        clone_record(self, alloc)
    }
}

impl AvroField {
    /// A copy of this field, with memory of its own. `OutOfMemory` alone.
    pub fn try_clone(&self, alloc: Global) -> Result<AvroField>
        ensures copy { IfOk result (λ copied. copied ≡ self.now) }
        ensures memory { OnlyOutOfMemory result }
    {
        clone_field(self, alloc)
    }
}

impl Enum {
    /// A copy of this enum, with memory of its own. `OutOfMemory` alone.
    pub fn try_clone(&self, alloc: Global) -> Result<Enum>
        ensures copy { IfOk result (λ copied. copied ≡ self.now) }
        ensures memory { OnlyOutOfMemory result }
    {
        Ok(Enum {
            name: self.name.try_clone(alloc)?,
            namespace: clone_text(&self.namespace, alloc)?,
            doc: clone_text(&self.doc, alloc)?,
            symbols: clone_texts(&self.symbols, alloc)?,
        })
    }
}

impl Fixed {
    /// A copy of this fixed-size type, with memory of its own. `OutOfMemory` alone.
    pub fn try_clone(&self, alloc: Global) -> Result<Fixed>
        ensures copy { IfOk result (λ copied. copied ≡ self.now) }
        ensures memory { OnlyOutOfMemory result }
    {
        Ok(Fixed {
            name: self.name.try_clone(alloc)?,
            namespace: clone_text(&self.namespace, alloc)?,
            doc: clone_text(&self.doc, alloc)?,
            size: self.size,
            logical: self.logical,
        })
    }
}

fn clone_text(text: &Option<Text>, alloc: Global) -> Result<Option<Text>>
    ensures copy { IfOk result (λ copied. copied ≡ text.now) }
    ensures memory { OnlyOutOfMemory result }
{
    match text {
        Some(text) => Ok(Some(text.try_clone(alloc)?)),
        None => Ok(None),
    }
}

fn clone_texts(texts: &Items<Text>, alloc: Global) -> Result<Items<Text>>
    ensures copy { IfOk result (λ copied. copied ≡ texts.now) }
    ensures memory { OnlyOutOfMemory result }
{
    let mut copies = Vec::new(alloc);
    for text in texts.as_slice() {
        let copy = text.try_clone(alloc)?;
        copies.push(copy)?;
    }
    Ok(Items::from_vec(copies))
}

#[cycle(cloned)]
fn clone_boxed(boxed: &Box<Schema>, alloc: Global) -> Result<Box<Schema>>
    ensures copy { IfOk result (λ copied. copied ≡ boxed.now) }
    ensures memory { OnlyOutOfMemory result }
{
    let schema = clone_schema(boxed.get(), alloc)?;
    Box::new(alloc, schema)
}

#[cycle(cloned)]
fn clone_members(members: &Items<Schema>, alloc: Global) -> Result<Items<Schema>>
    ensures copy { IfOk result (λ copied. copied ≡ members.now) }
    ensures memory { OnlyOutOfMemory result }
{
    let mut copies = Vec::new(alloc);
    for member in members.as_slice() {
        let copy = clone_schema(member, alloc)?;
        copies.push(copy)?;
    }
    Ok(Items::from_vec(copies))
}

#[cycle(cloned)]
fn clone_fields(fields: &Items<AvroField>, alloc: Global) -> Result<Items<AvroField>>
    ensures copy { IfOk result (λ copied. copied ≡ fields.now) }
    ensures memory { OnlyOutOfMemory result }
{
    let mut copies = Vec::new(alloc);
    for field in fields.as_slice() {
        let copy = clone_field(field, alloc)?;
        copies.push(copy)?;
    }
    Ok(Items::from_vec(copies))
}

#[cycle(cloned)]
fn clone_field(field: &AvroField, alloc: Global) -> Result<AvroField>
    ensures copy { IfOk result (λ copied. copied ≡ field.now) }
    ensures memory { OnlyOutOfMemory result }
{
    Ok(AvroField {
        name: field.name.try_clone(alloc)?,
        doc: clone_text(&field.doc, alloc)?,
        schema: clone_schema(&field.schema, alloc)?,
    })
}

#[cycle(cloned)]
fn clone_record(original: &Record, alloc: Global) -> Result<Record>
    ensures copy { IfOk result (λ copied. copied ≡ original.now) }
    ensures memory { OnlyOutOfMemory result }
{
    Ok(Record {
        name: original.name.try_clone(alloc)?,
        namespace: clone_text(&original.namespace, alloc)?,
        doc: clone_text(&original.doc, alloc)?,
        fields: clone_fields(&original.fields, alloc)?,
    })
}

#[cycle(cloned)]
fn clone_schema(schema: &Schema, alloc: Global) -> Result<Schema>
    ensures copy { IfOk result (λ copied. copied ≡ schema.now) }
    ensures memory { OnlyOutOfMemory result }
{
    Ok(match schema {
        Schema::Null => Schema::Null,
        Schema::Boolean => Schema::Boolean,
        Schema::Int(logical) => Schema::Int(*logical),
        Schema::Long(logical) => Schema::Long(*logical),
        Schema::Float => Schema::Float,
        Schema::Double => Schema::Double,
        Schema::Bytes(logical) => Schema::Bytes(*logical),
        Schema::String(logical) => Schema::String(*logical),
        Schema::Record(record) => Schema::Record(clone_record(record, alloc)?),
        Schema::Enum(symbols) => Schema::Enum(symbols.try_clone(alloc)?),
        Schema::Array(item) => Schema::Array(clone_boxed(item, alloc)?),
        Schema::Map(value) => Schema::Map(clone_boxed(value, alloc)?),
        Schema::Union(members) => Schema::Union(clone_members(members, alloc)?),
        Schema::Fixed(fixed) => Schema::Fixed(fixed.try_clone(alloc)?),
    })
}
