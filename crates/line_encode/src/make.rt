//! Plans are made by data types and schemas.
ghost use Rattle.std.specs.Prelude.{◌≡◌, true, IfOk, IfSome};
ghost use Rattle.avro_schema.specs.declared.schema.Schema.{Array, Null, Union};
ghost use Rattle.json_flat.specs.Names.{names_of as names_of_fields};
ghost use Rattle.line_encode.specs.Makes.{AreNamed, ArePlansOf, IsHeldPlanOf, IsListPlanOf, IsPlanOf, IsPrimitiveOf, IsReadable, IsRecordPlanOf, IsStructPlanOf};

use crate::names::Names;
use crate::plan::{Plan, Primitive};
use arrow_core::{DataType, Field, Result};
use avro_schema::{AvroField, AvroSchema};
use json_flat::have_distinct_names;
use json_lend::Name;
use std::alloc::Global;

/// How values of a data type without others in it are encoded under a schema. `None` for any other
/// pair.
fn primitive_of(data_type: &DataType, schema: &AvroSchema) -> Option<Primitive>
    ensures readable { IfSome result (λ _. IsReadable data_type.now) }
    ensures form { IfSome result (IsPrimitiveOf data_type.now schema.now) }
{
    match schema {
        AvroSchema::Boolean => match data_type {
            DataType::Boolean => Some(Primitive::Boolean),
            _ => None,
        },
        AvroSchema::Int(_) => match data_type {
            DataType::Int32 => Some(Primitive::Int),
            DataType::Date32 => Some(Primitive::Int),
            DataType::Time32(_) => Some(Primitive::Int),
            _ => None,
        },
        AvroSchema::Long(_) => match data_type {
            DataType::Int64 => Some(Primitive::Long),
            DataType::Date64 => Some(Primitive::Long),
            DataType::Time64(_) => Some(Primitive::Long),
            DataType::Timestamp(_, _) => Some(Primitive::Long),
            _ => None,
        },
        AvroSchema::String(_) => match data_type {
            DataType::Utf8 => Some(Primitive::Bytes),
            DataType::LargeUtf8 => Some(Primitive::Bytes),
            _ => None,
        },
        AvroSchema::Bytes(None) => match data_type {
            DataType::Binary => Some(Primitive::Bytes),
            DataType::LargeBinary => Some(Primitive::Bytes),
            _ => None,
        },
        _ => None,
    }
}

/// The plan of values without others in them.
fn make_primitive(nullable: bool, data_type: &DataType, schema: &AvroSchema) -> Option<Plan>
    ensures { IfSome result (IsHeldPlanOf nullable data_type.now schema.now) }
{
    Some(Plan::Primitive(nullable, primitive_of(data_type, schema)?))
}

#[inline(always)]
fn is_null(schema: &AvroSchema) -> bool
    ensures { result ≡ true → schema.now ≡ Null }
{
    matches!(schema, AvroSchema::Null)
}

/// The names of fields, where there is a field and no two have the same name. `None` also where there
/// is no memory.
pub(crate) fn make_names(alloc: Global, fields: &[Field]) -> Option<Names>
    ensures names { IfSome result (λ names. names ≡ names_of_fields fields.now) }
    ensures named { IfSome result (λ _. AreNamed fields.now) }
{
    let distinct = have_distinct_names(alloc, fields).ok()?;
    if fields.is_empty() || !distinct {
        return None;
    }
    let names = names_of(alloc, fields).ok()?;
    Some(Names::new(names))
}

/// The names of fields. `OutOfMemory` alone.
fn names_of(alloc: Global, fields: &[Field]) -> Result<Vec<Name>>
    ensures { IfOk result (λ names. names.items ≡ names_of_fields fields.now) }
{
    let mut names = Vec::with_capacity(alloc, fields.len())?;
    for field in fields {
        let text = field.name.try_clone(alloc)?;
        let name = Name::new(alloc, text)?;
        names.push(name)?;
    }
    Ok(names)
}

/// The plan of values that are read under the data type and encoded under the schema. `None` where
/// there is none, or no memory.
#[cycle(plans)]
fn make_plan(alloc: Global, data_type: &DataType, schema: &AvroSchema) -> Option<Plan>
    ensures { IfSome result (IsPlanOf data_type.now schema.now) }
{
    match schema {
        AvroSchema::Union(members) => make_nullable(alloc, data_type, members.as_slice()),
        _ => make_held(alloc, false, data_type, schema),
    }
}

/// The same under a union, which has to be of null and another schema, in this order.
#[cycle(plans)]
fn make_nullable(alloc: Global, data_type: &DataType, members: &[AvroSchema]) -> Option<Plan>
    ensures { IfSome result (IsPlanOf data_type.now (Union members.now)) }
{
    let [first, second] = members else {
        return None;
    };
    if !is_null(first) {
        return None;
    }
    make_held(alloc, true, data_type, second)
}

/// The same under a schema that is no union. The flag says whether null may stand there too.
#[cycle(plans)]
fn make_held(
    alloc: Global,
    nullable: bool,
    data_type: &DataType,
    schema: &AvroSchema,
) -> Option<Plan>
    ensures { IfSome result (IsHeldPlanOf nullable data_type.now schema.now) }
{
    match schema {
        AvroSchema::Array(item) => make_list(alloc, nullable, data_type, item.get()),
        AvroSchema::Record(record) => {
            make_record(alloc, nullable, data_type, record.fields.as_slice())
        }
        _ => make_primitive(nullable, data_type, schema),
    }
}

/// The plan of lists.
#[cycle(plans)]
fn make_list(alloc: Global, nullable: bool, data_type: &DataType, item: &AvroSchema) -> Option<Plan>
    ensures { IfSome result (IsHeldPlanOf nullable data_type.now (Array item.now)) }
{
    match data_type {
        DataType::List(field) => make_items(alloc, nullable, &field.get().data_type, item),
        DataType::LargeList(field) => make_items(alloc, nullable, &field.get().data_type, item),
        _ => None,
    }
}

/// The plan of lists of items of this type.
#[cycle(plans)]
fn make_items(
    alloc: Global,
    nullable: bool,
    item_type: &DataType,
    item: &AvroSchema,
) -> Option<Plan>
    ensures { IfSome result (IsListPlanOf nullable item_type.now item.now) }
{
    let plan = make_plan(alloc, item_type, item)?;
    match Box::new(alloc, plan) {
        Ok(plan) => Some(Plan::List(nullable, plan)),
        Err(_) => None,
    }
}

/// The plan of structs.
#[cycle(plans)]
fn make_record(
    alloc: Global,
    nullable: bool,
    data_type: &DataType,
    avro_fields: &[AvroField],
) -> Option<Plan>
    ensures { IfSome result (IsRecordPlanOf nullable data_type.now avro_fields.now) }
{
    match data_type {
        DataType::Struct(fields) => make_struct(alloc, nullable, fields.as_slice(), avro_fields),
        _ => None,
    }
}

/// The plan of structs of these fields.
#[cycle(plans)]
fn make_struct(
    alloc: Global,
    nullable: bool,
    fields: &[Field],
    avro_fields: &[AvroField],
) -> Option<Plan>
    ensures { IfSome result (IsStructPlanOf nullable fields.now avro_fields.now) }
{
    let names = make_names(alloc, fields)?;
    let plans = make_plans(alloc, fields, avro_fields)?;
    Some(Plan::Record(nullable, names, plans))
}

/// The plan of each field's values, where there are as many fields in the schema.
#[cycle(plans)]
pub(crate) fn make_plans(
    alloc: Global,
    fields: &[Field],
    avro_fields: &[AvroField],
) -> Option<Vec<Plan>>
    ensures { IfSome result (λ plans. ArePlansOf fields.now avro_fields.now plans.items) }
{
    if fields.len() != avro_fields.len() {
        return None;
    }
    let mut plans = Vec::new(alloc);
    for i in 0..fields.len() {
        let plan = make_plan(alloc, &fields[i].data_type, &avro_fields[i].schema)?;
        plans.push(plan).ok()?;
    }
    Some(plans)
}
