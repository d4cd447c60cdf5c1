//! The types that cases are read under.
use arrow_core::{
    Box, DataType, Error, Field, IntegerType, IntervalUnit, Items, Metadata, Reason, Result,
    Schema, Text, TimeUnit,
};
use std::alloc::Global;

/// Why words are no type.
fn no_type<T: Drop>() -> Result<T> {
    Err(Error::InvalidArgumentError(Reason::FieldType))
}

fn integer_type(word: &str) -> Result<DataType> {
    match word {
        "Int8" => Ok(DataType::Int8),
        "Int16" => Ok(DataType::Int16),
        "Int32" => Ok(DataType::Int32),
        "Int64" => Ok(DataType::Int64),
        "UInt8" => Ok(DataType::UInt8),
        "UInt16" => Ok(DataType::UInt16),
        "UInt32" => Ok(DataType::UInt32),
        "UInt64" => Ok(DataType::UInt64),
        _ => no_type(),
    }
}

fn time_type(word: &str) -> Result<DataType> {
    match word {
        "Date32" => Ok(DataType::Date32),
        "Date64" => Ok(DataType::Date64),
        "Time32(s)" => Ok(DataType::Time32(TimeUnit::Second)),
        "Time64(ns)" => Ok(DataType::Time64(TimeUnit::Nanosecond)),
        "Timestamp(s)" => Ok(DataType::Timestamp(TimeUnit::Second, None)),
        "Duration(ms)" => Ok(DataType::Duration(TimeUnit::Millisecond)),
        "Interval(months)" => Ok(DataType::Interval(IntervalUnit::YearMonth)),
        "Interval(days)" => Ok(DataType::Interval(IntervalUnit::DayTime)),
        _ => integer_type(word),
    }
}

fn flat_type(word: &str) -> Result<DataType> {
    match word {
        "Null" => Ok(DataType::Null),
        "Boolean" => Ok(DataType::Boolean),
        "Float64" => Ok(DataType::Float64),
        "Utf8" => Ok(DataType::Utf8),
        "LargeUtf8" => Ok(DataType::LargeUtf8),
        "Binary" => Ok(DataType::Binary),
        "LargeBinary" => Ok(DataType::LargeBinary),
        _ => time_type(word),
    }
}

fn key_type(word: &str) -> Result<IntegerType> {
    match word {
        "Int8" => Ok(IntegerType::Int8),
        "Int32" => Ok(IntegerType::Int32),
        "Int64" => Ok(IntegerType::Int64),
        "UInt8" => Ok(IntegerType::UInt8),
        _ => no_type(),
    }
}

/// A nullable field.
fn field(alloc: Global, name: &str, data_type: DataType) -> Result<Field> {
    match Text::try_from_str(alloc, name) {
        Ok(name) => Ok(Field::new(alloc, name, data_type, true)),
        Err(error) => {
            drop(data_type);
            Err(error)
        }
    }
}

fn pop(types: &mut Vec<DataType>) -> Result<DataType> {
    match types.pop() {
        Some(data_type) => Ok(data_type),
        None => no_type(),
    }
}

/// The field of the items of lists.
fn pop_item(alloc: Global, types: &mut Vec<DataType>) -> Result<Box<Field>> {
    Box::new(alloc, field(alloc, "item", pop(types)?)?)
}

fn push_fields(
    alloc: Global,
    fields: &mut Vec<Field>,
    types: &mut Vec<DataType>,
    names: &str,
) -> Result<()> {
    for name in names.split(',') {
        fields.push(field(alloc, name, pop(types)?)?)?;
    }
    Ok(())
}

/// Pushes fields of integers `k0`, `k1` and so on, so many.
fn push_numbered(alloc: Global, fields: &mut Vec<Field>, count: usize) -> Result<()> {
    for number in 0..count {
        let name = format!(in alloc; "k{number}")?;
        fields.push(field(alloc, name.as_str(), DataType::Int64)?)?;
    }
    Ok(())
}

/// The struct of these fields, if they were made.
fn struct_of(fields: Vec<Field>, made: Result<()>) -> Result<DataType> {
    match made {
        Ok(()) => Ok(DataType::Struct(Items::from_vec(fields))),
        Err(error) => {
            drop(fields);
            Err(error)
        }
    }
}

/// Fields of integers `k0`, `k1` and so on, so many, as a struct.
pub fn numbered(alloc: Global, count: usize) -> Result<DataType> {
    let mut fields = Vec::new(alloc);
    let made = push_numbered(alloc, &mut fields, count);
    struct_of(fields, made)
}

/// The type that a word makes of those after it, which are taken.
fn type_of_word(alloc: Global, types: &mut Vec<DataType>, word: &str) -> Result<DataType> {
    let (kind, detail) = word.split_once(':').unwrap_or((word, ""));
    match kind {
        "list" => Ok(DataType::List(pop_item(alloc, types)?)),
        "large-list" => Ok(DataType::LargeList(pop_item(alloc, types)?)),
        "sized" => Ok(DataType::FixedSizeList(
            pop_item(alloc, types)?,
            detail.parse().unwrap_or(0),
        )),
        "dictionary" => {
            let key = key_type(detail)?;
            Ok(DataType::Dictionary(key, Box::new(alloc, pop(types)?)?, false))
        }
        "struct" => {
            let mut fields = Vec::new(alloc);
            let made = push_fields(alloc, &mut fields, types, detail);
            struct_of(fields, made)
        }
        "numbered" => numbered(alloc, detail.parse().unwrap_or(0)),
        "fieldless" => struct_of(Vec::new(alloc), Ok(())),
        _ => flat_type(word),
    }
}

fn push_words(alloc: Global, types: &mut Vec<DataType>, words: &str) -> Result<()> {
    for word in words.rsplit(' ') {
        let data_type = type_of_word(alloc, types, word)?;
        types.push(data_type)?;
    }
    Ok(())
}

/// The type that words stand for.
pub fn type_of(alloc: Global, words: &str) -> Result<DataType> {
    let mut types = Vec::new(alloc);
    let data_type = match push_words(alloc, &mut types, words) {
        Ok(()) => pop(&mut types),
        Err(error) => Err(error),
    };
    drop(types);
    data_type
}

/// The fields of a struct.
pub fn fields_of(alloc: Global, words: &str) -> Result<Vec<Field>> {
    match type_of(alloc, words) {
        Ok(DataType::Struct(fields)) => Ok(fields.into_vec()),
        Ok(other) => {
            drop(other);
            no_type()
        }
        Err(error) => Err(error),
    }
}

/// The schema of the fields of a struct.
pub fn schema_of(alloc: Global, words: &str) -> Result<Schema> {
    match fields_of(alloc, words) {
        Ok(fields) => Ok(Schema {
            fields: Items::from_vec(fields),
            metadata: Metadata::new(alloc),
        }),
        Err(error) => Err(error),
    }
}
