//! Schemas as Avro declares them.

use arrow_core::{Box, Items, Text};

/// What a number of type `int` stands for (Avro 1.11, "Logical Types").
#[derive(Clone, Copy, PartialEq, Eq, Debug)]
pub enum IntLogical {
    /// Days from 1970-01-01.
    Date,
    /// Milliseconds from midnight.
    Time,
}

/// What a number of type `long` stands for (Avro 1.11 and 1.12, "Logical Types").
#[derive(Clone, Copy, PartialEq, Eq, Debug)]
pub enum LongLogical {
    /// Microseconds from midnight.
    Time,
    /// Milliseconds from 1970-01-01 00:00:00 UTC.
    TimestampMillis,
    /// Microseconds from 1970-01-01 00:00:00 UTC.
    TimestampMicros,
    /// Milliseconds from 1970-01-01 00:00:00 of a local clock.
    LocalTimestampMillis,
    /// Microseconds from 1970-01-01 00:00:00 of a local clock.
    LocalTimestampMicros,
    /// Nanoseconds from 1970-01-01 00:00:00 UTC.
    TimestampNanos,
    /// Nanoseconds from 1970-01-01 00:00:00 of a local clock.
    LocalTimestampNanos,
}

/// What a binary value of type `bytes` stands for (Avro 1.11, "Decimal").
#[derive(Clone, Copy, PartialEq, Eq, Debug)]
pub enum BytesLogical {
    /// A decimal of this precision (its digits in all) and this scale (its digits after the point).
    Decimal(usize, usize),
}

/// What a value of type `string` stands for (Avro 1.11, "UUID").
#[derive(Clone, Copy, PartialEq, Eq, Debug)]
pub enum StringLogical {
    /// A universally unique identifier (RFC 4122).
    Uuid,
}

/// What the bytes of type `fixed` stand for (Avro 1.11, "Decimal" and "Duration").
#[derive(Clone, Copy, PartialEq, Eq, Debug)]
pub enum FixedLogical {
    /// A decimal of this precision (its digits in all) and this scale (its digits after the point).
    Decimal(usize, usize),
    /// Months, days and milliseconds, four bytes each.
    Duration,
}

/// An Avro schema (Avro 1.11, "Schema Declaration").
#[cycle(schema)]
#[derive(Drop, PartialEq, Eq)]
pub enum Schema {
    /// No value.
    Null,
    /// True or false.
    Boolean,
    /// Integers of 32 bits, and what they stand for.
    Int(Option<IntLogical>),
    /// Integers of 64 bits, and what they stand for.
    Long(Option<LongLogical>),
    /// IEEE 754 numbers of 32 bits.
    Float,
    /// IEEE 754 numbers of 64 bits.
    Double,
    /// Binary values of any length, and what they stand for.
    Bytes(Option<BytesLogical>),
    /// Strings in UTF-8, and what they stand for.
    String(Option<StringLogical>),
    /// A value for each field.
    Record(Record),
    /// One of given symbols.
    Enum(Enum),
    /// The schema of the items.
    Array(Box<Schema>),
    /// The schema of the values, whose keys are strings.
    Map(Box<Schema>),
    /// The members, in the order that their numbers count.
    Union(Items<Schema>),
    /// Fixed-size binary values.
    Fixed(Fixed),
}

/// Named fields in order (Avro 1.11, "Records").
#[cycle(schema)]
#[derive(Drop, PartialEq, Eq)]
pub struct Record {
    /// The name, as the schema encodes it.
    pub name: Text,
    /// The namespace, where the schema gives one.
    pub namespace: Option<Text>,
    /// What the schema says of the record.
    pub doc: Option<Text>,
    /// The fields, in the order of their values.
    pub fields: Items<AvroField>,
}

/// A field of a record (Avro 1.11, "Records").
#[cycle(schema)]
#[derive(Drop, PartialEq, Eq)]
pub struct AvroField {
    /// The name, as the schema encodes it.
    pub name: Text,
    /// What the schema says of the field.
    pub doc: Option<Text>,
    /// The schema of the field's values.
    pub schema: Schema,
}

/// A type whose values are symbols (Avro 1.11, "Enums").
#[derive(Drop, PartialEq, Eq)]
pub struct Enum {
    /// The name, as the schema encodes it.
    pub name: Text,
    /// The namespace, where the schema gives one.
    pub namespace: Option<Text>,
    /// What the schema says of the type.
    pub doc: Option<Text>,
    /// The symbols, in the order that their numbers count.
    pub symbols: Items<Text>,
}

/// A type whose values are fixed-size binary values (Avro 1.11, "Fixed").
#[derive(Drop, PartialEq, Eq)]
pub struct Fixed {
    /// The name, as the schema encodes it.
    pub name: Text,
    /// The namespace, where the schema gives one.
    pub namespace: Option<Text>,
    /// What the schema says of the type.
    pub doc: Option<Text>,
    /// How many bytes each value has.
    pub size: usize,
    /// What the values stand for.
    pub logical: Option<FixedLogical>,
}
