//! The types of columns (Arrow columnar format, "Data Types" and `Schema.fbs`).
use crate::{Box, Items, Metadata, Text};
use std::alloc::Global;

/// What a time, a timestamp or a duration counts.
#[derive(Clone, Copy, PartialEq, Eq, PartialOrd, Ord, Hash, Debug)]
pub enum TimeUnit {
    /// Seconds.
    Second,
    /// Thousandths of a second.
    Millisecond,
    /// Millionths of a second.
    Microsecond,
    /// Billionths of a second.
    Nanosecond,
}

/// What an interval counts.
#[derive(Clone, Copy, PartialEq, Eq, PartialOrd, Ord, Hash, Debug)]
pub enum IntervalUnit {
    /// Months.
    YearMonth,
    /// Days and milliseconds.
    DayTime,
    /// Months, days and nanoseconds.
    MonthDayNano,
}

/// How the children of a union lie.
#[derive(Clone, Copy, PartialEq, Eq, PartialOrd, Ord, Hash, Debug)]
pub enum UnionMode {
    /// Each child has its own values alone, found by offsets.
    Dense,
    /// Each child is as long as the union.
    Sparse,
}

/// The type of a dictionary's keys.
#[derive(Clone, Copy, PartialEq, Eq, PartialOrd, Ord, Hash, Debug)]
pub enum IntegerType {
    /// A signed number of 8 bits.
    Int8,
    /// A signed number of 16 bits.
    Int16,
    /// A signed number of 32 bits.
    Int32,
    /// A signed number of 64 bits.
    Int64,
    /// An unsigned number of 8 bits.
    UInt8,
    /// An unsigned number of 16 bits.
    UInt16,
    /// An unsigned number of 32 bits.
    UInt32,
    /// An unsigned number of 64 bits.
    UInt64,
}

/// The logical type of a column.
///
/// Types are ordered by their position in this list, then by what is in them. Equality, order and
/// hash agree.
#[cycle(types)]
#[derive(Drop, PartialEq, Eq, PartialOrd, Ord, Hash)]
pub enum DataType {
    /// Only nulls.
    Null,
    /// Booleans.
    Boolean,
    /// Signed numbers of 8 bits.
    Int8,
    /// Signed numbers of 16 bits.
    Int16,
    /// Signed numbers of 32 bits.
    Int32,
    /// Signed numbers of 64 bits.
    Int64,
    /// Unsigned numbers of 8 bits.
    UInt8,
    /// Unsigned numbers of 16 bits.
    UInt16,
    /// Unsigned numbers of 32 bits.
    UInt32,
    /// Unsigned numbers of 64 bits.
    UInt64,
    /// Floats of 16 bits.
    Float16,
    /// Floats of 32 bits.
    Float32,
    /// Floats of 64 bits.
    Float64,
    /// Counts of the unit since 1970-01-01T00:00:00, in UTC where a zone is named, and else in no
    /// zone. The zone is the one to show the moment in.
    Timestamp(TimeUnit, Option<Text>),
    /// Days since 1970-01-01, in 32 bits.
    Date32,
    /// Milliseconds since 1970-01-01, in 64 bits, whole days.
    Date64,
    /// Counts of seconds or milliseconds since midnight, in 32 bits.
    Time32(TimeUnit),
    /// Counts of microseconds or nanoseconds since midnight, in 64 bits.
    Time64(TimeUnit),
    /// Lengths of time as counts of the unit, in 64 bits.
    Duration(TimeUnit),
    /// Intervals: months in 32 bits; days and milliseconds, 32 bits each; or months and days of 32
    /// bits each, and nanoseconds of 64.
    Interval(IntervalUnit),
    /// Bytes of any length, with offsets of 32 bits.
    Binary,
    /// Bytes of this length.
    FixedSizeBinary(usize),
    /// Bytes of any length, with offsets of 64 bits.
    LargeBinary,
    /// UTF-8 strings, with offsets of 32 bits.
    Utf8,
    /// UTF-8 strings, with offsets of 64 bits.
    LargeUtf8,
    /// Lists of the field, with offsets of 32 bits.
    List(Box<Field>),
    /// Lists of the field, of this length.
    FixedSizeList(Box<Field>, usize),
    /// Lists of the field, with offsets of 64 bits.
    LargeList(Box<Field>),
    /// Structs of the fields.
    Struct(Items<Field>),
    /// Lists of the field, which is a struct of a key and a value, and whether the keys are sorted.
    Map(Box<Field>, bool),
    /// Values of any one of the fields, the number that stands for each field where it isn't its
    /// index, and how the children lie.
    Union(Items<Field>, Option<Items<i32>>, UnionMode),
    /// Indexes into a column of distinct values: the type of the indexes, the type of the values,
    /// and whether the values are sorted.
    Dictionary(IntegerType, Box<DataType>, bool),
    /// Numbers of 128 bits with so many decimal digits, so many of them after the point.
    Decimal(usize, usize),
    /// Numbers of 256 bits with so many decimal digits, so many of them after the point.
    Decimal256(usize, usize),
    /// A type of this name that others define, the type that it is kept as, and its metadata.
    Extension(Text, Box<DataType>, Option<Text>),
}

/// A named column of a struct or a schema.
#[cycle(types)]
#[derive(Drop, PartialEq, Eq, PartialOrd, Ord, Hash)]
pub struct Field {
    /// The name.
    pub name: Text,
    /// The type of its values.
    pub data_type: DataType,
    /// Whether it may hold nulls.
    pub is_nullable: bool,
    /// What else is to be known of it.
    pub metadata: Metadata,
}

/// The columns of a table, in order.
#[derive(Drop, PartialEq, Eq, PartialOrd, Ord, Hash)]
pub struct Schema {
    /// The columns.
    pub fields: Items<Field>,
    /// What else is to be known of the table.
    pub metadata: Metadata,
}

impl Field {
    ghost use Rattle.std.specs.Prelude.{◌≡◌, []};

    /// A field of this name and type, without metadata.
    pub fn new(alloc: Global, name: Text, data_type: DataType, is_nullable: bool) -> Field
        ensures { result
            ≡ record {
              name = name;
              data_type = data_type;
              is_nullable = is_nullable;
              metadata = [];
            } }
    {
        Field {
            name,
            data_type,
            is_nullable,
            metadata: Metadata::new(alloc),
        }
    }

    /// The same field with this metadata in place of its own.
    pub fn with_metadata(self, metadata: Metadata) -> Field
        ensures { result ≡ record self { metadata = metadata } }
    {
        Field { metadata, ..self }
    }
}
