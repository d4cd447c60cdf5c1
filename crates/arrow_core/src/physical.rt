//! How the values of a column lie in memory.

use crate::types::{DataType, IntegerType, IntervalUnit};

/// How a primitive value lies in memory (Arrow columnar format, "Fixed-size Primitive Layout").
#[derive(Clone, Copy, PartialEq, Eq, Debug)]
pub enum PrimitiveType {
    /// A signed number of 8 bits.
    Int8,
    /// A signed number of 16 bits.
    Int16,
    /// A signed number of 32 bits.
    Int32,
    /// A signed number of 64 bits.
    Int64,
    /// A signed number of 128 bits.
    Int128,
    /// A signed number of 256 bits.
    Int256,
    /// An unsigned number of 8 bits.
    UInt8,
    /// An unsigned number of 16 bits.
    UInt16,
    /// An unsigned number of 32 bits.
    UInt32,
    /// An unsigned number of 64 bits.
    UInt64,
    /// A float of 16 bits.
    Float16,
    /// A float of 32 bits.
    Float32,
    /// A float of 64 bits.
    Float64,
    /// Days and milliseconds, 32 bits each.
    DaysMs,
    /// Months and days of 32 bits each, and nanoseconds of 64 bits.
    MonthDayNano,
}

/// How the values of a column lie in memory (Arrow columnar format, "Physical Memory Layout").
#[derive(Clone, Copy, PartialEq, Eq, Debug)]
pub enum PhysicalType {
    /// No bytes: each value is null.
    Null,
    /// One bit a value.
    Boolean,
    /// Values of one size, side by side.
    Primitive(PrimitiveType),
    /// Bytes of any length, with offsets of 32 bits.
    Binary,
    /// Bytes of a fixed size.
    FixedSizeBinary,
    /// Bytes of any length, with offsets of 64 bits.
    LargeBinary,
    /// UTF-8 strings, with offsets of 32 bits.
    Utf8,
    /// UTF-8 strings, with offsets of 64 bits.
    LargeUtf8,
    /// Lists of any length, with offsets of 32 bits.
    List,
    /// Fixed-size lists.
    FixedSizeList,
    /// Lists of any length, with offsets of 64 bits.
    LargeList,
    /// A column for each field.
    Struct,
    /// A column for each type, and which of them each value is in.
    Union,
    /// Lists of pairs of a key and a value.
    Map,
    /// Indexes, of this integer type, into a column of distinct values.
    Dictionary(IntegerType),
}

impl DataType {
    ghost use Rattle.std.specs.Prelude.{◌≡◌};
    ghost use Rattle.arrow_core.specs.Layouts.{logical_type, physical_type};

    /// The type beneath extensions: the type itself, where it is no `Extension`.
    pub fn to_logical_type(&self) -> &DataType
        ensures { result.now ≡ logical_type self.now }
    {
        match self {
            DataType::Extension(_, inner, _) => inner.get().to_logical_type(),
            _ => self,
        }
    }

    /// How values of this type lie in memory. An extension lies as the type beneath it.
    pub fn to_physical_type(&self) -> PhysicalType
        ensures { result ≡ physical_type self.now }
    {
        match self {
            DataType::Null => PhysicalType::Null,
            DataType::Boolean => PhysicalType::Boolean,
            DataType::Int8 => PhysicalType::Primitive(PrimitiveType::Int8),
            DataType::Int16 => PhysicalType::Primitive(PrimitiveType::Int16),
            DataType::Int32 | DataType::Date32 | DataType::Time32(_) => {
                PhysicalType::Primitive(PrimitiveType::Int32)
            }
            DataType::Int64
            | DataType::Date64
            | DataType::Time64(_)
            | DataType::Timestamp(_, _)
            | DataType::Duration(_) => PhysicalType::Primitive(PrimitiveType::Int64),
            DataType::UInt8 => PhysicalType::Primitive(PrimitiveType::UInt8),
            DataType::UInt16 => PhysicalType::Primitive(PrimitiveType::UInt16),
            DataType::UInt32 => PhysicalType::Primitive(PrimitiveType::UInt32),
            DataType::UInt64 => PhysicalType::Primitive(PrimitiveType::UInt64),
            DataType::Float16 => PhysicalType::Primitive(PrimitiveType::Float16),
            DataType::Float32 => PhysicalType::Primitive(PrimitiveType::Float32),
            DataType::Float64 => PhysicalType::Primitive(PrimitiveType::Float64),
            DataType::Interval(unit) => PhysicalType::Primitive(unit.to_primitive_type()),
            DataType::Binary => PhysicalType::Binary,
            DataType::FixedSizeBinary(_) => PhysicalType::FixedSizeBinary,
            DataType::LargeBinary => PhysicalType::LargeBinary,
            DataType::Utf8 => PhysicalType::Utf8,
            DataType::LargeUtf8 => PhysicalType::LargeUtf8,
            DataType::List(_) => PhysicalType::List,
            DataType::FixedSizeList(_, _) => PhysicalType::FixedSizeList,
            DataType::LargeList(_) => PhysicalType::LargeList,
            DataType::Struct(_) => PhysicalType::Struct,
            DataType::Union(_, _, _) => PhysicalType::Union,
            DataType::Map(_, _) => PhysicalType::Map,
            DataType::Dictionary(key, _, _) => PhysicalType::Dictionary(*key),
            DataType::Decimal(_, _) => PhysicalType::Primitive(PrimitiveType::Int128),
            DataType::Decimal256(_, _) => PhysicalType::Primitive(PrimitiveType::Int256),
            DataType::Extension(_, inner, _) => inner.get().to_physical_type(),
        }
    }
}

impl IntervalUnit {
    ghost use Rattle.std.specs.Prelude.{◌≡◌};
    ghost use Rattle.arrow_core.specs.Layouts.{interval_layout};

    fn to_primitive_type(self) -> PrimitiveType
        ensures { result ≡ interval_layout self }
    {
        match self {
            IntervalUnit::YearMonth => PrimitiveType::Int32,
            IntervalUnit::DayTime => PrimitiveType::DaysMs,
            IntervalUnit::MonthDayNano => PrimitiveType::MonthDayNano,
        }
    }
}
