//! The error of every call, and its reasons.
ghost use Rattle.std.specs.Prelude.{◌≡◌};
ghost use Rattle.arrow_core.specs.Errors.{status_of, reason_name, error_name};

use std::alloc::{AllocError, AllocFailed};
use std::fmt;

/// Why a call refused. Each reason has one condition, which the call that gives it states.
#[derive(Clone, Copy, PartialEq, Eq, Debug)]
pub enum Reason {
    /// Lists that belong together differ in length.
    Lengths,
    /// A field has another type or nullability than its Avro schema asks for.
    FieldType,
    /// The parts of an array don't fit together.
    ArrayParts,
    /// A null stands under a schema that is no union.
    NullUnderRequired,
    /// An interval isn't whole milliseconds in 32 bits.
    Interval,
    /// A field is named twice.
    DuplicateName,
    /// A year is outside 0 to 9999.
    DateRange,
    /// The string of a zone is no offset.
    ZoneOffset,
    /// A kept number is out of range or repeated.
    KeepNumber,
    /// The list of kept numbers is empty.
    NothingKept,
    /// There is no field.
    NoField,
    /// A schema isn't carried.
    NotCarried,
    /// A kept field holds a float or double.
    Float,
    /// The codec of a file isn't `null`.
    Codec,
    /// The root of a file's schema is no record.
    RootNotRecord,
    /// A type is given by reference.
    TypeReference,
    /// A map, or a union other than null with one type.
    MapOrUnion,
    /// A data type has no Avro schema.
    NoAvroType,
    /// A data type has no JSON text.
    NoJsonText,
    /// A data type has no JSON reading.
    NoJsonReading,
    /// An array and a schema don't pair.
    SerializerPair,
    /// The JSON value is no array.
    NotAnArray,
    /// A string stands under a timestamp.
    TextTimestamp,
    /// More rows are stated than there are bytes.
    Rows,
    /// The bytes of a block aren't its rows.
    BlockBytes,
    /// The bytes don't begin with a number.
    Number,
    /// The bytes are no JSON text.
    Json,
    /// The text is no JSON or no Avro schema.
    SchemaText,
    /// The first four bytes aren't an Avro file's.
    Magic,
    /// A file doesn't begin with a header, or its header has no schema.
    Header,
    /// The bytes of a file aren't blocks, or end within one.
    Container,
    /// Sixteen other bytes stand in place of the sync marker.
    Marker,
    /// A line isn't UTF-8.
    Utf8Line,
    /// There are no bytes, or no rows.
    EmptyInput,
    /// The JSON value isn't an array of records.
    OuterNotArray,
    /// The first record is no object.
    FirstNotObject,
    /// A row is no object.
    NotAnObject,
    /// A row has a key that no field names.
    UnknownKey,
    /// A row lacks a field's key.
    MissingKey,
    /// A skipped array block states a negative byte size.
    NegativeSize,
    /// A file has another record than the files before it.
    RecordDiffers,
    /// A test names a field that isn't there.
    TestField,
    /// The literal of a test doesn't fit its field.
    TestType,
    /// A line's value isn't the JSON encoding of a row.
    JsonRow,
    /// The reader's record doesn't resolve against the writer's.
    Unresolved,
    /// Bytes that become a text aren't UTF-8.
    Utf8Value,
}

impl Reason {
    /// The name of the reason, as it stands above.
    pub fn name(&self) -> &'static str
        ensures { result.now ≡ reason_name self.now }
    {
        match self {
            Reason::Lengths => "Lengths",
            Reason::FieldType => "FieldType",
            Reason::ArrayParts => "ArrayParts",
            Reason::NullUnderRequired => "NullUnderRequired",
            Reason::Interval => "Interval",
            Reason::DuplicateName => "DuplicateName",
            Reason::DateRange => "DateRange",
            Reason::ZoneOffset => "ZoneOffset",
            Reason::KeepNumber => "KeepNumber",
            Reason::NothingKept => "NothingKept",
            Reason::NoField => "NoField",
            Reason::NotCarried => "NotCarried",
            Reason::Float => "Float",
            Reason::Codec => "Codec",
            Reason::RootNotRecord => "RootNotRecord",
            Reason::TypeReference => "TypeReference",
            Reason::MapOrUnion => "MapOrUnion",
            Reason::NoAvroType => "NoAvroType",
            Reason::NoJsonText => "NoJsonText",
            Reason::NoJsonReading => "NoJsonReading",
            Reason::SerializerPair => "SerializerPair",
            Reason::NotAnArray => "NotAnArray",
            Reason::TextTimestamp => "TextTimestamp",
            Reason::Rows => "Rows",
            Reason::BlockBytes => "BlockBytes",
            Reason::Number => "Number",
            Reason::Json => "Json",
            Reason::SchemaText => "SchemaText",
            Reason::Magic => "Magic",
            Reason::Header => "Header",
            Reason::Container => "Container",
            Reason::Marker => "Marker",
            Reason::Utf8Line => "Utf8Line",
            Reason::EmptyInput => "EmptyInput",
            Reason::OuterNotArray => "OuterNotArray",
            Reason::FirstNotObject => "FirstNotObject",
            Reason::NotAnObject => "NotAnObject",
            Reason::UnknownKey => "UnknownKey",
            Reason::MissingKey => "MissingKey",
            Reason::NegativeSize => "NegativeSize",
            Reason::RecordDiffers => "RecordDiffers",
            Reason::TestField => "TestField",
            Reason::TestType => "TestType",
            Reason::JsonRow => "JsonRow",
            Reason::Unresolved => "Unresolved",
            Reason::Utf8Value => "Utf8Value",
        }
    }
}

impl fmt::Display for Reason {
    fn fmt<W: fmt::Write>(&self, f: &mut fmt::Formatter<W>) -> fmt::Result {
        f.write_str(self.name())
    }
}

/// What a call answers when it doesn't answer Ok.
#[derive(Clone, Copy, PartialEq, Eq, Debug)]
pub enum Error {
    /// An argument is at fault.
    InvalidArgumentError(Reason),
    /// The call is asked for something that this library doesn't carry.
    NotYetImplemented(Reason),
    /// Bytes or strings from outside are not of their format.
    ExternalFormat(Reason),
    /// Bytes from outside break a rule of their format's specification.
    OutOfSpec(Reason),
    /// A number or a length passes the greatest value of its type.
    Overflow,
    /// A limit on bytes taken or on nesting is passed.
    LimitExceeded,
    /// A read failed. Where lines were read, `line` is the line's number, counted from 1.
    ReadFault { line: Option<u64> },
    /// A write failed.
    WriteFault,
    /// There is no memory. This is the one answer that any call with an allocator may give.
    OutOfMemory,
}

/// What a call answers: a value, or this library's error.
pub type Result<T> = std::result::Result<T, Error>;

impl Error {
    /// The exit status of a program that ends with this error: 2 for the first variant, up to 10
    /// for the last. It takes no memory.
    pub fn status(&self) -> u8
        ensures { result ≡ status_of self.now }
    {
        match self {
            Error::InvalidArgumentError(_) => 2,
            Error::NotYetImplemented(_) => 3,
            Error::ExternalFormat(_) => 4,
            Error::OutOfSpec(_) => 5,
            Error::Overflow => 6,
            Error::LimitExceeded => 7,
            Error::ReadFault { .. } => 8,
            Error::WriteFault => 9,
            Error::OutOfMemory => 10,
        }
    }

    /// The name of the variant, as it stands above.
    pub fn name(&self) -> &'static str
        ensures { result.now ≡ error_name self.now }
    {
        match self {
            Error::InvalidArgumentError(_) => "InvalidArgumentError",
            Error::NotYetImplemented(_) => "NotYetImplemented",
            Error::ExternalFormat(_) => "ExternalFormat",
            Error::OutOfSpec(_) => "OutOfSpec",
            Error::Overflow => "Overflow",
            Error::LimitExceeded => "LimitExceeded",
            Error::ReadFault { .. } => "ReadFault",
            Error::WriteFault => "WriteFault",
            Error::OutOfMemory => "OutOfMemory",
        }
    }
}

impl fmt::Display for Error {
    fn fmt<W: fmt::Write>(&self, f: &mut fmt::Formatter<W>) -> fmt::Result {
        f.write_str(self.name())?;
        match self {
            Error::InvalidArgumentError(reason)
            | Error::NotYetImplemented(reason)
            | Error::ExternalFormat(reason)
            | Error::OutOfSpec(reason) => write!(f, ": {reason}"),
            Error::ReadFault { line: Some(line) } => write!(f, ": line {line}"),
            _ => Ok(()),
        }
    }
}

impl std::error::Error for Error {}

impl From<AllocError> for Error {
    ghost use Rattle.std.specs.Prelude.{◌≡◌};
    ghost use Rattle.arrow_core.specs.declared.error.Error.TheVariants.{OutOfMemory};

    ghost from_gives = { λ _ e. e ≡ OutOfMemory };

    fn from(_error: AllocError) -> Error {
        Error::OutOfMemory
    }
}

impl<T: Drop> From<AllocFailed<T>> for Error {
    ghost use Rattle.std.specs.Prelude.{◌≡◌};
    ghost use Rattle.arrow_core.specs.declared.error.Error.TheVariants.{OutOfMemory};

    ghost from_gives = { λ _ e. e ≡ OutOfMemory };

    fn from(_error: AllocFailed<T>) -> Error {
        Error::OutOfMemory
    }
}
