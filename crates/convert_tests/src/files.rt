//! Files in memory.

/// The header of a file of a record of one int, `a`. Its marker is sixteen bytes 1.
pub static HEADER: &[u8] =
    b"Obj\x01\x02\x16avro.schema\x82\x01{\"type\":\"record\",\"name\":\"t\",\"fields\":[{\"name\":\"a\",\"type\":\"int\"}]}\x00\x01\x01\x01\x01\x01\x01\x01\x01\x01\x01\x01\x01\x01\x01\x01\x01";

/// A block of that file: the rows 1 and -2.
pub static BLOCK: &[u8] =
    b"\x04\x04\x02\x03\x01\x01\x01\x01\x01\x01\x01\x01\x01\x01\x01\x01\x01\x01\x01\x01";

/// A file as a usual producer writes it: four fields, two blocks, and a codec that is named.
pub static EVENTS: &[u8] =
    b"Obj\x01\x04\x16avro.schema\x96\x04{\"type\":\"record\",\"name\":\"Event\",\"namespace\":\"com.example\",\"fields\":[{\"name\":\"id\",\"type\":\"long\"},{\"name\":\"user\",\"type\":\"string\"},{\"name\":\"tags\",\"type\":{\"type\":\"array\",\"items\":[\"null\",\"string\"]}},{\"name\":\"when\",\"type\":{\"type\":\"long\",\"logicalType\":\"timestamp-millis\"}}]}\x14avro.codec\x08null\x00\x01\x01\x01\x01\x01\x01\x01\x01\x01\x01\x01\x01\x01\x01\x01\x01\x040\x0e\x06ann\x04\x02\x02a\x00\x00\x90\xe2\x86\x82\x99c\x10\x06bob\x00\x00\x01\x01\x01\x01\x01\x01\x01\x01\x01\x01\x01\x01\x01\x01\x01\x01\x02\x14\x12\x04\xc3\xa9\x02\x02\x02x\x00\x01\x01\x01\x01\x01\x01\x01\x01\x01\x01\x01\x01\x01\x01\x01\x01\x01";

/// A block of one row that states 2^63 - 1 items and has none of them.
pub static FALSE_COUNT: &[u8] =
    b"Obj\x01\x02\x16avro.schema\xb6\x01{\"type\":\"record\",\"name\":\"t\",\"fields\":[{\"name\":\"a\",\"type\":{\"type\":\"array\",\"items\":\"long\"}}]}\x00\x01\x01\x01\x01\x01\x01\x01\x01\x01\x01\x01\x01\x01\x01\x01\x01\x02\x14\xfe\xff\xff\xff\xff\xff\xff\xff\xff\x01\x01\x01\x01\x01\x01\x01\x01\x01\x01\x01\x01\x01\x01\x01\x01\x01";

/// One timestamp of nanoseconds by a local clock: 1.
pub static NANOSECONDS: &[u8] =
    b"Obj\x01\x02\x16avro.schema\xe2\x01{\"type\":\"record\",\"name\":\"t\",\"fields\":[{\"name\":\"a\",\"type\":{\"type\":\"long\",\"logicalType\":\"local-timestamp-nanos\"}}]}\x00\x01\x01\x01\x01\x01\x01\x01\x01\x01\x01\x01\x01\x01\x01\x01\x01\x02\x02\x02\x01\x01\x01\x01\x01\x01\x01\x01\x01\x01\x01\x01\x01\x01\x01\x01";

/// The header of a file of dates.
pub static DATES_HEADER: &[u8] =
    b"Obj\x01\x02\x16avro.schema\xbe\x01{\"type\":\"record\",\"name\":\"t\",\"fields\":[{\"name\":\"a\",\"type\":{\"type\":\"int\",\"logicalType\":\"date\"}}]}\x00\x01\x01\x01\x01\x01\x01\x01\x01\x01\x01\x01\x01\x01\x01\x01\x01";

/// Two blocks: the last day of the year 9999, and the day after it.
pub static DATES: &[u8] =
    b"\x02\x08\xc0\x82\xe6\x02\x01\x01\x01\x01\x01\x01\x01\x01\x01\x01\x01\x01\x01\x01\x01\x01\x02\x08\xc2\x82\xe6\x02\x01\x01\x01\x01\x01\x01\x01\x01\x01\x01\x01\x01\x01\x01\x01\x01";

/// The header of a file of no fields.
pub static NO_FIELD: &[u8] =
    b"Obj\x01\x02\x16avro.schemaP{\"type\":\"record\",\"name\":\"t\",\"fields\":[]}\x00\x01\x01\x01\x01\x01\x01\x01\x01\x01\x01\x01\x01\x01\x01\x01\x01";

/// A field that isn't carried.
pub static MAP: &[u8] =
    b"Obj\x01\x02\x16avro.schema\xb2\x01{\"type\":\"record\",\"name\":\"t\",\"fields\":[{\"name\":\"a\",\"type\":{\"type\":\"map\",\"values\":\"int\"}}]}\x00\x01\x01\x01\x01\x01\x01\x01\x01\x01\x01\x01\x01\x01\x01\x01\x01";

/// A float, and an int.
pub static FLOAT: &[u8] =
    b"Obj\x01\x02\x16avro.schema\xba\x01{\"type\":\"record\",\"name\":\"t\",\"fields\":[{\"name\":\"a\",\"type\":\"float\"},{\"name\":\"b\",\"type\":\"int\"}]}\x00\x01\x01\x01\x01\x01\x01\x01\x01\x01\x01\x01\x01\x01\x01\x01\x01";

/// A block of one row of these, 0 and 3.
pub static FLOAT_BLOCK: &[u8] =
    b"\x02\x0a\x00\x00\x00\x00\x06\x01\x01\x01\x01\x01\x01\x01\x01\x01\x01\x01\x01\x01\x01\x01\x01";

/// Bytes, and an int.
pub static BINARY: &[u8] =
    b"Obj\x01\x02\x16avro.schema\xba\x01{\"type\":\"record\",\"name\":\"t\",\"fields\":[{\"name\":\"a\",\"type\":\"bytes\"},{\"name\":\"b\",\"type\":\"int\"}]}\x00\x01\x01\x01\x01\x01\x01\x01\x01\x01\x01\x01\x01\x01\x01\x01\x01";

/// A block of one row of these, no bytes and 3.
pub static BINARY_BLOCK: &[u8] =
    b"\x02\x04\x00\x06\x01\x01\x01\x01\x01\x01\x01\x01\x01\x01\x01\x01\x01\x01\x01\x01";

/// One int, 3, under a name with characters that are escaped.
pub static NAMES: &[u8] =
    b"Obj\x01\x02\x16avro.schema\xaa\x01{\"type\":\"record\",\"name\":\"t\",\"fields\":[{\"name\":\"a\\\"b\\\\c\\n\\u0001\\u00e9\",\"type\":\"int\"}]}\x00\x01\x01\x01\x01\x01\x01\x01\x01\x01\x01\x01\x01\x01\x01\x01\x01\x02\x02\x06\x01\x01\x01\x01\x01\x01\x01\x01\x01\x01\x01\x01\x01\x01\x01\x01";

/// The line that Python's `json` makes of it.
pub static NAMES_LINE: &[u8] = b"{\"a\\\"b\\\\c\\n\\u0001\xc3\xa9\":3}\x0a";

/// The header of a file of longs, where null is the second member, and of arrays of records of a
/// boolean and an array of ints.
pub static NESTED: &[u8] =
    b"Obj\x01\x02\x16avro.schema\xe2\x03{\"type\":\"record\",\"name\":\"t\",\"fields\":[{\"name\":\"a\",\"type\":[\"long\",\"null\"]},{\"name\":\"b\",\"type\":{\"type\":\"array\",\"items\":{\"type\":\"record\",\"name\":\"r\",\"fields\":[{\"name\":\"c\",\"type\":\"boolean\"},{\"name\":\"d\",\"type\":{\"type\":\"array\",\"items\":\"int\"}}]}}}]}\x00\x01\x01\x01\x01\x01\x01\x01\x01\x01\x01\x01\x01\x01\x01\x01\x01";

/// A block of that file: 5 and two records, and null and none. Each array is one block.
pub static NESTED_BLOCK: &[u8] =
    b"\x04\x1a\x00\x0a\x04\x01\x04\x02\x01\x00\x00\x00\x00\x02\x00\x01\x01\x01\x01\x01\x01\x01\x01\x01\x01\x01\x01\x01\x01\x01\x01";

/// A block of that file: null and one record. Its array states its size, and the ints are in two
/// blocks.
pub static NESTED_SIZED: &[u8] =
    b"\x02\x14\x02\x01\x0c\x00\x02\x06\x02\x08\x00\x00\x01\x01\x01\x01\x01\x01\x01\x01\x01\x01\x01\x01\x01\x01\x01\x01";
