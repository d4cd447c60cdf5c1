//! Files in memory that are rewritten, and their canonical forms.

/// The same rows, where 1 is encoded in two bytes.
pub static LONG_NUMBERS: &[u8] =
    b"\x04\x06\x82\x00\x03\x01\x01\x01\x01\x01\x01\x01\x01\x01\x01\x01\x01\x01\x01\x01\x01";

/// A block of no rows.
pub static NO_ROWS: &[u8] =
    b"\x00\x00\x01\x01\x01\x01\x01\x01\x01\x01\x01\x01\x01\x01\x01\x01\x01\x01";

/// Its canonical form under the name `t` and with sixteen bytes 2 as marker: one entry in the header, the
/// schema's text without the namespace and with that name, and the same blocks.
pub static CANONICAL_EVENTS: &[u8] =
    b"Obj\x01\x02\x16avro.schema\xda\x03{\"type\":\"record\",\"name\":\"t\",\"fields\":[{\"name\":\"id\",\"type\":\"long\"},{\"name\":\"user\",\"type\":\"string\"},{\"name\":\"tags\",\"type\":{\"type\":\"array\",\"items\":[\"null\",\"string\"]}},{\"name\":\"when\",\"type\":{\"type\":\"long\",\"logicalType\":\"timestamp-millis\"}}]}\x00\x02\x02\x02\x02\x02\x02\x02\x02\x02\x02\x02\x02\x02\x02\x02\x02\x040\x0e\x06ann\x04\x02\x02a\x00\x00\x90\xe2\x86\x82\x99c\x10\x06bob\x00\x00\x02\x02\x02\x02\x02\x02\x02\x02\x02\x02\x02\x02\x02\x02\x02\x02\x02\x14\x12\x04\xc3\xa9\x02\x02\x02x\x00\x01\x02\x02\x02\x02\x02\x02\x02\x02\x02\x02\x02\x02\x02\x02\x02\x02";

/// The header of a file of an enum, whose column has a type that no Avro schema gives back.
pub static ENUM: &[u8] =
    b"Obj\x01\x02\x16avro.schema\xcc\x01{\"type\":\"record\",\"name\":\"t\",\"fields\":[{\"name\":\"a\",\"type\":{\"type\":\"enum\",\"name\":\"e\",\"symbols\":[\"x\"]}}]}\x00\x01\x01\x01\x01\x01\x01\x01\x01\x01\x01\x01\x01\x01\x01\x01\x01";

/// The header of a file of arrays of longs.
pub static ARRAYS: &[u8] =
    b"Obj\x01\x02\x16avro.schema\xb6\x01{\"type\":\"record\",\"name\":\"t\",\"fields\":[{\"name\":\"a\",\"type\":{\"type\":\"array\",\"items\":\"long\"}}]}\x00\x01\x01\x01\x01\x01\x01\x01\x01\x01\x01\x01\x01\x01\x01\x01\x01";

/// A block of that file: the rows [1, 2, 3], as a block of two items with its size and a block of one
/// item, and [].
pub static SPLIT_ARRAYS: &[u8] =
    b"\x04\x10\x03\x04\x02\x04\x02\x06\x00\x00\x01\x01\x01\x01\x01\x01\x01\x01\x01\x01\x01\x01\x01\x01\x01\x01";

/// The same rows, the first one as two blocks without a size.
pub static TWO_BLOCKS: &[u8] =
    b"\x04\x0e\x02\x02\x04\x04\x06\x00\x00\x01\x01\x01\x01\x01\x01\x01\x01\x01\x01\x01\x01\x01\x01\x01\x01";

/// The same rows, each array in one block.
pub static WHOLE_ARRAYS: &[u8] =
    b"\x04\x0c\x06\x02\x04\x06\x00\x00\x01\x01\x01\x01\x01\x01\x01\x01\x01\x01\x01\x01\x01\x01\x01\x01";

/// The header of a file of ints or null, null second.
pub static NULL_SECOND: &[u8] =
    b"Obj\x01\x02\x16avro.schema\x94\x01{\"type\":\"record\",\"name\":\"t\",\"fields\":[{\"name\":\"a\",\"type\":[\"int\",\"null\"]}]}\x00\x01\x01\x01\x01\x01\x01\x01\x01\x01\x01\x01\x01\x01\x01\x01\x01";

/// The rows 5 and null under that header.
pub static INT_OR_NULL: &[u8] =
    b"\x04\x06\x00\x0a\x02\x01\x01\x01\x01\x01\x01\x01\x01\x01\x01\x01\x01\x01\x01\x01\x01";

/// The header with null first.
pub static NULL_FIRST: &[u8] =
    b"Obj\x01\x02\x16avro.schema\x94\x01{\"type\":\"record\",\"name\":\"t\",\"fields\":[{\"name\":\"a\",\"type\":[\"null\",\"int\"]}]}\x00\x01\x01\x01\x01\x01\x01\x01\x01\x01\x01\x01\x01\x01\x01\x01\x01";

/// The rows 5 and null under this one.
pub static NULL_OR_INT: &[u8] =
    b"\x04\x06\x02\x0a\x00\x01\x01\x01\x01\x01\x01\x01\x01\x01\x01\x01\x01\x01\x01\x01\x01";
