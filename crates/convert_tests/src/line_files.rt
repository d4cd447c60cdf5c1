//! Files in memory, and pieces of files, worked by hand from Avro 1.11, "Object Container Files" and
//! "Binary Encoding".

/// The block of a row of the value 1.
pub static ONE: &[u8] =
    b"\x02\x02\x02\x01\x01\x01\x01\x01\x01\x01\x01\x01\x01\x01\x01\x01\x01\x01\x01";

/// The block of a row of the value -2.
pub static MINUS_TWO: &[u8] =
    b"\x02\x02\x03\x01\x01\x01\x01\x01\x01\x01\x01\x01\x01\x01\x01\x01\x01\x01\x01";

/// The block of a row of the value 15.
pub static FIFTEEN: &[u8] =
    b"\x02\x02\x1e\x01\x01\x01\x01\x01\x01\x01\x01\x01\x01\x01\x01\x01\x01\x01\x01";

/// Three rows of a long, a string, a list of nullable strings and a timestamp of milliseconds, in
/// two blocks.
pub static EVENTS: &[u8] =
    b"Obj\x01\x02\x16avro.schema\xda\x03{\"type\":\"record\",\"name\":\"t\",\"fields\":[{\"name\":\"id\",\"type\":\"long\"},{\"name\":\"user\",\"type\":\"string\"},{\"name\":\"tags\",\"type\":{\"type\":\"array\",\"items\":[\"null\",\"string\"]}},{\"name\":\"when\",\"type\":{\"type\":\"long\",\"logicalType\":\"timestamp-millis\"}}]}\x00\x01\x01\x01\x01\x01\x01\x01\x01\x01\x01\x01\x01\x01\x01\x01\x01\x040\x0e\x06ann\x04\x02\x02a\x00\x00\x90\xe2\x86\x82\x99c\x10\x06bob\x00\x00\x01\x01\x01\x01\x01\x01\x01\x01\x01\x01\x01\x01\x01\x01\x01\x01\x02\x14\x12\x04\xc3\xa9\x02\x02\x02x\x00\x01\x01\x01\x01\x01\x01\x01\x01\x01\x01\x01\x01\x01\x01\x01\x01\x01";

/// Lines of these rows, of which one is blank: members in any order, a name twice, of which the last
/// value counts, a name that no field has, and a number with a point and an exponent.
pub static EVENT_LINES: &[u8] =
    b"{\"id\":7,\"user\":\"ann\",\"tags\":[\"a\",null],\"when\":1704164645000}\n \t\r\n{\"when\":0,\"tags\":[],\"more\":{\"id\":1},\"user\":\"bob\",\"id\":1,\"id\":8}\n{\"id\":0.9e1,\"user\":\"\\u00e9\",\"tags\":[\"x\"],\"when\":-1}";

/// Five rows of a nullable list of nullable records of a nullable int and a nullable string.
pub static NESTED: &[u8] =
    b"Obj\x01\x02\x16avro.schema\xb0\x03{\"type\":\"record\",\"name\":\"t\",\"fields\":[{\"name\":\"a\",\"type\":[\"null\",{\"type\":\"array\",\"items\":[\"null\",{\"type\":\"record\",\"name\":\"r1\",\"fields\":[{\"name\":\"n\",\"type\":[\"null\",\"int\"]},{\"name\":\"s\",\"type\":[\"null\",\"string\"]}]}]}]}]}\x00\x01\x01\x01\x01\x01\x01\x01\x01\x01\x01\x01\x01\x01\x01\x01\x01\x0a8\x02\x08\x02\x02\x02\x02\x02x\x02\x02\x06\x00\x00\x00\x00\x00\x02\x00\x00\x02\x02\x02\x00\x02\x04\xc3\xa9\x00\x01\x01\x01\x01\x01\x01\x01\x01\x01\x01\x01\x01\x01\x01\x01\x01";

/// Lines of these rows: a record with a name twice, of which the last value counts, one with a name
/// that no field has, items that are no record, a list that is missing, an empty one, and a value
/// that is no list.
pub static NESTED_LINES: &[u8] =
    b"{\"a\":[{\"n\":1,\"s\":\"x\"},{\"n\":2,\"n\":3,\"u\":[1]},7,null]}\n{}\n{\"a\":[]}\n{\"a\":\"no\"}\n{\"b\":[{\"n\":1}],\"a\":[{\"s\":\"\\u00e9\"}]}\n";
