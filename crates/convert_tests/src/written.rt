//! A file that python3-avro wrote, and what Python's `json` makes of its rows, by `tools/avro_samples.py`.

/// Rows in two blocks: a union, a string, an enum, and a record with an array.
pub static WRITTEN: &[u8] =
    b"Obj\x01\x04\x14avro.codec\x08null\x16avro.schema\xca\x05{\"type\": \"record\", \"name\": \"r\", \"fields\": [{\"type\": [\"null\", \"long\"], \"name\": \"n\"}, {\"type\": \"string\", \"name\": \"s\"}, {\"type\": {\"type\": \"enum\", \"name\": \"k\", \"symbols\": [\"no\", \"yes\"]}, \"name\": \"e\"}, {\"type\": {\"type\": \"record\", \"name\": \"q\", \"fields\": [{\"type\": \"boolean\", \"name\": \"b\"}, {\"type\": {\"type\": \"array\", \"items\": \"int\"}, \"name\": \"l\"}]}, \"name\": \"p\"}]}\x000123456789abcdef\x02(\x00\x18a\"\\\x0a\x09\x01/\xc3\xa9\xe2\x98\x83\x02\x01\x04\x02\x03\x000123456789abcdef\x04J\x02\xff\xff\xff\xff\xff\xff\xff\xff\xff\x01\x00\x00\x00\x00\x02\xfe\xff\xff\xff\xff\xff\xff\xff\xff\x01\x02z\x00\x01\x02\xfe\xff\xff\xff\x0f\x000123456789abcdef";

/// The lines of the rows.
pub static WRITTEN_LINES: &[u8] =
    b"{\"n\":null,\"s\":\"a\\\"\\\\\\n\\t\\u0001/\xc3\xa9\xe2\x98\x83\",\"e\":\"yes\",\"p\":{\"b\":true,\"l\":[1,-2]}}\x0a{\"n\":-9223372036854775808,\"s\":\"\",\"e\":\"no\",\"p\":{\"b\":false,\"l\":[]}}\x0a{\"n\":9223372036854775807,\"s\":\"z\",\"e\":\"no\",\"p\":{\"b\":true,\"l\":[2147483647]}}\x0a";
