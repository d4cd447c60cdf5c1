//! The sum of a file that Python's `avro` wrote, of two blocks.

use arrow_base::{Bytes, SteadySource};
use guide::sum_of_longs;

/// The rows "a" and 5, and "b" and null; then "c" and -2^63, and "d" and 3.
static FILE: &[u8] =
    b"Obj\x01\x04\x14avro.codec\x08null\x16avro.schema\xf0\x01{\"type\": \"record\", \"name\": \"t\", \"fields\": [{\"type\": \"string\", \"name\": \"name\"}, {\"type\": [\"null\", \"long\"], \"name\": \"n\"}]}\x00\x08~J\x05\x10\xcc\xe0\x1b/\xc0\x1fW\x02\x87#\x86\x04\x0e\x02a\x02\n\x02b\x00\x08~J\x05\x10\xcc\xe0\x1b/\xc0\x1fW\x02\x87#\x86\x04\x22\x02c\x02\xff\xff\xff\xff\xff\xff\xff\xff\xff\x01\x02d\x02\x06\x08~J\x05\x10\xcc\xe0\x1b/\xc0\x1fW\x02\x87#\x86";

#[test]
fn the_longs_of_all_blocks_are_summed(rt: HostRuntime) {
    let bytes = Bytes::try_from_slice(rt.alloc(), FILE).expect(&rt, "memory");
    let sum = sum_of_longs(rt.alloc(), SteadySource::new(bytes, 1000), 1).expect(&rt, "a file");
    assert!(rt; sum == -9223372036854775800);
}
