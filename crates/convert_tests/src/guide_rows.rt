//! Rows as a JSON text, against the text that Python's `json` makes of the same rows.

use crate::guide_blocks::{ROWS, three_fields};
use crate::guide_samples::block;
use arrow_base::{Error, MemorySink};
use arrow_core::Items;
use avro_read::{deserialize, infer_schema};
use guide::write_rows;
use std::alloc::Global;
use std::process::Abort;

/// Writes the two rows.
fn written(rt: &impl Abort, alloc: Global, sink: &mut MemorySink) -> Result<(), Error> {
    let record = three_fields(rt, alloc);
    let block = block(rt, alloc, 2, ROWS);
    let schema = infer_schema(alloc, &record)?;
    let avro_fields = record.fields.as_slice();
    let projection = [true, true, true];
    let chunk = deserialize(
        alloc,
        &block,
        schema.fields.as_slice(),
        avro_fields,
        &projection,
    )?;
    write_rows(alloc, sink, schema, &chunk)
}

#[test]
fn rows_are_written_as_an_array(rt: HostRuntime) {
    let none = Items::from_vec(Vec::new(rt.alloc()));
    let mut sink = MemorySink::with_room(rt.alloc(), 64, 64, none).expect(&rt, "memory");
    written(&rt, rt.alloc(), &mut sink).expect(&rt, "two rows");
    let text = b"[{\"a\":1,\"b\":\"hi\",\"c\":3},{\"a\":-2,\"b\":null,\"c\":300}]";
    assert!(rt; sink.held() == text.as_slice());
}
