//! Columns that are read from bytes and written again.
use arrow_array::{Array, Chunk};
use arrow_columns::equal;
use arrow_core::{Bytes, Error, Field, Items, Reason, Text};
use avro_decode::deserialize;
use avro_schema::{AvroField, Block, Record};
use avro_types::{enlarge, infer_schema};
use avro_write::{BoxSerializer, new_serializer, serialize};
use cli_words::read_field;
use std::alloc::Global;

fn record_named(alloc: Global, name: Text, field: AvroField) -> Result<Record, Error> {
    let fields = vec![in alloc; field]?;
    Ok(Record {
        name,
        namespace: None,
        doc: None,
        fields: Items::from_vec(fields),
    })
}

/// The record of one field.
fn record_of(alloc: Global, field: AvroField) -> Result<Record, Error> {
    match Text::try_from_str(alloc, "r") {
        Ok(name) => record_named(alloc, name, field),
        Err(error) => {
            drop(field);
            Err(error)
        }
    }
}

/// The record of the field that a word names.
fn record_of_word(alloc: Global, word: &str) -> Result<Record, Error> {
    match read_field(alloc, word) {
        Ok(field) => record_of(alloc, field.avro_field),
        Err(_) => Err(Error::OutOfMemory),
    }
}

/// The rows of one column.
fn written(serializer: BoxSerializer<'_>, block: &mut Block) -> Result<(), Error> {
    let is_whole = serializer.left() == block.number_of_rows;
    let mut serializers = [serializer];
    let written = if is_whole {
        serialize(&mut serializers, block)
    } else {
        Err(Error::InvalidArgumentError(Reason::Lengths))
    };
    drop(serializers);
    written
}

/// Whether the rows of a block are the slots of the array.
fn are_rows_of(
    alloc: Global,
    array: &Array,
    columns: &[Field],
    fields: &[AvroField],
    block: &Block,
) -> Result<bool, Error> {
    let chunk = deserialize(alloc, block, columns, fields, &[true])?;
    let are_rows = match chunk.arrays() {
        [found] => equal(found, array),
        _ => false,
    };
    drop(chunk);
    Ok(are_rows)
}

/// Writes the column of a chunk into the block, and reads that.
fn write_again(
    alloc: Global,
    chunk: &Chunk,
    columns: &[Field],
    fields: &[AvroField],
    block: &mut Block,
) -> Result<bool, Error> {
    match (chunk.arrays(), fields) {
        ([array], [field]) => {
            written(new_serializer(alloc, array, &field.schema)?, block)?;
            are_rows_of(alloc, array, columns, fields, block)
        }
        _ => Ok(false),
    }
}

/// Reads a block of rows of one column, writes it again into the same block, and reads that.
fn rewrite(
    alloc: Global,
    columns: &[Field],
    fields: &[AvroField],
    block: &mut Block,
) -> Result<bool, Error> {
    let chunk = deserialize(alloc, block, columns, fields, &[true])?;
    let is_same = write_again(alloc, &chunk, columns, fields, block);
    drop(chunk);
    is_same
}

/// The same under the large form of a column.
fn rewrite_large(
    alloc: Global,
    column: &Field,
    fields: &[AvroField],
    block: &mut Block,
) -> Result<bool, Error> {
    let large = [enlarge(alloc, column)?];
    let is_same = rewrite(alloc, &large, fields, block);
    drop(large);
    is_same
}

/// The same under the record's columns, or under their large forms.
fn rewrite_columns(
    alloc: Global,
    root: &Record,
    is_large: bool,
    block: &mut Block,
) -> Result<bool, Error> {
    let columns = infer_schema(alloc, root)?;
    let fields = root.fields.as_slice();
    let is_same = match columns.fields.as_slice() {
        [column] if is_large => rewrite_large(alloc, column, fields, block),
        columns => rewrite(alloc, columns, fields, block),
    };
    drop(columns);
    is_same
}

/// The same of the field that a word names.
fn rewrite_word(
    alloc: Global,
    word: &str,
    is_large: bool,
    block: &mut Block,
) -> Result<bool, Error> {
    let root = record_of_word(alloc, word)?;
    let is_same = rewrite_columns(alloc, &root, is_large, block);
    drop(root);
    is_same
}

/// What becomes of so many rows of the field that a word names, where they read back as they were.
fn rewritten(
    alloc: Global,
    word: &str,
    is_large: bool,
    rows: usize,
    bytes: &[u8],
) -> Result<Bytes, Error> {
    let mut block = Block {
        number_of_rows: rows,
        bytes: Bytes::try_from_slice(alloc, bytes)?,
    };
    if !rewrite_word(alloc, word, is_large, &mut block)? {
        return Err(Error::InvalidArgumentError(Reason::Lengths));
    }
    Ok(block.bytes)
}

/// Whether those rows become these.
fn becomes(
    alloc: Global,
    word: &str,
    is_large: bool,
    rows: usize,
    bytes: &[u8],
    wanted: &[u8],
) -> bool {
    match rewritten(alloc, word, is_large, rows, bytes) {
        Ok(found) => found.as_slice() == wanted,
        Err(_) => false,
    }
}

/// Rows as Python's `avro` writes them, which are canonical. Of decimals the sizes are ours, and of
/// durations the bytes are those of Python's `struct`.
#[test]
fn canonical_rows_stay(rt: HostRuntime) {
    let table: [(&str, usize, &[u8]); 34] = [
        ("a=boolean", 2, b"\x01\x00"),
        ("a=int", 3, b"\x02\x03\xff\xff\xff\xff\x0f"),
        ("a=date", 1, b"\x98\xb4\x02"),
        ("a=time-millis", 1, b"\xfe\xef\xb2\x52"),
        (
            "a=long",
            4,
            b"\x7e\x7f\x80\x01\xff\xff\xff\xff\xff\xff\xff\xff\xff\x01",
        ),
        ("a=time-micros", 1, b"\x02"),
        ("a=timestamp-nanos", 1, b"\x01"),
        ("a=timestamp-millis", 1, b"\x80\x01"),
        ("a=timestamp-micros", 1, b"\x02"),
        ("a=local-timestamp-millis", 1, b"\xb8\x17"),
        ("a=local-timestamp-micros", 1, b"\x03"),
        ("a=local-timestamp-nanos", 1, b"\x04"),
        ("a=uuid", 1, b"\x48f81d4fae-7dec-11d0-a765-00a0c91e6bf6"),
        ("a=bytes", 2, b"\x00\x04\x00\xff"),
        ("a=string", 2, b"\x00\x06\x68\xc3\xa9"),
        ("a=string?", 2, b"\x00\x02\x02\x61"),
        ("a=int!", 2, b"\x00\x0a\x02"),
        ("a=boolean?", 2, b"\x00\x02\x01"),
        ("a=long!", 2, b"\x00\x81\x01\x02"),
        ("a=bytes!", 2, b"\x00\x04\x00\xff\x02"),
        ("a=fixed(2)?", 2, b"\x02\x01\x02\x00"),
        ("a=decimal(10,2)?", 2, b"\x02\x04\x00\x05\x00"),
        (
            "a=duration!",
            2,
            b"\x00\x01\x00\x00\x00\xfe\xff\xff\xff\x03\x00\x00\x00\x02",
        ),
        ("a={x=int}?", 2, b"\x02\x06\x00"),
        ("a=[int]", 2, b"\x00\x02\x0a\x00"),
        ("a=[int?]", 1, b"\x04\x00\x02\x0e\x00"),
        ("a=[[boolean]]?", 2, b"\x00\x02\x04\x00\x02\x01\x00\x00"),
        ("a={x=long;y=string!}", 2, b"\x02\x02\x01\x00\x02\x62"),
        ("a=fixed(2)", 2, b"\x01\x02\xff\x00"),
        ("a=decimal(10,2)", 2, b"\x00\x04\x00\x01"),
        ("a=decimal(10,2)", 1, b"\x04\x7f\xff"),
        ("a=decimal(10,2)", 1, b"\x08\x00\x00\x80\x00"),
        (
            "a=decimal(10,2)",
            1,
            b"\x20\xff\xff\xff\xff\xff\xff\xff\xff\xff\xff\xff\xff\xff\xff\xff\xff",
        ),
        (
            "a=duration",
            1,
            b"\x01\x00\x00\x00\xfe\xff\xff\xff\x03\x00\x00\x00",
        ),
    ];
    for (word, rows, bytes) in table {
        assert!(rt;
            becomes(rt.alloc(), word, false, rows, bytes, bytes),
            "{word}"
        );
    }
}

#[test]
fn other_encodings_become_canonical(rt: HostRuntime) {
    let table: [(&str, usize, &[u8], &[u8]); 4] = [
        ("a=long", 1, b"\x82\x00", b"\x02"),
        (
            "a=[int]",
            1,
            b"\x02\x02\x01\x02\x04\x00",
            b"\x04\x02\x04\x00",
        ),
        ("a=decimal(10,2)", 1, b"\x02\x01", b"\x04\x00\x01"),
        (
            "a=decimal(10,2)",
            1,
            b"\x02\xff",
            b"\x20\xff\xff\xff\xff\xff\xff\xff\xff\xff\xff\xff\xff\xff\xff\xff\xff",
        ),
    ];
    for (word, rows, bytes, wanted) in table {
        assert!(rt;
            becomes(rt.alloc(), word, false, rows, bytes, wanted),
            "{word}"
        );
    }
}

/// Rows as Python's `avro` writes them, of columns with offsets of 64 bits.
#[test]
fn rows_of_large_forms_stay(rt: HostRuntime) {
    let table: [(&str, usize, &[u8]); 6] = [
        ("a=string", 3, b"\x06\x68\xc3\xa9\x00\x02\x62"),
        ("a=uuid?", 2, b"\x00\x02\x00"),
        ("a=bytes", 2, b"\x04\x00\xff\x00"),
        ("a=[int]", 3, b"\x04\x02\x04\x00\x00\x02\x06\x00"),
        (
            "a=[[string]]?",
            2,
            b"\x00\x02\x04\x04\x02\x61\x00\x00\x00\x00",
        ),
        (
            "a={x=string;y=[bytes?]}",
            2,
            b"\x02\x62\x04\x00\x02\x02\x07\x00\x00\x00",
        ),
    ];
    for (word, rows, bytes) in table {
        assert!(rt;
            becomes(rt.alloc(), word, true, rows, bytes, bytes),
            "{word}"
        );
    }
}
