//! JSON lines into Avro files: which file lines become.

use crate::columns::{How, PLAIN, column, field, gives, lists, schema, structs};
use crate::files::{BLOCK, HEADER};
use crate::line_files::{EVENT_LINES, EVENTS, FIFTEEN, MINUS_TWO, NESTED, NESTED_LINES, ONE};
use arrow_base::Text;
use arrow_core::{DataType, TimeUnit};

#[test]
fn rows_of_an_int_become_a_block(rt: HostRuntime) {
    let alloc = rt.alloc();
    let int = column(&rt, alloc, DataType::Int32);
    let lines = b"{\"a\":1}\n{\"a\":-2}\n";
    assert!(rt; gives(&rt, alloc, lines, &int, PLAIN, Ok(2), &[HEADER, BLOCK]));
    let single = How {
        rows_per_block: 1,
        ..PLAIN
    };
    let blocks: &[&[u8]] = &[HEADER, ONE, MINUS_TWO];
    assert!(rt; gives(&rt, alloc, lines, &int, single, Ok(2), blocks));
    let pair = How {
        rows_per_block: 2,
        ..PLAIN
    };
    assert!(rt; gives(&rt, alloc, lines, &int, pair, Ok(2), &[HEADER, BLOCK]));
    let fifteen = b"{\"a\":1.5e1}";
    assert!(rt; gives(&rt, alloc, fifteen, &int, PLAIN, Ok(1), &[HEADER, FIFTEEN]));
    assert!(rt; gives(&rt, alloc, b" \n\n", &int, PLAIN, Ok(0), &[HEADER]));
    drop(int);
}

#[test]
fn rows_of_several_columns_become_a_file(rt: HostRuntime) {
    let alloc = rt.alloc();
    let zone = Text::try_from_str(alloc, "00:00").expect(&rt, "memory");
    let millis = DataType::Timestamp(TimeUnit::Millisecond, Some(zone));
    let id = field(&rt, alloc, "id", DataType::Int64, false);
    let user = field(&rt, alloc, "user", DataType::Utf8, false);
    let tags = field(
        &rt,
        alloc,
        "tags",
        lists(&rt, alloc, DataType::Utf8, true),
        false,
    );
    let when = field(&rt, alloc, "when", millis, false);
    let fields = vec![in alloc; id, user, tags, when].expect(&rt, "memory");
    let events = schema(alloc, fields);
    let pair = How {
        rows_per_block: 2,
        ..PLAIN
    };
    assert!(rt; gives(&rt, alloc, EVENT_LINES, &events, pair, Ok(3), &[EVENTS]));
    drop(events);
}

#[test]
fn lists_of_records_become_arrays_of_records(rt: HostRuntime) {
    let alloc = rt.alloc();
    let n = field(&rt, alloc, "n", DataType::Int32, true);
    let s = field(&rt, alloc, "s", DataType::Utf8, true);
    let record = structs(vec![in alloc; n, s].expect(&rt, "memory"));
    let a = field(&rt, alloc, "a", lists(&rt, alloc, record, true), true);
    let rows = schema(alloc, vec![in alloc; a].expect(&rt, "memory"));
    assert!(rt; gives(&rt, alloc, NESTED_LINES, &rows, PLAIN, Ok(5), &[NESTED]));
    drop(rows);
}
