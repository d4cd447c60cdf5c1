//! A file of two rows, against the bytes that Avro 1.11 gives it, "Object Container Files" and
//! "Binary Encoding", worked by hand.

use arrow_core::{Result, Text};
use guide::{Player, player_columns, player_schema, write_chunk, write_header};
use std::alloc::Global;

static FILE: &[u8] =
    b"Obj\x01\x02\x16avro.schema\xe6\x01{\"type\":\"record\",\"name\":\"player\",\"fields\":[{\"name\":\"name\",\"type\":\"string\"},{\"name\":\"rank\",\"type\":[\"null\",\"long\"]}]}\x00sixteen bytes ..\x04\x16\x06ada\x02\x02\x06bob\x00sixteen bytes ..";

fn player(alloc: Global, name: &str, rank: Option<i64>) -> Result<Player> {
    Ok(Player {
        name: Text::try_from_str(alloc, name)?,
        rank,
    })
}

/// The file of two players, in memory.
fn two_players(alloc: Global) -> Result<Vec<u8>> {
    let players = [player(alloc, "ada", Some(1))?, player(alloc, "bob", None)?];
    let schema = player_schema(alloc)?;
    let chunk = player_columns(alloc, &players)?;
    let mut file = Vec::new(alloc);
    let marker = *b"sixteen bytes ..";
    let root = write_header(alloc, &mut file, &schema, "player", marker)?;
    write_chunk(alloc, &mut file, &root, &chunk, marker)?;
    Ok(file)
}

#[test]
fn players_are_written(rt: HostRuntime) {
    let file = two_players(rt.alloc()).expect(&rt, "a file");
    assert!(rt; file.as_slice() == FILE);
}
