//! Columns that are built slot by slot.

ghost use Rattle.std.specs.Prelude.{◌≡◌, map, IfOk};
ghost use Rattle.arrow_array.specs.Arrays.{array_slots};
ghost use Rattle.guide.specs.Players.{name_slot, rank_slot, player_slots};

use arrow_array::{Array, Chunk};
use arrow_builders::{Container, MutablePrimitiveArray, MutableUtf8Array};
use arrow_core::{DataType, Field, Items, Metadata, Result, Schema, Text};
use std::alloc::Global;

/// A player: the name, and the rank where there is one.
#[derive(Drop)]
pub struct Player {
    /// The name.
    pub name: Text,
    /// The rank, where there is one.
    pub rank: Option<i64>,
}

fn field(alloc: Global, name: &str, data_type: DataType, is_nullable: bool) -> Result<Field> {
    let name = Text::try_from_str(alloc, name)?;
    Ok(Field::new(alloc, name, data_type, is_nullable))
}

/// The names and types of the columns of players.
pub fn player_schema(alloc: Global) -> Result<Schema> {
    let fields = vec![in alloc;
        field(alloc, "name", DataType::Utf8, false)?,
        field(alloc, "rank", DataType::Int64, true)?,
    ]?;
    Ok(Schema {
        fields: Items::from_vec(fields),
        metadata: Metadata::new(alloc),
    })
}

/// The column of names.
fn names(alloc: Global, players: &[Player]) -> Result<Array>
    ensures slots { IfOk result (λ a. array_slots a ≡ map name_slot players.now) }
{
    let mut names = MutableUtf8Array::<i32>::with_capacity(alloc, players.len())?;
    for player in players {
        names.push(Some(player.name.as_str()))?;
    }
    Ok(Array::Utf8(names.as_box()?))
}

/// The column of ranks, null where there is none.
fn ranks(alloc: Global, players: &[Player]) -> Result<Array>
    ensures slots { IfOk result (λ a. array_slots a ≡ map rank_slot players.now) }
{
    let mut ranks = MutablePrimitiveArray::<i64>::with_capacity(alloc, players.len())?;
    for player in players {
        ranks.push(player.rank)?;
    }
    Ok(Array::Int64(ranks.as_box()?))
}

/// The columns of players: the names and the ranks.
///
/// `Overflow` where the names have too many bytes for offsets of 32 bits; `OutOfMemory`. No clause
/// says so.
pub fn player_columns(alloc: Global, players: &[Player]) -> Result<Chunk>
    ensures slots { IfOk result (λ chunk. map array_slots chunk ≡ player_slots players.now) }
{
    let columns = vec![in alloc; names(alloc, players)?, ranks(alloc, players)?]?;
    Chunk::try_new(columns)
}
