//! A source, read to its end.

ghost use Rattle.std.specs.Prelude.{◌≡◌, ◌≤◌, IfOk, IfErr, vec_len};
ghost use Rattle.arrow_core.specs.Errors.{OnlyOutOfMemory};
ghost use Rattle.avro_container.specs.Changes.{change_of};
ghost use Rattle.avrocat_commands.specs.Input.{TakesAll, NotRead};

use arrow_base::{Error, Result, Source};
use std::alloc::Global;

/// The most bytes that the program takes from its source.
pub const BYTE_LIMIT: usize = 1_073_741_824;

/// How many bytes are asked for at once.
const PIECE: usize = 65_536;

/// Where a read puts its bytes.
fn new_piece(alloc: Global) -> Result<Vec<u8>>
    ensures len { IfOk result (λ piece. vec_len piece ≡ PIECE) }
    ensures memory { OnlyOutOfMemory result }
{
    Ok(vec![in alloc; 0u8; PIECE]?)
}

/// All bytes of the source. `LimitExceeded` where there are more than the limit, `ReadFault` where
/// a read failed.
pub fn read_all<S: Source>(alloc: Global, source: &mut S) -> Result<Vec<u8>>
    ensures ok { IfOk result (λ bytes. TakesAll (S.left source.old) (S.left source.new)
        bytes.items) }
    ensures err { IfErr result (NotRead (change_of (S.left source.old) (S.faults source.old)
        (S.left source.new) (S.faults source.new))) }
    ensures never_falls { S.faults source.old ≤ S.faults source.new }
    ensures same { S.identity source.new ≡ S.identity source.old }
{
    let mut bytes = Vec::new(alloc);
    let mut piece = new_piece(alloc)?;
    while bytes.len() <= BYTE_LIMIT {
        let most = PIECE.min(BYTE_LIMIT + 1 - bytes.len());
        let prefix = &mut piece[..most];
        let count = match source.read(prefix) {
            Ok(count) => count,
            Err(_) => return Err(Error::ReadFault { line: None }),
        };
        if count == 0 {
            return Ok(bytes);
        }
        bytes.extend_from_slice(&prefix[..count])?;
    }
    Err(Error::LimitExceeded)
}
