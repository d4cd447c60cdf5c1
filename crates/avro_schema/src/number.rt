//! Numbers, as Avro encodes them.

ghost use Rattle.std.specs.Prelude.{◌≡◌, ◌-◌, ◌+◌, ◌≤◌, ◌<◌, length, IfOk, IfErr, OnOk, OnErr, IfSome, IfNone, OnSome, MatchOption, MatchResult};
ghost use Rattle.avro_schema.specs.Counts.{risen};
ghost use Rattle.avro_schema.specs.Number.{PassesNumber, NoNumber, MovesForward, zigzag};

use crate::cursor::Cursor;
use arrow_core::{Error, Reason, Result};

/// The signed number that zigzag encodes as `unsigned`.
#[inline(always)]
fn signed(unsigned: u64) -> i64
    ensures { result ≡ zigzag unsigned }
{
    let half = (unsigned / 2) as i64;
    if unsigned % 2 == 0 { half } else { -1 - half }
}

/// The number at the start of the bytes ahead, which the cursor passes; None where no prefix of the
/// bytes is a number.
///
/// It makes a call of `byte` for each byte that it passes, and one more where the bytes end.
#[inline(always)]
pub fn next_number<'a, C: Cursor<'a>>(cursor: &mut C) -> Option<i64>
    ensures some { IfSome result (PassesNumber (C.rest cursor.old) (C.rest cursor.new)) }
    ensures none { IfNone result (NoNumber (C.rest cursor.old)) }
    ensures forward { MovesForward (C.rest cursor.old) (C.rest cursor.new) }
    ensures shorter { OnSome result (length (C.rest cursor.new) < length (C.rest cursor.old)) }

    ensures shown { C.shown cursor.new ≡ risen (C.shown cursor.old)
        (length (C.rest cursor.old) - length (C.rest cursor.new)) }
    ensures jumped { C.jumped cursor.new ≡ C.jumped cursor.old }
    ensures calls { MatchOption result
        (C.calls cursor.new ≤ risen (C.calls cursor.old)
        (length (C.rest cursor.old) - length (C.rest cursor.new) + 1))
        (λ _. C.calls cursor.new ≡ risen (C.calls cursor.old)
        (length (C.rest cursor.old) - length (C.rest cursor.new))) }
{
    let mut unsigned: u64 = 0;
    for index in 0..10u32 {
        let byte = cursor.byte()?;
        // Nine bytes have 63 bits: the tenth may add the last one, and no more.
        if index == 9 && byte > 1 {
            return None;
        }
        unsigned += ((byte % 128) as u64) << (7 * index);
        if byte < 128 {
            return Some(signed(unsigned));
        }
    }
    None
}

/// The number at the start of the bytes ahead (Avro 1.11, "Binary Encoding", "Primitive Types"),
/// which the cursor passes.
///
/// Any encoding of up to ten bytes is taken, also one that is longer than it need be. Where no
/// prefix of the bytes is a number the answer is `ExternalFormat(Number)`, and the cursor has only
/// moved forward. It takes no memory.
pub fn zigzag_i64<'a, C: Cursor<'a>>(cursor: &mut C) -> Result<i64>
    ensures ok { IfOk result (PassesNumber (C.rest cursor.old) (C.rest cursor.new)) }
    ensures err { OnErr result (NoNumber (C.rest cursor.old)) }
    ensures error { IfErr result (λ e. e ≡ Error.ExternalFormat Reason.Number) }
    ensures forward { MovesForward (C.rest cursor.old) (C.rest cursor.new) }

    ensures shown { C.shown cursor.new ≡ risen (C.shown cursor.old)
        (length (C.rest cursor.old) - length (C.rest cursor.new)) }
    ensures jumped { C.jumped cursor.new ≡ C.jumped cursor.old }
    ensures calls { MatchResult result
        (λ _. C.calls cursor.new ≡ risen (C.calls cursor.old)
        (length (C.rest cursor.old) - length (C.rest cursor.new)))
        (λ _. C.calls cursor.new ≤ risen (C.calls cursor.old)
        (length (C.rest cursor.old) - length (C.rest cursor.new) + 1)) }
{
    match next_number(cursor) {
        Some(number) => Ok(number),
        None => Err(Error::ExternalFormat(Reason::Number)),
    }
}
