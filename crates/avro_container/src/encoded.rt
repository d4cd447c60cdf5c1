//! Numbers in their shortest encoding.
ghost use Rattle.std.specs.Prelude.{◌≡◌, ◌<◌, ◌≤◌, ◌+◌, ◌++◌, ◌^◌, [], List, ℕ, length, take, IfOk, OnOk, OnErr};
ghost use Rattle.avro_container.specs.Shortest.{groups, shortest, zigzagged};
ghost use Rattle.arrow_core.specs.Errors.{OnlyOutOfMemory};

use arrow_base::{Error, Result};

/// The encoding of a number: the first `len` of `bytes`.
#[derive(Drop, Clone, Copy)]
pub(crate) struct EncodedNumber {
    bytes: [u8; 10],
    len: usize,
    ghost within: { len ≤ 10 },
}

// The unsigned number that zigzag reads as `value`.
fn unsigned(value: i64) -> u64
    ensures { result ≡ zigzagged value }
{
    if value < 0 {
        ((-1 - value) as u64) * 2 + 1
    } else {
        (value as u64) * 2
    }
}

impl EncodedNumber {
    /// The shortest encoding of a number.
    pub(crate) fn of(value: i64) -> EncodedNumber
        ensures { take result.len result.bytes ≡ shortest value }
    {
        EncodedNumber::of_unsigned(unsigned(value))
    }

    #[tactic(auto, unfolding(crate::specs::Shortest::groups))]
    fn of_unsigned(value: u64) -> EncodedNumber
        ensures { take result.len result.bytes ≡ groups 9 value }
    {
        let mut bytes = [0u8; 10];
        let mut len = 0;
        let mut rest = value;
        while rest >= 128 && len < 9 {
            bytes[len] = 128 + (rest % 128) as u8;
            len += 1;
            rest /= 128;
        }
        bytes[len] = (rest % 128) as u8;
        EncodedNumber {
            bytes,
            len: len + 1,
        }
    }

    /// Its bytes.
    pub(crate) fn as_slice(&self) -> &[u8]
        ensures { result.now ≡ take self.now.len self.now.bytes }
    {
        &self.bytes[..self.len]
    }
}

/// Appends the shortest encoding of a number (Avro 1.11, "Binary Encoding", "Primitive Types"): one to
/// ten bytes. `OutOfMemory`, and then nothing is appended.
pub fn zigzag_encode(value: i64, target: &mut Vec<u8>) -> Result<()>
    ensures ok { OnOk result (target.new.items ≡ target.old.items ++ shortest value) }
    ensures err { OnErr result (target.new.items ≡ target.old.items) }
    ensures memory { OnlyOutOfMemory result }
{
    let number = EncodedNumber::of(value);
    target.extend_from_slice(number.as_slice())?;
    Ok(())
}
