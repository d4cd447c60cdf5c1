//! Names that end in a number.
ghost use Rattle.std.specs.Prelude.{◌≡◌, ◌+◌, ◌++◌, decimal, IfOk, OnOk};
ghost use Rattle.arrow_core.specs.Errors.{OnlyOutOfMemory};

use arrow_core::{Error, Result, Text};
use itoa::Buffer;
use std::alloc::Global;

/// The prefix and the number of the next name. `given` counts the names that were given.
///
/// `OutOfMemory` alone, also where there are more names than 64 bits count.
pub(crate) fn next_name(alloc: Global, prefix: &str, given: &mut u64) -> Result<Text>
    ensures name { IfOk result (λ name. name ≡ prefix.now ++ decimal (given.old + 1)) }
    ensures count { OnOk result (given.new ≡ given.old + 1) }
    ensures memory { OnlyOutOfMemory result }
{
    let Some(number) = given.checked_add(1) else {
        return Err(Error::OutOfMemory);
    };
    *given = number;
    let mut buffer = Buffer::new();
    let mut name = String::from_str(alloc, prefix)?;
    name.push_str(buffer.format(number))?;
    Ok(Text::from_string(name))
}
