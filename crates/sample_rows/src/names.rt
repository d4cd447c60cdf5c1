//! Strings that are a letter and a number.
ghost use Rattle.std.specs.Prelude.{◌≡◌, ◌++◌, ◌∷◌, [], decimal, string_bytes, OnOk};
ghost use Rattle.std.specs.Option.{option_copied};
ghost use Rattle.arrow_core.specs.Errors.{OnlyOutOfMemory};
ghost use Rattle.arrow_core.specs.declared.slot.Slot.TheVariants.{String as StringSlot};
ghost use Rattle.arrow_flat.specs.Builders.{optional_slot};

use crate::memory::in_memory;
use arrow_core::Result;
use arrow_flat::MutableUtf8Array;
use itoa::Buffer;

/// Writes the prefix and the number, in place of what the text holds.
pub(crate) fn write_name(text: &mut String, prefix: &str, number: u32) -> Result<()>
    ensures text { OnOk result (string_bytes text.new ≡ prefix.now ++ decimal number) }
    ensures memory { OnlyOutOfMemory result }
{
    let mut buffer = Buffer::new();
    text.clear();
    text.push_str(prefix)?;
    text.push_str(buffer.format(number))?;
    Ok(())
}

/// Appends a string, or a null for `None`.
pub(crate) fn push_string(strings: &mut MutableUtf8Array<i32>, string: Option<&str>) -> Result<()>
    ensures ok { OnOk result (strings.new.slots
        ≡ strings.old.slots ++ optional_slot StringSlot (option_copied string.entry) ∷ []) }
    ensures memory { OnlyOutOfMemory result }
{
    in_memory(strings.push(string))
}
