//! Whole texts (RFC 8259, sections 2 and 8.1).
ghost use Rattle.std.specs.Prelude.{◌≡◌, [], Err, IfOk};
ghost use Rattle.std.specs.Str.{IsUtf8};
ghost use Rattle.json_tree.specs.Gives.{Gives};
ghost use Rattle.json_tree.specs.Meaning.{HoldsTooMany, IsJson, IsJsonText};
ghost use Rattle.json_tree.specs.Reading.{deep, text_at};

use crate::grammar::value;
use crate::reader::Reader;
use crate::value::{JsonFault, Value};
use std::alloc::Global;

// The value of a whole text that is known to be UTF-8.
#[tactic(auto, unfolding(crate::specs::Reading::text_at))]
fn whole_text<'a>(alloc: Global, bytes: &'a [u8]) -> Result<Value, JsonFault>
    requires { IsUtf8 bytes.now }
    ensures { Gives (λ v. v) result [] (text_at 128 bytes.now) }
{
    let mut reader = Reader::new(bytes);
    reader.skip_spaces();
    let mut whole = Value::Null;
    value(alloc, &mut reader, 128, &mut whole)?;
    reader.skip_spaces();
    match reader.peek() {
        None => Ok(whole),
        Some(_) => Err(JsonFault::Text),
    }
}

// What is wrong with bytes that are UTF-8 only up to where `prefix` ends.
fn fault_of_prefix<'a>(alloc: Global, prefix: &'a [u8]) -> JsonFault
    requires { IsUtf8 prefix.now }
    ensures depth { result ≡ JsonFault.Depth → text_at 128 prefix.now ≡ deep }
    ensures text { result ≡ JsonFault.Text → text_at 128 prefix.now ≡ deep → ⊥ }
{
    match whole_text(alloc, prefix) {
        Err(fault) => fault,
        Ok(_) => JsonFault::Text,
    }
}

/// The value of a JSON text (RFC 8259), which is read in one pass.
///
/// White space may stand around each token. Strings are UTF-8; `\u` escapes of a high and a low
/// surrogate join to one character, and a surrogate without its partner is refused. A byte order
/// mark is refused. A key that stands twice in an object stays at its first index and takes its
/// last value. A text may have 128 brackets open at once.
///
/// `Depth` comes exactly where some prefix of the bytes is a prefix of a JSON text, but of none in
/// which at most 128 brackets are open at once (section 9 lets a reader set such a limit). Else
/// `Text` comes exactly where the bytes are no JSON text. `Memory` may come in place of any answer.
pub fn parse(alloc: Global, bytes: &[u8]) -> Result<Value, JsonFault>
    ensures value { IfOk result (λ v. IsJson v bytes.now) }
    ensures shallow { IfOk result (λ v. HoldsTooMany bytes.now → ⊥) }
    ensures depth { result ≡ Err JsonFault.Depth → HoldsTooMany bytes.now }
    ensures not_deep { result ≡ Err JsonFault.Text → HoldsTooMany bytes.now → ⊥ }
    ensures text { result ≡ Err JsonFault.Text → (v : Value) → IsJsonText v bytes.now → ⊥ }
{
    match simdutf8::compat::from_utf8(bytes) {
        Ok(_) => whole_text(alloc, bytes),
        Err(e) => Err(fault_of_prefix(alloc, &bytes[..e.valid_up_to()])),
    }
}
