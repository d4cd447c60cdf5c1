//! Texts that are read piece by piece.
ghost use Rattle.std.specs.Prelude.{◌≡◌, ◌++◌, ◌+◌, ◌<◌, ◌∷◌, [], OnOk, IfErr, MatchResult, string_bytes};
ghost use Rattle.std.specs.Char.{encode_utf8};

use crate::strings::owned;
use crate::value::JsonFault;
use arrayvec::ArrayString;
use arrow_core::Text;
use std::alloc::Global;
use std::marker::Model;

/// How many bytes the end of a text may have.
const END_CAPACITY: usize = 128;

/// A text, which pieces are added to. Its end lies in the value itself, so that a short text takes
/// no memory before it is whole.
#[derive(Drop)]
pub(crate) struct Pieces {
    prefix: String,
    end: ArrayString<END_CAPACITY>,
}

impl Model for Pieces {
    ghost use Rattle.std.specs.Prelude.{ℕ, List, ◌++◌, string_bytes};

    ghost Value = { List ℕ };

    ghost view = { λ p. string_bytes p.prefix ++ p.end.bytes };
}

// The end of a text goes to its prefix, and then a piece, for which the end has no capacity left.
#[cold]
#[inline(never)]
fn spill(
    prefix: &mut String,
    end: &mut ArrayString<END_CAPACITY>,
    piece: &str,
) -> Result<(), JsonFault>
    ensures prefix { OnOk result
        (string_bytes prefix.new ≡ string_bytes prefix.old ++ (end.old.bytes ++ piece.now)) }
    ensures end { OnOk result (end.new.bytes ≡ []) }
    ensures memory { IfErr result (λ e. e ≡ JsonFault.Memory) }
{
    if prefix.push_str(end.as_str()).is_err() {
        return Err(JsonFault::Memory);
    }
    end.clear();
    if prefix.push_str(piece).is_err() {
        return Err(JsonFault::Memory);
    }
    Ok(())
}

impl Pieces {
    pub(crate) fn new(alloc: Global) -> Pieces
        ensures { result ≡ [] }
    {
        Pieces {
            prefix: String::new(alloc),
            end: ArrayString::new(),
        }
    }

    /// Adds a piece.
    pub(crate) fn push_str(&mut self, piece: &str) -> Result<(), JsonFault>
        ensures added { OnOk result (self.new ≡ self.old ++ piece.now) }
        ensures memory { IfErr result (λ e. e ≡ JsonFault.Memory) }
    {
        if piece.len() <= self.end.remaining_capacity() {
            self.end.push_str(piece);
            return Ok(());
        }
        spill(&mut self.prefix, &mut self.end, piece)
    }

    // Adds an ASCII character. Its length is known to the compiler, which then copies it with no
    // call.
    #[inline(always)]
    fn push_ascii(&mut self, byte: u8) -> Result<(), JsonFault>
        requires { byte < 128 }
        ensures added { OnOk result (self.new ≡ self.old ++ byte ∷ []) }
        ensures memory { IfErr result (λ e. e ≡ JsonFault.Memory) }
    {
        let bytes = [byte];
        self.push_str(unsafe { std::str::from_utf8_unchecked(&bytes) })
    }

    /// Adds a character.
    pub(crate) fn push(&mut self, c: char) -> Result<(), JsonFault>
        ensures added { OnOk result (self.new ≡ self.old ++ encode_utf8 c) }
        ensures memory { IfErr result (λ e. e ≡ JsonFault.Memory) }
    {
        let code = c as u32;
        if code < 128 {
            return self.push_ascii(code as u8);
        }
        let mut buffer = [0; 4];
        self.push_str(c.encode_utf8(&mut buffer))
    }

    /// The text, of no more capacity than it needs. These pieces are done with.
    pub(crate) fn to_text(&mut self, alloc: Global) -> Result<Text, JsonFault>
        ensures { MatchResult result (λ t. t ≡ self.old) (λ e. e ≡ JsonFault.Memory) }
    {
        if self.prefix.is_empty() {
            return owned(alloc, self.end.as_str());
        }
        spill(&mut self.prefix, &mut self.end, "")?;
        owned(alloc, self.prefix.as_str())
    }
}
