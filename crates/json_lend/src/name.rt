//! A name of a field, and how it stands in a text as a key.
ghost use Rattle.std.specs.Prelude.{◌≡◌, ◌≤◌, length, MatchBool, IfOk, IsTrue};
ghost use Rattle.arrow_base.specs.JsonString.{is_unescaped};
ghost use Rattle.json_tree.specs.Grammar.{Each};
ghost use Rattle.json_tree.specs.Reading.{found, string_at};
ghost use Rattle.json_lend.specs.Names.{quoted};

use arrow_core::Text;
use json_tree::reader::Reader;
use std::alloc::{AllocError, Global};
use std::marker::Model;

/// A name of a field, among which the keys of objects are looked up. Contracts see the name.
#[derive(Drop)]
pub struct Name {
    text: Text,
    // The name between quotation marks, where each of its bytes stands for itself there; else nothing.
    // A key is mostly the name that is due, and then it needn't be read byte by byte.
    key: Vec<u8>,
}

impl Model for Name {
    ghost use Rattle.std.specs.Prelude.{ℕ, List};
    ghost use Rattle.json_lend.specs.Names.{IsKeyOf};

    ghost Value = { List ℕ };

    ghost view = { λ n. n.text };

    ghost invariant = { λ n. IsKeyOf n.text n.key.items };
}

// Whether each byte of a text stands for itself in a string (RFC 8259, section 7).
fn is_plain(text: &str) -> bool
    ensures { IsTrue result → Each is_unescaped text.now }
{
    let mut reader = Reader::new(text.as_bytes());
    let run = reader.unescaped_run();
    run.len() == text.len()
}

// The text between quotation marks.
fn quote(alloc: Global, text: &str) -> Result<Vec<u8>, AllocError>
    ensures { IfOk result (λ key. key.items ≡ quoted text.now) }
{
    let mut key = Vec::with_capacity(alloc, text.len().saturating_add(2))?;
    key.push(b'"')?;
    key.extend_from_slice(text.as_bytes())?;
    key.push(b'"')?;
    Ok(key)
}

impl Name {
    /// The name with this text. `AllocError` where there is no memory.
    pub fn new(alloc: Global, text: Text) -> Result<Name, AllocError>
        ensures { IfOk result (λ name. name ≡ text) }
    {
        let key = if is_plain(text.as_str()) {
            quote(alloc, text.as_str())?
        } else {
            Vec::new(alloc)
        };
        Ok(Name { text, key })
    }

    /// The name, without quotation marks or escapes.
    pub fn as_str(&self) -> &str
        ensures { result.now ≡ self.now }
    {
        self.text.as_str()
    }

    // Passes the key that is next where it is the name and has no escapes, and tells whether it did.
    #[inline(always)]
    pub(crate) fn passes<'a>(&self, reader: &mut Reader<'a>) -> bool
        ensures key { MatchBool result (string_at reader.old ≡ found self.now reader.new)
            (reader.new ≡ reader.old) }
        ensures forward { length reader.new ≤ length reader.old }
    {
        if self.key.is_empty() || !reader.rest().starts_with(self.key.as_slice()) {
            return false;
        }
        reader.advance(self.key.len());
        true
    }
}
