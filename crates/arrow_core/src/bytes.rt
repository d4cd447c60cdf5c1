//! Lists of bytes.
ghost use Rattle.std.specs.Prelude.{◌≡◌, [], ◌++◌, IfOk, OnOk, OnErr};
ghost use Rattle.arrow_core.specs.Errors.{OnlyOutOfMemory};

use crate::error::Result;
use std::alloc::Global;
use std::cmp::Ordering;
use std::hash::{Hash, Hasher};
use std::marker::Model;

/// A growing list of bytes, and what contracts see is that list.
///
/// A list comes before those that it is the prefix of, and else the first bytes that differ decide.
/// Two are equal exactly where their bytes are the same, and equal lists hash alike.
#[derive(Debug, Drop)]
pub struct Bytes {
    bytes: Vec<u8>,
}

impl Model for Bytes {
    ghost use Rattle.std.specs.Prelude.{List, ℕ};

    ghost Value = { List ℕ };

    ghost view = { λ b. b.bytes.items };
}

impl Bytes {
    ghost use Rattle.std.specs.Borrow.{sem};
    ghost use Rattle.arrow_core.specs.Lent.{LendsVec};

    /// No bytes. It takes no memory.
    pub fn new(alloc: Global) -> Bytes
        ensures { result ≡ [] }
    {
        Bytes::from_vec(Vec::new(alloc))
    }

    /// A copy of `bytes`, with memory of its own. `OutOfMemory` alone.
    pub fn try_from_slice(alloc: Global, bytes: &[u8]) -> Result<Bytes>
        ensures copy { IfOk result (λ copied. copied ≡ bytes.now) }
        ensures memory { OnlyOutOfMemory result }
    {
        let copied = Vec::from_slice(alloc, bytes)?;
        Ok(Bytes::from_vec(copied))
    }

    /// The bytes of `bytes`, in the memory that they are in.
    pub fn from_vec(bytes: Vec<u8>) -> Bytes
        ensures { result ≡ bytes.items }
    {
        Bytes { bytes }
    }

    /// The vector that holds the bytes, without a copy.
    pub fn into_vec(self) -> Vec<u8>
        ensures { result.items ≡ self }
    {
        let Bytes { bytes } = self;
        bytes
    }

    /// The bytes, in order, without a copy.
    pub fn as_slice(&self) -> &[u8]
        ensures { result.now ≡ self.now }
    {
        self.bytes.as_slice()
    }

    /// The vector that holds the bytes, to be read into or written to. The bytes are what it holds
    /// when the borrow ends.
    pub fn as_mut_vec(&mut self) -> &mut Vec<u8>
        ensures* writes_back { sem 𝓛 (LendsVec self.entry result) }
        ensures value { result.now.items ≡ self.old }
    {
        &mut self.bytes
    }

    /// Lets every byte go, and keeps the memory for the next ones.
    pub fn clear(&mut self)
        ensures { self.new ≡ [] }
    {
        self.bytes.clear();
    }

    /// Puts `more` at the end. On `Err` the bytes are as before.
    pub fn push_slice(&mut self, more: &[u8]) -> Result<()>
        ensures appended { OnOk result (self.new ≡ self.old ++ more.now) }
        ensures kept { OnErr result (self.new ≡ self.old) }
        ensures memory { OnlyOutOfMemory result }
    {
        self.bytes.extend_from_slice(more)?;
        Ok(())
    }
}

impl PartialEq for Bytes {
    ghost use Rattle.std.specs.Prelude.{nat_eq};
    ghost use Rattle.std.specs.Cmp.Lexicographic.{pointwise, nat_list_eq_equiv};
    ghost use Rattle.std.specs.Cmp.{partial_equiv_from_equiv};

    ghost eq = { pointwise nat_eq };

    ghost laws = { partial_equiv_from_equiv nat_list_eq_equiv };

    fn eq(&self, other: &Self) -> bool {
        self.bytes == other.bytes
    }
}

impl Eq for Bytes {
    ghost use Rattle.std.specs.Cmp.Lexicographic.{nat_list_eq_equiv};

    ghost laws = { nat_list_eq_equiv };
}

impl PartialOrd for Bytes {
    ghost use Rattle.std.specs.Prelude.{Some};
    ghost use Rattle.std.specs.Ordering.{nat_cmp};
    ghost use Rattle.std.specs.Cmp.Lexicographic.{slice_cmp, texts_po};

    ghost partial_cmp = { λ x y. Some (slice_cmp nat_cmp x y) };

    ghost laws = { texts_po };

    fn partial_cmp(&self, other: &Self) -> Option<Ordering> {
        Some(self.cmp(other))
    }
}

impl Ord for Bytes {
    ghost use mathlib.Core.Path.{refl};
    ghost use Rattle.std.specs.Ordering.{nat_cmp};
    ghost use Rattle.std.specs.Cmp.Lexicographic.{slice_cmp, nat_list_cmp_total, texts_ties};

    ghost cmp = { slice_cmp nat_cmp };

    ghost total = { nat_list_cmp_total };

    ghost matches_partial_cmp = { λ x y. refl };

    ghost matches_eq = { texts_ties };

    fn cmp(&self, other: &Self) -> Ordering {
        self.bytes.cmp(&other.bytes)
    }
}

impl Hash for Bytes {
    ghost use Rattle.std.specs.Hash.{slice, u8};
    ghost use Rattle.std.specs.Cmp.Rules.{hashing};
    ghost use borrow.Author.Rules.{rules};

    ghost hash_input = { λ v. slice u8 v };

    ghost respects_eq = { Prim.search (hashing, rules) };

    fn hash<H: Hasher>(&self, state: &mut H) {
        self.bytes.hash(state);
    }
}
