//! Names and values that go with a field or a schema.
ghost use Rattle.std.specs.Prelude.{◌≡◌, [], IfOk, OnOk, OnErr, option_map};
ghost use Rattle.arrow_core.specs.Entries.{value_at, with_value, AllOthersKept, IsAscending};
ghost use Rattle.arrow_core.specs.Errors.{OnlyOutOfMemory};

use crate::error::Result;
use crate::text::Text;
use std::alloc::Global;
use std::cmp::Ordering;
use std::collections::BTreeMap;
use std::hash::{Hash, Hasher};
use std::marker::Model;

/// A finite map from strings to strings. Contracts see it as the list of its entries, each a key
/// and a value, in the order of the keys.
///
/// Maps are compared and hashed as these lists. Two are equal exactly where each key has the same
/// value in both.
#[derive(Debug, Drop)]
pub struct Metadata {
    texts: BTreeMap<String, String>,
}

impl Model for Metadata {
    ghost use Rattle.std.specs.Prelude.{List, ℕ, map};
    ghost use Rattle.arrow_core.specs.Entries.{entry_bytes};

    ghost Value = { List (List ℕ × List ℕ) };

    ghost view = { λ m. map entry_bytes m.texts.entries };
}

impl Metadata {
    /// The empty map. It takes no memory.
    pub fn new(alloc: Global) -> Metadata
        ensures { result ≡ [] }
    {
        Metadata {
            texts: BTreeMap::new(alloc),
        }
    }

    /// The value of `key`, or `None` where it has none.
    pub fn get(&self, key: &str) -> Option<&str>
        ensures { option_map (λ value. value.now) result ≡ value_at self.now key.now }
    {
        match self.texts.get(key) {
            Some(value) => Some(value.as_str()),
            None => None,
        }
    }

    /// Gives `key` this value, in place of one that it had. On `Err` the map is as before.
    pub fn insert(&mut self, key: Text, value: Text) -> Result<()>
        ensures found { OnOk result (value_at self.new key ≡ Some value) }
        ensures others { OnOk result (AllOthersKept self.old self.new key) }
        ensures ascending { OnOk result (IsAscending self.new) }
        ensures inserted { OnOk result (self.new ≡ with_value self.old key value) }
        ensures kept { OnErr result (self.new ≡ self.old) }
        ensures memory { OnlyOutOfMemory result }
    {
        self.texts.insert(key.into_string(), value.into_string())?;
        Ok(())
    }

    /// A copy of this map, with memory of its own. `OutOfMemory` alone.
    pub fn try_clone(&self, _alloc: Global) -> Result<Metadata>
        ensures copy { IfOk result (λ copied. copied ≡ self.now) }
        ensures memory { OnlyOutOfMemory result }
    {
        let texts = self.texts.clone()?;
        Ok(Metadata { texts })
    }
}

impl PartialEq for Metadata {
    ghost use Rattle.arrow_core.specs.EntryComparisons.{entries_eq, entries_per};

    ghost eq = { entries_eq };

    ghost laws = { entries_per };

    fn eq(&self, other: &Self) -> bool {
        self.texts == other.texts
    }
}

impl Eq for Metadata {
    ghost use Rattle.arrow_core.specs.EntryComparisons.{entries_equiv};

    ghost laws = { entries_equiv };
}

impl PartialOrd for Metadata {
    ghost use Rattle.std.specs.Prelude.{Some};
    ghost use Rattle.arrow_core.specs.EntryComparisons.{entries_cmp, entries_po};

    ghost partial_cmp = { λ x y. Some (entries_cmp x y) };

    ghost laws = { entries_po };

    fn partial_cmp(&self, other: &Self) -> Option<Ordering> {
        Some(self.cmp(other))
    }
}

impl Ord for Metadata {
    ghost use mathlib.Core.Path.{refl};
    ghost use Rattle.arrow_core.specs.EntryComparisons.{entries_cmp, entries_total, entries_ties};

    ghost cmp = { entries_cmp };

    ghost total = { entries_total };

    ghost matches_partial_cmp = { λ x y. refl };

    ghost matches_eq = { entries_ties };

    fn cmp(&self, other: &Self) -> Ordering {
        self.texts.cmp(&other.texts)
    }
}

impl Hash for Metadata {
    ghost use Rattle.arrow_core.specs.EntryComparisons.{entries_hash, entries_alike};

    ghost hash_input = { entries_hash };

    ghost respects_eq = { entries_alike };

    fn hash<H: Hasher>(&self, state: &mut H) {
        self.texts.hash(state);
    }
}
