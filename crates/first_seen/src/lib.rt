//! Keys in the order in which they first came, each once.
//!
//! A hash finds the index of each of the first 1024 keys, and a tree those of the others. Its seed is
//! known, so somebody can pick keys whose hashes collide: then a look-up passes at most these 1024,
//! and the tree compares log n of n keys, whatever they are.
#![tactic(auto)]

ghost use Rattle.std.specs.Prelude.{◌≡◌, ◌++◌, ◌∷◌, [], IfOk, IfSome, None, OnErr, OnOk, Some, option_copied, slice_get};
ghost use Rattle.arrow_core.specs.Errors.{OnlyOutOfMemory};
ghost use Rattle.first_seen.specs.Keys.{index_of, with_key};

#[cfg(test)]
mod tests;

use arrow_core::Result;
use indexmap::IndexSet;
use std::alloc::Global;
use std::collections::BTreeMap;
use std::hash::Hash;
use std::marker::Model;

/// How many keys a hash finds.
const HASHED_KEYS: usize = 1024;

/// Keys in the order in which they first came, each once.
#[derive(Drop)]
pub struct FirstSeen<K: Ord + Hash> {
    keys: Vec<K>,
    // the first keys, each at its index
    hashed: IndexSet<K>,
    // the index of each other key
    indices: BTreeMap<K, usize>,
}

impl<K: Ord + Hash> Model for FirstSeen<K> {
    ghost use Rattle.std.specs.Prelude.{List};
    ghost use Rattle.std.specs.Coded.{coded_list};
    ghost use Rattle.first_seen.specs.Keys.{Indexed};

    ghost Value = { List K };

    ghost coded = { coded_list K.code };

    ghost view = { λ s. s.keys.items };

    ghost invariant = { λ s. Indexed K.eq K.cmp s.hashed.keys s.indices s.keys.items };
}

impl<K: Ord + Hash + Drop> FirstSeen<K> {
    /// No keys. It takes no memory.
    pub fn new(alloc: Global) -> FirstSeen<K>
        ensures { result ≡ [] }
    {
        FirstSeen {
            keys: Vec::new(alloc),
            hashed: IndexSet::new(alloc),
            indices: BTreeMap::new(alloc),
        }
    }

    /// The keys, in the order in which they first came.
    pub fn as_slice(&self) -> &[K]
        ensures { result.now ≡ self.now }
    {
        self.keys.as_slice()
    }

    /// The key at an index; `None` past the last.
    pub fn get(&self, index: usize) -> Option<&K>
        ensures key { option_copied result ≡ slice_get self.now index }
        ensures index { IfSome result (λ key. index_of K.eq self.now key.now ≡ Some index) }
    {
        self.keys.get(index)
    }

    /// The index of a key; `None` where it didn't come.
    pub fn index_of(&self, key: &K) -> Option<usize>
        ensures { result ≡ index_of K.eq self.now key.now }
    {
        match self.hashed.get_index_of(key) {
            Some(index) => Some(index),
            None => self.indices.get(key).copied(),
        }
    }

    /// The same of a key that mostly stands at `near`, where it is looked for first.
    pub fn index_near(&self, near: usize, key: &K) -> Option<usize>
        ensures { result ≡ index_of K.eq self.now key.now }
    {
        match self.keys.get(near) {
            Some(other) if *other == *key => Some(near),
            _ => self.index_of(key),
        }
    }

    /// Puts a key that didn't come behind the others. The set or the tree takes the copy. `OutOfMemory` alone;
    /// then the keys stay.
    pub fn push(&mut self, key: K, copy: K) -> Result<()>
        requires absent { index_of K.eq self.old key ≡ None }
        requires copy { copy ≡ key }
        ensures pushed { OnOk result (self.new ≡ self.old ++ key ∷ []) }
        ensures stays { OnErr result (self.new ≡ self.old) }
        ensures memory { OnlyOutOfMemory result }
    {
        let index = self.keys.len();
        self.keys.reserve(1)?;
        if index < HASHED_KEYS {
            self.hashed.insert(copy)?;
            self.keys.push_reserved(key);
            return Ok(());
        }
        self.indices.insert(copy, index)?;
        self.keys.push_reserved(key);
        Ok(())
    }
}

impl<K: Ord + Hash + Copy> FirstSeen<K> {
    /// The index of a key, which goes behind the others where it didn't come. `OutOfMemory` alone;
    /// then the keys stay.
    pub fn add(&mut self, key: K) -> Result<usize>
        ensures keys { OnOk result (self.new ≡ with_key K.eq self.old key) }
        ensures index { IfOk result (λ index. index_of K.eq self.new key ≡ Some index) }
        ensures stays { OnErr result (self.new ≡ self.old) }
        ensures memory { OnlyOutOfMemory result }
    {
        if let Some(index) = self.index_of(&key) {
            return Ok(index);
        }
        let index = self.keys.len();
        self.push(key, key)?;
        Ok(index)
    }
}
