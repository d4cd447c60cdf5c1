//! Members in order, each key once.
//!
//! The first members are found by a scan. The keys after them have an index, so that an object of
//! many keys takes no quadratic time.
ghost use Rattle.std.specs.Prelude.{◌≡◌, ◌≤◌, ◌<◌, ◌+◌, ◌-◌, ◌++◌, ◌∷◌, ℕ, List, [], OnOk, OnErr, IfOk, IfErr, MatchResult, true, Some, None, MatchOption, length, drop};
ghost use Rattle.std.specs.Str.{bytes_eq};
ghost use Rattle.json_tree.specs.Keys.{value_of, keys_of};
ghost use Rattle.json_tree.specs.Layout.{put, key_index, distinct, Indexed};

use crate::value::{Blank, JsonFault};
use arrow_core::Text;
use std::alloc::Global;
use std::collections::BTreeMap;
use std::marker::Model;

/// How many members are found by a scan.
const SCANNED: usize = 16;

/// The capacity of an object that has a member, so that few objects grow.
const FIRST_CAPACITY: usize = 8;

/// Members in the order of their keys' first indices, each key once.
#[derive(Drop)]
pub(crate) struct Members<V> {
    pub(crate) pairs: Vec<(Text, V)>,
    // the indices of the keys after the first SCANNED
    indices: BTreeMap<String, usize>,
}

impl<V> Model for Members<V> {
    ghost use Rattle.std.specs.Prelude.{◌≡◌, ℕ, List, true, drop};
    ghost use Rattle.std.specs.Coded.{coded_list, coded_ℕ, coded×};
    ghost use Rattle.json_tree.specs.Keys.{keys_of};
    ghost use Rattle.json_tree.specs.Layout.{distinct, Indexed};

    ghost Value = { List (List ℕ × V) };

    ghost coded = { coded_list (coded× (coded_list coded_ℕ) V.code) };

    ghost view = { λ m. m.pairs.items };

    ghost invariant = { λ m. (distinct (keys_of m.pairs.items) ≡ true)
        × Indexed m.indices (drop 16 (keys_of m.pairs.items)) };
}

// Whether two texts of the same length are the same, after a call, since they seldom begin alike.
#[inline(never)]
fn are_equal(one: &str, other: &str) -> bool
    ensures { result ≡ bytes_eq one.now other.now }
{
    one == other
}

// Whether two texts are the same. Their lengths and first bytes mostly tell.
#[inline(always)]
fn are_same(one: &str, other: &str) -> bool
    ensures { result ≡ bytes_eq one.now other.now }
{
    if one.len() != other.len() {
        return false;
    }
    match (one.as_bytes().first(), other.as_bytes().first()) {
        (Some(a), Some(b)) => *a == *b && are_equal(one, other),
        _ => true,
    }
}

// The index of a key among the first SCANNED members.
fn scan<V>(pairs: &[(Text, V)], key: &str) -> Option<usize>
    ensures { MatchOption result
        (key_index key.now (keys_of pairs.now)
        ≡ (length pairs.now - (length pairs.now - 16))
        + key_index key.now (keys_of (drop 16 pairs.now)))
        (λ i. (i ≡ key_index key.now (keys_of pairs.now)) × (i < length pairs.now)) }
{
    let mut i = 0;
    while i < pairs.len() && i < SCANNED {
        if are_same(pairs[i].0.as_str(), key) {
            return Some(i);
        }
        i += 1;
    }
    None
}

// The next key comes at the index `at`, after those that are scanned, and gets an entry.
#[cold]
#[inline(never)]
fn index_key(
    alloc: Global,
    indices: &mut BTreeMap<String, usize>,
    key: &str,
    at: usize,
) -> Result<(), JsonFault>
    requires { 16 ≤ at }
    ensures added { OnOk result
        ((ks : List (List ℕ)) → at ≡ length ks → length ks ≤ key_index key.now ks
        → Indexed indices.old (drop 16 ks) → Indexed indices.new (drop 16 (ks ++ key.now ∷ []))) }
    ensures stays { OnErr result
        ((ks : List (List ℕ)) → Indexed indices.old ks → Indexed indices.new ks) }
    ensures memory { IfErr result (λ e. e ≡ JsonFault.Memory) }
{
    match String::from_str(alloc, key) {
        Err(_) => Err(JsonFault::Memory),
        Ok(owned) => match indices.insert(owned, at) {
            Ok(_) => Ok(()),
            Err(_) => Err(JsonFault::Memory),
        },
    }
}

// The next key comes at the index `at`. It gets an entry where it isn't scanned.
fn add_index(
    alloc: Global,
    indices: &mut BTreeMap<String, usize>,
    key: &str,
    at: usize,
) -> Result<(), JsonFault>
    ensures added { OnOk result
        ((ks : List (List ℕ)) → at ≡ length ks → length ks ≤ key_index key.now ks
        → Indexed indices.old (drop 16 ks) → Indexed indices.new (drop 16 (ks ++ key.now ∷ []))) }
    ensures stays { OnErr result
        ((ks : List (List ℕ)) → Indexed indices.old ks → Indexed indices.new ks) }
    ensures memory { IfErr result (λ e. e ≡ JsonFault.Memory) }
{
    if at < SCANNED {
        return Ok(());
    }
    index_key(alloc, indices, key, at)
}

impl<V: Drop> Members<V> {
    pub(crate) fn new(alloc: Global) -> Members<V>
        ensures { result ≡ [] }
    {
        Members {
            pairs: Vec::new(alloc),
            indices: BTreeMap::new(alloc),
        }
    }

    /// No members yet, and capacity for a few.
    pub(crate) fn with_capacity(alloc: Global) -> Result<Members<V>, JsonFault>
        ensures { MatchResult result (λ members. members ≡ []) (λ e. e ≡ JsonFault.Memory) }
    {
        match Vec::with_capacity(alloc, FIRST_CAPACITY) {
            Ok(pairs) => Ok(Members {
                pairs,
                indices: BTreeMap::new(alloc),
            }),
            Err(_) => Err(JsonFault::Memory),
        }
    }

    pub(crate) fn as_slice(&self) -> &[(Text, V)]
        ensures pairs { result.now ≡ self.now }
        ensures distinct { distinct (keys_of self.now) ≡ true }
    {
        self.pairs.as_slice()
    }

    // The index of a key.
    fn find(&self, key: &str) -> Option<usize>
        ensures { MatchOption result (length self.now ≤ key_index key.now (keys_of self.now))
            (λ i. (i ≡ key_index key.now (keys_of self.now)) × (i < length self.now)) }
    {
        match scan(&self.pairs, key) {
            Some(at) => Some(at),
            None => self.indices.get(key).copied(),
        }
    }

    pub(crate) fn get(&self, key: &str) -> Option<&V>
        ensures { MatchOption result (value_of key.now self.now ≡ None)
            (λ v. value_of key.now self.now ≡ Some v.now) }
    {
        match self.find(key) {
            Some(at) => Some(&self.pairs[at].1),
            None => None,
        }
    }

    /// The value of a key, or `None` exactly where no member has it. The key mostly stands at the
    /// index `near`, where it is looked for first.
    pub(crate) fn get_near(&self, near: usize, key: &str) -> Option<&V>
        ensures { MatchOption result (value_of key.now self.now ≡ None)
            (λ v. value_of key.now self.now ≡ Some v.now) }
    {
        match self.pairs.get(near) {
            Some(pair) if are_same(pair.0.as_str(), key) => Some(&pair.1),
            _ => self.get(key),
        }
    }
}

impl<V: Blank> Members<V> {
    // One more member, with a key that no member has, and its index. The members may have to grow,
    // or the key may need an entry.
    #[inline(never)]
    fn add_growing(&mut self, alloc: Global, key: Text) -> Result<usize, JsonFault>
        requires { length self.old ≤ key_index key (keys_of self.old) }
        ensures added { OnOk result ((value : V) × (self.new ≡ self.old ++ (key, value) ∷ [])) }
        ensures last { IfOk result (λ at. at ≡ length self.old) }
        ensures memory { IfErr result (λ e. e ≡ JsonFault.Memory) }
    {
        let at = self.pairs.len();
        if self.pairs.reserve(1).is_err() {
            return Err(JsonFault::Memory);
        }
        add_index(alloc, &mut self.indices, key.as_str(), at)?;
        self.pairs.push_reserved((key, V::blank()));
        Ok(at)
    }

    // The same. Where nothing has to grow, nothing can fail, and the member is made where it stays.
    fn add(&mut self, alloc: Global, key: Text) -> Result<usize, JsonFault>
        requires { length self.old ≤ key_index key (keys_of self.old) }
        ensures added { OnOk result ((value : V) × (self.new ≡ self.old ++ (key, value) ∷ [])) }
        ensures last { IfOk result (λ at. at ≡ length self.old) }
        ensures memory { IfErr result (λ e. e ≡ JsonFault.Memory) }
    {
        let at = self.pairs.len();
        if at < SCANNED && at < self.pairs.capacity() {
            self.pairs.push_reserved((key, V::blank()));
            return Ok(at);
        }
        self.add_growing(alloc, key)
    }

    /// Gives a key a blank value, and tells the key's index, at which the caller writes another
    /// value. A key that is there stays at its index.
    pub(crate) fn put(&mut self, alloc: Global, key: Text) -> Result<usize, JsonFault>
        ensures put { OnOk result ((value : V) × (self.new ≡ put self.old (key, value))) }
        ensures key_index { IfOk result
            (λ at. (at ≡ key_index key (keys_of self.new)) × (at < length self.new)) }
        ensures memory { IfErr result (λ e. e ≡ JsonFault.Memory) }
    {
        match self.find(key.as_str()) {
            Some(at) => {
                self.pairs[at].1 = V::blank();
                Ok(at)
            }
            None => self.add(alloc, key),
        }
    }
}
