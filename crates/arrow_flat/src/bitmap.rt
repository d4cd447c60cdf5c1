//! A bitmap that grows.

ghost use Rattle.std.specs.Prelude.{◌≡◌, ◌≢◌, ℕ, ◌+◌, ◌*◌, ◌<◌, ◌≤◌, ◌++◌, ◌∷◌, [], length, vec_len, vec_capacity, MatchBool, IsOk, IfOk, OnOk, OnErr};
ghost use Rattle.arrow_array.specs.Bits.{bit_of, boolean_of};
ghost use Rattle.arrow_core.specs.Errors.{OnlyOutOfMemory};

use arrow_array::Bitmap;
use arrow_core::Result;
use std::alloc::{AllocError, Global};
use std::marker::Model;

/// The most bits that one bitmap holds: whole words of them.
const MOST_BITS: usize = 9223372036854775744;

/// Booleans, packed 64 to a word, that grow bit by bit.
#[derive(Drop)]
pub(crate) struct MutableBitmap {
    words: Vec<u64>,
    count: usize,
}

impl Model for MutableBitmap {
    ghost use Rattle.std.specs.Prelude.{Bool, ◌-◌, vec_capacity};
    ghost use Rattle.std.specs.Coded.{coded_bool};
    ghost use Rattle.arrow_flat.specs.Capacity.{Growing, growing_code};
    ghost use Rattle.arrow_array.specs.Bits.{booleans_of};
    ghost use Rattle.arrow_flat.specs.Bits.{bit_capacity, HoldBits};

    ghost Value = { Growing Bool };

    ghost coded = { growing_code coded_bool };

    ghost view = { λ b. record {
      items = booleans_of b.words.items 0 b.count;
      spare = bit_capacity (vec_capacity b.words) - b.count;
    } };

    ghost invariant = { λ b. HoldBits b.words.items b.count };
}

/// Adds a word of zeros where bit `i` lies just past the words.
#[inline]
#[tactic(auto, using(crate::proofs::Bits::bit_of_push))]
fn add_word(words: &mut Vec<u64>, i: usize)
    requires near { i ≤ 64 * vec_len words.old }
    requires tight { 64 * vec_len words.old < i + 64 }
    requires capacity { i < 64 * vec_capacity words.old }
    ensures within { i < 64 * vec_len words.new }
    ensures tight { 64 * vec_len words.new < i + 65 }
    ensures same { (k : ℕ) → bit_of words.new.items k ≡ bit_of words.old.items k }
    ensures capacity { vec_capacity words.new ≡ vec_capacity words.old }
{
    if i % 64 == 0 {
        words.push_reserved(0);
    }
}

/// Writes bit `i`, which is not set yet. The word is written whatever the bit is: a test would be
/// dearer.
#[inline]
fn write_bit(words: &mut Vec<u64>, i: usize, value: bool)
    requires within { i < 64 * vec_len words.old }
    requires clear { bit_of words.old.items i ≡ 0 }
    ensures len { vec_len words.new ≡ vec_len words.old }
    ensures written { boolean_of words.new.items i ≡ value }
    ensures others { (k : ℕ) → k ≢ i → bit_of words.new.items k ≡ bit_of words.old.items k }
    ensures capacity { vec_capacity words.new ≡ vec_capacity words.old }
{
    let word = words[i / 64];
    words[i / 64] = word | (value as u64) << (i % 64);
}

#[tactic(auto, using(crate::proofs::Slots::counts))]
impl MutableBitmap {
    /// An empty bitmap. It takes no memory.
    pub fn new(alloc: Global) -> MutableBitmap
        ensures { result.items ≡ [] }
    {
        MutableBitmap {
            words: Vec::new(alloc),
            count: 0,
        }
    }

    /// Makes spare capacity for so many more bits. An error changes nothing.
    pub fn reserve(&mut self, additional: usize) -> std::result::Result<(), AllocError>
        ensures items { self.new.items ≡ self.old.items }
        ensures capacity { self.old.spare ≤ self.new.spare }
        ensures ok { OnOk result (additional ≤ self.new.spare) }
        ensures err { OnErr result (self.new ≡ self.old) }
        ensures succeeds { additional ≤ self.old.spare → IsOk result }
    {
        if additional > MOST_BITS - self.count {
            return Err(AllocError);
        }
        let words = (self.count + additional + 63) / 64;
        self.words.reserve(words - self.words.len())?;
        Ok(())
    }

    /// Makes spare capacity for one more bit. An error changes nothing.
    ///
    /// A last word that isn't full has spare capacity, so only a bit that begins a word asks for
    /// any.
    #[inline(always)]
    pub fn reserve_one(&mut self) -> std::result::Result<(), AllocError>
        ensures items { self.new.items ≡ self.old.items }
        ensures capacity { self.old.spare ≤ self.new.spare }
        ensures ok { OnOk result (1 ≤ self.new.spare) }
        ensures err { OnErr result (self.new ≡ self.old) }
        ensures succeeds { 1 ≤ self.old.spare → IsOk result }
    {
        if self.count % 64 != 0 {
            return Ok(());
        }
        if self.count == MOST_BITS {
            return Err(AllocError);
        }
        self.words.reserve(1)?;
        Ok(())
    }

    /// Appends a bit, for which there is spare capacity.
    #[inline(always)]
    pub fn push_reserved(&mut self, value: bool)
        requires { 1 ≤ self.old.spare }
        ensures items { self.new.items ≡ self.old.items ++ value ∷ [] }
        ensures capacity { self.new.spare + 1 ≡ self.old.spare }
    {
        add_word(&mut self.words, self.count);
        write_bit(&mut self.words, self.count, value);
        self.count += 1;
    }

    /// Appends a bit where the last word isn't full; false, and nothing changed, where it is.
    #[inline(always)]
    pub fn push_within(&mut self, value: bool) -> bool
        ensures { MatchBool result
            ((1 ≤ length self.old.items)
            × (self.new.items ≡ self.old.items ++ value ∷ [])
            × (self.new.spare + 1 ≡ self.old.spare))
            (self.new ≡ self.old) }
    {
        if self.count % 64 == 0 {
            return false;
        }
        write_bit(&mut self.words, self.count, value);
        self.count += 1;
        true
    }

    /// How many bits there are.
    pub fn len(&self) -> usize
        ensures { result ≡ length self.now.items }
    {
        self.count
    }

    /// How many more bits fit before memory is asked for.
    pub fn capacity(&self) -> usize
        ensures spare { result ≡ self.now.spare }
        ensures few { result ≤ 9223372036854775744 }
    {
        let capacity = self.words.capacity().saturating_mul(64);
        let capacity = if capacity < MOST_BITS {
            capacity
        } else {
            MOST_BITS
        };
        capacity - self.count
    }

    /// The bitmap of these bits, over the same words.
    pub fn freeze(self) -> Result<Bitmap>
        ensures ok { IfOk result (λ b. b.booleans ≡ self.items) }
        ensures err { OnlyOutOfMemory result }
    {
        let MutableBitmap { words, count } = self;
        Bitmap::try_from_words(words, count)
    }

    /// Drops every bit and keeps the capacity.
    pub fn clear(&mut self)
        ensures items { self.new.items ≡ [] }
        ensures capacity { length self.old.items + self.old.spare ≤ self.new.spare }
    {
        self.words.clear();
        self.count = 0;
    }
}
