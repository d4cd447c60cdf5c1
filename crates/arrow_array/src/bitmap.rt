//! A list of booleans, 64 to a word.
ghost use Rattle.std.specs.Prelude.{◌≡◌, ℕ, ◌+◌, ◌*◌, ◌^◌, ◌<◌, ◌≤◌, ◌≢◌, [], not, length, take, drop, slice_index_or, false, vec_len, IsTrue, ◌↔◌, ◌==◌, count_by, IfOk};
ghost use Rattle.std.specs.Int.{bit_at};
ghost use Rattle.std.specs.List.{filter, range_with_len};
ghost use Rattle.arrow_core.specs.Errors.{OnlyOutOfMemory};
ghost use Rattle.arrow_array.specs.Bits.{bit_of, boolean_of, booleans_of};

use arrow_core::Result;
use std::alloc::Global;
use std::marker::Model;
use std::sync::ArcSlice;

/// A list of booleans, 64 to a word, from the lowest bit on
/// (Arrow columnar format, "Validity bitmaps").
///
/// The words are shared: a slice of a bitmap begins at another bit of the same words.
#[derive(Drop)]
pub struct Bitmap {
    words: ArcSlice<u64>,
    start: usize,
    count: usize,
}

impl Model for Bitmap {
    ghost use Rattle.std.specs.Prelude.{◌+◌, ◌*◌, ◌^◌, ◌<◌, ◌≤◌, length};
    ghost use Rattle.std.specs.Arc.{arc_slice_items};
    ghost use Rattle.arrow_array.specs.Bits.{Packed, packed_of};

    ghost Value = { Packed };

    ghost view = { λ b. packed_of (arc_slice_items b.words) b.start b.count };

    ghost invariant = { λ b. (b.start + b.count ≤ 64 * length (arc_slice_items b.words))
        × (b.start + b.count < 2 ^ 64) };
}

/// Sets bit `i` of the words.
fn set_bit(words: &mut [u64], i: usize)
    requires { i < 64 * length words.old }
    ensures len { length words.new ≡ length words.old }
    ensures set { bit_of words.new i ≡ 1 }
    ensures others { (k : ℕ) → k ≢ i → bit_of words.new k ≡ bit_of words.old k }
{
    let word = words[i / 64];
    words[i / 64] = word | 1 << (i % 64);
}

/// Packs the booleans into the words, of which there are none at first.
fn pack(mut words: Vec<u64>, values: &[bool]) -> Result<Vec<u64>>
    requires { words.items ≡ [] }
    ensures packed { IfOk result
        (λ packed. booleans_of packed.items 0 (length values.now) ≡ values.now) }
    ensures covered { IfOk result (λ packed. length values.now ≤ 64 * vec_len packed) }
    ensures memory { OnlyOutOfMemory result }
{
    for i in 0..values.len() {
        if i % 64 == 0 {
            words.push(0)?;
        }
        if values[i] {
            set_bit(&mut words, i);
        }
    }
    Ok(words)
}

/// How many of the `n` bits of the word from bit `from` on are set.
fn set_in_word(word: u64, from: usize, n: usize) -> usize
    requires some { 1 ≤ n }
    requires within { from + n ≤ 64 }
    ensures { result ≡ count_by (λ k. bit_at word k == 1) (range_with_len from n) }
{
    let bits = word >> from;
    if n == 64 {
        bits.count_ones() as usize
    } else {
        (bits & ((1 << n) - 1)).count_ones() as usize
    }
}

/// How many of the `count` bits of the words from bit `start` on are set, word by word.
fn set_bits(words: &[u64], start: usize, count: usize) -> usize
    requires within { start + count ≤ 64 * length words.now }
    requires fits { start + count < 2 ^ 64 }
    ensures { result ≡ count_by (boolean_of words.now) (range_with_len start count) }
{
    let mut set = 0;
    let mut done = 0;
    while done < count {
        let from = (start + done) % 64;
        let n = (64 - from).min(count - done);
        set += set_in_word(words[(start + done) / 64], from, n);
        done += n;
    }
    set
}

impl Bitmap {
    /// The bitmap of these booleans, from bit 0 of new words on.
    ///
    /// The words are reserved at once. `OutOfMemory` where there is no memory for them.
    pub fn try_from_slice(alloc: Global, values: &[bool]) -> Result<Bitmap>
        ensures booleans { IfOk result (λ b. b.booleans ≡ values.now) }
        ensures offset { IfOk result (λ b. b.offset ≡ 0) }
        ensures memory { OnlyOutOfMemory result }
    {
        let words = Vec::with_capacity(alloc, values.len().div_ceil(64))?;
        Bitmap::try_from_words(pack(words, values)?, values.len())
    }

    /// The bitmap of the first `len` bits of these words, which it keeps.
    ///
    /// `OutOfMemory` where there is no memory for the count of owners.
    pub fn try_from_words(words: Vec<u64>, len: usize) -> Result<Bitmap>
        requires { len ≤ 64 * vec_len words }
        ensures booleans { IfOk result (λ b. b.booleans ≡ booleans_of words.items 0 len) }
        ensures words { IfOk result (λ b. b.words ≡ words.items) }
        ensures offset { IfOk result (λ b. b.offset ≡ 0) }
        ensures memory { OnlyOutOfMemory result }
    {
        let words = ArcSlice::from_vec(words)?;
        Ok(Bitmap {
            words,
            start: 0,
            count: len,
        })
    }

    /// How many booleans there are.
    pub fn len(&self) -> usize
        ensures { result ≡ length self.now.booleans }
    {
        self.count
    }

    /// Whether there are none.
    pub fn is_empty(&self) -> bool
        ensures { IsTrue result ↔ (self.now.booleans ≡ []) }
    {
        self.count == 0
    }

    /// Value `i`, counted from 0: bit `offset + i` of `words`.
    pub fn get(&self, i: usize) -> bool
        requires { i < length self.now.booleans }
        ensures { result ≡ slice_index_or self.now.booleans i false }
    {
        let bit = self.start + i;
        let words = self.words.as_slice();
        (words[bit / 64] >> (bit % 64)) & 1 == 1
    }

    /// The words from that of the first value on, as many as the values reach at least: value `i`
    /// is bit `offset + i` of them.
    pub fn words(&self) -> &[u64]
        ensures words { result.now ≡ self.now.words }
        ensures booleans { self.now.booleans
            ≡ booleans_of result.now self.now.offset (length self.now.booleans) }
        ensures covered { self.now.offset + length self.now.booleans ≤ 64 * length result.now }
    {
        &self.words.as_slice()[self.start / 64..]
    }

    /// The bit of the first value in the first of `words`.
    pub fn offset(&self) -> usize
        ensures offset { result ≡ self.now.offset }
        ensures below { result < 64 }
    {
        self.start % 64
    }

    /// How many of the values are false, counted at each call, word by word.
    pub fn unset_bits(&self) -> usize
        ensures { result ≡ length (filter not self.now.booleans) }
    {
        self.count - set_bits(self.words.as_slice(), self.start, self.count)
    }

    /// The `count` values from index `offset` on. It shares the words.
    ///
    /// `OutOfMemory` where the words have too many owners.
    pub fn slice(&self, offset: usize, count: usize) -> Result<Bitmap>
        requires { offset + count ≤ length self.now.booleans }
        ensures booleans { IfOk result
            (λ b. b.booleans ≡ take count (drop offset self.now.booleans)) }
        ensures memory { OnlyOutOfMemory result }
    {
        let words = self.words.clone()?;
        Ok(Bitmap {
            words,
            start: self.start + offset,
            count,
        })
    }
}
