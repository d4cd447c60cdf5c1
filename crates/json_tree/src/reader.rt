//! A reader over the bytes of a text.
ghost use Rattle.std.specs.Prelude.{◌≡◌, ◌≢◌, ◌≤◌, ◌<◌, ℕ, List, [], ◌∷◌, ◌++◌, length, drop, true, false, MatchOption, MatchBool};
ghost use Rattle.std.specs.Str.{IsUtf8};
ghost use Rattle.std.specs.List.{prefix_len};
ghost use Rattle.json_tree.specs.Grammar.{is_space, is_digit, Each};
ghost use Rattle.arrow_base.specs.JsonString.{is_unescaped};
ghost use Rattle.json_tree.specs.InText.{InText};
ghost use Rattle.json_tree.specs.Reading.{skip, after, First};

use std::marker::Model;
use std::simd::prelude::*;

/// The bytes that are still ahead. They end a text that is UTF-8.
#[derive(Drop)]
pub struct Reader<'a> {
    bytes: &'a [u8],
}

impl<'a> Model for Reader<'a> {
    ghost use Rattle.std.specs.Prelude.{ℕ, List};

    ghost Value = { List ℕ };

    ghost view = { λ r. r.bytes.now };

    ghost use Rattle.json_tree.specs.InText.{InText};

    ghost invariant = { λ r. InText r.bytes.now };
}

// White space (RFC 8259, section 2).
#[tactic(auto, unfolding(crate::specs::Grammar::is_space))]
fn is_space(byte: u8) -> bool
    ensures { result ≡ is_space byte }
{
    byte == b' ' || byte == b'\t' || byte == b'\n' || byte == b'\r'
}

/// Whether a byte is a digit, from `0` to `9` (RFC 8259, section 6).
#[tactic(auto, unfolding(crate::specs::Grammar::is_digit))]
pub fn is_decimal(byte: u8) -> bool
    ensures { result ≡ is_digit byte }
{
    b'0' <= byte && byte <= b'9'
}

impl<'a> Reader<'a> {
    /// A reader that has all of these bytes ahead, which are UTF-8. Nothing is copied.
    #[tactic(auto, using(crate::proofs::InTexts::in_whole))]
    pub fn new(bytes: &'a [u8]) -> Reader<'a>
        requires { IsUtf8 bytes.now }
        ensures { result ≡ bytes.now }
    {
        Reader { bytes }
    }

    /// The bytes ahead, up to the end of the text. None of them is passed.
    pub fn rest(&self) -> &'a [u8]
        ensures { result.now ≡ self.now }
    {
        self.bytes
    }

    /// A second reader, of the bytes that this one has ahead.
    pub fn again(&self) -> Reader<'a>
        ensures { result ≡ self.now }
    {
        Reader { bytes: self.bytes }
    }

    /// The next byte, which stays ahead; `None` at the end.
    pub fn peek(&self) -> Option<u8>
        ensures { MatchOption result (self.now ≡ []) (λ x. (t : List ℕ) × (self.now ≡ x ∷ t)) }
    {
        self.bytes.first().copied()
    }

    /// The next byte, which is passed; `None` at the end.
    #[tactic(auto, using(crate::proofs::InTexts::in_tail))]
    pub fn next(&mut self) -> Option<u8>
        ensures { MatchOption result
            ((self.old ≡ []) × (self.new ≡ [])) (λ x. self.old ≡ x ∷ self.new) }
    {
        let (first, rest) = self.bytes.split_first()?;
        self.bytes = rest;
        Some(*first)
    }

    // Passes white space, of which there mostly is some.
    #[tactic(auto, unfolding(crate::specs::Reading::skip), using(crate::proofs::InTexts::in_tail))]
    fn pass_spaces(&mut self)
        ensures skipped { self.new ≡ skip self.old }
        ensures forward { length self.new ≤ length self.old }
    {
        let mut rest = self.bytes;
        while let Some((first, others)) = rest.split_first() {
            if !is_space(*first) {
                break;
            }
            rest = others;
        }
        self.bytes = rest;
    }

    /// Passes white space. Where there is none, nothing is written.
    #[tactic(auto, unfolding(crate::specs::Reading::skip))]
    pub fn skip_spaces(&mut self)
        ensures skipped { self.new ≡ skip self.old }
        ensures forward { length self.new ≤ length self.old }
    {
        match self.peek() {
            Some(byte) => {
                if is_space(byte) {
                    self.pass_spaces();
                }
            }
            None => {}
        }
    }

    /// Passes this byte where it is next, and tells whether it was. What follows an ASCII byte is
    /// UTF-8.
    #[tactic(auto, using(crate::proofs::InTexts::in_tail))]
    pub fn takes(&mut self, byte: u8) -> bool
        ensures taken { MatchBool result (self.old ≡ byte ∷ self.new)
            ((self.new ≡ self.old) × First (λ x t. x ≢ byte) self.old) }
        ensures text { result ≡ true → byte < 128 → IsUtf8 self.new }
        ensures forward { length self.new ≤ length self.old }
    {
        match self.bytes.split_first() {
            Some((first, rest)) => {
                if *first == byte {
                    self.bytes = rest;
                    return true;
                }
                false
            }
            None => false,
        }
    }

    /// Passes the digits ahead.
    #[tactic(auto, unfolding(crate::specs::Reading::after), using(crate::proofs::InTexts::in_tail))]
    pub fn skip_digits(&mut self)
        ensures skipped { self.new ≡ after is_digit self.old }
        ensures forward { length self.new ≤ length self.old }
    {
        let mut rest = self.bytes;
        while let Some((first, others)) = rest.split_first() {
            if !is_decimal(*first) {
                break;
            }
            rest = others;
        }
        self.bytes = rest;
    }

    /// Passes `n` bytes.
    pub fn advance(&mut self, n: usize)
        requires { n ≤ length self.old }
        ensures { self.new ≡ drop n self.old }
    {
        self.bytes = &self.bytes[n..];
    }

    /// Passes a string without escapes where it is next, and lends what stands between its
    /// quotation marks. Else nothing is passed.
    pub fn plain_string(&mut self) -> Option<&'a str>
        ensures found { MatchOption result (self.new ≡ self.old)
            (λ run. Each is_unescaped run.now × (self.old ≡ 34 ∷ (run.now ++ 34 ∷ self.new))) }
    {
        let (first, rest) = self.bytes.split_first()?;
        if *first != b'"' {
            return None;
        }
        let n = unescaped_len(rest);
        let (run, tail) = rest.split_at(n);
        let (last, following) = tail.split_first()?;
        if *last != b'"' {
            return None;
        }
        self.bytes = following;
        Some(unsafe { std::str::from_utf8_unchecked(run) })
    }

    /// Passes the characters ahead that stand for themselves (RFC 8259, section 7), and lends them.
    pub fn unescaped_run(&mut self) -> &'a str
        requires { IsUtf8 self.old }
        ensures split { self.old ≡ result.now ++ self.new }
        ensures plain { Each is_unescaped result.now }
        ensures stops { First (λ x t. is_unescaped x ≡ false) self.new }
        ensures text { IsUtf8 self.new }
    {
        let n = unescaped_len(self.bytes);
        let (run, rest) = self.bytes.split_at(n);
        self.bytes = rest;
        unsafe { std::str::from_utf8_unchecked(run) }
    }
}

// Whether the byte stands for itself in a string (RFC 8259, section 7).
#[tactic(auto, unfolding(arrow_base::specs::JsonString::is_unescaped))]
fn is_unescaped(byte: u8) -> bool
    ensures { result ≡ is_unescaped byte }
{
    byte >= b' ' && byte != b'"' && byte != b'\\'
}

/// How many bytes are tested at once.
const BLOCK: usize = 16;

// How many bytes of a block come first that stand for themselves.
#[inline(always)]
fn unescaped_in_block(block: &[u8; BLOCK]) -> usize
    ensures { result ≡ prefix_len is_unescaped block.now }
{
    let bytes = u8x16::from_array(*block);
    let below_space = bytes.simd_lt(u8x16::splat(b' '));
    let quotes = bytes.simd_eq(u8x16::splat(b'"'));
    let escapes = bytes.simd_eq(u8x16::splat(b'\\'));
    let stops = (below_space | quotes | escapes).to_bitmask();
    if stops == 0 {
        return BLOCK;
    }
    stops.trailing_zeros() as usize
}

// How many bytes come first that stand for themselves, of less than a block.
fn unescaped_in_rest(bytes: &[u8]) -> usize
    ensures { result ≡ prefix_len is_unescaped bytes.now }
{
    let mut rest = bytes;
    while let Some((first, others)) = rest.split_first() {
        if !is_unescaped(*first) {
            break;
        }
        rest = others;
    }
    bytes.len() - rest.len()
}

// How many bytes come first that stand for themselves, block after block.
#[inline(never)]
fn unescaped_in_blocks(bytes: &[u8]) -> usize
    ensures { result ≡ prefix_len is_unescaped bytes.now }
{
    let mut rest = bytes;
    while let Some((block, others)) = rest.split_first_chunk::<BLOCK>() {
        let n = unescaped_in_block(block);
        if n < BLOCK {
            return bytes.len() - rest.len() + n;
        }
        rest = others;
    }
    let n = unescaped_in_rest(rest);
    bytes.len() - (rest.len() - n)
}

// How many bytes come first that stand for themselves. They mostly end in the first block.
#[inline(always)]
fn unescaped_len(bytes: &[u8]) -> usize
    ensures { result ≡ prefix_len is_unescaped bytes.now }
{
    if let Some((block, _)) = bytes.split_first_chunk::<BLOCK>() {
        let n = unescaped_in_block(block);
        if n < BLOCK {
            return n;
        }
    }
    unescaped_in_blocks(bytes)
}
