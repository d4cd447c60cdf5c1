//! Bytes ahead, which are taken from the start.

ghost use Rattle.std.specs.Prelude.{◌≡◌, ℕ, ◌<◌, ◌≤◌, ◌+◌, ◌-◌, ◌^◌, min, List, [], ◌∷◌, length, take, drop, MatchOption, MatchBool};
ghost use Rattle.avro_schema.specs.Counts.{risen};

/// Bytes ahead, which are taken from the start.
///
/// It keeps three numbers of 64 bits, each of which stands still at its last value: how many
/// bytes were handed out, how many were passed without being handed out, and how many calls were
/// made. No call takes memory.
pub trait Cursor<'a> {
    // the bytes ahead
    ghost rest: { Self → List ℕ };

    // bytes handed out
    ghost shown: { Self → ℕ };

    // bytes passed without being handed out
    ghost jumped: { Self → ℕ };

    // calls of `byte`, `take` and `jump`
    ghost calls: { Self → ℕ };

    /// How many bytes are ahead, fewer than 2^63. It counts as no call.
    fn left(&self) -> usize
        ensures length { result ≡ length (rest self.now) }
        ensures limit { length (rest self.now) < 2 ^ 63 };

    /// The next byte, which the cursor passes; None at the end of the bytes.
    fn byte(&mut self) -> Option<u8>
        ensures read { MatchOption result
            ((rest self.old ≡ []) × (rest self.new ≡ []))
            (λ b. rest self.old ≡ b ∷ rest self.new) }
        ensures shown { MatchOption result
            (shown self.new ≡ shown self.old)
            (λ _. shown self.new ≡ risen (shown self.old) 1) }
        ensures jumped { jumped self.new ≡ jumped self.old }
        ensures calls { calls self.new ≡ risen (calls self.old) 1 };

    /// The next `n` bytes, which the cursor passes; None, and nothing passed, where fewer are
    /// ahead.
    fn take(&mut self, n: usize) -> Option<&'a [u8]>
        ensures read { MatchOption result
            ((length (rest self.old) < n) × (rest self.new ≡ rest self.old))
            (λ s. (n ≤ length (rest self.old)) × (s.now ≡ take n (rest self.old))
            × (rest self.new ≡ drop n (rest self.old))) }
        ensures shown { MatchOption result
            (shown self.new ≡ shown self.old)
            (λ _. shown self.new ≡ risen (shown self.old) n) }
        ensures jumped { jumped self.new ≡ jumped self.old }
        ensures calls { calls self.new ≡ risen (calls self.old) 1 };

    /// Passes `n` bytes without handing them out; false, and nothing passed, where fewer are
    /// ahead.
    fn jump(&mut self, n: usize) -> bool
        ensures read { MatchBool result
            ((n ≤ length (rest self.old)) × (rest self.new ≡ drop n (rest self.old)))
            ((length (rest self.old) < n) × (rest self.new ≡ rest self.old)) }
        ensures jumped { MatchBool result
            (jumped self.new ≡ risen (jumped self.old) n)
            (jumped self.new ≡ jumped self.old) }
        ensures shown { shown self.new ≡ shown self.old }
        ensures calls { calls self.new ≡ risen (calls self.old) 1 };
}

/// A cursor over a slice.
///
/// A call of `byte` that hands out a byte changes the position alone: how many such calls there
/// were follows from how many bytes the other calls passed.
#[derive(Drop)]
pub struct SliceCursor<'a> {
    bytes: &'a [u8],
    at: usize,
    // How many of the bytes before `at` `jump` passed, and how many `take` or `jump` passed.
    jumped: usize,
    taken_or_jumped: usize,
    // Every call but those of `byte` that handed out a byte.
    other_calls: u64,
    ghost within: { at ≤ length bytes.now },
    ghost part: { taken_or_jumped ≤ at },
    ghost least: { jumped ≤ taken_or_jumped },
}

impl<'a> SliceCursor<'a> {
    /// All of `bytes` ahead, and each of the three numbers 0.
    pub fn new(bytes: &'a [u8]) -> SliceCursor<'a>
        ensures rest { ⟦<SliceCursor<'a> as Cursor<'a>>⟧.rest result ≡ bytes.now }
        ensures shown { ⟦<SliceCursor<'a> as Cursor<'a>>⟧.shown result ≡ 0 }
        ensures jumped { ⟦<SliceCursor<'a> as Cursor<'a>>⟧.jumped result ≡ 0 }
        ensures calls { ⟦<SliceCursor<'a> as Cursor<'a>>⟧.calls result ≡ 0 }
    {
        SliceCursor {
            bytes,
            at: 0,
            jumped: 0,
            taken_or_jumped: 0,
            other_calls: 0,
        }
    }

    /// How many bytes were handed out.
    pub fn shown(&self) -> u64
        ensures { result ≡ ⟦<SliceCursor<'a> as Cursor<'a>>⟧.shown self.now }
    {
        (self.at - self.jumped) as u64
    }

    /// How many bytes were passed without being handed out.
    pub fn jumped(&self) -> u64
        ensures { result ≡ ⟦<SliceCursor<'a> as Cursor<'a>>⟧.jumped self.now }
    {
        self.jumped as u64
    }

    /// How many calls of `byte`, `take` and `jump` were made.
    pub fn calls(&self) -> u64
        ensures { result ≡ ⟦<SliceCursor<'a> as Cursor<'a>>⟧.calls self.now }
    {
        self.other_calls
            .saturating_add((self.at - self.taken_or_jumped) as u64)
    }
}

impl<'a> Cursor<'a> for SliceCursor<'a> {
    ghost rest = { λ c. drop c.at c.bytes.now };

    ghost shown = { λ c. c.at - c.jumped };

    ghost jumped = { λ c. c.jumped };

    ghost calls = { λ c. min (c.other_calls + (c.at - c.taken_or_jumped)) (2 ^ 64 - 1) };

    #[inline(always)]
    fn left(&self) -> usize {
        self.bytes.len() - self.at
    }

    #[inline(always)]
    fn byte(&mut self) -> Option<u8> {
        if self.at == self.bytes.len() {
            self.other_calls = self.other_calls.saturating_add(1);
            return None;
        }
        let byte = self.bytes[self.at];
        self.at += 1;
        Some(byte)
    }

    #[inline(always)]
    fn take(&mut self, n: usize) -> Option<&'a [u8]> {
        self.other_calls = self.other_calls.saturating_add(1);
        if n > self.left() {
            return None;
        }
        let end = self.at + n;
        let prefix = &self.bytes[self.at..end];
        self.at = end;
        self.taken_or_jumped += n;
        Some(prefix)
    }

    #[inline]
    fn jump(&mut self, n: usize) -> bool {
        self.other_calls = self.other_calls.saturating_add(1);
        if n > self.left() {
            return false;
        }
        self.at += n;
        self.jumped += n;
        self.taken_or_jumped += n;
        true
    }
}
