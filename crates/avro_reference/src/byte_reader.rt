//! Bytes ahead, in a cursor whose type names no lifetime: functions that call one another in a
//! cycle can't be generic over a `Cursor<'a>`.

ghost use Rattle.std.specs.Prelude.{◌≡◌, ◌+◌, ◌<◌, ◌≤◌, List, ℕ, [], ◌∷◌, Some, None, length, take, drop, MatchBool, MatchOption, OnSome};
ghost use Rattle.avro_schema.specs.Counts.{risen};
ghost use Rattle.avro_reference.specs.Prefix.{number_at};
ghost use Rattle.avro_reference.specs.Costs.{Moves, CostsNumber};
ghost use Rattle.avro_reference.specs.Lengths.{length_at};

use avro_schema::{Cursor, next_number};
use std::convert::AsSlice;
use std::marker::PhantomData;

/// Bytes ahead, which are taken from the start: a `Cursor` whose type names no lifetime.
///
/// Its methods are those of the cursor that is lent, and count as the cursor's own calls.
pub trait ByteReader {
    /// The bytes that `take` hands out.
    type Part: AsSlice<u8> + Drop;

    // the bytes ahead
    ghost rest: { Self → List ℕ };

    // bytes handed out
    ghost shown: { Self → ℕ };

    // calls of the cursor
    ghost calls: { Self → ℕ };

    // the reference to the cursor, which stays
    ghost identity: { Self → ℕ };

    /// How many bytes are ahead. It counts as no call.
    fn left(&self) -> usize
        ensures { result ≡ length (rest self.now) };

    /// The next byte, which is passed; None at the end of the bytes.
    fn byte(&mut self) -> Option<u8>
        ensures same { identity self.new ≡ identity self.old }
        ensures read { MatchOption result
            ((rest self.old ≡ []) × (rest self.new ≡ []))
            (λ b. rest self.old ≡ b ∷ rest self.new) }
        ensures shown { MatchOption result
            (shown self.new ≡ shown self.old)
            (λ _. shown self.new ≡ risen (shown self.old) 1) }
        ensures calls { calls self.new ≡ risen (calls self.old) 1 };

    /// The next `n` bytes, which are passed; None, and nothing passed, where fewer are ahead.
    fn take(&mut self, n: usize) -> Option<Self::Part>
        ensures same { identity self.new ≡ identity self.old }
        ensures read { MatchOption result
            ((length (rest self.old) < n) × (rest self.new ≡ rest self.old))
            (λ s. (n ≤ length (rest self.old)) × (Self.Part.items s ≡ take n (rest self.old))
            × (rest self.new ≡ drop n (rest self.old))) }
        ensures shown { MatchOption result
            (shown self.new ≡ shown self.old)
            (λ _. shown self.new ≡ risen (shown self.old) n) }
        ensures calls { calls self.new ≡ risen (calls self.old) 1 };

    /// Passes `n` bytes without handing them out; false, and nothing passed, where fewer are
    /// ahead.
    fn jump(&mut self, n: usize) -> bool
        ensures same { identity self.new ≡ identity self.old }
        ensures read { MatchBool result
            ((n ≤ length (rest self.old)) × (rest self.new ≡ drop n (rest self.old)))
            ((length (rest self.old) < n) × (rest self.new ≡ rest self.old)) }
        ensures shown { shown self.new ≡ shown self.old }
        ensures calls { calls self.new ≡ risen (calls self.old) 1 };

    /// The number at the start of the bytes ahead (Avro 1.11, "Primitive Types"); None where no
    /// prefix of them is a number.
    fn number(&mut self) -> Option<i64>
        ensures same { identity self.new ≡ identity self.old }
        ensures moves { Moves rest calls self.old self.new }
        ensures costs { OnSome result (CostsNumber rest shown calls self.old self.new) }
        ensures reads { MatchOption result (number_at (rest self.old) ≡ None)
            (λ v. number_at (rest self.old) ≡ Some (v, rest self.new)) };
}

/// A cursor that is lent to functions over `ByteReader`.
#[derive(Drop)]
pub struct Lent<'a, 'c, C> {
    /// The cursor.
    pub cursor: &'c mut C,
    /// The lifetime of the bytes that the cursor hands out. It stands behind a reference, since
    /// by value nothing would be known of the cursor once it is given back.
    pub of: &'c PhantomData<&'a u8>,
}

impl<'a, 'c, C: Cursor<'a>> ByteReader for Lent<'a, 'c, C> {
    type Part = &'a [u8];

    ghost rest = { λ c. C.rest c.cursor.now };

    ghost shown = { λ c. C.shown c.cursor.now };

    ghost calls = { λ c. C.calls c.cursor.now };

    ghost identity = { λ c. c.cursor.ghost_name };

    #[inline(always)]
    fn left(&self) -> usize {
        self.cursor.left()
    }

    #[inline(always)]
    fn byte(&mut self) -> Option<u8> {
        self.cursor.byte()
    }

    #[inline(always)]
    fn take(&mut self, n: usize) -> Option<&'a [u8]> {
        self.cursor.take(n)
    }

    #[inline(always)]
    fn jump(&mut self, n: usize) -> bool {
        self.cursor.jump(n)
    }

    #[inline(always)]
    #[tactic(auto, using(crate::proofs::Sets::numbers))]
    fn number(&mut self) -> Option<i64> {
        read_number(self.cursor)
    }
}

#[inline(always)]
#[tactic(auto, using(crate::proofs::Sets::numbers))]
fn read_number<'a, C: Cursor<'a>>(cursor: &mut C) -> Option<i64>
    ensures moves { Moves C.rest C.calls cursor.old cursor.new }
    ensures costs { OnSome result (CostsNumber C.rest C.shown C.calls cursor.old cursor.new) }
    ensures reads { MatchOption result (number_at (C.rest cursor.old) ≡ None)
        (λ v. number_at (C.rest cursor.old) ≡ Some (v, C.rest cursor.new)) }
{
    next_number(cursor)
}

/// The length of a string or a binary value at the start of the bytes ahead (Avro 1.11, "Primitive
/// Types"), a number of 0 or more; None where no prefix of them is one.
#[inline(always)]
#[tactic(auto, unfolding(crate::specs::Lengths::length_at))]
pub fn read_length<A: ByteReader>(cursor: &mut A) -> Option<usize>
    ensures same { A.identity cursor.new ≡ A.identity cursor.old }
    ensures moves { Moves A.rest A.calls cursor.old cursor.new }
    ensures costs { OnSome result (CostsNumber A.rest A.shown A.calls cursor.old cursor.new) }
    ensures reads { MatchOption result (length_at (A.rest cursor.old) ≡ None)
        (λ n. length_at (A.rest cursor.old) ≡ Some (n, A.rest cursor.new)) }
{
    let number = cursor.number()?;
    if number < 0 {
        return None;
    }
    Some(number as usize)
}
