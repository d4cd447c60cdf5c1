//! An iterator's items, written into one buffer and lent from there.
ghost use Rattle.std.specs.Prelude.{◌≡◌, ℕ, ◌<◌, ◌≤◌, List, Option, Some, None, Result, Ok, true, false, [], cond, IfSome};
ghost use Rattle.std.specs.Iterator.{IsFinite, size, UpTo};
ghost use Rattle.std.specs.Iterator.SizeHint.{IsWithinCount};
ghost use Rattle.std.specs.Borrow.{sem};
ghost use Rattle.std.specs.Io.BufRead.{Rests};
ghost use Rattle.lending.specs.Lending.{Advanced, IsShown, IsNext};
ghost use Rattle.lending.specs.Filling.{Ends, HintsAt};

use crate::fallible::FallibleStreamingIterator;
use crate::streaming::StreamingIterator;
use arrow_core::{Error, Result};

/// Lends what a closure writes of each item of an iterator. The buffer that the closure writes into
/// is used again for each item.
// The closure's bound stands on the impls: a derived `Drop` under it could not be used where a
// bound asks for `Drop`.
#[derive(Drop)]
pub struct BufStreamingIterator<I, F, T>
where
    I: Iterator<Item = T>,
{
    iterator: I,
    f: F,
    buffer: Vec<u8>,
    is_valid: bool,
    has_ended: bool,
}

impl<I, F, T> BufStreamingIterator<I, F, T>
where
    I: Iterator<Item = T>,
    F: FnMut(T, &mut Vec<u8>) -> Result<()>,
{
    ghost use Rattle.lending.specs.Buffered.{iterator_of, closure_of, has_ended, shown_of};

    /// Lends what `f` writes of each item of `iterator` into `buffer`, which is emptied before each
    /// call. The iterator has to end, and the closure has to be callable on each item and each
    /// buffer, again after each call. Nothing is shown before the first `advance`. Takes no memory.
    pub fn new(iterator: I, f: F, buffer: Vec<u8>) -> Self
        requires ends { Ends I.can_next I.remaining iterator }
        requires callable { F.IsAlwaysCallable f }
        ensures iterator { iterator_of result ≡ iterator }
        ensures f { closure_of result ≡ f }
        ensures not_ended { has_ended result ≡ false }
        ensures nothing_shown { shown_of result ≡ None }
    {
        BufStreamingIterator {
            iterator,
            f,
            buffer,
            is_valid: false,
            has_ended: false,
        }
    }
}

impl<I, F, T> FallibleStreamingIterator for BufStreamingIterator<I, F, T>
where
    I: Iterator<Item = T>,
    F: FnMut(T, &mut Vec<u8>) -> Result<()> + Drop,
{
    ghost use Rattle.lending.specs.Buffered.{iterator_of, shown_of, to_come_of, MayAdvance, Advances};

    type Error = Error;

    ghost can_advance = { λ s. MayAdvance (λ f. F.IsAlwaysCallable f) I.can_next I.remaining s };

    ghost step = { λ before answer after. Advances (λ v. v.items)
        (λ f item lent answer left g. F.step f item lent answer left g)
        I.next_gives before answer after };

    ghost shown = { λ s. shown_of s };

    ghost to_come = { λ s. to_come_of I.remaining s };

    ghost items = { λ _ _. ⊥ };

    ghost hints = { λ s hint. HintsAt (I.remaining (iterator_of s)) hint };

    /// Takes the iterator's next item, empties the buffer and calls the closure. An error is the
    /// closure's own, and the next `advance` goes on with the next item. After the end it stays at
    /// the end, and asks the iterator no more.
    fn advance(&mut self) -> Result<()> {
        self.is_valid = false;
        if self.has_ended {
            return Ok(());
        }
        match self.iterator.next() {
            None => {
                self.has_ended = true;
                Ok(())
            }
            Some(item) => {
                self.buffer.clear();
                let answer = (self.f)(item, &mut self.buffer);
                self.is_valid = answer.is_ok();
                answer
            }
        }
    }

    fn get(&self) -> Option<&[u8]> {
        if self.is_valid {
            Some(self.buffer.as_slice())
        } else {
            None
        }
    }

    fn next(&mut self) -> Result<Option<&[u8]>> {
        FallibleStreamingIterator::advance(self)?;
        Ok(FallibleStreamingIterator::get(self))
    }

    fn size_hint(&self) -> (usize, Option<usize>) {
        self.iterator.size_hint()
    }
}

impl<I, F, T> StreamingIterator for BufStreamingIterator<I, F, T>
where
    I: Iterator<Item = T>,
    F: FnMut(T, &mut Vec<u8>) -> Result<()> + Drop,
{
    ghost use Rattle.lending.specs.Buffered.{iterator_of, shown_of, to_come_of, MayAdvance, Advances};

    ghost can_advance = { λ s. MayAdvance (λ f. F.IsAlwaysCallable f) I.can_next I.remaining s };

    ghost step = { λ before answer after. Advances (λ v. v.items)
        (λ f item lent answer left g. F.step f item lent answer left g)
        I.next_gives before answer after };

    ghost shown = { λ s. shown_of s };

    ghost to_come = { λ s. to_come_of I.remaining s };

    ghost items = { λ _ _. ⊥ };

    ghost hints = { λ s hint. HintsAt (I.remaining (iterator_of s)) hint };

    fn advance(&mut self) -> Result<()> {
        FallibleStreamingIterator::advance(self)
    }

    fn get(&self) -> Option<&[u8]> {
        FallibleStreamingIterator::get(self)
    }

    fn next(&mut self) -> Result<Option<&[u8]>> {
        StreamingIterator::advance(self)?;
        Ok(StreamingIterator::get(self))
    }

    fn size_hint(&self) -> (usize, Option<usize>) {
        FallibleStreamingIterator::size_hint(self)
    }
}
