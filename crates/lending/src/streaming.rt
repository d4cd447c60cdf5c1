//! Iterators that lend, with this library's error.
ghost use Rattle.std.specs.Prelude.{◌≡◌, ℕ, List, Option, Result};
ghost use Rattle.std.specs.Borrow.{sem};
ghost use Rattle.std.specs.Io.BufRead.{Rests};
ghost use Rattle.arrow_core.specs.declared.error.Error.{Error};
ghost use Rattle.lending.specs.Lending.{Advanced, AdvancedNext, IsShown};

use arrow_core::Result;

/// An iterator that lends one item after another, each until the next is asked for, and fails with
/// this library's error. It ends: there is a number, `to_come`, that each item shown and each error
/// lowers.
pub trait StreamingIterator: Drop {
    // Where `advance` may be called.
    ghost can_advance: { Self → Type 0 };

    // One `advance`: the iterator before, the answer, the iterator after.
    ghost step: { Self → Result (Unit {0}) Error → Self → Type 0 };

    // What `get` shows.
    ghost shown: { Self → Option (List ℕ) };

    // At most so many items and errors come.
    ghost to_come: { Self → ℕ };

    // Relates the iterator to the items still to be shown, up to the end or the first error, where
    // it tells them.
    ghost items: { Self → List (List ℕ) → Type 0 };

    // What `size_hint` may answer.
    ghost hints: { Self → ℕ × Option ℕ → Type 0 };

    /// Goes on to the next item. After `Ok`, `get` shows it, or nothing where there is no further
    /// item; after an error `get` shows nothing.
    fn advance(&mut self) -> Result<()>
        requires { can_advance self.old }
        ensures { Advanced can_advance step shown to_come items self.old result self.new };

    /// The item that the last `advance` came to, as its bytes; nothing before the first. It takes
    /// no memory.
    fn get(&self) -> Option<&[u8]>
        ensures { IsShown result (shown self.now) };

    /// `advance`, and then `get`.
    fn next(&mut self) -> Result<Option<&[u8]>>
        requires { can_advance self.old }
        ensures* advances { sem 𝓛
            (Rests Self.row self.entry
            (λ new. AdvancedNext can_advance step shown to_come items self.old result new)) };

    /// A lower and, where there is one, an upper bound of the number of items still to come.
    fn size_hint(&self) -> (usize, Option<usize>)
        ensures { hints self.now result };
}
