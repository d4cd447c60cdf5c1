//! A list whose items are lent.
ghost use Rattle.std.specs.Prelude.{◌≡◌, ℕ, ◌<◌, ◌≤◌, List, Option, Some, None, Ok, OnOk, [], ◌∷◌, map, length};
ghost use Rattle.std.specs.List.{join_with_byte};
ghost use Rattle.std.specs.Io.KnownBytes.{Appends};
ghost use Rattle.std.specs.Option.{option_copied};
ghost use Rattle.std.specs.Borrow.{sem};
ghost use Rattle.std.specs.Io.BufRead.{Rests};
ghost use Rattle.lending.specs.Lending.{Advanced, IsShown, IsNext};
ghost use Rattle.lending.specs.Joined.{MovesOn};

use crate::{FallibleStreamingIterator, write_joined};
use arrow_base::Sink;
use arrow_core::{Error, Result};

/// Lends the items of a list, and tells them.
#[derive(Drop)]
pub struct Listed<'a> {
    rest: &'a [Vec<u8>],
    shown: Option<&'a [u8]>,
}

impl<'a> Listed<'a> {
    pub fn new(items: &'a [Vec<u8>]) -> Listed<'a>
        ensures rest { result.rest.now ≡ items.now }
        ensures shown { result.shown ≡ None }
    {
        Listed {
            rest: items,
            shown: None,
        }
    }
}

impl<'a> FallibleStreamingIterator for Listed<'a> {
    type Error = Error;

    ghost can_advance = { λ _. Unit {0} };

    ghost step = { λ before answer after. (answer ≡ Ok tt) × MovesOn (map (λ v. v.items) before.rest.now) (option_copied after.shown) (map (λ v. v.items) after.rest.now) };

    ghost shown = { λ s. option_copied s.shown };

    ghost to_come = { λ s. length s.rest.now };

    ghost items = { λ s told. told ≡ map (λ v. v.items) s.rest.now };

    ghost hints = { λ s hint. hint ≡ (length s.rest.now, Some (length s.rest.now)) };

    fn advance(&mut self) -> Result<()> {
        match self.rest.split_first() {
            None => self.shown = None,
            Some((first, rest)) => {
                self.shown = Some(first.as_slice());
                self.rest = rest;
            }
        }
        Ok(())
    }

    fn get(&self) -> Option<&[u8]> {
        self.shown
    }

    fn next(&mut self) -> Result<Option<&[u8]>> {
        self.advance()?;
        Ok(self.get())
    }

    fn size_hint(&self) -> (usize, Option<usize>) {
        (self.rest.len(), Some(self.rest.len()))
    }
}

/// Writes the items of the list, with the separator between them.
pub fn write_listed<K: Sink>(sink: &mut K, separator: u8, items: &[Vec<u8>]) -> Result<()>
    ensures { OnOk result
        (Appends (K.held sink.old) (K.held sink.new)
        (join_with_byte separator (map (λ v. v.items) items.now))) }
{
    write_joined(sink, separator, Listed::new(items))
}
