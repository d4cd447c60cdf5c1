//! Boxes.
ghost use Rattle.std.specs.Prelude.{◌≡◌, IfOk};
ghost use Rattle.arrow_core.specs.Errors.{OnlyOutOfMemory};

use crate::error::Result;
use std::alloc::Global;
use std::boxed::Box as StdBox;
use std::cmp::Ordering;
use std::hash::{Hash, Hasher};
use std::marker::Model;

/// A value on the heap. Contracts see the value alone, and not where it lies, so that a copy of a
/// type that holds boxes equals what it copies.
///
/// Boxes are compared, ordered and hashed as the values in them.
#[derive(Debug, Drop)]
pub struct Box<T> {
    inner: StdBox<T>,
}

impl<T> Model for Box<T> {
    ghost Value = { T };

    ghost coded = { T.code };

    ghost view = { λ b. b.inner.value };
}

impl<T: Drop> Box<T> {
    /// Puts `value` on the heap. `OutOfMemory` alone.
    pub fn new(alloc: Global, value: T) -> Result<Box<T>>
        ensures holds { IfOk result (λ boxed. boxed ≡ value) }
        ensures memory { OnlyOutOfMemory result }
    {
        let inner = StdBox::new(alloc, value)?;
        Ok(Box { inner })
    }
}

impl<T> Box<T> {
    /// The value, where it lies on the heap.
    pub fn get(&self) -> &T
        ensures { result.now ≡ self.now }
    {
        &self.inner
    }

    /// The value, out of the box, whose memory is given back.
    pub fn into_inner(self) -> T
        ensures { result ≡ self }
    {
        let Box { inner } = self;
        StdBox::into_inner(inner)
    }
}

impl<T: PartialEq> PartialEq for Box<T> {
    ghost eq = { T.eq };

    ghost laws = { T.laws };

    fn eq(&self, other: &Self) -> bool {
        self.inner == other.inner
    }
}

impl<T: Eq> Eq for Box<T> {
    ghost laws = { T.Eq.laws };
}

impl<T: PartialOrd> PartialOrd for Box<T> {
    ghost partial_cmp = { T.partial_cmp };

    ghost laws = { T.PartialOrd.laws };

    fn partial_cmp(&self, other: &Self) -> Option<Ordering> {
        self.inner.partial_cmp(&other.inner)
    }
}

impl<T: Ord> Ord for Box<T> {
    ghost cmp = { T.cmp };

    ghost total = { T.total };

    ghost matches_partial_cmp = { T.matches_partial_cmp };

    ghost matches_eq = { T.matches_eq };

    fn cmp(&self, other: &Self) -> Ordering {
        self.inner.cmp(&other.inner)
    }
}

impl<T: Hash> Hash for Box<T> {
    ghost hash_input = { T.hash_input };

    ghost respects_eq = { T.respects_eq };

    fn hash<H: Hasher>(&self, state: &mut H) {
        self.inner.hash(state);
    }
}
