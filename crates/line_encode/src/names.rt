//! Names of which no two are the same.
ghost use Rattle.std.specs.Prelude.{◌≡◌, true};
ghost use Rattle.json_tree.specs.Layout.{distinct};

use json_lend::Name;
use std::marker::Model;

/// The names of a record's fields, no two of which are the same.
#[derive(Drop)]
pub(crate) struct Names {
    names: Vec<Name>,
}

impl Model for Names {
    ghost use Rattle.std.specs.Prelude.{◌≡◌, ℕ, true, List};
    ghost use Rattle.std.specs.Coded.{codes};
    ghost use Rattle.json_tree.specs.Layout.{distinct};

    ghost Value = { List (List ℕ) };

    ghost coded = { Prim.hlevel codes };

    ghost view = { λ n. n.names.items };

    ghost invariant = { λ n. distinct n.names.items ≡ true };
}

impl Names {
    /// These names.
    pub(crate) fn new(names: Vec<Name>) -> Names
        requires distinct { distinct names.items ≡ true }
        ensures { result ≡ names.items }
    {
        Names { names }
    }

    /// The names in order.
    pub(crate) fn as_slice(&self) -> &[Name]
        ensures names { result.now ≡ self.now }
        ensures distinct { distinct result.now ≡ true }
    {
        self.names.as_slice()
    }
}
