//! Values that are lent.
use json_tree::reader::Reader;
use std::marker::Model;

/// A string that has escapes. Contracts see the text that it stands for.
#[derive(Drop)]
pub struct EscapedString<'a> {
    // the string from its opening quotation mark on
    pub(crate) reader: Reader<'a>,
}

impl<'a> Model for EscapedString<'a> {
    ghost use Rattle.std.specs.Prelude.{ℕ, List, []};
    ghost use Rattle.json_tree.specs.Reading.{string_at};
    ghost use Rattle.json_lend.specs.Parts.{found_or, IsFound};

    ghost Value = { List ℕ };

    ghost view = { λ s. found_or [] (string_at s.reader) };

    ghost invariant = { λ s. IsFound (string_at s.reader) };
}

/// An array that was skipped. Contracts see its items.
#[derive(Drop)]
pub struct LentArray<'a> {
    // what follows the opening bracket
    pub(crate) reader: Reader<'a>,
    // how many brackets may be open at once in an item
    pub(crate) depth: usize,
}

impl<'a> Model for LentArray<'a> {
    ghost use Rattle.std.specs.Prelude.{List, []};
    ghost use Rattle.std.specs.Coded.{codes};
    ghost use Rattle.json_tree.specs.Tree.{Json};
    ghost use Rattle.json_tree.specs.contracts.value.Value as tree;
    ghost use Rattle.json_lend.specs.Parts.{found_or, IsFound, items_at};

    ghost Value = { List Json };

    ghost coded = { Prim.hlevel (codes, tree.the_row.coded) };

    ghost view = { λ a. found_or [] (items_at a.depth a.reader) };

    ghost invariant = { λ a. IsFound (items_at a.depth a.reader) };
}

/// An object that was skipped. Contracts see its members.
#[derive(Drop)]
pub struct LentObject<'a> {
    // what follows the opening bracket
    pub(crate) reader: Reader<'a>,
    // how many brackets may be open at once in a member
    pub(crate) depth: usize,
}

impl<'a> Model for LentObject<'a> {
    ghost use Rattle.std.specs.Prelude.{ℕ, List, []};
    ghost use Rattle.std.specs.Coded.{codes};
    ghost use Rattle.json_tree.specs.Tree.{Json};
    ghost use Rattle.json_tree.specs.contracts.value.Value as tree;
    ghost use Rattle.json_lend.specs.Parts.{found_or, IsFound, members_at};

    ghost Value = { List (List ℕ × Json) };

    ghost coded = { Prim.hlevel (codes, tree.the_row.coded) };

    ghost view = { λ o. found_or [] (members_at o.depth o.reader) };

    ghost invariant = { λ o. IsFound (members_at o.depth o.reader) };
}

/// A value that stands in a JSON text and is lent from it (RFC 8259, section 3).
#[derive(Drop)]
pub enum Lent<'a> {
    /// `null`.
    Null,
    /// `true` or `false`.
    Bool(bool),
    /// A number: its mantissa, which is all that stands before `e` or `E`, and its exponent, which
    /// is what follows with any sign, or is empty.
    Number(&'a str, &'a str),
    /// A string without escapes: what stands between its quotation marks.
    String(&'a str),
    /// A string with escapes.
    Escaped(EscapedString<'a>),
    /// An array.
    Array(LentArray<'a>),
    /// An object.
    Object(LentObject<'a>),
}
