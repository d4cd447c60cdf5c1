//! Laws of the definitions. The functions do nothing: the contract of each is a law.
ghost use Rattle.std.specs.Prelude.{◌≡◌, ℕ, List};
ghost use Rattle.std.specs.Str.{IsUtf8};
ghost use Rattle.arrow_base.specs.WrittenString.{json_string};
ghost use Rattle.json_tree.specs.Meaning.{HoldsTooMany, IsJson, IsJsonText};
ghost use Rattle.json_tree.specs.Tree.{string};

use crate::value::Value;

/// A JSON text stands for one value.
pub fn one_value()
    ensures { (bytes : List ℕ) (one other : Value)
        → IsJsonText one bytes → IsJsonText other bytes → one ≡ other }
{}

/// A JSON text in which at most 128 brackets are open at once has no prefix that holds too many. So
/// `parse` answers such a text by its value, or by `Memory`.
pub fn within_the_limit()
    ensures { (bytes : List ℕ) (v : Value) → IsJson v bytes → HoldsTooMany bytes → ⊥ }
{}

/// The bytes that `write_str` of `arrow_base` writes for a text are a JSON text, which stands for
/// that text.
pub fn written_string_reads_back()
    ensures { (text : List ℕ) → IsUtf8 text → IsJsonText (string text) (json_string text) }
{}
