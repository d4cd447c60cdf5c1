//! A law of the definitions. The function does nothing: its contract is the law.
ghost use Rattle.std.specs.Prelude.{◌≡◌, ℕ, ℤ, List, Some};
ghost use Rattle.json_tree.specs.Grammar.{IsNumber};
ghost use Rattle.json_tree.specs.Tree.{number};
ghost use Rattle.json_flat.specs.Whole.{number_value};

use json_tree::{Number, Value};

/// Each text that is a number (RFC 8259, section 6) has a whole value, as the tree of the text has it.
pub fn numbers_have_values()
    ensures { (mantissa exponent bytes : List ℕ) (n : Number) → IsNumber mantissa exponent bytes
        → number mantissa exponent ≡ Value.Number n → (whole : ℤ) × (number_value n ≡ Some whole) }
{}
