//! Finding a node of a builder by its number.

ghost use Rattle.std.specs.Prelude.{◌≡◌, ◌-◌, ◌==◌, if◌then◌else◌, Ok, Err};

use arrow_flat::NodeLengths;

/// What the first node holds where the number is 0, and else the number counted from the node
/// after it.
pub(crate) fn here_or(here: NodeLengths, node: usize) -> std::result::Result<NodeLengths, usize>
    ensures { result ≡ (if node == 0 then Ok here else Err (node - 1)) }
{
    if node == 0 {
        return Ok(here);
    }
    Err(node - 1)
}
