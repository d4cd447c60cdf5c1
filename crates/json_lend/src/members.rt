//! What stands before the value of a member (RFC 8259, section 4).
ghost use Rattle.std.specs.Prelude.{◌≡◌, ◌≤◌, length, true, IfOk};
ghost use Rattle.json_tree.specs.Layout.{distinct};
ghost use Rattle.json_lend.specs.Fields.{BeginsMember};

use crate::given_up::GivenUp;
use crate::name::Name;
use crate::names::bounded_index;
use json_tree::grammar::name_separator;
use json_tree::reader::Reader;

/// Reads the name of a member and the colon after it, with the white space around them, and tells
/// the name's index among `names`, which is first looked for at `guess`. The value is next.
///
/// `GivenUp` where no name and colon stand there. Among more than 256 names also at a name that has
/// an escape, or is none of those from `guess` on: so where `guess` is the index after that of the
/// member before, an object takes time linear in its members and the names.
#[inline(always)]
pub fn read_name<'a>(
    reader: &mut Reader<'a>,
    names: &[Name],
    guess: usize,
) -> Result<Option<usize>, GivenUp>
    requires { distinct names.now ≡ true }
    ensures reads { IfOk result (λ at. BeginsMember names.now at reader.old reader.new) }
    ensures forward { length reader.new ≤ length reader.old }
{
    reader.skip_spaces();
    let at = bounded_index(reader, names, guess)?;
    name_separator(reader)?;
    reader.skip_spaces();
    Ok(at)
}
