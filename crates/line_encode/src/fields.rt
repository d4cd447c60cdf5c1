//! Fields that no member names.
ghost use Rattle.std.specs.Prelude.{◌≡◌, ◌≤◌, length, OnOk};
ghost use Rattle.line_encode.specs.Plans.{Fills};

use crate::plan::{Plan, is_nullable};
use crate::primitive::push_null;
use json_lend::GivenUp;

/// Appends null for each of the fields from `from` to before `to`. A field where null may not stand
/// is given up.
#[inline(always)]
pub(crate) fn push_nulls(
    plans: &[Plan],
    from: usize,
    to: usize,
    out: &mut Vec<u8>,
) -> Result<(), GivenUp>
    requires order { from ≤ to }
    requires within { to ≤ length plans.now }
    ensures { OnOk result (Fills plans.now from to out.old.items out.new.items) }
{
    for k in from..to {
        push_null(is_nullable(&plans[k]), out)?;
    }
    Ok(())
}

/// Appends null for each of the fields.
#[inline(never)]
pub(crate) fn push_all_null(plans: &[Plan], out: &mut Vec<u8>) -> Result<(), GivenUp>
    ensures { OnOk result (Fills plans.now 0 (length plans.now) out.old.items out.new.items) }
{
    push_nulls(plans, 0, plans.len(), out)
}
