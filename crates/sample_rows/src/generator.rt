//! A linear congruential generator, and the draws of a row. The state after a draw tells the number
//! that was drawn.
ghost use Rattle.std.specs.Prelude.{◌≡◌, ◌<◌};
ghost use Rattle.sample_rows.specs.Drawing as spec;

/// The state after one more draw.
pub(crate) fn next(state: u32) -> u32
    ensures { result ≡ spec.next state }
{
    ((state as u64 * 1_103_515_245 + 12_345) % 2_147_483_648) as u32
}

/// The number that was drawn.
pub(crate) fn drawn(state: u32) -> u32
    ensures { result ≡ spec.drawn state }
{
    state / 65_536
}

/// The state after so many draws.
pub(crate) fn after(draws: u32, state: u32) -> u32
    ensures { result ≡ spec.after draws state }
{
    let mut last = state;
    for _ in 0..draws {
        last = next(last);
    }
    last
}

/// How many tags the row has that is drawn from this state.
pub(crate) fn tag_count(state: u32) -> u32
    ensures count { result ≡ spec.tag_count state }
    ensures few { result < 3 }
{
    drawn(after(2, state)) % 3
}

/// The state after the draws of a row.
pub(crate) fn after_row(state: u32) -> u32
    ensures { result ≡ spec.after_row state }
{
    after(tag_count(state) + 3, state)
}
