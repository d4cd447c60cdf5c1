//! Blocks that are canonical already, so that a rewriting may copy their bytes: which these are, and
//! which schemas encode values in the same way.
#![tactic(auto)]

mod alike;
mod canonical;
mod flat;
mod parts;

pub use alike::are_alike;
pub use canonical::are_canonical_rows;
