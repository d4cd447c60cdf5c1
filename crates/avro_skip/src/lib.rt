//! Values that are skipped.
#![tactic(auto)]

mod fault;
mod flat;
mod skip;

pub use fault::SkipFault;
pub use skip::skip_value;
