//! Dictionary encoding: of an array each distinct slot once, and for each slot its index among
//! these.
#![tactic(auto)]

mod encode;
mod indices;
mod keys;
mod values;

pub use encode::{encode_primitives, encode_strings};
