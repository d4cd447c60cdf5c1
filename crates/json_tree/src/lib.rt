//! JSON texts read whole into a tree of values (RFC 8259). The modules `reader`, `strings`, `number`
//! and `grammar` have what reads the parts of a text, for crates that read texts without a tree.
#![tactic(auto)]

pub mod grammar;
mod laws;
mod members;
pub mod number;
mod pieces;
pub mod reader;
pub mod strings;
mod texts;
mod value;

pub use laws::{one_value, within_the_limit, written_string_reads_back};
pub use texts::parse;
pub use value::{JsonFault, Number, Object, Value};
