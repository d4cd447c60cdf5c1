//! Blocks of Avro rows, and whole Avro files, into their canonical form.
#![tactic(auto)]

mod bytes;
mod columns;
mod laws;
mod rewrite;
mod rewriter;

pub use laws::{decoded_is_serializable, rewriting_answers};
pub use rewrite::avro_rewrite;
pub use rewriter::BlockRewriter;
