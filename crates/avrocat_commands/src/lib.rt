//! What `avrocat` does: each command over a source and sinks, and the program as one call.
#![tactic(auto)]

mod avro;
mod block;
mod columns;
mod count;
mod fields;
mod help;
mod infer;
mod input;
mod laws;
mod lines;
mod make;
mod ndjson;
mod note;
mod program;
mod rewrite;
mod schema;

pub use help::{HELP, VERSION};
pub use laws::{no_error_is_due_to_what_can_be_done, one_error_is_due};
pub use lines::Lines;
pub use program::{exit_status, run};
