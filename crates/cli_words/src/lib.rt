//! The words of `avrocat`'s command line: the words of fields, the commands that words stand for,
//! and the word that is printed for a type.
#![tactic(auto)]

mod command;
mod command_laws;
mod fault;
mod field;
mod laws;
mod names;
mod parts;
mod plain;
mod print;
mod sized;
mod symbols;
mod types;
mod worded;
mod words;

pub use command::{AvroWords, BlockWords, Command, MakeWords, RewriteWords};
pub use command_laws::{block_has_flags, one_command};
pub use fault::WordsFault;
pub use field::{FieldWord, read_field};
pub use names::{is_name, read_rows};
pub use print::push_type;
pub use words::read_words;
