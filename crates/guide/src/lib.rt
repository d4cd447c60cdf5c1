//! Uses of the library, as docs/GUIDE.md shows them: blocks, files, JSON texts and lines read, and
//! files and JSON written.
#![tactic(auto)]

mod lines;
mod one_block;
mod players;
mod records;
mod reserved;
mod rows;
mod sum;
mod written;

pub use lines::sum_of_lines;
pub use one_block::first_and_third;
pub use players::{Player, player_columns, player_schema};
pub use records::columns_of_records;
pub use reserved::{count_rows, reserve};
pub use rows::write_rows;
pub use sum::sum_of_longs;
pub use written::{write_chunk, write_header};
