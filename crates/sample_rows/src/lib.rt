//! Rows that are drawn by a generator of numbers, encoded, and read back: what they add up to.
#![tactic(auto)]

mod columns;
mod encode;
mod fields;
mod generator;
mod lines;
mod made;
mod memory;
mod names;
mod read;
mod tags;
mod totals;

pub use columns::{DrawnColumns, draw_columns};
pub use made::make_lines;
