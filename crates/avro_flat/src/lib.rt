//! Flat Avro values, each into one more slot of a builder, one or many of a kind.
#![tactic(auto)]

mod binary;
mod decimal;
mod duration;
mod fault;
mod fixed;
mod numbers;
mod strings;
mod symbol;

pub use binary::{decode_binaries, decode_binary};
pub use decimal::{
    decimal_of, decode_decimal, decode_decimals, decode_fixed_decimal, decode_fixed_decimals,
};
pub use duration::{decode_duration, decode_durations};
pub use fault::{DecodeFault, pushed};
pub use fixed::{decode_fixed, decode_fixed_values};
pub use numbers::{
    decode_boolean, decode_booleans, decode_int, decode_ints, decode_long, decode_longs,
};
pub use strings::{decode_string, decode_strings};
pub use symbol::{decode_symbol, decode_symbols};
