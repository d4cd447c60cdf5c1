//! Where bytes come from and where they go, and the JSON string of a text. Also, by their names
//! here, the errors, list types and types of columns of the crates below.
#![tactic(auto)]

mod calls;
mod faults;
mod memory_sink;
mod memory_source;
mod pieces;
mod sink;
mod source;
mod std_sink;
mod std_source;
mod steady_source;
pub mod utf8;
mod vec_sink;

pub use arrow_core::{
    Box, Bytes, DataType, Error, Field, IntegerType, IntervalUnit, Items, Metadata, MonthsDaysNs,
    NativeType, Offset, PhysicalType, PrimitiveType, Reason, Result, Schema, Slot, Text, TimeUnit,
    UnionMode,
};
pub use faults::Failed;
pub use memory_sink::MemorySink;
pub use memory_source::MemorySource;
pub use sink::{Sink, write_all};
pub use source::{Source, TellsAlike};
pub use std_sink::StdSink;
pub use std_source::StdSource;
pub use steady_source::SteadySource;
pub use utf8::{CharEscape, write_str};
