//! What everything here stands on: the error of every call and its reasons, the list types that
//! contracts see as what they hold, the types of columns, the numbers that columns hold, the slots
//! that contracts speak of, and whether bytes are UTF-8.
#![tactic(auto)]

mod boxed;
mod bytes;
mod cloned;
mod equality;
mod error;
mod items;
mod metadata;
mod months_days_ns;
mod native;
mod offset;
mod physical;
mod slot;
mod text;
mod types;
mod utf8;

pub use boxed::Box;
pub use bytes::Bytes;
pub use equality::equality_law;
pub use error::{Error, Reason, Result};
pub use items::Items;
pub use metadata::Metadata;
pub use months_days_ns::MonthsDaysNs;
pub use native::NativeType;
pub use offset::Offset;
pub use physical::{PhysicalType, PrimitiveType};
pub use slot::Slot;
pub use text::Text;
pub use types::{DataType, Field, IntegerType, IntervalUnit, Schema, TimeUnit, UnionMode};
pub use utf8::is_utf8;
