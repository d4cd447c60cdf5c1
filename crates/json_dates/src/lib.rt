//! The JSON text of dates and timestamps: `full-date` of RFC 3339, section 5.6, and with an offset
//! `date-time` of that section; without an offset the date, a space and the time of day.
#![tactic(auto)]

mod dates;
mod digits;
mod laws;
mod local;
mod offsets;
mod timestamps;

pub use dates::{day_of_milliseconds, is_printed_day, push_date};
pub use offsets::parse_offset;
pub use timestamps::{is_printed_timestamp, push_timestamp};
