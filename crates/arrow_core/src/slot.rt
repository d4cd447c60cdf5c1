//! What a column holds at each index.
use crate::{Bytes, Items, Text};

/// What a column holds at an index. Contracts alone speak of slots: no code makes one, and a column
/// is seen as its data type and the list of its slots.
///
/// The Arrow columnar format calls one logical value of a column a slot, and says of each layout
/// how its buffers stand for it. Here a slot is that value, whatever the layout: strings with
/// offsets of 32 or of 64 bits are the same `String`.
#[derive(Drop)]
pub enum Slot {
    /// No value: the validity bitmap says so, or the type is `Null`.
    Null,
    /// A boolean.
    Boolean(bool),
    /// An integer: an integer, a date, a time, a timestamp, a duration, or the digits of a
    /// decimal without its point.
    Integer(i128),
    /// A UTF-8 string.
    String(Text),
    /// Bytes.
    Binary(Bytes),
    /// A list, of a fixed or a varying length.
    List(Items<Slot>),
    /// A struct: a slot for each field, in the order of the fields. An interval of months, days and
    /// nanoseconds is a struct of these three numbers.
    Struct(Items<Slot>),
}
