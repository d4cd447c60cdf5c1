//! What a list lends of its child.
use crate::array::Array;

/// Neighbouring slots of an array, as a list lends its items: those from `start` up to, and
/// without, `end`.
#[derive(Drop)]
pub struct Part<'a> {
    /// The child that the slots are in.
    pub array: &'a Array,
    /// The index of the first slot.
    pub start: usize,
    /// The index after the last slot.
    pub end: usize,
}
