//! What a node of a builder holds.

/// How many slots a node holds, and how many content bytes: bytes of strings, of binary values and
/// of values of one size given as bytes. A node of another kind has no content bytes.
#[derive(Clone, Copy, PartialEq, Eq, Debug)]
pub struct NodeLengths {
    /// How many slots there are, nulls among them.
    pub slots: usize,
    /// How many content bytes they have together, those of nulls among them.
    pub bytes: usize,
}
