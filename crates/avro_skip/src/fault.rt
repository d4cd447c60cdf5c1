//! Why a value isn't skipped.

/// Why a value isn't skipped. Skipping takes no memory, so no other fault is there.
#[derive(Clone, Copy, PartialEq, Eq, Debug)]
pub enum SkipFault {
    /// The bytes aren't the value that the schema asks for.
    Bytes,
    /// A block of an array states a size below 0 (Avro 1.11, "Arrays").
    NegativeSize,
}
