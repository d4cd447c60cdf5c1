//! Laws of the canonical encoding.
ghost use Rattle.avro_encode.specs.Laws.{DecimalSizes, PlainEncodes, PlainTells};

/// The canonical encoding of a slot that pairs with the schema encodes that slot; so under one
/// schema the encodings of two slots are equal exactly where the slots are.
///
/// The function does nothing: its contract is the law.
pub fn canonical_encoding()
    ensures encodes { PlainEncodes }
    ensures tells { PlainTells }
{}

/// A positive decimal takes the least even number of bytes, from 2, that leaves the top bit clear.
///
/// The function does nothing: its contract is the law.
pub fn decimal_sizes()
    ensures sizes { DecimalSizes }
{}
