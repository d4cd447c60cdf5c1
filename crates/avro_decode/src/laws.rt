//! Laws of the decoder over whole calls.

ghost use Rattle.avro_schema.specs.Refusals.{ValidBlocksAreRead};
ghost use Rattle.avro_decode.specs.Capacity.{ReservedCapacityStays};

/// `deserialize` refuses a valid block with `OutOfMemory` alone: none of its other errors has its
/// cause there.
pub fn valid_blocks_are_read()
    ensures { ValidBlocksAreRead }
{}

/// Builders that were reserved once for n bytes, and then filled by `deserialize_into`, whatever it
/// answered, and cleared, are empty again and have spare capacity for n bytes. So they take block
/// after block of at most n bytes, and `deserialize_into` doesn't run out of memory, unless
/// fixed-size binary values beneath a union are kept.
pub fn reserved_capacity_stays()
    ensures { ReservedCapacityStays }
{}
