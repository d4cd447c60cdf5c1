//! What is known of a slice of bytes.
ghost use Rattle.std.specs.Prelude.{◌<◌, ◌^◌, length};
ghost use Rattle.avro_canonical.specs.Laws.{AreBytes};

/// Each byte is below 256, and there are less than 2^63. It tells so of a slice, and does nothing.
pub(crate) fn tell_bytes(bytes: &[u8])
    ensures bytes { AreBytes bytes.now }
    ensures size { length bytes.now < 2 ^ 63 }
{}
