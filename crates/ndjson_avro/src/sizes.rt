//! What is known of the length of a slice.
ghost use Rattle.std.specs.Prelude.{◌<◌, ◌^◌, length};

use arrow_base::Text;

/// There are less than 2^63 bytes. It tells so of a slice, and does nothing.
pub(crate) fn length_bound(_bytes: &[u8])
    ensures { length _bytes.now < 2 ^ 63 }
{}

/// There are less than 2^63 rows. It tells so of a slice, and does nothing.
pub(crate) fn tell_count(_rows: &[Text])
    ensures { length _rows.now < 2 ^ 63 }
{}
