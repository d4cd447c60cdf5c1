//! How values of a column are encoded, which is settled once for all lines.
ghost use Rattle.std.specs.Prelude.{◌≡◌};
ghost use Rattle.line_encode.specs.Plans.{is_nullable as is_nullable_of};

use crate::names::Names;

/// How a value without others in it is encoded (Avro 1.11, "Primitive Types").
#[derive(Clone, Copy, PartialEq, Eq, Debug)]
pub(crate) enum Primitive {
    /// One byte, 0 or 1.
    Boolean,
    /// A number of 32 bits.
    Int,
    /// A number of 64 bits.
    Long,
    /// The bytes of a string after their length.
    Bytes,
}

/// How a column's values are encoded, at every depth of its type. The flag of each says whether
/// null may stand there: then the schema is a union of null and another, in this order.
#[derive(Drop)]
pub(crate) enum Plan {
    /// Values without others in them.
    Primitive(bool, Primitive),
    /// Lists, and how their items are encoded.
    List(bool, Box<Plan>),
    /// Structs: the names of the fields, and how each field's values are encoded.
    Record(bool, Names, Vec<Plan>),
}

/// Whether null may stand there.
#[inline(always)]
pub(crate) fn is_nullable(plan: &Plan) -> bool
    ensures { result ≡ is_nullable_of plan.now }
{
    match plan {
        Plan::Primitive(nullable, _) => *nullable,
        Plan::List(nullable, _) => *nullable,
        Plan::Record(nullable, _, _) => *nullable,
    }
}
