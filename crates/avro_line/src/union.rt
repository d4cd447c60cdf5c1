//! The members of unions.
ghost use Rattle.std.specs.Prelude.{IfOk};
ghost use Rattle.avro_line.specs.Values.{TakesMember};

use crate::given_up::GivenUp;
use avro_reference::ByteReader;
use avro_schema::AvroSchema;

/// The member of a union of two whose number stands there, 0 or 1.
#[inline(always)]
pub(crate) fn take_member<'s, A: ByteReader>(
    cursor: &mut A,
    members: &'s [AvroSchema],
) -> Result<&'s AvroSchema, GivenUp>
    ensures { IfOk result (λ member. TakesMember members.now
        (A.rest cursor.old) (A.rest cursor.new) member.now) }
{
    let [first, second] = members else {
        return Err(GivenUp);
    };
    match cursor.number() {
        Some(0) => Ok(first),
        Some(1) => Ok(second),
        _ => Err(GivenUp),
    }
}
