//! Where null may stand under a schema.
ghost use Rattle.std.specs.Prelude.{◌≡◌, IsTrue, IfSome, length};
ghost use Rattle.std.specs.Bool.{OnTrue};
ghost use Rattle.avro_schema.specs.Encodes.{is_null as is_null_schema};
ghost use Rattle.avro_encode.specs.Flat.{HasNoParts};
ghost use Rattle.avro_encode.specs.Listed.{IsBesideNull, index_byte};
ghost use Rattle.avro_encode.specs.Nullable.{IsOptional, TellsNulls};

use avro_schema::AvroSchema;

/// Where null may stand under a schema.
#[derive(Clone, Copy)]
pub(crate) enum Nulls {
    /// Nowhere, since it is no union.
    Required,
    /// Beside the other member of a union, and whether it comes first there.
    Optional(bool),
}

/// Whether a schema is null's.
#[inline(always)]
pub(crate) fn is_null(schema: &AvroSchema) -> bool
    ensures { result ≡ is_null_schema schema.now }
{
    matches!(schema, AvroSchema::Null)
}

/// Whether null is the first member of a union of two, and the member beside it.
#[inline(always)]
pub(crate) fn beside_null(members: &[AvroSchema]) -> (bool, &AvroSchema)
    requires { length members.now ≡ 2 }
    ensures { IsBesideNull members.now result.0 result.1.now }
{
    let [first, second] = members else {
        unreachable!()
    };
    if is_null(first) {
        (true, second)
    } else {
        (false, first)
    }
}

/// The byte of the index at which null stands, or of a value's member beside it.
#[inline(always)]
pub(crate) fn index_byte(null_first: bool, held: bool) -> u8
    ensures { result ≡ index_byte null_first held }
{
    if held {
        if null_first { 2 } else { 0 }
    } else if null_first {
        0
    } else {
        2
    }
}

/// Whether a schema is no array, no record and no union. Of a map, which isn't written, it is true.
fn has_no_parts(schema: &AvroSchema) -> bool
    ensures { OnTrue result (HasNoParts schema.now) }
{
    match schema {
        AvroSchema::Array(_) => false,
        AvroSchema::Record(_) => false,
        AvroSchema::Union(_) => false,
        _ => true,
    }
}

/// Whether null is the first of a union's two members, where the other has no schemas in it.
fn null_first_of(members: &[AvroSchema]) -> Option<bool>
    ensures { IfSome result (IsOptional members.now) }
{
    if members.len() != 2 {
        return None;
    }
    let (null_first, member) = beside_null(members);
    if has_no_parts(member) {
        Some(null_first)
    } else {
        None
    }
}

/// Where null may stand under a schema whose values have nothing beneath them; `None` of others.
pub(crate) fn nulls_of(schema: &AvroSchema) -> Option<Nulls>
    ensures { IfSome result (TellsNulls schema.now) }
{
    match schema {
        AvroSchema::Union(members) => {
            let null_first = null_first_of(members.as_slice())?;
            Some(Nulls::Optional(null_first))
        }
        AvroSchema::Array(_) => None,
        AvroSchema::Record(_) => None,
        _ => Some(Nulls::Required),
    }
}
