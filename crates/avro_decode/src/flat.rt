//! Flat values, each into the builder of its kind.

ghost use Rattle.std.specs.Prelude.{length, ◌≡◌, ◌∷◌, [], true, false};
ghost use Rattle.arrow_builders.specs.MutableArrays.{builder_slots, builder_kind};
ghost use Rattle.arrow_builders.specs.Shapes.{shape};
ghost use Rattle.avro_schema.specs.declared.schema.Schema.{Fixed as FixedSchema};
ghost use Rattle.avro_schema.specs.Carried.{IsFixedSize};
ghost use Rattle.avro_types.specs.Inference.{HasNoParts};
ghost use Rattle.avro_reference.specs.Read.{push_one, read, fixed_at};
ghost use Rattle.avro_flat.specs.Decoding.{Gives};
ghost use Rattle.avro_decode.specs.Growth.{AllOffsetsReach, HasFlatKind, fixed_kind};
ghost use Rattle.avro_decode.specs.Keeping.{Keeps};
ghost use Rattle.avro_decode.specs.Masks.{mask};
ghost use Rattle.avro_decode.specs.Suits.{Suits};

use arrow_builders::MutableArray;
use avro_flat::{
    DecodeFault, decode_binary, decode_boolean, decode_decimal, decode_duration, decode_fixed,
    decode_fixed_decimal, decode_int, decode_long, decode_string, decode_symbol,
};
use avro_reference::ByteReader;
use avro_schema::{AvroSchema, Fixed, FixedLogical};

/// Reads one value of a flat schema into one more slot.
#[inline(always)]
#[tactic(auto, using(crate::proofs::Sets::kinds))]
pub fn decode_flat<C: ByteReader>(
    cursor: &mut C,
    schema: &AvroSchema,
    builder: &mut MutableArray,
) -> Result<(), DecodeFault>
    requires flat { HasNoParts schema.now }
    requires kind { HasFlatKind schema.now (builder_kind builder.old) }
    requires suits { Suits schema.now (shape builder.old) }
    requires offsets { AllOffsetsReach (mask true schema.now) (length (C.rest cursor.old))
        builder.old }
    ensures keeps { Keeps C.rest C.shown C.calls C.identity (mask false schema.now)
        cursor.old cursor.new builder.old builder.new result }
    ensures reads { Gives (λ _. (builder_slots builder.new, C.rest cursor.new)) result
        (push_one (builder_slots builder.old) (read schema.now (C.rest cursor.old))) }
{
    match schema {
        AvroSchema::Boolean => {
            let MutableArray::Boolean(values) = builder else {
                unreachable!()
            };
            decode_boolean(cursor, values)
        }
        AvroSchema::Int(_) => {
            let MutableArray::Int32(values) = builder else {
                unreachable!()
            };
            decode_int(cursor, values)
        }
        AvroSchema::Long(_) => {
            let MutableArray::Int64(values) = builder else {
                unreachable!()
            };
            decode_long(cursor, values)
        }
        AvroSchema::String(_) => match builder {
            MutableArray::Utf8(values) => decode_string(cursor, values),
            MutableArray::LargeUtf8(values) => decode_string(cursor, values),
            _ => unreachable!(),
        },
        AvroSchema::Bytes(None) => match builder {
            MutableArray::Binary(values) => decode_binary(cursor, values),
            MutableArray::LargeBinary(values) => decode_binary(cursor, values),
            _ => unreachable!(),
        },
        AvroSchema::Bytes(Some(_)) => {
            let MutableArray::Int128(values) = builder else {
                unreachable!()
            };
            decode_decimal(cursor, values)
        }
        AvroSchema::Fixed(fixed) => decode_fixed_type(cursor, fixed, builder),
        AvroSchema::Enum(enumeration) => {
            let MutableArray::Dictionary(values) = builder else {
                unreachable!()
            };
            decode_symbol(cursor, enumeration.symbols.as_slice(), values)
        }
        _ => unreachable!(),
    }
}

/// Reads a value of a fixed type, of any logical type, into one more slot.
#[inline(always)]
#[tactic(auto, using(crate::proofs::Sets::kinds))]
fn decode_fixed_type<C: ByteReader>(
    cursor: &mut C,
    fixed: &Fixed,
    builder: &mut MutableArray,
) -> Result<(), DecodeFault>
    requires size { IsFixedSize fixed.now.size fixed.now.logical }
    requires kind { builder_kind builder.old ≡ fixed_kind fixed.now.logical }
    requires suits { Suits (FixedSchema fixed.now) (shape builder.old) }
    ensures keeps { Keeps C.rest C.shown C.calls C.identity (true ∷ []) cursor.old cursor.new
        builder.old builder.new result }
    ensures reads { Gives (λ _. (builder_slots builder.new, C.rest cursor.new)) result
        (push_one (builder_slots builder.old)
        (fixed_at fixed.now.size fixed.now.logical (C.rest cursor.old))) }
{
    match fixed.logical {
        None => {
            let MutableArray::FixedSizeBinary(values) = builder else {
                unreachable!()
            };
            decode_fixed(cursor, fixed.size, values)
        }
        Some(FixedLogical::Decimal(_, _)) => {
            let MutableArray::Int128(values) = builder else {
                unreachable!()
            };
            decode_fixed_decimal(cursor, fixed.size, values)
        }
        Some(FixedLogical::Duration) => {
            let MutableArray::MonthDayNano(values) = builder else {
                unreachable!()
            };
            decode_duration(cursor, values)
        }
    }
}
