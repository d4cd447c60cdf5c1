//! Many flat values of one column: the kind is matched once, and then one loop of `avro_flat` reads
//! them all, outside of the cycle of calls.

ghost use Rattle.std.specs.Prelude.{◌≡◌, ◌∷◌, [], length, true, false};
ghost use Rattle.arrow_builders.specs.MutableArrays.{builder_slots, builder_kind};
ghost use Rattle.arrow_builders.specs.Shapes.{shape};
ghost use Rattle.arrow_builders.specs.Tight.{IsTight};
ghost use Rattle.avro_schema.specs.declared.schema.Schema.{Fixed as FixedSchema};
ghost use Rattle.avro_schema.specs.Carried.{IsFixedSize};
ghost use Rattle.avro_reference.specs.Read.{items, read, fixed_at};
ghost use Rattle.avro_flat.specs.Decoding.{Gives};
ghost use Rattle.avro_decode.specs.Growth.{AllOffsetsReach, HasFlatKind, fixed_kind};
ghost use Rattle.avro_decode.specs.Keeping.{Keeps};
ghost use Rattle.avro_decode.specs.Masks.{mask};
ghost use Rattle.avro_decode.specs.Suits.{Suits};
ghost use Rattle.avro_types.specs.Inference.{HasNoParts};

use arrow_builders::MutableArray;
use avro_flat::{
    DecodeFault, decode_binaries, decode_booleans, decode_decimals, decode_durations,
    decode_fixed_decimals, decode_fixed_values, decode_ints, decode_longs, decode_strings,
    decode_symbols,
};
use avro_reference::ByteReader;
use avro_schema::{AvroSchema, Fixed, FixedLogical};

/// Reads so many values of a flat schema, each into one more slot.
#[tactic(auto, using(crate::proofs::Sets::kinds))]
pub fn decode_flat_items<C: ByteReader>(
    cursor: &mut C,
    schema: &AvroSchema,
    count: u64,
    builder: &mut MutableArray,
) -> Result<(), DecodeFault>
    requires flat { HasNoParts schema.now }
    requires kind { HasFlatKind schema.now (builder_kind builder.old) }
    requires suits { Suits schema.now (shape builder.old) }
    requires tight { IsTight builder.old }
    requires offsets { AllOffsetsReach (mask true schema.now) (length (C.rest cursor.old))
        builder.old }
    ensures keeps { Keeps C.rest C.shown C.calls C.identity (mask false schema.now)
        cursor.old cursor.new builder.old builder.new result }
    ensures reads { Gives (λ _. (builder_slots builder.new, C.rest cursor.new)) result
        (items (read schema.now) count (builder_slots builder.old) (C.rest cursor.old)) }
{
    match schema {
        AvroSchema::Boolean => {
            let MutableArray::Boolean(values) = builder else {
                unreachable!()
            };
            decode_booleans(cursor, count, values)
        }
        AvroSchema::Int(_) => {
            let MutableArray::Int32(values) = builder else {
                unreachable!()
            };
            decode_ints(cursor, count, values)
        }
        AvroSchema::Long(_) => {
            let MutableArray::Int64(values) = builder else {
                unreachable!()
            };
            decode_longs(cursor, count, values)
        }
        AvroSchema::String(_) => match builder {
            MutableArray::Utf8(values) => decode_strings(cursor, count, values),
            MutableArray::LargeUtf8(values) => decode_strings(cursor, count, values),
            _ => unreachable!(),
        },
        AvroSchema::Bytes(None) => match builder {
            MutableArray::Binary(values) => decode_binaries(cursor, count, values),
            MutableArray::LargeBinary(values) => decode_binaries(cursor, count, values),
            _ => unreachable!(),
        },
        AvroSchema::Bytes(Some(_)) => {
            let MutableArray::Int128(values) = builder else {
                unreachable!()
            };
            decode_decimals(cursor, count, values)
        }
        AvroSchema::Fixed(fixed) => decode_fixed_items(cursor, fixed, count, builder),
        AvroSchema::Enum(enumeration) => {
            let MutableArray::Dictionary(values) = builder else {
                unreachable!()
            };
            decode_symbols(cursor, enumeration.symbols.as_slice(), count, values)
        }
        _ => unreachable!(),
    }
}

/// Reads so many values of a fixed type, of any logical type, each into one more slot.
#[tactic(auto, using(crate::proofs::Sets::kinds))]
fn decode_fixed_items<C: ByteReader>(
    cursor: &mut C,
    fixed: &Fixed,
    count: u64,
    builder: &mut MutableArray,
) -> Result<(), DecodeFault>
    requires size { IsFixedSize fixed.now.size fixed.now.logical }
    requires kind { builder_kind builder.old ≡ fixed_kind fixed.now.logical }
    requires suits { Suits (FixedSchema fixed.now) (shape builder.old) }
    ensures keeps { Keeps C.rest C.shown C.calls C.identity (true ∷ []) cursor.old cursor.new
        builder.old builder.new result }
    ensures reads { Gives (λ _. (builder_slots builder.new, C.rest cursor.new)) result
        (items (fixed_at fixed.now.size fixed.now.logical) count (builder_slots builder.old)
        (C.rest cursor.old)) }
{
    match fixed.logical {
        None => {
            let MutableArray::FixedSizeBinary(values) = builder else {
                unreachable!()
            };
            decode_fixed_values(cursor, fixed.size, count, values)
        }
        Some(FixedLogical::Decimal(_, _)) => {
            let MutableArray::Int128(values) = builder else {
                unreachable!()
            };
            decode_fixed_decimals(cursor, fixed.size, count, values)
        }
        Some(FixedLogical::Duration) => {
            let MutableArray::MonthDayNano(values) = builder else {
                unreachable!()
            };
            decode_durations(cursor, count, values)
        }
    }
}
