//! Fields of rows, each read by a step, which is told from its schema once for all rows of a block.

ghost use Rattle.std.specs.Prelude.{◌≡◌, ◌≤◌, ◌+◌, ◌++◌, ◌∷◌, [], length, true, false, IfErr, OnOk};
ghost use Rattle.std.specs.List.{AllZip};
ghost use Rattle.arrow_core.specs.declared.slot.Slot.TheVariants.{Null as NullSlot};
ghost use Rattle.arrow_builders.specs.MutableArrays.{builder_kind, builder_slots, nodes};
ghost use Rattle.arrow_builders.specs.Shapes.{shape, nulls_at, AllTake, FitsIn};
ghost use Rattle.arrow_builders.specs.Tight.{IsTight};
ghost use Rattle.avro_reference.specs.Read.{push_one, read};
ghost use Rattle.avro_reference.specs.Listed.{read_union_of};
ghost use Rattle.avro_flat.specs.Decoding.{Gives, HasMemory};
ghost use Rattle.avro_decode.specs.Decoding.{GivesField, null_or, pair_at};
ghost use Rattle.avro_decode.specs.Growth.{SuitsPair, HasFlatKind, mask_pair, AllOffsetsReach};
ghost use Rattle.avro_decode.specs.Keeping.{Keeps, KeepsMember, KeepsField};
ghost use Rattle.avro_decode.specs.Masks.{mask};
ghost use Rattle.avro_decode.specs.Steps.{IsOfKind, StepFits, PairFits, PairStepFits, other_member, StepsFit};
ghost use Rattle.avro_decode.specs.Suits.{Suits};

use crate::decode::{decode_value, is_null_at};
use crate::fault::BlockFault;
use arrow_builders::MutableArray;
use avro_flat::{DecodeFault, decode_boolean, decode_int, decode_long, decode_string, pushed};
use avro_reference::ByteReader;
use avro_schema::{AvroField, AvroSchema};
use avro_types::is_null;

/// For how many fields there are steps. Wider rows are read by their schemas.
pub(crate) const MOST_STEPS: usize = 64;

/// The kinds of values that a step reads without looking at their schema, and `Any` for all others.
/// In a union with null only longs and strings are read so.
#[derive(Clone, Copy)]
pub enum Kind {
    /// True or false.
    Boolean,
    /// Numbers of 32 bits.
    Int,
    /// Numbers of 64 bits.
    Long,
    /// Strings.
    String,
    /// Values that are read by their schema.
    Any,
}

/// How the values of a field are read.
#[derive(Clone, Copy)]
pub enum Step {
    /// As values of a kind.
    Plain(Kind),
    /// As a union of null and a kind.
    Nullable { null_first: bool, kind: Kind },
}

/// The kind of a schema's values.
fn kind_of(schema: &AvroSchema) -> Kind
    ensures { IsOfKind result schema.now }
{
    match schema {
        AvroSchema::Boolean => Kind::Boolean,
        AvroSchema::Int(_) => Kind::Int,
        AvroSchema::Long(_) => Kind::Long,
        AvroSchema::String(_) => Kind::String,
        _ => Kind::Any,
    }
}

/// How the values of a schema are read.
fn step_of(schema: &AvroSchema) -> Step
    ensures { StepFits result schema.now }
{
    match schema {
        AvroSchema::Union(members) => step_of_union(members.as_slice()),
        _ => Step::Plain(kind_of(schema)),
    }
}

fn step_of_union(members: &[AvroSchema]) -> Step
    ensures { PairStepFits result members.now }
{
    let [first, second] = members else {
        return Step::Plain(Kind::Any);
    };
    if is_null(first) {
        Step::Nullable {
            null_first: true,
            kind: kind_of(second),
        }
    } else {
        Step::Nullable {
            null_first: false,
            kind: kind_of(first),
        }
    }
}

/// The steps of the fields, in order.
pub(crate) fn steps_of(avro_fields: &[AvroField]) -> [Step; MOST_STEPS]
    requires few { length avro_fields.now ≤ MOST_STEPS }
    ensures { StepsFit result avro_fields.now }
{
    let mut steps = [Step::Plain(Kind::Any); MOST_STEPS];
    for i in 0..avro_fields.len() {
        let field = &avro_fields[i];
        steps[i] = step_of(&field.schema);
    }
    steps
}

/// Reads a field's value by its step.
#[inline(always)]
pub(crate) fn decode_by_step<C: ByteReader>(
    cursor: &mut C,
    step: Step,
    schema: &AvroSchema,
    builder: &mut MutableArray,
) -> Result<(), BlockFault>
    requires fits { StepFits step schema.now }
    requires suits { Suits schema.now (shape builder.old) }
    requires tight { IsTight builder.old }
    requires offsets { AllOffsetsReach (mask true schema.now) (length (C.rest cursor.old))
        builder.old }
    ensures keeps { KeepsField C.rest C.shown C.calls C.identity (mask false schema.now)
        cursor.old cursor.new builder.old builder.new result }
    ensures reads { GivesField (λ _. (builder_slots builder.new, C.rest cursor.new)) result
        (push_one (builder_slots builder.old) (read schema.now (C.rest cursor.old))) }
{
    match decode_step(cursor, step, schema, builder) {
        Ok(()) => Ok(()),
        Err(DecodeFault::Bytes) => Err(BlockFault::Bytes),
        Err(DecodeFault::Memory) => Err(BlockFault::Memory),
    }
}

#[inline(always)]
fn decode_step<C: ByteReader>(
    cursor: &mut C,
    step: Step,
    schema: &AvroSchema,
    builder: &mut MutableArray,
) -> Result<(), DecodeFault>
    requires fits { StepFits step schema.now }
    requires suits { Suits schema.now (shape builder.old) }
    requires tight { IsTight builder.old }
    requires offsets { AllOffsetsReach (mask true schema.now) (length (C.rest cursor.old))
        builder.old }
    ensures keeps { Keeps C.rest C.shown C.calls C.identity (mask false schema.now)
        cursor.old cursor.new builder.old builder.new result }
    ensures reads { Gives (λ _. (builder_slots builder.new, C.rest cursor.new)) result
        (push_one (builder_slots builder.old) (read schema.now (C.rest cursor.old))) }
{
    match step {
        Step::Plain(kind) => decode_kind(cursor, kind, schema, builder),
        Step::Nullable { null_first, kind } => {
            let AvroSchema::Union(members) = schema else {
                unreachable!()
            };
            decode_nullable(cursor, null_first, kind, members.as_slice(), builder)
        }
    }
}

/// Reads a value of a kind.
// The patterns on the schema can't fail; they tell the proof which value is read.
#[inline(always)]
#[tactic(auto, using(crate::proofs::Sets::kinds))]
fn decode_kind<C: ByteReader>(
    cursor: &mut C,
    kind: Kind,
    schema: &AvroSchema,
    builder: &mut MutableArray,
) -> Result<(), DecodeFault>
    requires fits { IsOfKind kind schema.now }
    requires kind { HasFlatKind schema.now (builder_kind builder.old) }
    requires suits { Suits schema.now (shape builder.old) }
    requires tight { IsTight builder.old }
    requires offsets { AllOffsetsReach (mask true schema.now) (length (C.rest cursor.old))
        builder.old }
    ensures keeps { Keeps C.rest C.shown C.calls C.identity (mask false schema.now)
        cursor.old cursor.new builder.old builder.new result }
    ensures reads { Gives (λ _. (builder_slots builder.new, C.rest cursor.new)) result
        (push_one (builder_slots builder.old) (read schema.now (C.rest cursor.old))) }
{
    match kind {
        Kind::Boolean => {
            let AvroSchema::Boolean = schema else {
                unreachable!()
            };
            let MutableArray::Boolean(values) = builder else {
                unreachable!()
            };
            decode_boolean(cursor, values)
        }
        Kind::Int => {
            let AvroSchema::Int(_) = schema else {
                unreachable!()
            };
            let MutableArray::Int32(values) = builder else {
                unreachable!()
            };
            decode_int(cursor, values)
        }
        _ => decode_frequent(cursor, kind, schema, builder),
    }
}

/// Reads a value of a kind. Longs and strings are read with no look at their schema, and all others
/// by it.
// Beneath a union with null it is inlined a second time, where more kinds would be too much to
// inline.
#[inline(always)]
#[tactic(auto, using(crate::proofs::Sets::kinds))]
fn decode_frequent<C: ByteReader>(
    cursor: &mut C,
    kind: Kind,
    schema: &AvroSchema,
    builder: &mut MutableArray,
) -> Result<(), DecodeFault>
    requires fits { IsOfKind kind schema.now }
    requires kind { HasFlatKind schema.now (builder_kind builder.old) }
    requires suits { Suits schema.now (shape builder.old) }
    requires tight { IsTight builder.old }
    requires offsets { AllOffsetsReach (mask true schema.now) (length (C.rest cursor.old))
        builder.old }
    ensures keeps { Keeps C.rest C.shown C.calls C.identity (mask false schema.now)
        cursor.old cursor.new builder.old builder.new result }
    ensures reads { Gives (λ _. (builder_slots builder.new, C.rest cursor.new)) result
        (push_one (builder_slots builder.old) (read schema.now (C.rest cursor.old))) }
{
    match kind {
        Kind::Long => {
            let AvroSchema::Long(_) = schema else {
                unreachable!()
            };
            let MutableArray::Int64(values) = builder else {
                unreachable!()
            };
            decode_long(cursor, values)
        }
        Kind::String => {
            let AvroSchema::String(_) = schema else {
                unreachable!()
            };
            match builder {
                MutableArray::Utf8(values) => decode_string(cursor, values),
                MutableArray::LargeUtf8(values) => decode_string(cursor, values),
                _ => unreachable!(),
            }
        }
        _ => decode_any(cursor, schema, builder),
    }
}

/// Reads a value by its schema, in a call of its own, so that less is inlined where rows are read.
#[inline(never)]
fn decode_any<C: ByteReader>(
    cursor: &mut C,
    schema: &AvroSchema,
    builder: &mut MutableArray,
) -> Result<(), DecodeFault>
    requires suits { Suits schema.now (shape builder.old) }
    requires tight { IsTight builder.old }
    requires offsets { AllOffsetsReach (mask true schema.now) (length (C.rest cursor.old))
        builder.old }
    ensures keeps { Keeps C.rest C.shown C.calls C.identity (mask false schema.now)
        cursor.old cursor.new builder.old builder.new result }
    ensures reads { Gives (λ _. (builder_slots builder.new, C.rest cursor.new)) result
        (push_one (builder_slots builder.old) (read schema.now (C.rest cursor.old))) }
{
    decode_value(cursor, schema, builder)
}

/// Reads a value of a union of null and a kind.
#[inline(always)]
#[tactic(auto, using(crate::proofs::Sets::values))]
fn decode_nullable<C: ByteReader>(
    cursor: &mut C,
    null_first: bool,
    kind: Kind,
    members: &[AvroSchema],
    builder: &mut MutableArray,
) -> Result<(), DecodeFault>
    requires fits { PairFits null_first kind members.now }
    requires suits { SuitsPair members.now (shape builder.old) }
    requires tight { IsTight builder.old }
    requires offsets { AllOffsetsReach (mask_pair members.now) (length (C.rest cursor.old))
        builder.old }
    ensures keeps { Keeps C.rest C.shown C.calls C.identity (mask_pair members.now)
        cursor.old cursor.new builder.old builder.new result }
    ensures reads { Gives (λ _. (builder_slots builder.new, C.rest cursor.new)) result
        (push_one (builder_slots builder.old) (read_union_of members.now (C.rest cursor.old))) }
{
    let schema = other_of(members, null_first);
    let Some(index) = cursor.number() else {
        return Err(DecodeFault::Bytes);
    };
    decode_pair(cursor, index, null_first, kind, schema, builder)
}

/// The member beside null.
#[inline(always)]
fn other_of(members: &[AvroSchema], null_first: bool) -> &AvroSchema
    requires two { length members.now ≡ 2 }
    ensures { result.now ≡ other_member null_first members.now }
{
    if null_first { &members[1] } else { &members[0] }
}

/// Reads the value of the member at an index, where null is the first one or the second.
#[inline(always)]
#[tactic(auto, using(crate::proofs::Sets::values))]
fn decode_pair<C: ByteReader>(
    cursor: &mut C,
    index: i64,
    null_first: bool,
    kind: Kind,
    schema: &AvroSchema,
    builder: &mut MutableArray,
) -> Result<(), DecodeFault>
    requires fits { IsOfKind kind schema.now }
    requires suits { Suits schema.now (shape builder.old) }
    requires tight { IsTight builder.old }
    requires offsets { AllOffsetsReach (mask true schema.now) (length (C.rest cursor.old) + 1)
        builder.old }
    ensures keeps { KeepsMember C.rest C.shown C.calls C.identity (mask true schema.now)
        cursor.old cursor.new builder.old builder.new result }
    ensures reads { Gives (λ _. (builder_slots builder.new, C.rest cursor.new)) result
        (push_one (builder_slots builder.old)
        (pair_at index null_first schema.now (C.rest cursor.old))) }
{
    match is_null_at(index, null_first) {
        Some(null) => decode_member(cursor, null, kind, schema, builder),
        None => Err(DecodeFault::Bytes),
    }
}

/// Reads one member. A null has no bytes.
#[inline(always)]
#[tactic(auto, using(crate::proofs::Sets::values))]
fn decode_member<C: ByteReader>(
    cursor: &mut C,
    null: bool,
    kind: Kind,
    schema: &AvroSchema,
    builder: &mut MutableArray,
) -> Result<(), DecodeFault>
    requires fits { IsOfKind kind schema.now }
    requires suits { Suits schema.now (shape builder.old) }
    requires tight { IsTight builder.old }
    requires offsets { AllOffsetsReach (mask true schema.now) (length (C.rest cursor.old) + 1)
        builder.old }
    ensures keeps { KeepsMember C.rest C.shown C.calls C.identity (mask true schema.now)
        cursor.old cursor.new builder.old builder.new result }
    ensures reads { Gives (λ _. (builder_slots builder.new, C.rest cursor.new)) result
        (push_one (builder_slots builder.old)
        (null_or null schema.now (C.rest cursor.old))) }
{
    if null {
        push_null(builder)
    } else {
        decode_frequent(cursor, kind, schema, builder)
    }
}

/// Pushes a null, in a call of its own, so that less is inlined where rows are read.
#[inline(never)]
fn push_null(builder: &mut MutableArray) -> Result<(), DecodeFault>
    ensures shape { shape builder.new ≡ shape builder.old }
    ensures ok { OnOk result
        (builder_slots builder.new ≡ builder_slots builder.old ++ NullSlot ∷ []) }
    ensures tight { OnOk result (IsTight builder.old → IsTight builder.new) }
    ensures err { IfErr result (λ e. e ≡ DecodeFault.Memory) }
    ensures takes { AllTake (nulls_at 1 builder.old) (nodes builder.old) (nodes builder.new) }
    ensures has_capacity { AllZip FitsIn (nulls_at 1 builder.old) (nodes builder.old)
        → HasMemory result }
{
    pushed(builder.push_null())
}
