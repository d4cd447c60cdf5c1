//! Kept values, from the start of the bytes into builders.

ghost use Rattle.std.specs.Prelude.{◌+◌, ◌≤◌, ◌<◌, length, ◌≡◌, ◌≢◌, ◌++◌, ◌∷◌, [], map, drop, true, false, pos, OnOk, IfErr};
ghost use Rattle.arrow_core.specs.Numbers.{greatest_offset};
ghost use Rattle.arrow_core.specs.declared.slot.Slot.TheVariants.{List as ListSlot};
ghost use Rattle.arrow_builders.specs.Nested.{items_of, lists_node};
ghost use Rattle.arrow_builders.specs.Nodes.{Takes};
ghost use Rattle.arrow_builders.specs.MutableArrays.{builder_kind, builder_slots};
ghost use Rattle.arrow_builders.specs.Shapes.{shape};
ghost use Rattle.arrow_builders.specs.declared.array.MutableArray.{List, LargeList, Struct};
ghost use Rattle.avro_schema.specs.declared.schema.Schema.{Array};
ghost use Rattle.avro_reference.specs.Read.{push_one, items, block_items, read};
ghost use Rattle.avro_schema.specs.Carried.{IsNoUnion};
ghost use Rattle.avro_reference.specs.Listed.{read_union_of, read_fields_of, read_record_of};
ghost use Rattle.avro_reference.specs.Costs.{passed, Moves, CostsKept};
ghost use Rattle.avro_flat.specs.Decoding.{Gives, HasMemory};
ghost use Rattle.avro_decode.specs.Decoding.{GivesFields, null_or, null_at, pair_at, sized_items, all_blocks};
ghost use Rattle.avro_decode.specs.Keeping.{Keeps, KeepsMember};
ghost use Rattle.avro_decode.specs.Masks.{mask};
ghost use Rattle.avro_decode.specs.Growth.{mask_pair, masks, AllOffsetsReach, ChildrenGrow, ChildrenReach, ChildrenHaveSpare};
ghost use Rattle.avro_decode.specs.Suits.{Suits, AllSuit};
ghost use Rattle.avro_decode.specs.Growth.{SuitsPair, HasKindOf};
ghost use Rattle.arrow_builders.specs.Tight.{IsTight, AllTight};

use crate::flat::decode_flat;
use crate::items::decode_flat_items;
use arrow_builders::{
    DynMutableLargeListArray, DynMutableListArray, DynMutableStructArray, MutableArray,
};
use avro_flat::{DecodeFault, pushed};
use avro_reference::ByteReader;
use avro_schema::{AvroField, AvroSchema};
use avro_types::is_null;

/// Reads one value of a schema into one more slot.
// It is inlined wherever a value is read, so that a flat one takes no call into the cycle. What a
// union holds is read by a call: `decode_union` is too large to be inlined.
#[cycle(decode)]
#[inline(always)]
#[tactic(auto, using(crate::proofs::Sets::values))]
pub fn decode_value<C: ByteReader>(
    cursor: &mut C,
    schema: &AvroSchema,
    builder: &mut MutableArray,
) -> Result<(), DecodeFault>
    requires kind { HasKindOf schema.now (builder_kind builder.old) }
    requires suits { Suits schema.now (shape builder.old) }
    requires tight { IsTight builder.old }
    requires offsets { AllOffsetsReach (mask true schema.now) (length (C.rest cursor.old))
        builder.old }
    ensures keeps { Keeps C.rest C.shown C.calls C.identity (mask false schema.now)
        cursor.old cursor.new builder.old builder.new result }
    ensures shorter { OnOk result (length (C.rest cursor.new) < length (C.rest cursor.old)) }
    ensures reads { Gives (λ _. (builder_slots builder.new, C.rest cursor.new)) result
        (push_one (builder_slots builder.old) (read schema.now (C.rest cursor.old))) }
{
    match schema {
        AvroSchema::Union(members) => decode_union(cursor, members.as_slice(), builder),
        _ => decode_no_union(cursor, schema, builder),
    }
}

/// Reads one value of a schema that is no union.
#[cycle(decode)]
#[inline(always)]
#[tactic(auto, using(crate::proofs::Sets::values))]
fn decode_no_union<C: ByteReader>(
    cursor: &mut C,
    schema: &AvroSchema,
    builder: &mut MutableArray,
) -> Result<(), DecodeFault>
    requires no_union { IsNoUnion schema.now }
    requires kind { HasKindOf schema.now (builder_kind builder.old) }
    requires suits { Suits schema.now (shape builder.old) }
    requires tight { IsTight builder.old }
    requires offsets { AllOffsetsReach (mask true schema.now) (length (C.rest cursor.old))
        builder.old }
    ensures keeps { Keeps C.rest C.shown C.calls C.identity (mask false schema.now)
        cursor.old cursor.new builder.old builder.new result }
    ensures shorter { OnOk result (length (C.rest cursor.new) < length (C.rest cursor.old)) }
    ensures reads { Gives (λ _. (builder_slots builder.new, C.rest cursor.new)) result
        (push_one (builder_slots builder.old) (read schema.now (C.rest cursor.old))) }
{
    match schema {
        AvroSchema::Array(item) => match builder {
            MutableArray::List(lists) => decode_array(cursor, item.get(), lists),
            MutableArray::LargeList(lists) => decode_large_array(cursor, item.get(), lists),
            _ => unreachable!(),
        },
        AvroSchema::Record(record) => {
            let MutableArray::Struct(records) = builder else {
                unreachable!()
            };
            decode_record(cursor, record.fields.as_slice(), records)
        }
        _ => decode_flat(cursor, schema, builder),
    }
}

#[cycle(decode)]
#[inline(never)]
#[tactic(auto, using(crate::proofs::Sets::values))]
fn decode_union<C: ByteReader>(
    cursor: &mut C,
    members: &[AvroSchema],
    builder: &mut MutableArray,
) -> Result<(), DecodeFault>
    requires suits { SuitsPair members.now (shape builder.old) }
    requires tight { IsTight builder.old }
    requires offsets { AllOffsetsReach (mask_pair members.now) (length (C.rest cursor.old))
        builder.old }
    ensures keeps { Keeps C.rest C.shown C.calls C.identity (mask_pair members.now)
        cursor.old cursor.new builder.old builder.new result }
    ensures shorter { OnOk result (length (C.rest cursor.new) < length (C.rest cursor.old)) }
    ensures reads { Gives (λ _. (builder_slots builder.new, C.rest cursor.new)) result
        (push_one (builder_slots builder.old) (read_union_of members.now (C.rest cursor.old))) }
{
    let [first, second] = members else {
        unreachable!()
    };
    let Some(index) = cursor.number() else {
        return Err(DecodeFault::Bytes);
    };
    if is_null(first) {
        decode_pair(cursor, index, true, second, builder)
    } else {
        decode_pair(cursor, index, false, first, builder)
    }
}

/// Reads the value of the member at an index, where null is the first one or the second.
#[cycle(decode)]
#[inline(always)]
#[tactic(auto, using(crate::proofs::Sets::values))]
fn decode_pair<C: ByteReader>(
    cursor: &mut C,
    index: i64,
    null_first: bool,
    schema: &AvroSchema,
    builder: &mut MutableArray,
) -> Result<(), DecodeFault>
    requires no_union { IsNoUnion schema.now }
    requires suits { Suits schema.now (shape builder.old) }
    requires tight { IsTight builder.old }
    requires offsets { AllOffsetsReach (mask true schema.now) (length (C.rest cursor.old) + 1)
        builder.old }
    ensures keeps { KeepsMember C.rest C.shown C.calls C.identity (mask true schema.now)
        cursor.old cursor.new builder.old builder.new result }
    ensures reads { Gives (λ _. (builder_slots builder.new, C.rest cursor.new)) result
        (push_one (builder_slots builder.old)
        (pair_at index null_first schema.now (C.rest cursor.old))) }
{
    match is_null_at(index, null_first) {
        Some(null) => decode_member(cursor, null, schema, builder),
        None => Err(DecodeFault::Bytes),
    }
}

/// Whether the member at an index is null, where null is the first one or the second; None where
/// there is no such member.
#[inline(always)]
pub fn is_null_at(index: i64, null_first: bool) -> Option<bool>
    ensures { result ≡ null_at index null_first }
{
    if index == 0 {
        Some(null_first)
    } else if index == 1 {
        Some(!null_first)
    } else {
        None
    }
}

/// Reads one member. A null has no bytes.
#[cycle(decode)]
#[inline(always)]
#[tactic(auto, using(crate::proofs::Sets::values))]
fn decode_member<C: ByteReader>(
    cursor: &mut C,
    null: bool,
    schema: &AvroSchema,
    builder: &mut MutableArray,
) -> Result<(), DecodeFault>
    requires no_union { IsNoUnion schema.now }
    requires suits { Suits schema.now (shape builder.old) }
    requires tight { IsTight builder.old }
    requires offsets { AllOffsetsReach (mask true schema.now) (length (C.rest cursor.old) + 1)
        builder.old }
    ensures keeps { KeepsMember C.rest C.shown C.calls C.identity (mask true schema.now)
        cursor.old cursor.new builder.old builder.new result }
    ensures reads { Gives (λ _. (builder_slots builder.new, C.rest cursor.new)) result
        (push_one (builder_slots builder.old) (null_or null schema.now (C.rest cursor.old))) }
{
    if null {
        pushed(builder.push_null())
    } else {
        decode_no_union(cursor, schema, builder)
    }
}

/// Reads an array: the child takes its items, and then the list of them is pushed.
#[cycle(decode)]
#[inline(never)]
#[tactic(auto, using(crate::proofs::Sets::values))]
fn decode_array<C: ByteReader>(
    cursor: &mut C,
    item: &AvroSchema,
    lists: &mut DynMutableListArray,
) -> Result<(), DecodeFault>
    requires suits { Suits (Array item.now) (shape (List lists.old)) }
    requires tight { IsTight (List lists.old) }
    requires offsets { AllOffsetsReach (mask true (Array item.now)) (length (C.rest cursor.old))
        (List lists.old) }
    ensures keeps { Keeps C.rest C.shown C.calls C.identity (mask false (Array item.now))
        cursor.old cursor.new (List lists.old) (List lists.new) result }
    ensures shorter { OnOk result (length (C.rest cursor.new) < length (C.rest cursor.old)) }
    ensures reads { Gives (λ _. (builder_slots (List lists.new), C.rest cursor.new)) result
        (push_one (builder_slots (List lists.old)) (read (Array item.now) (C.rest cursor.old))) }
{
    decode_blocks(cursor, item, lists.mut_values())?;
    pushed_list(lists)
}

/// The same where offsets have 64 bits.
#[cycle(decode)]
#[inline(never)]
#[tactic(auto, using(crate::proofs::Sets::values))]
fn decode_large_array<C: ByteReader>(
    cursor: &mut C,
    item: &AvroSchema,
    lists: &mut DynMutableLargeListArray,
) -> Result<(), DecodeFault>
    requires suits { Suits (Array item.now) (shape (LargeList lists.old)) }
    requires tight { IsTight (LargeList lists.old) }
    requires offsets { AllOffsetsReach (mask true (Array item.now)) (length (C.rest cursor.old))
        (LargeList lists.old) }
    ensures keeps { Keeps C.rest C.shown C.calls C.identity (mask false (Array item.now))
        cursor.old cursor.new (LargeList lists.old) (LargeList lists.new) result }
    ensures shorter { OnOk result (length (C.rest cursor.new) < length (C.rest cursor.old)) }
    ensures reads { Gives (λ _. (builder_slots (LargeList lists.new), C.rest cursor.new)) result
        (push_one (builder_slots (LargeList lists.old))
        (read (Array item.now) (C.rest cursor.old))) }
{
    decode_blocks(cursor, item, lists.mut_values())?;
    pushed_large_list(lists)
}

/// Reads blocks of items, up to the number 0 that ends them.
#[cycle(decode)]
#[inline(always)]
#[tactic(auto, using(crate::proofs::Sets::values))]
fn decode_blocks<C: ByteReader>(
    cursor: &mut C,
    item: &AvroSchema,
    child: &mut MutableArray,
) -> Result<(), DecodeFault>
    requires suits { Suits item.now (shape child.old) }
    requires tight { IsTight child.old }
    requires offsets { AllOffsetsReach (mask true item.now) (length (C.rest cursor.old))
        child.old }
    ensures keeps { Keeps C.rest C.shown C.calls C.identity (mask false item.now) cursor.old cursor.new
        child.old child.new result }
    ensures shorter { OnOk result (length (C.rest cursor.new) < length (C.rest cursor.old)) }
    ensures reads { Gives (λ _. (builder_slots child.new, C.rest cursor.new)) result
        (all_blocks (read item.now) (builder_slots child.old) (C.rest cursor.old)) }
{
    loop {
        let Some(count) = cursor.number() else {
            return Err(DecodeFault::Bytes);
        };
        if count == 0 {
            return Ok(());
        }
        decode_block_items(cursor, item, count, child)?;
    }
}

/// Reads the items of a block after its count; where this is below 0, after their size too.
#[cycle(decode)]
#[tactic(auto, using(crate::proofs::Sets::values))]
fn decode_block_items<C: ByteReader>(
    cursor: &mut C,
    item: &AvroSchema,
    count: i64,
    child: &mut MutableArray,
) -> Result<(), DecodeFault>
    requires some { count ≢ pos 0 }
    requires suits { Suits item.now (shape child.old) }
    requires tight { IsTight child.old }
    requires offsets { AllOffsetsReach (mask true item.now) (length (C.rest cursor.old))
        child.old }
    ensures keeps { Keeps C.rest C.shown C.calls C.identity (mask false item.now) cursor.old cursor.new
        child.old child.new result }
    ensures reads { Gives (λ _. (builder_slots child.new, C.rest cursor.new)) result
        (block_items (read item.now) count (builder_slots child.old) (C.rest cursor.old)) }
{
    if count > 0 {
        decode_items(cursor, item, count as u64, child)
    } else {
        let Some(items) = count.checked_neg() else {
            return Err(DecodeFault::Bytes);
        };
        decode_sized(cursor, item, items as u64, child)
    }
}

#[cycle(decode)]
#[tactic(auto, using(crate::proofs::Sets::values))]
fn decode_sized<C: ByteReader>(
    cursor: &mut C,
    item: &AvroSchema,
    count: u64,
    child: &mut MutableArray,
) -> Result<(), DecodeFault>
    requires suits { Suits item.now (shape child.old) }
    requires tight { IsTight child.old }
    requires offsets { AllOffsetsReach (mask true item.now) (length (C.rest cursor.old))
        child.old }
    ensures keeps { Keeps C.rest C.shown C.calls C.identity (mask false item.now) cursor.old cursor.new
        child.old child.new result }
    ensures reads { Gives (λ _. (builder_slots child.new, C.rest cursor.new)) result
        (sized_items (read item.now) count (builder_slots child.old) (C.rest cursor.old)) }
{
    let Some(size) = cursor.number() else {
        return Err(DecodeFault::Bytes);
    };
    let start = cursor.left();
    decode_items(cursor, item, count, child)?;
    if usize::try_from(size) != Ok(start - cursor.left()) {
        return Err(DecodeFault::Bytes);
    }
    Ok(())
}

/// Reads so many values of one schema. Flat ones are read in a loop outside of the cycle.
#[cycle(decode)]
#[tactic(auto, using(crate::proofs::Sets::values))]
pub fn decode_items<C: ByteReader>(
    cursor: &mut C,
    item: &AvroSchema,
    count: u64,
    child: &mut MutableArray,
) -> Result<(), DecodeFault>
    requires suits { Suits item.now (shape child.old) }
    requires tight { IsTight child.old }
    requires offsets { AllOffsetsReach (mask true item.now) (length (C.rest cursor.old))
        child.old }
    ensures keeps { Keeps C.rest C.shown C.calls C.identity (mask false item.now) cursor.old cursor.new
        child.old child.new result }
    ensures reads { Gives (λ _. (builder_slots child.new, C.rest cursor.new)) result
        (items (read item.now) count (builder_slots child.old) (C.rest cursor.old)) }
{
    match item {
        AvroSchema::Union(_) | AvroSchema::Array(_) | AvroSchema::Record(_) => {
            decode_nested_items(cursor, item, count, child)
        }
        _ => decode_flat_items(cursor, item, count, child),
    }
}

#[cycle(decode)]
#[tactic(auto, using(crate::proofs::Sets::values))]
fn decode_nested_items<C: ByteReader>(
    cursor: &mut C,
    item: &AvroSchema,
    count: u64,
    child: &mut MutableArray,
) -> Result<(), DecodeFault>
    requires suits { Suits item.now (shape child.old) }
    requires tight { IsTight child.old }
    requires offsets { AllOffsetsReach (mask true item.now) (length (C.rest cursor.old))
        child.old }
    ensures keeps { Keeps C.rest C.shown C.calls C.identity (mask false item.now) cursor.old cursor.new
        child.old child.new result }
    ensures reads { Gives (λ _. (builder_slots child.new, C.rest cursor.new)) result
        (items (read item.now) count (builder_slots child.old) (C.rest cursor.old)) }
{
    for _ in 0..count {
        decode_value(cursor, item, child)?;
    }
    Ok(())
}

/// Reads a record: each child takes its field, and then the record of them is pushed.
#[cycle(decode)]
#[inline(never)]
#[tactic(auto, using(crate::proofs::Sets::values))]
fn decode_record<C: ByteReader>(
    cursor: &mut C,
    fields: &[AvroField],
    records: &mut DynMutableStructArray,
) -> Result<(), DecodeFault>
    requires some { 0 < length fields.now }
    requires suits { AllSuit fields.now records.old.values.items }
    requires tight { IsTight (Struct records.old) }
    requires offsets { AllOffsetsReach (true ∷ masks true fields.now) (length (C.rest cursor.old))
        (Struct records.old) }
    ensures keeps { Keeps C.rest C.shown C.calls C.identity (true ∷ masks false fields.now)
        cursor.old cursor.new (Struct records.old) (Struct records.new) result }
    ensures shorter { OnOk result (length (C.rest cursor.new) < length (C.rest cursor.old)) }
    ensures reads { Gives (λ _. (builder_slots (Struct records.new), C.rest cursor.new)) result
        (push_one (builder_slots (Struct records.old)) (read_record_of
        fields.now (C.rest cursor.old))) }
{
    decode_fields(cursor, fields, records)?;
    pushed(records.try_push_valid())
}

#[cycle(decode)]
#[tactic(auto, using(crate::proofs::Sets::values))]
fn decode_fields<C: ByteReader>(
    cursor: &mut C,
    fields: &[AvroField],
    records: &mut DynMutableStructArray,
) -> Result<(), DecodeFault>
    requires suits { AllSuit fields.now records.old.values.items }
    requires tight { AllTight (length records.old.marks.booleans) records.old.values.items }
    requires offsets { ChildrenReach (length (C.rest cursor.old))
        fields.now records.old.values.items }
    ensures marks { records.new.marks ≡ records.old.marks }
    ensures shapes { map shape records.new.values.items ≡ map shape records.old.values.items }
    ensures tight { OnOk result
        (AllTight (length records.old.marks.booleans + 1) records.new.values.items) }
    ensures grows { ChildrenGrow (passed (C.rest cursor.old) (C.rest cursor.new)) fields.now
        records.old.values.items records.new.values.items }
    ensures has_capacity { ChildrenHaveSpare (length (C.rest cursor.old))
        fields.now records.old.values.items → HasMemory result }
    ensures same { C.identity cursor.new ≡ C.identity cursor.old }
    ensures moves { Moves C.rest C.calls cursor.old cursor.new }
    ensures shorter { OnOk result (length (C.rest cursor.new) + length
        fields.now ≤ length (C.rest cursor.old)) }
    ensures costs { OnOk result (CostsKept C.rest C.shown C.calls cursor.old cursor.new) }
    ensures reads { GivesFields (map builder_slots records.old.values.items)
        (map builder_slots records.new.values.items) (C.rest cursor.new) result
        (read_fields_of fields.now [] (C.rest cursor.old)) }
{
    for i in 0..fields.len() {
        decode_value(cursor, &fields[i].schema, records.mut_values(i))?;
    }
    Ok(())
}

/// Pushes the list of what the child took. Offsets of 32 bits reach.
fn pushed_list(lists: &mut DynMutableListArray) -> Result<(), DecodeFault>
    requires order { items_of lists.old.lists.lens ≤ length (builder_slots lists.old.values.value) }
    requires reach { length (builder_slots lists.old.values.value) ≤ greatest_offset false }
    ensures data_type { lists.new.lists.data_type ≡ lists.old.lists.data_type }
    ensures values { lists.new.values ≡ lists.old.values }
    ensures ok { OnOk result (builder_slots (List lists.new) ≡ builder_slots (List lists.old)
        ++ ListSlot (drop (items_of lists.old.lists.lens) (builder_slots lists.old.values.value))
        ∷ []) }
    ensures end { OnOk result (items_of lists.new.lists.lens
        ≡ length (builder_slots lists.old.values.value)) }
    ensures err { IfErr result (λ e. e ≡ DecodeFault.Memory) }
    ensures takes { Takes 1 0 (lists_node lists.old.lists) (lists_node lists.new.lists) }
    ensures has_capacity { 1 ≤ lists.old.lists.spare → HasMemory result }
{
    pushed(lists.try_push_valid())
}

/// The same where offsets have 64 bits.
fn pushed_large_list(lists: &mut DynMutableLargeListArray) -> Result<(), DecodeFault>
    requires order { items_of lists.old.lists.lens ≤ length (builder_slots lists.old.values.value) }
    requires reach { length (builder_slots lists.old.values.value) ≤ greatest_offset true }
    ensures data_type { lists.new.lists.data_type ≡ lists.old.lists.data_type }
    ensures values { lists.new.values ≡ lists.old.values }
    ensures ok { OnOk result (builder_slots (LargeList lists.new)
        ≡ builder_slots (LargeList lists.old)
        ++ ListSlot (drop (items_of lists.old.lists.lens) (builder_slots lists.old.values.value))
        ∷ []) }
    ensures end { OnOk result (items_of lists.new.lists.lens
        ≡ length (builder_slots lists.old.values.value)) }
    ensures err { IfErr result (λ e. e ≡ DecodeFault.Memory) }
    ensures takes { Takes 1 0 (lists_node lists.old.lists) (lists_node lists.new.lists) }
    ensures has_capacity { 1 ≤ lists.old.lists.spare → HasMemory result }
{
    pushed(lists.try_push_valid())
}
