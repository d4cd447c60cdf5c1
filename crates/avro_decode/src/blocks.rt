//! Blocks of rows into columns.

ghost use Rattle.std.specs.Prelude.{◌≡◌, ◌≤◌, ◌+◌, ◌*◌, [], length, map, All, OnOk, IfOk, IfErr};
ghost use Rattle.arrow_core.specs.Errors.{OnlyOutOfMemory};
ghost use Rattle.arrow_core.specs.declared.error.Error.TheVariants.{OutOfMemory};
ghost use Rattle.arrow_array.specs.Arrays.{array_type, array_slots, dictionaries_of};
ghost use Rattle.arrow_builders.specs.Fits.{TypesFit};
ghost use Rattle.arrow_builders.specs.FixedContent.{HasFixedContent};
ghost use Rattle.arrow_builders.specs.Nodes.{IsEmpty, KeepsCapacity, HasSpare};
ghost use Rattle.arrow_builders.specs.MutableArrays.{builder_type, builder_slots, builder_dictionaries};
ghost use Rattle.arrow_builders.specs.NormalizedArrays.{IsNormalized};
ghost use Rattle.arrow_builders.specs.Shapes.{shape};
ghost use Rattle.arrow_builders.specs.Tight.{IsTight};
ghost use Rattle.avro_schema.specs.Number.{MovesForward};
ghost use Rattle.avro_schema.specs.Carried.{CarriedList};
ghost use Rattle.avro_schema.specs.Types.{Fits};
ghost use Rattle.avro_schema.specs.ValidBlock.{kept, ValidBlock};
ghost use Rattle.avro_reference.specs.Block.{block};
ghost use Rattle.avro_reference.specs.Costs.{passed, Moves};
ghost use Rattle.avro_decode.specs.Capacity.{AtNodes, BetweenNodes};
ghost use Rattle.avro_schema.specs.Columns.{AreColumns, kept_types};
ghost use Rattle.avro_decode.specs.Counting.{ShowsAtMost, CallsAtMost};
ghost use Rattle.avro_schema.specs.Projected.{projected};
ghost use Rattle.avro_decode.specs.Decoder.{AreReady};
ghost use Rattle.avro_decode.specs.Decoding.{BlockHasMemory, GivesBlock};
ghost use Rattle.avro_decode.specs.Faults.{fault_error};
ghost use Rattle.avro_decode.specs.Growth.{ChildrenGrow, ChildrenHaveSpare};
ghost use Rattle.avro_decode.specs.Masks.{total, BytesBoundContent};
ghost use Rattle.avro_decode.specs.Plans.{PlanFits, kept_fields};
ghost use Rattle.avro_schema.specs.Refusals.{BelongTogether, AreCounted, BytesRefused, BlockRefused};
ghost use Rattle.avro_decode.specs.Suits.{AllSuit};
ghost use Rattle.avro_decode.specs.Symbols.{dictionary_values, kept_symbols};

use crate::fault::BlockFault;
use crate::kept::offsets_fit;
use crate::plan::Plan;
use crate::prepare::make_builders;
use crate::reserve::reserve_rows;
use crate::rows::decode_block;
use arrow_array::{Array, Chunk};
use arrow_builders::MutableArray;
use arrow_core::{Error, Field, Reason, Result};
use avro_reference::Lent;
use avro_schema::{AvroField, Block, Cursor, SliceCursor};
use std::alloc::Global;
use std::marker::PhantomData;

/// The columns of a block's kept fields: one for each, in order, of exactly the field's data type
/// (Avro 1.11, "Object Container Files" and "Binary Encoding"). The values of an enum's dictionary
/// are the schema's symbols in order, so keys mean the same in each block. The offsets of a column
/// begin at 0, and nothing lies past the last.
///
/// Ok: the block is valid for the fields, the Avro fields and the projection, and the columns hold
/// the kept slots of its rows. In this order:
/// `InvalidArgumentError(Lengths)` where the lengths of the three lists differ,
/// `NotYetImplemented(NoField)` where there is no field, `NotYetImplemented(NotCarried)` where a
/// schema isn't carried, be it kept or not, `InvalidArgumentError(FieldType)` where a field hasn't
/// the type, in small or large forms, and the nullability of its schema, `NotYetImplemented(Float)`
/// where a kept schema holds a float or a double at any depth, `Overflow` where one holds an enum
/// whose symbols are more than 2147483647 or have more bytes together, or where the block has more
/// than 2147483647 bytes and a kept field's type holds offsets of 32 bits at any depth,
/// `ExternalFormat(Rows)` where it states more rows than it has bytes, `OutOfSpec(NegativeSize)`
/// where after whole rows, and whole fields of one more, a block of an array that isn't kept states
/// a size below 0, and `ExternalFormat(BlockBytes)` where its bytes aren't its rows otherwise.
/// `OutOfMemory` at any time.
///
/// Before the rows are read capacity is made for no more slots, over all columns, than the block has
/// bytes. No clause says so, nor how far the builders grow, which no contract sees here:
/// `deserialize_into` tells that of its builders.
pub fn deserialize(
    alloc: Global,
    block: &Block,
    fields: &[Field],
    avro_fields: &[AvroField],
    projection: &[bool],
) -> Result<Chunk>
    ensures valid { OnOk result (ValidBlock block.now.number_of_rows block.now.bytes fields.now
        avro_fields.now projection.now) }
    ensures together { OnOk result (BelongTogether fields.now avro_fields.now projection.now) }
    ensures counted { OnOk result (AreCounted block.now.number_of_rows fields.now projection.now
        block.now.bytes) }
    ensures columns { IfOk result (λ chunk. AreColumns block.now.number_of_rows avro_fields.now
        projection.now block.now.bytes (map array_slots chunk)) }
    ensures data_types { IfOk result (λ chunk. map array_type chunk
        ≡ kept_types fields.now projection.now) }
    ensures dictionaries { IfOk result (λ chunk. map dictionary_values chunk
        ≡ kept_symbols avro_fields.now projection.now) }
    ensures normalized { IfOk result (λ chunk. All IsNormalized chunk) }
    ensures err { IfErr result (BlockRefused fields.now block.now.number_of_rows avro_fields.now
        projection.now block.now.bytes) }
{
    let mut builders = make_builders(alloc, fields, avro_fields, projection)?;
    let builders = builders.as_mut_slice();
    decode_into(alloc, block, fields, avro_fields, projection, builders)
}

/// The columns of a block, by way of builders that are empty again then.
pub(crate) fn decode_into(
    alloc: Global,
    block: &Block,
    fields: &[Field],
    avro_fields: &[AvroField],
    projection: &[bool],
    builders: &mut [MutableArray],
) -> Result<Chunk>
    requires ready { AreReady (projected fields.now avro_fields.now projection.now) builders.old }
    ensures ready { OnOk result
        (AreReady (projected fields.now avro_fields.now projection.now) builders.new) }
    ensures valid { OnOk result (ValidBlock block.now.number_of_rows block.now.bytes fields.now
        avro_fields.now projection.now) }
    ensures counted { OnOk result (AreCounted block.now.number_of_rows fields.now projection.now
        block.now.bytes) }
    ensures columns { IfOk result (λ chunk. AreColumns block.now.number_of_rows avro_fields.now
        projection.now block.now.bytes (map array_slots chunk)) }
    ensures data_types { IfOk result (λ chunk. map array_type chunk
        ≡ kept_types fields.now projection.now) }
    ensures dictionaries { IfOk result (λ chunk. map dictionary_values chunk
        ≡ kept_symbols avro_fields.now projection.now) }
    ensures normalized { IfOk result (λ chunk. All IsNormalized chunk) }
    ensures err { IfErr result (BytesRefused block.now.number_of_rows fields.now avro_fields.now
        projection.now block.now.bytes) }
{
    reserve_rows(block, builders);
    let mut cursor = SliceCursor::new(block.bytes.as_slice());
    let rows = block.number_of_rows;
    deserialize_into(&mut cursor, rows, fields, avro_fields, projection, builders)?;
    Chunk::try_new(freeze(alloc, builders)?)
}

/// Reads `rows` rows from all bytes ahead, each kept value into one more slot of its builder.
///
/// The builders are as `make_builders` gives them for these lists, or as `clear` leaves such: of
/// kinds and dictionary values that suit their schemas, of the fields' data types at every node,
/// tight, and empty. Ok: no byte is left, and the builders hold the columns; where fields, Avro
/// fields and projection belong together, as `make_builders` ensures of them, the bytes are a valid
/// block. The refusals are those of `deserialize` over the bytes ahead, from `Overflow` of too many
/// bytes on, and `OutOfMemory`. The lists may be empty, which `make_builders` and `deserialize`
/// refuse with `NoField`: then 0 rows of no bytes are Ok, and all else is refused.
///
/// With n bytes ahead, on every answer kinds, data types and dictionary values stay at every node;
/// no node has more than n slots, all nodes together have no more than n content bytes, and none
/// has lost capacity; the cursor has only moved forward, and was called at most 2n + 1 times. Of
/// content bytes those of fixed-size binary values to which nulls come (a union's member, or a
/// field of records in one, but not items of an array) are left out: these are as many as their
/// slots times the width of their type, as at each node of fixed-size binary values. With spare
/// capacity for n slots and n content bytes at each node, and no values that are left out, there is
/// no `OutOfMemory`. After an Err the builders' slots aren't told; `clear` makes them usable again.
///
/// On Ok no more bytes were shown than those of kept fields, those that tell how long the others
/// are, and one for each skipped boolean: what isn't kept is skipped. Bytes and calls are told as
/// the cursor counts them, up to the last value of its counts.
#[tactic(auto, using(crate::proofs::Sets::wholes))]
pub fn deserialize_into<'a, C: Cursor<'a>>(
    cursor: &mut C,
    rows: usize,
    fields: &[Field],
    avro_fields: &[AvroField],
    projection: &[bool],
    builders: &mut [MutableArray],
) -> Result<()>
    requires lengths { length avro_fields.now ≡ length projection.now }
    requires carried { CarriedList avro_fields.now }
    requires fits { Fits fields.now avro_fields.now }
    requires data_types { map builder_type builders.old ≡ kept_types fields.now projection.now }
    requires suits { AllSuit (kept avro_fields.now projection.now) builders.old }
    requires types_fit { All (λ b. TypesFit (shape b)) builders.old }
    requires tight { All IsTight builders.old }
    requires empty { AtNodes IsEmpty builders.old }
    ensures shapes { map shape builders.new ≡ map shape builders.old }
    ensures tight { OnOk result (All IsTight builders.new) }
    ensures data_types { map builder_type builders.new ≡ map builder_type builders.old }
    ensures counted { OnOk result (AreCounted rows fields.now projection.now (C.rest cursor.old)) }
    ensures columns { OnOk result (AreColumns rows avro_fields.now projection.now
        (C.rest cursor.old) (map builder_slots builders.new)) }
    ensures valid { OnOk result (BelongTogether fields.now avro_fields.now projection.now
        → ValidBlock rows (C.rest cursor.old) fields.now avro_fields.now projection.now) }
    ensures done { OnOk result (C.rest cursor.new ≡ []) }
    ensures err { IfErr result (BytesRefused rows fields.now avro_fields.now projection.now
        (C.rest cursor.old)) }

    // What is not kept is skipped.
    ensures shown { OnOk result (ShowsAtMost rows avro_fields.now projection.now (C.rest cursor.old)
        (C.shown cursor.old) (C.shown cursor.new)) }
    ensures few_calls { OnOk result (CallsAtMost rows avro_fields.now projection.now
        (C.rest cursor.old) (C.calls cursor.old) (C.calls cursor.new)) }
    ensures forward { MovesForward (C.rest cursor.old) (C.rest cursor.new) }
    ensures calls { C.calls cursor.new ≤ C.calls cursor.old + (2 * length (C.rest cursor.old) + 1) }

    // Growth is bounded by the bytes, and within reserved capacity memory never runs out.
    ensures slots { AtNodes (λ x. x.slots ≤ length (C.rest cursor.old)) builders.new }
    ensures content { total (kept avro_fields.now projection.now) builders.new
        ≤ length (C.rest cursor.old) }
    ensures fixed_content { All HasFixedContent builders.new }
    ensures capacity { BetweenNodes KeepsCapacity builders.old builders.new }
    ensures has_capacity { AtNodes (HasSpare (length (C.rest cursor.old))) builders.old
        → BytesBoundContent (kept avro_fields.now projection.now)
        → IfErr result (λ e. e ≡ OutOfMemory → ⊥) }
{
    if !offsets_fit(cursor.left(), fields, projection) {
        all_content_is_whole(builders);
        return Err(Error::Overflow);
    }
    if rows > cursor.left() {
        all_content_is_whole(builders);
        return Err(Error::ExternalFormat(Reason::Rows));
    }
    let plan = Plan {
        avro_fields,
        projection,
    };
    match decode_lent(cursor, rows, &plan, builders) {
        Ok(()) => Ok(()),
        Err(fault) => Err(error_of(fault)),
    }
}

/// The error of a block's fault: `ExternalFormat(BlockBytes)`, `OutOfSpec(NegativeSize)` or
/// `OutOfMemory`.
fn error_of(fault: BlockFault) -> Error
    ensures { result ≡ fault_error fault }
{
    match fault {
        BlockFault::Bytes => Error::ExternalFormat(Reason::BlockBytes),
        BlockFault::NegativeSize => Error::OutOfSpec(Reason::NegativeSize),
        BlockFault::Memory => Error::OutOfMemory,
    }
}

/// Reads the rows of a whole block from a cursor that is lent once.
// What goes over the rows is inlined here, where the cursor's fields are at hand, and has all
// registers.
#[inline(never)]
fn decode_lent<'a, C: Cursor<'a>>(
    cursor: &mut C,
    rows: usize,
    plan: &Plan,
    builders: &mut [MutableArray],
) -> std::result::Result<(), BlockFault>
    requires plan { PlanFits plan.now (length (C.rest cursor.old)) builders.old }
    requires enough { rows ≤ length (C.rest cursor.old) }
    ensures shapes { map shape builders.new ≡ map shape builders.old }
    ensures tight { OnOk result (All IsTight builders.new) }
    ensures grows { ChildrenGrow (passed (C.rest cursor.old) (C.rest cursor.new))
        (kept_fields plan.now) builders.old builders.new }
    ensures has_capacity { ChildrenHaveSpare (length (C.rest cursor.old))
        (kept_fields plan.now) builders.old → BlockHasMemory result }
    ensures moves { Moves C.rest C.calls cursor.old cursor.new }
    ensures reads { GivesBlock C.rest C.shown C.calls cursor.old cursor.new
        (map builder_slots builders.old) (map builder_slots builders.new) result
        (block rows plan.now.avro_fields.now plan.now.projection.now (C.rest cursor.old)) }
    ensures fixed_content { All HasFixedContent builders.new }
{
    let mut lent = Lent {
        cursor: &mut *cursor,
        of: &PhantomData,
    };
    // A copy, so that a row needn't load the plan again.
    let plan = *plan;
    let read = decode_block(&mut lent, rows, &plan, builders);
    // For the clause `fixed_content` alone: it looks at each node once for a block.
    all_content_is_whole(builders);
    read
}

/// Law: what `fixed_content_is_whole` says, of each builder.
fn all_content_is_whole(builders: &[MutableArray])
    ensures { All HasFixedContent builders.now }
{
    for builder in builders {
        builder.fixed_content_is_whole();
    }
}

/// The arrays of the builders, in order.
fn freeze(alloc: Global, builders: &mut [MutableArray]) -> Result<Vec<Array>>
    requires tight { All IsTight builders.old }
    requires types_fit { All (λ b. TypesFit (shape b)) builders.old }
    ensures shapes { OnOk result (map shape builders.new ≡ map shape builders.old) }
    ensures tight { OnOk result (All IsTight builders.new) }
    ensures emptied { OnOk result (AtNodes IsEmpty builders.new) }
    ensures data_types { IfOk result (λ arrays. map array_type arrays.items
        ≡ map builder_type builders.old) }
    ensures slots { IfOk result (λ arrays. map array_slots arrays.items
        ≡ map builder_slots builders.old) }
    ensures dictionaries { IfOk result (λ arrays. map dictionaries_of arrays.items
        ≡ map builder_dictionaries builders.old) }
    ensures normalized { IfOk result (λ arrays. All IsNormalized arrays.items) }
    ensures memory { OnlyOutOfMemory result }
{
    let mut arrays = Vec::new(alloc);
    for i in 0..builders.len() {
        let array = builders[i].as_box()?;
        arrays.push(array)?;
    }
    Ok(arrays)
}
