//! Blocks into their canonical form, one after another.
ghost use Rattle.std.specs.Prelude.{◌≡◌, ◌<◌, ◌≤◌, ◌^◌, ◌++◌, List, ℕ, Some, length, map, IfOk, OnOk, IfErr, IsTrue};
ghost use Rattle.arrow_core.specs.Errors.{OnlyOutOfMemory};
ghost use Rattle.arrow_array.specs.Arrays.{array_slots, array_type};
ghost use Rattle.avro_schema.specs.declared.schema.Record.{out-Record};
ghost use Rattle.avro_schema.specs.Inferred.{inferred_columns};
ghost use Rattle.avro_schema.specs.ValidBlock.{KeptEnumsFit};
ghost use Rattle.avro_container.specs.Written.{AppendsBlock};
ghost use Rattle.avro_container.specs.Canonical.{canonical_block};
ghost use Rattle.avro_container.specs.File.{the_block};
ghost use Rattle.avro_schema.specs.Columns.{AreColumns, kept_types};
ghost use Rattle.avro_schema.specs.Projected.{CanBeDecoded, projected};
ghost use Rattle.avro_schema.specs.Refusals.{AreCarried, AreCounted};
ghost use Rattle.avro_write.specs.Laws.{all_kept};
ghost use Rattle.avro_canonical.specs.Canonical.{BlockIsRefused, CannotBeRewritten, HoldNoFloat, RewritesBlock};
ghost use Rattle.avro_canonical.specs.Laws.{AreBytes};
ghost use Rattle.avro_canonical.specs.Targets.{AreMade};

use crate::bytes::tell_bytes;
use crate::columns::fill_block;
use arrow_array::Array;
use arrow_core::{Bytes, Error, Field, Items, Result};
use avro_container::write_block;
use avro_decode::{Decoder, MOST_BYTES, check_carried};
use avro_schema::{AvroField, Block, Record};
use avro_types::infer_schema;
use avro_verbatim::{are_alike, are_canonical_rows};
use avro_write::{name_types, to_record};
use std::alloc::Global;
use std::marker::Model;

/// Rewrites the blocks of one file in their canonical form: the same rows, under the record of
/// their columns.
#[derive(Drop)]
pub struct BlockRewriter {
    alloc: Global,
    decoder: Decoder,
    fields: Items<AvroField>,
    // Whether rows of the file are encoded as rows of `fields` are, so that a block that is canonical
    // already is copied.
    may_copy: bool,
    marker: [u8; 16],
    // The rows of the block at hand.
    block: Block,
}

impl Model for BlockRewriter {
    ghost use Rattle.avro_canonical.specs.Canonical.{IsRewriter, Rewriting, rewriting_code};

    ghost Value = { Rewriting };

    ghost coded = { rewriting_code };

    ghost view = { λ r. record { decoder = r.decoder; fields = r.fields; marker = r.marker } };

    ghost invariant = { λ r. IsRewriter r.may_copy
        (record { decoder = r.decoder; fields = r.fields; marker = r.marker }) };
}

/// A decoder of blocks of these Avro fields that keeps all of them.
fn make_decoder(
    alloc: Global,
    columns: Items<Field>,
    avro_fields: Items<AvroField>,
) -> Result<Decoder>
    requires carried { AreCarried avro_fields }
    requires columns { inferred_columns avro_fields ≡ Some columns }
    ensures decoder { IfOk result (λ d. d ≡ projected columns avro_fields (all_kept avro_fields)) }
    ensures no_float { OnOk result (HoldNoFloat avro_fields) }
    ensures err { IfErr result (CannotBeRewritten avro_fields) }
{
    let all = vec![in alloc; true; avro_fields.as_slice().len()]?;
    Decoder::new(alloc, columns.into_vec(), avro_fields, all)
}

/// Appends a block: its count of rows, its size, its bytes and the marker.
fn append_block(out: &mut Vec<u8>, block: &Block, marker: [u8; 16]) -> Result<()>
    requires count { block.now.number_of_rows < 2 ^ 63 }
    requires size { length block.now.bytes < 2 ^ 63 }
    ensures ok { OnOk result (out.new.items ≡ out.old.items
        ++ canonical_block marker (the_block block.now.number_of_rows block.now.bytes)) }
    ensures memory { OnlyOutOfMemory result }
{
    match write_block(out, block, marker) {
        Ok(()) => Ok(()),
        // A vector takes all bytes that there is memory for.
        Err(_) => Err(Error::OutOfMemory),
    }
}

impl BlockRewriter {
    /// A rewriter of blocks of the rows of `root`, into blocks that end with this marker; and the
    /// record of their rows, the one that `to_record` and `name_types` give the columns of `root`.
    ///
    /// In this order: `NotYetImplemented(NoField)` where `root` has no field,
    /// `NotYetImplemented(NotCarried)` where one isn't carried, `NotYetImplemented(Float)` where one
    /// holds a float or a double, and `NotYetImplemented(NoAvroType)` where the type of a column has
    /// no Avro schema, as that of an enum. `OutOfMemory` at any time.
    pub fn new(
        alloc: Global,
        root: Record,
        name: &str,
        marker: [u8; 16],
    ) -> Result<(BlockRewriter, Record)>
        ensures ok { IfOk result
            (λ made. AreMade (out-Record root).fields name.now marker made.0 made.1) }
        ensures err { IfErr result (CannotBeRewritten (out-Record root).fields) }
    {
        check_carried(root.fields.as_slice())?;
        let columns = infer_schema(alloc, &root)?;
        let nameless = to_record(alloc, &columns);
        let Record {
            fields: avro_fields,
            ..
        } = root;
        // Where a field holds a float, that is the error.
        let decoder = make_decoder(alloc, columns.fields, avro_fields)?;
        let target = name_types(alloc, nameless?, name)?;
        let Record { fields, .. } = target.try_clone(alloc)?;
        let may_copy = are_alike(decoder.avro_fields(), fields.as_slice());
        let rewriter = BlockRewriter {
            alloc,
            decoder,
            fields,
            may_copy,
            marker,
            block: Block {
                number_of_rows: 0,
                bytes: Bytes::new(alloc),
            },
        };
        Ok((rewriter, target))
    }

    /// Appends the block of the same rows, and nothing where there is no row.
    ///
    /// The errors are those of `Decoder::decode`.
    pub fn push_block(&mut self, out: &mut Vec<u8>, block: &Block) -> Result<()>
        ensures ok { OnOk result (AppendsBlock (RewritesBlock self.old)
            (the_block block.now.number_of_rows block.now.bytes) out.old.items out.new.items) }
        ensures few { OnOk result (block.now.number_of_rows ≤ length block.now.bytes) }
        ensures err { IfErr result (BlockIsRefused self.old
            (the_block block.now.number_of_rows block.now.bytes)) }
        ensures same { self.new ≡ self.old }
    {
        let bytes = block.bytes.as_slice();
        tell_bytes(bytes);
        if self.is_canonical(block) {
            return append_block(out, block, self.marker);
        }
        let chunk = self.decoder.decode(block)?;
        self.push_columns(out, chunk.arrays(), block.number_of_rows, bytes)
    }

    /// Whether the block is its canonical form already, as far as a look at its bytes tells: `false`
    /// says nothing.
    fn is_canonical(&self, block: &Block) -> bool
        ensures { IsTrue result → RewritesBlock self.now
            (the_block block.now.number_of_rows block.now.bytes)
            (canonical_block self.now.marker
            (the_block block.now.number_of_rows block.now.bytes)) }
    {
        let bytes = block.bytes.as_slice();
        if !self.may_copy || block.number_of_rows == 0 || bytes.len() > MOST_BYTES {
            return false;
        }
        are_canonical_rows(bytes, block.number_of_rows, self.fields.as_slice())
    }

    /// Appends the block of the rows of these columns. They were decoded from these bytes.
    fn push_columns(
        &mut self,
        out: &mut Vec<u8>,
        columns: &[Array],
        number_of_rows: usize,
        bytes: &[u8],
    ) -> Result<()>
        requires bytes { AreBytes bytes.now }
        requires possible { CanBeDecoded self.old.decoder }
        requires columns { AreColumns number_of_rows self.old.decoder.avro_fields
            self.old.decoder.projection bytes.now (map array_slots columns.now) }
        requires types { map array_type columns.now
            ≡ kept_types self.old.decoder.fields self.old.decoder.projection }
        requires counted { AreCounted number_of_rows self.old.decoder.fields
            self.old.decoder.projection bytes.now }
        requires symbols { KeptEnumsFit self.old.decoder.avro_fields self.old.decoder.projection }
        ensures ok { OnOk result (AppendsBlock (RewritesBlock self.old)
            (the_block number_of_rows bytes.now) out.old.items out.new.items) }
        ensures memory { OnlyOutOfMemory result }
        ensures same { self.new ≡ self.old }
    {
        if number_of_rows == 0 {
            return Ok(());
        }
        self.block.number_of_rows = number_of_rows;
        fill_block(self.alloc, columns, self.fields.as_slice(), &mut self.block)?;
        tell_bytes(self.block.bytes.as_slice());
        append_block(out, &self.block, self.marker)
    }
}
