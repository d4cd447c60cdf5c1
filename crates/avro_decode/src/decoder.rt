//! Blocks of one schema into columns, one after another.

ghost use Rattle.std.specs.Prelude.{◌≡◌, map, All, OnOk, IfOk, IfErr};
ghost use Rattle.arrow_core.specs.declared.error.Error.TheVariants.{OutOfMemory};
ghost use Rattle.arrow_array.specs.Arrays.{array_type, array_slots};
ghost use Rattle.arrow_builders.specs.NormalizedArrays.{IsNormalized};
ghost use Rattle.avro_schema.specs.ValidBlock.{ValidBlock};
ghost use Rattle.avro_schema.specs.Columns.{AreColumns, kept_types};
ghost use Rattle.avro_schema.specs.Projected.{projected, CanBeDecoded, ProjectionRefused};
ghost use Rattle.avro_decode.specs.Decoder.{AreReady};
ghost use Rattle.avro_schema.specs.Refusals.{BelongTogether, AreCounted, FieldsRefused, BlockRefused};
ghost use Rattle.avro_decode.specs.Symbols.{dictionary_values, kept_symbols};

use crate::blocks::decode_into;
use crate::prepare::{check_types, make_builders};
use arrow_array::Chunk;
use arrow_builders::MutableArray;
use arrow_core::{Field, Items, Result};
use avro_schema::{AvroField, Block};
use std::alloc::Global;
use std::marker::Model;

/// Decodes block after block of one schema: what `deserialize` answers of each.
#[derive(Drop)]
pub struct Decoder {
    alloc: Global,
    fields: Vec<Field>,
    avro_fields: Items<AvroField>,
    projection: Vec<bool>,
    // Empty between blocks. There are none before the first block, and after one that was refused.
    builders: Option<Vec<MutableArray>>,
}

impl Model for Decoder {
    ghost use Rattle.std.specs.Option.{option_map};
    ghost use Rattle.avro_schema.specs.Projected.{Projected, projected, projected_code};
    ghost use Rattle.avro_decode.specs.Decoder.{HoldsBuilders};

    ghost Value = { Projected };

    ghost coded = { projected_code };

    ghost view = { λ d. projected d.fields.items d.avro_fields d.projection.items };

    ghost invariant = { λ d. HoldsBuilders
        (projected d.fields.items d.avro_fields d.projection.items)
        (option_map (λ builders. builders.items) d.builders) };
}

impl Decoder {
    /// A decoder of blocks whose rows have these Avro fields, into columns of those fields that the
    /// projection keeps. It makes no builder, and takes no memory.
    ///
    /// In this order: `InvalidArgumentError(Lengths)` where the lengths of the three lists differ,
    /// `NotYetImplemented(NoField)` where there is no field, `NotYetImplemented(NotCarried)` where
    /// a schema isn't carried, be it kept or not, `InvalidArgumentError(FieldType)` where a field
    /// hasn't the type, in small or large forms, and the nullability of its schema, and
    /// `NotYetImplemented(Float)` where a kept schema holds a float or a double at any depth.
    pub fn new(
        alloc: Global,
        fields: Vec<Field>,
        avro_fields: Items<AvroField>,
        projection: Vec<bool>,
    ) -> Result<Decoder>
        ensures made { IfOk result
            (λ d. d ≡ projected fields.items avro_fields projection.items) }
        ensures possible { OnOk result
            (CanBeDecoded (projected fields.items avro_fields projection.items)) }
        ensures err { IfErr result
            (ProjectionRefused (projected fields.items avro_fields projection.items)) }
    {
        check_types(&fields, avro_fields.as_slice(), &projection)?;
        Ok(Decoder {
            alloc,
            fields,
            avro_fields,
            projection,
            builders: None,
        })
    }

    /// The Avro fields of the rows that it decodes.
    pub fn avro_fields(&self) -> &[AvroField]
        ensures { result.now ≡ self.now.avro_fields }
    {
        self.avro_fields.as_slice()
    }

    /// Which of them are kept.
    pub fn projection(&self) -> &[bool]
        ensures { result.now ≡ self.now.projection }
    {
        &self.projection
    }

    /// The columns of a block's kept fields, as `deserialize` gives them.
    ///
    /// The errors are those of `deserialize` from `Overflow` on: the ones before it were ruled out
    /// when the decoder was made. After an error the decoder takes further blocks. The builders are
    /// made for the first block, and anew for the one after an error; no clause says so.
    pub fn decode(&mut self, block: &Block) -> Result<Chunk>
        ensures valid { OnOk result (ValidBlock block.now.number_of_rows block.now.bytes
            self.old.fields self.old.avro_fields self.old.projection) }
        ensures together { OnOk result (BelongTogether self.old.fields self.old.avro_fields
            self.old.projection) }
        ensures counted { OnOk result (AreCounted block.now.number_of_rows self.old.fields
            self.old.projection block.now.bytes) }
        ensures columns { IfOk result (λ chunk. AreColumns block.now.number_of_rows
            self.old.avro_fields self.old.projection block.now.bytes (map array_slots chunk)) }
        ensures data_types { IfOk result (λ chunk. map array_type chunk
            ≡ kept_types self.old.fields self.old.projection) }
        ensures dictionaries { IfOk result (λ chunk. map dictionary_values chunk
            ≡ kept_symbols self.old.avro_fields self.old.projection) }
        ensures normalized { IfOk result (λ chunk. All IsNormalized chunk) }
        ensures err { IfErr result (BlockRefused self.old.fields block.now.number_of_rows
            self.old.avro_fields self.old.projection block.now.bytes) }
        ensures possible { CanBeDecoded self.old }
        ensures same { self.new ≡ self.old }
    {
        let mut builders = self.take_builders()?;
        let chunk = decode_into(
            self.alloc,
            block,
            &self.fields,
            self.avro_fields.as_slice(),
            &self.projection,
            builders.as_mut_slice(),
        )?;
        self.builders = Some(builders);
        Ok(chunk)
    }

    /// The builders that are kept, or new ones.
    fn take_builders(&mut self) -> Result<Vec<MutableArray>>
        ensures ready { IfOk result (λ builders. AreReady self.old builders.items) }
        ensures possible { CanBeDecoded self.old }
        ensures err { IfErr result
            (FieldsRefused self.old.fields self.old.avro_fields self.old.projection) }
        ensures same { self.new ≡ self.old }
    {
        match self.builders.take() {
            Some(builders) => Ok(builders),
            None => make_builders(
                self.alloc,
                &self.fields,
                self.avro_fields.as_slice(),
                &self.projection,
            ),
        }
    }
}
