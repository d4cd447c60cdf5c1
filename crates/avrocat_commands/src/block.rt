//! The commands `block` and `block-large`: the columns of one Avro block as lines.
ghost use Rattle.std.specs.Prelude.{◌≡◌, ◌≤◌, ◌⊎◌, length, map, IfOk, IfErr, OnOk};
ghost use Rattle.arrow_core.specs.Errors.{OnlyOutOfMemory};
ghost use Rattle.arrow_core.specs.declared.error.Error.TheVariants.{OutOfMemory};
ghost use Rattle.avro_schema.specs.ValidBlock.{kept};
ghost use Rattle.avrocat_commands.specs.Blocks.{AreColumnsOf, ShowsColumns, BlockDone};
ghost use Rattle.avro_container.specs.Changes.{change_of};
ghost use Rattle.avrocat_commands.specs.Input.{byte_limit};
ghost use Rattle.avrocat_commands.specs.Refusals.{IsWrong, BlockCommandFails};

use crate::columns::columns_of;
use crate::input::read_all;
use crate::lines::Lines;
use arrow_base::{Bytes, Items, Result, Sink, Source, Text, write_all};
use arrow_core::Field;
use avro_read::deserialize;
use avro_schema::{AvroField, Block, Record};
use cli_words::BlockWords;
use std::alloc::Global;

/// The name of the record that a row is. Nothing asks for it.
const ROW: &str = "row";

/// Reads the source to its end as one block, and writes a line for each kept field.
///
/// The errors, in this order: `ReadFault` or `LimitExceeded` while the source is read,
/// `NotYetImplemented` where there is no field, a schema isn't carried or a kept one holds a float,
/// `Overflow` where a kept enum has more than 2147483647 symbols, or more bytes of them together,
/// `ExternalFormat` or `OutOfSpec` where the bytes aren't the rows, and `WriteFault`. Nothing is
/// written before the last. `OutOfMemory` at any time.
pub fn run_block<S: Source, K: Sink>(
    alloc: Global,
    words: BlockWords,
    source: &mut S,
    sink: &mut K,
) -> Result<()>
    requires { length words.avro_fields ≡ length words.projection }
    ensures done { OnOk result (BlockDone words
        (change_of (S.left source.old) (S.faults source.old) (S.left source.new)
        (S.faults source.new))
        (change_of (K.held sink.old) (K.faults sink.old) (K.held sink.new) (K.faults sink.new))) }
    ensures fails { IfErr result (BlockCommandFails words
        (change_of (S.left source.old) (S.faults source.old) (S.left source.new)
        (S.faults source.new))
        (change_of (K.held sink.old) (K.faults sink.old) (K.held sink.new) (K.faults sink.new))) }
{
    let bytes = read_all(alloc, source)?;
    let lines = block_lines(alloc, words, bytes)?;
    write_all(sink, lines.as_slice())
}

/// The lines of the kept fields of a block with these bytes.
fn block_lines(alloc: Global, words: BlockWords, bytes: Vec<u8>) -> Result<Lines>
    requires within { length bytes.items ≤ byte_limit }
    requires lengths { length words.avro_fields ≡ length words.projection }
    ensures ok { IfOk result (λ lines. ShowsColumns words bytes.items lines.text.items) }
    ensures err { IfErr result (λ e. (e ≡ OutOfMemory) ⊎ IsWrong words bytes.items e) }
{
    let BlockWords {
        rows,
        avro_fields,
        projection,
        large,
    } = words;
    let record = Record {
        name: Text::try_from_str(alloc, ROW)?,
        namespace: None,
        doc: None,
        fields: avro_fields,
    };
    let fields = columns_of(alloc, &record, large)?;
    let block = Block {
        number_of_rows: rows,
        bytes: Bytes::from_vec(bytes),
    };
    chunk_lines(
        alloc,
        &block,
        fields.as_slice(),
        record.fields.as_slice(),
        projection.as_slice(),
        large,
    )
}

/// The lines of the kept fields of a block, under the names of the Avro fields. The columns have
/// large forms where `large`.
fn chunk_lines(
    alloc: Global,
    block: &Block,
    fields: &[Field],
    avro_fields: &[AvroField],
    projection: &[bool],
    large: bool,
) -> Result<Lines>
    requires within { length block.now.bytes ≤ byte_limit }
    requires lengths { length avro_fields.now ≡ length projection.now }
    requires typed { AreColumnsOf avro_fields.now large fields.now }
    ensures ok { IfOk result (λ lines. ShowsColumns
        (record {
          rows = block.now.number_of_rows;
          avro_fields = avro_fields.now;
          projection = projection.now;
          large = large;
        })
        block.now.bytes lines.text.items) }
    ensures err { IfErr result (λ e. (e ≡ OutOfMemory) ⊎ IsWrong
        (record {
          rows = block.now.number_of_rows;
          avro_fields = avro_fields.now;
          projection = projection.now;
          large = large;
        })
        block.now.bytes e) }
{
    let chunk = deserialize(alloc, block, fields, avro_fields, projection)?;
    let names = kept_names(alloc, avro_fields, projection)?;
    let mut lines = Lines::new(alloc);
    lines.push_columns(names.as_slice(), chunk.arrays())?;
    Ok(lines)
}

/// The names of the fields that are kept.
fn kept_names(alloc: Global, avro_fields: &[AvroField], projection: &[bool]) -> Result<Vec<Text>>
    requires { length avro_fields.now ≡ length projection.now }
    ensures ok { IfOk result (λ names. names.items
        ≡ map (λ f. f.name) (kept avro_fields.now projection.now)) }
    ensures memory { OnlyOutOfMemory result }
{
    let mut names = Vec::new(alloc);
    for i in 0..avro_fields.len() {
        if projection[i] {
            names.push(avro_fields[i].name.try_clone(alloc)?)?;
        }
    }
    Ok(names)
}
