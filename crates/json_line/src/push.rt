//! Values go to builders of any kind as they are read.
ghost use Rattle.std.specs.Prelude.{◌≡◌, ◌≤◌, ◌<◌, ◌+◌, ◌∷◌, length, map, true, IfSome, MatchBool, OnOk};
ghost use Rattle.arrow_array.specs.FixedLists.{list_size};
ghost use Rattle.arrow_builders.specs.Children.{fields_of};
ghost use Rattle.arrow_builders.specs.MutableArrays.{builder_slots};
ghost use Rattle.arrow_builders.specs.Shapes.{shape};
ghost use Rattle.arrow_builders.specs.Tight.{AllTight, IsTight};
ghost use Rattle.arrow_builders.specs.declared.array.MutableArray.{FixedSizeList, LargeList, List, Struct};
ghost use Rattle.json_tree.specs.Layout.{distinct};
ghost use Rattle.json_tree.specs.Reading.{array_at, object_at, value_at};
ghost use Rattle.json_line.specs.Builders.{struct_names, AllSuit, AreTight, ReadsInto, ReadsItems, ReadsMember, ReadsObject, Suits, SuitsFields, SuitsItems, SuitsSized};

use crate::ends::{end_large_list, end_list, end_sized_list, end_struct};
use crate::field_names::FieldNames;
use crate::fill::fill_fields;
use crate::single::{push_null_list, push_null_struct, push_single};
use arrow_builders::{
    DynMutableLargeListArray, DynMutableListArray, DynMutableStructArray, MutableArray,
    MutableFixedSizeListArray,
};
use json_lend::{GivenUp, Name, read_name, skip_value};
use json_tree::grammar::{closes, goes_on};
use json_tree::reader::Reader;

// Whether this bracket is next and may be opened. Then it is passed.
#[inline(always)]
fn opens<'a>(reader: &mut Reader<'a>, bracket: u8, depth: usize) -> bool
    ensures { MatchBool result ((reader.old ≡ bracket ∷ reader.new) × (0 < depth))
        (reader.new ≡ reader.old) }
{
    depth > 0 && reader.takes(bracket)
}

// Reads the value that is next, in which at most `depth` brackets are open at once, and appends the
// slot that it means under the builder's type, with what stands beneath. `names` are those of the
// type. `buffer` takes the text of each string that has escapes.
//
// `GivenUp` may come at any time, and then the builder has any slots: where no value stands there,
// where it doesn't fit the builder, where a key stands twice in an object, where `read_name` gives a
// key up, and where there is no memory.
#[cycle(push)]
#[inline(always)]
fn push_value<'a>(
    buffer: &mut String,
    reader: &mut Reader<'a>,
    depth: usize,
    names: &FieldNames,
    builder: &mut MutableArray,
) -> Result<(), GivenUp>
    requires suits { Suits names.now (shape builder.old) }
    requires tight { IsTight builder.old }
    ensures same_shape { shape builder.new ≡ shape builder.old }
    ensures tight { OnOk result (IsTight builder.new) }
    ensures forward { length reader.new ≤ length reader.old }
    ensures ok { OnOk result
        (ReadsInto (value_at depth) reader.old reader.new builder.old builder.new) }
{
    match names {
        FieldNames::Flat => push_single(buffer, reader, depth, builder),
        FieldNames::Items(item) => {
            if opens(reader, b'[', depth) {
                return push_array(buffer, reader, depth - 1, item, builder);
            }
            push_null_list(reader, depth, builder)
        }
        FieldNames::Sized(size, item) => {
            if opens(reader, b'[', depth) {
                return push_sized_array(buffer, reader, depth - 1, *size, item, builder);
            }
            push_null_list(reader, depth, builder)
        }
        FieldNames::Fields(own, below) => {
            if opens(reader, b'{', depth) {
                let (own, below) = (own.as_slice(), below.as_slice());
                return push_object(buffer, reader, depth - 1, own, below, builder);
            }
            push_null_struct(reader, depth, builder)
        }
    }
}

/// The same, where the builder has `count` slots. Where it has others, it took a value of the same
/// name before, and the value is given up.
#[cycle(push)]
#[inline(always)]
pub(crate) fn push_once<'a>(
    buffer: &mut String,
    reader: &mut Reader<'a>,
    depth: usize,
    names: &FieldNames,
    builder: &mut MutableArray,
    count: usize,
) -> Result<(), GivenUp>
    requires suits { Suits names.now (shape builder.old) }
    requires tight { IsTight builder.old }
    ensures same_shape { shape builder.new ≡ shape builder.old }
    ensures tight { OnOk result (IsTight builder.new) }
    ensures forward { length reader.new ≤ length reader.old }
    ensures ok { OnOk result
        (ReadsInto (value_at depth) reader.old reader.new builder.old builder.new) }
    ensures once { OnOk result (length (builder_slots builder.old) ≡ count) }
{
    if builder.len() != count {
        return Err(GivenUp);
    }
    push_value(buffer, reader, depth, names, builder)
}

// What follows the opening bracket of an array, to a builder of lists.
#[cycle(push)]
#[inline(always)]
fn push_array<'a>(
    buffer: &mut String,
    reader: &mut Reader<'a>,
    depth: usize,
    names: &FieldNames,
    builder: &mut MutableArray,
) -> Result<(), GivenUp>
    requires suits { SuitsItems names.now (shape builder.old) }
    requires tight { IsTight builder.old }
    ensures same_shape { shape builder.new ≡ shape builder.old }
    ensures tight { OnOk result (IsTight builder.new) }
    ensures forward { length reader.new ≤ length reader.old }
    ensures ok { OnOk result
        (ReadsInto (array_at (value_at depth)) reader.old reader.new builder.old builder.new) }
{
    match builder {
        MutableArray::List(lists) => push_list(buffer, reader, depth, names, lists),
        MutableArray::LargeList(lists) => push_large_list(buffer, reader, depth, names, lists),
        _ => Err(GivenUp),
    }
}

// The child takes the items, and then the list of them is pushed.
#[cycle(push)]
#[inline(never)]
fn push_list<'a>(
    buffer: &mut String,
    reader: &mut Reader<'a>,
    depth: usize,
    names: &FieldNames,
    lists: &mut DynMutableListArray,
) -> Result<(), GivenUp>
    requires suits { Suits names.now (shape lists.old.values.value) }
    requires tight { IsTight (List lists.old) }
    ensures same_shape { shape (List lists.new) ≡ shape (List lists.old) }
    ensures tight { OnOk result (IsTight (List lists.new)) }
    ensures forward { length reader.new ≤ length reader.old }
    ensures ok { OnOk result (ReadsInto (array_at (value_at depth)) reader.old reader.new
        (List lists.old) (List lists.new)) }
{
    push_items(buffer, reader, depth, names, lists.mut_values())?;
    end_list(lists)
}

// The same where offsets have 64 bits.
#[cycle(push)]
#[inline(never)]
fn push_large_list<'a>(
    buffer: &mut String,
    reader: &mut Reader<'a>,
    depth: usize,
    names: &FieldNames,
    lists: &mut DynMutableLargeListArray,
) -> Result<(), GivenUp>
    requires suits { Suits names.now (shape lists.old.values.value) }
    requires tight { IsTight (LargeList lists.old) }
    ensures same_shape { shape (LargeList lists.new) ≡ shape (LargeList lists.old) }
    ensures tight { OnOk result (IsTight (LargeList lists.new)) }
    ensures forward { length reader.new ≤ length reader.old }
    ensures ok { OnOk result (ReadsInto (array_at (value_at depth)) reader.old reader.new
        (LargeList lists.old) (LargeList lists.new)) }
{
    push_items(buffer, reader, depth, names, lists.mut_values())?;
    end_large_list(lists)
}

// The same to a builder of lists of `size` items each.
#[cycle(push)]
#[inline(never)]
fn push_sized_array<'a>(
    buffer: &mut String,
    reader: &mut Reader<'a>,
    depth: usize,
    size: usize,
    names: &FieldNames,
    builder: &mut MutableArray,
) -> Result<(), GivenUp>
    requires suits { SuitsSized size names.now (shape builder.old) }
    requires tight { IsTight builder.old }
    ensures same_shape { shape builder.new ≡ shape builder.old }
    ensures tight { OnOk result (IsTight builder.new) }
    ensures forward { length reader.new ≤ length reader.old }
    ensures ok { OnOk result
        (ReadsInto (array_at (value_at depth)) reader.old reader.new builder.old builder.new) }
{
    match builder {
        MutableArray::FixedSizeList(lists) => {
            push_sized_list(buffer, reader, depth, size, names, lists)
        }
        _ => Err(GivenUp),
    }
}

// The child takes the items, and then the list of them is pushed.
#[cycle(push)]
#[inline(always)]
fn push_sized_list<'a>(
    buffer: &mut String,
    reader: &mut Reader<'a>,
    depth: usize,
    size: usize,
    names: &FieldNames,
    lists: &mut MutableFixedSizeListArray,
) -> Result<(), GivenUp>
    requires size { size ≡ list_size lists.old.marks.data_type }
    requires suits { Suits names.now (shape lists.old.values.value) }
    requires tight { IsTight (FixedSizeList lists.old) }
    ensures same_shape { shape (FixedSizeList lists.new) ≡ shape (FixedSizeList lists.old) }
    ensures tight { OnOk result (IsTight (FixedSizeList lists.new)) }
    ensures forward { length reader.new ≤ length reader.old }
    ensures ok { OnOk result (ReadsInto (array_at (value_at depth)) reader.old reader.new
        (FixedSizeList lists.old) (FixedSizeList lists.new)) }
{
    push_sized_items(buffer, reader, depth, size, names, lists.mut_values())?;
    end_sized_list(lists)
}

// Whether `after` is `before` and `size`.
#[inline(always)]
fn are_more_by(size: usize, before: usize, after: usize) -> bool
    ensures { result ≡ true → after ≡ before + size }
{
    after >= before && after - before == size
}

// Each item, and the closing bracket. An array of another number of items means null, but the child
// took them, and so it is given up.
#[cycle(push)]
fn push_sized_items<'a>(
    buffer: &mut String,
    reader: &mut Reader<'a>,
    depth: usize,
    size: usize,
    names: &FieldNames,
    builder: &mut MutableArray,
) -> Result<(), GivenUp>
    requires suits { Suits names.now (shape builder.old) }
    requires tight { IsTight builder.old }
    ensures same_shape { shape builder.new ≡ shape builder.old }
    ensures tight { OnOk result (IsTight builder.new) }
    ensures forward { length reader.new ≤ length reader.old }
    ensures ok { OnOk result (ReadsItems depth reader.old reader.new builder.old builder.new) }
    ensures more { OnOk result
        (length (builder_slots builder.new) ≡ length (builder_slots builder.old) + size) }
{
    let before = builder.len();
    push_items(buffer, reader, depth, names, builder)?;
    if !are_more_by(size, before, builder.len()) {
        return Err(GivenUp);
    }
    Ok(())
}

// Each item, one after another, and the closing bracket.
#[cycle(push)]
fn push_items<'a>(
    buffer: &mut String,
    reader: &mut Reader<'a>,
    depth: usize,
    names: &FieldNames,
    builder: &mut MutableArray,
) -> Result<(), GivenUp>
    requires suits { Suits names.now (shape builder.old) }
    requires tight { IsTight builder.old }
    ensures same_shape { shape builder.new ≡ shape builder.old }
    ensures tight { OnOk result (IsTight builder.new) }
    ensures forward { length reader.new ≤ length reader.old }
    ensures ok { OnOk result (ReadsItems depth reader.old reader.new builder.old builder.new) }
{
    if closes(reader, b']') {
        return Ok(());
    }
    loop {
        reader.skip_spaces();
        push_value(buffer, reader, depth, names, builder)?;
        if !goes_on(reader, b']')? {
            return Ok(());
        }
    }
}

// What follows the opening bracket of an object, to a builder of structs.
#[cycle(push)]
#[inline(always)]
fn push_object<'a>(
    buffer: &mut String,
    reader: &mut Reader<'a>,
    depth: usize,
    own: &[Name],
    below: &[FieldNames],
    builder: &mut MutableArray,
) -> Result<(), GivenUp>
    requires suits { SuitsFields own.now below.now (shape builder.old) }
    requires tight { IsTight builder.old }
    ensures same_shape { shape builder.new ≡ shape builder.old }
    ensures tight { OnOk result (IsTight builder.new) }
    ensures forward { length reader.new ≤ length reader.old }
    ensures ok { OnOk result
        (ReadsInto (object_at (value_at depth)) reader.old reader.new builder.old builder.new) }
{
    let count = builder.len();
    match builder {
        MutableArray::Struct(structs) => {
            push_struct(buffer, reader, depth, own, below, structs, count)
        }
        _ => Err(GivenUp),
    }
}

// Each child takes the value of its name, or null, and then the struct of them is pushed. There are
// `count` structs.
#[cycle(push)]
#[inline(never)]
fn push_struct<'a>(
    buffer: &mut String,
    reader: &mut Reader<'a>,
    depth: usize,
    own: &[Name],
    below: &[FieldNames],
    structs: &mut DynMutableStructArray,
    count: usize,
) -> Result<(), GivenUp>
    requires names { own.now ≡ struct_names structs.old.marks.data_type }
    requires distinct { distinct own.now ≡ true }
    requires suits { AllSuit below.now (fields_of (map shape structs.old.values.items)) }
    requires tight { IsTight (Struct structs.old) }
    requires count { length structs.old.marks.booleans ≡ count }
    ensures same_shape { shape (Struct structs.new) ≡ shape (Struct structs.old) }
    ensures tight { OnOk result (IsTight (Struct structs.new)) }
    ensures forward { length reader.new ≤ length reader.old }
    ensures ok { OnOk result (ReadsInto (object_at (value_at depth)) reader.old reader.new
        (Struct structs.old) (Struct structs.new)) }
{
    // As many where they were made; no clause says it.
    if own.len() != below.len() {
        return Err(GivenUp);
    }
    read_fields(buffer, reader, depth, own, below, structs, count)?;
    fill_fields(structs, below.len(), count)?;
    end_struct(structs)
}

// Each member, one after another, and the closing bracket. A child whose name is no key stays.
#[cycle(push)]
#[inline(always)]
fn read_fields<'a>(
    buffer: &mut String,
    reader: &mut Reader<'a>,
    depth: usize,
    own: &[Name],
    below: &[FieldNames],
    structs: &mut DynMutableStructArray,
    count: usize,
) -> Result<(), GivenUp>
    requires distinct { distinct own.now ≡ true }
    requires suits { AllSuit below.now (fields_of (map shape structs.old.values.items)) }
    requires tight { AllTight count structs.old.values.items }
    requires wide { length own.now ≡ length below.now }
    ensures marks { structs.new.marks ≡ structs.old.marks }
    ensures shapes { map shape structs.new.values.items ≡ map shape structs.old.values.items }
    ensures forward { length reader.new ≤ length reader.old }
    ensures ok { OnOk result (ReadsObject depth own.now reader.old reader.new
        structs.old.values.items structs.new.values.items) }
{
    if closes(reader, b'}') {
        return Ok(());
    }
    let mut guess = 0;
    loop {
        let at = read_name(reader, own, guess)?;
        read_field(buffer, reader, depth, at, below, structs, count)?;
        if let Some(i) = at {
            guess = i + 1;
        }
        if !goes_on(reader, b'}')? {
            return Ok(());
        }
    }
}

// A member's value, to the child at the index, or skipped where there is no index.
#[cycle(push)]
#[inline(always)]
fn read_field<'a>(
    buffer: &mut String,
    reader: &mut Reader<'a>,
    depth: usize,
    at: Option<usize>,
    below: &[FieldNames],
    structs: &mut DynMutableStructArray,
    count: usize,
) -> Result<(), GivenUp>
    requires within { IfSome at (λ i. i < length below.now) }
    requires suits { AllSuit below.now (fields_of (map shape structs.old.values.items)) }
    requires tight { AreTight structs.old.values.items }
    ensures marks { structs.new.marks ≡ structs.old.marks }
    ensures shapes { map shape structs.new.values.items ≡ map shape structs.old.values.items }
    ensures forward { length reader.new ≤ length reader.old }
    ensures ok { OnOk result (ReadsMember depth count at reader.old reader.new
        structs.old.values.items structs.new.values.items) }
{
    match at {
        Some(i) => push_once(
            buffer,
            reader,
            depth,
            &below[i],
            structs.mut_values(i),
            count,
        ),
        None => {
            skip_value(reader, depth)?;
            Ok(())
        }
    }
}
