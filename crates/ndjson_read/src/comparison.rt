//! The types of values, compared with types that came before as the values are read. No tree is
//! built, and no memory taken.
ghost use Rattle.std.specs.Prelude.{◌≡◌, ◌≤◌, ◌<◌, [], List, ℕ, length, take, true, false, option_map, Some, IfSome, slice_get};
ghost use Rattle.json_tree.specs.Layout.{meets};
ghost use Rattle.json_tree.specs.Reading.{array_at, found, member_at, object_at, value_at};
ghost use Rattle.json_tree.specs.Tree.{Json, number, has_point as has_point_in};
ghost use Rattle.json_lend.specs.Standing.{lent_value};
ghost use Rattle.arrow_core.specs.declared.types.DataType as types;
ghost use Rattle.json_infer.specs.Inferred.{type_of};
ghost use Rattle.json_infer.specs.Parts.{list_of, nullable};
ghost use Rattle.ndjson_read.specs.Compared.{Compares, IsComparison, IsNextField, ReadsMember, joined, names_in};

use arrow_base::{DataType, Field, Metadata};
use json_lend::{Lent, lend};
use json_tree::grammar::{closes, goes_on, name_separator};
use json_tree::reader::Reader;

/// How many fields a Struct may have that an object is compared with: each name is compared with
/// the names before it.
const COMPARED_FIELDS: usize = 64;

/// How the type of a value compares with an expected one.
#[derive(Clone, Copy)]
pub(crate) enum Comparison {
    /// The value's type is Null.
    Null,
    /// It is the expected one, which isn't Null.
    Equal,
    /// It is another, or wasn't told.
    Unequal,
}

// Whether a mantissa has a point.
fn has_point(mantissa: &str) -> bool
    ensures { result ≡ has_point_in mantissa.now }
{
    for byte in mantissa.as_bytes() {
        if *byte == b'.' {
            return true;
        }
    }
    false
}

// The type of a number with this mantissa.
#[tactic(auto, using(crate::proofs::TypeLaws::integer_compared, crate::proofs::TypeLaws::float_compared))]
fn compare_number(mantissa: &str, expected: Option<&DataType>) -> Comparison
    ensures { (exponent : List ℕ) → IsComparison result (type_of (number mantissa.now exponent))
        (option_map (λ t. t.now) expected.entry) }
{
    match expected {
        Some(DataType::Int64) => {
            if has_point(mantissa) {
                return Comparison::Unequal;
            }
            Comparison::Equal
        }
        Some(DataType::Float64) => {
            if has_point(mantissa) {
                return Comparison::Equal;
            }
            Comparison::Unequal
        }
        _ => Comparison::Unequal,
    }
}

// The type of a value that is lent, where that is no array and no object.
#[inline(always)]
#[tactic(auto, using(crate::proofs::TypeLaws::null_compared, crate::proofs::TypeLaws::boolean_compared, crate::proofs::TypeLaws::string_compared))]
fn compare_lent<'a>(value: &Lent<'a>, expected: Option<&DataType>) -> Comparison
    ensures { IsComparison result (type_of (lent_value value.now))
        (option_map (λ t. t.now) expected.entry) }
{
    match value {
        Lent::Null => Comparison::Null,
        Lent::Bool(_) => match expected {
            Some(DataType::Boolean) => Comparison::Equal,
            _ => Comparison::Unequal,
        },
        Lent::Number(mantissa, _) => compare_number(mantissa, expected),
        Lent::String(_) | Lent::Escaped(_) => match expected {
            Some(DataType::Utf8) => Comparison::Equal,
            _ => Comparison::Unequal,
        },
        Lent::Array(_) | Lent::Object(_) => Comparison::Unequal,
    }
}

// A value that is no array and no object.
#[inline(always)]
#[tactic(auto, using(crate::proofs::TypeLaws::compared))]
fn compare_scalar<'a>(
    reader: &mut Reader<'a>,
    depth: usize,
    expected: Option<&DataType>,
) -> Comparison
    ensures reads { Compares result (option_map (λ t. t.now) expected.entry) reader.new
        (value_at depth reader.old) }
    ensures forward { length reader.new ≤ length reader.old }
{
    match lend(reader, depth) {
        Ok(value) => compare_lent(&value, expected),
        Err(_) => Comparison::Unequal,
    }
}

// Whether a field is nullable, without metadata, and has this name.
#[inline(always)]
fn is_nullable(field: &Field, name: &str, no_metadata: &Metadata) -> bool
    requires { no_metadata.now ≡ [] }
    ensures { result ≡ true → field.now ≡ nullable name.now field.now.data_type }
{
    field.is_nullable && field.name.as_str() == name && field.metadata == *no_metadata
}

// The type of the items of an expected List, where that is a type which inference gives.
fn expected_item<'b>(expected: Option<&'b DataType>, no_metadata: &Metadata) -> Option<&'b DataType>
    requires { no_metadata.now ≡ [] }
    ensures { IfSome result
        (λ item. option_map (λ t. t.now) expected.entry ≡ Some (list_of item.now)) }
{
    match expected {
        Some(DataType::List(field)) => {
            let item = field.get();
            if is_nullable(item, "item", no_metadata) {
                return Some(&item.data_type);
            }
            None
        }
        _ => None,
    }
}

// How the types of an array's items compare with the expected one, after one item more. `None`
// where that isn't known.
fn joined(items: Comparison, item: Comparison) -> Option<Comparison>
    ensures { result ≡ joined items item }
{
    match item {
        Comparison::Null => Some(items),
        Comparison::Equal => Some(Comparison::Equal),
        Comparison::Unequal => None,
    }
}

// What follows the opening bracket of an array. Its type is known where its items have one type,
// some of them Null.
#[cycle(compare)]
#[inline(never)]
fn compare_array<'a>(
    reader: &mut Reader<'a>,
    depth: usize,
    expected: Option<&DataType>,
    no_metadata: &Metadata,
) -> Comparison
    requires { no_metadata.now ≡ [] }
    ensures reads { Compares result (option_map (λ t. t.now) expected.entry) reader.new
        (array_at (value_at depth) reader.old) }
    ensures forward { length reader.new ≤ length reader.old }
{
    if closes(reader, b']') {
        return Comparison::Null;
    }
    let item = expected_item(expected, no_metadata);
    let mut items = Comparison::Null;
    loop {
        reader.skip_spaces();
        let compared = compare_value(reader, depth, item, no_metadata);
        let Some(next) = joined(items, compared) else {
            return Comparison::Unequal;
        };
        items = next;
        let Ok(more) = goes_on(reader, b']') else {
            return Comparison::Unequal;
        };
        if !more {
            return items;
        }
    }
}

// Whether a field has the name.
fn has_name(fields: &[Field], name: &str) -> bool
    ensures { result ≡ meets name.now (names_in fields.now) }
{
    for field in fields {
        if name == field.name.as_str() {
            return true;
        }
    }
    false
}

// The type of the field at an index, where that has the name and no field before it.
#[inline(always)]
fn field_type<'b>(
    fields: &'b [Field],
    index: usize,
    name: &str,
    no_metadata: &Metadata,
) -> Option<&'b DataType>
    requires { no_metadata.now ≡ [] }
    ensures next { IfSome result (λ t. IsNextField fields.now index name.now t.now) }
{
    if index >= fields.len() {
        return None;
    }
    let field = &fields[index];
    if !is_nullable(field, name, no_metadata) || has_name(&fields[..index], name) {
        return None;
    }
    Some(&field.data_type)
}

// Reads a member of an object, of which `index` members had the first fields, and tells how many
// then have them. `None` where the member isn't the next field, and is a field's or isn't Null.
#[cycle(compare)]
#[inline(always)]
fn read_member<'a>(
    reader: &mut Reader<'a>,
    depth: usize,
    fields: &[Field],
    index: usize,
    no_metadata: &Metadata,
) -> Option<usize>
    requires { no_metadata.now ≡ [] }
    ensures reads { IfSome result (λ next. ReadsMember fields.now index next reader.new
        (member_at (value_at depth) reader.old)) }
    ensures forward { length reader.new ≤ length reader.old }
{
    reader.skip_spaces();
    let name = reader.plain_string()?;
    let Ok(()) = name_separator(reader) else {
        return None;
    };
    reader.skip_spaces();
    if let Some(expected) = field_type(fields, index, name, no_metadata) {
        return match compare_value(reader, depth, Some(expected), no_metadata) {
            Comparison::Equal => Some(index + 1),
            _ => None,
        };
    }
    if has_name(fields, name) {
        return None;
    }
    match compare_value(reader, depth, None, no_metadata) {
        Comparison::Null => Some(index),
        _ => None,
    }
}

/// What follows the opening bracket of an object: whether its type is the Struct of these fields.
#[cycle(compare)]
#[inline(never)]
pub(crate) fn has_fields<'a>(
    reader: &mut Reader<'a>,
    depth: usize,
    fields: &[Field],
    no_metadata: &Metadata,
) -> bool
    requires { no_metadata.now ≡ [] }
    ensures reads { result ≡ true → (v : Json)
        × (object_at (value_at depth) reader.old ≡ found v reader.new)
        × (type_of v ≡ types.Struct fields.now) }
    ensures forward { length reader.new ≤ length reader.old }
{
    if fields.len() > COMPARED_FIELDS {
        return false;
    }
    if closes(reader, b'}') {
        return fields.is_empty();
    }
    let mut index = 0;
    loop {
        let Some(next) = read_member(reader, depth, fields, index, no_metadata) else {
            return false;
        };
        index = next;
        let Ok(more) = goes_on(reader, b'}') else {
            return false;
        };
        if !more {
            return index == fields.len();
        }
    }
}

/// Reads the value whose first byte is next, in which at most `depth` brackets are open at once,
/// and compares its type with the expected one, if there is any. `Unequal` is answered too where no
/// value comes, or one with more brackets open at once; how far the bytes were read then isn't said.
#[cycle(compare)]
#[inline(always)]
pub(crate) fn compare_value<'a>(
    reader: &mut Reader<'a>,
    depth: usize,
    expected: Option<&DataType>,
    no_metadata: &Metadata,
) -> Comparison
    requires { no_metadata.now ≡ [] }
    ensures reads { Compares result (option_map (λ t. t.now) expected.entry) reader.new
        (value_at depth reader.old) }
    ensures forward { length reader.new ≤ length reader.old }
{
    let Some(byte) = reader.peek() else {
        return Comparison::Unequal;
    };
    if byte == b'[' {
        reader.next();
        if depth == 0 {
            return Comparison::Unequal;
        }
        return compare_array(reader, depth - 1, expected, no_metadata);
    }
    if byte == b'{' {
        reader.next();
        if depth == 0 {
            return Comparison::Unequal;
        }
        return compare_object(reader, depth - 1, expected, no_metadata);
    }
    compare_scalar(reader, depth, expected)
}

// What follows the opening bracket of an object.
#[cycle(compare)]
#[inline(always)]
fn compare_object<'a>(
    reader: &mut Reader<'a>,
    depth: usize,
    expected: Option<&DataType>,
    no_metadata: &Metadata,
) -> Comparison
    requires { no_metadata.now ≡ [] }
    ensures reads { Compares result (option_map (λ t. t.now) expected.entry) reader.new
        (object_at (value_at depth) reader.old) }
    ensures forward { length reader.new ≤ length reader.old }
{
    match expected {
        Some(DataType::Struct(fields)) => {
            if has_fields(reader, depth, fields.as_slice(), no_metadata) {
                return Comparison::Equal;
            }
            Comparison::Unequal
        }
        _ => Comparison::Unequal,
    }
}
