//! Tests of what no clause of `arrow_core` says.
use arrow_core::{
    Box, DataType, Field, IntegerType, IntervalUnit, Items, Metadata, MonthsDaysNs, NativeType,
    Offset, PhysicalType, PrimitiveType, Schema, Text, TimeUnit,
};
use std::alloc::Global;
use std::process::Abort;

#[test]
fn an_offset_keeps_its_number(rt: HostRuntime) {
    let short = i32::from_usize(2147483647).expect(&rt, "the greatest of 32 bits");
    assert!(rt; short == 2147483647 && short.to_usize() == 2147483647);
    let long = i64::from_usize(9223372036854775807).expect(&rt, "the greatest of 64 bits");
    assert!(rt; long.to_usize() == 9223372036854775807);
    assert!(rt;
        i32::from_usize(2147483648) == None && i64::from_usize(9223372036854775808) == None
    );
    assert!(rt; (-1i32).checked_to_usize() == None && 7i64.checked_to_usize() == Some(7));
}

fn is_zero<T: NativeType>(value: T) -> bool {
    value == T::zero()
}

#[test]
fn a_zero_is_all_zeros(rt: HostRuntime) {
    let interval = MonthsDaysNs {
        months: 0,
        days: 0,
        ns: 1,
    };
    assert!(rt; is_zero(0u64) && !is_zero(1i128) && !is_zero(interval));
}

fn text(rt: &impl Abort, alloc: Global, text: &str) -> Text {
    Text::try_from_str(alloc, text).expect(rt, "memory")
}

fn moment(rt: &impl Abort, alloc: Global) -> DataType {
    DataType::Timestamp(TimeUnit::Microsecond, Some(text(rt, alloc, "00:00")))
}

fn list(rt: &impl Abort, alloc: Global) -> DataType {
    let item = Field::new(alloc, text(rt, alloc, "item"), moment(rt, alloc), true);
    DataType::List(Box::new(alloc, item).expect(rt, "memory"))
}

fn plain_field(rt: &impl Abort, alloc: Global, name: &str) -> Field {
    Field::new(alloc, text(rt, alloc, name), list(rt, alloc), false)
}

fn one_entry(rt: &impl Abort, alloc: Global) -> Metadata {
    let mut metadata = Metadata::new(alloc);
    metadata
        .insert(text(rt, alloc, "k"), text(rt, alloc, "v"))
        .expect(rt, "memory");
    metadata
}

/// A field of lists of moments, with an entry of metadata.
fn nested_field(rt: &impl Abort, alloc: Global) -> Field {
    plain_field(rt, alloc, "a").with_metadata(one_entry(rt, alloc))
}

fn nullable_field(rt: &impl Abort, alloc: Global) -> Field {
    let mut field = nested_field(rt, alloc);
    field.is_nullable = true;
    field
}

fn schema(rt: &impl Abort, alloc: Global, name: &str) -> Schema {
    let fields = vec![in alloc; plain_field(rt, alloc, name)].expect(rt, "memory");
    Schema {
        fields: Items::from_vec(fields),
        metadata: Metadata::new(alloc),
    }
}

fn are_equal(left: Field, right: Field) -> bool {
    let are_equal = left == right;
    drop((left, right));
    are_equal
}

fn field_is_copied(rt: &impl Abort, alloc: Global, field: Field) -> bool {
    are_equal(field.try_clone(alloc).expect(rt, "memory"), field)
}

fn type_is_copied(rt: &impl Abort, alloc: Global, data_type: DataType) -> bool {
    let copy = data_type.try_clone(alloc).expect(rt, "memory");
    let is_copied = copy == data_type;
    drop((copy, data_type));
    is_copied
}

fn are_equal_schemas(left: Schema, right: Schema) -> bool {
    let are_equal = left == right;
    drop((left, right));
    are_equal
}

fn schema_is_copied(rt: &impl Abort, alloc: Global, schema: Schema) -> bool {
    are_equal_schemas(schema.try_clone(alloc).expect(rt, "memory"), schema)
}

#[test]
fn a_copy_is_the_same(rt: HostRuntime) {
    assert!(rt; type_is_copied(&rt, rt.alloc(), list(&rt, rt.alloc())));
    assert!(rt; field_is_copied(&rt, rt.alloc(), nested_field(&rt, rt.alloc())));
    assert!(rt; schema_is_copied(&rt, rt.alloc(), schema(&rt, rt.alloc(), "a")));
}

#[test]
fn fields_of_another_nullability_name_or_metadata_differ(rt: HostRuntime) {
    let alloc = rt.alloc();
    assert!(rt; !are_equal(nested_field(&rt, alloc), nullable_field(&rt, alloc)));
    assert!(rt; !are_equal(plain_field(&rt, alloc, "a"), plain_field(&rt, alloc, "b")));
    assert!(rt; !are_equal(nested_field(&rt, alloc), plain_field(&rt, alloc, "a")));
    assert!(rt; DataType::Utf8 != DataType::LargeUtf8);
}

#[test]
fn schemas_whose_fields_have_other_names_differ(rt: HostRuntime) {
    let alloc = rt.alloc();
    assert!(rt; !are_equal_schemas(schema(&rt, alloc, "a"), schema(&rt, alloc, "b")));
}

fn extension(rt: &impl Abort, alloc: Global) -> DataType {
    let day = Box::new(alloc, DataType::Date32).expect(rt, "memory");
    DataType::Extension(text(rt, alloc, "day"), day, None)
}

fn dictionary(rt: &impl Abort, alloc: Global) -> DataType {
    let values = Box::new(alloc, DataType::Utf8).expect(rt, "memory");
    DataType::Dictionary(IntegerType::Int32, values, false)
}

fn lies_as(data_type: DataType, physical: PhysicalType) -> bool {
    let lies_so = data_type.to_physical_type() == physical;
    drop(data_type);
    lies_so
}

fn lies_as_primitive(data_type: DataType, primitive: PrimitiveType) -> bool {
    lies_as(data_type, PhysicalType::Primitive(primitive))
}

#[test]
fn a_type_lies_as_the_type_beneath(rt: HostRuntime) {
    assert!(rt; lies_as_primitive(extension(&rt, rt.alloc()), PrimitiveType::Int32));
    assert!(rt;
        lies_as_primitive(
            DataType::Interval(IntervalUnit::DayTime),
            PrimitiveType::DaysMs
        )
    );
    assert!(rt; lies_as_primitive(DataType::Decimal(9, 2), PrimitiveType::Int128));
    assert!(rt;
        lies_as(
            dictionary(&rt, rt.alloc()),
            PhysicalType::Dictionary(IntegerType::Int32)
        )
    );
}
