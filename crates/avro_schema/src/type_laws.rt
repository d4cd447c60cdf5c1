//! Laws and examples of types, and of which schemas are carried.

ghost use Rattle.avro_schema.specs.TypeExamples.{TypeTable, LargeTypeTable, NullableExamples, CarriedExamples};
ghost use Rattle.avro_schema.specs.TypeLaws.{SmallFormsFit, CarriedHasColumn, InferredIsTyped, NotInferred, InferredComposites, TypeComposites, FloatComposites, EnumComposites, SmallComposites};

/// Each carried schema has a column's type and nullability, and a type of small forms alone fits as
/// one of small or large forms. A column that is made from a schema has the schema's type and
/// nullability, and none is made exactly where a map stands at some depth, or a union that is not
/// of null and one type that is neither null nor a union.
pub fn types_of_schemas()
    ensures carried { CarriedHasColumn }
    ensures small { SmallFormsFit }
    ensures inferred { InferredIsTyped }
    ensures not_inferred { NotInferred }
{}

/// What the definitions of types say of arrays, unions and records, in terms of the lists of
/// members and of fields that code sees.
pub fn types_by_lists()
    ensures types { TypeComposites }
    ensures floats { FloatComposites }
    ensures enums { EnumComposites }
    ensures small { SmallComposites }
    ensures inferred { InferredComposites }
{}

/// Which type each kind of schema and each logical type has, which fields are nullable, and which
/// schemas are not carried, case by case.
pub fn type_examples()
    ensures types { TypeTable }
    ensures large_types { LargeTypeTable }
    ensures nullable { NullableExamples }
    ensures carried { CarriedExamples }
{}
