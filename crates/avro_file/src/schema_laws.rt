//! Laws of the definitions. The functions do nothing: the contract of each is a law.
ghost use Rattle.std.specs.Prelude.{◌≡◌, ◌≤◌, ℕ, List};
ghost use Rattle.json_tree.specs.Meaning.{IsJson};
ghost use Rattle.json_tree.specs.Tree.{Json};
ghost use Rattle.avro_schema.specs.declared.schema.Schema.{Schema};
ghost use Rattle.avro_file.specs.Reading.{IsSchemaText, SchemaTextRefused, reading, schema_of};
ghost use Rattle.avro_file.specs.declared.fault.SchemaTextFault.{SchemaTextFault};
ghost use Rattle.avro_file.specs.declared.fault.SchemaTextFault.TheVariants.{Memory};
ghost use Rattle.avro_file.specs.Writable.{IsWritable};
ghost use Rattle.avro_file.specs.Writing.{schema_text_of};

/// A text stands for one schema at most.
pub fn one_text_one_schema()
    ensures { (bytes : List ℕ) (one other : Schema) → IsSchemaText bytes one
        → IsSchemaText bytes other → one ≡ other }
{}

/// Schemas in a JSON text nest at most as deep as `schema_of` follows them: followed deeper, the value
/// of a text is read as the same.
pub fn depth_is_enough()
    ensures { (bytes : List ℕ) (value : Json) (depth : ℕ) → IsJson value bytes → 129 ≤ depth
        → reading depth value ≡ schema_of value }
{}

/// The text that `schema_text` writes for a writable schema stands for that schema: of it
/// `read_schema_text` gives that schema and no other, or `Memory` and no other fault.
pub fn written_text_is_read()
    ensures stands { (schema : Schema) → IsWritable schema
        → IsSchemaText (schema_text_of schema) schema }
    ensures one { (schema other : Schema) → IsWritable schema
        → IsSchemaText (schema_text_of schema) other → other ≡ schema }
    ensures memory { (schema : Schema) (fault : SchemaTextFault) → IsWritable schema
        → SchemaTextRefused (schema_text_of schema) fault → fault ≡ Memory }
{}
