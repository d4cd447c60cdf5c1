//! Parts of a type's word: what stands between two brackets, and a record's first field.

ghost use Rattle.std.specs.Prelude.{◌≡◌, ◌<◌, ◌∷◌, [], ◌++◌, ℕ, List, None, IfSome, length};
ghost use Rattle.cli_words.specs.FieldEnd.{field_length};

/// What stands between a word's first byte and its last, where these are the two brackets.
pub fn inside_of(word: &str, opening: char, closing: char) -> Option<&str>
    requires opening { opening < 128 }
    requires closing { closing < 128 }
    ensures inside { IfSome result
        (λ inside. word.now ≡ (opening ∷ []) ++ (inside.now ++ (closing ∷ []))) }
    ensures none { result ≡ None
        → (inside : List ℕ) → word.now ≡ (opening ∷ []) ++ (inside ++ (closing ∷ [])) → ⊥ }
{
    let Some(rest) = word.strip_prefix(opening) else {
        return None;
    };
    rest.strip_suffix(closing)
}

/// A record's first field and the fields after it, where a semicolon ends the first.
pub fn split_field(fields: &str) -> Option<(&str, &str)>
    ensures fields { IfSome result (λ split. fields.now ≡ split.0.now ++ (59 ∷ split.1.now)) }
    ensures first { IfSome result (λ split. length split.0.now ≡ field_length 0 fields.now) }
    ensures none { result ≡ None → field_length 0 fields.now ≡ length fields.now }
{
    let end = field_end(fields);
    if end == fields.len() {
        return None;
    }
    Some((&fields[..end], &fields[end + 1..]))
}

/// How many bytes a record's first field has: those before the first semicolon outside of the
/// braces of records in it, or all.
fn field_end(fields: &str) -> usize
    ensures { result ≡ field_length 0 fields.now }
{
    let mut level: usize = 0;
    for (i, byte) in fields.as_bytes().iter().enumerate() {
        match *byte {
            b';' if level == 0 => return i,
            b'{' => level += 1,
            b'}' if level > 0 => level -= 1,
            _ => {}
        }
    }
    fields.len()
}
