//! Names and numbers in the words of a command line.

ghost use Rattle.std.specs.Prelude.{◌≡◌, ◌↔◌, ℕ, true, None, IfSome};
ghost use Rattle.cli_words.specs.Names.{name_byte, IsName, IsRows, IsSize};

/// The most digits of a number of rows.
const ROWS_DIGITS: usize = 20;

/// The most digits of a size, a precision or a scale.
const SIZE_DIGITS: usize = 10;

/// The greatest size, precision or scale.
pub(crate) const GREATEST_SIZE: usize = 2_147_483_647;

/// Whether a name has one or more letters, digits, `_`, `-` and `.`, and nothing else.
pub fn is_name(name: &str) -> bool
    ensures { (result ≡ true) ↔ IsName name.now }
{
    !name.is_empty() && name.bytes().all(is_name_byte)
}

fn is_name_byte(byte: u8) -> bool
    ensures { result ≡ name_byte byte }
{
    byte.is_ascii_alphanumeric() || matches!(byte, b'_' | b'-' | b'.')
}

/// The number of a word of 1 to 20 decimal digits, below 2 to the power of 64.
pub fn read_rows(word: &str) -> Option<usize>
    ensures rows { IfSome result (λ rows. IsRows word.now rows) }
    ensures none { result ≡ None → (rows : ℕ) → IsRows word.now rows → ⊥ }
{
    // `parse` takes a plus sign before the digits, and a word of rows has none.
    if word.len() > ROWS_DIGITS || word.starts_with('+') {
        return None;
    }
    word.parse().ok()
}

/// The number of a word of 1 to 10 decimal digits, up to 2147483647.
pub fn read_size(word: &str) -> Option<usize>
    ensures size { IfSome result (λ size. IsSize word.now size) }
    ensures none { result ≡ None → (size : ℕ) → IsSize word.now size → ⊥ }
{
    if word.len() > SIZE_DIGITS {
        return None;
    }
    match read_rows(word) {
        Some(size) if size <= GREATEST_SIZE => Some(size),
        _ => None,
    }
}
