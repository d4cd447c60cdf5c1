//! Mantissas in their parts.
ghost use Rattle.std.specs.Prelude.{◌≡◌, false, position, MatchOption};
ghost use Rattle.std.specs.Char.{is_ascii_digit};
ghost use Rattle.std.specs.List.{list_all, before_first};
ghost use Rattle.std.specs.Option.{option_map};
ghost use Rattle.json_flat.specs.Whole.{are_digits, is_int, is_mantissa, is_point, without_minus};
ghost use Rattle.json_flat.specs.Parts.{IsFraction, IsMantissaOf};
ghost use Rattle.std.specs.Str.Parse.{starts_with_minus};

/// A mantissa in its parts: whether a minus stands first, the digits before the point, and those
/// after it.
#[derive(Clone, Copy)]
pub(crate) struct Mantissa<'a> {
    pub negative: bool,
    pub integer: &'a [u8],
    pub fraction: &'a [u8],
}

// Whether each of these is a digit.
fn all_digits(bytes: &[u8]) -> bool
    ensures { result ≡ list_all is_ascii_digit bytes.now }
{
    bytes.iter().all(|byte| byte.is_ascii_digit())
}

/// Whether there are digits, and nothing else.
pub(crate) fn are_digits(bytes: &[u8]) -> bool
    ensures { result ≡ are_digits bytes.now }
{
    if bytes.is_empty() {
        return false;
    }
    all_digits(bytes)
}

// Whether these are 0 alone, or digits of which the first isn't 0.
fn is_integer(bytes: &[u8]) -> bool
    ensures { result ≡ is_int bytes.now }
{
    if !are_digits(bytes) {
        return false;
    }
    bytes[0] != b'0' || bytes.len() == 1
}

// Whether a minus stands first, and what follows it.
fn split_minus(bytes: &[u8]) -> (bool, &[u8])
    ensures negative { result.0 ≡ starts_with_minus bytes.now }
    ensures rest { result.1.now ≡ without_minus bytes.now }
{
    if !bytes.is_empty() && bytes[0] == b'-' {
        (true, &bytes[1..])
    } else {
        (false, bytes)
    }
}

fn find_point(bytes: &[u8]) -> Option<usize>
    ensures { result ≡ position is_point bytes.now }
{
    bytes.iter().position(|byte| *byte == b'.')
}

// What stands before the point, and what stands behind it, if there is one.
fn split_point(bytes: &[u8]) -> (&[u8], Option<&[u8]>)
    ensures integer { result.0.now ≡ before_first is_point bytes.now }
    ensures fraction { IsFraction bytes.now (option_map (λ f. f.now) result.1) }
{
    match find_point(bytes) {
        None => (bytes, None),
        Some(point) => (&bytes[..point], Some(&bytes[point + 1..])),
    }
}

impl<'a> Mantissa<'a> {
    /// The parts of a mantissa, or `None` exactly where the bytes are none.
    pub(crate) fn split(bytes: &'a [u8]) -> Option<Mantissa<'a>>
        ensures { MatchOption result (is_mantissa bytes.now ≡ false)
            (λ m. IsMantissaOf bytes.now m) }
    {
        let (negative, unsigned) = split_minus(bytes);
        let (integer, behind) = split_point(unsigned);
        if !is_integer(integer) {
            return None;
        }
        let fraction = match behind {
            None => &[],
            Some(fraction) => {
                if !are_digits(fraction) {
                    return None;
                }
                fraction
            }
        };
        Some(Mantissa {
            negative,
            integer,
            fraction,
        })
    }
}
