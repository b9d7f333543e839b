ghost use Rattle.std.specs.Prelude.{◌≡◌, ◌↔◌, IsTrue, slice_index};
ghost use Rattle.std.specs.List.{list_all};
ghost use Rattle.std.specs.Char.{is_ascii_digit};
ghost use Rattle.named_ranges.specs.NameRule.{IsName, IsCell, is_name_byte};

use a1_notation::{Class, read_column, read_row};

/// The longest name, in bytes.
const LONGEST: usize = 250;

/// Whether a text may be the name of a named range.
pub(crate) fn is_name(text: &str) -> bool
    ensures { IsTrue result ↔ IsName text.now }
{
    !text.is_empty()
        && text.len() <= LONGEST
        && are_name_bytes(text.as_bytes())
        && !begins_with_digit(text)
        && !text.eq_ignore_ascii_case("true")
        && !text.eq_ignore_ascii_case("false")
        && !is_cell(text)
}

/// Whether each byte is an ASCII letter, a digit or `_`.
fn are_name_bytes(bytes: &[u8]) -> bool
    ensures { result ≡ list_all is_name_byte bytes.now }
{
    bytes
        .iter()
        .all(|byte| byte.is_ascii_alphanumeric() || *byte == b'_')
}

/// Whether the first byte is a digit.
fn begins_with_digit(text: &str) -> bool
    ensures { result ≡ is_ascii_digit (slice_index text.now 0) }
{
    matches!(text.as_bytes(), [b'0'..=b'9', ..])
}

/// Whether the text is a cell in A1 text: a column's letters and a row's number.
fn is_cell(text: &str) -> bool
    ensures { IsTrue result ↔ IsCell text.now }
{
    let (letters, digits) = Class::Letter.split(text);
    read_column(letters).is_some() && read_row(digits).is_some()
}
