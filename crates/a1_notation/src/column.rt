ghost use Rattle.std.specs.Prelude.{◌≡◌, ◌↔◌, ℕ, ◌+◌, ◌<◌, ◌≤◌, min, length, map, IsTrue, IfOk, IsSome, IfSome, Some};
ghost use Rattle.std.specs.List.{list_all};
ghost use Rattle.std.specs.Char.{is_ascii_alphabetic, to_ascii_uppercase};
ghost use Rattle.a1_notation.specs.Column.{IsColumn, AreLetters, letters_value, column_letters};

use cell_value::{NoMemory, Text};
use std::alloc::Global;

/// The number of columns that have a name: `A` to `ZZZ`.
pub const NAMED_COLUMNS: u32 = 18_278;

/// The letters of a column, in upper case.
///
/// # Errors
///
/// [`NoMemory`] where memory runs out.
pub fn column_text(alloc: Global, column: u32) -> Result<Text, NoMemory>
    requires { column < NAMED_COLUMNS }
    ensures letters { IfOk result (λ text. text ≡ column_letters column) }
    ensures reads_back { IfOk result (λ text. IsColumn 3 text column) }
{
    let text = if column < 26 {
        format!(in alloc; "{}", letter(column))?
    } else if column < 702 {
        let place = column - 26;
        format!(in alloc; "{}{}", letter(place / 26), letter(place % 26))?
    } else {
        let place = column - 702;
        let (first, second) = (place / 676, place / 26 % 26);
        format!(in alloc; "{}{}{}", letter(first), letter(second), letter(place % 26))?
    };
    Ok(Text::of(text))
}

/// The column that one to three letters name, in either case; None where the text isn't one to three
/// ASCII letters.
pub fn read_column(text: &str) -> Option<u32>
    ensures column { IfSome result (IsColumn 3 text.now) }
    ensures letters { IsSome result ↔ AreLetters 3 text.now }
    ensures only { (column : ℕ) → IsColumn 3 text.now column → result ≡ Some column }
    ensures upper_case { IfSome result (λ column. column_letters column ≡ map to_ascii_uppercase text.now) }
{
    let letters = text.as_bytes();
    if letters.is_empty() || !are_letters(letters) {
        return None;
    }
    let column = capped_column(letters);
    (column < NAMED_COLUMNS).then_some(column)
}

/// Whether each byte is an ASCII letter.
fn are_letters(bytes: &[u8]) -> bool
    ensures { result ≡ list_all is_ascii_alphabetic bytes.now }
{
    bytes.iter().all(|byte| byte.is_ascii_alphabetic())
}

/// The column of the letters; a column past `ZZZ` is `NAMED_COLUMNS`.
pub(crate) fn capped_column(letters: &[u8]) -> u32
    requires some { 0 < length letters.now }
    requires letters { IsTrue (list_all is_ascii_alphabetic letters.now) }
    ensures { result + 1 ≡ min (letters_value letters.now) (NAMED_COLUMNS + 1) }
{
    let mut number = 0;
    for letter in letters {
        let value = u32::from(letter.to_ascii_uppercase() - b'A') + 1;
        number = (26 * number + value).min(NAMED_COLUMNS + 1);
    }
    number - 1
}

/// The letter at a place of the alphabet, counted from 0.
fn letter(place: u32) -> char
    requires { place < 26 }
    ensures { result ≡ 65 + place }
{
    char::from(b'A' + place as u8)
}
