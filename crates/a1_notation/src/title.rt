ghost use Rattle.std.specs.Prelude.{◌≡◌, ◌↔◌, ◌<◌, ◌==◌, ◌||◌, length, IfOk, IsTrue, string_bytes};
ghost use Rattle.std.specs.Char.{is_ascii_alphabetic, is_ascii_alphanumeric};
ghost use Rattle.std.specs.List.{list_all};
ghost use Rattle.a1_notation.specs.Quoted.{quoted};
ghost use Rattle.a1_notation.specs.Title.{IsTitle, IsLoose, is_loose, is_plain, printed_title};

use cell_value::{NoMemory, Text};
use std::alloc::Global;

/// A title as it is printed: plain where its first character is an ASCII letter or `_` and the rest
/// are ASCII letters, digits or `_`; otherwise in quotes, with each `'` doubled.
///
/// # Errors
///
/// [`NoMemory`] where memory runs out.
pub fn quote_name(alloc: Global, title: &str) -> Result<Text, NoMemory>
    ensures printed { IfOk result (λ text. text ≡ printed_title title.now) }
    ensures reads_back { 0 < length title.now → IfOk result (λ text. IsTitle text title.now) }
{
    if is_plain(title) {
        return Ok(Text::of(String::from_str(alloc, title)?));
    }
    Ok(Text::of(quoted(alloc, title)?))
}

/// Whether a title is printed without quotes.
fn is_plain(title: &str) -> bool
    ensures { result ≡ is_plain title.now }
{
    match title.as_bytes() {
        [first, rest @ ..] => begins_word(*first) && are_word_bytes(rest),
        [] => false,
    }
}

/// Whether a byte is an ASCII letter or `_`.
fn begins_word(byte: u8) -> bool
    ensures { result ≡ (is_ascii_alphabetic byte || byte == 95) }
{
    byte.is_ascii_alphabetic() || byte == b'_'
}

/// Whether each byte is an ASCII letter, an ASCII digit or `_`.
fn are_word_bytes(bytes: &[u8]) -> bool
    ensures { result ≡ list_all (λ b. is_ascii_alphanumeric b || b == 95) bytes.now }
{
    bytes
        .iter()
        .all(|byte| byte.is_ascii_alphanumeric() || *byte == b'_')
}

/// A title in quotes, with each `'` doubled.
fn quoted(alloc: Global, title: &str) -> Result<String, NoMemory>
    ensures { IfOk result (λ text. string_bytes text ≡ quoted 39 title.now) }
{
    let mut text = String::from_str(alloc, "'")?;
    let mut rest = title;
    while let Some((plain, behind)) = rest.split_once('\'') {
        text.push_str(plain)?;
        text.push_str("''")?;
        rest = behind;
    }
    text.push_str(rest)?;
    text.push('\'')?;
    Ok(text)
}

/// Whether a text stands for itself: one or more characters other than `'` and `!`.
pub(crate) fn is_loose(text: &str) -> bool
    ensures { IsTrue result ↔ IsLoose text.now text.now }
{
    !text.is_empty() && are_loose(text.as_bytes())
}

/// Whether no byte is `'` or `!`.
fn are_loose(bytes: &[u8]) -> bool
    ensures { result ≡ list_all is_loose bytes.now }
{
    bytes.iter().all(|byte| *byte != b'\'' && *byte != b'!')
}
