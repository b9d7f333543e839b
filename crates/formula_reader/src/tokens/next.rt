ghost use Rattle.std.specs.Prelude.{◌≡◌, ◌++◌, ◌∷◌, false, IfOk, slice_index};
ghost use Rattle.a1_notation.specs.Run.{begins};
ghost use Rattle.a1_notation.specs.Word.{IsWord, begins_word};
ghost use Rattle.formula_reader.specs.Parts.{is_quote, is_double_quote};
ghost use Rattle.formula_reader.specs.Form.{IsBehindTitle};
ghost use Rattle.formula_reader.specs.Tokens.{FitsFirst, forms};
ghost use Rattle.formula_reader.specs.Reading.{Reads, seen};

use super::number::read_number;
use super::reference::read_reference;
use super::sign::read_sign;
use super::token::{MarkedArea, Token};
use super::word::{owned, word_token};
use a1_notation::{read_quoted, split_word};
use cell_value::{NoMemory, Text};
use std::alloc::Global;

/// The token at the front of a text, and the rest behind it; None where nothing fits there.
///
/// # Errors
///
/// [`NoMemory`] where memory runs out.
pub(crate) fn read_token(alloc: Global, text: &str) -> Result<Option<(Token, &str)>, NoMemory>
    ensures { IfOk result (λ answer. Reads (FitsFirst forms) text.now (seen answer)) }
{
    if let Some((word, behind)) = split_word(text) {
        return read_from_word(alloc, text, word, behind);
    }
    if let Some(inside) = text.strip_prefix('\'') {
        return read_from_title(alloc, inside);
    }
    if let Some(inside) = text.strip_prefix('"') {
        return read_text(alloc, inside);
    }
    Ok(read_plain(text))
}

/// The token of a text that begins with a word: a reference to another sheet, the name of a function, a
/// reference to cells of the same sheet, or the word.
fn read_from_word<'a>(
    alloc: Global,
    text: &'a str,
    word: &'a str,
    behind: &'a str,
) -> Result<Option<(Token, &'a str)>, NoMemory>
    requires whole { text.now ≡ word.now ++ behind.now }
    requires word { IsWord word.now behind.now }
    ensures { IfOk result (λ answer. Reads (FitsFirst forms) text.entry.now (seen answer)) }
{
    if let Some((written, rest)) = read_behind_title(behind) {
        let title = owned(alloc, word)?;
        return Ok(Some((Token::TitledReference(title, written), rest)));
    }
    if behind.starts_with('(') {
        let name = owned(alloc, word)?;
        return Ok(Some((Token::Function(name), behind)));
    }
    if let Some((written, rest)) = read_reference(text) {
        return Ok(Some((Token::Reference(written), rest)));
    }
    let token = word_token(alloc, word)?;
    Ok(Some((token, behind)))
}

/// The token of a text that begins with a `'`, from behind it: a reference to another sheet.
fn read_from_title(alloc: Global, inside: &str) -> Result<Option<(Token, &str)>, NoMemory>
    ensures { IfOk result (λ answer. Reads (FitsFirst forms) (39 ∷ inside.now) (seen answer)) }
{
    let Some((title, behind)) = read_quoted(alloc, inside, '\'')? else {
        return Ok(None);
    };
    if title.is_empty() {
        return Ok(None);
    }
    let Some((written, rest)) = read_behind_title(behind) else {
        return Ok(None);
    };
    let title = Text::of(title);
    Ok(Some((Token::TitledReference(title, written), rest)))
}

/// The token of a text that begins with a `"`, from behind it: a text.
fn read_text(alloc: Global, inside: &str) -> Result<Option<(Token, &str)>, NoMemory>
    ensures { IfOk result (λ answer. Reads (FitsFirst forms) (34 ∷ inside.now) (seen answer)) }
{
    let Some((text, rest)) = read_quoted(alloc, inside, '"')? else {
        return Ok(None);
    };
    Ok(Some((Token::Text(Text::of(text)), rest)))
}

/// The token of a text that begins with no word and no quote: a reference, a number or a sign.
fn read_plain(text: &str) -> Option<(Token, &str)>
    requires word { begins begins_word text.now ≡ false }
    requires title { begins is_quote text.now ≡ false }
    requires text { begins is_double_quote text.now ≡ false }
    ensures { Reads (FitsFirst forms) text.now (seen result) }
{
    match read_reference(text) {
        Some((written, rest)) => Some((Token::Reference(written), rest)),
        None => match read_number(text) {
            Some(found) => Some(found),
            None => read_sign(text),
        },
    }
}

/// The reference behind a `!` at the front of a text.
fn read_behind_title(text: &str) -> Option<(MarkedArea, &str)>
    ensures { Reads IsBehindTitle text.now (seen result) }
{
    read_reference(text.strip_prefix('!')?)
}
