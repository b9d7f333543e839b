ghost use Rattle.std.specs.Prelude.{◌≡◌, IfOk};
ghost use Rattle.formula_reader.specs.Form.{word_token};

use super::token::Token;
use cell_value::{NoMemory, Text};
use std::alloc::Global;

/// A word's token: TRUE and FALSE are truth values in any ASCII case.
///
/// # Errors
///
/// [`NoMemory`] where memory runs out.
pub(crate) fn word_token(alloc: Global, word: &str) -> Result<Token, NoMemory>
    ensures { IfOk result (λ token. token ≡ word_token word.now) }
{
    if word.eq_ignore_ascii_case("TRUE") {
        return Ok(Token::Truth(true));
    }
    if word.eq_ignore_ascii_case("FALSE") {
        return Ok(Token::Truth(false));
    }
    Ok(Token::Word(owned(alloc, word)?))
}

/// A text of its own with the same bytes.
pub(crate) fn owned(alloc: Global, text: &str) -> Result<Text, NoMemory>
    ensures { IfOk result (λ owned. owned ≡ text.now) }
{
    Ok(Text::of(String::from_str(alloc, text)?))
}
