ghost use Rattle.formula_reader.specs.declared.tokens.token.Token.{Token};
ghost use Rattle.formula_reader.specs.Form.{Fits, Sign};
ghost use Rattle.formula_reader.specs.Tokens.{FitsFirst, signs};
ghost use Rattle.formula_reader.specs.Reading.{Reads, seen};

use super::token::{Operator, Token};

/// The sign at the front of a text: `#REF!`, an operator, a bracket or a comma.
pub(crate) fn read_sign(text: &str) -> Option<(Token, &str)>
    ensures { Reads (FitsFirst signs) text.now (seen result) }
{
    spelled(text, "#REF!", Token::Lost)
        .or(spelled(text, "<>", Token::Operator(Operator::NotEqual)))
        .or(spelled(text, "<=", Token::Operator(Operator::AtMost)))
        .or(spelled(text, ">=", Token::Operator(Operator::AtLeast)))
        .or(spelled(text, "<", Token::Operator(Operator::Less)))
        .or(spelled(text, ">", Token::Operator(Operator::Greater)))
        .or(spelled(text, "=", Token::Operator(Operator::Equal)))
        .or(spelled(text, "+", Token::Operator(Operator::Add)))
        .or(spelled(text, "-", Token::Operator(Operator::Subtract)))
        .or(spelled(text, "*", Token::Operator(Operator::Multiply)))
        .or(spelled(text, "/", Token::Operator(Operator::Divide)))
        .or(spelled(text, "&", Token::Operator(Operator::Join)))
        .or(spelled(text, "(", Token::Open))
        .or(spelled(text, ")", Token::Close))
        .or(spelled(text, ",", Token::Comma))
}

/// The sign, where the text begins with its spelling.
fn spelled<'a>(text: &'a str, spelling: &str, sign: Token) -> Option<(Token, &'a str)>
    ensures { Reads (Fits (Sign spelling.now sign)) text.entry.now (seen result) }
{
    let rest = text.strip_prefix(spelling)?;
    Some((sign, rest))
}
