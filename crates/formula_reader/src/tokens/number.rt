ghost use Rattle.formula_reader.specs.Form.{IsNumber};
ghost use Rattle.formula_reader.specs.Reading.{Reads, seen};

use super::token::Token;
use a1_notation::Class;
use cell_value::LARGEST;

/// The number at the front of a text: all the digits there, with a value of at most 2^53.
pub(crate) fn read_number(text: &str) -> Option<(Token, &str)>
    ensures { Reads IsNumber text.now (seen result) }
{
    let (digits, rest) = Class::Digit.split(text);
    let number = digits.parse::<u64>().ok()?;
    if number > LARGEST {
        return None;
    }
    Some((Token::Number(number as i64), rest))
}
