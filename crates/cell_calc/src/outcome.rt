ghost use Rattle.std.specs.Prelude.{◌≡◌, [], ◌∷◌, IfOk, Ok};
ghost use Rattle.cell_calc.specs.Conversion.{number_of, text_of};
ghost use Rattle.cell_calc.specs.Outcome.{whole, text_within, both, leftmost_error, two_numbers, two_texts};

use crate::conversion::{error_in, is_within, number_of, text_of};
use cell_value::{Kind, LONGEST, NoMemory, Text, Value};
use std::alloc::Global;

/// A number, or [`Kind::Num`] past 2^53 either way.
pub(crate) fn whole(number: i128) -> Value
    ensures { result ≡ whole number }
{
    if is_within(number) {
        Value::Number(number as i64)
    } else {
        Value::Error(Kind::Num)
    }
}

/// A text, or [`Kind::Value`] of more than 50,000 bytes.
pub(crate) fn text_within(text: Text) -> Value
    ensures { result ≡ text_within text }
{
    if text.as_str().len() <= LONGEST {
        Value::Text(text)
    } else {
        Value::Error(Kind::Value)
    }
}

/// The error of the left one of two values, or that of the right one.
pub(crate) fn leftmost_error(left: &Value, right: &Value) -> Option<Kind>
    ensures { result ≡ leftmost_error (left.now ∷ right.now ∷ []) }
{
    error_in(left).or(error_in(right))
}

/// Two values as numbers, or the error of the left one, or that of the right one.
pub(crate) fn numbers_of(left: &Value, right: &Value) -> Result<(i64, i64), Kind>
    ensures { result ≡ both (number_of left.now) (number_of right.now) }
{
    let left = number_of(left)?;
    let right = number_of(right)?;
    Ok((left, right))
}

/// Two values as numbers, the leftmost error before anything else.
pub(crate) fn two_numbers(left: &Value, right: &Value) -> Result<(i64, i64), Kind>
    ensures { result ≡ two_numbers left.now right.now }
{
    match leftmost_error(left, right) {
        Some(fault) => Err(fault),
        None => numbers_of(left, right),
    }
}

/// Two values as texts, or the error of the left one, or that of the right one.
pub(crate) fn two_texts(
    alloc: Global,
    left: &Value,
    right: &Value,
) -> Result<Result<(Text, Text), Kind>, NoMemory>
    ensures { IfOk result (λ pair. pair ≡ two_texts left.now right.now) }
{
    match text_of(alloc, left)? {
        Ok(text) => with_text(alloc, text, right),
        Err(fault) => Ok(Err(fault)),
    }
}

fn with_text(
    alloc: Global,
    left: Text,
    right: &Value,
) -> Result<Result<(Text, Text), Kind>, NoMemory>
    ensures { IfOk result (λ pair. pair ≡ both (Ok left) (text_of right.now)) }
{
    match text_of(alloc, right)? {
        Ok(right) => Ok(Ok((left, right))),
        Err(fault) => Ok(Err(fault)),
    }
}
