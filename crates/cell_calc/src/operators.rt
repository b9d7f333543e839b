ghost use Rattle.std.specs.Prelude.{◌≡◌, IfOk, ◌+ℤ◌, ◌-ℤ◌, ◌*ℤ◌, ◌++◌};
ghost use Rattle.cell_calc.specs.Outcome.{value_by, two_numbers, two_texts, whole, text_within};
ghost use Rattle.cell_calc.specs.Operators.{operation, operated, quotient, negation};

use crate::arithmetic::{cut_quotient, difference, is_exact, product, sum};
use crate::comparison::compared;
use crate::conversion::number_of;
use crate::outcome::{leftmost_error, text_within, two_numbers, two_texts, whole};
use cell_value::{Kind, NoMemory, Text, Value};
use formula_reader::Operator;
use std::alloc::Global;

/// The value of an operator between two operands (Google Docs Editors Help, "Google Sheets function list":
/// ADD, MINUS, MULTIPLY, DIVIDE, CONCAT, EQ, NE, LT, LTE, GT and GTE). An operand in error gives its error,
/// the left one first. Arithmetic takes numbers: a division by 0 is [`Kind::Div0`], and a number past 2^53
/// either way or a quotient that isn't whole [`Kind::Num`]; an operand that is none, and a text of more than
/// 50,000 bytes, is [`Kind::Value`].
///
/// # Errors
///
/// [`NoMemory`] where memory runs out.
pub fn operation(
    alloc: Global,
    operator: Operator,
    left: &Value,
    right: &Value,
) -> Result<Value, NoMemory>
    ensures { IfOk result (λ value. value ≡ operation operator left.now right.now) }
{
    match leftmost_error(left, right) {
        Some(fault) => Ok(Value::Error(fault)),
        None => operated(alloc, operator, left, right),
    }
}

/// The value of an operator between two operands that are no errors.
fn operated(
    alloc: Global,
    operator: Operator,
    left: &Value,
    right: &Value,
) -> Result<Value, NoMemory>
    ensures { IfOk result (λ value. value ≡ operated operator left.now right.now) }
{
    match operator {
        Operator::Equal => Ok(Value::Truth(compared(alloc, left, right)?.is_eq())),
        Operator::NotEqual => Ok(Value::Truth(compared(alloc, left, right)?.is_ne())),
        Operator::Less => Ok(Value::Truth(compared(alloc, left, right)?.is_lt())),
        Operator::AtMost => Ok(Value::Truth(compared(alloc, left, right)?.is_le())),
        Operator::Greater => Ok(Value::Truth(compared(alloc, left, right)?.is_gt())),
        Operator::AtLeast => Ok(Value::Truth(compared(alloc, left, right)?.is_ge())),
        Operator::Join => joined(alloc, left, right),
        Operator::Add => Ok(added(left, right)),
        Operator::Subtract => Ok(subtracted(left, right)),
        Operator::Multiply => Ok(multiplied(left, right)),
        Operator::Divide => Ok(divided(left, right)),
    }
}

/// The value of `-` before an operand (Google Docs Editors Help, "Google Sheets function list": UMINUS).
pub fn negation(operand: &Value) -> Value
    ensures { result ≡ negation operand.now }
{
    match number_of(operand) {
        Ok(number) => whole(-i128::from(number)),
        Err(fault) => Value::Error(fault),
    }
}

/// The texts of two values, one behind the other.
fn joined(alloc: Global, left: &Value, right: &Value) -> Result<Value, NoMemory>
    ensures { IfOk result (λ value. value ≡
        value_by (λ pair. text_within (pair.0 ++ pair.1)) (two_texts left.now right.now)) }
{
    match two_texts(alloc, left, right)? {
        Ok((front, back)) => {
            let mut text = front.into_string();
            text.push_str(back.as_str())?;
            Ok(text_within(Text::of(text)))
        }
        Err(fault) => Ok(Value::Error(fault)),
    }
}

fn added(left: &Value, right: &Value) -> Value
    ensures { result ≡ value_by (λ pair. whole (pair.0 +ℤ pair.1)) (two_numbers left.now right.now) }
{
    match two_numbers(left, right) {
        Ok((left, right)) => whole(sum(left, right)),
        Err(fault) => Value::Error(fault),
    }
}

fn subtracted(left: &Value, right: &Value) -> Value
    ensures { result ≡ value_by (λ pair. whole (pair.0 -ℤ pair.1)) (two_numbers left.now right.now) }
{
    match two_numbers(left, right) {
        Ok((left, right)) => whole(difference(left, right)),
        Err(fault) => Value::Error(fault),
    }
}

fn multiplied(left: &Value, right: &Value) -> Value
    ensures { result ≡ value_by (λ pair. whole (pair.0 *ℤ pair.1)) (two_numbers left.now right.now) }
{
    match two_numbers(left, right) {
        Ok((left, right)) => whole(product(left, right)),
        Err(fault) => Value::Error(fault),
    }
}

fn divided(left: &Value, right: &Value) -> Value
    ensures { result ≡ value_by (λ pair. quotient pair.0 pair.1) (two_numbers left.now right.now) }
{
    match two_numbers(left, right) {
        Ok((left, right)) => quotient(left, right),
        Err(fault) => Value::Error(fault),
    }
}

/// A quotient: [`Kind::Div0`] of a divisor 0, and [`Kind::Num`] where it isn't whole.
fn quotient(left: i64, right: i64) -> Value
    ensures { result ≡ quotient left right }
{
    if right == 0 {
        Value::Error(Kind::Div0)
    } else if is_exact(left, right) {
        whole(cut_quotient(left, right))
    } else {
        Value::Error(Kind::Num)
    }
}
