ghost use Rattle.std.specs.Prelude.{◌≡◌, IfOk};
ghost use Rattle.cell_calc.specs.Conversion.{is_within, within, number_in, truth_in, number_of, truth_of, error_in, text_of};

use cell_value::{Kind, LARGEST, NoMemory, Text, Value, show};
use std::alloc::Global;

/// Whether the number is within 2^53 either way.
pub(crate) fn is_within(number: i128) -> bool
    ensures { result ≡ is_within number }
{
    number.unsigned_abs() <= u128::from(LARGEST)
}

/// The whole number within 2^53 either way that the text writes: digits behind an optional sign.
pub(crate) fn number_in(text: &str) -> Option<i64>
    ensures { result ≡ number_in text.now }
{
    match text.parse::<i64>() {
        Ok(number) => within(number),
        Err(_) => None,
    }
}

/// The number, where it is within 2^53 either way.
fn within(number: i64) -> Option<i64>
    ensures { result ≡ within number }
{
    if number.unsigned_abs() <= LARGEST {
        Some(number)
    } else {
        None
    }
}

/// The truth value that the text writes, in any ASCII case.
pub(crate) fn truth_in(text: &str) -> Option<bool>
    ensures { result ≡ truth_in text.now }
{
    if text.eq_ignore_ascii_case("TRUE") {
        Some(true)
    } else if text.eq_ignore_ascii_case("FALSE") {
        Some(false)
    } else {
        None
    }
}

/// The value as a number: blank is 0, and a truth value is 1 or 0. An error is itself, and a text that
/// writes no number is [`Kind::Value`].
pub(crate) fn number_of(value: &Value) -> Result<i64, Kind>
    ensures { result ≡ number_of value.now }
{
    match value {
        Value::Blank => Ok(0),
        Value::Number(number) => Ok(*number),
        Value::Text(text) => number_in(text.as_str()).ok_or(Kind::Value),
        Value::Truth(truth) => Ok(if *truth { 1 } else { 0 }),
        Value::Error(fault) => Err(*fault),
    }
}

/// The value as a truth value: blank is FALSE, and a number is TRUE unless it is 0. An error is itself,
/// and a text that writes no truth value is [`Kind::Value`].
pub(crate) fn truth_of(value: &Value) -> Result<bool, Kind>
    ensures { result ≡ truth_of value.now }
{
    match value {
        Value::Blank => Ok(false),
        Value::Number(number) => Ok(*number != 0),
        Value::Text(text) => truth_in(text.as_str()).ok_or(Kind::Value),
        Value::Truth(truth) => Ok(*truth),
        Value::Error(fault) => Err(*fault),
    }
}

/// The error that the value is.
pub(crate) fn error_in(value: &Value) -> Option<Kind>
    ensures { result ≡ error_in value.now }
{
    match value {
        Value::Blank | Value::Number(_) | Value::Text(_) | Value::Truth(_) => None,
        Value::Error(fault) => Some(*fault),
    }
}

/// The value as a text: the one that it shows, and nothing for blank. An error is itself.
pub(crate) fn text_of(alloc: Global, value: &Value) -> Result<Result<Text, Kind>, NoMemory>
    ensures { IfOk result (λ text. text ≡ text_of value.now) }
{
    match error_in(value) {
        Some(fault) => Ok(Err(fault)),
        None => Ok(Ok(show(alloc, value)?)),
    }
}
