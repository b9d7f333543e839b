ghost use Rattle.std.specs.Prelude.{◌≡◌, IfOk};
ghost use Rattle.cell_calc.specs.LogicFunctions.{negated, chosen, unless_it_fails, is_blank, is_number, is_text, is_error};

use crate::conversion::{error_in, truth_of};
use cell_value::{Duplicate, NoMemory, Value};

/// NOT: the other truth value.
pub fn negated(value: &Value) -> Value
    ensures { result ≡ negated value.now }
{
    match truth_of(value) {
        Ok(truth) => Value::Truth(!truth),
        Err(fault) => Value::Error(fault),
    }
}

/// IF: a copy of the one value where the condition is TRUE, and else of the other one. An error of the
/// value that isn't taken doesn't matter.
///
/// # Errors
///
/// [`NoMemory`] where memory runs out.
pub fn chosen(condition: &Value, one: &Value, other: &Value) -> Result<Value, NoMemory>
    ensures { IfOk result (λ value. value ≡ chosen condition.now one.now other.now) }
{
    match truth_of(condition) {
        Ok(true) => one.duplicate(),
        Ok(false) => other.duplicate(),
        Err(fault) => Ok(Value::Error(fault)),
    }
}

/// IFERROR: a copy of the value, or of the other one where it is an error.
///
/// # Errors
///
/// [`NoMemory`] where memory runs out.
pub fn unless_it_fails(value: &Value, other: &Value) -> Result<Value, NoMemory>
    ensures { IfOk result (λ kept. kept ≡ unless_it_fails value.now other.now) }
{
    match error_in(value) {
        Some(_) => other.duplicate(),
        None => value.duplicate(),
    }
}

/// ISBLANK: whether nothing is there.
pub fn is_blank(value: &Value) -> bool
    ensures { result ≡ is_blank value.now }
{
    matches!(value, Value::Blank)
}

/// ISNUMBER: whether the value is a number.
pub fn is_number(value: &Value) -> bool
    ensures { result ≡ is_number value.now }
{
    matches!(value, Value::Number(_))
}

/// ISTEXT: whether the value is a text.
pub fn is_text(value: &Value) -> bool
    ensures { result ≡ is_text value.now }
{
    matches!(value, Value::Text(_))
}

/// ISERROR: whether the value is an error.
pub fn is_error(value: &Value) -> bool
    ensures { result ≡ is_error value.now }
{
    error_in(value).is_some()
}
