ghost use Rattle.std.specs.Prelude.{◌≡◌, IfOk};
ghost use Rattle.basic_filter.specs.Number.{number_of};
ghost use Rattle.basic_filter.specs.Condition.{holds};

use crate::texts::{contains, ends_with, starts_with};
use crate::types::Condition;
use cell_value::{NoMemory, Value};
use std::alloc::Global;

impl Condition {
    /// Whether the condition is true of a cell that has the value and shows the text.
    ///
    /// # Errors
    ///
    /// [`NoMemory`] where memory runs out.
    pub(crate) fn holds(&self, alloc: Global, value: &Value, shown: &str) -> Result<bool, NoMemory>
        ensures { IfOk result (λ held. held ≡ holds self.now value.now shown.now) }
    {
        let number = number_of(value);
        match self {
            Condition::NumberGreater(bound) => Ok(number.is_some_and(|number| number > *bound)),
            Condition::NumberGreaterThanEq(bound) => {
                Ok(number.is_some_and(|number| number >= *bound))
            }
            Condition::NumberLess(bound) => Ok(number.is_some_and(|number| number < *bound)),
            Condition::NumberLessThanEq(bound) => Ok(number.is_some_and(|number| number <= *bound)),
            Condition::NumberEq(other) => Ok(number.is_some_and(|number| number == *other)),
            Condition::NumberNotEq(other) => Ok(number.is_some_and(|number| number != *other)),
            Condition::NumberBetween(first, last) => {
                Ok(number.is_some_and(|number| *first <= number && number <= *last))
            }
            Condition::TextContains(part) => contains(alloc, shown, part.as_str()),
            Condition::TextNotContains(part) => Ok(!contains(alloc, shown, part.as_str())?),
            Condition::TextStartsWith(start) => starts_with(alloc, shown, start.as_str()),
            Condition::TextEndsWith(end) => ends_with(alloc, shown, end.as_str()),
            Condition::TextEq(text) => Ok(shown.eq_ignore_ascii_case(text.as_str())),
            Condition::Blank => Ok(shown.is_empty()),
            Condition::NotBlank => Ok(!shown.is_empty()),
        }
    }
}

/// The number that a cell of the value holds, if it holds one.
fn number_of(value: &Value) -> Option<i64>
    ensures { result ≡ number_of value.now }
{
    match value {
        Value::Number(number) => Some(*number),
        Value::Blank | Value::Text(_) | Value::Truth(_) | Value::Error(_) => None,
    }
}
