ghost use Rattle.std.specs.Prelude.{◌≡◌, IfOk};
ghost use Rattle.std.specs.Cmp.Lexicographic.{slice_cmp};
ghost use Rattle.std.specs.Ordering.{nat_cmp};
ghost use Rattle.std.specs.Str.{str_to_ascii_lowercase};
ghost use Rattle.cell_value.specs.declared.cell.Kind.{Kind};
ghost use Rattle.cell_value.specs.declared.cell.Value.TheVariants as value;
ghost use Rattle.cell_calc.specs.Comparison.{compared};

use cell_value::{NoMemory, Value};
use std::alloc::Global;
use std::cmp::Ordering;

/// How two values compare: numbers are below texts, and texts below truth values; texts by their bytes
/// with small letters in place of A to Z, and FALSE below TRUE. Blank counts as 0, the empty text or FALSE
/// by the kind of the other one.
pub(crate) fn compared(alloc: Global, left: &Value, right: &Value) -> Result<Ordering, NoMemory>
    ensures { IfOk result (λ order. order ≡ compared left.now right.now) }
{
    match left {
        Value::Blank => blank_beside(alloc, right),
        Value::Number(number) => Ok(number_beside(*number, right)),
        Value::Text(text) => text_beside(alloc, text.as_str(), right),
        Value::Truth(truth) => Ok(truth_beside(*truth, right)),
        Value::Error(_) => Ok(error_beside(right)),
    }
}

fn blank_beside(alloc: Global, right: &Value) -> Result<Ordering, NoMemory>
    ensures { IfOk result (λ order. order ≡ compared value.Blank right.now) }
{
    match right {
        Value::Blank => Ok(Ordering::Equal),
        Value::Number(number) => Ok(0.cmp(number)),
        Value::Text(text) => text_order(alloc, "", text.as_str()),
        Value::Truth(truth) => Ok(false.cmp(truth)),
        Value::Error(_) => Ok(Ordering::Less),
    }
}

fn number_beside(left: i64, right: &Value) -> Ordering
    ensures { result ≡ compared (value.Number left) right.now }
{
    match right {
        Value::Blank => left.cmp(&0),
        Value::Number(number) => left.cmp(number),
        Value::Text(_) => Ordering::Less,
        Value::Truth(_) => Ordering::Less,
        Value::Error(_) => Ordering::Less,
    }
}

fn text_beside(alloc: Global, left: &str, right: &Value) -> Result<Ordering, NoMemory>
    ensures { IfOk result (λ order. order ≡ compared (value.Text left.now) right.now) }
{
    match right {
        Value::Blank => text_order(alloc, left, ""),
        Value::Number(_) => Ok(Ordering::Greater),
        Value::Text(text) => text_order(alloc, left, text.as_str()),
        Value::Truth(_) => Ok(Ordering::Less),
        Value::Error(_) => Ok(Ordering::Less),
    }
}

fn truth_beside(left: bool, right: &Value) -> Ordering
    ensures { result ≡ compared (value.Truth left) right.now }
{
    match right {
        Value::Blank => left.cmp(&false),
        Value::Number(_) => Ordering::Greater,
        Value::Text(_) => Ordering::Greater,
        Value::Truth(truth) => left.cmp(truth),
        Value::Error(_) => Ordering::Less,
    }
}

fn error_beside(right: &Value) -> Ordering
    ensures { (fault : Kind) → result ≡ compared (value.Error fault) right.now }
{
    match right {
        Value::Blank => Ordering::Greater,
        Value::Number(_) => Ordering::Greater,
        Value::Text(_) => Ordering::Greater,
        Value::Truth(_) => Ordering::Greater,
        Value::Error(_) => Ordering::Equal,
    }
}

/// How two texts compare by their bytes, with small letters in place of A to Z.
fn text_order(alloc: Global, left: &str, right: &str) -> Result<Ordering, NoMemory>
    ensures { IfOk result (λ order.
        order ≡ slice_cmp nat_cmp (str_to_ascii_lowercase left.now) (str_to_ascii_lowercase right.now)) }
{
    let left = left.to_ascii_lowercase(alloc)?;
    let right = right.to_ascii_lowercase(alloc)?;
    Ok(left.as_str().cmp(right.as_str()))
}
