ghost use Rattle.std.specs.Prelude.{◌≡◌, ◌≢◌, pos, int_div};
ghost use Rattle.cell_calc.specs.Outcome.{whole};
ghost use Rattle.cell_calc.specs.NumberFunctions.{absolute, sign, floored_remainder, unless_zero, modulo, whole_quotient};

use crate::arithmetic::cut_quotient;
use crate::conversion::number_of;
use crate::outcome::{two_numbers, whole};
use cell_value::{Kind, Value};

/// ABS: the number without its sign.
pub fn absolute(value: &Value) -> Value
    ensures { result ≡ absolute value.now }
{
    match number_of(value) {
        Ok(number) => whole(i128::from(number.unsigned_abs())),
        Err(fault) => Value::Error(fault),
    }
}

/// SIGN: 1 above 0, 0, or -1 below 0.
pub fn sign(value: &Value) -> Value
    ensures { result ≡ sign value.now }
{
    match number_of(value) {
        Ok(number) => whole(i128::from(number.signum())),
        Err(fault) => Value::Error(fault),
    }
}

/// MOD: the remainder with the sign of the divisor, or [`Kind::Div0`] of a divisor 0.
pub fn modulo(left: &Value, right: &Value) -> Value
    ensures { result ≡ modulo left.now right.now }
{
    match two_numbers(left, right) {
        Ok((left, right)) => remainder(left, right),
        Err(fault) => Value::Error(fault),
    }
}

/// QUOTIENT: the quotient cut towards 0, or [`Kind::Div0`] of a divisor 0.
pub fn whole_quotient(left: &Value, right: &Value) -> Value
    ensures { result ≡ whole_quotient left.now right.now }
{
    match two_numbers(left, right) {
        Ok((left, right)) => divided(left, right),
        Err(fault) => Value::Error(fault),
    }
}

fn remainder(left: i64, right: i64) -> Value
    ensures { result ≡ unless_zero right (whole (floored_remainder left right)) }
{
    if right == 0 {
        Value::Error(Kind::Div0)
    } else {
        whole(floored_remainder(left, right))
    }
}

/// The remainder of a division rounded down.
fn floored_remainder(left: i64, right: i64) -> i128
    requires { right ≢ pos 0 }
    ensures { result ≡ floored_remainder left right }
{
    let left = i128::from(left);
    let right = i128::from(right);
    if right.is_negative() {
        -(-left).rem_euclid(right)
    } else {
        left.rem_euclid(right)
    }
}

fn divided(left: i64, right: i64) -> Value
    ensures { result ≡ unless_zero right (whole (int_div left right)) }
{
    if right == 0 {
        Value::Error(Kind::Div0)
    } else {
        whole(cut_quotient(left, right))
    }
}
