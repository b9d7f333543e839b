ghost use Rattle.std.specs.Prelude.{◌≡◌, ◌<◌, ◌==◌, ◌&&◌, true, false, [], ◌∷◌, length, List, IfOk};
ghost use Rattle.cell_calc.specs.Arguments.{Given, Cells, value_of, value_of_cells};
ghost use Rattle.cell_calc.specs.Lent.{StandsFor, StandFor, AreCells};
ghost use Rattle.cell_calc.specs.FunctionNames.{takes_any};
ghost use Rattle.cell_calc.specs.FunctionValues.{function_value, called_value};

use super::gathering::{
    all_value, any_value, count_all_value, count_value, greatest_value, joined_value, least_value,
    sum_value,
};
use super::logic::{chosen, is_blank, is_error, is_number, is_text, negated, unless_it_fails};
use super::look_up::{
    column_count, indexed_value, matched_place, matches_counted, row_count, value_in_place,
};
use super::names::function_named;
use super::numbers::{absolute, modulo, sign, whole_quotient};
use super::sum_if::matches_summed;
use super::table::Function;
use super::texts::{left_part, middle_part, right_part, same_text, text_length};
use crate::arguments::{AreaCells, Argument};
use cell_value::{Duplicate, Kind, NoMemory, Value};
use std::alloc::Global;

/// The value of what a formula calls by a name: [`Kind::Name`] where no function has it, and [`Kind::Na`] of a
/// number of arguments that the function doesn't take, whatever they are.
///
/// # Errors
///
/// [`NoMemory`] where memory runs out.
pub fn called_value(alloc: Global, name: &str, arguments: &[Argument]) -> Result<Value, NoMemory>
    ensures { (given : List Given) → StandFor arguments.now given
        → IfOk result (λ value. value ≡ called_value name.now given) }
{
    match function_named(name) {
        Some(function) => function_value(alloc, function, arguments),
        None => Ok(Value::Error(Kind::Name)),
    }
}

/// The value of a function by its arguments: [`Kind::Na`] of a number of them that it doesn't take.
///
/// # Errors
///
/// [`NoMemory`] where memory runs out.
pub fn function_value(
    alloc: Global,
    function: Function,
    arguments: &[Argument],
) -> Result<Value, NoMemory>
    ensures { (given : List Given) → StandFor arguments.now given
        → IfOk result (λ value. value ≡ function_value function given) }
{
    if arguments.is_empty() {
        return Ok(Value::Error(Kind::Na));
    }
    if function.takes_any() {
        return of_some(alloc, function, arguments);
    }
    match arguments {
        [one] => of_one(alloc, function, one),
        [one, other] => of_two(alloc, function, one, other),
        [one, other, third] => of_three(alloc, function, one, other, third),
        [] => Ok(Value::Error(Kind::Na)),
        [_, _, _, _, ..] => Ok(Value::Error(Kind::Na)),
    }
}

/// The value of a function of one or more arguments.
fn of_some(alloc: Global, function: Function, arguments: &[Argument]) -> Result<Value, NoMemory>
    requires function { takes_any function ≡ true }
    requires some { 0 < length arguments.now }
    ensures { (given : List Given) → StandFor arguments.now given
        → IfOk result (λ value. value ≡ function_value function given) }
{
    match function {
        Function::Sum => sum_value(alloc, arguments),
        Function::Min => least_value(alloc, arguments),
        Function::Max => greatest_value(alloc, arguments),
        Function::Count => count_value(alloc, arguments),
        Function::CountA => count_all_value(alloc, arguments),
        Function::And => all_value(alloc, arguments),
        Function::Or => any_value(alloc, arguments),
        Function::Concatenate => joined_value(alloc, arguments),
        Function::If
        | Function::Not
        | Function::Abs
        | Function::Sign
        | Function::Mod
        | Function::Quotient
        | Function::Len
        | Function::Left
        | Function::Right
        | Function::Mid
        | Function::Exact
        | Function::Index
        | Function::Match
        | Function::CountIf
        | Function::SumIf
        | Function::Rows
        | Function::Columns
        | Function::IsBlank
        | Function::IsNumber
        | Function::IsText
        | Function::IsError
        | Function::IfError => Ok(Value::Error(Kind::Na)),
    }
}

/// The value of a function of one argument.
fn of_one(alloc: Global, function: Function, one: &Argument) -> Result<Value, NoMemory>
    requires { takes_any function ≡ false }
    ensures { (x : Given) → StandsFor one.now x
        → IfOk result (λ value. value ≡ function_value function (x ∷ [])) }
{
    match function {
        Function::Not => Ok(negated(&value_of(one)?)),
        Function::Abs => Ok(absolute(&value_of(one)?)),
        Function::Sign => Ok(sign(&value_of(one)?)),
        Function::Len => text_length(alloc, &value_of(one)?),
        Function::Left => left_part(alloc, &value_of(one)?, &Value::Number(1)),
        Function::Right => right_part(alloc, &value_of(one)?, &Value::Number(1)),
        Function::Rows => Ok(row_count(one)),
        Function::Columns => Ok(column_count(one)),
        Function::IsBlank => Ok(Value::Truth(is_blank(&value_of(one)?))),
        Function::IsNumber => Ok(Value::Truth(is_number(&value_of(one)?))),
        Function::IsText => Ok(Value::Truth(is_text(&value_of(one)?))),
        Function::IsError => Ok(Value::Truth(is_error(&value_of(one)?))),
        Function::IfError => unless_it_fails(&value_of(one)?, &Value::Blank),
        Function::Sum
        | Function::Min
        | Function::Max
        | Function::Count
        | Function::CountA
        | Function::If
        | Function::And
        | Function::Or
        | Function::Mod
        | Function::Quotient
        | Function::Mid
        | Function::Concatenate
        | Function::Exact
        | Function::Index
        | Function::Match
        | Function::CountIf
        | Function::SumIf => Ok(Value::Error(Kind::Na)),
    }
}

/// The value of a function of two arguments.
fn of_two(
    alloc: Global,
    function: Function,
    one: &Argument,
    other: &Argument,
) -> Result<Value, NoMemory>
    requires { takes_any function ≡ false }
    ensures { (x y : Given) → StandsFor one.now x → StandsFor other.now y
        → IfOk result (λ value. value ≡ function_value function (x ∷ y ∷ [])) }
{
    match function {
        Function::If => chosen(&value_of(one)?, &value_of(other)?, &Value::Truth(false)),
        Function::Mod => Ok(modulo(&value_of(one)?, &value_of(other)?)),
        Function::Quotient => Ok(whole_quotient(&value_of(one)?, &value_of(other)?)),
        Function::Left => left_part(alloc, &value_of(one)?, &value_of(other)?),
        Function::Right => right_part(alloc, &value_of(one)?, &value_of(other)?),
        Function::Exact => same_text(alloc, &value_of(one)?, &value_of(other)?),
        Function::Index => indexed_value(one, &value_of(other)?, &Value::Number(1)),
        Function::Match => Ok(matched_place(&value_of(one)?, other, &Value::Number(1))),
        Function::CountIf => matches_counted(one, &value_of(other)?),
        Function::SumIf => matches_summed(alloc, one, &value_of(other)?, one),
        Function::IfError => unless_it_fails(&value_of(one)?, &value_of(other)?),
        Function::Sum
        | Function::Min
        | Function::Max
        | Function::Count
        | Function::CountA
        | Function::And
        | Function::Or
        | Function::Not
        | Function::Abs
        | Function::Sign
        | Function::Len
        | Function::Mid
        | Function::Concatenate
        | Function::Rows
        | Function::Columns
        | Function::IsBlank
        | Function::IsNumber
        | Function::IsText
        | Function::IsError => Ok(Value::Error(Kind::Na)),
    }
}

/// The value of a function of three arguments.
fn of_three(
    alloc: Global,
    function: Function,
    one: &Argument,
    other: &Argument,
    third: &Argument,
) -> Result<Value, NoMemory>
    requires { takes_any function ≡ false }
    ensures { (x y z : Given) → StandsFor one.now x → StandsFor other.now y → StandsFor third.now z
        → IfOk result (λ value. value ≡ function_value function (x ∷ y ∷ z ∷ [])) }
{
    match function {
        Function::If => chosen(&value_of(one)?, &value_of(other)?, &value_of(third)?),
        Function::Mid => middle_part(alloc, &value_of(one)?, &value_of(other)?, &value_of(third)?),
        Function::Index => indexed_value(one, &value_of(other)?, &value_of(third)?),
        Function::Match => Ok(matched_place(&value_of(one)?, other, &value_of(third)?)),
        Function::SumIf => matches_summed(alloc, one, &value_of(other)?, third),
        Function::Sum
        | Function::Min
        | Function::Max
        | Function::Count
        | Function::CountA
        | Function::And
        | Function::Or
        | Function::Not
        | Function::Abs
        | Function::Sign
        | Function::Mod
        | Function::Quotient
        | Function::Len
        | Function::Left
        | Function::Right
        | Function::Concatenate
        | Function::Exact
        | Function::CountIf
        | Function::Rows
        | Function::Columns
        | Function::IsBlank
        | Function::IsNumber
        | Function::IsText
        | Function::IsError
        | Function::IfError => Ok(Value::Error(Kind::Na)),
    }
}

/// A copy of the value where one value stands: of an area that of its only cell, and else [`Kind::Value`].
fn value_of(argument: &Argument) -> Result<Value, NoMemory>
    ensures { (x : Given) → StandsFor argument.now x → IfOk result (λ value. value ≡ value_of x) }
{
    match argument {
        Argument::Single(value) => value.duplicate(),
        Argument::Area(cells) => value_of_cells(cells),
    }
}

/// A copy of the value of an area's only cell, and else [`Kind::Value`].
pub(crate) fn value_of_cells(cells: &AreaCells) -> Result<Value, NoMemory>
    ensures { (all : Cells) → AreCells cells.now all → IfOk result (λ value. value ≡ value_of_cells all.values) }
{
    if is_one_cell(cells.rows, cells.columns) {
        value_in_place(cells.filled.as_slice(), 0)
    } else {
        Ok(Value::Error(Kind::Value))
    }
}

fn is_one_cell(rows: u32, columns: u32) -> bool
    ensures { result ≡ (rows == 1 && columns == 1) }
{
    rows == 1 && columns == 1
}
