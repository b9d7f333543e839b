ghost use Rattle.std.specs.Prelude.{◌≡◌, ◌++◌, ◌+ℤ◌, pos, fold, map, flat_map, length, slice_index_or, count_by, is_ok, Bool, List, IfOk, OnOk};
ghost use Rattle.std.specs.Int.{int_min, int_max};
ghost use Rattle.std.specs.List.{list_all, list_any};
ghost use Rattle.cell_calc.specs.Arguments.{Given};
ghost use Rattle.cell_calc.specs.Conversion.{number_of};
ghost use Rattle.cell_calc.specs.Outcome.{leftmost, whole, text_within, value_by};
ghost use Rattle.cell_calc.specs.Lent.{StandFor};
ghost use Rattle.cell_calc.specs.GatheringFunctions.{gathered, all_good, best_of, truth_by, sum_value, least_value, greatest_value, all_value, any_value, joined_value, count_value, count_all_value};
ghost use Rattle.cell_calc.specs.Taken.{is_taken, cell_taken, taken_of, values_of, all_taken, error_lent};

use crate::arguments::{Argument, FilledCell, error_lent};
use crate::conversion::{number_of, text_of, truth_of};
use crate::outcome::{text_within, whole};
use cell_value::{Items, Kind, NoMemory, Text, Value};
use std::alloc::Global;

/// Which cells of an area a function takes.
#[derive(Clone, Copy, Debug, PartialEq, Eq)]
pub(super) enum Taking {
    /// Numbers.
    Numbers,
    /// Numbers and errors.
    NumbersAndErrors,
    /// Truth values, numbers and errors.
    TruthsAndErrors,
    /// All that hold something.
    Filled,
}

impl Taking {
    /// Whether the cell is taken.
    pub(super) fn takes(self, value: &Value) -> bool
        ensures { result ≡ is_taken self value.now }
    {
        match self {
            Taking::Numbers => matches!(value, Value::Number(_)),
            Taking::NumbersAndErrors => matches!(value, Value::Number(_) | Value::Error(_)),
            Taking::TruthsAndErrors => {
                matches!(value, Value::Number(_) | Value::Truth(_) | Value::Error(_))
            }
            Taking::Filled => !matches!(value, Value::Blank),
        }
    }
}

/// SUM: the sum of numbers, of areas the cells that are numbers alone; [`Kind::Num`] where it is past 2^53
/// either way as a whole. An argument in error gives its error, and a cell in error too, the leftmost first.
///
/// # Errors
///
/// [`NoMemory`] where memory runs out.
pub fn sum_value(alloc: Global, arguments: &[Argument]) -> Result<Value, NoMemory>
    ensures { (given : List Given) → StandFor arguments.now given
        → IfOk result (λ value. value ≡ sum_value given) }
{
    let gathered = gathered::<i64>(alloc, arguments, Taking::NumbersAndErrors)?;
    Ok(sum_of(gathered))
}

/// MIN: the least of the numbers that SUM adds, or 0 of none.
///
/// # Errors
///
/// [`NoMemory`] where memory runs out.
pub fn least_value(alloc: Global, arguments: &[Argument]) -> Result<Value, NoMemory>
    ensures { (given : List Given) → StandFor arguments.now given
        → IfOk result (λ value. value ≡ least_value given) }
{
    let gathered = gathered::<i64>(alloc, arguments, Taking::NumbersAndErrors)?;
    Ok(least_of(gathered))
}

/// MAX: the greatest of the numbers that SUM adds, or 0 of none.
///
/// # Errors
///
/// [`NoMemory`] where memory runs out.
pub fn greatest_value(alloc: Global, arguments: &[Argument]) -> Result<Value, NoMemory>
    ensures { (given : List Given) → StandFor arguments.now given
        → IfOk result (λ value. value ≡ greatest_value given) }
{
    let gathered = gathered::<i64>(alloc, arguments, Taking::NumbersAndErrors)?;
    Ok(greatest_of(gathered))
}

/// AND: whether all truth values are TRUE, of areas the cells that are truth values or numbers alone;
/// [`Kind::Value`] of none.
///
/// # Errors
///
/// [`NoMemory`] where memory runs out.
pub fn all_value(alloc: Global, arguments: &[Argument]) -> Result<Value, NoMemory>
    ensures { (given : List Given) → StandFor arguments.now given
        → IfOk result (λ value. value ≡ all_value given) }
{
    let gathered = gathered::<bool>(alloc, arguments, Taking::TruthsAndErrors)?;
    Ok(all_of(gathered))
}

/// OR: whether one of the truth values that AND takes is TRUE; [`Kind::Value`] of none.
///
/// # Errors
///
/// [`NoMemory`] where memory runs out.
pub fn any_value(alloc: Global, arguments: &[Argument]) -> Result<Value, NoMemory>
    ensures { (given : List Given) → StandFor arguments.now given
        → IfOk result (λ value. value ≡ any_value given) }
{
    let gathered = gathered::<bool>(alloc, arguments, Taking::TruthsAndErrors)?;
    Ok(any_of(gathered))
}

/// CONCATENATE: the texts one behind another, of areas cell by cell; [`Kind::Value`] of more than 50,000
/// bytes.
///
/// # Errors
///
/// [`NoMemory`] where memory runs out.
pub fn joined_value(alloc: Global, arguments: &[Argument]) -> Result<Value, NoMemory>
    ensures { (given : List Given) → StandFor arguments.now given
        → IfOk result (λ value. value ≡ joined_value given) }
{
    let gathered = gathered::<Text>(alloc, arguments, Taking::Filled)?;
    joined_of(alloc, gathered)
}

/// COUNT: how many of the arguments, and of the cells of areas, are numbers; errors are none.
///
/// # Errors
///
/// [`NoMemory`] where memory runs out.
pub fn count_value(alloc: Global, arguments: &[Argument]) -> Result<Value, NoMemory>
    ensures { (given : List Given) → StandFor arguments.now given
        → IfOk result (λ value. value ≡ count_value given) }
{
    let values = all_taken(alloc, arguments, Taking::Numbers)?;
    Ok(numbers_counted(values.as_slice()))
}

/// COUNTA: how many arguments there are, and cells of areas that hold something; errors count.
///
/// # Errors
///
/// [`NoMemory`] where memory runs out.
pub fn count_all_value(alloc: Global, arguments: &[Argument]) -> Result<Value, NoMemory>
    ensures { (given : List Given) → StandFor arguments.now given
        → IfOk result (λ value. value ≡ count_all_value given) }
{
    let values = all_taken(alloc, arguments, Taking::Filled)?;
    Ok(values_counted(values.as_slice()))
}

/// What a function takes values as.
pub(super) trait Reading {
    ghost use Rattle.std.specs.Prelude.{Result};
    ghost use Rattle.cell_value.specs.declared.cell.Kind.{Kind};
    ghost use Rattle.cell_value.specs.declared.cell.Value.{Value};

    /// What a value is taken as.
    ghost reading: { Value → Result Self Kind };

    /// The value as such, or its error.
    fn read(alloc: Global, value: &Value) -> Result<Result<Self, Kind>, NoMemory>
        ensures { IfOk result (λ read. read ≡ reading value.now) };
}

impl Reading for i64 {
    ghost use Rattle.cell_calc.specs.Conversion.{number_of};

    ghost reading = { number_of };

    fn read(_alloc: Global, value: &Value) -> Result<Result<i64, Kind>, NoMemory> {
        Ok(number_of(value))
    }
}

impl Reading for bool {
    ghost use Rattle.cell_calc.specs.Conversion.{truth_of};

    ghost reading = { truth_of };

    fn read(_alloc: Global, value: &Value) -> Result<Result<bool, Kind>, NoMemory> {
        Ok(truth_of(value))
    }
}

impl Reading for Text {
    ghost use Rattle.cell_calc.specs.Conversion.{text_of};

    ghost reading = { text_of };

    fn read(alloc: Global, value: &Value) -> Result<Result<Text, Kind>, NoMemory> {
        text_of(alloc, value)
    }
}

/// What the values of all arguments are, or the leftmost error, an argument in error before anything else.
fn gathered<T: Reading + Drop>(
    alloc: Global,
    arguments: &[Argument],
    taking: Taking,
) -> Result<Result<Items<T>, Kind>, NoMemory>
    ensures { (given : List Given) → StandFor arguments.now given
        → IfOk result (λ all. all ≡ gathered T.reading (is_taken taking) given) }
{
    match error_among(arguments) {
        Some(fault) => Ok(Err(fault)),
        None => read_taken(alloc, arguments, taking),
    }
}

/// What the values of all arguments are that are taken, or the leftmost error.
fn read_taken<T: Reading + Drop>(
    alloc: Global,
    arguments: &[Argument],
    taking: Taking,
) -> Result<Result<Items<T>, Kind>, NoMemory>
    ensures { IfOk result (λ all. all ≡ all_good (map T.reading (all_taken taking arguments.now))) }
{
    let values = all_taken(alloc, arguments, taking)?;
    all_read(alloc, values.as_slice())
}

/// What the values are, or the leftmost error.
pub(super) fn all_read<T: Reading + Drop>(
    alloc: Global,
    values: &[&Value],
) -> Result<Result<Items<T>, Kind>, NoMemory>
    ensures { IfOk result (λ all. all ≡ all_good (map T.reading (values_of values.now))) }
{
    let mut all = Vec::new(alloc);
    for value in values {
        match T::read(alloc, *value)? {
            Ok(read) => all.push(read)?,
            Err(fault) => return Ok(Err(fault)),
        }
    }
    Ok(Ok(Items::of(all)))
}

/// The leftmost argument's error.
fn error_among(arguments: &[Argument]) -> Option<Kind>
    ensures { result ≡ leftmost (map error_lent arguments.now) }
{
    for argument in arguments {
        if let Some(fault) = error_lent(argument) {
            return Some(fault);
        }
    }
    None
}

pub(super) fn sum_of(numbers: Result<Items<i64>, Kind>) -> Value
    ensures { result ≡ value_by (λ numbers. whole (fold ◌+ℤ◌ (pos 0) numbers)) numbers }
{
    match numbers {
        Ok(numbers) => whole(total(numbers.as_slice())),
        Err(fault) => Value::Error(fault),
    }
}

fn least_of(numbers: Result<Items<i64>, Kind>) -> Value
    ensures { result ≡ value_by (λ numbers. whole (best_of int_min numbers)) numbers }
{
    match numbers {
        Ok(numbers) => whole(i128::from(least(numbers.as_slice()))),
        Err(fault) => Value::Error(fault),
    }
}

fn greatest_of(numbers: Result<Items<i64>, Kind>) -> Value
    ensures { result ≡ value_by (λ numbers. whole (best_of int_max numbers)) numbers }
{
    match numbers {
        Ok(numbers) => whole(i128::from(greatest(numbers.as_slice()))),
        Err(fault) => Value::Error(fault),
    }
}

fn all_of(truths: Result<Items<bool>, Kind>) -> Value
    ensures { result ≡ value_by (truth_by (list_all (λ truth. truth))) truths }
{
    match truths {
        Ok(truths) => all_true(truths.as_slice()),
        Err(fault) => Value::Error(fault),
    }
}

fn any_of(truths: Result<Items<bool>, Kind>) -> Value
    ensures { result ≡ value_by (truth_by (list_any (λ truth. truth))) truths }
{
    match truths {
        Ok(truths) => any_true(truths.as_slice()),
        Err(fault) => Value::Error(fault),
    }
}

fn joined_of(alloc: Global, texts: Result<Items<Text>, Kind>) -> Result<Value, NoMemory>
    ensures { IfOk result (λ value. value ≡ value_by (λ texts. text_within (flat_map (λ text. text) texts)) texts) }
{
    match texts {
        Ok(texts) => Ok(text_within(joined(alloc, texts.as_slice())?)),
        Err(fault) => Ok(Value::Error(fault)),
    }
}

/// The sum of the numbers.
fn total(numbers: &[i64]) -> i128
    ensures { result ≡ fold ◌+ℤ◌ (pos 0) numbers.now }
{
    let mut sum = 0;
    for number in numbers {
        sum += i128::from(*number);
    }
    sum
}

/// The least of the numbers, or 0 of none.
fn least(numbers: &[i64]) -> i64
    ensures { result ≡ best_of int_min numbers.now }
{
    let mut least = first(numbers);
    for number in numbers {
        least = least.min(*number);
    }
    least
}

/// The greatest of the numbers, or 0 of none.
fn greatest(numbers: &[i64]) -> i64
    ensures { result ≡ best_of int_max numbers.now }
{
    let mut greatest = first(numbers);
    for number in numbers {
        greatest = greatest.max(*number);
    }
    greatest
}

/// The first of the numbers, or 0 of none.
fn first(numbers: &[i64]) -> i64
    ensures { result ≡ slice_index_or numbers.now 0 (pos 0) }
{
    match numbers {
        [first, ..] => *first,
        [] => 0,
    }
}

/// Whether all of the truth values are TRUE, or [`Kind::Value`] of none.
fn all_true(truths: &[bool]) -> Value
    ensures { result ≡ truth_by (list_all (λ truth. truth)) truths.now }
{
    truth_by(truths, are_all_true(truths))
}

fn are_all_true(truths: &[bool]) -> bool
    ensures { result ≡ list_all (λ truth. truth) truths.now }
{
    truths.iter().all(|truth| *truth)
}

/// Whether one of the truth values is TRUE, or [`Kind::Value`] of none.
fn any_true(truths: &[bool]) -> Value
    ensures { result ≡ truth_by (list_any (λ truth. truth)) truths.now }
{
    truth_by(truths, is_any_true(truths))
}

fn is_any_true(truths: &[bool]) -> bool
    ensures { result ≡ list_any (λ truth. truth) truths.now }
{
    truths.iter().any(|truth| *truth)
}

/// A truth value, or [`Kind::Value`] where it is one of none.
fn truth_by(truths: &[bool], truth: bool) -> Value
    ensures { (join : List Bool → Bool) → truth ≡ join truths.now → result ≡ truth_by join truths.now }
{
    if truths.is_empty() {
        Value::Error(Kind::Value)
    } else {
        Value::Truth(truth)
    }
}

/// The texts one behind another.
fn joined(alloc: Global, texts: &[Text]) -> Result<Text, NoMemory>
    ensures { IfOk result (λ text. text ≡ flat_map (λ piece. piece) texts.now) }
{
    let mut text = String::new(alloc);
    for piece in texts {
        text.push_str(piece.as_str())?;
    }
    Ok(Text::of(text))
}

/// How many of the values are numbers.
fn numbers_counted(values: &[&Value]) -> Value
    ensures { result ≡ whole (pos (count_by (λ value. is_ok (number_of value)) (values_of values.now))) }
{
    let count = values
        .iter()
        .filter(|value| number_of(**value).is_ok())
        .count();
    whole(count as i128)
}

/// How many values there are.
fn values_counted(values: &[&Value]) -> Value
    ensures { result ≡ whole (pos (length (values_of values.now))) }
{
    whole(values.len() as i128)
}

/// The values of all arguments that are taken, in order.
fn all_taken<'a, 'b>(
    alloc: Global,
    arguments: &'a [Argument<'b>],
    taking: Taking,
) -> Result<Vec<&'a Value>, NoMemory>
    ensures { IfOk result (λ values. values_of values.items ≡ all_taken taking arguments.now) }
{
    let mut values = Vec::new(alloc);
    for argument in arguments {
        add_taken(&mut values, argument, taking)?;
    }
    Ok(values)
}

/// Puts the values of an argument that are taken behind others.
fn add_taken<'a, 'b>(
    values: &mut Vec<&'a Value>,
    argument: &'a Argument<'b>,
    taking: Taking,
) -> Result<(), NoMemory>
    ensures { OnOk result (values_of values.new.items ≡ values_of values.old.items ++ taken_of taking argument.now) }
{
    match argument {
        Argument::Single(value) => Ok(values.push(value)?),
        Argument::Area(cells) => add_cells(values, cells.filled.as_slice(), taking),
    }
}

/// Puts the values of cells that are taken behind others.
fn add_cells<'a, 'b>(
    values: &mut Vec<&'a Value>,
    cells: &'a [FilledCell<'b>],
    taking: Taking,
) -> Result<(), NoMemory>
    ensures { OnOk result (values_of values.new.items
        ≡ values_of values.old.items ++ flat_map (cell_taken taking) cells.now) }
{
    for cell in cells {
        add_cell(values, cell, taking)?;
    }
    Ok(())
}

/// Puts the value of a cell behind others, if it is taken.
fn add_cell<'a, 'b>(
    values: &mut Vec<&'a Value>,
    cell: &'a FilledCell<'b>,
    taking: Taking,
) -> Result<(), NoMemory>
    ensures { OnOk result (values_of values.new.items ≡ values_of values.old.items ++ cell_taken taking cell.now) }
{
    if taking.takes(cell.value.get()) {
        values.push(cell.value.get())?;
    }
    Ok(())
}
