ghost use Rattle.std.specs.Prelude.{◌≡◌, IfOk, map};
ghost use Rattle.formula_reader.specs.Tree.{expression_of};
ghost use Rattle.cell_calc.specs.Arguments.{Given, value_of};
ghost use Rattle.cell_calc.specs.Lent.{StandsFor, StandFor};
ghost use Rattle.cell_calc.specs.FormulaValue.{given_by};

use crate::arguments::Argument;
use crate::functions::{called_value, value_of_cells};
use crate::operators::{negation, operation};
use crate::reader::CellReader;
use cell_value::{Duplicate, Kind, NoMemory, Value};
use formula_reader::Tree;
use std::alloc::Global;

/// The value of a formula by its tree (Google Docs Editors Help, "Using arithmetic formulas in Sheets"): of a
/// reference or a word for an area of one cell that cell's value, and for another area [`Kind::Value`]. A word
/// that names no range is [`Kind::Name`], and a reference whose cells are gone [`Kind::Ref`].
///
/// # Errors
///
/// [`NoMemory`] where memory runs out.
#[cycle(evaluation)]
pub fn value_of_tree<R: CellReader>(
    alloc: Global,
    reader: &R,
    tree: &Tree,
) -> Result<Value, NoMemory>
    ensures { IfOk result (λ value. value ≡
        value_of (given_by (R.book reader.now) (R.read reader.now) (expression_of tree.now))) }
{
    match tree {
        Tree::Ref(area) => reader.value_alone(alloc, area),
        _ => value_alone(given(alloc, reader, tree)?),
    }
}

/// What the tree gives to a function, whose argument it is.
#[cycle(evaluation)]
fn given<'a, R: CellReader>(
    alloc: Global,
    reader: &'a R,
    tree: &Tree,
) -> Result<Argument<'a>, NoMemory>
    ensures { IfOk result (λ argument.
        StandsFor argument (given_by (R.book reader.now) (R.read reader.now) (expression_of tree.now))) }
{
    match tree {
        Tree::Number(number) => Ok(Argument::Single(Value::Number(*number))),
        Tree::Text(text) => Ok(Argument::Single(Value::Text(text.duplicate()?))),
        Tree::Truth(truth) => Ok(Argument::Single(Value::Truth(*truth))),
        Tree::Ref(area) => Ok(Argument::Area(reader.cells(alloc, area)?)),
        Tree::Lost => Ok(Argument::Single(Value::Error(Kind::Ref))),
        Tree::Word(word) => match reader.named(word.as_str()) {
            Some(area) => Ok(Argument::Area(reader.cells(alloc, &area)?)),
            None => Ok(Argument::Single(Value::Error(Kind::Name))),
        },
        Tree::Negate(operand) => {
            let operand = value_of_tree(alloc, reader, operand)?;
            Ok(Argument::Single(negation(&operand)))
        }
        Tree::Binary(operator, left, right) => {
            let left = value_of_tree(alloc, reader, left)?;
            let right = value_of_tree(alloc, reader, right)?;
            Ok(Argument::Single(operation(alloc, *operator, &left, &right)?))
        }
        Tree::Call(name, trees) => {
            let arguments = all_given(alloc, reader, trees.as_slice())?;
            Ok(Argument::Single(called_value(alloc, name.as_str(), arguments.as_slice())?))
        }
    }
}

/// What each tree gives.
#[cycle(evaluation)]
fn all_given<'a, R: CellReader>(
    alloc: Global,
    reader: &'a R,
    trees: &[Tree],
) -> Result<Vec<Argument<'a>>, NoMemory>
    ensures { IfOk result (λ arguments. StandFor arguments.items
        (map (λ tree. given_by (R.book reader.now) (R.read reader.now) (expression_of tree)) trees.now)) }
{
    let mut arguments = Vec::new(alloc);
    for tree in trees {
        arguments.push(given(alloc, reader, tree)?)?;
    }
    Ok(arguments)
}

/// The value where one value stands.
fn value_alone(argument: Argument) -> Result<Value, NoMemory>
    ensures { (x : Given) → StandsFor argument.entry x → IfOk result (λ value. value ≡ value_of x) }
{
    match argument {
        Argument::Single(value) => Ok(value),
        Argument::Area(cells) => value_of_cells(&cells),
    }
}
