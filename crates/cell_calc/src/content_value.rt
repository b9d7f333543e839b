ghost use Rattle.std.specs.Prelude.{◌≡◌, ◌≢◌, IfOk, Some, None, option_map};
ghost use Rattle.ref_rewrite.specs.declared.cell_content.Content.TheVariants as content;
ghost use Rattle.formula_reader.specs.Only.{IsOnly};
ghost use Rattle.formula_reader.specs.Tree.{expression_of};
ghost use Rattle.cell_calc.specs.Book.{Cell, formula};
ghost use Rattle.cell_calc.specs.Contents.{IsCell, IsTreeWithin};
ghost use Rattle.cell_calc.specs.FormulaValue.{value_of_cell};

use crate::evaluation::value_of_tree;
use crate::reader::CellReader;
use cell_value::{Duplicate, Kind, NoMemory, Value};
use formula_reader::{FormulaFault, Tree, tree_of};
use ref_rewrite::{Content, Formula};
use std::alloc::Global;

/// The value of what is stored in a cell (Google Sheets API v4 reference, CellData, `effectiveValue`): of a
/// formula that of its tree, and [`Kind::Error`] where it has none or passes a limit within which formulas are
/// read.
///
/// # Errors
///
/// [`NoMemory`] where memory runs out.
pub fn value_of_content<R: CellReader>(
    alloc: Global,
    reader: &R,
    content: &Content,
) -> Result<Value, NoMemory>
    ensures { (cell : Cell) → IsCell (Some content.now) cell
        → IfOk result (λ value. value ≡ value_of_cell (R.book reader.now) (R.read reader.now) cell) }
{
    match content {
        Content::Number(number) => Ok(Value::Number(*number)),
        Content::Text(text) => Ok(Value::Text(text.duplicate()?)),
        Content::Truth(truth) => Ok(Value::Truth(*truth)),
        Content::Formula(formula) => value_of_formula(alloc, reader, formula),
    }
}

/// The value of a formula.
fn value_of_formula<R: CellReader>(
    alloc: Global,
    reader: &R,
    text: &Formula,
) -> Result<Value, NoMemory>
    ensures { (cell : Cell) → IsCell (Some (content.Formula text.now)) cell
        → IfOk result (λ value. value ≡ value_of_cell (R.book reader.now) (R.read reader.now) cell) }
{
    let tree = tree_within(alloc, text)?;
    value_by_tree(alloc, reader, &tree)
}

/// The tree of a formula; None where it has none, and where it passes a limit of reading.
pub(crate) fn tree_within(alloc: Global, text: &Formula) -> Result<Option<Tree>, NoMemory>
    ensures { IfOk result (λ tree. IsOnly (IsTreeWithin text.now) (option_map expression_of tree)) }
{
    match tree_of(alloc, text) {
        Ok(tree) => Ok(tree),
        Err(fault) => past_limit(fault),
    }
}

/// No tree, unless memory ran out.
fn past_limit(fault: FormulaFault) -> Result<Option<Tree>, NoMemory>
    ensures { IfOk result (λ tree. (tree ≡ None) × (fault ≢ FormulaFault.NoMemory)) }
{
    match fault {
        FormulaFault::NoMemory => Err(NoMemory),
        FormulaFault::Tokens | FormulaFault::References | FormulaFault::Depth => Ok(None),
    }
}

/// The value of a formula by the only tree that it has.
fn value_by_tree<R: CellReader>(
    alloc: Global,
    reader: &R,
    tree: &Option<Tree>,
) -> Result<Value, NoMemory>
    ensures { IfOk result (λ value. value
        ≡ value_of_cell (R.book reader.now) (R.read reader.now) (formula (option_map expression_of tree.now))) }
{
    match tree {
        Some(tree) => value_of_tree(alloc, reader, tree),
        None => Ok(Value::Error(Kind::Error)),
    }
}
