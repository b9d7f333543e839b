//! The grammar of formulas, read from the symbols of a formula.

mod arguments;
mod chain;
mod level;
mod marks;
mod primary;
mod unary;

ghost use Rattle.std.specs.Prelude.{◌≡◌, ◌⊎◌, List, Some, Err, IfOk, option_map};
ghost use Rattle.formula_reader.specs.declared.fault.FormulaFault.{FormulaFault};
ghost use Rattle.formula_reader.specs.declared.symbols.Symbol.{Symbol};
ghost use Rattle.formula_reader.specs.Limits.{passed_by_symbols};
ghost use Rattle.formula_reader.specs.Grammar.{HasTree};
ghost use Rattle.formula_reader.specs.Only.{IsOnly};
ghost use Rattle.formula_reader.specs.Tree.{expression_of};
ghost use Rattle.formula_reader.specs.Symbols.{AreSymbolsOf, IsTreeOf, KeepsLimits};

use crate::fault::FormulaFault;
use crate::limits::passed;
use crate::symbols::{Symbol, symbols_of_formula};
use crate::tree::Tree;
use cell_value::NoMemory;
use chain::read;
use level::Level;
use ref_rewrite::Formula;
use std::alloc::Global;

/// The tree of the symbols by the grammar of formulas, None where they have none.
fn parse(alloc: Global, symbols: &[Symbol]) -> Result<Option<Tree>, NoMemory>
    ensures { IfOk result (λ tree. IsOnly (HasTree symbols.now) (option_map expression_of tree)) }
{
    match read(alloc, Level::Comparison, symbols)? {
        Some((tree, rest)) => Ok(rest.is_empty().then_some(tree)),
        None => Ok(None),
    }
}

/// The tree of a formula: what its operators, brackets and functions make of it (Google Docs Editors
/// Help, "Using arithmetic formulas in Sheets"). From the loosest, these bind: the six comparisons, `&`,
/// `+` and `-`, `*` and `/`, and the signs `-` and `+` before an operand; operators of one line group to
/// the left.
///
/// None where the formula has no tree: where what it says isn't of that grammar, where its first piece
/// is no text that begins with `=`, or where a text among its pieces is none that reading leaves, as one
/// at some place of which nothing fits, or with a reference or a word in it.
///
/// # Errors
///
/// [`FormulaFault::Tokens`], [`FormulaFault::References`] and [`FormulaFault::Depth`], exactly where the
/// formula's symbols, its tokens with the cells that references name, pass a limit as
/// [`read_formula`](crate::read_formula) counts it: a formula that was read passes none, with a tree or without
/// one, nor does it where its references followed or were lost since, or its words were renamed.
/// [`FormulaFault::NoMemory`] where memory runs out.
pub fn tree_of(alloc: Global, formula: &Formula) -> Result<Option<Tree>, FormulaFault>
    ensures tree { IfOk result (λ tree. IsOnly (IsTreeOf formula.now) (option_map expression_of tree)) }
    ensures limits { (symbols : List Symbol) (fault : FormulaFault) → AreSymbolsOf formula.now.pieces symbols
        → passed_by_symbols symbols ≡ Some fault → (result ≡ Err fault) ⊎ (result ≡ Err FormulaFault.NoMemory) }
    ensures within { (fault : FormulaFault) → KeepsLimits formula.now → result ≡ Err fault
        → fault ≡ FormulaFault.NoMemory }
    ensures passed { (fault : FormulaFault) → result ≡ Err fault → (fault ≡ FormulaFault.NoMemory)
        ⊎ ((symbols : List Symbol) × AreSymbolsOf formula.now.pieces symbols
        × (passed_by_symbols symbols ≡ Some fault)) }
{
    let Some(symbols) = symbols_of_formula(alloc, formula.pieces.as_slice())? else {
        return Ok(None);
    };
    match passed(symbols.as_slice()) {
        Some(fault) => Err(fault),
        None => Ok(parse(alloc, symbols.as_slice())?),
    }
}
