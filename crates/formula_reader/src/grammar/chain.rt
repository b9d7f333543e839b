ghost use Rattle.std.specs.Prelude.{◌<◌, IfOk, option_map};
ghost use Rattle.formula_reader.specs.LevelReading.{IsAnswer, Reads, ReadsOn, Ends, rank};
ghost use Rattle.formula_reader.specs.Grammar.{tighter};
ghost use Rattle.formula_reader.specs.Tree.{expression_of};

use super::level::Level;
use super::primary::read_primary;
use super::unary::read_unary;
use crate::symbols::Symbol;
use crate::tree::Tree;
use cell_value::NoMemory;
use std::alloc::Global;

/// Reads symbols of the level: their tree and what is behind them, None where there are none.
#[cycle(grammar)]
pub(super) fn read(
    alloc: Global,
    level: Level,
    symbols: &[Symbol],
) -> Result<Option<(Tree, &[Symbol])>, NoMemory>
    ensures { IfOk result (λ read. IsAnswer (Reads level symbols.now)
        (option_map (λ found. (expression_of found.0, found.1.now)) read)) }
{
    match level {
        Level::Comparison => read_chain(alloc, level, symbols),
        Level::Join => read_chain(alloc, level, symbols),
        Level::Sum => read_chain(alloc, level, symbols),
        Level::Term => read_chain(alloc, level, symbols),
        Level::Unary => read_unary(alloc, symbols),
        Level::Primary => read_primary(alloc, symbols),
    }
}

/// Reads symbols of a level with operators between operands.
#[cycle(grammar)]
fn read_chain(
    alloc: Global,
    level: Level,
    symbols: &[Symbol],
) -> Result<Option<(Tree, &[Symbol])>, NoMemory>
    requires { rank level < 4 }
    ensures { IfOk result (λ read. IsAnswer (Reads level symbols.now)
        (option_map (λ found. (expression_of found.0, found.1.now)) read)) }
{
    match read(alloc, level.tighter(), symbols)? {
        Some((first, rest)) => read_operands(alloc, level, first, rest),
        None => Ok(None),
    }
}

/// Reads on behind an operand: operators of the level with their operands, which group to the left.
#[cycle(grammar)]
fn read_operands(
    alloc: Global,
    level: Level,
    first: Tree,
    symbols: &[Symbol],
) -> Result<Option<(Tree, &[Symbol])>, NoMemory>
    requires level { rank level < 4 }
    requires ends { Ends (tighter level) symbols.now }
    ensures { IfOk result (λ read. IsAnswer (ReadsOn level (expression_of first) symbols.now)
        (option_map (λ found. (expression_of found.0, found.1.now)) read)) }
{
    let mut tree = first;
    let mut rest = symbols;
    while let Some((operator, behind)) = level.operator_at(rest) {
        match read(alloc, level.tighter(), behind)? {
            Some((operand, more)) => {
                tree = Tree::joined(alloc, operator, tree, operand)?;
                rest = more;
            }
            None => return Ok(None),
        }
    }
    Ok(Some((tree, rest)))
}
