ghost use Rattle.std.specs.Prelude.{◌≡◌, ◌≤◌, length, IfOk, option_map};
ghost use Rattle.formula_reader.specs.LevelReading.{signs, negated, IsAnswer, Reads};
ghost use Rattle.formula_reader.specs.Tree.{expression_of};

use super::level::Level;
use super::primary::read_primary;
use crate::symbols::Symbol;
use crate::tokens::Operator;
use crate::tree::Tree;
use cell_value::NoMemory;
use std::alloc::Global;

/// How many of the signs that the symbols begin with are `-`, and what is behind the signs.
fn read_signs(symbols: &[Symbol]) -> (usize, &[Symbol])
    ensures minus { result.0 ≡ (signs symbols.now).0 }
    ensures behind { result.1.now ≡ (signs symbols.now).1 }
    ensures within { length result.1.now ≤ length symbols.now }
{
    let mut minus = 0;
    let mut rest = symbols;
    loop {
        match rest {
            [Symbol::Operator(Operator::Subtract), more @ ..] => {
                minus += 1;
                rest = more;
            }
            [Symbol::Operator(Operator::Add), more @ ..] => rest = more,
            _ => return (minus, rest),
        }
    }
}

/// The tree with so many signs `-` before it.
fn with_minus(alloc: Global, minus: usize, tree: Tree) -> Result<Tree, NoMemory>
    ensures { IfOk result (λ signed. expression_of signed ≡ negated minus (expression_of tree)) }
{
    let mut signed = tree;
    for _ in 0..minus {
        signed = signed.negated(alloc)?;
    }
    Ok(signed)
}

/// Reads an operand with the signs before it.
#[cycle(grammar)]
pub(super) fn read_unary(
    alloc: Global,
    symbols: &[Symbol],
) -> Result<Option<(Tree, &[Symbol])>, NoMemory>
    ensures { IfOk result (λ read. IsAnswer (Reads Level.Unary symbols.now)
        (option_map (λ found. (expression_of found.0, found.1.now)) read)) }
{
    let (minus, operand) = read_signs(symbols);
    match read_primary(alloc, operand)? {
        Some((tree, rest)) => Ok(Some((with_minus(alloc, minus, tree)?, rest))),
        None => Ok(None),
    }
}
