ghost use Rattle.std.specs.Prelude.{◌≡◌, ◌∷◌, IfOk, option_map};
ghost use Rattle.formula_reader.specs.LevelReading.{IsAnswer, Reads};
ghost use Rattle.formula_reader.specs.Tree.{expression_of};

use super::arguments::read_arguments;
use super::chain::read;
use super::level::Level;
use super::marks::{strip_close, strip_open};
use crate::symbols::Symbol;
use crate::tree::Tree;
use cell_value::{Duplicate, NoMemory, Text};
use std::alloc::Global;

/// Reads what has no operator outside its brackets.
#[cycle(grammar)]
pub(super) fn read_primary(
    alloc: Global,
    symbols: &[Symbol],
) -> Result<Option<(Tree, &[Symbol])>, NoMemory>
    ensures { IfOk result (λ read. IsAnswer (Reads Level.Primary symbols.now)
        (option_map (λ found. (expression_of found.0, found.1.now)) read)) }
{
    let Some((first, rest)) = symbols.split_first() else {
        return Ok(None);
    };
    match first {
        Symbol::Open => read_bracket(alloc, rest),
        Symbol::Function(name) => read_call(alloc, name, rest),
        _ => match first.leaf()? {
            Some(tree) => Ok(Some((tree, rest))),
            None => Ok(None),
        },
    }
}

/// Reads an expression behind its opening bracket, and the closing one.
#[cycle(grammar)]
fn read_bracket(alloc: Global, symbols: &[Symbol]) -> Result<Option<(Tree, &[Symbol])>, NoMemory>
    ensures { IfOk result (λ read. IsAnswer (Reads Level.Primary (Symbol.Open ∷ symbols.now))
        (option_map (λ found. (expression_of found.0, found.1.now)) read)) }
{
    let Some((tree, behind)) = read(alloc, Level::Comparison, symbols)? else {
        return Ok(None);
    };
    match strip_close(behind) {
        Some(rest) => Ok(Some((tree, rest))),
        None => Ok(None),
    }
}

/// Reads a function behind its name.
#[cycle(grammar)]
fn read_call<'a>(
    alloc: Global,
    name: &Text,
    symbols: &'a [Symbol],
) -> Result<Option<(Tree, &'a [Symbol])>, NoMemory>
    ensures { IfOk result (λ read. IsAnswer (Reads Level.Primary (Symbol.Function name.now ∷ symbols.now))
        (option_map (λ found. (expression_of found.0, found.1.now)) read)) }
{
    let Some(inside) = strip_open(symbols) else {
        return Ok(None);
    };
    match read_arguments(alloc, inside)? {
        Some((arguments, rest)) => Ok(Some((Tree::call(name.duplicate()?, arguments), rest))),
        None => Ok(None),
    }
}
