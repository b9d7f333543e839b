ghost use Rattle.std.specs.Prelude.{◌≡◌, [], map, IfOk, option_map};
ghost use Rattle.formula_reader.specs.LevelReading.{IsAnswer, AfterOpen, ReadsArguments};
ghost use Rattle.formula_reader.specs.Tree.{expression_of, no_arguments, arguments_before};

use super::chain::read;
use super::level::Level;
use super::marks::{strip_close, strip_comma};
use crate::symbols::Symbol;
use crate::tree::Tree;
use cell_value::NoMemory;
use std::alloc::Global;

/// Reads the arguments of a function behind its opening bracket, and the closing one.
#[cycle(grammar)]
pub(super) fn read_arguments(
    alloc: Global,
    symbols: &[Symbol],
) -> Result<Option<(Vec<Tree>, &[Symbol])>, NoMemory>
    ensures { IfOk result (λ read. IsAnswer (AfterOpen symbols.now)
        (option_map (λ found. (arguments_before (map expression_of found.0.items) no_arguments, found.1.now)) read)) }
{
    match strip_close(symbols) {
        Some(rest) => Ok(Some((Vec::new(alloc), rest))),
        None => read_list(alloc, symbols),
    }
}

/// Reads arguments between commas, and the closing bracket.
#[cycle(grammar)]
fn read_list(alloc: Global, symbols: &[Symbol]) -> Result<Option<(Vec<Tree>, &[Symbol])>, NoMemory>
    ensures { IfOk result (λ read. IsAnswer (ReadsArguments symbols.now)
        (option_map (λ found. (arguments_before (map expression_of found.0.items) no_arguments, found.1.now)) read)) }
{
    let mut arguments = Vec::new(alloc);
    let mut unread = symbols;
    loop {
        let Some((argument, rest)) = read(alloc, Level::Comparison, unread)? else {
            return Ok(None);
        };
        arguments.push(argument)?;
        if let Some(more) = strip_close(rest) {
            return Ok(Some((arguments, more)));
        }
        match strip_comma(rest) {
            Some(more) => unread = more,
            None => return Ok(None),
        }
    }
}
