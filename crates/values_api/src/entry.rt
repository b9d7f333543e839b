ghost use Rattle.std.specs.Prelude.{◌≡◌, IfOk, IfSome};
ghost use Rattle.std.specs.Option.{IsSome};
ghost use Rattle.world_model.specs.Sound.{IsContentWithin, place_sheet_with};
ghost use Rattle.values_api.specs.Blocks.{IsEntry, IsFormulaEntry, given_value, rank};
ghost use Rattle.values_api.specs.Given.{entry_of, earlier, first_of};
ghost use Rattle.values_api.specs.Sheets.{formula_sheets};

use crate::sheets::BookCells;
use cell_value::{Duplicate, Input, NoMemory};
use dimension_ops::Book;
use formula_reader::{FormulaFault, read_pieces};
use ref_rewrite::Content;
use std::alloc::Global;
use world_model::ids_find;

/// What a cell is to hold, which may be nothing, and the first limit that its formula passes.
pub(crate) type Entry = (Option<Content>, Option<FormulaFault>);

/// What a value makes of a cell of the sheet.
pub(crate) fn entry(
    alloc: Global,
    book: &Book,
    sheet: u32,
    input: &Input,
) -> Result<Entry, NoMemory>
    requires there { IsSome (place_sheet_with sheet book.now.sheets) }
    requires given { IsSome (given_value input.now) }
    ensures entry { IfOk result (λ entry. IsEntry (formula_sheets book.now.sheets) sheet input.now (entry_of entry)) }
    ensures within { IfOk result (λ entry. IfSome entry.0 (IsContentWithin book.now.sheets)) }
{
    match input {
        Input::Skip | Input::Empty => Ok((None, None)),
        Input::Number(number) => Ok((Some(Content::Number(*number)), None)),
        Input::Text(text) => Ok((Some(Content::Text(text.duplicate()?)), None)),
        Input::Truth(truth) => Ok((Some(Content::Truth(*truth)), None)),
        Input::FormulaText(text) => formula(alloc, book, sheet, text.as_str()),
    }
}

/// What a formula's text makes of a cell of the sheet.
fn formula(alloc: Global, book: &Book, sheet: u32, text: &str) -> Result<Entry, NoMemory>
    requires there { IsSome (place_sheet_with sheet book.now.sheets) }
    ensures entry { IfOk result
        (λ entry. IsFormulaEntry (formula_sheets book.now.sheets) sheet text.now (entry_of entry)) }
    ensures within { IfOk result (λ entry. IfSome entry.0 (IsContentWithin book.now.sheets)) }
{
    ids_find();
    book.stays_sound();
    let (formula, limit) = read_pieces(alloc, text, &BookCells::of(book), sheet)?;
    Ok((Some(Content::Formula(formula)), limit))
}

/// The first of two limits, in the order in which they are told.
pub(crate) fn first_of(
    one: Option<FormulaFault>,
    other: Option<FormulaFault>,
) -> Option<FormulaFault>
    ensures { result ≡ first_of one other }
{
    match one {
        Some(limit) => Some(earlier(limit, other)),
        None => other,
    }
}

/// The limit, or the other one where that is told before it.
fn earlier(limit: FormulaFault, other: Option<FormulaFault>) -> FormulaFault
    ensures { result ≡ earlier limit other }
{
    match other {
        Some(other) => {
            if rank(limit) <= rank(other) {
                limit
            } else {
                other
            }
        }
        None => limit,
    }
}

/// The place of a limit in the order in which they are told.
fn rank(limit: FormulaFault) -> u8
    ensures { result ≡ rank limit }
{
    match limit {
        FormulaFault::Tokens => 0,
        FormulaFault::References => 1,
        FormulaFault::Depth => 2,
        FormulaFault::NoMemory => 3,
    }
}
