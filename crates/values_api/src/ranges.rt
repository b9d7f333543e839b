ghost use Rattle.std.specs.Prelude.{◌≡◌, IfOk};
ghost use Rattle.std.specs.Option.{option_copied};
ghost use Rattle.grid_range.specs.Band.{IsNonEmpty};
ghost use Rattle.formula_reader.specs.ReferenceText.{is_one_cell};
ghost use Rattle.dimension_ops.specs.Rules.{IsUnlessNoMemory};
ghost use Rattle.values_api.specs.Ranges.{Resolves, IsThere, IsOf, HasLines, unread, on_sheet, on_found, of_range, part_called, part_of_sheet, part_of};

use a1_notation::{A1, A1Fault, Part, read_a1};
use dimension_ops::{Book, Rule, RuleOr, Sheet};
use grid_range::{Area, Band};
use named_ranges::NamedRange;
use std::alloc::Global;
use world_model::ids_find;

/// The area that a range text names, cut at the grid of its sheet, and whether the text names just one
/// cell. A text without a sheet is of the first visible one; a word is the name of a named range, or else
/// the title of a sheet. Names and titles are found in any case of their ASCII letters (Sheets API v4 guide,
/// A1 notation).
///
/// # Errors
///
/// [`Rule::NoSheet`] where no sheet has the title before a `!`, or in quotes; [`Rule::BadRange`] where
/// the text isn't in A1 notation, or is a word that no named range has as its name and no sheet as its
/// title; [`Rule::OutsideGrid`] where the first row or the first column of the area isn't there;
/// [`RuleOr::NoMemory`] where memory runs out.
pub fn resolve(alloc: Global, book: &Book, text: &str) -> Result<(Area, bool), RuleOr>
    ensures resolved { IsUnlessNoMemory (Resolves text.now book.now) result }
    ensures there { IfOk result (λ found. IsThere book.now.sheets found.0) }
{
    match read_a1(alloc, text) {
        Ok(range) => match part_of(book, &range) {
            Ok(found) => Ok(found),
            Err(rule) => Err(RuleOr::Rule(rule)),
        },
        Err(fault) => Err(refused(fault)),
    }
}

/// A text that isn't a range names nothing.
fn refused(fault: A1Fault) -> RuleOr
    ensures { result ≡ unread fault }
{
    match fault {
        A1Fault::NotA1 | A1Fault::PastZZZ => RuleOr::Rule(Rule::BadRange),
        A1Fault::NoMemory => RuleOr::NoMemory,
    }
}

/// The part of a spreadsheet.
fn part_of(book: &Book, range: &A1) -> Result<(Area, bool), Rule>
    requires { HasLines range.now.part }
    ensures found { result ≡ part_of book.now range.now.sheet range.now.part }
    ensures there { IfOk result (λ found. IsThere book.now.sheets found.0) }
{
    ids_find();
    book.stays_sound();
    match &range.sheet {
        Some(title) => part_of_sheet(book.titled(title.as_str()), &range.part),
        None => match &range.part {
            Part::Cells(rows, cols) => on_found(Rule::NoSheet, *rows, *cols, book.visible()),
            Part::Word(word) => part_called(book, word.as_str()),
            Part::WholeSheet => Err(Rule::BadRange),
        },
    }
}

/// The cells of the named range that has the word as its name, or else the sheet that has it as its title.
fn part_called(book: &Book, word: &str) -> Result<(Area, bool), Rule>
    ensures found { result ≡ part_called word.now book.now }
    ensures there { IfOk result (λ found. IsThere book.now.sheets found.0) }
{
    ids_find();
    book.stays_sound();
    match book.names().find(word) {
        Some(range) => Ok(of_range(range)),
        None => on_found(Rule::BadRange, Band::Whole, Band::Whole, book.titled(word)),
    }
}

/// The cells of a named range, and whether they are just one.
fn of_range(range: &NamedRange) -> (Area, bool)
    ensures { result ≡ of_range range.now }
{
    let area = range.area;
    (area, is_one_cell(area.rows, area.cols))
}

/// The part of a sheet that was looked for by its title.
fn part_of_sheet(sheet: Option<&Sheet>, part: &Part) -> Result<(Area, bool), Rule>
    requires { HasLines part.now }
    ensures found { result ≡ part_of_sheet part.now (option_copied sheet.entry) }
    ensures there { IfOk result (λ found. IsOf found.0 (option_copied sheet.entry)) }
{
    match part {
        Part::Cells(rows, cols) => on_found(Rule::NoSheet, *rows, *cols, sheet),
        Part::WholeSheet => on_found(Rule::NoSheet, Band::Whole, Band::Whole, sheet),
        Part::Word(_) => Err(Rule::BadRange),
    }
}

/// The rows and the columns of a sheet that was looked for, cut at its grid, and whether they were one
/// cell before.
fn on_found(
    missing: Rule,
    rows: Band,
    cols: Band,
    sheet: Option<&Sheet>,
) -> Result<(Area, bool), Rule>
    requires rows { IsNonEmpty rows }
    requires cols { IsNonEmpty cols }
    ensures found { result ≡ on_found missing rows cols (option_copied sheet.entry) }
    ensures there { IfOk result (λ found. IsOf found.0 (option_copied sheet.entry)) }
{
    match sheet {
        Some(sheet) => on_sheet(rows, cols, sheet),
        None => Err(missing),
    }
}

/// The rows and the columns of a sheet, cut at its grid, and whether they were one cell before.
fn on_sheet(rows: Band, cols: Band, sheet: &Sheet) -> Result<(Area, bool), Rule>
    requires rows { IsNonEmpty rows }
    requires cols { IsNonEmpty cols }
    ensures found { result ≡ on_sheet rows cols sheet.now }
    ensures there { IfOk result (λ found. IsOf found.0 (Rattle.std.specs.Prelude.Some sheet.now)) }
{
    let area = Area {
        sheet: sheet.id(),
        rows,
        cols,
    };
    match area.clip(sheet.rows(), sheet.cols()) {
        Some(clipped) => Ok((clipped, is_one_cell(rows, cols))),
        None => Err(Rule::OutsideGrid),
    }
}

/// Whether the bands are those of one cell.
fn is_one_cell(rows: Band, cols: Band) -> bool
    ensures { result ≡ is_one_cell rows cols }
{
    rows.has_one_line() && cols.has_one_line()
}
