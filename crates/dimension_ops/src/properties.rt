//! The title, the mark and the size that a sheet is given.

ghost use Rattle.std.specs.Prelude.{◌≡◌, ◌<◌, ◌≤◌, ◌-◌, ◌==◌, ◌&&◌, ◌||◌, ◌∷◌, [], false, unwrap_or, IfErr, IfOk, IsSomeAnd, OnErr, OnOk, Some};
ghost use Rattle.std.specs.List.{list_all};
ghost use Rattle.std.specs.Option.{IsSome};
ghost use Rattle.cell_store.specs.Moved.{size_after};
ghost use Rattle.cell_value.specs.Ids.{is_taken};
ghost use Rattle.grid_range.specs.Change.{Fits, count_after};
ghost use Rattle.grid_range.specs.Tearing.{IsMove};
ghost use Rattle.grid_range.specs.declared.change.Change.TheVariants.{Insert};
ghost use Rattle.world_model.specs.BookChange.{AreChanges};
ghost use Rattle.world_model.specs.BookChange.BookChange.{LinesChanged};
ghost use Rattle.world_model.specs.SheetChange.{other_sheets};
ghost use Rattle.world_model.specs.Sound.{IsLineCount, most_places, place_sheet_with};
ghost use Rattle.dimension_ops.specs.Broken.{first_broken};
ghost use Rattle.dimension_ops.specs.Lines.{lines_of_sheet, places_changed};
ghost use Rattle.dimension_ops.specs.Rules.{IsUnlessNoMemory};
ghost use Rattle.dimension_ops.specs.SetProperties.{CanBeSet, GetsSize, IsMarkFor, IsSizeFor, IsTitleFor, KeepsSize};
ghost use Rattle.dimension_ops.specs.SetProperties.{lines_added, lines_cut, mark_set, places_with, properties_broken, properties_set};
ghost use Rattle.dimension_ops.specs.SetProperties.{size_added, size_cut, size_given, size_set, title_set};
ghost use Rattle.dimension_ops.specs.SheetRequests.{IsJudged, has_title};

use crate::book::Book;
use crate::lines::first_past;
use crate::rule::{Rule, RuleOr};
use crate::sheets::{is_bad_title, places_of};
use cell_value::{Duplicate, NoMemory, SheetProperties, Text};
use grid_range::{Axis, Change, SheetChange};
use world_model::{changes_in_turn, line_changes_are_changes, sheets_hidden, sheets_titled};

/// Gives the sheet with the id the title, the mark and the numbers of rows and columns that are given. Lines are
/// deleted from the end, or appended there. An id and a place aren't set.
///
/// # Errors
///
/// The first of these rules that is broken: [`Rule::NoSheet`], [`Rule::BadName`], [`Rule::NameTaken`] where another
/// sheet has the title, [`Rule::LastLine`] where the sheet would have no row or no column, [`Rule::LastSheet`] where it
/// would be hidden and no other sheet is visible, and [`Rule::PastLimit`] of rows, columns or cells, counted as they
/// are with the new size; the spreadsheet is as it was then. [`RuleOr::NoMemory`] where memory runs out; the
/// spreadsheet is to be given up then.
pub fn set_properties(
    book: &mut Book,
    sheet: u32,
    properties: &SheetProperties,
) -> Result<(), RuleOr>
    ensures judged { IsJudged (properties_broken sheet properties.now book.old.sheets) result }
    ensures set { OnOk result (AreChanges (properties_set sheet properties.now book.old.sheets) book.old book.new) }
    ensures unchanged { IsUnlessNoMemory (λ answer. OnErr answer (book.new ≡ book.old)) result }
{
    changes_in_turn();
    let size = judge(book, sheet, properties)?;
    set_title(book, sheet, &properties.title)?;
    set_mark(book, sheet, properties.hidden)?;
    set_size(book, sheet, size, size_given(properties, size))?;
    Ok(())
}

/// The size of the sheet with the id.
///
/// # Errors
///
/// The first rule that is broken by what is set of it.
fn judge(book: &Book, sheet: u32, properties: &SheetProperties) -> Result<(u32, u32), Rule>
    ensures unbroken { IfOk result (CanBeSet sheet properties.now book.now.sheets) }
    ensures broken { IfErr result
        (λ rule. first_broken (properties_broken sheet properties.now book.now.sheets) ≡ Some rule) }
{
    book.stays_sound();
    let Some(found) = book.sheet(sheet) else {
        return Err(Rule::NoSheet);
    };
    let size = (found.rows(), found.cols());
    if is_bad_title(&properties.title) {
        return Err(Rule::BadName);
    }
    if is_title_of_another(book, sheet, &properties.title) {
        return Err(Rule::NameTaken);
    }
    let given = size_given(properties, size);
    if has_no_line(given) {
        return Err(Rule::LastLine);
    }
    if hides_the_last(book, sheet, properties.hidden) {
        return Err(Rule::LastSheet);
    }
    match first_past(given.0, given.1, places_with(book, sheet, given)) {
        Some(limit) => Err(Rule::PastLimit(limit)),
        None => Ok(size),
    }
}

/// The size that is given to a sheet of that size.
fn size_given(properties: &SheetProperties, size: (u32, u32)) -> (u32, u32)
    ensures { result ≡ size_given properties.now size }
{
    (
        properties.rows.unwrap_or(size.0),
        properties.cols.unwrap_or(size.1),
    )
}

/// Whether a sheet of that size has no row or no column.
fn has_no_line(size: (u32, u32)) -> bool
    ensures { result ≡ (size.0 == 0 || size.1 == 0) }
{
    size.0 == 0 || size.1 == 0
}

/// Whether the mark hides the sheet, and no other one is visible.
fn hides_the_last(book: &Book, sheet: u32, hidden: Option<bool>) -> bool
    ensures { result
        ≡ (unwrap_or hidden false && list_all (λ other. other.hidden) (other_sheets sheet book.now.sheets)) }
{
    hidden.unwrap_or(false) && book.others_hidden(sheet)
}

/// Whether a given title is one that another sheet has, whatever the case of its ASCII letters.
fn is_title_of_another(book: &Book, sheet: u32, given: &Option<Text>) -> bool
    ensures { result ≡ is_taken (has_title (other_sheets sheet book.now.sheets)) given.now }
{
    match given {
        Some(title) => book.others_titled(sheet, title.as_str()),
        None => false,
    }
}

/// How many places the sheets have where the one with the id, which is there, has that size.
fn places_with(book: &Book, sheet: u32, size: (u32, u32)) -> u64
    requires { IsSome (place_sheet_with sheet book.now.sheets) }
    ensures { result ≡ places_with sheet size book.now.sheets }
{
    book.stays_sound();
    let Some(found) = book.sheet(sheet) else {
        return 0;
    };
    book.grid_places() + places_of(size.0, size.1) - places_of(found.rows(), found.cols())
}

/// Gives the sheet the title, if one is given.
///
/// # Errors
///
/// [`NoMemory`] where memory runs out.
fn set_title(book: &mut Book, sheet: u32, given: &Option<Text>) -> Result<(), NoMemory>
    requires { IsTitleFor sheet given.now book.old.sheets }
    ensures set { OnOk result (AreChanges (title_set sheet given.now) book.old book.new) }
    ensures kept { OnOk result (KeepsSize sheet book.old.sheets book.new.sheets) }
{
    changes_in_turn();
    sheets_titled();
    book.stays_sound();
    match given {
        Some(title) => book.retitle(sheet, title.duplicate()?),
        None => Ok(()),
    }
}

/// Gives the sheet the mark, if one is given.
///
/// # Errors
///
/// [`NoMemory`] where memory runs out.
fn set_mark(book: &mut Book, sheet: u32, given: Option<bool>) -> Result<(), NoMemory>
    requires { IsMarkFor sheet given book.old.sheets }
    ensures set { OnOk result (AreChanges (mark_set sheet given) book.old book.new) }
    ensures kept { OnOk result (KeepsSize sheet book.old.sheets book.new.sheets) }
{
    changes_in_turn();
    sheets_hidden();
    book.stays_sound();
    match given {
        Some(hidden) => book.mark_hidden(sheet, hidden),
        None => Ok(()),
    }
}

/// Gives the sheet, which has that size, the one that is given. Lines are deleted before others are appended, so that
/// there are never more places than there are in the end.
///
/// # Errors
///
/// [`NoMemory`] where memory runs out; the spreadsheet is to be given up then.
fn set_size(
    book: &mut Book,
    sheet: u32,
    size: (u32, u32),
    given: (u32, u32),
) -> Result<(), NoMemory>
    requires { IsSizeFor sheet size given book.old.sheets }
    ensures { OnOk result (AreChanges (size_set sheet size given) book.old book.new) }
{
    changes_in_turn();
    book.stays_sound();
    cut(book, sheet, Axis::Rows, size.0, given.0)?;
    cut(book, sheet, Axis::Columns, size.1, given.1)?;
    extend(book, sheet, Axis::Rows, size.0, given.0)?;
    extend(book, sheet, Axis::Columns, size.1, given.1)?;
    Ok(())
}

/// Deletes lines from the end of the sheet, which has so many, where fewer are given.
///
/// # Errors
///
/// [`NoMemory`] where memory runs out; the spreadsheet is to be given up then.
fn cut(book: &mut Book, sheet: u32, axis: Axis, lines: u32, given: u32) -> Result<(), NoMemory>
    requires some { 0 < given }
    requires there { IsSomeAnd (place_sheet_with sheet book.old.sheets) (λ found. lines_of_sheet axis found ≡ lines) }
    ensures cut { OnOk result (AreChanges (lines_cut sheet axis lines given) book.old book.new) }
    ensures sized { OnOk result (GetsSize sheet (size_cut axis lines given) book.old.sheets book.new.sheets) }
{
    changes_in_turn();
    book.stays_sound();
    if given < lines {
        let change = Change::Delete {
            start: given,
            end: lines,
        };
        make(book, sheet, axis, lines, &change)
    } else {
        Ok(())
    }
}

/// Appends lines at the end of the sheet, which has so many, where more are given.
///
/// # Errors
///
/// [`NoMemory`] where memory runs out; the spreadsheet is to be given up then.
fn extend(book: &mut Book, sheet: u32, axis: Axis, lines: u32, given: u32) -> Result<(), NoMemory>
    requires room { IsLineCount axis given }
    requires there { lines < given → IsSomeAnd (place_sheet_with sheet book.old.sheets)
        (λ found. lines_of_sheet axis found ≡ lines) }
    requires few { lines < given → places_changed sheet axis (Insert lines (given - lines)) book.old.sheets
        ≤ most_places }
    ensures added { OnOk result (AreChanges (lines_added sheet axis lines given) book.old book.new) }
    ensures sized { OnOk result (GetsSize sheet (size_added axis lines given) book.old.sheets book.new.sheets) }
{
    changes_in_turn();
    if lines < given {
        let change = Change::Insert {
            at: lines,
            count: given - lines,
        };
        make(book, sheet, axis, lines, &change)
    } else {
        Ok(())
    }
}

/// Makes the change of the lines of the sheet, which has so many on the axis. It is no move, so no merge is torn.
///
/// # Errors
///
/// [`NoMemory`] where memory runs out; the spreadsheet is to be given up then.
fn make(
    book: &mut Book,
    sheet: u32,
    axis: Axis,
    count: u32,
    change: &Change,
) -> Result<(), NoMemory>
    requires fits { Fits change.now count }
    requires long { IsSomeAnd (place_sheet_with sheet book.old.sheets) (λ found. lines_of_sheet axis found ≡ count) }
    requires room { IsLineCount axis (count_after change.now count) }
    requires few { places_changed sheet axis change.now book.old.sheets ≤ most_places }
    requires stays { ¬ (IsMove change.now) }
    ensures made { OnOk result (AreChanges (LinesChanged sheet axis change.now ∷ []) book.old book.new) }
    ensures sized { OnOk result
        (GetsSize sheet (λ size. size_after axis change.now size.0 size.1) book.old.sheets book.new.sheets) }
{
    line_changes_are_changes();
    book.stays_sound();
    book.change_lines(&SheetChange {
        sheet,
        axis,
        count,
        change,
    })
}
