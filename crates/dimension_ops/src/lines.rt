//! Lines of a sheet are inserted, deleted, moved and appended.

ghost use Rattle.std.specs.Prelude.{◌≡◌, ◌<◌, ◌≤◌, map, IfErr, IfOk, IfSome, IsSomeAnd, Some};
ghost use Rattle.std.specs.Arc.{arc_value};
ghost use Rattle.std.specs.List.{All, AllZip};
ghost use Rattle.std.specs.Option.{IsSome};
ghost use Rattle.cell_store.specs.Moved.{lines_on, size_after};
ghost use Rattle.grid_range.specs.Change.{Fits};
ghost use Rattle.grid_range.specs.declared.change.Change.TheVariants.{Insert};
ghost use Rattle.world_model.specs.PlaceChange.{SheetChanged};
ghost use Rattle.world_model.specs.Sound.{place_sheet_with};
ghost use Rattle.dimension_ops.specs.Broken.{first_broken, first_passed};
ghost use Rattle.dimension_ops.specs.Lines.{IsLinesAnswer, IsUnbroken, SheetFollows};
ghost use Rattle.dimension_ops.specs.Lines.{keeps_places, limit_on, lines_broken, lines_of_sheet, passes_size, places_changed};
ghost use Rattle.dimension_ops.specs.References.{AreWithinOn, CanChange};
ghost use Rattle.dimension_ops.specs.Rules.{IsUnlessNoMemory};
ghost use Rattle.dimension_ops.specs.declared.rule.Rule.TheVariants.{PastLimit};

use crate::book::Book;
use crate::rule::{Limit, Rule, RuleOr};
use crate::sheet::Sheet;
use crate::sheets::places_of;
use cell_value::NoMemory;
use grid_range::{Axis, Change, SheetChange};
use std::alloc::Global;
use std::sync::Arc;
use world_model::{MOST_COLUMNS, MOST_PLACES, MOST_ROWS, line_changes_are_changes};

/// Makes the change of the lines on the axis of the sheet with the id. Cells go with their lines, its merges and
/// its filter follow them, and so does each reference to the sheet, in formulas of all sheets. Lines are counted
/// from 0.
///
/// # Errors
///
/// [`Rule::LastLine`] where no line would be left; [`Rule::PastLimit`] where the sheet would have more than
/// 1,000,000 rows or 18,278 columns, or the spreadsheet more than 10,000,000 places; [`Rule::MergeCut`] where
/// the change is a move after which the lines of a merge of the sheet don't stand side by side in their old
/// order. The spreadsheet is as it was then. [`RuleOr::NoMemory`] where memory runs out; the spreadsheet is to
/// be given up then.
pub fn change_sheet(book: &mut Book, sheet: u32, axis: Axis, change: &Change) -> Result<(), RuleOr>
    requires { IsSomeAnd (place_sheet_with sheet book.old.sheets)
        (λ found. Fits change.now (lines_of_sheet axis found)) }
    ensures { IsUnlessNoMemory (IsLinesAnswer sheet axis change.now book.old book.new) result }
{
    line_changes_are_changes();
    let count = judge(book, sheet, axis, change)?;
    book.change_lines(&SheetChange {
        sheet,
        axis,
        count,
        change,
    })?;
    Ok(())
}

/// Inserts so many lines before the line `at` on the axis of the sheet with the id, or last where `at` is their
/// number. Lines are counted from 0.
///
/// # Errors
///
/// As those of [`change_sheet`].
pub fn insert_lines(
    book: &mut Book,
    sheet: u32,
    axis: Axis,
    at: u32,
    count: u32,
) -> Result<(), RuleOr>
    requires some { 0 < count }
    requires there { IsSomeAnd (place_sheet_with sheet book.old.sheets) (λ found. at ≤ lines_of_sheet axis found) }
    ensures { IsUnlessNoMemory (IsLinesAnswer sheet axis (Insert at count) book.old book.new) result }
{
    book.stays_sound();
    let lines = lines_of(book, sheet, axis);
    let change = Change::Insert { at, count };
    if change.fits(lines) {
        change_sheet(book, sheet, axis, &change)
    } else {
        Err(RuleOr::Rule(past(axis)))
    }
}

/// Adds so many lines behind the last one on the axis of the sheet with the id.
///
/// # Errors
///
/// As those of [`change_sheet`].
pub fn append_lines(book: &mut Book, sheet: u32, axis: Axis, count: u32) -> Result<(), RuleOr>
    requires some { 0 < count }
    requires there { IsSome (place_sheet_with sheet book.old.sheets) }
    ensures { IsSomeAnd (place_sheet_with sheet book.old.sheets) (λ found.
        IsUnlessNoMemory (IsLinesAnswer sheet axis (Insert (lines_of_sheet axis found) count) book.old book.new)
        result) }
{
    let at = lines_of(book, sheet, axis);
    insert_lines(book, sheet, axis, at, count)
}

/// How many lines the sheet with the id has on the axis; none where it isn't there.
fn lines_of(book: &Book, sheet: u32, axis: Axis) -> u32
    ensures { IfSome (place_sheet_with sheet book.now.sheets) (λ found. result ≡ lines_of_sheet axis found) }
{
    match book.sheet(sheet) {
        Some(found) => lines_on(axis, found.rows(), found.cols()),
        None => 0,
    }
}

/// The lines on the axis of a sheet of that size.
pub(crate) fn lines_on(axis: Axis, rows: u32, cols: u32) -> u32
    ensures { result ≡ lines_on axis rows cols }
{
    match axis {
        Axis::Rows => rows,
        Axis::Columns => cols,
    }
}

/// The limit of a sheet's lines on the axis, which is passed.
fn past(axis: Axis) -> Rule
    ensures { result ≡ PastLimit (limit_on axis) }
{
    match axis {
        Axis::Rows => Rule::PastLimit(Limit::Rows),
        Axis::Columns => Rule::PastLimit(Limit::Columns),
    }
}

/// The number of the sheet's lines on the axis before the change.
///
/// # Errors
///
/// The first rule that the change breaks.
fn judge(book: &Book, sheet: u32, axis: Axis, change: &Change) -> Result<u32, Rule>
    requires { IsSomeAnd (place_sheet_with sheet book.now.sheets)
        (λ found. Fits change.now (lines_of_sheet axis found)) }
    ensures unbroken { IfOk result (IsUnbroken sheet axis change.now book.now.sheets) }
    ensures broken { IfErr result
        (λ rule. first_broken (lines_broken sheet axis change.now book.now.sheets) ≡ Some rule) }
{
    book.stays_sound();
    let Some(found) = book.sheet(sheet) else {
        return Ok(0);
    };
    let (rows, cols) = (found.rows(), found.cols());
    let count = lines_on(axis, rows, cols);
    if change.lines_after(count) == 0 {
        return Err(Rule::LastLine);
    }
    let size = size_after(axis, change, rows, cols);
    if let Some(limit) = first_past(size.0, size.1, places_after(book, sheet, axis, change)) {
        return Err(Rule::PastLimit(limit));
    }
    if found.merges().tears(axis, count, change) {
        return Err(Rule::MergeCut);
    }
    Ok(count)
}

/// The first limit that a sheet of that size passes, beside others with that many places in all.
pub(crate) fn first_past(rows: u32, cols: u32, places: u64) -> Option<Limit>
    ensures { result ≡ first_passed (passes_size (rows, cols) places) }
{
    if rows > MOST_ROWS {
        Some(Limit::Rows)
    } else if cols > MOST_COLUMNS {
        Some(Limit::Columns)
    } else if places > MOST_PLACES {
        Some(Limit::Cells)
    } else {
        None
    }
}

/// How many places the sheets have after the change.
fn places_after(book: &Book, sheet: u32, axis: Axis, change: &Change) -> u64
    requires { IsSomeAnd (place_sheet_with sheet book.now.sheets)
        (λ found. Fits change.now (lines_of_sheet axis found)) }
    ensures { result ≡ places_changed sheet axis change.now book.now.sheets }
{
    book.stays_sound();
    let Some(found) = book.sheet(sheet) else {
        return 0;
    };
    let (rows, cols) = (found.rows(), found.cols());
    let size = size_after(axis, change, rows, cols);
    book.grid_places() + places_of(size.0, size.1) - places_of(rows, cols)
}

/// The size of a sheet of that size after the change.
fn size_after(axis: Axis, change: &Change, rows: u32, cols: u32) -> (u32, u32)
    requires { Fits change.now (lines_on axis rows cols) }
    ensures { result ≡ size_after axis change.now rows cols }
{
    match axis {
        Axis::Rows => (change.lines_after(rows), cols),
        Axis::Columns => (rows, change.lines_after(cols)),
    }
}

/// The sheets after the change, each of which can be made on.
///
/// # Errors
///
/// [`NoMemory`] where memory runs out.
pub(crate) fn sheets_changed(
    alloc: Global,
    sheets: Vec<Arc<Sheet>>,
    by: &SheetChange,
) -> Result<Vec<Arc<Sheet>>, NoMemory>
    requires fits { Fits by.now.change.now by.now.count }
    requires ready { All (CanChange by.now.sheet by.now.axis by.now.count by.now.change.now)
        (map arc_value sheets.items) }
    ensures { IfOk result (λ changed. AllZip (SheetChanged by.now.sheet by.now.axis by.now.count by.now.change.now)
        (map arc_value sheets.items) (map arc_value changed.items)) }
{
    let mut changed = Vec::new(alloc);
    for sheet in sheets {
        changed.push(sheet_changed(alloc, sheet, by)?)?;
    }
    Ok(changed)
}

/// A sheet after the change, which it may be that of.
fn sheet_changed(alloc: Global, sheet: Arc<Sheet>, by: &SheetChange) -> Result<Arc<Sheet>, NoMemory>
    requires fits { Fits by.now.change.now by.now.count }
    requires ready { CanChange by.now.sheet by.now.axis by.now.count by.now.change.now (arc_value sheet) }
    ensures { IfOk result (λ changed.
        SheetChanged by.now.sheet by.now.axis by.now.count by.now.change.now (arc_value sheet) (arc_value changed)) }
{
    if sheet.id() == by.sheet {
        let changed = own_changed(owned(sheet)?, by)?;
        shared(alloc, changed)
    } else {
        another_followed(alloc, sheet, by)
    }
}

/// The sheet whose lines are changed, after the change: its items went with their lines, and its merges, its
/// filter and its formulas followed.
fn own_changed(sheet: Sheet, by: &SheetChange) -> Result<Sheet, NoMemory>
    requires fits { Fits by.now.change.now by.now.count }
    requires own { sheet.id ≡ by.now.sheet }
    requires ready { CanChange by.now.sheet by.now.axis by.now.count by.now.change.now sheet }
    ensures { IfOk result (SheetChanged by.now.sheet by.now.axis by.now.count by.now.change.now sheet) }
{
    let mut moved = sheet.moved(by)?;
    if keeps_places(by.change, by.count) {
        return Ok(moved);
    }
    let places = moved.references(by.sheet)?;
    moved.follow(&places, by)?;
    Ok(moved)
}

/// A sheet whose lines aren't changed, after its formulas followed. One without a reference to the sheet that
/// is changed stays as it is, and isn't copied.
fn another_followed(
    alloc: Global,
    sheet: Arc<Sheet>,
    by: &SheetChange,
) -> Result<Arc<Sheet>, NoMemory>
    requires fits { Fits by.now.change.now by.now.count }
    requires within { AreWithinOn by.now.sheet by.now.axis by.now.count (arc_value sheet).table }
    ensures { IfOk result (λ followed.
        SheetFollows by.now.sheet by.now.axis by.now.count by.now.change.now (arc_value sheet) (arc_value followed)) }
{
    if keeps_places(by.change, by.count) {
        return Ok(sheet);
    }
    let places = sheet.references(by.sheet)?;
    if places.as_slice().is_empty() {
        return Ok(sheet);
    }
    let mut own = owned(sheet)?;
    own.follow(&places, by)?;
    shared(alloc, own)
}

/// Whether each of so many lines stays where it is: lines come behind the last one, or some are moved to where
/// they stand. No reference to them changes then.
pub(crate) fn keeps_places(change: &Change, count: u32) -> bool
    ensures { result ≡ keeps_places change.now count }
{
    match *change {
        Change::Insert { at, .. } => at == count,
        Change::Delete { .. } => false,
        Change::Move { start, end, to } => start <= to && to <= end,
    }
}

/// The sheet, or a copy of it where others share it.
fn owned(sheet: Arc<Sheet>) -> Result<Sheet, NoMemory>
    ensures { IfOk result (λ own. own ≡ arc_value sheet) }
{
    let own = Arc::unwrap_or_clone(sheet)?;
    Ok(own)
}

/// The sheet as copies of a spreadsheet share it.
fn shared(alloc: Global, sheet: Sheet) -> Result<Arc<Sheet>, NoMemory>
    ensures { IfOk result (λ shared. arc_value shared ≡ sheet) }
{
    let shared = Arc::new(alloc, sheet)?;
    Ok(shared)
}
