//! Sheets that are added to a spreadsheet or deleted from it, and what is set of them.

ghost use Rattle.std.specs.Char.{is_control};
ghost use Rattle.std.specs.List.{list_any};
ghost use Rattle.std.specs.Str.{chars};
ghost use Rattle.cell_store.specs.Table.{most_lines};
ghost use Rattle.std.specs.Prelude.{◌≡◌, ◌==◌, ◌||◌, ◌≤◌, ◌+◌, ◌*◌, ◌∷◌, [], None, length, IfOk, OnErr, OnOk};
ghost use Rattle.cell_value.specs.Ids.{IsNewId, is_taken};
ghost use Rattle.world_model.specs.BookChange.{AreChanges, NewSheet};
ghost use Rattle.world_model.specs.Counts.{grid_places};
ghost use Rattle.world_model.specs.SheetChange.{new_place_sheet};
ghost use Rattle.world_model.specs.Sound.{most_places};
ghost use Rattle.world_model.specs.BookChange.BookChange.{SheetDeleted};
ghost use Rattle.dimension_ops.specs.Rules.{IsUnlessNoMemory};
ghost use Rattle.dimension_ops.specs.Broken.{first_broken, first_passed, judged_by};
ghost use Rattle.dimension_ops.specs.SheetRequests.{IsJudged, IsSheetAdded, IsNewSheet, IsLeastId, IsFirstTitle};
ghost use Rattle.dimension_ops.specs.SheetRequests.{has_id, has_title, is_bad_title, may_be_title, passes_with};
ghost use Rattle.dimension_ops.specs.SheetRequests.{new_rows, new_cols, new_place, sheet_added_broken, sheet_dropped_broken, size_added_broken};

use crate::book::Book;
use crate::rule::{Limit, Rule, RuleOr};
use crate::sheet::Sheet;
use cell_value::{Duplicate, NoMemory, SheetProperties, Text};
use world_model::{
    MOST_COLUMNS, MOST_PLACES, MOST_ROWS, MOST_SHEETS, sheets_added, sheets_deleted,
};

/// How many rows a sheet has where none are asked for.
pub(crate) const DEFAULT_ROWS: u32 = 1_000;

/// How many columns a sheet has where none are asked for.
pub(crate) const DEFAULT_COLUMNS: u32 = 26;

/// The longest title, in bytes.
const LONGEST_TITLE: usize = 100;

/// Adds an empty sheet, and gives its id. What isn't given is chosen: the least id that no sheet has, the first of
/// the titles `Sheet1`, `Sheet2` and so on that none has, the last place, 1,000 rows and 26 columns.
///
/// # Errors
///
/// The first of these rules that is broken: [`Rule::BadRange`] where the place is above the number of sheets,
/// [`Rule::IdTaken`], [`Rule::BadName`], [`Rule::NameTaken`], [`Rule::LastLine`] where the sheet would have no row or
/// no column, and [`Rule::PastLimit`] of sheets, rows, columns or cells, counted with the sheet; or
/// [`RuleOr::NoMemory`]. The spreadsheet is as it was.
pub fn add_sheet(book: &mut Book, properties: &SheetProperties) -> Result<u32, RuleOr>
    ensures judged { IsJudged (sheet_added_broken properties.now book.old.sheets) result }
    ensures added { IfOk result (IsSheetAdded properties.now book.old book.new) }
    ensures unchanged { OnErr result (book.new ≡ book.old) }
{
    if let Err(rule) = judge_added(book, properties) {
        return Err(RuleOr::Rule(rule));
    }
    let id = put_new(book, properties)?;
    Ok(id)
}

/// Adds the sheet, where no rule is broken, and gives its id.
///
/// # Errors
///
/// [`NoMemory`] where memory runs out; the spreadsheet is as it was.
fn put_new(book: &mut Book, properties: &SheetProperties) -> Result<u32, NoMemory>
    requires { first_broken (sheet_added_broken properties.now book.old.sheets) ≡ None }
    ensures added { IfOk result (IsSheetAdded properties.now book.old book.new) }
    ensures unchanged { OnErr result (book.new ≡ book.old) }
{
    sheets_added();
    book.stays_sound();
    let sheet = new_sheet(book, properties)?;
    let id = sheet.id();
    let place = place_of_new(book, properties);
    book.insert(place, sheet)?;
    Ok(id)
}

/// Deletes the sheet with the id. Each reference to it is lost for good, in formulas of all sheets.
///
/// # Errors
///
/// [`Rule::NoSheet`] where no sheet has the id, and [`Rule::LastSheet`] where no visible sheet would be left. The
/// spreadsheet is as it was then. [`RuleOr::NoMemory`] where memory runs out; the spreadsheet is to be given up
/// then.
pub fn drop_sheet(book: &mut Book, sheet: u32) -> Result<(), RuleOr>
    ensures judged { IsJudged (sheet_dropped_broken sheet book.old.sheets) result }
    ensures dropped { OnOk result (AreChanges (SheetDeleted sheet ∷ []) book.old book.new) }
    ensures unchanged { IsUnlessNoMemory (λ answer. OnErr answer (book.new ≡ book.old)) result }
{
    if let Err(rule) = judge_dropped(book, sheet) {
        return Err(RuleOr::Rule(rule));
    }
    sheets_deleted();
    book.remove(sheet)?;
    book.stays_sound();
    Ok(())
}

/// The first rule that is broken by deleting a sheet.
fn judge_dropped(book: &Book, sheet: u32) -> Result<(), Rule>
    ensures { result ≡ judged_by (sheet_dropped_broken sheet book.now.sheets) tt }
{
    if !has_id(book, sheet) {
        return Err(Rule::NoSheet);
    }
    if book.others_hidden(sheet) {
        return Err(Rule::LastSheet);
    }
    Ok(())
}

/// The first rule that is broken by adding a sheet.
fn judge_added(book: &Book, properties: &SheetProperties) -> Result<(), Rule>
    ensures { result ≡ judged_by (sheet_added_broken properties.now book.now.sheets) tt }
{
    if place_of_new(book, properties) > book.count() {
        return Err(Rule::BadRange);
    }
    if is_id_taken(book, properties.id) {
        return Err(Rule::IdTaken);
    }
    if is_bad_title(&properties.title) {
        return Err(Rule::BadName);
    }
    if is_title_taken(book, &properties.title) {
        return Err(Rule::NameTaken);
    }
    judge_size(book, new_rows(properties), new_cols(properties))
}

/// The first rule that is broken by the size of a sheet that is added.
fn judge_size(book: &Book, rows: u32, cols: u32) -> Result<(), Rule>
    ensures { result ≡ judged_by (size_added_broken rows cols book.now.sheets) tt }
{
    if rows == 0 || cols == 0 {
        return Err(Rule::LastLine);
    }
    let places = book.grid_places() + places_of(rows, cols);
    match first_passed(book.count() + 1, rows, cols, places) {
        Some(limit) => Err(Rule::PastLimit(limit)),
        None => Ok(()),
    }
}

/// How many places a sheet of that size has.
pub(crate) fn places_of(rows: u32, cols: u32) -> u64
    ensures places { result ≡ rows * cols }
    ensures within { result ≤ 18446744065119617025 }
{
    rows as u64 * cols as u64
}

/// The first limit that is passed where there are so many sheets, one of that size, and so many places in all.
fn first_passed(sheets: u32, rows: u32, cols: u32, places: u64) -> Option<Limit>
    ensures { result ≡ first_passed (passes_with sheets rows cols places) }
{
    if sheets > MOST_SHEETS {
        Some(Limit::Sheets)
    } else if rows > MOST_ROWS {
        Some(Limit::Rows)
    } else if cols > MOST_COLUMNS {
        Some(Limit::Columns)
    } else if places > MOST_PLACES {
        Some(Limit::Cells)
    } else {
        None
    }
}

/// How many rows a new sheet has.
pub(crate) fn new_rows(properties: &SheetProperties) -> u32
    ensures { result ≡ new_rows properties.now }
{
    properties.rows.unwrap_or(DEFAULT_ROWS)
}

/// How many columns a new sheet has.
pub(crate) fn new_cols(properties: &SheetProperties) -> u32
    ensures { result ≡ new_cols properties.now }
{
    properties.cols.unwrap_or(DEFAULT_COLUMNS)
}

/// Before which sheet a new one stands.
fn place_of_new(book: &Book, properties: &SheetProperties) -> u32
    ensures { result ≡ new_place properties.now book.now.sheets }
{
    properties.index.unwrap_or(book.count())
}

/// Whether a given id is one that a sheet has.
fn is_id_taken(book: &Book, given: Option<u32>) -> bool
    ensures { result ≡ is_taken (has_id book.now.sheets) given }
{
    match given {
        Some(id) => has_id(book, id),
        None => false,
    }
}

/// Whether a sheet has the id.
fn has_id(book: &Book, id: u32) -> bool
    ensures { result ≡ has_id book.now.sheets id }
{
    book.sheet(id).is_some()
}

/// Whether a given title is one that a sheet has, whatever the case of its ASCII letters.
fn is_title_taken(book: &Book, given: &Option<Text>) -> bool
    ensures { result ≡ is_taken (has_title book.now.sheets) given.now }
{
    match given {
        Some(title) => has_title(book, title.as_str()),
        None => false,
    }
}

/// Whether a sheet has the title, whatever the case of its ASCII letters.
fn has_title(book: &Book, title: &str) -> bool
    ensures { result ≡ has_title book.now.sheets title.now }
{
    book.titled(title).is_some()
}

/// Whether a given title may not be one.
pub(crate) fn is_bad_title(given: &Option<Text>) -> bool
    ensures { result ≡ is_bad_title given.now }
{
    match given {
        Some(title) => !may_be_title(title.as_str()),
        None => false,
    }
}

/// Whether a text may be a title: it has 1 to 100 bytes, and no control character.
fn may_be_title(text: &str) -> bool
    ensures { result ≡ may_be_title text.now }
{
    !text.is_empty() && text.len() <= LONGEST_TITLE && !has_control(text)
}

/// Whether the text has a control character.
fn has_control(text: &str) -> bool
    ensures { result ≡ list_any is_control (chars text.now) }
{
    text.chars().any(|character| character.is_control())
}

/// The sheet that is added, empty.
///
/// # Errors
///
/// [`NoMemory`] where memory runs out.
fn new_sheet(book: &Book, properties: &SheetProperties) -> Result<Sheet, NoMemory>
    requires { new_rows properties.now + new_cols properties.now ≤ most_lines }
    ensures { IfOk result (λ sheet. (new : NewSheet) × IsNewSheet properties.now book.now.sheets new
        × (sheet ≡ new_place_sheet new)) }
{
    let id = new_id(book, properties.id)?;
    let title = new_title(book, &properties.title)?;
    let rows = new_rows(properties);
    let cols = new_cols(properties);
    let mut sheet = Sheet::empty(book.allocator(), id, title, rows, cols)?;
    sheet.set_hidden(properties.hidden.unwrap_or(false));
    Ok(sheet)
}

/// The id of a new sheet: the one that is given, or else the least that no sheet has.
fn new_id(book: &Book, given: Option<u32>) -> Result<u32, NoMemory>
    ensures { IfOk result (IsNewId (IsLeastId book.now.sheets) given) }
{
    match given {
        Some(id) => Ok(id),
        None => least_id(book),
    }
}

/// The least id that no sheet has.
fn least_id(book: &Book) -> Result<u32, NoMemory>
    ensures { IfOk result (IsLeastId book.now.sheets) }
{
    for id in 0..=MOST_SHEETS {
        if !has_id(book, id) {
            return Ok(id);
        }
    }
    Err(NoMemory)
}

/// The title of a new sheet: the one that is given, or else the first of `Sheet1`, `Sheet2` and so on that no
/// sheet has.
fn new_title(book: &Book, given: &Option<Text>) -> Result<Text, NoMemory>
    ensures { IfOk result (IsNewId (IsFirstTitle book.now.sheets) given.now) }
{
    match given {
        Some(title) => title.duplicate(),
        None => first_title(book),
    }
}

/// The first of `Sheet1`, `Sheet2` and so on that no sheet has.
fn first_title(book: &Book) -> Result<Text, NoMemory>
    ensures { IfOk result (IsFirstTitle book.now.sheets) }
{
    for number in 1..=MOST_SHEETS + 1 {
        let title = format!(in book.allocator(); "Sheet{number}")?;
        if !has_title(book, title.as_str()) {
            return Ok(Text::of(title));
        }
    }
    Err(NoMemory)
}
