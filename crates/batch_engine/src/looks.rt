ghost use Rattle.std.specs.Prelude.{◌≡◌, ◌<◌, ◌==◌, ◌++◌, ◌∷◌, [], IfOk, OnOk, filter, map, length, get_or, unwrap_or, false};
ghost use Rattle.cell_calc.specs.Calculated.{IsTableOf};
ghost use Rattle.world_model.specs.Sheet.{PlaceSheet};
ghost use Rattle.world_model.specs.Sound.{IsSheetSound, most_sheets};
ghost use Rattle.values_api.specs.Sheets.{stored_in};
ghost use Rattle.request_kinds.specs.Shown.{shown_protection};
ghost use Rattle.batch_engine.specs.Looks.{AreSheetsShown, IsGridShown, IsSpreadsheetShown, shown_protections, shown_sheet, spreadsheet_alone, with_sheets};

use crate::answers::unless_empty;
use crate::hidden_rows::rows_told;
use basic_filter::Filter;
use cell_calc::Table;
use cell_value::{Duplicate, Items, NoMemory};
use dimension_ops::{Book, Sheet};
use grid_range::Area;
use named_ranges::{NamedRange, Names};
use protection::Protection;
use request_kinds::{shown_properties, shown_protection};
use sheets_json::{GridData, ShownProtection, ShownSheet, Spreadsheet};
use std::alloc::Global;
use world_model::ids_find;

/// What a user's look at a spreadsheet shows, with what is known of its rows where that is asked for.
pub(crate) fn look(
    alloc: Global,
    book: &Book,
    user: &str,
    grids: Option<bool>,
) -> Result<Spreadsheet, NoMemory>
    ensures { IfOk result (IsSpreadsheetShown user.now (unwrap_or grids false) book.now) }
{
    spreadsheet_of(alloc, book, user, grids.unwrap_or(false))
}

/// The spreadsheet as the user is shown it, without what is known of its rows.
pub(crate) fn spreadsheet_alone(
    alloc: Global,
    book: &Book,
    user: &str,
) -> Result<Spreadsheet, NoMemory>
    ensures { IfOk result (λ shown. shown ≡ spreadsheet_alone user.now book.now) }
{
    spreadsheet_of(alloc, book, user, false)
}

/// The spreadsheet as the user is shown it, with what is known of its rows or without.
fn spreadsheet_of(
    alloc: Global,
    book: &Book,
    user: &str,
    wanted: bool,
) -> Result<Spreadsheet, NoMemory>
    ensures { IfOk result (IsSpreadsheetShown user.now wanted book.now) }
{
    let sheets = shown_sheets(alloc, book, user, wanted)?;
    with_sheets(alloc, book, sheets)
}

/// The spreadsheet as it is shown with these sheets.
fn with_sheets(
    alloc: Global,
    book: &Book,
    sheets: Items<ShownSheet>,
) -> Result<Spreadsheet, NoMemory>
    ensures { IfOk result (λ shown. shown ≡ with_sheets book.now sheets) }
{
    Ok(Spreadsheet {
        named_ranges: unless_empty(ranges_of(alloc, book.names())?),
        title: book.title().duplicate()?,
        sheets,
        spreadsheet_id: book.id().duplicate()?,
    })
}

/// The named ranges, in order of creation. More than a `u32` counts aren't listed, as for want of memory; no request
/// makes so many.
fn ranges_of(alloc: Global, names: &Names) -> Result<Items<NamedRange>, NoMemory>
    ensures { IfOk result (λ ranges. ranges ≡ names.now) }
{
    let mut ranges = Vec::new(alloc);
    for at in 0..u32::MAX {
        match names.list(at) {
            Some(range) => ranges.push(range.duplicate()?)?,
            None => return Ok(Items::of(ranges)),
        }
    }
    Err(NoMemory)
}

/// The sheets as they are shown, in their order. A value is calculated once for all of them.
fn shown_sheets(
    alloc: Global,
    book: &Book,
    user: &str,
    wanted: bool,
) -> Result<Items<ShownSheet>, NoMemory>
    ensures { IfOk result (AreSheetsShown user.now wanted book.now book.now.sheets) }
{
    book.stays_sound();
    let mut sheets = Vec::new(alloc);
    let mut table = Table::new(alloc);
    for at in 0..book.sheets().as_slice().len() {
        let sheet = sheet_at(book, at);
        let grid = grid_shown(alloc, book, &mut table, sheet, wanted)?;
        let protections = shown_protections(alloc, book, user, sheet.id())?;
        sheets.push(shown_sheet(alloc, at as u32, sheet, grid, protections)?)?;
    }
    Ok(Items::of(sheets))
}

/// The sheet at a place among the sheets.
fn sheet_at(book: &Book, at: usize) -> &Sheet
    requires { at < length book.now.sheets }
    ensures sheet { (other : PlaceSheet) → result.now ≡ get_or book.now.sheets at other }
    ensures few { at < most_sheets }
{
    book.stays_sound();
    ids_find();
    let ids = book.sheets().as_slice();
    book.sheet(ids[at]).unwrap()
}

/// The sheet as it is shown at its place among the sheets, with what is known of its rows, and with what is
/// shown of its protected ranges.
fn shown_sheet(
    alloc: Global,
    index: u32,
    sheet: &Sheet,
    grid: Option<GridData>,
    protections: Items<ShownProtection>,
) -> Result<ShownSheet, NoMemory>
    ensures { IfOk result (λ shown. shown ≡ shown_sheet index sheet.now grid protections) }
{
    Ok(ShownSheet {
        basic_filter: filter_of(sheet)?,
        data: grid,
        merges: unless_empty(merges_of(alloc, sheet)?),
        properties: shown_properties(index, sheet)?,
        protected_ranges: unless_empty(protections),
    })
}

/// A copy of the sheet's filter, if it has one.
fn filter_of(sheet: &Sheet) -> Result<Option<Filter>, NoMemory>
    ensures { IfOk result (λ filter. filter ≡ sheet.now.filter) }
{
    match sheet.filter() {
        Some(filter) => Ok(Some(filter.duplicate()?)),
        None => Ok(None),
    }
}

/// The merges of the sheet, by first row and then first column.
fn merges_of(alloc: Global, sheet: &Sheet) -> Result<Items<Area>, NoMemory>
    ensures { IfOk result (λ merges. merges ≡ sheet.now.merges) }
{
    let merges = Vec::from_slice(alloc, sheet.merges().list().as_slice())?;
    Ok(Items::of(merges))
}

/// What is known of the rows of a sheet, if that is wanted: which its filter hides.
fn grid_shown(
    alloc: Global,
    book: &Book,
    table: &mut Table,
    sheet: &Sheet,
    wanted: bool,
) -> Result<Option<GridData>, NoMemory>
    requires sound { IsSheetSound book.now.sheets sheet.now }
    requires table { IsTableOf (stored_in book.now) table.old }
    ensures grid { IfOk result (IsGridShown wanted book.now sheet.now) }
    ensures table { OnOk result (IsTableOf (stored_in book.now) table.new) }
{
    if wanted {
        let row_metadata = rows_told(alloc, book, table, sheet)?;
        Ok(Some(GridData { row_metadata }))
    } else {
        Ok(None)
    }
}

/// What the user is shown of the protected ranges of a sheet, in order of id. More than a `u32` counts aren't listed,
/// as for want of memory; no request makes so many.
fn shown_protections(
    alloc: Global,
    book: &Book,
    user: &str,
    sheet: u32,
) -> Result<Items<ShownProtection>, NoMemory>
    ensures { IfOk result (λ shown. shown ≡ shown_protections user.now book.now sheet) }
{
    let owner = book.owner().as_str();
    let mut shown = Vec::new(alloc);
    for at in 0..u32::MAX {
        match book.protections().list(at) {
            Some(one) => put_shown(alloc, &mut shown, user, owner, sheet, one)?,
            None => return Ok(Items::of(shown)),
        }
    }
    Err(NoMemory)
}

/// Puts what the user is shown of the protected range behind the others, if it is one of the sheet.
fn put_shown(
    alloc: Global,
    shown: &mut Vec<ShownProtection>,
    user: &str,
    owner: &str,
    sheet: u32,
    protection: &Protection,
) -> Result<(), NoMemory>
    ensures { OnOk result (shown.new.items ≡ shown.old.items ++ map (shown_protection user.now owner.now)
        (filter (λ one. one.area.sheet == sheet) (protection.now ∷ []))) }
{
    if protection.area.sheet == sheet {
        shown.push(shown_protection(alloc, user, owner, protection)?)?;
        Ok(())
    } else {
        Ok(())
    }
}
