ghost use Rattle.std.specs.Prelude.{◌≡◌, IfOk, OnOk};
ghost use Rattle.values_api.specs.Sheets.{formula_sheets, stored_in, ArePlacesOn, AreCellsAt, AddsCell, AreCellsOn};

use cell_calc::{CellsOf, StoredCell};
use cell_value::{Items, NoMemory, Text};
use dimension_ops::{Book, Sheet};
use formula_reader::SheetNames;
use grid_range::Area;
use ref_rewrite::Content;
use std::alloc::Global;

/// A spreadsheet as its formulas see it: its sheets by title, their sizes and titles, what is stored in their cells,
/// and its named ranges by name.
#[derive(Drop)]
pub struct BookCells<'a> {
    book: &'a Book,
}

impl<'a> BookCells<'a> {
    /// The spreadsheet, lent.
    pub fn of(book: &'a Book) -> BookCells<'a>
        ensures { result.book.now ≡ book.now }
    {
        BookCells { book }
    }
}

impl<'a> SheetNames for BookCells<'a> {
    ghost sheets = { λ cells. formula_sheets cells.book.now.sheets };

    fn find(&self, title: &str) -> Option<u32> {
        match self.book.titled(title) {
            Some(sheet) => Some(sheet.id()),
            None => None,
        }
    }

    fn size(&self, sheet: u32) -> Option<(u32, u32)> {
        match self.book.sheet(sheet) {
            Some(sheet) => Some((sheet.rows(), sheet.cols())),
            None => None,
        }
    }

    fn title(&self, sheet: u32) -> Option<&Text> {
        match self.book.sheet(sheet) {
            Some(sheet) => Some(sheet.title()),
            None => None,
        }
    }
}

impl<'a> CellsOf for BookCells<'a> {
    ghost contents = { λ cells. stored_in cells.book.now };

    fn sheets(&self) -> &Items<u32> {
        self.book.sheets()
    }

    fn size(&self, sheet: u32) -> Option<(u32, u32)> {
        match self.book.sheet(sheet) {
            Some(sheet) => Some((sheet.rows(), sheet.cols())),
            None => None,
        }
    }

    fn content(&self, sheet: u32, row: u32, column: u32) -> Option<&Content> {
        self.book.content(sheet, row, column)
    }

    fn cells(&self, alloc: Global, area: &Area) -> Result<Vec<StoredCell<'_>>, NoMemory> {
        match self.book.sheet(area.sheet) {
            Some(sheet) => cells_on(alloc, sheet, area),
            None => Ok(Vec::new(alloc)),
        }
    }

    fn name(&self, word: &str) -> Option<Area> {
        match self.book.names().find(word) {
            Some(range) => Some(range.area),
            None => None,
        }
    }

    fn stay_sound(&self) {
        self.book.stays_sound();
    }
}

/// The cells of the area in which the sheet stores something, by rows.
fn cells_on<'a>(
    alloc: Global,
    sheet: &'a Sheet,
    area: &Area,
) -> Result<Vec<StoredCell<'a>>, NoMemory>
    ensures { IfOk result (λ cells. AreCellsOn area.now sheet.now.table cells.items) }
{
    let places = sheet.places(area)?;
    cells_at(alloc, sheet, places.as_slice())
}

/// The sheet's cells in these places, which store something.
fn cells_at<'a>(
    alloc: Global,
    sheet: &'a Sheet,
    places: &[(u32, u32)],
) -> Result<Vec<StoredCell<'a>>, NoMemory>
    requires { ArePlacesOn sheet.now.table places.now }
    ensures { IfOk result (λ cells. AreCellsAt sheet.now.table places.now cells.items) }
{
    let mut cells = Vec::new(alloc);
    for place in places {
        add_cell(&mut cells, sheet, place.0, place.1)?;
    }
    Ok(cells)
}

/// Puts the sheet's cell in the place behind others, if it stores something.
fn add_cell<'a>(
    cells: &mut Vec<StoredCell<'a>>,
    sheet: &'a Sheet,
    row: u32,
    column: u32,
) -> Result<(), NoMemory>
    ensures { OnOk result (AddsCell sheet.now.table (row, column) cells.old.items cells.new.items) }
{
    match sheet.content(row, column) {
        Some(content) => Ok(cells.push(StoredCell {
            row,
            column,
            content,
        })?),
        None => Ok(()),
    }
}
