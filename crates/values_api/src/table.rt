ghost use Rattle.std.specs.Prelude.{None, ◌≡◌, ◌↔◌, ◌<◌, ◌≤◌, ◌+◌, ℕ, IfOk, IfSome, IsTrue, Contains};
ghost use Rattle.std.specs.List.Sorted.{IsStrictlySortedBy};
ghost use Rattle.grid_range.specs.Area.{by_rows};
ghost use Rattle.cell_store.specs.Table.{HasItemsInside, most_lines};
ghost use Rattle.values_api.specs.Tables.{AreStored, HasBefore, HasBetween, HasCells, HasNear, IsClosed, IsGrown, IsListed, IsStart, IsStored, IsTable, IsTableIn, columns_first};

use cell_store::held_by_rows;
use cell_value::{Items, NoMemory};
use dimension_ops::Sheet;
use grid_range::{Area, Band};
use std::alloc::Global;

/// A rectangle of cells, by lines counted from 0.
#[derive(Clone, Copy, Debug)]
pub struct Rectangle {
    /// The first row.
    pub top: u32,
    /// The row behind the last one.
    pub bottom: u32,
    /// The first column.
    pub left: u32,
    /// The column behind the last one.
    pub right: u32,
}

/// The cells of a sheet in which something is stored, looked up by rows and by columns.
#[derive(Drop)]
struct Stored {
    /// Their places by rows.
    by_rows: Items<(u32, u32)>,
    /// Their places by columns, with the column before the row.
    by_cols: Items<(u32, u32)>,
    /// How many rows the sheet has.
    rows: u32,
    /// How many columns.
    cols: u32,
}

/// The table that values are appended to (Sheets API v4 reference, spreadsheets.values.append): the smallest
/// rectangle of cells of the sheet that has the last cell of the area, by rows, in which something is stored,
/// and beside which nothing is stored, corners included. None where nothing is stored in the area.
///
/// # Errors
///
/// [`NoMemory`] where memory runs out.
pub(crate) fn table_in(
    alloc: Global,
    sheet: &Sheet,
    area: &Area,
) -> Result<Option<Rectangle>, NoMemory>
    requires few { sheet.now.table.rows + sheet.now.table.cols ≤ most_lines }
    requires inside { HasItemsInside sheet.now.table }
    ensures { IfOk result (IsTableIn area.now sheet.now.table) }
{
    let held = sheet.places(area)?;
    match held.as_slice().last() {
        Some(last) => {
            let stored = Stored::of(alloc, sheet)?;
            Ok(Some(stored.table_around(last.0, last.1)))
        }
        None => Ok(None),
    }
}

impl Stored {
    /// Those of a sheet.
    fn of(alloc: Global, sheet: &Sheet) -> Result<Stored, NoMemory>
        requires few { sheet.now.table.rows + sheet.now.table.cols ≤ most_lines }
        requires inside { HasItemsInside sheet.now.table }
        ensures stored { IfOk result AreStored }
        ensures listed { IfOk result
            (λ stored. (row col : ℕ) → IsListed stored row col ↔ IsStored sheet.now.table row col) }
    {
        let whole = Area {
            sheet: sheet.id(),
            rows: Band::Whole,
            cols: Band::Whole,
        };
        let by_rows = sheet.places(&whole)?;
        let by_cols = columns_first(alloc, by_rows.as_slice())?;
        Ok(Stored {
            by_rows,
            by_cols: held_by_rows(by_cols, &whole),
            rows: sheet.rows(),
            cols: sheet.cols(),
        })
    }

    /// The smallest rectangle that has the cell and no such cell beside it. It grows by a line that holds
    /// something as often as there is one beside it.
    fn table_around(&self, row: u32, col: u32) -> Rectangle
        requires stored { AreStored self.now }
        requires there { IsListed self.now row col }
        ensures { IsTable (IsListed self.now) row col result }
    {
        let mut table = Rectangle {
            top: row,
            bottom: row + 1,
            left: col,
            right: col + 1,
        };
        while let Some(grown) = self.grown(table) {
            table = grown;
        }
        table
    }

    /// The rectangle with a line beside it that holds something next to it; None where there is none.
    fn grown(&self, rectangle: Rectangle) -> Option<Rectangle>
        requires stored { AreStored self.now }
        requires cells { HasCells rectangle }
        ensures grown { IfSome result (IsGrown self.now rectangle) }
        ensures closed { result ≡ None → IsClosed (IsListed self.now) rectangle }
    {
        let (rows, cols) = (self.by_rows.as_slice(), self.by_cols.as_slice());
        let Rectangle {
            top,
            bottom,
            left,
            right,
        } = rectangle;
        if has_before(rows, top, left, right) {
            let top = top - 1;
            return Some(Rectangle { top, ..rectangle });
        }
        if has_near(rows, bottom, left, right) {
            let bottom = bottom + 1;
            return Some(Rectangle {
                bottom,
                ..rectangle
            });
        }
        if has_before(cols, left, top, bottom) {
            let left = left - 1;
            return Some(Rectangle { left, ..rectangle });
        }
        if has_near(cols, right, top, bottom) {
            let right = right + 1;
            return Some(Rectangle { right, ..rectangle });
        }
        None
    }
}

/// The places with the column before the row.
fn columns_first(alloc: Global, places: &[(u32, u32)]) -> Result<Vec<(u32, u32)>, NoMemory>
    ensures { IfOk result (λ turned. turned.items ≡ columns_first places.now) }
{
    let mut turned = Vec::new(alloc);
    for place in places {
        turned.push((place.1, place.0))?;
    }
    Ok(turned)
}

/// Whether the line before that one has one of the places, which are in order, in a stretch of the line or
/// directly beside it.
fn has_before(places: &[(u32, u32)], line: u32, start: u32, end: u32) -> bool
    requires { IsStrictlySortedBy by_rows places.now }
    ensures { IsTrue result ↔ HasBefore places.now line start end }
{
    0 < line && has_near(places, line - 1, start, end)
}

/// Whether the line has one of the places, which are in order, in the stretch or directly beside it.
fn has_near(places: &[(u32, u32)], line: u32, start: u32, end: u32) -> bool
    requires { IsStrictlySortedBy by_rows places.now }
    ensures { IsTrue result ↔ HasNear places.now line start end }
{
    has_between(places, line, start.saturating_sub(1), end)
}

/// Whether the line has one of the places, which are in order, from one on to another.
fn has_between(places: &[(u32, u32)], line: u32, from: u32, to: u32) -> bool
    requires { IsStrictlySortedBy by_rows places.now }
    ensures { IsTrue result ↔ HasBetween places.now line from to }
{
    match places.get(start(places, line, from)) {
        Some(place) => place.0 == line && place.1 <= to,
        None => false,
    }
}

/// How many of the places, which are in order, are before that one.
fn start(places: &[(u32, u32)], line: u32, from: u32) -> usize
    requires { IsStrictlySortedBy by_rows places.now }
    ensures { IsStart line from places.now result }
{
    places.partition_point(|place| place.0 < line || (place.0 == line && place.1 < from))
}
