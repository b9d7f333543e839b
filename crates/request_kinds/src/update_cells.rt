ghost use Rattle.std.specs.Prelude.{◌≡◌, [], true, false, IfOk};
ghost use Rattle.dimension_ops.specs.Rules.{IsUnlessNoMemory};
ghost use Rattle.values_api.specs.Ranges.{IsThere};
ghost use Rattle.values_api.specs.Denials.{IsDenial};
ghost use Rattle.request_kinds.specs.Telling.{IsDoneTo};
ghost use Rattle.request_kinds.specs.Rows.{AreRowsWritten};
ghost use Rattle.request_kinds.specs.UpdateCells.{IsUpdateCells, UpdatedCells, area_from, rest_emptied};

use crate::areas::area_on;
use cell_value::{Block, NoMemory};
use dimension_ops::{Book, RuleOr};
use grid_range::{Area, Band};
use sheets_json::{GridCoordinate, Reply, UpdatedArea};
use std::alloc::Global;
use values_api::{empty_rest, fill_denial, put_values, write_denial};
use world_model::{changes_in_turn, updates_are_changes};

/// Writes rows from a cell on, or to an area whose other cells are emptied.
pub(crate) fn update_cells(
    alloc: Global,
    book: &mut Book,
    rows: &Block,
    area: UpdatedArea,
) -> Result<Reply, RuleOr>
    ensures { IsUnlessNoMemory (IsDoneTo (IsUpdateCells rows.now area book.old) book.old book.new) result }
{
    match area {
        UpdatedArea::Start(cell) => match area_on(book, &area_from(cell)) {
            Ok(area) => write_from(alloc, book, &area, rows),
            Err(rule) => Err(RuleOr::Rule(rule)),
        },
        UpdatedArea::Range(range) => match area_on(book, &range) {
            Ok(area) => fill(alloc, book, &area, rows),
            Err(rule) => Err(RuleOr::Rule(rule)),
        },
    }
}

/// The area from a cell on.
fn area_from(cell: GridCoordinate) -> Area
    ensures { result ≡ area_from cell }
{
    Area {
        sheet: cell.sheet_id,
        rows: Band::From(cell.row_index),
        cols: Band::From(cell.column_index),
    }
}

/// Writes rows from the area's first cell on, as far as they reach.
fn write_from(alloc: Global, book: &mut Book, area: &Area, rows: &Block) -> Result<Reply, RuleOr>
    requires { IsThere book.old.sheets area.now }
    ensures { IsUnlessNoMemory (IsDoneTo (AreRowsWritten [] rows.now true book.old area.now) book.old book.new) result }
{
    changes_in_turn();
    updates_are_changes();
    put_values(alloc, book, area, true, rows)?;
    Ok(Reply::Empty)
}

/// Writes rows to the area, and empties those of its cells that they don't reach.
fn fill(alloc: Global, book: &mut Book, area: &Area, rows: &Block) -> Result<Reply, RuleOr>
    requires { IsThere book.old.sheets area.now }
    ensures { IsUnlessNoMemory
        (IsDoneTo (AreRowsWritten (rest_emptied area.now rows.now) rows.now false book.old area.now)
        book.old book.new) result }
{
    changes_in_turn();
    updates_are_changes();
    empty_rest(book, area, rows)?;
    put_values(alloc, book, area, false, rows)?;
    Ok(Reply::Empty)
}

/// The least id of a protected range that denies the user a cell that is written or emptied; None where none does.
pub(crate) fn updated_denial(
    alloc: Global,
    book: &Book,
    user: &str,
    rows: &Block,
    area: UpdatedArea,
) -> Result<Option<u32>, NoMemory>
    ensures { IfOk result (IsDenial user.now book.now (UpdatedCells rows.now area book.now.sheets)) }
{
    match area {
        UpdatedArea::Start(cell) => match area_on(book, &area_from(cell)) {
            Ok(area) => write_denial(alloc, book, user, &area, true, rows),
            Err(_) => Ok(None),
        },
        UpdatedArea::Range(range) => match area_on(book, &range) {
            Ok(area) => fill_denial(alloc, book, user, &area, rows),
            Err(_) => Ok(None),
        },
    }
}
