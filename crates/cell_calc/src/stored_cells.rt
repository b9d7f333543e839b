ghost use Rattle.std.specs.Prelude.{◌≡◌, ◌↔◌, ℕ, ◌+◌, [], ◌∷◌, Some, IfOk, IfSome};
ghost use Rattle.grid_range.specs.declared.band.Band.TheVariants.{Span};
ghost use Rattle.cell_calc.specs.Calculated.{one_cell};
ghost use Rattle.cell_calc.specs.Contents.{AreStoredCells};

use crate::cells::{CellsOf, StoredCell};
use cell_value::NoMemory;
use grid_range::{Area, Band};
use std::alloc::Global;

/// The cells of the area in which something is stored, by rows. One cell is looked up, and no list is made of what is
/// stored beside it.
pub(crate) fn stored_cells<'a, C: CellsOf>(
    alloc: Global,
    cells: &'a C,
    area: &Area,
) -> Result<Vec<StoredCell<'a>>, NoMemory>
    ensures { IfOk result (λ found. AreStoredCells (C.contents cells.now) area.now found.items) }
{
    match only_cell(area) {
        Some((row, column)) => stored_cell(alloc, cells, area.sheet, row, column),
        None => cells.cells(alloc, area),
    }
}

/// The row and the column of the area's cell, where each of its bands has both ends and one line.
pub(crate) fn only_cell(area: &Area) -> Option<(u32, u32)>
    ensures { IfSome result (λ cell. area.now ≡ one_cell area.now.sheet cell.0 cell.1) }
{
    Some((only_line(area.rows)?, only_line(area.cols)?))
}

/// The band's line, where it has both ends and one line.
fn only_line(band: Band) -> Option<u32>
    ensures { (line : ℕ) → (result ≡ Some line) ↔ (band ≡ Span line (line + 1)) }
{
    match band {
        Band::Span(start, end) if end.saturating_sub(start) == 1 => Some(start),
        _ => None,
    }
}

/// The cell, where something is stored in it.
fn stored_cell<'a, C: CellsOf>(
    alloc: Global,
    cells: &'a C,
    sheet: u32,
    row: u32,
    column: u32,
) -> Result<Vec<StoredCell<'a>>, NoMemory>
    ensures { IfOk result (λ found. AreStoredCells (C.contents cells.now) (one_cell sheet row column) found.items) }
{
    match cells.content(sheet, row, column) {
        Some(content) => alone(
            alloc,
            StoredCell {
                row,
                column,
                content,
            },
        ),
        None => Ok(Vec::new(alloc)),
    }
}

/// The list of that cell.
fn alone<'a>(alloc: Global, cell: StoredCell<'a>) -> Result<Vec<StoredCell<'a>>, NoMemory>
    ensures { IfOk result (λ cells. cells.items ≡ cell.entry ∷ []) }
{
    let mut cells = Vec::new(alloc);
    cells.push(cell)?;
    Ok(cells)
}
