ghost use Rattle.std.specs.Prelude.{◌≡◌, List, [], ◌∷◌, Some, map, IfOk, OnOk};
ghost use Rattle.std.specs.Option.{IsSome};
ghost use Rattle.grid_range.specs.declared.area.Area.{Area};
ghost use Rattle.cell_calc.specs.Calculated.{AreValues, AreAllValues, IsTableOf, Calculates, SettlesAll, whole_sheet};
ghost use Rattle.cell_calc.specs.Contents.{AreOnSheet, IsStoredFormula};
ghost use Rattle.cell_calc.specs.Marks.{keyed_place, marks_of, values_of};
ghost use Rattle.cell_calc.specs.Walk.{Goes};

use crate::cells::{CellsOf, StoredCell};
use crate::mark::Key;
use crate::stored_cells::stored_cells;
use crate::table::Table;
use crate::walk::settle;
use cell_value::NoMemory;
use grid_range::{Area, Band};
use ref_rewrite::Content;
use std::alloc::Global;

/// The values of all formulas of a spreadsheet, and of no other cells.
///
/// # Errors
///
/// [`NoMemory`] where memory runs out.
pub fn calculate<C: CellsOf>(alloc: Global, cells: &C) -> Result<Table, NoMemory>
    ensures { IfOk result (λ table. AreAllValues (C.contents cells.now) (values_of table)) }
{
    cells.stay_sound();
    let areas = whole_sheets(alloc, cells.sheets().as_slice())?;
    calculate_for(alloc, cells, areas.as_slice())
}

/// The areas of these sheets with all their cells.
fn whole_sheets(alloc: Global, sheets: &[u32]) -> Result<Vec<Area>, NoMemory>
    ensures { IfOk result (λ areas. areas.items ≡ map whole_sheet sheets.now) }
{
    Ok(
        sheets
            .iter()
            .map(|sheet| whole_sheet(*sheet))
            .collect(alloc)?,
    )
}

/// The area of a sheet with all its cells.
fn whole_sheet(sheet: u32) -> Area
    ensures { result ≡ whole_sheet sheet }
{
    Area {
        sheet,
        rows: Band::Whole,
        cols: Band::Whole,
    }
}

/// The values of the formulas in the areas, and of those that they read and those that these read, each calculated
/// once, and of no other cells. A formula from which walks over formulas that it reads have no end is
/// [`Kind::Ref`](cell_value::Kind::Ref), and one without a tree [`Kind::Error`](cell_value::Kind::Error).
///
/// # Errors
///
/// [`NoMemory`] where memory runs out.
pub fn calculate_for<C: CellsOf>(
    alloc: Global,
    cells: &C,
    areas: &[Area],
) -> Result<Table, NoMemory>
    ensures { IfOk result (λ table. AreValues (C.contents cells.now) areas.now (values_of table)) }
{
    let mut table = Table::new(alloc);
    for area in areas {
        calculate_area(alloc, cells, &mut table, area)?;
    }
    Ok(table)
}

/// Comes to know the values of the formulas in one more area, as [`calculate_for`] does, beside those of the areas
/// whose values the table has; what it knows isn't calculated again.
///
/// # Errors
///
/// [`NoMemory`] where memory runs out; the table is to be given up then.
#[tactic(auto, using(crate::proofs::Calculating::table_after, crate::proofs::Calculating::values_after))]
pub fn calculate_more<C: CellsOf>(
    alloc: Global,
    cells: &C,
    table: &mut Table,
    area: &Area,
) -> Result<(), NoMemory>
    requires { IsTableOf (C.contents cells.now) table.old }
    ensures right { OnOk result (IsTableOf (C.contents cells.now) table.new) }
    ensures values { OnOk result (AreValues (C.contents cells.now) (area.now ∷ []) (values_of table.new)) }
    ensures kept { OnOk result ((areas : List Area) → AreValues (C.contents cells.now) areas (values_of table.old)
        → AreValues (C.contents cells.now) (area.now ∷ areas) (values_of table.new)) }
{
    calculate_area(alloc, cells, table, area)
}

/// Comes to know the values of the formulas in the area.
fn calculate_area<C: CellsOf>(
    alloc: Global,
    cells: &C,
    table: &mut Table,
    area: &Area,
) -> Result<(), NoMemory>
    ensures { OnOk result (Calculates (C.contents cells.now) area.now (marks_of table.old) (marks_of table.new)) }
{
    let stored = stored_cells(alloc, cells, area)?;
    settle_all(alloc, cells, table, area.sheet, stored.as_slice())
}

/// Comes to know the values of the formulas in these cells of the sheet.
fn settle_all<C: CellsOf>(
    alloc: Global,
    cells: &C,
    table: &mut Table,
    sheet: u32,
    stored: &[StoredCell<'_>],
) -> Result<(), NoMemory>
    requires { AreOnSheet (C.contents cells.now) sheet stored.now }
    ensures { OnOk result (SettlesAll (C.contents cells.now) sheet stored.now (marks_of table.old)
        (marks_of table.new)) }
{
    for cell in stored {
        settle_content(
            alloc,
            cells,
            table,
            (sheet, cell.row, cell.column),
            cell.content,
        )?;
    }
    Ok(())
}

/// Comes to know the value of a cell, if it is a formula.
fn settle_content<C: CellsOf>(
    alloc: Global,
    cells: &C,
    table: &mut Table,
    place: Key,
    content: &Content,
) -> Result<(), NoMemory>
    requires { (C.contents cells.now).content (keyed_place place) ≡ Some content.now }
    ensures goes { OnOk result (Goes (C.contents cells.now) (marks_of table.old) [] (marks_of table.new) []) }
    ensures met { OnOk result (IsStoredFormula (Some content.now) → IsSome (marks_of table.new (keyed_place place))) }
{
    match content {
        Content::Formula(text) => settle(alloc, cells, table, place, text),
        Content::Number(_) | Content::Text(_) | Content::Truth(_) => Ok(()),
    }
}
