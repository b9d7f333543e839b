//! The references of formulas to a sheet that is deleted.

ghost use Rattle.std.specs.Prelude.{◌≡◌, IfOk, OnOk, map};
ghost use Rattle.std.specs.Arc.{arc_value};
ghost use Rattle.std.specs.List.{AllZip, fold};
ghost use Rattle.world_model.specs.SheetChange.{LosesReferences, content_without, other_sheets};
ghost use Rattle.dimension_ops.specs.Losing.{lost_at};
ghost use Rattle.dimension_ops.specs.References.{KeepsFormulas};

use crate::sheet::{Cells, Sheet};
use cell_store::CellStore;
use cell_value::NoMemory;
use ref_rewrite::{Content, lose_sheet};
use std::alloc::Global;
use std::sync::Arc;
use world_model::formulas_counted;

/// The other sheets, without their references to the one with the id. One that has none stays as it is, and
/// isn't copied.
///
/// # Errors
///
/// [`NoMemory`] where memory runs out.
pub(crate) fn sheets_left(
    alloc: Global,
    sheets: Vec<Arc<Sheet>>,
    deleted: u32,
) -> Result<Vec<Arc<Sheet>>, NoMemory>
    ensures { IfOk result (λ left. AllZip (LosesReferences deleted)
        (other_sheets deleted (map arc_value sheets.items)) (map arc_value left.items)) }
{
    let mut left = Vec::new(alloc);
    for sheet in sheets {
        if sheet.id() != deleted {
            left.push(sheet_left(alloc, sheet, deleted)?)?;
        }
    }
    Ok(left)
}

/// Another sheet without its references to the one with the id.
fn sheet_left(alloc: Global, sheet: Arc<Sheet>, deleted: u32) -> Result<Arc<Sheet>, NoMemory>
    ensures { IfOk result (λ left. LosesReferences deleted (arc_value sheet) (arc_value left)) }
{
    let places = sheet.references(deleted)?;
    if places.as_slice().is_empty() {
        return Ok(sheet);
    }
    let mut own = Arc::unwrap_or_clone(sheet)?;
    own.lose(&places, deleted)?;
    Ok(Arc::new(alloc, own)?)
}

/// Has the references to the sheet be lost that stand at the places.
///
/// # Errors
///
/// [`NoMemory`] where memory runs out; some of them are lost then.
pub(crate) fn lose_places(
    cells: &mut Cells,
    places: &[(u32, u32)],
    sheet: u32,
) -> Result<(), NoMemory>
    ensures lost { OnOk result (cells.new.table ≡ fold (lost_at sheet) cells.old.table places.now) }
    ensures formulas { KeepsFormulas cells.old.table cells.new.table }
{
    for place in places {
        lose_at(cells, place.0, place.1, sheet)?;
    }
    Ok(())
}

/// Has the references to the sheet be lost that stand at the place.
///
/// # Errors
///
/// [`NoMemory`] where memory runs out; the cells are as they were.
fn lose_at(cells: &mut Cells, row: u32, column: u32, sheet: u32) -> Result<(), NoMemory>
    ensures lost { OnOk result (cells.new.table ≡ lost_at sheet cells.old.table (row, column)) }
    ensures formulas { KeepsFormulas cells.old.table cells.new.table }
{
    formulas_counted();
    if cells.get(row, column).is_none() {
        return Ok(());
    }
    match cells.get_mut(row, column) {
        Ok(content) => {
            lose_in(content, sheet);
            Ok(())
        }
        Err(no_memory) => Err(no_memory),
    }
}

/// Has the references of a formula to the sheet be lost.
fn lose_in(content: &mut Content, sheet: u32)
    ensures { content.new ≡ content_without sheet content.old }
{
    if let Content::Formula(formula) = content {
        lose_sheet(formula, sheet);
    }
}
