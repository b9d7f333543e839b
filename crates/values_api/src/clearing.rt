ghost use Rattle.std.specs.Prelude.{◌≡◌, Ok, OnOk};
ghost use Rattle.dimension_ops.specs.Rules.{IsUnlessNoMemory};
ghost use Rattle.values_api.specs.Denials.{AreaCells, IsUnlessDenied};
ghost use Rattle.values_api.specs.Updates.{cleared, AreUpdated};
ghost use Rattle.values_api.specs.Ranges.{IsThere};

use crate::denial::area_denial;
use cell_value::NoMemory;
use dimension_ops::{Book, Rule, RuleOr};
use grid_range::Area;
use world_model::{updates_are_writes, updates_follow};

/// Empties the cells of an area (Sheets API v4 reference, spreadsheets.values.clear).
///
/// # Errors
///
/// [`Rule::Protected`] with the least id of a protected range that denies the user a cell of the area, whether
/// something is stored there or not; [`RuleOr::NoMemory`] where memory runs out. The spreadsheet is to be given up
/// then.
pub fn clear_values(book: &mut Book, user: &str, area: &Area) -> Result<(), RuleOr>
    requires { IsThere book.old.sheets area.now }
    ensures told { IsUnlessNoMemory
        (IsUnlessDenied user.now book.old (AreaCells book.old.sheets area.now) (λ done. done ≡ Ok tt)) result }
    ensures cleared { OnOk result (AreUpdated area.now.sheet (cleared area.now) book.old book.new) }
    ensures there { OnOk result (IsThere book.new.sheets area.now) }
{
    if let Some(id) = area_denial(book, user, area) {
        return Err(RuleOr::Rule(Rule::Protected(id)));
    }
    empty_area(book, area)?;
    Ok(())
}

/// Empties the cells of an area, whatever protected ranges deny.
///
/// # Errors
///
/// [`NoMemory`] where memory runs out; the spreadsheet is to be given up then.
pub fn empty_area(book: &mut Book, area: &Area) -> Result<(), NoMemory>
    requires { IsThere book.old.sheets area.now }
    ensures cleared { OnOk result (AreUpdated area.now.sheet (cleared area.now) book.old book.new) }
    ensures there { OnOk result (IsThere book.new.sheets area.now) }
{
    empty_places(book, area)?;
    Ok(())
}

/// Empties the places of the area at which something is stored.
fn empty_places(book: &mut Book, area: &Area) -> Result<(), NoMemory>
    requires { IsThere book.old.sheets area.now }
    ensures { OnOk result (AreUpdated area.now.sheet (cleared area.now) book.old book.new) }
{
    updates_are_writes();
    updates_follow();
    book.stays_sound();
    let places = book.places(area)?;
    for place in places.as_slice() {
        book.put(area.sheet, place.0, place.1, None)?;
    }
    book.stays_sound();
    Ok(())
}
