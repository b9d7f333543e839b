ghost use Rattle.std.specs.Prelude.{◌≡◌, IfOk};
ghost use Rattle.cell_value.specs.declared.cell.Value.{Value};
ghost use Rattle.cell_calc.specs.Arguments.{value_of_cells};
ghost use Rattle.cell_calc.specs.Book.{Book, Place, cells_of};
ghost use Rattle.cell_calc.specs.Lent.{AreCells};

use crate::arguments::AreaCells;
use crate::functions::value_of_cells;
use cell_value::{Kind, NoMemory, Value};
use grid_range::Area;
use std::alloc::Global;

/// A spreadsheet and a value in each of its places, as a formula reads them (Google Sheets API v4 reference,
/// Spreadsheet, CellData and NamedRange).
pub trait CellReader {
    /// The spreadsheet.
    ghost book: { Self → Book };

    /// The value in each place.
    ghost read: { Self → Place → Value };

    /// The cells of an area, lent.
    ///
    /// # Errors
    ///
    /// [`NoMemory`] where memory runs out.
    fn cells(&self, alloc: Global, area: &Area) -> Result<AreaCells<'_>, NoMemory>
        ensures { IfOk result (λ lent. AreCells lent (cells_of (book self.now) (read self.now) area.now)) };

    /// The value of an area's only cell, and else [`Kind::Value`].
    ///
    /// # Errors
    ///
    /// [`NoMemory`] where memory runs out.
    fn value_alone(&self, alloc: Global, area: &Area) -> Result<Value, NoMemory>
        ensures { IfOk result (λ value. value
            ≡ value_of_cells (cells_of (book self.now) (read self.now) area.now).values) }
    {
        value_of_cells(&self.cells(alloc, area)?)
    }

    /// The area of the named range that the word names; None where it names none.
    fn named(&self, word: &str) -> Option<Area>
        ensures { result ≡ (book self.now).named word.now };
}
