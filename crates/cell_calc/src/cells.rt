ghost use Rattle.std.specs.Prelude.{◌≡◌, IfOk};
ghost use Rattle.std.specs.Option.{option_copied};
ghost use Rattle.cell_calc.specs.Contents.{Contents, AreSound, AreStoredCells};

use cell_value::{Items, NoMemory};
use grid_range::Area;
use ref_rewrite::Content;
use std::alloc::Global;

/// A cell of a sheet in which something is stored.
#[derive(Clone, Copy)]
pub struct StoredCell<'a> {
    /// Its row, counted from 0.
    pub row: u32,
    /// Its column, counted from 0.
    pub column: u32,
    /// What is stored there, lent.
    pub content: &'a Content,
}

/// The cells of a spreadsheet, as they are stored (Google Sheets API v4 reference, Spreadsheet, CellData,
/// `userEnteredValue`). Lines are counted from 0.
pub trait CellsOf {
    /// What is stored.
    ghost contents: { Self → Contents };

    /// The ids of the sheets, lent.
    fn sheets(&self) -> &Items<u32>
        ensures { result.now ≡ (contents self.now).sheets };

    /// How many rows and columns the sheet has; None where no sheet has the id.
    fn size(&self, sheet: u32) -> Option<(u32, u32)>
        ensures { result ≡ (contents self.now).size sheet };

    /// What is stored in the place, lent; None where nothing is, and where the sheet isn't there.
    fn content(&self, sheet: u32, row: u32, column: u32) -> Option<&Content>
        ensures { option_copied result
            ≡ (contents self.now).content (record { sheet = sheet; row = row; column = column }) };

    /// The cells of the area in which something is stored, by rows, with what is stored there, lent.
    ///
    /// # Errors
    ///
    /// [`NoMemory`] where memory runs out.
    fn cells(&self, alloc: Global, area: &Area) -> Result<Vec<StoredCell<'_>>, NoMemory>
        ensures { IfOk result (λ cells. AreStoredCells (contents self.now) area.now cells.items) };

    /// The area of the named range that the word names; None where it names none.
    fn name(&self, word: &str) -> Option<Area>
        ensures { result ≡ (contents self.now).named word.now };

    /// What always holds of cells.
    fn stay_sound(&self)
        ensures { AreSound (contents self.now) };
}
