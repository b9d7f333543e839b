ghost use Rattle.std.specs.Prelude.{◌≡◌, ◌+◌, ◌<◌, IfOk, IsSomeAnd, OnOk};
ghost use Rattle.world_model.specs.Sound.{place_sheet_with};
ghost use Rattle.values_api.specs.Blocks.{AreCells};
ghost use Rattle.values_api.specs.Given.{HasRoom, IsWithinSheet, is_written, line_given, room, value_uncovered};
ghost use Rattle.values_api.specs.Given.{AreCovered, AreGivenBefore, TellsCovered};

use crate::given::Given;
use cell_value::{Input, Items, NoMemory};
use dimension_ops::Book;
use merge_ranges::{CoveredLines, Merges};

/// The cells that are written or emptied: those with a value, but for those that a merge of their sheet covers.
/// Beside the values it looks once at each merge of the sheet, whatever is written.
pub(crate) fn uncovered_cells(given: &Given<'_>, book: &Book) -> Result<Items<(u32, u32)>, NoMemory>
    requires room { HasRoom given.now }
    requires sheet { IsWithinSheet book.now.sheets given.now }
    ensures { IfOk result (λ cells. IsSomeAnd (place_sheet_with given.now.area.now.sheet book.now.sheets)
        (λ sheet. AreCells (value_uncovered sheet.merges given.now) cells)) }
{
    match book.sheet(given.area.sheet) {
        Some(sheet) => {
            let uncovered = Uncovered {
                given,
                merges: sheet.merges(),
            };
            uncovered.cells()
        }
        None => Ok(Items::of(Vec::new(given.alloc))),
    }
}

/// Values for cells, and the merges of their sheet: a cell that one of these covers is passed over.
#[derive(Drop)]
struct Uncovered<'a> {
    given: &'a Given<'a>,
    merges: &'a Merges,
}

impl<'a> Uncovered<'a> {
    /// The cells that are written or emptied, line by line.
    fn cells(&self) -> Result<Items<(u32, u32)>, NoMemory>
        requires { HasRoom self.now.given.now }
        ensures { IfOk result (AreCells (value_uncovered self.now.merges.now self.now.given.now)) }
    {
        let values = self.given.block.values.as_slice();
        let first = self.given.corner().0;
        let mut told = self.told()?;
        let mut cells = Vec::new(self.given.alloc);
        for line in 0..values.len().min(self.given.room().0) {
            told.go_to((first + line) as u32)?;
            self.add_line(&mut cells, line, values[line].as_slice(), told.covered())?;
        }
        Ok(Items::of(cells))
    }

    /// Tells of the lines of values which of their places merges cover.
    fn told(&self) -> Result<CoveredLines, NoMemory>
        requires { HasRoom self.now.given.now }
        ensures { IfOk result (TellsCovered self.now.merges.now self.now.given.now 0) }
    {
        let area = self.given.reached();
        self.merges.covered_lines(self.given.axis(), &area)
    }

    /// Adds the cells of a line, by what is told of its places.
    fn add_line(
        &self,
        cells: &mut Vec<(u32, u32)>,
        line: usize,
        inputs: &[Input],
        covered: &[bool],
    ) -> Result<(), NoMemory>
        requires room { HasRoom self.now.given.now }
        requires there { line < (room self.now.given.now).0 }
        requires inputs { inputs.now ≡ line_given self.now.given.now line }
        requires covered { AreCovered self.now.merges.now self.now.given.now line covered.now }
        requires before { AreGivenBefore self.now.merges.now self.now.given.now line 0 cells.old.items }
        ensures { OnOk result (AreGivenBefore self.now.merges.now self.now.given.now (line + 1) 0 cells.new.items) }
    {
        for place in 0..inputs.len().min(covered.len()) {
            if is_written(&inputs[place], covered[place]) {
                cells.push(self.given.cell_for(line, place))?;
            }
        }
        Ok(())
    }
}

/// Whether a cell is written or emptied: its value isn't left out, and no merge covers it.
fn is_written(input: &Input, covered: bool) -> bool
    ensures { result ≡ is_written input.now covered }
{
    !covered && !matches!(input, Input::Skip)
}
