ghost use Rattle.std.specs.Prelude.{◌≡◌};
ghost use Rattle.std.specs.Option.{option_copied};
ghost use Rattle.formula_reader.specs.Sheets.{Sheets, sheet_named};

use cell_value::Text;

/// The sheets of a spreadsheet, as formulas name them (Sheets API v4 reference, SheetProperties).
pub trait SheetNames {
    /// The ids by title, and the sizes and the titles by id.
    ghost sheets: { Self → Sheets };

    /// The id of the sheet that has the title, in any ASCII case; None where no sheet has it.
    fn find(&self, title: &str) -> Option<u32>
        ensures { result ≡ sheet_named (sheets self.now) title.now };

    /// How many rows and columns the sheet has; None where no sheet has the id.
    fn size(&self, sheet: u32) -> Option<(u32, u32)>
        ensures { result ≡ (sheets self.now).size sheet };

    /// The sheet's title, lent; None where no sheet has the id.
    fn title(&self, sheet: u32) -> Option<&Text>
        ensures { option_copied result ≡ (sheets self.now).title sheet };
}
