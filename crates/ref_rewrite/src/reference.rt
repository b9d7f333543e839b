use cell_value::{Duplicate, NoMemory};
use grid_range::Area;

/// Which coordinates of a reference are written with a `$`, as in `$A1:B$2` (the A1 notation of the
/// Google Sheets API v4 guide). A mark of a coordinate that isn't written says nothing.
#[derive(Clone, Copy, Debug, PartialEq, Eq)]
pub struct Marks {
    /// The first corner's row.
    pub row1: bool,
    /// The first corner's column.
    pub col1: bool,
    /// The second corner's row.
    pub row2: bool,
    /// The second corner's column.
    pub col2: bool,
}

/// A reference of a formula to cells, as `A1:B2` or `Sheet1!A1:B2`.
#[derive(Clone, Copy, Debug, PartialEq, Eq)]
pub struct Ref {
    /// Whether the sheet's title is written before it.
    pub named: bool,
    /// The cells.
    pub area: Area,
    /// The coordinates with a `$`.
    pub marks: Marks,
}

impl Duplicate for Marks {
    fn duplicate(&self) -> Result<Marks, NoMemory> {
        Ok(*self)
    }
}

impl Duplicate for Ref {
    fn duplicate(&self) -> Result<Ref, NoMemory> {
        Ok(*self)
    }
}
