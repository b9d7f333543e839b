ghost use Rattle.std.specs.Prelude.{◌≡◌, Some};
ghost use Rattle.cell_calc.specs.Marks.{found_by, is_known};

use cell_value::Value;

/// The id of a sheet, a row and a column.
pub(crate) type Key = (u32, u32, u32);

/// What is known of the value of a cell while values are calculated.
#[derive(Debug, Drop)]
pub(crate) enum Mark {
    /// It is a formula that waits for cells that it reads.
    Open,
    /// Walks from it have no end.
    Endless,
    /// It has this value.
    Known(Value),
}

/// How a cell is found while values are calculated.
#[derive(Clone, Copy, Debug)]
pub(crate) enum Found {
    /// Nothing is known of it.
    New,
    /// It is a formula that waits, or one from which walks have no end.
    Circular,
    /// Its value is known.
    Settled,
}

impl Mark {
    pub(crate) fn is_known(&self) -> bool
        ensures { result ≡ is_known (Some self.now) }
    {
        matches!(self, Mark::Known(_))
    }

    pub(crate) fn found(&self) -> Found
        ensures { result ≡ found_by (Some self.now) }
    {
        match self {
            Mark::Open => Found::Circular,
            Mark::Endless => Found::Circular,
            Mark::Known(_) => Found::Settled,
        }
    }
}
