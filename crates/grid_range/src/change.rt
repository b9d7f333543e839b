ghost use Rattle.std.specs.Prelude.{◌≡◌, ◌↔◌, IsTrue};

use crate::axis::Axis;
use crate::band::Band;

/// A change of the lines on one axis of a sheet: insertDimension, deleteDimension and moveDimension
/// of the Google Sheets API v4. Lines are counted from 0 on the sheet before the change.
#[derive(Clone, Copy, Debug, PartialEq, Eq)]
pub enum Change {
    /// `count` new lines stand before line `at`, or last where `at` is the number of lines.
    Insert { at: u32, count: u32 },
    /// The lines from `start` to `end - 1` go.
    Delete { start: u32, end: u32 },
    /// The lines from `start` to `end - 1` stand before the line that stood at `to`, or last where
    /// `to` is the number of lines. A `to` from `start` to `end` moves nothing.
    Move { start: u32, end: u32, to: u32 },
}

/// A change of the lines on an axis of a sheet, of which there were `count`.
#[derive(Clone, Copy)]
pub struct SheetChange<'a> {
    /// The sheet's id.
    pub sheet: u32,
    /// The axis whose lines change.
    pub axis: Axis,
    /// How many lines there were.
    pub count: u32,
    /// What changes.
    pub change: &'a Change,
}

impl Change {
    ghost use Rattle.grid_range.specs.Change.{Fits, HasLinesAfter, count_after};
    ghost use Rattle.grid_range.specs.Band.{Within, first_line, end_line};
    ghost use Rattle.grid_range.specs.Tearing.{IsTorn, tears};

    /// Whether the change can be made where there are `count` lines: its places are there, it has a
    /// line at least, and the new number of lines is a `u32`.
    pub fn fits(&self, count: u32) -> bool
        ensures { IsTrue result ↔ Fits self.now count }
    {
        match *self {
            Change::Insert {
                at,
                count: inserted,
            } => { at <= count && inserted > 0 && count.checked_add(inserted).is_some() }
            Change::Delete { start, end } => start < end && end <= count,
            Change::Move { start, end, to } => start < end && end <= count && to <= count,
        }
    }

    /// The number of lines after the change, where there were `count`.
    #[tactic(auto, using(crate::proofs::Theorems::count_after_lines))]
    pub fn lines_after(&self, count: u32) -> u32
        requires { Fits self.now count }
        ensures value { result ≡ count_after self.now count }
        ensures lines { HasLinesAfter self.now count result }
    {
        match *self {
            Change::Insert {
                at: _,
                count: inserted,
            } => count + inserted,
            Change::Delete { start, end } => count - (end - start),
            Change::Move { .. } => count,
        }
    }

    /// Whether the change is a move after which the lines of the band don't stand side by side in
    /// their old order. The lines are among `count`.
    pub fn tears(&self, band: Band, count: u32) -> bool
        ensures value { result ≡ tears self.now (first_line band) (end_line band count) }
        ensures torn { Fits self.now count → Within band count
            → IsTrue result ↔ IsTorn self.now count band }
    {
        self.tears_lines(band.first_line(), band.end_line(count))
    }

    /// The same of the lines from `first` to `past - 1`.
    fn tears_lines(&self, first: u32, past: u32) -> bool
        ensures { result ≡ tears self.now first past }
    {
        match *self {
            Change::Insert { .. } | Change::Delete { .. } => false,
            Change::Move { start, end, to } => {
                !((start <= to && to <= end)
                    || (start <= first && past <= end)
                    || ((past <= start || end <= first) && (to <= first || past <= to)))
            }
        }
    }
}
