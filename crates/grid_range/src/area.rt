ghost use Rattle.std.specs.Prelude.{◌≡◌, ◌↔◌, ℕ, ◌<◌, ◌≤◌, IsTrue, IsSome, IfSome};
ghost use Rattle.std.specs.Option.{option_map};

use crate::axis::Axis;
use crate::band::Band;
use crate::change::Change;
use crate::tracking::track;

/// A set of cells of one sheet, those in a row and in a column of the two bands: the `GridRange` of
/// the Google Sheets API v4.
#[derive(Clone, Copy, Debug, PartialEq, Eq)]
pub struct Area {
    /// The sheet's id.
    pub sheet: u32,
    pub rows: Band,
    pub cols: Band,
}

impl Area {
    ghost use Rattle.grid_range.specs.Band.{IsNonEmpty};
    ghost use Rattle.grid_range.specs.Area.{Holds, IsInside, AreaWithin, HoldSameCells, Meet};
    ghost use Rattle.grid_range.specs.Area.{cut_area, band_on, with_band, IsWithinOn};
    ghost use Rattle.grid_range.specs.Change.{Fits, count_after};
    ghost use Rattle.grid_range.specs.Tracking.{Tracks, area_followed};

    /// The area on a sheet of `rows` rows and `cols` columns, with an end past the grid cut at the
    /// grid; None exactly where the first line of one of its bands isn't there.
    pub fn clip(&self, rows: u32, cols: u32) -> Option<Area>
        requires rows { IsNonEmpty self.now.rows }
        requires cols { IsNonEmpty self.now.cols }
        ensures inside { IsSome result ↔ IsInside self.now rows cols }
        ensures cut { IfSome result (λ clipped. clipped ≡ cut_area self.now rows cols) }
        ensures within { IfSome result (λ clipped. AreaWithin clipped rows cols) }
        ensures cells { IfSome result (λ clipped. HoldSameCells clipped self.now rows cols) }
    {
        Some(Area {
            sheet: self.sheet,
            rows: self.rows.clip(rows)?,
            cols: self.cols.clip(cols)?,
        })
    }

    /// Whether the cell in that row and column of the area's sheet is one of the area's.
    pub fn holds(&self, row: u32, col: u32) -> bool
        ensures { IsTrue result ↔ Holds self.now row col }
    {
        self.rows.has_line(row) && self.cols.has_line(col)
    }

    /// Whether some cell of a sheet of `rows` rows and `cols` columns is in both areas. Areas of
    /// different sheets have no cell in common.
    pub fn meets(&self, other: &Area, rows: u32, cols: u32) -> bool
        ensures { IsTrue result ↔ Meet self.now other.now rows cols }
    {
        self.sheet == other.sheet
            && self.rows.meets(other.rows, rows)
            && self.cols.meets(other.cols, cols)
    }

    /// The area's lines on the axis.
    pub fn band_on(&self, axis: Axis) -> Band
        ensures { result ≡ band_on axis self.now }
    {
        match axis {
            Axis::Rows => self.rows,
            Axis::Columns => self.cols,
        }
    }

    /// The area with other lines on the axis.
    fn with_band(self, axis: Axis, band: Band) -> Area
        ensures { result ≡ with_band axis self band }
    {
        match axis {
            Axis::Rows => Area { rows: band, ..self },
            Axis::Columns => Area { cols: band, ..self },
        }
    }

    /// What the area becomes where the change is made among the `count` lines of the sheet `sheet`
    /// on the axis; None exactly where its lines there are lost. An area of another sheet stays.
    pub fn follow(&self, sheet: u32, axis: Axis, count: u32, change: &Change) -> Option<Area>
        requires fits { Fits change.now count }
        requires within { IsWithinOn sheet axis count self.now }
        ensures value { result ≡ area_followed sheet axis count change.now self.now }
        ensures names { self.now.sheet ≡ sheet
            → Tracks (band_on axis self.now) count change.now (option_map (band_on axis) result) }
        ensures within { IfSome result (IsWithinOn sheet axis (count_after change.now count)) }
    {
        if self.sheet != sheet {
            return Some(*self);
        }
        let band = track(self.band_on(axis), count, change)?;
        Some(self.with_band(axis, band))
    }
}
