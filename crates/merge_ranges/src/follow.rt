//! What a change of lines does to merges.

ghost use Rattle.std.specs.Prelude.{◌≡◌, None, Some};
ghost use Rattle.std.specs.Bool.{OnTrue, OnFalse};
ghost use Rattle.std.specs.List.{list_any};
ghost use Rattle.grid_range.specs.Area.{band_on};
ghost use Rattle.grid_range.specs.Band.{Within};
ghost use Rattle.grid_range.specs.Change.{Fits, count_after};
ghost use Rattle.merge_ranges.specs.Tests.{tears_merge, merge_after};

use crate::area::has_many_cells;
use cell_value::Follow;
use grid_range::{Area, Axis, Change};

/// A change of the lines on one axis, of which there were `count`.
#[derive(Clone, Copy)]
pub(crate) struct LineChange<'a> {
    pub(crate) axis: Axis,
    pub(crate) count: u32,
    pub(crate) change: &'a Change,
}

/// A merge goes where it is lost or one cell is left of it.
impl Follow<LineChange<'_>> for Area {
    ghost can_follow = { λ by merge. Fits by.change.now by.count × Within (band_on by.axis merge) by.count };

    ghost becomes = { λ by merge. merge_after by.axis by.count by.change.now merge };

    ghost has_followed = { λ by merge. Within (band_on by.axis merge) (count_after by.change.now by.count) };

    fn follow(&mut self, by: &LineChange) -> bool {
        match Area::follow(self, self.sheet, by.axis, by.count, by.change) {
            Some(area) if has_many_cells(&area) => {
                *self = area;
                true
            }
            _ => false,
        }
    }
}

/// Whether the change is a move that tears one of the merges.
pub(crate) fn is_tearing(merges: &[Area], axis: Axis, count: u32, change: &Change) -> bool
    ensures { result ≡ list_any (tears_merge axis count change.now) merges.now }
{
    merges
        .iter()
        .any(|merge| change.tears(merge.band_on(axis), count))
}
