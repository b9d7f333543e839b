ghost use Rattle.std.specs.Prelude.{◌≡◌, None, Some};
ghost use Rattle.std.specs.Bool.{OnTrue, OnFalse};
ghost use Rattle.grid_range.specs.Band.{Within};
ghost use Rattle.grid_range.specs.Change.{Fits, count_after};
ghost use Rattle.grid_range.specs.Area.{band_on};
ghost use Rattle.basic_filter.specs.Following.{AreBelow, filter_followed};

use crate::types::{Criterion, Filter};
use cell_value::Follow;
use grid_range::{Axis, Change, place};

impl Filter {
    /// Has the filter follow a change of the lines on the axis of its sheet, where there were `count`:
    /// the area follows its lines, and each criterion its column, out of the area, too. A criterion
    /// whose column is deleted goes; the others keep their order. False exactly where the area is lost;
    /// the filter is then as it was.
    /// It takes no memory.
    pub fn change(&mut self, axis: Axis, count: u32, change: &Change) -> bool
        requires fits { Fits change.now count }
        requires area { Within (band_on axis self.old.area) count }
        requires columns { AreBelow axis count self.old.criteria }
        ensures followed { OnTrue result
            (filter_followed axis count change.now self.old ≡ Some self.new) }
        ensures lost { OnFalse result (filter_followed axis count change.now self.old ≡ None) }
        ensures unchanged { OnFalse result (self.new ≡ self.old) }
        ensures area { OnTrue result
            (Within (band_on axis self.new.area) (count_after change.now count)) }
        ensures columns { OnTrue result
            (AreBelow axis (count_after change.now count) self.new.criteria) }
    {
        let Some(area) = self.area.follow(self.area.sheet, axis, count, change) else {
            return false;
        };
        self.area = area;
        if let Axis::Columns = axis {
            self.criteria.follow(&ColumnChange { count, change });
        }
        true
    }
}

/// A change of the columns of a sheet, of which there were `count`.
#[derive(Clone, Copy)]
struct ColumnChange<'a> {
    count: u32,
    change: &'a Change,
}

impl Follow<ColumnChange<'_>> for Criterion {
    ghost use Rattle.std.specs.Prelude.{◌<◌};
    ghost use Rattle.grid_range.specs.Change.{Fits, count_after};
    ghost use Rattle.basic_filter.specs.Following.{criterion_followed};

    ghost can_follow = { λ by criterion. Fits by.change.now by.count × (criterion.column < by.count) };

    ghost becomes = { λ by criterion. criterion_followed by.change.now criterion };

    ghost has_followed = { λ by criterion. criterion.column < count_after by.change.now by.count };

    fn follow(&mut self, by: &ColumnChange) -> bool {
        let Some(column) = place(by.change, by.count, self.column) else {
            return false;
        };
        self.column = column;
        true
    }
}
