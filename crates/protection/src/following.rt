ghost use Rattle.std.specs.Prelude.{◌≡◌};
ghost use Rattle.protection.specs.Following.{ranges_elsewhere};

use crate::indexed::Indexed;
use cell_value::Follow;
use grid_range::{Area, Axis, Change};

/// A change of the lines on an axis of a sheet, where there were `count`.
#[derive(Clone, Copy)]
pub(crate) struct LineChange<'a> {
    pub(crate) sheet: u32,
    pub(crate) axis: Axis,
    pub(crate) count: u32,
    pub(crate) change: &'a Change,
}

impl Follow<LineChange<'_>> for Area {
    ghost use Rattle.grid_range.specs.Area.{IsWithinOn};
    ghost use Rattle.grid_range.specs.Change.{Fits, count_after};
    ghost use Rattle.grid_range.specs.Tracking.{area_followed};

    ghost can_follow = { λ by area. Fits by.change.now by.count × IsWithinOn by.sheet by.axis by.count area };

    ghost becomes = { λ by area. area_followed by.sheet by.axis by.count by.change.now area };

    ghost has_followed = { λ by area. IsWithinOn by.sheet by.axis (count_after by.change.now by.count) area };

    fn follow(&mut self, by: &LineChange) -> bool {
        let area = *self;
        let Some(area) = area.follow(by.sheet, by.axis, by.count, by.change) else {
            return false;
        };
        *self = area;
        true
    }
}

impl Follow<LineChange<'_>> for Indexed {
    ghost use Rattle.grid_range.specs.Change.{Fits, count_after};
    ghost use Rattle.protection.specs.Following.{IsKeptWithin, protection_followed};

    ghost can_follow = { λ by one. Fits by.change.now by.count × IsKeptWithin by.sheet by.axis by.count one };

    ghost becomes = { λ by one. protection_followed by.sheet by.axis by.count by.change.now one };

    ghost has_followed = { λ by one. IsKeptWithin by.sheet by.axis (count_after by.change.now by.count) one };

    fn follow(&mut self, by: &LineChange) -> bool {
        let Some(area) = self
            .get()
            .area
            .follow(by.sheet, by.axis, by.count, by.change)
        else {
            return false;
        };
        self.follow_to(area, by);
        true
    }
}

/// That a sheet is deleted.
#[derive(Clone, Copy)]
pub(crate) struct SheetLoss {
    pub(crate) sheet: u32,
}

impl Follow<SheetLoss> for Indexed {
    ghost use Rattle.std.specs.Prelude.{⊤};
    ghost use Rattle.protection.specs.Following.{protection_without_sheet};

    ghost can_follow = { λ _ _. ⊤ };

    ghost becomes = { λ by one. protection_without_sheet by.sheet one };

    ghost has_followed = { λ _ _. ⊤ };

    fn follow(&mut self, by: &SheetLoss) -> bool {
        if self.get().area.sheet == by.sheet {
            return false;
        }
        self.lose_ranges(by.sheet);
        true
    }
}

/// Takes out the ranges that are on the sheet.
pub(crate) fn keep_elsewhere(ranges: &mut Vec<Area>, sheet: u32)
    ensures { ranges.new.items ≡ ranges_elsewhere sheet ranges.old.items }
{
    ranges.retain(|range| range.sheet != sheet);
}
