ghost use Rattle.std.specs.Prelude.{◌≡◌, ◌==◌, not, filter};

use crate::range::NamedRange;
use cell_value::Follow;
use grid_range::SheetChange;
use indexmap::IndexMap;

/// Takes out the ranges that are on the sheet.
pub(crate) fn keep_elsewhere(by_id: &mut IndexMap<String, NamedRange>, sheet: u32)
    ensures { by_id.new.entries ≡
        filter (λ entry. not (entry.1.area.sheet == sheet)) by_id.old.entries }
{
    by_id.retain(|_, range| range.area.sheet != sheet);
}

impl Follow<SheetChange<'_>> for NamedRange {
    ghost use Rattle.grid_range.specs.Change.{Fits, count_after};
    ghost use Rattle.named_ranges.specs.Following.{IsRangeWithinOn, range_followed};

    ghost can_follow = { λ by range.
        Fits by.change.now by.count × IsRangeWithinOn by.sheet by.axis by.count range };

    ghost becomes = { λ by range. range_followed by.sheet by.axis by.count by.change.now range };

    ghost has_followed = { λ by range.
        IsRangeWithinOn by.sheet by.axis (count_after by.change.now by.count) range };

    fn follow(&mut self, by: &SheetChange) -> bool {
        let Some(area) = self.area.follow(by.sheet, by.axis, by.count, by.change) else {
            return false;
        };
        self.area = area;
        true
    }
}
