ghost use Rattle.std.specs.Prelude.{◌≡◌, IfSome, not, filter};
ghost use Rattle.grid_range.specs.Change.{Fits, count_after};
ghost use Rattle.dev_metadata.specs.Following.{IsSpotBelow, spot_followed};
ghost use Rattle.dev_metadata.specs.Lookup.{finds};
ghost use Rattle.dev_metadata.specs.Spot.{is_on_sheet};

use crate::matching::is_same_axis;
use crate::types::{Item, Lookup, Spot};
use cell_value::Follow;
use grid_range::{Axis, Change, SheetChange, place};
use indexmap::IndexMap;

/// Takes out the items that are on the sheet or a line of it.
pub(crate) fn drop_sheet(by_id: &mut IndexMap<u32, Item>, sheet: u32)
    ensures { by_id.new.entries ≡
        filter (λ entry. not (is_on_sheet sheet entry.1.spot)) by_id.old.entries }
{
    by_id.retain(|_, item| !item.spot.is_on_sheet(sheet));
}

/// Takes out the items that the look-up finds.
pub(crate) fn drop_found(by_id: &mut IndexMap<u32, Item>, lookup: &Lookup, project: &str)
    ensures { by_id.new.entries ≡
        filter (λ entry. not (finds lookup.now project.now entry.1)) by_id.old.entries }
{
    by_id.retain(|_, item| !lookup.finds(project, item));
}

impl Follow<SheetChange<'_>> for Item {
    ghost use Rattle.grid_range.specs.Change.{Fits, count_after};
    ghost use Rattle.dev_metadata.specs.Following.{IsBelow, item_followed};

    ghost can_follow = { λ by item.
        Fits by.change.now by.count × IsBelow by.sheet by.axis by.count item };

    ghost becomes = { λ by item. item_followed by.sheet by.axis by.change.now item };

    ghost has_followed = { λ by item.
        IsBelow by.sheet by.axis (count_after by.change.now by.count) item };

    fn follow(&mut self, by: &SheetChange) -> bool {
        let Some(spot) = self.spot.followed(by.sheet, by.axis, by.count, by.change) else {
            return false;
        };
        self.spot = spot;
        true
    }
}

impl Spot {
    /// What the location becomes, None where its line is deleted.
    fn followed(self, sheet: u32, axis: Axis, count: u32, change: &Change) -> Option<Spot>
        requires fits { Fits change.now count }
        requires below { IsSpotBelow sheet axis count self }
        ensures value { result ≡ spot_followed sheet axis change.now self }
        ensures below { IfSome result (IsSpotBelow sheet axis (count_after change.now count)) }
    {
        match self {
            Spot::Spreadsheet | Spot::Sheet(_) => Some(self),
            Spot::Line(its_sheet, its_axis, index) => {
                if its_sheet == sheet && is_same_axis(its_axis, axis) {
                    place(change, count, index).map(|index| Spot::Line(its_sheet, its_axis, index))
                } else {
                    Some(self)
                }
            }
        }
    }
}
