ghost use Rattle.std.specs.Prelude.{◌≡◌, ◌↔◌, ℕ, Contains, IfSome, IsTrue};
ghost use Rattle.std.specs.List.{All, IsDistinct};
ghost use Rattle.std.specs.List.Sorted.{IsStrictlySortedBy};
ghost use Rattle.std.specs.Ordering.{eq_by_cmp};
ghost use Rattle.std.specs.declared.cmp.Ordering.TheVariants.{Less};
ghost use Rattle.grid_range.specs.Area.{Holds, by_rows};

use cell_value::Items;
use grid_range::Area;

/// Those of the places that the area holds, by rows: a set of places has one list by rows. The sheet
/// of the area isn't looked at. It takes no memory.
pub fn held_by_rows(places: Vec<(u32, u32)>, area: &Area) -> Items<(u32, u32)>
    requires distinct { IsDistinct (eq_by_cmp by_rows) places.items }
    ensures in_order { IsStrictlySortedBy by_rows result }
    ensures exactly { (row col : ℕ) → Contains result (row, col)
        ↔ (Holds area.now row col × Contains places.items (row, col)) }
{
    if are_held_by_rows(places.as_slice(), area) {
        return Items::of(places);
    }
    let mut places = places;
    places.retain(|place| area.holds(place.0, place.1));
    places.sort_unstable();
    Items::of(places)
}

/// Whether the area holds each of the places, and each but the first stands behind the one before it, by rows.
fn are_held_by_rows(places: &[(u32, u32)], area: &Area) -> bool
    ensures in_order { IsTrue result → IsStrictlySortedBy by_rows places.now }
    ensures held { IsTrue result → All (λ place. Holds area.now place.0 place.1) places.now }
{
    let mut before = None;
    for place in places {
        if !is_behind(*place, before) || !area.holds(place.0, place.1) {
            return false;
        }
        before = Some(*place);
    }
    true
}

/// Whether the place stands behind the one before it, by rows, if there is one.
fn is_behind(place: (u32, u32), before: Option<(u32, u32)>) -> bool
    ensures { IsTrue result → IfSome before (λ before. by_rows before place ≡ Less) }
{
    match before {
        Some(before) => before < place,
        None => true,
    }
}
