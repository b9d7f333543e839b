//! Laws of spreadsheets: each function does nothing of its own, and its contract is the law.

ghost use Rattle.world_model.specs.Laws.{WritesFollow, WritesStaySound, ChangesFollow, ChangesStaySound, StandsForSome, StandsForApart, FilledWithinPlaces, ReplacementsFollow, FormulasCounted};
ghost use Rattle.world_model.specs.Laws.{UpdatesFollow, UpdatesAreWrites, IdsFind};

use cell_store::tables_by_items;
use grid_range::{orders_stay, places_all, places_stay_below, tracks_all, tracks_stay_within};
use merge_ranges::{followed_stay_merges, lists_are_same};
use ref_rewrite::Content;

/// What is put at a place stands for what is written into the cell of the lines at that place.
pub fn writes_follow()
    ensures { WritesFollow }
{}

/// What always holds of a spreadsheet holds after a write.
pub fn writes_stay_sound()
    ensures { WritesStaySound }
{}

/// What a change of lines makes by places stands for what it makes by names.
pub fn changes_follow()
    ensures { ChangesFollow }
{
    tracks_all();
    places_all();
    orders_stay();
    tracks_stay_within();
    places_stay_below();
    followed_stay_merges();
}

/// What always holds of a spreadsheet holds after a change of lines.
pub fn changes_stay_sound()
    ensures { ChangesStaySound }
{
    tracks_stay_within();
    places_stay_below();
    followed_stay_merges();
}

/// What is sound stands for something by names.
pub fn stands_for_some()
    ensures { StandsForSome }
{}

/// No two spreadsheets stand for the same one.
pub fn stands_for_apart()
    ensures { StandsForApart }
{
    tables_by_items::<Content>();
    lists_are_same();
}

/// A spreadsheet stores no more cells than it has places.
pub fn filled_within_places()
    ensures { FilledWithinPlaces }
{}

/// A world in which a spreadsheet takes the place of the one that has its id stands for the world in which it does.
pub fn replacements_follow()
    ensures { ReplacementsFollow }
{}

/// A write changes the number of formulas by what it puts at its place and what it takes from there.
pub fn formulas_counted()
    ensures { FormulasCounted }
{}

/// An update of many cells by places stands for the update by names.
pub fn updates_follow()
    ensures { UpdatesFollow }
{}

/// An update of many cells is so many writes, one after another.
pub fn updates_are_writes()
    ensures { UpdatesAreWrites }
{}

/// Each sheet of a spreadsheet is the one that is found by its id.
pub fn ids_find()
    ensures { IdsFind }
{}
