//! Laws of the protected ranges of a spreadsheet: each function does nothing of its own, and its contract is the law.

ghost use Rattle.world_model.specs.ProtectionLaws.{DenialsByName, InsertsKeepProtected, ProtectionsAreSet};

use grid_range::{orders_stay, places_all, tracks_all};

/// Protected ranges that a spreadsheet gets are those of the lines at their places, and it stays sound.
pub fn protections_are_set()
    ensures { ProtectionsAreSet }
{}

/// A cell is denied by places just where the cell of the lines at that place is protected.
pub fn denials_by_name()
    ensures { DenialsByName }
{}

/// A cell that is protected is so, too, once lines are inserted.
pub fn inserts_keep_protected()
    ensures { InsertsKeepProtected }
{
    tracks_all();
    places_all();
    orders_stay();
}
