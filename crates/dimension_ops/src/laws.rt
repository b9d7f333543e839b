//! Laws of spreadsheets as they are kept.

ghost use Rattle.std.specs.Prelude.{◌∷◌, []};
ghost use Rattle.world_model.specs.World.{WorldStandsFor};
ghost use Rattle.dimension_ops.specs.SheetRequests.{NewSheetsOnce};
ghost use Rattle.dimension_ops.specs.World.{opening_book, opening_world};

/// The spreadsheet that there is in the beginning stands for the one by names.
pub fn opening_stands()
    ensures { WorldStandsFor (opening_book ∷ []) opening_world }
{}

/// One sheet can be what is added to given sheets.
pub fn new_sheets_once()
    ensures { NewSheetsOnce }
{}
