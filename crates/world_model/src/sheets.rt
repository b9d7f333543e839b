//! Laws of the sheets of a spreadsheet: each function does nothing of its own, and its contract is the law.

ghost use Rattle.world_model.specs.Making.{BooksMade};
ghost use Rattle.world_model.specs.SheetLaws.{SheetsAdded, SheetsDeleted, SheetsHidden, SheetsTitled};

use cell_store::tables_by_items;
use ref_rewrite::Content;

/// A sheet that is added stands for one all of whose lines are new, and the spreadsheet stays sound.
pub fn sheets_added()
    ensures { SheetsAdded }
{
    tables_by_items::<Content>();
}

/// A spreadsheet that is made of its sheets stands for one all of whose lines are new, and is sound.
pub fn books_made()
    ensures { BooksMade }
{
    tables_by_items::<Content>();
}

/// A sheet that is deleted is gone by names, too, with all references to it, and the spreadsheet stays sound.
pub fn sheets_deleted()
    ensures { SheetsDeleted }
{}

/// A sheet with another title stands for one with that title.
pub fn sheets_titled()
    ensures { SheetsTitled }
{}

/// A sheet that is hidden, or shown, is so by names, too.
pub fn sheets_hidden()
    ensures { SheetsHidden }
{}
