//! Laws of the named ranges of a spreadsheet, and of the words of its formulas: each function does nothing of its own,
//! and its contract is the law.

ghost use Rattle.world_model.specs.RangeLaws.{RangesAdded, RangesChanged, RangesDeleted, WordsAreRenamed};

/// A named range that is added stands for one of the lines at its places, and the spreadsheet stays sound.
pub fn ranges_added()
    ensures { RangesAdded }
{}

/// A named range that takes the place of the one with its id does so by names, too.
pub fn ranges_changed()
    ensures { RangesChanged }
{}

/// A named range that is deleted is gone by names, too.
pub fn ranges_deleted()
    ensures { RangesDeleted }
{}

/// Words of formulas that are renamed are so by names, too, and the spreadsheet stays sound meanwhile.
pub fn words_are_renamed()
    ensures { WordsAreRenamed }
{}
