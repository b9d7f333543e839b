//! Laws of named ranges: each function does nothing, and its contract is the law.

ghost use Rattle.named_ranges.specs.Laws.{NamesAreWords};

/// What may be the name of a named range is one whole word of a formula.
pub fn names_are_words()
    ensures { NamesAreWords }
{}
