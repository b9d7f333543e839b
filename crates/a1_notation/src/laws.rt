//! Laws of A1 notation, as the contract of a function that does nothing.

ghost use Rattle.a1_notation.specs.Laws.{A1Laws};

/// Columns and rows that are named are small ones, what is written for a column, a row or an area names it,
/// a text has one reading at most, and quotes and runs of bytes end at one place.
pub fn a1_laws()
    ensures { A1Laws }
{}
