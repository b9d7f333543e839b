//! Laws of formulas that are kept: each function does nothing, and its contract is the law. A caller
//! that has read a formula knows by them that it can still be printed and read again when the sheets
//! have changed.

ghost use Rattle.formula_reader.specs.Laws.{HasOneTokens, IsReadOnce, HasOneSymbols, HasOneTree, LimitsStay, PrintsCanonically};
ghost use Rattle.formula_reader.specs.Reads.{HasReading, ReadsAreThere};
ghost use Rattle.formula_reader.specs.Changed.{StaysReadable, PrintsTheSame, MayFollow, MayLoseSheet, MayBeRenamed};

use a1_notation::a1_laws;

/// A text has one list of tokens at most.
pub fn has_one_tokens()
    ensures { HasOneTokens }
{
    a1_laws();
}

/// A text is read as one formula, and passes one limit first, if any.
pub fn reads_once()
    ensures { IsReadOnce }
{
    a1_laws();
}

/// No text is without a formula that is read of it, and where each sheet has a title that names it, what is read can be
/// printed, and its references are to cells that are there.
pub fn has_reading()
    ensures some { HasReading }
    ensures there { ReadsAreThere }
{
    a1_laws();
}

/// A formula has one list of symbols at most, and so one tree.
pub fn has_one_tree()
    ensures symbols { HasOneSymbols }
    ensures tree { HasOneTree }
{
    a1_laws();
}

/// A formula that keeps the limits keeps them after its references have followed, or were lost, and after
/// its words are renamed.
pub fn limits_stay()
    ensures { LimitsStay }
{}

/// A reference without a `$` and without a title is printed as A1 notation's canonical text of its area.
pub fn prints_canonically()
    ensures { PrintsCanonically }
{}

/// A formula that can be read again can be so after its references have followed, its words are
/// renamed or titles are other, where the cells of its references are in the grid.
#[tactic(auto, using(crate::proofs::Changed::stays_readable))]
pub fn stays_readable()
    ensures { StaysReadable }
{}

/// A formula as it is read again is printed as the formula itself.
pub fn prints_the_same()
    ensures { PrintsTheSame }
{}

/// What `ref_rewrite` makes of pieces where lines change, a sheet is lost or a name becomes another,
/// they may become, so that their formula stays readable.
pub fn changes_may_be()
    ensures follow { MayFollow }
    ensures lose_sheet { MayLoseSheet }
    ensures rename { MayBeRenamed }
{}
