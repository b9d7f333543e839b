//! Laws of the values of cells, as functions that do nothing, whose contracts are the laws.

ghost use Rattle.cell_calc.specs.Calculated.{HasValues, StoredValues, ValuesOnce};
ghost use Rattle.cell_calc.specs.CellValue.{CountsAreBounds, ReadsDecide};

use formula_reader::has_one_tree;

/// What is the value in a place by walks without an end, and else by any recursion that is deeper than each walk
/// from there is long, is so where lengths and depth are the number of the spreadsheet's formulas.
#[tactic(auto, using(crate::proofs::Endless::counts_are_bounds))]
pub fn counts_are_bounds()
    ensures { CountsAreBounds }
{}

/// The value of a cell depends on the sizes of sheets, the areas of names, and the values in the places that it
/// reads alone.
#[tactic(auto, using(crate::proofs::ReadsDecide::reads_decide))]
pub fn reads_decide()
    ensures { ReadsDecide }
{}

/// A place has one value at most.
pub fn values_once()
    ensures { ValuesOnce }
{
    has_one_tree();
}

/// Each place has a value.
pub fn has_values()
    ensures { HasValues }
{
    has_one_tree();
}

/// The value in a place without a formula is what is stored there.
#[tactic(auto, using(crate::proofs::Stored::stored_values))]
pub fn stored_values()
    ensures { StoredValues }
{}
