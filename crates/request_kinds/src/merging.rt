//! What merging and unmerging of cells have in common.

ghost use Rattle.std.specs.Prelude.{◌≡◌, None, OnOk};
ghost use Rattle.merge_ranges.specs.Calls.{IsLeft};
ghost use Rattle.dimension_ops.specs.MergeRequests.{CutsOne, MergesBecome};
ghost use Rattle.values_api.specs.Ranges.{IsThere};
ghost use Rattle.request_kinds.specs.Merging.{IsFirstBroken};

use cell_value::NoMemory;
use dimension_ops::{Book, Limit, Rule, Sheet};
use grid_range::Area;
use merge_ranges::MergeFault;

/// The first rule that is broken where that limit would be passed, if there is one, or the area cuts a merge of
/// the sheet.
pub(crate) fn first_broken(sheet: &Sheet, area: &Area, past: Option<Limit>) -> Option<Rule>
    ensures { IsFirstBroken area.now sheet.now past result }
{
    let cut = sheet.merges().are_cut_by(area);
    match past {
        Some(limit) => Some(Rule::PastLimit(limit)),
        None if cut => Some(Rule::MergeCut),
        None => None,
    }
}

/// Dissolves the merges in the area, which cuts none of its sheet.
pub(crate) fn split(book: &mut Book, area: &Area) -> Result<(), NoMemory>
    requires there { IsThere book.old.sheets area.now }
    requires uncut { ¬ (CutsOne area.now book.old.sheets) }
    ensures { OnOk result (MergesBecome area.now.sheet (IsLeft area.now) book.old book.new) }
{
    uncut(book.split_merges(area))
}

/// What came of a change of merges that cuts none.
pub(crate) fn uncut(done: Result<(), MergeFault>) -> Result<(), NoMemory>
    requires { ¬ (done ≡ Rattle.std.specs.Prelude.Err MergeFault.Cut) }
    ensures { OnOk result (done ≡ Rattle.std.specs.Prelude.Ok tt) }
{
    match done {
        Ok(()) => Ok(()),
        Err(MergeFault::NoMemory) => Err(NoMemory),
        Err(MergeFault::Cut) => unreachable!(),
    }
}
