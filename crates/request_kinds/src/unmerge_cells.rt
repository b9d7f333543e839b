ghost use Rattle.dimension_ops.specs.Rules.{IsUnlessNoMemory};
ghost use Rattle.values_api.specs.Ranges.{IsThere};
ghost use Rattle.request_kinds.specs.Telling.{IsDoneTo};
ghost use Rattle.request_kinds.specs.UnmergeCells.{AreUnmergedOn, IsUnmergeCells};

use crate::areas::area_on;
use crate::merging::{first_broken, split};
use dimension_ops::{Book, RuleOr};
use grid_range::Area;
use sheets_json::Reply;

/// Dissolves the merges in a range.
pub(crate) fn unmerge_cells(book: &mut Book, range: &Area) -> Result<Reply, RuleOr>
    ensures { IsUnlessNoMemory (IsDoneTo (IsUnmergeCells range.now book.old) book.old book.new) result }
{
    match area_on(book, range) {
        Ok(area) => unmerge(book, &area),
        Err(rule) => Err(RuleOr::Rule(rule)),
    }
}

/// Dissolves the merges in the area.
fn unmerge(book: &mut Book, area: &Area) -> Result<Reply, RuleOr>
    requires { IsThere book.old.sheets area.now }
    ensures { IsUnlessNoMemory (IsDoneTo (AreUnmergedOn book.old area.now) book.old book.new) result }
{
    let sheet = book.sheet(area.sheet).unwrap();
    if let Some(rule) = first_broken(sheet, area, None) {
        return Err(RuleOr::Rule(rule));
    }
    split(book, area)?;
    Ok(Reply::Empty)
}
