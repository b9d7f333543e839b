ghost use Rattle.std.specs.Prelude.{◌≡◌};
ghost use Rattle.dimension_ops.specs.Rules.{IsUnlessNoMemory};
ghost use Rattle.request_kinds.specs.ClearBasicFilter.{basic_filter_cleared};
ghost use Rattle.request_kinds.specs.Telling.{IsDoneTo};

use dimension_ops::{Book, Rule, RuleOr};
use sheets_json::Reply;

/// Takes the basic filter from the sheet, if it has one.
pub(crate) fn clear_basic_filter(book: &mut Book, sheet: u32) -> Result<Reply, RuleOr>
    ensures { IsUnlessNoMemory
        (IsDoneTo (λ told. told ≡ basic_filter_cleared sheet book.old.sheets) book.old book.new) result }
{
    if book.sheet(sheet).is_none() {
        return Err(RuleOr::Rule(Rule::NoSheet));
    }
    book.set_filter(sheet, None)?;
    Ok(Reply::Empty)
}
