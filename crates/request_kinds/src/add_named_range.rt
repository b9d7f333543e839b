ghost use Rattle.dimension_ops.specs.Rules.{IsUnlessNoMemory};
ghost use Rattle.values_api.specs.Ranges.{IsThere};
ghost use Rattle.request_kinds.specs.AddNamedRange.{IsAddNamedRange, IsRangePut};
ghost use Rattle.request_kinds.specs.Telling.{IsDoneTo};

use crate::areas::area_on;
use crate::given::given_text;
use cell_value::Duplicate;
use dimension_ops::{Book, Limit, Rule, RuleOr, add_range};
use grid_range::Area;
use named_ranges::NamedRange;
use sheets_json::{NewNamedRange, Reply};

/// How many named ranges a spreadsheet can have.
const MOST_NAMES: u64 = 2_000;

/// Puts a named range behind the others, and replies it.
pub(crate) fn add_named_range(book: &mut Book, asked: &NewNamedRange) -> Result<Reply, RuleOr>
    ensures { IsUnlessNoMemory (IsDoneTo (IsAddNamedRange asked.now book.old) book.old book.new) result }
{
    match area_on(book, &asked.range) {
        Ok(area) => put_behind(book, asked, area),
        Err(rule) => Err(RuleOr::Rule(rule)),
    }
}

/// Puts a named range of the area behind the others.
fn put_behind(book: &mut Book, asked: &NewNamedRange, area: Area) -> Result<Reply, RuleOr>
    requires { IsThere book.old.sheets area }
    ensures { IsUnlessNoMemory (IsDoneTo (IsRangePut asked.now book.old area) book.old book.new) result }
{
    let asked_id = given_text(&asked.named_range_id)?;
    let name = asked.name.duplicate()?;
    let id = add_range(book, asked_id, name.duplicate()?, area)?;
    if book.names().count() > MOST_NAMES {
        return Err(RuleOr::Rule(Rule::PastLimit(Limit::Names)));
    }
    Ok(Reply::AddNamedRange {
        named_range: NamedRange { id, name, area },
    })
}
