ghost use Rattle.std.specs.Prelude.{IfSome};
ghost use Rattle.dimension_ops.specs.Rules.{IsUnlessNoMemory};
ghost use Rattle.values_api.specs.Ranges.{IsThere};
ghost use Rattle.request_kinds.specs.Telling.{IsDoneTo};
ghost use Rattle.request_kinds.specs.UpdateNamedRange.{IsRangeSet, IsUpdateNamedRange};

use crate::areas::area_on;
use crate::given::given_text;
use cell_value::Text;
use dimension_ops::{Book, RuleOr, update_range};
use grid_range::Area;
use sheets_json::Reply;

/// Gives a named range another name, which formulas have from then on, another area, or both.
pub(crate) fn update_named_range(
    book: &mut Book,
    id: &str,
    name: &Option<Text>,
    range: Option<Area>,
) -> Result<Reply, RuleOr>
    ensures { IsUnlessNoMemory (IsDoneTo (IsUpdateNamedRange id.now name.now range book.old) book.old book.new) result }
{
    match range {
        Some(area) => match area_on(book, &area) {
            Ok(area) => set(book, id, name, Some(area)),
            Err(rule) => Err(RuleOr::Rule(rule)),
        },
        None => set(book, id, name, None),
    }
}

/// Gives the named range with the id what is given.
fn set(book: &mut Book, id: &str, name: &Option<Text>, area: Option<Area>) -> Result<Reply, RuleOr>
    requires { IfSome area (IsThere book.old.sheets) }
    ensures { IsUnlessNoMemory (IsDoneTo (IsRangeSet id.now name.now book.old area) book.old book.new) result }
{
    let name = given_text(name)?;
    match update_range(book, id, name, area) {
        Ok(()) => Ok(Reply::Empty),
        Err(fault) => Err(fault),
    }
}
