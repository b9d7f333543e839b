//! Laws of asks: the function does nothing of its own, and its contract is the law.

ghost use Rattle.sheet_engine.specs.Answered.{AsksAnswered};

use batch_engine::looks_answered;
use sheets_http::has_route;

/// Each ask is a call or has a fault, and none that has one, looks at a spreadsheet or empties the cells of ranges is
/// without an outcome. What spreadsheets stand for has a dump.
pub fn asks_answered()
    ensures { AsksAnswered }
{
    has_route();
    looks_answered();
}
