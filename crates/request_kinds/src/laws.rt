//! Laws of requests: the function does nothing of its own, and its contract is the law.

ghost use Rattle.request_kinds.specs.Laws.{RequestsDoneOnce};

use dimension_ops::new_sheets_once;
use merge_ranges::lists_are_same;
use values_api::writes_once;
use world_model::{changes_apart, changes_in_turn};

/// A request of a user has one reply and makes one list of changes of a given spreadsheet.
pub fn requests_done_once()
    ensures { RequestsDoneOnce }
{
    new_sheets_once();
    writes_once();
    changes_apart();
    changes_in_turn();
    lists_are_same();
}
