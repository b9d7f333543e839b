//! Laws of calls: each function does nothing of its own, and its contract is the law.

ghost use Rattle.batch_engine.specs.Answered.{LooksAnswered};
ghost use Rattle.batch_engine.specs.Laws.{CallsAnsweredOnce};
ghost use Rattle.batch_engine.specs.Protected.{ProtectedCellsStay};
ghost use Rattle.batch_engine.specs.Untouched.{RangesKeepOthers};

use a1_notation::a1_laws;
use dev_metadata::have_order;
use dimension_ops::new_sheets_once;
use kept_cells::{protected_cells_keep, untouched_cells_keep};
use request_kinds::requests_done_once;
use values_api::{
    appends_once, areas_empty, cells_have_one_value, reads_answered, shows_once, writes_once,
};
use world_model::{changes_apart, changes_in_turn, updates_are_changes};

/// A call has one answer and one effect on given spreadsheets.
pub fn calls_answered_once()
    ensures { CallsAnsweredOnce }
{
    a1_laws();
    new_sheets_once();
    requests_done_once();
    shows_once();
    cells_have_one_value();
    writes_once();
    appends_once();
    changes_apart();
    changes_in_turn();
}

/// No call that looks at a spreadsheet, or empties the cells of ranges, is without an answer.
pub fn looks_answered()
    ensures { LooksAnswered }
{
    have_order();
    reads_answered();
    areas_empty();
    updates_are_changes();
    changes_in_turn();
}

/// What a call on a range makes leaves what was entered into each cell that it doesn't touch.
pub fn ranges_keep_others()
    ensures { RangesKeepOthers }
{
    untouched_cells_keep();
}

/// What a call makes leaves what was entered into each cell that is protected from its caller.
pub fn protected_cells_stay()
    ensures { ProtectedCellsStay }
{
    protected_cells_keep();
}
