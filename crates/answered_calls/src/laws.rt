//! Laws of calls and requests: each function does nothing of its own, and its contract is the law.

ghost use Rattle.answered_calls.specs.Answered.{CallsAnswered};
ghost use Rattle.answered_calls.specs.Replied.{NamesApart, RequestsAnswered};

use batch_engine::looks_answered;
use connections::has_reply;
use dev_metadata::have_order;
use formula_reader::has_reading;
use grid_range::{
    places_stay_apart, spans_stay_apart, tears_where_torn, torn_or_whole, tracks_stay_within,
};
use sheet_engine::{Sheets, asks_answered};
use values_api::reads_answered;
use world_model::{
    changes_apart, changes_in_turn, filter_is_set, ids_find, line_changes_are_changes,
    merges_are_set, metadata_is_set, protections_are_set, ranges_added, ranges_changed,
    ranges_deleted, sheets_added, sheets_deleted, sheets_hidden, sheets_titled, stands_for_some,
    updates_are_changes, updates_are_writes, updates_follow, words_are_renamed, writes_stay_sound,
};

/// It can't be that a call has no answer whose spreadsheet is there, if it names one, among sound ones whose named ranges
/// have ids and names of their own, where it asks for few enough.
pub fn calls_answered()
    ensures { CallsAnswered }
{
    looks_answered();
    have_order();
    has_reading();
    reads_answered();
    places_stay_apart();
    tracks_stay_within();
    spans_stay_apart();
    tears_where_torn();
    torn_or_whole();
    changes_apart();
    changes_in_turn();
    ids_find();
    line_changes_are_changes();
    updates_are_changes();
    updates_are_writes();
    updates_follow();
    writes_stay_sound();
    stands_for_some();
    sheets_added();
    sheets_deleted();
    sheets_titled();
    sheets_hidden();
    merges_are_set();
    ranges_added();
    ranges_changed();
    ranges_deleted();
    words_are_renamed();
    protections_are_set();
    metadata_is_set();
    filter_is_set();
}

/// No two named ranges of a spreadsheet that stands for a history have one id or one name.
pub fn names_apart()
    ensures { NamesApart }
{
    changes_apart();
    stands_for_some();
}

/// It can't be that a request has no reply behind a history for which spreadsheets stand, where its call asks for few
/// enough.
pub fn requests_answered()
    ensures { RequestsAnswered }
{
    calls_answered();
    names_apart();
    asks_answered();
    has_reply::<Sheets>();
}
