ghost use Rattle.std.specs.Prelude.{◌≡◌, ◌+◌, ◌-◌, ◌^◌, ◌<◌, ◌≤◌, IfSome};
ghost use Rattle.grid_range.specs.Band.{Within};
ghost use Rattle.grid_range.specs.Change.{Fits, HasStretch, inserted_lines, count_after};
ghost use Rattle.grid_range.specs.Tracking.{Tracks, StaysWithin, Places, track_of, place_of, span_after, span_moved, closed_up, start_opened, end_opened};

use crate::band::Band;
use crate::change::Change;

/// What a band becomes where the change is made among `count` lines. It has the lines that are left
/// of it where they still stand side by side and, if it is open, end the sheet. Else it goes from
/// the first of them to the last, or to the end, where those that were moved don't count unless all
/// were. None exactly where all of its lines are deleted; `Whole` is never lost.
#[tactic(auto, using(crate::proofs::Theorems::track_of_tracks, crate::proofs::Exactly::track_stays_within))]
pub fn track(band: Band, count: u32, change: &Change) -> Option<Band>
    requires fits { Fits change.now count }
    requires within { Within band count }
    ensures value { result ≡ track_of band count change.now }
    ensures names { Tracks band count change.now result }
    ensures within { StaysWithin band count change.now result }
{
    match band {
        Band::Whole => Some(Band::Whole),
        Band::From(start) => {
            span_after(change, start, count).map(|(start, _)| Band::From(start))
        }
        Band::Span(start, end) => {
            span_after(change, start, end).map(|(start, end)| Band::Span(start, end))
        }
    }
}

/// Where the line at `index` of `count` lines is after the change; None exactly where it is
/// deleted.
#[tactic(auto, using(crate::proofs::Theorems::place_of_places, crate::proofs::Exactly::place_within))]
pub fn place(change: &Change, count: u32, index: u32) -> Option<u32>
    requires fits { Fits change.now count }
    requires there { index < count }
    ensures value { result ≡ place_of change.now index }
    ensures names { Places change.now count index result }
    ensures within { IfSome result (λ place. place < count_after change.now count) }
{
    span_after(change, index, index + 1).map(|(place, _)| place)
}

/// The first line of a band and the line past its last after the change, where they were `first`
/// and `past`.
fn span_after(change: &Change, first: u32, past: u32) -> Option<(u32, u32)>
    requires some { first < past }
    requires room { past + inserted_lines change.now < 2 ^ 32 }
    requires stretch { HasStretch change.now }
    ensures { result ≡ span_after change.now first past }
{
    match *change {
        Change::Insert { at, count } => {
            Some((start_opened(at, count, first), end_opened(at, count, past)))
        }
        Change::Delete { start, end } => {
            let first = closed_up(start, end, first);
            let past = closed_up(start, end, past);
            if first < past {
                Some((first, past))
            } else {
                None
            }
        }
        Change::Move { start, end, to } => Some(span_moved(first, past, start, end, to)),
    }
}

/// The same after the lines from `start` to `end - 1` were moved before line `to`.
fn span_moved(first: u32, past: u32, start: u32, end: u32, to: u32) -> (u32, u32)
    requires some { first < past }
    requires stretch { start < end }
    ensures { result ≡ span_moved first past start end to }
{
    let landing = closed_up(start, end, to);
    if start <= to && to <= end {
        (first, past)
    } else if start <= first && past <= end {
        (landing + (first - start), landing + (past - start))
    } else if first <= start && end <= past && first <= to && to <= past {
        (first, past)
    } else {
        (
            start_opened(landing, end - start, closed_up(start, end, first)),
            end_opened(landing, end - start, closed_up(start, end, past)),
        )
    }
}

/// How many of the first `line` lines are left where those from `start` to `end - 1` are gone.
fn closed_up(start: u32, end: u32, line: u32) -> u32
    requires { start ≤ end }
    ensures { result ≡ closed_up start end line }
{
    if line <= start {
        line
    } else if line <= end {
        start
    } else {
        line - (end - start)
    }
}

/// A band's first line where `count` lines are put before line `at`.
fn start_opened(at: u32, count: u32, start: u32) -> u32
    requires { start + count < 2 ^ 32 }
    ensures { result ≡ start_opened at count start }
{
    if at <= start { start + count } else { start }
}

/// The line past a band's last where `count` lines are put before line `at`.
fn end_opened(at: u32, count: u32, end: u32) -> u32
    requires { end + count < 2 ^ 32 }
    ensures { result ≡ end_opened at count end }
{
    if at < end { end + count } else { end }
}
