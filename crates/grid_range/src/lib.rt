//! Bands of rows and columns, and areas of a sheet, as numbers: a line is counted from 0, and the
//! end of a stretch is the line past its last, as in the `GridRange` of the Google Sheets API v4.
//!
//! What a band means where lines are inserted, deleted or moved is said of lines by names that they
//! keep: the definitions are orders of lines, bands of names, changes of an order, and what a band
//! becomes after one. A program has places and no names. So the laws of these definitions are
//! functions that do nothing, and whose contracts are the laws.
#![tactic(auto)]

mod area;
mod axis;
mod band;
mod change;
mod following_laws;
mod tracking;
mod tracking_laws;

pub use area::Area;
pub use axis::Axis;
pub use band::Band;
pub use change::{Change, SheetChange};
pub use following_laws::{
    bands_stay, closed_keeps_lines, delete_in_turn, gives_bands, idle_move_keeps, insert_beside,
    insert_lengthens, lost_for_good, lost_where_gone, move_keeps_lines, open_keeps_lines,
    orders_stay, torn_closed_by_places, torn_closed_is_range, torn_open_by_places,
    torn_open_is_range, whole_stays,
};
pub use tracking::{place, track};
pub use tracking_laws::{
    areas_stay_within, places_all, places_exactly, places_stay_apart, places_stay_below,
    spans_stay_apart, tears_where_torn, torn_or_whole, tracks_all, tracks_exactly,
    tracks_stay_within,
};
