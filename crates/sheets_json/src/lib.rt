//! The calls of the API as JSON bodies say them, and their answers as JSON text (Google Sheets API v4
//! reference; RFC 8259).
#![tactic(auto)]

mod answer;
mod areas;
mod batch;
mod bodies;
mod call;
mod creation;
mod filters;
mod laws;
mod metadata;
mod place;
mod reading;
mod showing;
mod spreadsheet;
mod value_range;
mod words;
mod writing;

pub use answer::{Answer, MatchedMetadata, MatchedRange, ShownRange, Update};
pub use call::{Call, CallFault, InsertData, NewSpreadsheet, RangeBlock, ValueRange};
pub use json_requests::{
    DataFilter, DimensionRange, GridCoordinate, Location, MatchingStrategy, MergeType,
    MetadataLookup, NewNamedRange, Request, Step, UpdatedArea,
};
pub use json_shapes::ShapeFault;
pub use laws::{
    areas_are_read_again, filters_are_read_again, items_are_read_again, locations_are_read_again,
    named_ranges_are_read_again, protections_are_read_again,
};
pub use place::Place;
pub use reading::read_call;
pub use spreadsheet::{
    DimensionProperties, GridData, Reply, ShownProperties, ShownProtection, ShownSheet, Spreadsheet,
};
pub use writing::{answer_text, refusal_text};
