//! The requests of a batch as JSON values say them (Google Sheets API v4 reference, Request; RFC 8259).
#![tactic(auto)]

mod area;
mod block;
mod cells;
mod condition_type;
mod data_filter;
mod dimension;
mod filter;
mod filter_condition;
mod kind;
mod location;
mod merge;
mod metadata;
mod metadata_words;
mod named_range;
mod protected_range;
mod request;
mod sheet;
mod sheet_update;
mod step;
mod whole_text;

pub use area::GridRangeMembers;
pub use block::block_of;
pub use data_filter::{DataFilterMembers, LookupAlone};
pub use request::{
    DataFilter, DimensionRange, GridCoordinate, Location, MatchingStrategy, MergeType,
    MetadataLookup, MetadataPatch, NewMetadata, NewNamedRange, Request, Step, UpdatedArea,
};
pub use sheet::SheetPropertiesMembers;
pub use step::StepShape;
pub use whole_text::index_named;
