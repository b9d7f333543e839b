//! The developer metadata of a spreadsheet, in order of creation: where an item lies and who sees it,
//! how it follows the lines of the sheets, and which items a look-up finds.
#![tactic(auto)]

mod by_id;
mod finding;
mod following;
mod ids;
mod laws;
mod list;
mod matching;
mod types;
mod updating;

pub use laws::have_order;
pub use list::Metadata;
pub use types::{Item, ItemPatch, Lookup, MetaFault, Spot, SpotKind, Visibility, VisibilityKind};
