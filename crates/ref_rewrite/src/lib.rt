//! The text of a formula as a list of pieces, its references among them: how the references follow
//! the lines of the sheets, and how a word of formulas gets another name.
#![tactic(auto)]

mod cell_content;
mod following;
mod pieces;
mod reference;
mod renaming;

pub use cell_content::Content;
pub use following::{follow, lose_sheet};
pub use pieces::{Formula, Piece};
pub use reference::{Marks, Ref};
pub use renaming::rename_word;
