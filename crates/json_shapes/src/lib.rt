//! The language in which the shapes of JSON values are said: what is read of a value, or its first
//! fault by the order of the rules (Google Sheets API v4 reference; RFC 8259).
#![tactic(auto)]

mod condition;
mod fault;
mod keyed;
mod list;
mod mask;
mod members;
mod scalar;
mod shape;
mod single;
mod ways;
mod words;

pub use condition::{Condition, IsFormulaText, IsNumber, IsText, IsTruth, SuchThat};
pub use fault::{Read, ShapeFault, both, or_bad_shape};
pub use keyed::{Keyed, MapOf};
pub use list::ListOf;
pub use mask::{
    BodyPaths, Mask, Paths, given_member, has_member, masked, states, states_within, taken, takes,
};
pub use members::{ObjectOf, are_null, demanded, first_part, is_null, optional, required};
pub use scalar::{Index, Truth, within_index};
pub use shape::{Fields, Shape};
pub use single::{AnyText, Anything, Entered, Kept, OnlyFalse, as_text};
pub use ways::{either, just_one, way};
pub use words::{Dimension, InputOption, RenderOption, Word, Words};
