//! Formula texts: a formula is read into its pieces and printed from them, and its pieces have a tree.
#![tactic(auto)]

mod fault;
mod grammar;
mod laws;
mod limits;
mod names;
mod pieces;
mod printing;
mod reading;
mod reference_text;
mod symbols;
mod tokens;
mod tree;

pub use fault::FormulaFault;
pub use grammar::tree_of;
pub use laws::{
    changes_may_be, has_one_tokens, has_one_tree, has_reading, limits_stay, prints_canonically,
    prints_the_same, reads_once, stays_readable,
};
pub use names::SheetNames;
pub use printing::print_formula;
pub use reading::{read_formula, read_pieces};
pub use tokens::{MarkedArea, Operator, Placed, Token, tokens_of};
pub use tree::Tree;
