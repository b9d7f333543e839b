//! The values of formulas by their trees: what operators and functions make of the values that they are given.
#![tactic(auto)]

mod areas;
mod arguments;
mod arithmetic;
mod calculation;
mod cells;
mod comparison;
mod content_value;
mod conversion;
mod evaluation;
mod functions;
mod known;
mod laws;
mod mark;
mod operators;
mod outcome;
mod reader;
mod stored_cells;
mod table;
mod walk;

pub use arguments::{AreaCells, Argument, FilledCell, HeldValue};
pub use calculation::{calculate, calculate_for, calculate_more};
pub use cells::{CellsOf, StoredCell};
pub use content_value::value_of_content;
pub use evaluation::value_of_tree;
pub use functions::{
    Function, absolute, all_value, any_value, called_value, chosen, column_count, count_all_value,
    count_value, function_named, function_value, greatest_value, indexed_value, is_blank, is_error,
    is_number, is_text, joined_value, least_value, left_part, matched_place, matches_counted,
    matches_summed, middle_part, modulo, negated, right_part, row_count, same_text, sign,
    sum_value, text_length, unless_it_fails, whole_quotient,
};
pub use known::{KnownCells, ValuesOf};
pub use laws::{counts_are_bounds, has_values, reads_decide, stored_values, values_once};
pub use operators::{negation, operation};
pub use reader::CellReader;
pub use table::Table;
