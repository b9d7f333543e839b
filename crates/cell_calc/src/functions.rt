//! The functions of formulas, a file a family.

mod gathering;
mod logic;
mod look_up;
mod names;
mod numbers;
mod sum_if;
mod table;
mod texts;
mod values;

pub use gathering::{
    all_value, any_value, count_all_value, count_value, greatest_value, joined_value, least_value,
    sum_value,
};
pub use logic::{chosen, is_blank, is_error, is_number, is_text, negated, unless_it_fails};
pub use look_up::{column_count, indexed_value, matched_place, matches_counted, row_count};
pub use names::function_named;
pub use numbers::{absolute, modulo, sign, whole_quotient};
pub use sum_if::matches_summed;
pub use table::Function;
pub use texts::{left_part, middle_part, right_part, same_text, text_length};
pub(crate) use values::value_of_cells;
pub use values::{called_value, function_value};
