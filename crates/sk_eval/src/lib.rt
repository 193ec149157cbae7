//! Expressions: their sorts over the columns of a table, and their values over its rows.
#![tactic(auto)]

mod evaluation;
mod laws;
mod seen;
mod typing;

pub use evaluation::{column_value, holds, holds_over, value, value_over};
pub use laws::typed_has_value;
pub use typing::{column_sort, same_sort, sort_over, type_check};

#[cfg(test)]
mod tests;
