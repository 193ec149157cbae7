//! Reads statements from tokens, and prints them.
#![tactic(auto)]

mod cursor;
mod expression;
mod fault;
mod laws;
mod listed;
mod marks;
mod printable;
mod printing;
mod reading;
mod terms;
mod writing;

pub use cursor::{Cursor, Sign};
pub use fault::{Fault, ParseFault};
pub use laws::{printed_words_are_read, words_are_read_by_the_grammar};
pub use marks::COMMA;
pub use printable::can_be_printed;
pub use reading::statement;
pub use writing::print;

#[cfg(test)]
mod tests;
