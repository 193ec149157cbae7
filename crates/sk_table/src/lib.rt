//! The table of an engine, with plain lists: what it replies to each call, and what each call makes of it.
#![tactic(auto)]

mod answering;
mod changing;
mod conditions;
mod entries;
mod numbers;
mod reading;
mod records;
mod row_state;
mod rows;
mod table;
mod version;
mod writing;

pub use answering::after_entries;
pub use conditions::keeps;
pub use records::net;
pub use rows::after_write;
pub use table::EngineTable;

#[cfg(test)]
mod tests;
