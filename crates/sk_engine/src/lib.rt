//! What both engines have: the openings, the numbers and the purge horizon, over rows that an engine keeps in its own way.
#![tactic(auto)]

mod act;
mod acting;
mod book;
mod numbers;
mod openings;
mod permits;
mod purging;
mod recording;
mod row_id;
mod rows;
mod versioned;

pub use act::Act;
pub use book::Book;
pub use numbers::Number;
pub use openings::Opening;
pub use row_id::RowId;
pub use rows::Rows;
pub use versioned::Versioned;
