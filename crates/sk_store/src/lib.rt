//! The storage engine: rows as cells of pages, older versions as undo records.
#![tactic(auto)]

mod cells;
mod engine;
mod first;
mod head;
mod heads;
mod laws;
mod loading;
mod page_vec;
mod paged;
mod pages;
mod pushing;
mod reading;
mod rooms;
mod scanning;

pub use engine::StoreEngine;
pub use laws::store_journal_is_legal;
pub use page_vec::PageVec;
pub use paged::PagedRows;
pub use pages::{PageFault, Pages};

#[cfg(test)]
mod tests;
