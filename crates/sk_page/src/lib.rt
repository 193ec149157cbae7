//! Pages of cells.
#![tactic(auto)]

mod laid;
mod laws;
mod page;

pub use laws::{page_has_its_size, page_is_read_back};
pub use page::{Full, Page};

#[cfg(test)]
mod tests;
