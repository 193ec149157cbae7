//! The ledger of a run: the commits of each engine, from its journal and the records of the transactions alone, and the one list of all.
#![tactic(auto)]

mod entering;
mod laws;
mod listing;
mod netting;
mod numbering;

pub use laws::ledger_is_run;
pub use listing::{commits, order};

#[cfg(test)]
mod tests;
