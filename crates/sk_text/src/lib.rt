//! The texts of what runs print.
#![tactic(auto)]

mod fault_line;
mod flush;
mod pieces;
mod replies;
mod report;

pub use fault_line::put_script_fault;
pub use flush::put_flush_lines;
pub use replies::put_reply_lines;
pub use report::put_report;

#[cfg(test)]
mod tests;
