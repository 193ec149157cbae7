//! One script, from its bytes to the printed text and the store on its disk, on one thread.
#![tactic(auto)]

mod beginning;
mod ending;
mod flushing;
mod halt;
mod opening;
mod playing;
mod refusing;
mod run_fault;
mod running;
mod summary;
mod unlike;

pub use running::run_script;

#[cfg(test)]
mod flushed_rows;
#[cfg(test)]
mod generated_rows;
#[cfg(test)]
mod opened_rows;
#[cfg(test)]
mod session_rows;
#[cfg(test)]
mod stopped_rows;
#[cfg(test)]
mod store_rows;
#[cfg(test)]
mod tests;
