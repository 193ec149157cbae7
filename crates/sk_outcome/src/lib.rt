//! What a run hands out beside the text that it prints, and what a flush gives on the way.
//!
//! It stands in a crate of its own, behind the definitions, since it grows with each part that a run gains.
#![tactic(auto)]

mod flush_note;
mod outcome;

pub use flush_note::FlushNote;
pub use outcome::Outcome;
