//! The registry of points on shared words, which many threads use at once and none waits for.
#![tactic(auto)]

mod appending;
mod closing;
mod counters;
mod cutting;
mod meeting;
mod opening;
mod pass;
mod selecting;
mod view;
mod walks;
mod words;

pub use closing::Closed;
pub use pass::{Clock, Pass};
pub use sk_weave::{CutFound, DrawFault, Event, Passed, Point, Recycled, Selected};
pub use view::{Entry, Own, Rule, Start, View, WordStep};

#[cfg(test)]
mod tests;
