//! What the engines of a run told of their commits, at any moment, are windows of the run's one list; so what flushes wrote is its prefix.
#![tactic(auto)]

mod laws;

pub use laws::{
    answered_grows, cuts_grow, entries_are_windows, flush_calls_grow, flushes_go_on, flushes_stay,
    grows_on, points_from_are_enough, refusals_are_said, shows_behind, stored_is_prefix,
    windows_begin, windows_meet, written_is_owned, written_is_stored,
};
