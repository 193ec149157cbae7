//! What the sessions of a run keep together, call by call, whatever desk answers them; so each run is of one database.
#![tactic(auto)]

mod laws;

pub use laws::{
    asks_keep, cuts_keep, first_is_run, flush_calls_keep, found_is_fresh, paused_is_one,
    plays_are_played, takes_keep,
};
