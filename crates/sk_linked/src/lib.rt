//! The state machine of a run over both engines, over every list of events.
#![tactic(auto)]

mod event;
mod laws;
mod record;

pub use event::{CoreReply, Event};
pub use laws::{
    alone_meets_nobody, first_committer_wins, get_is_of_view, lawful_is_taken, linked_is_one,
    linked_of_own, own_stays, records_are_one, refusals_are_caused, runs_are_durable,
    runs_are_explained, runs_are_fresh, runs_are_linked, runs_are_one, scan_is_of_view,
    sessions_are_one, talks_behave, talks_make_records, unlawful_is_not_now,
};
pub use record::{CoreRecord, CoreRecordList, Did, DidList};
