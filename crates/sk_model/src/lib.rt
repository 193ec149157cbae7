//! One database with one list of commits: the definitions on which every promise rests, and the types that layers share.
#![tactic(auto)]

mod call;
mod commit;
mod engine;
mod journal;
mod label;
mod laws;
mod point;
mod prefixes;
mod receipt;
mod record;
mod reply;
mod step;
mod tables;

pub use call::{EngineCall, EngineFault, EngineReply, Entry};
pub use commit::{Commit, CommitList, Write, WriteList};
pub use engine::{EngineName, GREATEST_NUMBER};
pub use journal::{HorizonRun, Journal, JournalPart, JournalWriter};
pub use label::Label;
pub use laws::{
    halves_are_commits, journal_grows, own_writes, parts_are_commits, reads_snapshot,
    replies_are_told, rows_fit, stamped_are_commits, stamped_at_snapshot, versions_rise,
    writes_are_puts,
};
pub use point::{Point, PointList, Recycled};
pub use prefixes::PlaceList;
pub use receipt::{FlushFault, Need, Receipt, ReceiptList};
pub use record::{Ending, Record, RecordList, Said, SaidList, TxKind};
pub use reply::{ErrWord, Reply, ReplyList, RowList, Why};
pub use step::StepName;
pub use tables::{KeyedRows, Tables};

#[cfg(test)]
mod tests;
