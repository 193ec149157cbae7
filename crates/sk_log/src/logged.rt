//! What a log has in front of a commit, and the commit.

use sk_model::{Commit, Point};

/// A commit that was read from a log, and the place where its record begins, in bytes from the log's start.
#[derive(Debug, Drop)]
pub struct Logged {
    /// The place of the record's first byte.
    pub place: u64,
    /// What the record says.
    pub commit: Commit,
}

/// What stands before a group's records.
#[derive(Clone, Copy, Debug, PartialEq, Eq)]
pub struct Head {
    /// The cut that the group reaches.
    pub cut: Point,
    /// The end of the storage log behind the group, in bytes.
    pub end: u32,
}
