//! Labels of transactions.

/// Names one transaction of a run: the number of its session, and its number among that session's transactions, from 1.
#[derive(Clone, Copy, Debug, PartialEq, Eq, PartialOrd, Ord)]
pub struct Label {
    pub session: u16,
    pub k: u32,
}
