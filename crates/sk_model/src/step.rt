//! The steps of a commit.

/// A step of a commit, in the order in which they are taken. Those of an engine that was not written are left out.
#[derive(Clone, Copy, Debug, PartialEq, Eq)]
pub enum StepName {
    CloseMem,
    CloseStore,
    DrawMem,
    DrawStore,
    Check,
    StampMem,
    StampStore,
}
