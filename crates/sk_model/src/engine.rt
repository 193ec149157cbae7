//! The two engines.

/// An engine: the one in memory, or the one on pages and disk.
#[derive(Clone, Copy, Debug, PartialEq, Eq)]
pub enum EngineName {
    Mem,
    Store,
}

/// The greatest number of an engine: behind it a counter is spent.
pub const GREATEST_NUMBER: u32 = 2_147_483_647;
