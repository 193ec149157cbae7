//! Why a flush of a run was refused.

use sk_model::FlushFault;

/// Why nothing more was made durable.
#[derive(Clone, Copy, Debug, PartialEq, Eq)]
pub enum Refused {
    /// The logs refused it.
    Flush(FlushFault),
    /// The batch is no group that an opened store obeys. Nothing was done.
    Unlawful,
}
