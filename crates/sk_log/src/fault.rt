//! Why nothing was appended.

use thiserror::Error;

/// Why a log was not written.
#[derive(Clone, Copy, Debug, PartialEq, Eq, Drop, Error)]
pub enum LogFault {
    /// The device failed.
    #[error("the device failed")]
    Device,
    /// The log would have this length in bytes, which is too long. Nothing was written.
    #[error("the log would be {length} bytes long")]
    LogFull { length: u64 },
}
