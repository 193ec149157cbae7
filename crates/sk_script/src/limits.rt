//! The limits of scripts.

/// The longest script, in bytes.
pub const LONGEST_SCRIPT: usize = 16_777_216;

/// The longest line, in bytes without its end.
pub const LONGEST_LINE: usize = 4096;

/// Sessions are numbered from 1 to this.
pub const MOST_SESSIONS: u64 = 64;
