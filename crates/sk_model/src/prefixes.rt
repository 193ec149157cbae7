//! Prefixes of the list of commits.

use sk_rows::List;

/// Lengths of prefixes of the list of commits, one a record.
pub type PlaceList = List<u32>;
