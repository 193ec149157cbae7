//! Laws of an engine's journal. Each function has one as its contract, and does nothing.

ghost use Rattle.sk_model.specs.EngineLaws.{JournalGrows, RowsFit, VersionsRise, ReadsSnapshot, OwnWrites, StampedAreCommits, StampedAtSnapshot};
ghost use Rattle.sk_model.specs.Halves.{PartsAreCommits, HalvesAreCommits};
ghost use Rattle.sk_model.specs.Shapes.{RepliesAreTold, WritesArePuts};

/// A legal journal with one more right reply is legal.
pub fn journal_grows()
    ensures { JournalGrows }
{}

/// A row may be put exactly where it fits its table and begins with its key.
pub fn rows_fit()
    ensures { RowsFit }
{}

/// The stamped versions of a row stand in the order of their numbers.
pub fn versions_rise()
    ensures { VersionsRise }
{}

/// A read found what the engine's commits up to its snapshot and the reader's own writes make, whatever is stamped later.
pub fn reads_snapshot()
    ensures { ReadsSnapshot }
{}

/// As long as a transaction is not closed, its own versions are its writes.
pub fn own_writes()
    ensures { OwnWrites }
{}

/// What was stamped is what the engine committed, in the order of the numbers.
pub fn stamped_are_commits()
    ensures { StampedAreCommits }
{}

/// What a stamp stamps was written at the snapshot of its transaction, which is before the number.
pub fn stamped_at_snapshot()
    ensures { StampedAtSnapshot }
{}

/// The commits of an engine are the parts of each list of commits that has the same numbers of the engine and the same writes to its tables.
pub fn parts_are_commits()
    ensures { PartsAreCommits }
{}

/// Commits with the numbers of both engines, of which what an engine stamped are the halves, are that engine's commits.
pub fn halves_are_commits()
    ensures { HalvesAreCommits }
{}

/// Where a record's engine calls are its own, its replies are those of each database that these calls show.
pub fn replies_are_told()
    ensures { RepliesAreTold }
{}

/// Where it committed, what its statements wrote is what it put.
pub fn writes_are_puts()
    ensures { WritesArePuts }
{}
