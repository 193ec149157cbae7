//! What holds of every run. Each function has one law as its contract, and does nothing.

ghost use Rattle.sk_linked.specs.Reads.{GetIsOfView, ScanIsOfView, FirstCommitterWins};
ghost use Rattle.sk_linked.specs.Headline.{LinkedIsOne};
ghost use Rattle.sk_linked.specs.Recorded.{RecordsAreOne, TalksMakeRecords};
ghost use Rattle.sk_linked.specs.Runs.{RunsAreLinked, RunsAreOne, RunsAreFresh, RunsAreDurable};
ghost use Rattle.sk_linked.specs.Explaining.{RunsAreExplained};
ghost use Rattle.sk_linked.specs.Lawful.{UnlawfulIsNotNow, LawfulIsTaken};
ghost use Rattle.sk_linked.specs.Joining.{LinkedOfOwn, OwnStays};
ghost use Rattle.sk_linked.specs.Conduct.{TalksBehave};
ghost use Rattle.sk_linked.specs.Causes.{RefusalsAreCaused};
ghost use Rattle.sk_linked.specs.Kept.{SessionsAreOne};
ghost use Rattle.sk_linked.specs.Alone.{AloneMeetsNobody};

/// A read of one key by a transaction whose snapshots are a pair finds the row that the list's prefix at their place shows, overlaid with the transaction's own writes, whatever is stamped later.
pub fn get_is_of_view()
    ensures { GetIsOfView }
{}

/// A read of a table by such a transaction finds the table that this prefix shows, overlaid with its own writes.
pub fn scan_is_of_view()
    ensures { ScanIsOfView }
{}

/// First committer wins: between the place of a transaction's snapshots and the place where it stands, no commit wrote a row that it wrote.
pub fn first_committer_wins()
    ensures { FirstCommitterWins }
{}

/// Journals, points and transactions that belong together are of one database with one list of commits: each transaction reads one
/// prefix of it with its own writes, the list is exactly what committed and wrote, and the first committer wins.
pub fn linked_is_one()
    ensures { LinkedIsOne }
{}

/// The records of traces that belong together are of one database with the woven list, each at the place of its snapshots, where no session goes back.
pub fn records_are_one()
    ensures { RecordsAreOne }
{}

/// A record whose calls are those of its statements and of its commit's steps is its transaction's.
pub fn talks_make_records()
    ensures { TalksMakeRecords }
{}

/// Whatever its events are, the journals, the points and the transactions of a run belong together.
pub fn runs_are_linked()
    ensures { RunsAreLinked }
{}

/// So every run is of one database with one list of commits.
pub fn runs_are_one()
    ensures { RunsAreOne }
{}

/// So what each transaction's reads were replied are the rows of one prefix of that list, with its own writes before them.
pub fn runs_are_explained()
    ensures { RunsAreExplained }
{}

/// No session goes back: a later transaction reads at least what an earlier one of its session read and drew.
pub fn runs_are_fresh()
    ensures { RunsAreFresh }
{}

/// With stops and openings anywhere, the durable cut is a point of the run, and the prefix at it, from whose rows the next run
/// starts, holds each commit that has ended and waits for no cut.
pub fn runs_are_durable()
    ensures { RunsAreDurable }
{}

/// An event that is not lawful is answered so, and changes nothing.
pub fn unlawful_is_not_now()
    ensures { UnlawfulIsNotNow }
{}

/// In every run an event that is lawful is answered otherwise.
pub fn lawful_is_taken()
    ensures { LawfulIsTaken }
{}

/// What the calls and answers of each session say of it alone, and what the journals, the points and the registry say of all
/// sessions together, make journals, points and transactions that belong together: for any number of sessions, in any order.
pub fn linked_of_own()
    ensures { LinkedOfOwn }
{}

/// What a session says of itself stays so, whatever points others add.
pub fn own_stays()
    ensures { OwnStays }
{}

/// A record whose calls are those of its statements and of its commit's steps shows all that its session has to say of it, where the
/// catalog, the script and the registry say the rest: opening tables, texts that are not too long, a pair of snapshots, and points that
/// stand among the registry's.
pub fn talks_behave()
    ensures { TalksBehave }
{}

/// In traces that belong together each refusal of a record has its cause: what an engine refused, in the engine's table at that entry of
/// its journal; and what the registry refused, in the points and the drawn numbers, where the registry did answer so in a state of the run.
pub fn refusals_are_caused()
    ensures { RefusalsAreCaused }
{}

/// Records with their calls, journals and points that are of one run of sessions are linked and of one database, and each refusal has its
/// cause: for any number of sessions, on one thread or on many.
pub fn sessions_are_one()
    ensures { SessionsAreOne }
{}

/// Where each transaction opens an engine that nobody has open, at a snapshot that no stamped number is past, no write meets a conflict and
/// no read waits: as of one session that makes one transaction after another.
pub fn alone_meets_nobody()
    ensures { AloneMeetsNobody }
{}
