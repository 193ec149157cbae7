//! Laws of what a run records. Each function has one as its contract, and does nothing.

ghost use Rattle.sk_recorded.specs.Entries.{PointsFromAreEnough};
ghost use Rattle.sk_recorded.specs.Flushes.{FlushesGoOn, FlushesStay};
ghost use Rattle.sk_recorded.specs.Growing.{AnsweredGrows, CutsGrow, FlushCallsGrow, GrowsOn};
ghost use Rattle.sk_recorded.specs.Recorded.{EntriesAreWindows};
ghost use Rattle.sk_recorded.specs.Refused.{RefusalsAreSaid};
ghost use Rattle.sk_recorded.specs.Windows.{WindowsBegin, WindowsMeet};
ghost use Rattle.sk_recorded.specs.Written.{ShowsBehind, StoredIsPrefix, WrittenIsOwned, WrittenIsStored};

/// What an engine answered of its commits at any moment of a run, joined by points that are enough, is that window of its commits in the run's one list, however long the run went on.
pub fn entries_are_windows()
    ensures { EntriesAreWindows }
{}

/// Of the points at some moment, those from a cut on are enough to join the commits past it and up to a later cut.
pub fn points_from_are_enough()
    ensures { PointsFromAreEnough }
{}

/// Two windows one behind the other are one.
pub fn windows_meet()
    ensures { WindowsMeet }
{}

/// The window from where the numbers begin is all that is up to its end.
pub fn windows_begin()
    ensures { WindowsBegin }
{}

/// At each point of a run, what each engine committed up to it makes the tables that the one list shows there.
pub fn stored_is_prefix()
    ensures { StoredIsPrefix }
{}

/// What flushes wrote, one behind the other from the first point on, is all that each engine committed up to the last cut, and makes the tables that the one list shows there.
pub fn written_is_stored()
    ensures { WrittenIsStored }
{}

/// What flushes wrote of each engine is of its own tables.
pub fn written_is_owned()
    ensures { WrittenIsOwned }
{}

/// Where a run began with the tables of an image and of both engines' logs, these with its flushes behind them make the tables that the one list shows at the last cut.
pub fn shows_behind()
    ensures { ShowsBehind }
{}

/// Flushes stay what they are while the run goes on.
pub fn flushes_stay()
    ensures { FlushesStay }
{}

/// A flush that goes on from the last cut is one more, and wrote its commits behind those of the others.
pub fn flushes_go_on()
    ensures { FlushesGoOn }
{}

/// What is common to the sessions of a run grows to itself, and what has grown grows on.
pub fn grows_on()
    ensures { GrowsOn }
{}

/// By a call of a session that was answered both journals and the points keep what they had, and at most gain more behind it.
pub fn answered_grows()
    ensures { AnsweredGrows }
{}

/// So does a call of a flush or a purge.
pub fn flush_calls_grow()
    ensures { FlushCallsGrow }
{}

/// And so does a flush's cut.
pub fn cuts_grow()
    ensures { CutsGrow }
{}

/// What the records of a run say that the registry refused, a check, a selection or a draw, it refused in a state that the run came through.
pub fn refusals_are_said()
    ensures { RefusalsAreSaid }
{}
