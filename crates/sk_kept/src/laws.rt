//! Laws of the sessions of a run. Each function has one as its contract, and does nothing.

ghost use Rattle.sk_kept.specs.Beginnings.{FirstIsRun};
ghost use Rattle.sk_kept.specs.Running.{TakesKeep, AsksKeep};
ghost use Rattle.sk_kept.specs.Playing.{PlaysArePlayed};
ghost use Rattle.sk_kept.specs.Freshness.{FoundIsFresh};
ghost use Rattle.sk_kept.specs.Ended.{PausedIsOne};
ghost use Rattle.sk_kept.specs.Flushing.{FlushCallsKeep, CutsKeep};

/// What holds of all sessions at every moment holds at first, where each has had no transaction.
pub fn first_is_run()
    ensures { FirstIsRun }
{}

/// A call that the engines or the registry answered keeps it, whoever's transaction made it.
pub fn takes_keep()
    ensures { TakesKeep }
{}

/// A statement keeps it, whether a transaction begins with it or goes on.
pub fn asks_keep()
    ensures { AsksKeep }
{}

/// An engine's answer to a flush or a purge keeps it, wherever the sessions stand.
pub fn flush_calls_keep()
    ensures { FlushCallsKeep }
{}

/// A flush's cut keeps it, and the point that it may add.
pub fn cuts_keep()
    ensures { CutsKeep }
{}

/// Records with their calls, of which it holds, are what a run of sessions keeps.
pub fn plays_are_played()
    ensures { PlaysArePlayed }
{}

/// No session goes back: each transaction reads what the earlier ones of its session read and committed.
pub fn found_is_fresh()
    ensures { FoundIsFresh }
{}

/// A run whose sessions are all between two lines is of one database, with the list that is woven from its points and its committed writers.
pub fn paused_is_one()
    ensures { PausedIsOne }
{}
