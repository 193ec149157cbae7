//! Laws of how far a flush reaches. Each function has one as its contract, and does nothing.

ghost use Rattle.sk_run.specs.Reaching.{DecidedIsReached};

/// Where all numbers that were drawn are decided, a flush may reach both counters.
pub fn decided_is_reached()
    ensures { DecidedIsReached }
{}
