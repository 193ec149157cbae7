//! Laws of sweeps. Each function has one as its contract, and does nothing.

ghost use Rattle.sk_recycle.specs.SweepLaws.{SweepIsBounded, StartIsBehind, SweepStaysBehind, StepsStayBehind, SelectionIsOpen};

/// A sweep raises the purge horizon at most to the oldest live point's and the cut's number of that engine, and never lowers it.
pub fn sweep_is_bounded()
    ensures { SweepIsBounded }
{}

/// The purge horizon of an engine that begins at the first point's number is not past the oldest live point.
pub fn start_is_behind()
    ensures { StartIsBehind }
{}

/// A sweep up to the oldest live point leaves it so.
pub fn sweep_stays_behind()
    ensures { SweepStaysBehind }
{}

/// Each right step of the registry leaves it so.
pub fn steps_stay_behind()
    ensures { StepsStayBehind }
{}

/// So what is selected is never below a purge horizon when it is selected: neither engine refuses it as too old.
pub fn selection_is_open()
    ensures { SelectionIsOpen }
{}
