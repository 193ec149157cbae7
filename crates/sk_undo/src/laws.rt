//! Laws of undo records. Each function has one as its contract, and does nothing.

ghost use Rattle.sk_undo.specs.Laws.{ClaimShows, CutKeeps, DropKeeps, FillRows, FillShows, PushKeeps, TrimKeeps};

/// A record that is added changes nothing of what paths from other places show.
pub fn push_keeps()
    ensures { PushKeeps }
{}

/// A trim leaves each path what snapshots from its number on see of it.
pub fn trim_keeps()
    ensures { TrimKeeps }
{}

/// A cut leaves each path what snapshots from its number on see of it.
pub fn cut_keeps()
    ensures { CutKeeps }
{}

/// A path that goes leaves every other path what it shows.
pub fn drop_keeps()
    ensures { DropKeeps }
{}

/// A place that is claimed changes nothing of what is seen.
pub fn claim_shows()
    ensures { ClaimShows }
{}

/// From a record that is added, its row is seen from its number on, and before it what was seen from its older one.
pub fn fill_shows()
    ensures { FillShows }
{}

/// Where a record is added, the row of each place is the new one or the one of before.
pub fn fill_rows()
    ensures { FillRows }
{}
