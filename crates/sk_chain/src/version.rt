//! One version of a row, and what reads and writes make of it.

ghost use Rattle.std.specs.Prelude.{◌≡◌};
ghost use Rattle.sk_model.specs.Records.{same_label};
ghost use Rattle.sk_chain.specs.Reading.{is_upto, is_closed_below};
ghost use Rattle.sk_chain.specs.Writing.{why_of, past_version};
ghost use Rattle.sk_chain.specs.Changing.{is_closed, closed_state};

use sk_model::{Label, Why};
use sk_rows::Row;

/// How a version stands.
#[derive(Clone, Copy, Debug, PartialEq, Eq)]
pub enum VersionState {
    /// Its transaction is live.
    Open,
    /// Its transaction is committing, with a number past the floor.
    Closed { floor: u32 },
    /// Its transaction committed with this number.
    Stamped { n: u32 },
}

/// What one transaction wrote to a row.
#[derive(Debug, Drop)]
pub struct Version {
    pub by: Label,
    pub state: VersionState,
    /// The row, or `None` where it is deleted.
    pub row: Option<Row>,
}

/// What a reader sees of a row.
#[derive(Clone, Copy, Debug, PartialEq, Eq)]
pub enum Seen {
    /// The version at this index, counted from 0, the oldest one that stands.
    At(u32),
    /// No version.
    Nothing,
    /// It has to wait: this transaction is committing, maybe with a number that the reader should see.
    Busy { by: Label },
}

/// Whom a write meets.
#[derive(Clone, Copy, Debug, PartialEq, Eq)]
pub struct Blocked {
    pub by: Label,
    pub why: Why,
}

/// Whether two labels are one.
pub(crate) fn same_label(a: Label, b: Label) -> bool
    ensures { result ≡ same_label a b }
{
    a.session == b.session && a.k == b.k
}

/// Whether the version is stamped with a number of at most the snapshot.
pub(crate) fn is_upto(snapshot: u32, state: VersionState) -> bool
    ensures { result ≡ is_upto snapshot state }
{
    match state {
        VersionState::Stamped { n } => n <= snapshot,
        _ => false,
    }
}

/// Whether the version is closed, and its number may be one of at most the snapshot.
pub(crate) fn is_closed_below(snapshot: u32, state: VersionState) -> bool
    ensures { result ≡ is_closed_below snapshot state }
{
    match state {
        VersionState::Closed { floor } => floor < snapshot,
        _ => false,
    }
}

/// Why a write is refused that meets another's version which is not stamped.
pub(crate) fn why_of(state: VersionState) -> Why
    ensures { result ≡ why_of state }
{
    match state {
        VersionState::Closed { .. } => Why::Closed,
        _ => Why::Open,
    }
}

/// Whom a write at the snapshot meets in a stamped version.
pub(crate) fn past_version(snapshot: u32, version: &Version) -> Option<Blocked>
    ensures { result ≡ past_version snapshot version.now }
{
    match version.state {
        VersionState::Stamped { n } if snapshot < n => Some(Blocked {
            by: version.by,
            why: Why::Past {
                number: n,
                snapshot,
            },
        }),
        _ => None,
    }
}

/// Whether the version is closed.
pub(crate) fn is_closed(state: VersionState) -> bool
    ensures { result ≡ is_closed state }
{
    matches!(state, VersionState::Closed { .. })
}

/// How a version stands after a close.
pub(crate) fn closed_state(floor: u32, state: VersionState) -> VersionState
    ensures { result ≡ closed_state floor state }
{
    match state {
        VersionState::Open => VersionState::Closed { floor },
        other => other,
    }
}
