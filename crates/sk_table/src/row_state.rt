//! How a version stands.

ghost use Rattle.std.specs.Prelude.{◌≡◌};
ghost use Rattle.sk_model.specs.Engine.{is_upto, is_open, is_closed_below, is_undecided, is_stamped};
ghost use Rattle.sk_model.specs.EngineReplies.{why_undecided, stamps};
ghost use Rattle.sk_table.specs.RowState.{state_of};

use sk_model::Why;

/// How a version of a row stands.
#[derive(Clone, Copy, Debug, PartialEq, Eq)]
pub enum RowState {
    /// Its transaction is live.
    Open,
    /// Its transaction is closed, and its number will be past this floor.
    Closed(u32),
    /// Its transaction committed with this number.
    Stamped(u32),
    /// Its transaction left.
    Dropped,
}

/// Whether it is stamped with a number up to `snapshot`.
pub(crate) fn is_upto(snapshot: u32, standing: RowState) -> bool
    ensures { result ≡ is_upto snapshot (state_of standing) }
{
    match standing {
        RowState::Stamped(n) => n <= snapshot,
        RowState::Open | RowState::Closed(_) | RowState::Dropped => false,
    }
}

pub(crate) fn is_open(standing: RowState) -> bool
    ensures { result ≡ is_open (state_of standing) }
{
    match standing {
        RowState::Open => true,
        RowState::Closed(_) | RowState::Stamped(_) | RowState::Dropped => false,
    }
}

/// Whether it is closed with a floor below `snapshot`.
pub(crate) fn is_closed_below(snapshot: u32, standing: RowState) -> bool
    ensures { result ≡ is_closed_below snapshot (state_of standing) }
{
    match standing {
        RowState::Closed(floor) => floor < snapshot,
        RowState::Open | RowState::Stamped(_) | RowState::Dropped => false,
    }
}

/// Whether its transaction is live or closed.
pub(crate) fn is_undecided(standing: RowState) -> bool
    ensures { result ≡ is_undecided (state_of standing) }
{
    match standing {
        RowState::Open | RowState::Closed(_) => true,
        RowState::Stamped(_) | RowState::Dropped => false,
    }
}

pub(crate) fn is_stamped(standing: RowState) -> bool
    ensures { result ≡ is_stamped (state_of standing) }
{
    match standing {
        RowState::Stamped(_) => true,
        RowState::Open | RowState::Closed(_) | RowState::Dropped => false,
    }
}

/// Whether it is stamped with this number.
pub(crate) fn is_stamped_with(n: u32, standing: RowState) -> bool
    ensures { result ≡ stamps n (state_of standing) }
{
    match standing {
        RowState::Stamped(m) => n == m,
        RowState::Open | RowState::Closed(_) | RowState::Dropped => false,
    }
}

/// Why a write that meets it is refused.
pub(crate) fn why_undecided(standing: RowState) -> Why
    ensures { result ≡ why_undecided (state_of standing) }
{
    match standing {
        RowState::Closed(_) => Why::Closed,
        RowState::Open | RowState::Stamped(_) | RowState::Dropped => Why::Open,
    }
}
