//! Laws of engines. Each function has one as its contract, and does nothing.

ghost use Rattle.sk_chain.specs.Runs.{CallsAreLegal};
ghost use Rattle.sk_chain.specs.Noting.{JournalIsLegal};
ghost use Rattle.sk_chain.specs.Applying.{AppliedIsLegal, AppliedStaysLegal};

use crate::engine::Engine;

/// Of an engine that is told what its device reads, the entries of calls whose conditions held are legal and allowed.
pub fn calls_are_legal<G: Engine>()
    ensures { CallsAreLegal G.told G.faults G.stands }
{}

/// The journal of such an engine is these entries, for every list of calls that meet their conditions.
pub fn journal_is_legal<G: Engine>()
    ensures { JournalIsLegal G.told G.faults G.stands }
{}

/// Of such an engine, a call that is applied keeps the entries legal, whether its condition holds or not.
pub fn applied_stays_legal<G: Engine>()
    ensures { AppliedStaysLegal G.told G.faults G.stands }
{}

/// Of such an engine that keeps a journal, for every list of calls that are applied the journal is these calls with their replies, and legal.
pub fn applied_is_legal<G: Engine>()
    ensures { AppliedIsLegal G.told G.faults G.stands }
{}
