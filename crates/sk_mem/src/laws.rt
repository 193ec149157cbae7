//! Laws of the memory engine's journal. Each function has one as its contract, and does nothing.

ghost use Rattle.sk_mem.specs.Journaled.{MemAppliedIsLegal, MemJournalIsLegal};

use crate::engine::MemEngine;
use sk_chain::{Engine, applied_is_legal, journal_is_legal};

/// For every list of calls whose conditions hold, the journal of a memory engine that keeps one is just these calls with their replies, legal and allowed, as long as a journal can have as many entries.
pub fn mem_journal_is_legal()
    ensures { MemJournalIsLegal ⟦<MemEngine as Engine>⟧.stands }
{
    journal_is_legal::<MemEngine>();
}

/// For every list of calls that are applied, whether their conditions hold or not, that journal is just these calls with their replies, and legal.
pub fn mem_applied_is_legal()
    ensures { MemAppliedIsLegal ⟦<MemEngine as Engine>⟧.stands }
{
    applied_is_legal::<MemEngine>();
}
