//! The law of the storage engine's journal. The function has it as its contract, and does nothing.

ghost use Rattle.sk_store.specs.Journaled.{StoreJournalIsLegal};

use crate::engine::StoreEngine;
use sk_chain::{Engine, journal_is_legal};

/// For every list of calls whose conditions hold, the journal of a storage engine that keeps one is just these calls with their replies, legal and allowed, as long as a journal can have as many entries.
pub fn store_journal_is_legal()
    ensures { StoreJournalIsLegal ⟦<StoreEngine as Engine>⟧.stands }
{
    journal_is_legal::<StoreEngine>();
}
