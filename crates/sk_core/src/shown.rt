//! Journals and records as they are handed out.

ghost use Rattle.std.specs.Prelude.{◌≡◌, ◌++◌, ◌∷◌, [], false, IfOk, OnOk, map};
ghost use Rattle.sk_model.specs.Journal.{is_horizon, horizon_entry};
ghost use Rattle.sk_linked.specs.State.{record_of};

use crate::actor::Actor;
use sk_linked::CoreRecordList;
use sk_model::{EngineCall, EngineReply, Entry, Journal, JournalWriter};
use sk_rows::{Copies, List, NoMemory};
use std::alloc::Global;

/// Enters a Horizon that was answered `n`. Where the journal does not take it, which it does from the machine, it counts as want of memory.
#[tactic(auto, using(crate::proofs::Entering::grown))]
fn enter_horizon(writer: &mut JournalWriter, n: u32) -> Result<(), NoMemory>
    ensures { OnOk result (writer.new.entries ≡ writer.old.entries ++ horizon_entry n ∷ []) }
{
    let before = writer.len();
    writer.enter_horizon(n);
    if writer.len() == before {
        Err(NoMemory)
    } else {
        Ok(())
    }
}

/// Enters another call. Behind as many entries as there may be it counts as want of memory.
#[tactic(auto, using(crate::proofs::Entering::grown))]
fn enter_other(alloc: Global, writer: &mut JournalWriter, entry: &Entry) -> Result<(), NoMemory>
    requires { is_horizon entry.now.call ≡ false }
    ensures { OnOk result (writer.new.entries ≡ writer.old.entries ++ entry.now ∷ []) }
{
    let before = writer.len();
    writer.take_room(1)?;
    let entry = entry.copy(alloc)?;
    writer.enter(entry);
    if writer.len() == before {
        Err(NoMemory)
    } else {
        Ok(())
    }
}

fn is_horizon(call: &EngineCall) -> bool
    ensures { result ≡ is_horizon call.now }
{
    matches!(call, EngineCall::Horizon)
}

fn enter(alloc: Global, writer: &mut JournalWriter, entry: &Entry) -> Result<(), NoMemory>
    ensures { OnOk result (writer.new.entries ≡ writer.old.entries ++ entry.now ∷ []) }
{
    match (&entry.call, &entry.reply) {
        (EngineCall::Horizon, EngineReply::Number(n)) => enter_horizon(writer, *n),
        _ => {
            if is_horizon(&entry.call) {
                Err(NoMemory)
            } else {
                enter_other(alloc, writer, entry)
            }
        }
    }
}

/// The journal of these entries.
pub(crate) fn journal_of(alloc: Global, entries: &[Entry]) -> Result<Journal, NoMemory>
    ensures { IfOk result (λ j. j ≡ entries.now) }
{
    let mut writer = JournalWriter::new(alloc);
    for entry in entries {
        enter(alloc, &mut writer, entry)?;
    }
    Ok(writer.into_journal())
}

/// The records of these transactions.
pub(crate) fn records_of(alloc: Global, actors: &[Actor]) -> Result<CoreRecordList, NoMemory>
    ensures { IfOk result (λ rs. rs ≡ map record_of actors.now) }
{
    let mut out = List::new(alloc);
    for actor in actors {
        out.push(actor.record(alloc)?)?;
    }
    Ok(out)
}
