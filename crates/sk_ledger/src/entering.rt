//! The puts of a journal that were done, by the transactions that made them.

ghost use Rattle.std.specs.Prelude.{◌≡◌, ◌∷◌, ◌++◌, [], List, IfOk, OnOk, map};
ghost use Rattle.sk_model.specs.declared.label.Label.{Label as AnyLabel};
ghost use Rattle.sk_model.specs.declared.call.Entry.{Entry as AnyEntry};
ghost use Rattle.sk_model.specs.Talks.{is_done};
ghost use Rattle.sk_ledger.specs.Puts.{put_of, puts_at, with_put, HasPuts};

use sk_model::{EngineCall, EngineReply, Entry, Journal, JournalPart, Label, Write, WriteList};
use sk_rows::{Copies, NoMemory};
use std::alloc::Global;
use std::collections::BTreeMap;

/// What each transaction wrote that has a put that was done.
pub(crate) type Puts = BTreeMap<Label, WriteList>;

fn is_done(reply: &EngineReply) -> bool
    ensures { result ≡ is_done reply.now }
{
    match reply {
        EngineReply::Done => true,
        EngineReply::Found(_)
        | EngineReply::Rows(_)
        | EngineReply::Number(_)
        | EngineReply::Commits(_)
        | EngineReply::Fault(_) => false,
    }
}

/// Whose put the call is and what it writes, where it is one that was done.
fn put_of(alloc: Global, entry: &Entry) -> Result<Option<(Label, Write)>, NoMemory>
    ensures { IfOk result (λ put. put ≡ put_of entry.now) }
{
    match &entry.call {
        EngineCall::Put {
            tx,
            table,
            key,
            row,
        } => {
            if is_done(&entry.reply) {
                let write = Write {
                    table: *table,
                    key: key.copy(alloc)?,
                    row: row.copy(alloc)?,
                };
                Ok(Some((*tx, write)))
            } else {
                Ok(None)
            }
        }
        EngineCall::Open { .. }
        | EngineCall::Get { .. }
        | EngineCall::Scan { .. }
        | EngineCall::Close { .. }
        | EngineCall::Stamp { .. }
        | EngineCall::Void { .. }
        | EngineCall::DropTx { .. }
        | EngineCall::Horizon
        | EngineCall::Records { .. }
        | EngineCall::Purge { .. } => Ok(None),
    }
}

/// A list for the writes of this transaction, where there is none.
fn prepare(alloc: Global, puts: &mut Puts, tx: Label) -> Result<(), NoMemory>
    ensures { OnOk result ((q : AnyLabel) → puts_at puts.new.entries q ≡ puts_at puts.old.entries q) }
{
    if !puts.contains_key(&tx) {
        puts.insert(tx, WriteList::new(alloc))?;
    }
    Ok(())
}

/// One write more of this transaction, whose list is there.
fn push(puts: &mut Puts, tx: Label, write: Write) -> Result<(), NoMemory>
    ensures { OnOk result ((q : AnyLabel) → puts_at puts.new.entries q ≡ with_put q tx write (puts_at puts.old.entries q)) }
{
    match puts.get_mut(&tx) {
        Some(writes) => Ok(writes.push(write)?),
        None => Err(NoMemory),
    }
}

/// Enters one more entry of the journal.
fn enter(alloc: Global, puts: &mut Puts, entry: &Entry) -> Result<(), NoMemory>
    ensures { OnOk result ((js : List AnyEntry) → HasPuts puts.old.entries js → HasPuts puts.new.entries (js ++ entry.now ∷ [])) }
{
    if let Some((tx, write)) = put_of(alloc, entry)? {
        prepare(alloc, puts, tx)?;
        push(puts, tx, write)?;
    }
    Ok(())
}

fn enter_all(alloc: Global, parts: &[JournalPart]) -> Result<Puts, NoMemory>
    ensures { IfOk result (λ puts. HasPuts puts.entries (map (λ part. part.entry) parts.now)) }
{
    let mut puts = BTreeMap::new(alloc);
    for part in parts {
        enter(alloc, &mut puts, &part.entry)?;
    }
    Ok(puts)
}

/// The writes of all puts of the journal that were done, by transaction and in their order.
pub(crate) fn puts_in(alloc: Global, journal: &Journal) -> Result<Puts, NoMemory>
    ensures { IfOk result (λ puts. HasPuts puts.entries journal.now) }
{
    enter_all(alloc, journal.as_parts().0)
}
