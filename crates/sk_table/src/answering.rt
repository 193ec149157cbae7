//! What the table replies to a call, and what an entry makes of it.

ghost use Rattle.std.specs.Prelude.{◌≡◌, IfOk};
ghost use Rattle.sk_model.specs.declared.call.EngineCall.TheVariants as call;
ghost use Rattle.sk_model.specs.EngineReplies.{answer_of};
ghost use Rattle.sk_model.specs.EngineConditions.{empty_of};
ghost use Rattle.sk_model.specs.Legal.{is_refusal, step, due, after_entries};

use crate::table::EngineTable;
use sk_model::{CommitList, EngineCall, EngineFault, EngineReply, Entry, KeyedRows, Label, Write};
use sk_rows::{Copies, NoMemory, Row, Value};
use std::alloc::Global;

/// The reply to a call whose condition does not hold.
fn empty_of(alloc: Global, call: &EngineCall) -> EngineReply
    ensures { result ≡ empty_of call.now }
{
    match call {
        EngineCall::Get { .. } => EngineReply::Found(None),
        EngineCall::Scan { .. } => EngineReply::Rows(KeyedRows::new(alloc)),
        EngineCall::Close { .. } => EngineReply::Number(0),
        EngineCall::Records { .. } => EngineReply::Commits(CommitList::new(alloc)),
        EngineCall::Open { .. }
        | EngineCall::Put { .. }
        | EngineCall::Stamp { .. }
        | EngineCall::Void { .. }
        | EngineCall::DropTx { .. }
        | EngineCall::Horizon
        | EngineCall::Purge { .. } => EngineReply::Done,
    }
}

fn is_refusal(reply: &EngineReply) -> bool
    ensures { result ≡ is_refusal reply.now }
{
    match reply {
        EngineReply::Fault(_) => true,
        EngineReply::Done
        | EngineReply::Found(_)
        | EngineReply::Rows(_)
        | EngineReply::Number(_)
        | EngineReply::Commits(_) => false,
    }
}

impl EngineTable {
    fn open_answer(&self, tx: Label, snapshot: u32) -> EngineReply
        ensures { result ≡ answer_of self.now (call.Open tx snapshot) }
    {
        if snapshot < self.purged {
            EngineReply::Fault(EngineFault::Old {
                snapshot,
                horizon: self.purged,
            })
        } else {
            EngineReply::Done
        }
    }

    fn write_answer(
        &self,
        alloc: Global,
        tx: Label,
        table: u16,
        key: &Value,
        row: &Option<Row>,
    ) -> Result<EngineReply, NoMemory>
        ensures { IfOk result (λ reply. reply ≡ answer_of self.now (call.Put tx table key.now row.now)) }
    {
        let write = Write {
            table,
            key: key.copy(alloc)?,
            row: row.copy(alloc)?,
        };
        Ok(self.put_answer(tx, &write))
    }

    /// The reply to a call whose condition holds.
    fn answer_of(&self, alloc: Global, call: &EngineCall) -> Result<EngineReply, NoMemory>
        ensures { IfOk result (λ reply. reply ≡ answer_of self.now call.now) }
    {
        match call {
            EngineCall::Open { tx, snapshot } => Ok(self.open_answer(*tx, *snapshot)),
            EngineCall::Get { tx, table, key } => self.got(alloc, *tx, *table, key),
            EngineCall::Scan { tx, table } => self.scanned(alloc, *tx, *table),
            EngineCall::Put {
                tx,
                table,
                key,
                row,
            } => self.write_answer(alloc, *tx, *table, key, row),
            EngineCall::Close { tx: _ } => Ok(EngineReply::Number(self.greatest)),
            EngineCall::Stamp { .. } | EngineCall::Void { .. } | EngineCall::DropTx { .. } => {
                Ok(EngineReply::Done)
            }
            EngineCall::Horizon => Ok(EngineReply::Number(self.horizon_of()?)),
            EngineCall::Records { from, to } => Ok(EngineReply::Commits(self.commits_between(
                alloc, *from, *to,
            )?)),
            EngineCall::Purge { upto } => Ok(EngineReply::Number(self.purged_to(*upto)?)),
        }
    }

    /// The reply that a call should have: the table's where its condition holds, and else the empty one of its kind.
    pub fn due(&self, alloc: Global, call: &EngineCall) -> Result<EngineReply, NoMemory>
        ensures { IfOk result (λ reply. reply ≡ due self.now call.now) }
    {
        if self.may(call)? {
            self.answer_of(alloc, call)
        } else {
            Ok(empty_of(alloc, call))
        }
    }

    /// The table after an entry: a call that was refused, or whose condition does not hold, changes nothing.
    pub fn step(self, alloc: Global, entry: &Entry) -> Result<EngineTable, NoMemory>
        ensures { IfOk result (λ t. t ≡ step self entry.now) }
    {
        if self.may(&entry.call)? && !is_refusal(&entry.reply) {
            self.change(alloc, &entry.call)
        } else {
            Ok(self)
        }
    }
}

/// The table after these entries, one after another.
pub fn after_entries(
    alloc: Global,
    table: EngineTable,
    entries: &[Entry],
) -> Result<EngineTable, NoMemory>
    ensures { IfOk result (λ t. t ≡ after_entries table entries.now) }
{
    let mut after = table;
    for entry in entries {
        after = after.step(alloc, entry)?;
    }
    Ok(after)
}
