//! Calls of an engine with a journal, whether their conditions hold or not.

ghost use Rattle.std.specs.Prelude.{◌≡◌, true, false, is_some, IfOk, OnOk, OnErr};
ghost use Rattle.sk_model.specs.declared.call.EngineReply.TheVariants.{Done, Found, Rows, Number, Commits};
ghost use Rattle.sk_model.specs.EngineConditions.{empty_of};
ghost use Rattle.sk_model.specs.Journal.{is_horizon, entered};
ghost use Rattle.sk_chain.specs.Promise.{replied, entry_of, Meets, Serves};
ghost use Rattle.sk_chain.specs.Noting.{engine_of, noted_stands};
ghost use Rattle.sk_chain.specs.Applying.{IsInUse, Applies, entered_reply, takes_memory};

use crate::engine::Engine;
use crate::noted::Noted;
use sk_model::{CommitList, EngineCall, EngineFault, EngineReply, Entry, JournalWriter, KeyedRows};
use sk_rows::{NoMemory, Row};
use std::alloc::Global;

fn done_reply(answer: Result<(), EngineFault>) -> EngineReply
    ensures { entered_reply result ≡ replied (λ _. Done) answer }
{
    match answer {
        Ok(()) => EngineReply::Done,
        Err(fault) => EngineReply::Fault(fault),
    }
}

fn found_reply(answer: Result<Option<Row>, EngineFault>) -> EngineReply
    ensures { entered_reply result ≡ replied Found answer }
{
    match answer {
        Ok(row) => EngineReply::Found(row),
        Err(fault) => EngineReply::Fault(fault),
    }
}

fn rows_reply(answer: Result<KeyedRows, EngineFault>) -> EngineReply
    ensures { entered_reply result ≡ replied Rows answer }
{
    match answer {
        Ok(rows) => EngineReply::Rows(rows),
        Err(fault) => EngineReply::Fault(fault),
    }
}

fn number_reply(answer: Result<u32, EngineFault>) -> EngineReply
    ensures { entered_reply result ≡ replied Number answer }
{
    match answer {
        Ok(n) => EngineReply::Number(n),
        Err(fault) => EngineReply::Fault(fault),
    }
}

fn commits_reply(answer: Result<CommitList, EngineFault>) -> EngineReply
    ensures { entered_reply result ≡ replied Commits answer }
{
    match answer {
        Ok(commits) => EngineReply::Commits(commits),
        Err(fault) => EngineReply::Fault(fault),
    }
}

/// The reply to a call whose condition does not hold.
fn empty_reply(alloc: Global, call: &EngineCall) -> EngineReply
    ensures { result ≡ empty_of call.now }
{
    match call {
        EngineCall::Get { .. } => EngineReply::Found(None),
        EngineCall::Scan { .. } => EngineReply::Rows(KeyedRows::new(alloc)),
        EngineCall::Close { .. } => EngineReply::Number(0),
        EngineCall::Records { .. } => EngineReply::Commits(CommitList::new(alloc)),
        EngineCall::Open { .. }
        | EngineCall::Put { .. }
        | EngineCall::Stamp { .. }
        | EngineCall::Void { .. }
        | EngineCall::DropTx { .. }
        | EngineCall::Horizon
        | EngineCall::Purge { .. } => EngineReply::Done,
    }
}

/// Enters a call that is not made, with the empty reply of its kind. Where there is no memory for its entry, it is not entered.
fn pass_over(
    alloc: Global,
    journal: &mut JournalWriter,
    call: EngineCall,
) -> Result<EngineReply, NoMemory>
    requires { is_horizon call ≡ false }
    ensures reply { IfOk result (λ reply. reply ≡ empty_of call) }
    ensures ok { OnOk result (journal.new ≡ record { entries = entered journal.old.entries (entry_of call (empty_of call)); room = journal.old.room }) }
    ensures err { OnErr result (journal.new ≡ journal.old) }
{
    journal.take_room(1)?;
    let answer = empty_reply(alloc, &call);
    let reply = empty_reply(alloc, &call);
    journal.enter(Entry { call, reply });
    Ok(answer)
}

impl<G: Engine + Drop> Noted<G> {
    /// Makes a call whose condition holds, and answers the reply.
    fn make(&mut self, call: EngineCall) -> EngineReply
        requires { Meets (noted_stands G.stands) self.old call }
        ensures serves { Serves G.told (λ s. G.faults (engine_of s)) (noted_stands G.stands) self.old self.new call (entered_reply result) }
        ensures steady { takes_memory call ≡ false → is_some (entered_reply result) ≡ true }
    {
        match call {
            EngineCall::Open { tx, snapshot } => done_reply(self.open(tx, snapshot)),
            EngineCall::Get { tx, table, key } => found_reply(self.get(tx, table, &key)),
            EngineCall::Scan { tx, table } => rows_reply(self.scan(tx, table)),
            EngineCall::Put {
                tx,
                table,
                key,
                row,
            } => done_reply(self.put(tx, table, &key, row)),
            EngineCall::Close { tx } => number_reply(self.close(tx)),
            EngineCall::Stamp { tx, n } => {
                self.stamp(tx, n);
                EngineReply::Done
            }
            EngineCall::Void { tx, n } => {
                self.void(tx, n);
                EngineReply::Done
            }
            EngineCall::DropTx { tx } => {
                self.drop_tx(tx);
                EngineReply::Done
            }
            EngineCall::Horizon => EngineReply::Number(self.horizon()),
            EngineCall::Records { from, to } => commits_reply(self.records(from, to)),
            EngineCall::Purge { upto } => number_reply(self.purge(upto)),
        }
    }

    /// Makes a call if its condition holds, and enters it with the reply, which it answers too.
    ///
    /// A call whose condition does not hold is not made, and is entered with the empty reply of its kind. Where memory is wanted in vain, nothing is changed or entered, and the answer is `Fault(NoMemory)`; a Stamp, Void or DropTx whose condition holds, and a Horizon, take none.
    pub fn apply(&mut self, call: EngineCall) -> EngineReply
        requires { IsInUse (noted_stands G.stands) self.old }
        ensures in_use { IsInUse (noted_stands G.stands) self.new }
        ensures applies { Applies G.told (λ s. G.faults (engine_of s)) (noted_stands G.stands) self.old self.new call (entered_reply result) }
    {
        if self.may(&call) {
            return self.make(call);
        }
        match pass_over(self.alloc, &mut self.journal, call) {
            Ok(reply) => reply,
            Err(NoMemory) => EngineReply::Fault(EngineFault::NoMemory),
        }
    }
}
