//! An engine with a journal of its calls.

ghost use Rattle.std.specs.Prelude.{◌≡◌, ◌<◌, [], false, List, length};
ghost use Rattle.sk_model.specs.declared.call.Entry.{Entry};
ghost use Rattle.sk_model.specs.Engine.{EngineTable};
ghost use Rattle.sk_model.specs.Journal.{is_horizon};
ghost use Rattle.sk_chain.specs.Noting.{engine_of, journal_of, noted_stands, noted};

use crate::engine::Engine;
use crate::replies::{commits, done, found, number, refused, rows};
use sk_model::{
    CommitList, EngineCall, EngineFault, EngineReply, Entry, Journal, JournalWriter, KeyedRows,
    Label,
};
use sk_rows::{Copies, NoMemory, Row, Value};
use std::alloc::Global;

/// An engine that keeps a journal: one entry a call, in order. A call that is refused for memory is not entered.
///
/// Room for an entry is taken before the call, and room for the end of an opening when it begins, so `stamp`, `void`, `drop_tx` and `horizon` take no memory.
#[derive(Debug, Drop)]
pub struct Noted<G> {
    engine: G,
    pub(crate) journal: JournalWriter,
    pub(crate) alloc: Global,
}

impl<G: Engine + Drop> Noted<G> {
    /// The engine, with no entry yet. No transaction has opened it.
    pub fn new(alloc: Global, engine: G) -> Noted<G>
        ensures engine { engine_of result ≡ engine }
        ensures journal { journal_of result ≡ [] }
        ensures stands { (e : EngineTable) (js : List Entry) → G.stands engine e js → e.openings ≡ [] → noted_stands G.stands result e [] }
    {
        Noted {
            engine,
            journal: JournalWriter::new(alloc),
            alloc,
        }
    }

    /// How many entries the journal has.
    pub fn entries(&self) -> u64
        ensures { result ≡ length (journal_of self.now) }
    {
        self.journal.len()
    }

    /// The engine and its journal.
    pub fn into_parts(self) -> (G, Journal)
        ensures engine { result.0 ≡ engine_of self }
        ensures journal { result.1 ≡ journal_of self }
    {
        let Noted {
            engine,
            journal,
            alloc: _,
        } = self;
        (engine, journal.into_journal())
    }
}

/// Enters a call in room that was taken for it. Where memory was wanted, it is not entered, and gives its room back.
fn note(journal: &mut JournalWriter, call: EngineCall, reply: Option<EngineReply>)
    requires room { 0 < journal.old.room }
    requires other { is_horizon call ≡ false }
    ensures { journal.new ≡ noted journal.old call reply }
{
    match reply {
        Some(reply) => journal.enter(Entry { call, reply }),
        None => journal.give_room(1),
    }
}

impl<G: Engine + Drop> Engine for Noted<G> {
    ghost name = { G.name };

    ghost told = { G.told };

    ghost faults = { λ s. G.faults (engine_of s) };

    ghost stands = { noted_stands G.stands };

    fn open(&mut self, tx: Label, snapshot: u32) -> Result<(), EngineFault> {
        self.journal.take_room(2)?;
        let answer = self.engine.open(tx, snapshot);
        note(
            &mut self.journal,
            EngineCall::Open { tx, snapshot },
            done(&answer),
        );
        if answer.is_err() {
            self.journal.give_room(1);
        }
        answer
    }

    fn get(&mut self, tx: Label, table: u16, key: &Value) -> Result<Option<Row>, EngineFault> {
        let call = EngineCall::Get {
            tx,
            table,
            key: key.copy(self.alloc)?,
        };
        self.journal.take_room(1)?;
        let answer = self.engine.get(tx, table, key);
        match found(self.alloc, &answer) {
            Ok(reply) => {
                note(&mut self.journal, call, reply);
                answer
            }
            Err(NoMemory) => {
                self.journal.give_room(1);
                Err(EngineFault::NoMemory)
            }
        }
    }

    fn scan(&mut self, tx: Label, table: u16) -> Result<KeyedRows, EngineFault> {
        self.journal.take_room(1)?;
        let answer = self.engine.scan(tx, table);
        match rows(self.alloc, &answer) {
            Ok(reply) => {
                note(&mut self.journal, EngineCall::Scan { tx, table }, reply);
                answer
            }
            Err(NoMemory) => {
                self.journal.give_room(1);
                Err(EngineFault::NoMemory)
            }
        }
    }

    fn put(
        &mut self,
        tx: Label,
        table: u16,
        key: &Value,
        row: Option<Row>,
    ) -> Result<(), EngineFault> {
        let call = EngineCall::Put {
            tx,
            table,
            key: key.copy(self.alloc)?,
            row: row.copy(self.alloc)?,
        };
        self.journal.take_room(1)?;
        let answer = self.engine.put(tx, table, key, row);
        note(&mut self.journal, call, done(&answer));
        answer
    }

    fn close(&mut self, tx: Label) -> Result<u32, EngineFault> {
        self.journal.take_room(1)?;
        let answer = self.engine.close(tx);
        note(&mut self.journal, EngineCall::Close { tx }, number(&answer));
        answer
    }

    fn stamp(&mut self, tx: Label, n: u32) {
        self.engine.stamp(tx, n);
        note(
            &mut self.journal,
            EngineCall::Stamp { tx, n },
            Some(EngineReply::Done),
        );
    }

    fn void(&mut self, tx: Label, n: u32) {
        self.engine.void(tx, n);
        note(
            &mut self.journal,
            EngineCall::Void { tx, n },
            Some(EngineReply::Done),
        );
    }

    fn drop_tx(&mut self, tx: Label) {
        self.engine.drop_tx(tx);
        note(
            &mut self.journal,
            EngineCall::DropTx { tx },
            Some(EngineReply::Done),
        );
    }

    fn horizon(&mut self) -> u32 {
        let n = self.engine.horizon();
        self.journal.enter_horizon(n);
        n
    }

    fn records(&mut self, from: u32, to: u32) -> Result<CommitList, EngineFault> {
        self.journal.take_room(1)?;
        let answer = self.engine.records(from, to);
        match commits(self.alloc, &answer) {
            Ok(reply) => {
                note(&mut self.journal, EngineCall::Records { from, to }, reply);
                answer
            }
            Err(NoMemory) => {
                self.journal.give_room(1);
                Err(EngineFault::NoMemory)
            }
        }
    }

    fn purge(&mut self, upto: u32) -> Result<u32, EngineFault> {
        self.journal.take_room(1)?;
        let answer = self.engine.purge(upto);
        note(
            &mut self.journal,
            EngineCall::Purge { upto },
            number(&answer),
        );
        answer
    }

    fn may(&self, call: &EngineCall) -> bool {
        self.engine.may(call)
    }

    ghost is_named = { λ s e js st. G.is_named s.engine e st.behind st.engine };
}
