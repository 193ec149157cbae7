//! An engine over rows that are kept in any way.

ghost use Rattle.std.specs.Prelude.{◌≡◌, ◌≤◌, ◌+◌, OnOk, OnErr, length, max};
ghost use Rattle.std.specs.Vec.{vec_len, vec_capacity};
ghost use Rattle.sk_model.specs.declared.label.Label.{Label as AnyLabel};
ghost use Rattle.sk_engine.specs.Engines.{HasRoom};

use crate::act::Act;
use crate::acting::{act_all, close_all, has_row_ids};
use crate::book::Book;
use crate::numbers::{Number, enter};
use crate::openings::{begin, end, is_there, note, shut, snapshot_in};
use crate::permits::{has_table, is_open, may_end, takes_key, takes_row};
use crate::purging::{count_upto, forget_all, has_openings, least_open};
use crate::recording::{commits_given, find_past};
use crate::rows::Rows;
use sk_chain::Engine;
use sk_model::{CommitList, EngineCall, EngineFault, KeyedRows, Label};
use sk_rows::{NoMemory, Row, Value};
use std::alloc::Global;
use std::collections::BTreeMap;

/// An engine: rows, with the openings and the numbers of their transactions.
#[derive(Drop)]
pub struct Versioned<R: Drop> {
    alloc: Global,
    rows: R,
    book: Book,
}

/// Makes room for the number of one more opening.
fn reserve(book: &mut Book) -> Result<(), NoMemory>
    ensures same { book.new ≡ record book.old { numbers = book.new.numbers } }
    ensures items { book.new.numbers.items ≡ book.old.numbers.items }
    ensures len { vec_len book.new.numbers ≡ vec_len book.old.numbers }
    ensures more { vec_capacity book.old.numbers ≤ vec_capacity book.new.numbers }
    ensures room { OnOk result (vec_len book.new.numbers + (length book.new.openings.entries + 1) ≤ vec_capacity book.new.numbers) }
{
    let count = book.openings.len() + 1;
    book.numbers.reserve(count)?;
    Ok(())
}

impl<R: Rows + Drop> Versioned<R> {
    ghost use Rattle.std.specs.Prelude.{List, ℕ, T};
    ghost use Rattle.std.specs.FinMap.{is_sorted};
    ghost use Rattle.sk_rows.specs.Values.{value_cmp};
    ghost use Rattle.sk_rows.specs.declared.table.Table.{Table as AnyTable};
    ghost use Rattle.sk_model.specs.Database.{Tables, table_of, row_of};
    ghost use Rattle.sk_model.specs.Engine.{engine_at};
    ghost use Rattle.sk_engine.specs.Stands.{begun};
    ghost use Rattle.sk_engine.specs.Engines.{StandsBy};

    /// An engine over rows that show the opening rows, each stamped with the start, and nothing else.
    pub fn new(alloc: Global, rows: R, start: u32) -> Versioned<R>
        ensures { (tables : List AnyTable) (opening : Tables) → length opening ≡ length tables → ((t : ℕ) → T (is_sorted value_cmp (table_of opening t)))
            → R.shows rows tables (λ t key. begun start (row_of opening t key)) → StandsBy R.name (R.shows result.rows) result.book (engine_at R.name tables opening start) }
    {
        Versioned {
            alloc,
            rows,
            book: Book {
                openings: BTreeMap::new(alloc),
                greatest: start,
                purged: start,
                numbers: Vec::new(alloc),
                horizon: start,
            },
        }
    }
}

impl<R: Rows + Drop> Engine for Versioned<R> {
    ghost use Rattle.sk_engine.specs.Engines.{StandsBy};

    ghost name = { R.name };

    ghost told = { R.told };

    ghost faults = { λ v. R.faults v.rows };

    ghost stands = { λ v e _. StandsBy R.name (R.shows v.rows) v.book e };

    ghost is_named = { λ x e js h. h.sound.named };

    fn open(&mut self, tx: Label, snapshot: u32) -> Result<(), EngineFault> {
        if snapshot < self.book.purged {
            return Err(EngineFault::Old {
                snapshot,
                horizon: self.book.purged,
            });
        }
        reserve(&mut self.book)?;
        begin(self.alloc, &mut self.book.openings, tx, snapshot)?;
        self.book.greatest = self.book.greatest.max(snapshot);
        Ok(())
    }

    fn get(&mut self, tx: Label, table: u16, key: &Value) -> Result<Option<Row>, EngineFault> {
        let snapshot = snapshot_in(&self.book.openings, tx);
        self.rows.see(table, key, tx, snapshot)
    }

    fn scan(&mut self, tx: Label, table: u16) -> Result<KeyedRows, EngineFault> {
        let snapshot = snapshot_in(&self.book.openings, tx);
        self.rows.scan(table, tx, snapshot)
    }

    fn put(
        &mut self,
        tx: Label,
        table: u16,
        key: &Value,
        row: Option<Row>,
    ) -> Result<(), EngineFault> {
        let snapshot = snapshot_in(&self.book.openings, tx);
        match self.rows.push(table, key, tx, snapshot, row) {
            Ok(true) => match note(self.alloc, &mut self.book.openings, tx, table, key) {
                Ok(()) => Ok(()),
                Err(NoMemory) => {
                    self.rows.act(table, key, Act::Void);
                    Err(EngineFault::NoMemory)
                }
            },
            Ok(false) => Ok(()),
            Err(fault) => Err(fault),
        }
    }

    fn close(&mut self, tx: Label) -> Result<u32, EngineFault> {
        let floor = self.book.greatest;
        close_all(&mut self.rows, &self.book.openings, tx, floor);
        shut(&mut self.book.openings, tx, floor);
        Ok(floor)
    }

    fn stamp(&mut self, tx: Label, n: u32) {
        if let Some(wrote) = end(&mut self.book.openings, tx) {
            has_row_ids(&wrote);
            act_all(&mut self.rows, &wrote, Act::Stamp { n });
            let number = Number {
                n,
                by: tx,
                wrote: Some(wrote),
            };
            self.book.horizon = enter(&mut self.book.numbers, self.book.horizon, number);
        }
    }

    fn void(&mut self, tx: Label, n: u32) {
        if let Some(wrote) = end(&mut self.book.openings, tx) {
            act_all(&mut self.rows, &wrote, Act::Void);
            let number = Number {
                n,
                by: tx,
                wrote: None,
            };
            self.book.horizon = enter(&mut self.book.numbers, self.book.horizon, number);
        }
    }

    fn drop_tx(&mut self, tx: Label) {
        if let Some(wrote) = end(&mut self.book.openings, tx) {
            act_all(&mut self.rows, &wrote, Act::Void);
        }
    }

    fn horizon(&mut self) -> u32 {
        self.book.horizon
    }

    fn records(&mut self, from: u32, to: u32) -> Result<CommitList, EngineFault> {
        let numbers = self.book.numbers.as_slice();
        let later = numbers.split_at(find_past(numbers, from)).1;
        let asked = later.split_at(find_past(later, to)).0;
        commits_given(self.alloc, &mut self.rows, asked)
    }

    fn purge(&mut self, upto: u32) -> Result<u32, EngineFault> {
        has_openings(&self.book.openings);
        let most = least_open(&self.book.openings, upto.min(self.book.horizon));
        if most <= self.book.purged {
            return Ok(self.book.purged);
        }
        let count = count_upto(self.book.numbers.as_slice(), most);
        forget_all(
            &mut self.rows,
            self.book.numbers.as_slice().split_at(count).0,
            most,
        );
        self.book.numbers.drain(..count);
        self.book.purged = most;
        Ok(most)
    }

    fn may(&self, call: &EngineCall) -> bool {
        let book = &self.book;
        let name = self.rows.engine();
        let catalog = self.rows.catalog();
        match call {
            EngineCall::Open { tx, .. } => !is_there(&book.openings, *tx),
            EngineCall::Get { tx, table, key } => {
                is_open(&book.openings, *tx) && takes_key(name, catalog, *table, key)
            }
            EngineCall::Scan { tx, table } => {
                is_open(&book.openings, *tx) && has_table(name, catalog, *table)
            }
            EngineCall::Put {
                tx,
                table,
                key,
                row,
            } => is_open(&book.openings, *tx) && takes_row(name, catalog, *table, key, row),
            EngineCall::Close { tx } => is_open(&book.openings, *tx),
            EngineCall::Stamp { tx, n } => may_end(book, *tx, *n),
            EngineCall::Void { tx, n } => may_end(book, *tx, *n),
            EngineCall::DropTx { tx } => is_there(&book.openings, *tx),
            EngineCall::Horizon => true,
            EngineCall::Records { from, to } => book.purged <= *from && *to <= book.horizon,
            EngineCall::Purge { .. } => true,
        }
    }
}
