//! The table of an engine.

ghost use Rattle.std.specs.Prelude.{◌≡◌, IfOk};
ghost use Rattle.sk_model.specs.Engine.{engine_at, opening_of, snapshot_of};
ghost use Rattle.std.specs.Option.{option_copied};

use crate::entries::find;
use crate::version::{Opening, Version};
use sk_model::{EngineName, Label, Tables};
use sk_rows::{Catalog, Copies, NoMemory};
use std::alloc::Global;
use std::marker::Model;

/// The table of one engine: the versions of its rows, the transactions that have opened it, and its numbers.
///
/// Contracts see the table of the definitions.
#[derive(Drop)]
pub struct EngineTable {
    pub(crate) name: EngineName,
    pub(crate) catalog: Catalog,
    pub(crate) start: u32,
    pub(crate) rows: Tables,
    pub(crate) versions: Vec<Version>,
    pub(crate) openings: Vec<(Label, Opening)>,
    pub(crate) greatest: u32,
    pub(crate) stamped: Vec<(u32, Label)>,
    pub(crate) voided: Vec<u32>,
    pub(crate) purged: u32,
}

impl Model for EngineTable {
    ghost use Rattle.sk_model.specs.Engine.{EngineTable as AnyTable};

    ghost Value = { AnyTable };

    ghost view = { λ t. record { name = t.name; catalog = t.catalog; start = t.start; rows = t.rows; versions = t.versions.items; openings = t.openings.items; greatest = t.greatest; stamped = t.stamped.items; voided = t.voided.items; purged = t.purged } };
}

impl EngineTable {
    /// The table of an engine that begins with these rows and this number.
    pub fn new(
        alloc: Global,
        name: EngineName,
        catalog: &Catalog,
        rows: &Tables,
        start: u32,
    ) -> Result<EngineTable, NoMemory>
        ensures { IfOk result (λ t. t ≡ engine_at name catalog.now rows.now start) }
    {
        Ok(EngineTable {
            name,
            catalog: catalog.copy(alloc)?,
            start,
            rows: rows.copy(alloc)?,
            versions: Vec::new(alloc),
            openings: Vec::new(alloc),
            greatest: start,
            stamped: Vec::new(alloc),
            voided: Vec::new(alloc),
            purged: start,
        })
    }

    /// The opening of a transaction, if it has one.
    pub fn opening_of(&self, tx: Label) -> Option<&Opening>
        ensures { option_copied result ≡ opening_of self.now tx }
    {
        find(self.openings.as_slice(), &tx)
    }

    /// The snapshot of a transaction, or 0.
    pub(crate) fn snapshot_of(&self, tx: Label) -> u32
        ensures { result ≡ snapshot_of self.now tx }
    {
        match self.opening_of(tx) {
            None => 0,
            Some(opening) => opening.snapshot,
        }
    }
}
