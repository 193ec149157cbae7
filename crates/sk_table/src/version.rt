//! Versions of rows, and the openings of transactions.

ghost use Rattle.std.specs.Prelude.{◌≡◌, ◌==◌, ◌&&◌, IfOk};
ghost use Rattle.sk_model.specs.Database.{hits};
ghost use Rattle.sk_model.specs.Records.{same_label};
ghost use Rattle.sk_model.specs.Engine.{is_of};
ghost use Rattle.sk_model.specs.EngineReplies.{is_seen, is_blocking, is_rival, is_stamped_with};
ghost use Rattle.sk_model.specs.EngineChanges.{restood};
ghost use Rattle.sk_table.specs.RowState.{state_of};

use crate::row_state::{
    RowState, is_closed_below, is_stamped_with as is_standing_with, is_undecided, is_upto,
};
use sk_model::{Label, Write};
use sk_rows::Value;
use std::marker::Model;

/// What one transaction wrote to one row, and the snapshot that it had.
#[derive(Debug, Drop)]
pub struct Version {
    pub(crate) by: Label,
    pub(crate) snapshot: u32,
    pub(crate) write: Write,
    pub(crate) standing: RowState,
}

impl Model for Version {
    ghost use Rattle.sk_model.specs.Engine.{Version as AnyVersion};
    ghost use Rattle.sk_table.specs.RowState.{state_of};

    ghost Value = { AnyVersion };

    ghost view = { λ v. record { by = v.by; snapshot = v.snapshot; write = v.write; standing = state_of v.standing } };
}

/// A transaction that has opened the engine: its snapshot, and its floor once it is closed.
#[derive(Debug, Drop)]
pub struct Opening {
    pub(crate) snapshot: u32,
    pub(crate) floor: Option<u32>,
}

impl Model for Opening {
    ghost use Rattle.sk_model.specs.Engine.{Opening as AnyOpening};

    ghost Value = { AnyOpening };

    ghost view = { λ o. record { snapshot = o.snapshot; floor = o.floor } };
}

/// Whether two labels are one.
pub(crate) fn same_label(a: Label, b: Label) -> bool
    ensures { result ≡ same_label a b }
{
    a.session == b.session && a.k == b.k
}

/// Whether the write is of this row.
pub(crate) fn hits(table: u16, key: &Value, write: &Write) -> bool
    ensures { result ≡ hits table key.now write.now }
{
    table == write.table && *key == write.key
}

impl Version {
    /// Whether it is of this row.
    pub(crate) fn is_of(&self, table: u16, key: &Value) -> bool
        ensures { result ≡ is_of table key.now self.now }
    {
        hits(table, key, &self.write)
    }

    /// Whether the transaction sees it at the snapshot.
    pub(crate) fn is_seen(&self, tx: Label, snapshot: u32) -> bool
        ensures { result ≡ is_seen tx snapshot self.now }
    {
        is_upto(snapshot, self.standing) || (same_label(tx, self.by) && is_undecided(self.standing))
    }

    /// Whether a reader at the snapshot has to wait for it.
    pub(crate) fn is_blocking(&self, tx: Label, snapshot: u32) -> bool
        ensures { result ≡ is_blocking tx snapshot self.now }
    {
        !same_label(tx, self.by) && is_closed_below(snapshot, self.standing)
    }

    /// Whether it is another transaction's that is open or closed, and of the row of this write.
    pub(crate) fn is_rival(&self, tx: Label, write: &Write) -> bool
        ensures { result ≡ is_rival tx write.now self.now }
    {
        self.is_of(write.table, &write.key)
            && (!same_label(tx, self.by) && is_undecided(self.standing))
    }

    /// Whether it is stamped with this number.
    pub(crate) fn is_stamped_with(&self, n: u32) -> bool
        ensures { result ≡ is_stamped_with n self.now }
    {
        is_standing_with(n, self.standing)
    }

    /// The version, with a new standing where it is the transaction's and open or closed.
    pub(crate) fn restood(self, tx: Label, standing: RowState) -> Version
        ensures { result ≡ restood tx (state_of standing) self }
    {
        let mine = same_label(tx, self.by) && is_undecided(self.standing);
        let Version {
            by,
            snapshot,
            write,
            standing: old,
        } = self;
        Version {
            by,
            snapshot,
            write,
            standing: if mine { standing } else { old },
        }
    }
}
