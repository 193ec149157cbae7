//! A book and its passes.

ghost use Rattle.std.specs.Prelude.{◌≡◌, true, false, length};
ghost use Rattle.sk_booked.specs.Kept.{IsPlain};

use crate::journaled::Journaled;
use crate::view::{Rule, View};
use atomic_table::{Seat, Table};
use std::alloc::Global;

/// A value with a journal behind a lock, beside a word that counts the journal. Threads share it, each with a pass of its own.
#[derive(Drop)]
pub struct Booked<V: Journaled> {
    pub(crate) table: Table<Option<V>, View<V, (V::Call, V::Reply)>, V, Rule, Global>,
    ghost two_words: { table.shared.table_id.words ≡ 2 },
    ghost one_slot: { table.shared.table_id.slots ≡ 1 },
}

/// The right to make calls of one book. It has no bytes.
#[derive(Drop)]
pub struct BookPass<V: Journaled> {
    pub(crate) seat: Seat<Option<V>, View<V, (V::Call, V::Reply)>>,
    ghost plain: { IsPlain seat.me.0 × (length seat.me.1 ≡ 0) },
}
