//! The clock and a pass.

ghost use Rattle.std.specs.Prelude.{◌≡◌, ◌+◌, ◌*◌, ◌≤◌};
ghost use Rattle.sk_weave.specs.RegistryLaws.{CanStart};

use crate::view::{Rule, Start, View};
use atomic_table::{Seat, Table};
use std::alloc::Global;
use std::marker::Model;

/// A registry of points on shared words, which any number of passes use at once.
#[derive(Drop)]
pub struct Clock {
    pub(crate) table: Table<(), View, Start, Rule, Global>,
    /// How many partitions there are.
    pub(crate) parts: usize,
    /// How many points each has.
    pub(crate) size: usize,
    ghost shape: { (table.shared.key.partitions ≡ parts) × (table.shared.key.size ≡ size) × (table.shared.table_id.words ≡ parts * size + 3) },
    ghost no_slots: { table.shared.table_id.slots ≡ 0 },
    ghost starts: { CanStart parts size table.shared.key.point },
}

/// One user of a clock. Each thread has its own.
#[derive(Drop)]
pub struct Pass {
    pub(crate) seat: Seat<(), View>,
}

impl Model for Pass {
    ghost use Rattle.sk_clock.specs.Held.{Held, held_coded};

    ghost Value = { Held };

    ghost coded = { held_coded };

    ghost use Rattle.std.specs.Prelude.{◌≡◌, []};
    ghost use Rattle.sk_clock.specs.Kept.{IsPlain, Sees};

    ghost view = { λ p. record { table = p.seat.table_id; view = p.seat.me.0 } };

    ghost invariant = { λ p. IsPlain p.seat.me.0 × (p.seat.me.1 ≡ []) × Sees p.seat.me.0 };
}
