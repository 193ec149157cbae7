//! How a clock begins.

ghost use Rattle.std.specs.Prelude.{◌≡◌, IfOk};
ghost use Rattle.sk_weave.specs.RegistryLaws.{CanStart};
ghost use Rattle.sk_clock.specs.Kept.{newborn};
ghost use Rattle.sk_clock.specs.Of.{IsOf};

use crate::pass::{Clock, Pass};
use crate::view::Start;
use atomic_table::Table;
use sk_rows::NoMemory;
use sk_weave::{Point, pack};
use std::alloc::Global;

impl Clock {
    /// A clock with so many partitions of so many points each, whose first point is this selection, and its first pass. Its counters begin there.
    pub fn new(
        alloc: Global,
        partitions: u32,
        points: u32,
        start: Point,
    ) -> Result<(Clock, Pass), NoMemory>
        requires { CanStart partitions points start }
        ensures { IfOk result (λ r. IsOf r.0 r.1 × (r.1.view ≡ newborn (record { partitions = partitions; size = points; point = start }))) }
    {
        let parts = partitions as usize;
        let size = points as usize;
        let capacity = parts * size;
        let mut words = Vec::with_capacity(alloc, capacity + 3)?;
        words.push_reserved(start.a as u64);
        words.push_reserved(start.b as u64);
        words.push_reserved(0);
        words.push_reserved(pack(start));
        for _ in 1..capacity {
            words.push_reserved(0);
        }
        let about = Start {
            partitions,
            size: points,
            point: start,
        };
        let (table, seat) = Table::of_words(alloc, words.as_slice(), &about)?;
        Ok((Clock { table, parts, size }, Pass { seat }))
    }
}
