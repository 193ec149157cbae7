//! The close of a clock.

ghost use Rattle.std.specs.Prelude.{◌≡◌, ℕ, true, [], ◌∷◌, ◌++◌, map, IfOk, IfErr};
ghost use mathlib.Core.Option.{some};
ghost use lib.ListN.{get_elem?};
ghost use Rattle.sk_clock.specs.Kept.{IsPlain, gathered, spent};
ghost use Rattle.sk_clock.specs.Of.{IsOf, start_of};
ghost use Rattle.sk_clock.specs.Closes.{own_of, IsEvery, Closes};

use crate::pass::{Clock, Pass};
use crate::view::View;
use crate::walks::{LOW, RING};
use atomic_table::{Join, Seat};
use sk_rows::List;
use sk_weave::{Point, PointList, unpack};
use std::alloc::Global;
use std::marker::Model;

pub struct Gather;

impl Join<View> for Gather {
    ghost both = { gathered };

    ghost spent = { spent };
}

/// What was left at the close of a clock. Contracts see it as the live points.
#[derive(Drop)]
pub struct Closed {
    points: PointList,
}

impl Model for Closed {
    ghost use Rattle.std.specs.Prelude.{List as ItemList};
    ghost use Rattle.sk_model.specs.declared.point.Point.{Point as AnyPoint};

    ghost Value = { ItemList AnyPoint };

    ghost view = { λ it. it.points };
}

impl Closed {
    /// The live points.
    pub fn points(&self) -> &PointList
        ensures { result.now ≡ self.now }
    {
        &self.points
    }
}

impl Pass {
    /// Its seat.
    fn into_seat(self) -> Seat<(), View>
        ensures { (result.table_id ≡ self.table) × (result.me ≡ (self.view, [])) × IsPlain self.view }
    {
        let Pass { seat } = self;
        seat
    }
}

impl Clock {
    /// What all passes know, in one.
    fn gather(&self, mut passes: Vec<Pass>) -> Seat<(), View>
        requires of { (i : ℕ) (p : _) → get_elem? passes.items i ≡ some p → IsOf self.now p }
        requires every { IsEvery (map own_of passes.items) }
        ensures table { result.table_id ≡ self.now.table.shared.table_id }
        ensures live { result.me.0.live ≡ true }
        ensures all { result.me.0.taken ++ result.me.0.own ∷ [] ≡ map own_of passes.items }
    {
        let Some(first) = passes.pop() else {
            unreachable!()
        };
        let mut all = first.into_seat();
        while let Some(pass) = passes.pop() {
            let seat = pass.into_seat();
            self.table.shared.join_seat::<Gather>(&mut all, seat);
        }
        passes.destroy_empty();
        all
    }

    /// The live points. It needs every pass of this clock, each once: the first one, and each that one of them split off. Where there is no memory for the points, all is handed back.
    pub fn close(self, alloc: Global, passes: Vec<Pass>) -> Result<Closed, (Clock, Vec<Pass>)>
        requires of { (i : ℕ) (p : _) → get_elem? passes.items i ≡ some p → IsOf self p }
        requires every { IsEvery (map own_of passes.items) }
        ensures closed { IfOk result (λ c. Closes (start_of self) (map own_of passes.items) c) }
        ensures refused { IfErr result (λ back. (back.0 ≡ self) × (back.1.items ≡ passes.items)) }
    {
        let Ok(mut points) = Vec::with_capacity(alloc, self.parts * self.size) else {
            return Err((self, passes));
        };
        let all = self.gather(passes);
        let Clock { table, parts, size } = self;
        let capacity = (parts * size) as u64;
        let words = table.close_with(all);
        let low = words.word(LOW);
        let mut at = low * size as u64;
        let mut word = words.word((at % capacity) as usize + RING);
        points.push_reserved(unpack(word));
        let mut next = words.word(((at + 1) % capacity) as usize + RING);
        while next > word {
            points.push_reserved(unpack(next));
            at += 1;
            word = next;
            let after = words.word(((at + 1) % capacity) as usize + RING);
            next = after;
        }
        words.free();
        Ok(Closed {
            points: List::from_vec(points),
        })
    }
}
