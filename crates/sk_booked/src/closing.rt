//! The close of a book.

ghost use Rattle.std.specs.Prelude.{◌≡◌, ℕ, map};
ghost use mathlib.Core.Option.{some};
ghost use lib.ListN.{get_elem?};
ghost use Rattle.sk_booked.specs.Of.{own_of, start_of, IsOf};
ghost use Rattle.sk_booked.specs.Answers.{IsEvery, Whole};

use crate::book::{BookPass, Booked};
use crate::calling::Gather;
use crate::journaled::Journaled;

impl<V: Journaled> Booked<V> {
    /// The value. It needs every pass of this book, each once: the first one, and each that one of them split off. It takes no memory.
    pub fn close(self, mut passes: Vec<BookPass<V>>) -> V
        requires of { (i : ℕ) (p : _) → get_elem? passes.items i ≡ some p → IsOf self p }
        requires every { IsEvery (map own_of passes.items) }
        ensures { Whole V.journal V.ready V.kin (start_of self) (map own_of passes.items) result }
    {
        let Some(BookPass { seat: mut all }) = passes.pop() else {
            unreachable!()
        };
        while let Some(BookPass { seat }) = passes.pop() {
            self.table.shared.join_seat::<Gather>(&mut all, seat);
        }
        passes.destroy_empty();
        let Booked { table } = self;
        let mut closed = table.close_with(all);
        let slot = closed.take(0);
        closed.free();
        let Some(value) = slot else { unreachable!() };
        value
    }
}
