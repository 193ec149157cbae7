//! The steps that all calls are made of: one load, and one compare and exchange.

ghost use Rattle.std.specs.Prelude.{◌≡◌, ℕ, ◌+◌, ◌*◌, ◌<◌, ◌==◌, cond};
ghost use Rattle.sk_clock.specs.Kept.{Loads, Exchanges, Swaps, elder, younger, Extends, CanExchange, Sees};
ghost use Rattle.sk_clock.specs.History.{change_of};
ghost use Rattle.sk_clock.specs.Of.{IsOf};
ghost use Rattle.sk_clock.specs.declared.view.WordStep.TheVariants.{Load};

use crate::pass::{Clock, Pass};
use crate::view::View;
use atomic_table::{Play, Split};

pub struct LoadWord;

impl Play<(), View> for LoadWord {
    ghost then = { Loads };
}

pub struct ExchangeWord;

impl Play<(), View> for ExchangeWord {
    ghost then = { Exchanges };
}

pub struct Divide;

impl Split<View> for Divide {
    ghost left = { elder };

    ghost right = { younger };
}

impl Pass {
    /// What it has seen is a history.
    pub(crate) fn recall(&self)
        ensures { Sees self.now.view }
    {
        let _ = &self.seat;
    }
}

impl Clock {
    /// A second pass, which has seen what this one has seen.
    pub fn split(&self, pass: &mut Pass) -> Pass
        requires { IsOf self.now pass.old }
        ensures old { IsOf self.now pass.new × (pass.new.view ≡ elder pass.old.view) }
        ensures new { IsOf self.now result × (result.view ≡ younger pass.old.view) }
    {
        Pass {
            seat: self.table.shared.split_seat::<Divide>(&mut pass.seat),
        }
    }

    /// What the word at this place holds.
    pub(crate) fn load(&self, pass: &mut Pass, place: usize) -> u64
        requires table { IsOf self.now pass.old }
        requires place { place < self.now.parts * self.now.size + 3 }
        ensures { IsOf self.now pass.new × Extends pass.old.view (Load place result) pass.new.view }
    {
        self.table.shared.load::<LoadWord>(&mut pass.seat, place)
    }

    /// Where the word at this place is `old`, it becomes `new`. Answers what it was.
    pub(crate) fn exchange(&self, pass: &mut Pass, place: usize, old: u64, new: u64) -> u64
        requires table { IsOf self.now pass.old }
        requires place { place < self.now.parts * self.now.size + 3 }
        requires step { CanExchange pass.old.view place old new }
        ensures { IsOf self.now pass.new × cond (result == old) (Swaps pass.old.view place old (change_of place new) pass.new.view) (Extends pass.old.view (Load place result) pass.new.view) }
    {
        self.table
            .shared
            .compare_exchange::<ExchangeWord>(&mut pass.seat, place, old, new)
    }
}
