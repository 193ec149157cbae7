//! How a pass learns what another has seen.

ghost use Rattle.std.specs.Prelude.{◌≡◌, ℕ};
ghost use Rattle.sk_clock.specs.Kept.{noting, stays_as, told_of, spent, with_step};
ghost use Rattle.sk_clock.specs.Of.{IsOf};
ghost use Rattle.sk_clock.specs.Paths.{Begins};
ghost use Rattle.sk_clock.specs.declared.view.WordStep.TheVariants.{Load};

use crate::counters::MEM;
use crate::pass::{Clock, Pass};
use crate::view::View;
use atomic_table::{Join, Split};

pub struct Note;

impl Split<View> for Note {
    ghost left = { stays_as };

    ghost right = { noting };
}

impl Join<View> for Note {
    ghost both = { told_of };

    ghost spent = { spent };
}

impl Clock {
    /// Gives `pass` what `other` has seen: the history that it has then seen begins with both. It loads one counter.
    pub fn meet(&self, pass: &mut Pass, other: &mut Pass)
        requires { IsOf self.now pass.old × IsOf self.now other.old }
        ensures of { IsOf self.now pass.new × IsOf self.now other.new }
        ensures met { Begins pass.old.view.seen pass.new.view.seen × Begins other.old.view.seen pass.new.view.seen }
        ensures own { (n : ℕ) × (pass.new.view.own ≡ with_step pass.old.view.own (Load 0 n)) }
        ensures other { other.new.view ≡ other.old.view }
    {
        let note = self.table.shared.split_seat::<Note>(&mut other.seat);
        self.table.shared.join_seat::<Note>(&mut pass.seat, note);
        self.load(pass, MEM);
    }
}
