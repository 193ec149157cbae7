//! The two counters.

ghost use Rattle.std.specs.Prelude.{◌≡◌, ℕ, ◌<◌, ◌≤◌, ◌⊎◌, None, Err, IfOk};
ghost use Rattle.sk_weave.specs.Registry.{drawn};
ghost use Rattle.sk_weave.specs.declared.event.Event.TheVariants.{DrawMem, DrawStore};
ghost use Rattle.sk_clock.specs.Steps.{AnyStep, FindsMem, DrawsMem, HasDrawn};
ghost use Rattle.sk_clock.specs.Answers.{At, draw_of};
ghost use Rattle.sk_clock.specs.Of.{IsOf};

use crate::pass::{Clock, Pass};
use sk_weave::DrawFault;

/// The place of the memory engine's counter.
pub(crate) const MEM: usize = 0;

/// The place of the storage engine's counter.
pub(crate) const STORE: usize = 1;

/// The last number of a counter.
const LAST: u64 = 2147483647;

impl Clock {
    /// The memory engine's counter.
    pub fn begin(&self, pass: &mut Pass) -> u32
        requires { IsOf self.now pass.old }
        ensures of { IsOf self.now pass.new }
        ensures answer { At pass.old.view (λ r. result ≡ r.mem) None pass.new.view }
        ensures held { AnyStep (FindsMem result) pass.new.view.own.steps }
    {
        self.load(pass, MEM) as u32
    }

    /// The storage engine's counter.
    pub fn store_now(&self, pass: &mut Pass) -> u32
        requires { IsOf self.now pass.old }
        ensures of { IsOf self.now pass.new }
        ensures answer { At pass.old.view (λ r. result ≡ r.store) None pass.new.view }
    {
        self.load(pass, STORE) as u32
    }

    /// The next number of the memory engine's counter.
    pub fn draw_mem(&self, pass: &mut Pass, floor: u32) -> Result<u32, DrawFault>
        requires { IsOf self.now pass.old }
        ensures of { IsOf self.now pass.new }
        ensures answer { At pass.old.view (λ r. result ≡ drawn r.mem floor) (draw_of DrawMem result) pass.new.view }
        ensures held { IfOk result (λ n. AnyStep (DrawsMem n) pass.new.view.own.steps) }
    {
        let mut found = self.load(pass, MEM);
        while found < LAST && floor as u64 <= found {
            let seen = self.exchange(pass, MEM, found, found + 1);
            if seen == found {
                return Ok((found + 1) as u32);
            }
            found = seen;
        }
        Err(no_draw(floor, found))
    }

    /// The next number of the storage engine's counter.
    pub fn draw_store(&self, pass: &mut Pass, floor: u32) -> Result<u32, DrawFault>
        requires { IsOf self.now pass.old }
        ensures of { IsOf self.now pass.new }
        ensures answer { At pass.old.view (λ r. result ≡ drawn r.store floor) (draw_of DrawStore result) pass.new.view }
        ensures held { IfOk result (λ n. (a : ℕ) → AnyStep (DrawsMem a) pass.old.view.own.steps → HasDrawn a n pass.new.view.own.steps) }
    {
        let mut found = self.load(pass, STORE);
        while found < LAST && floor as u64 <= found {
            let seen = self.exchange(pass, STORE, found, found + 1);
            if seen == found {
                return Ok((found + 1) as u32);
            }
            found = seen;
        }
        Err(no_draw(floor, found))
    }
}

/// Why no number can be drawn from a counter that has come to its end or is below the floor.
fn no_draw(floor: u32, counter: u64) -> DrawFault
    requires small { counter ≤ 2147483647 }
    requires stops { (counter ≡ 2147483647) ⊎ (counter < floor) }
    ensures { Err result ≡ drawn counter floor }
{
    if counter == LAST {
        DrawFault::Spent
    } else {
        DrawFault::Early {
            floor,
            counter: counter as u32,
        }
    }
}
