//! Cuts.

ghost use Rattle.std.specs.Prelude.{◌≡◌, not, ◌&&◌, ◌==◌};
ghost use Rattle.sk_weave.specs.Registry.{is_within};
ghost use Rattle.sk_clock.specs.Cuts.{CutsAt};
ghost use Rattle.sk_clock.specs.Of.{IsOf};
ghost use Rattle.sk_clock.specs.Steps.{AnyStep, FindsMem};

use crate::counters::STORE;
use crate::pass::{Clock, Pass};
use crate::selecting::{Sought, is_within};
use sk_weave::{CutFound, Point, unpack};

/// Whether a cut makes a point behind the last one, where the storage counter is `now`.
fn makes_cut(last: Point, x: u32, y: u32, now: u32) -> bool
    ensures { result ≡ ((now == y) && (is_within x y last && not ((last.a == x) && (last.b == y)))) }
{
    let same = now == y;
    let within = is_within(x, y, last);
    let a = last.a == x;
    let b = last.b == y;
    same && within && !(a && b)
}

impl Clock {
    /// The greatest live point that is not past the horizons `x`, a number that `begin` has answered to this pass, and `y`. Where the storage counter is `y` and the last point is less, it is the selection of the two, which is then appended.
    pub fn cut(&self, pass: &mut Pass, x: u32, y: u32) -> CutFound
        requires of { IsOf self.now pass.old }
        requires begun { AnyStep (FindsMem x) pass.old.view.own.steps }
        ensures of { IsOf self.now pass.new }
        ensures answer { CutsAt pass.old.view x y result pass.new.view }
    {
        loop {
            let store = self.load(pass, STORE) as u32;
            let last = match self.seek(pass, x, y) {
                Sought::Gone(_) => {
                    return CutFound {
                        cut: None,
                        made: false,
                    };
                }
                Sought::Between(point, _) => {
                    return CutFound {
                        cut: Some(point),
                        made: false,
                    };
                }
                Sought::Last(last) => last,
            };
            let point = unpack(last.word);
            if !makes_cut(point, x, y, store) {
                return CutFound {
                    cut: Some(point),
                    made: false,
                };
            }
            let cut = Point {
                a: x,
                b: y,
                commit: false,
            };
            if self.append(pass, last, cut) {
                return CutFound {
                    cut: Some(cut),
                    made: true,
                };
            }
        }
    }
}
