//! Appends to the ring, and the check of a commit.

ghost use Rattle.std.specs.Prelude.{◌≡◌, ◌≤◌, true, cond};
ghost use Rattle.sk_weave.specs.Points.{CanFollow, IsSmall, point_at, commit_point};
ghost use Rattle.sk_weave.specs.Registry.{checked};
ghost use Rattle.sk_clock.specs.Answers.{At, append_if};
ghost use Rattle.sk_clock.specs.Kept.{now};
ghost use Rattle.sk_clock.specs.Of.{IsOf};
ghost use Rattle.sk_clock.specs.Steps.{Holds, HasDrawn};
ghost use Rattle.sk_clock.specs.Walks.{HasFound, Appends, LooksPast};

use crate::pass::{Clock, Pass};
use crate::walks::{LOW, Last, RING};
use sk_weave::{Passed, Point, pack, unpack};

impl Clock {
    /// Appends the point behind the last one that was found, unless another came; where all places are live it gives up the oldest partition instead. Whether it was appended.
    pub(crate) fn append(&self, pass: &mut Pass, last: Last, point: Point) -> bool
        requires of { IsOf self.now pass.old }
        requires found { HasFound last.low last.at last.word last.next pass.old.view }
        requires small { IsSmall point }
        requires follows { CanFollow (point_at last.word) point }
        requires drawn { (point.a ≤ (now pass.old.view).mem) × (point.b ≤ (now pass.old.view).store) }
        requires held { Holds point pass.old.view.own.steps }
        ensures of { IsOf self.now pass.new }
        ensures made { cond result (Appends pass.old.view last.at point (point_at last.word) pass.new.view) (LooksPast pass.old.view last.low last.at pass.new.view) }
    {
        let size = self.size as u64;
        let parts = self.parts as u64;
        let Last { low, at, next, .. } = last;
        if at + 1 < (low + parts) * size {
            let place = ((at + 1) % (parts * size)) as usize + RING;
            let found = self.exchange(pass, place, next, pack(point));
            return found == next;
        }
        self.exchange(pass, LOW, low, low + 1);
        false
    }

    /// Appends the commit point of two drawn numbers, where the last point is smaller in both; else answers the last point.
    pub fn check(&self, pass: &mut Pass, ca: u32, cb: u32) -> Result<(), Passed>
        requires of { IsOf self.now pass.old }
        requires drawn { HasDrawn ca cb pass.old.view.own.steps }
        ensures of { IsOf self.now pass.new }
        ensures answer { At pass.old.view (λ r. result ≡ checked r ca cb) (append_if (commit_point ca cb) result) pass.new.view }
    {
        loop {
            let found = self.last(pass);
            let last = unpack(found.word);
            if last.a >= ca || last.b >= cb {
                return Err(Passed { point: last });
            }
            let point = Point {
                a: ca,
                b: cb,
                commit: true,
            };
            if self.append(pass, found, point) {
                return Ok(());
            }
        }
    }
}
