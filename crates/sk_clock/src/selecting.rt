//! Walks for a pair of numbers, and selections.

ghost use Rattle.std.specs.Prelude.{◌≡◌, ◌≤◌, true, IfOk, IfErr, IfSome, IfNone, Ok};
ghost use Rattle.sk_weave.specs.Points.{point_at};
ghost use Rattle.sk_weave.specs.Registry.{is_within};
ghost use Rattle.sk_clock.specs.Of.{IsOf};
ghost use Rattle.sk_clock.specs.Steps.{AnyStep, FindsMem};
ghost use Rattle.sk_clock.specs.Selections.{Starts, FindsGone, FindsBetween, MatchSought, SelectsAt};
ghost use Rattle.sk_clock.specs.Walks.{FindsLast, HasFound, LooksPast};

use crate::counters::STORE;
use crate::pass::{Clock, Pass};
use crate::walks::{LOW, Last, RING};
use sk_weave::{Point, Recycled, Selected, before_b, pick_newest, unpack};

/// A number that no point's numbers are past.
const TOP: u32 = 2147483647;

/// What a walk for two numbers found.
#[derive(Clone, Copy, Drop)]
pub(crate) enum Sought {
    /// The oldest live point, which is past them.
    Gone(Point),
    /// The last point that is not past them, which is live, and the one behind it.
    Between(Point, Point),
    /// The last point of all, which is not past them.
    Last(Last),
}

/// A point that a walk has come to, which is not past its two numbers.
#[derive(Clone, Copy, Drop)]
pub(crate) struct Spot {
    /// The oldest live partition, seen before.
    low: u64,
    /// The number of the point.
    at: u64,
    /// Its word.
    word: u64,
}

/// Whether neither number of the point is past the two.
pub(crate) fn is_within(x: u32, y: u32, point: Point) -> bool
    ensures { result ≡ is_within x y point }
{
    let a = point.a <= x;
    let b = point.b <= y;
    a && b
}

impl Clock {
    /// Where a walk begins, or the oldest live point, if it is past the two numbers.
    fn start(&self, pass: &mut Pass, x: u32, y: u32) -> Result<Spot, Point>
        requires { IsOf self.now pass.old }
        ensures of { IsOf self.now pass.new }
        ensures spot { IfOk result (λ s. Starts pass.old.view x y s.low s.at s.word pass.new.view) }
        ensures gone { IfErr result (λ p. FindsGone pass.old.view x y p pass.new.view) }
    {
        let (low, word) = self.oldest_word(pass);
        let oldest = unpack(word);
        if !is_within(x, y, oldest) {
            return Err(oldest);
        }
        Ok(Spot {
            low,
            at: low * self.size as u64,
            word,
        })
    }

    /// The last live point that is not past the two numbers, and what comes behind it.
    pub(crate) fn seek(&self, pass: &mut Pass, x: u32, y: u32) -> Sought
        requires { IsOf self.now pass.old }
        ensures of { IsOf self.now pass.new }
        ensures found { MatchSought result (λ p. FindsGone pass.old.view x y p pass.new.view) (λ p q. FindsBetween pass.old.view x y p q pass.new.view) (λ l. FindsLast pass.old.view l.low l.at l.word l.next pass.new.view × (is_within x y (point_at l.word) ≡ true)) }
    {
        let size = self.size as u64;
        let capacity = (self.parts * self.size) as u64;
        let mut spot = match self.start(pass, x, y) {
            Ok(spot) => spot,
            Err(oldest) => return Sought::Gone(oldest),
        };
        loop {
            let next = self.load(pass, ((spot.at + 1) % capacity) as usize + RING);
            let again = self.load(pass, LOW);
            if again * size > spot.at {
                spot = match self.start(pass, x, y) {
                    Ok(spot) => spot,
                    Err(oldest) => return Sought::Gone(oldest),
                };
            } else if next > spot.word {
                let point = unpack(next);
                if !is_within(x, y, point) {
                    return Sought::Between(unpack(spot.word), point);
                }
                spot = Spot {
                    low: spot.low,
                    at: spot.at + 1,
                    word: next,
                };
            } else {
                return Sought::Last(Last {
                    low: spot.low,
                    at: spot.at,
                    word: spot.word,
                    next,
                });
            }
        }
    }

    /// A selection for an anchor that no point was found past, behind that last point. `None` where another point came.
    fn select_newest(&self, pass: &mut Pass, a: u32, last: Last) -> Option<Selected>
        requires of { IsOf self.now pass.old }
        requires found { HasFound last.low last.at last.word last.next pass.old.view }
        requires anchor { (point_at last.word).a ≤ a }
        requires begun { AnyStep (FindsMem a) pass.old.view.own.steps }
        ensures of { IsOf self.now pass.new }
        ensures selected { IfSome result (λ s. SelectsAt pass.old.view a (Ok s) pass.new.view) }
        ensures beaten { IfNone result (LooksPast pass.old.view last.low last.at pass.new.view) }
    {
        let capacity = (self.parts * self.size) as u64;
        let store = self.load(pass, STORE) as u32;
        let next = self.load(pass, ((last.at + 1) % capacity) as usize + RING);
        if next != last.next {
            return None;
        }
        let chosen = pick_newest(unpack(last.word), a, store);
        if !chosen.made {
            return Some(chosen);
        }
        let point = Point {
            a,
            b: chosen.b,
            commit: false,
        };
        if self.append(pass, last, point) {
            return Some(chosen);
        }
        None
    }

    /// The storage snapshot that goes with the anchor `a`, a number that `begin` has answered to this pass. Where no point has such an anchor yet, a selection is appended.
    pub fn select(&self, pass: &mut Pass, a: u32) -> Result<Selected, Recycled>
        requires of { IsOf self.now pass.old }
        requires begun { AnyStep (FindsMem a) pass.old.view.own.steps }
        ensures of { IsOf self.now pass.new }
        ensures answer { SelectsAt pass.old.view a result pass.new.view }
    {
        loop {
            match self.seek(pass, a, TOP) {
                Sought::Gone(oldest) => return Err(Recycled { a, oldest }),
                Sought::Between(_, next) => {
                    return Ok(Selected {
                        b: before_b(next),
                        made: false,
                    });
                }
                Sought::Last(last) => {
                    if let Some(chosen) = self.select_newest(pass, a, last) {
                        return Ok(chosen);
                    }
                }
            }
        }
    }
}
