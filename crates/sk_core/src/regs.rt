//! The registry of points, with plain lists.

ghost use Rattle.std.specs.Prelude.{◌≡◌, ◌++◌, ◌∷◌, [], IfOk, None, drop};
ghost use Rattle.sk_weave.specs.Points.{selection, commit_point, first_past, pick};
ghost use Rattle.sk_weave.specs.Registry as registry;
ghost use Rattle.sk_linked.specs.State.{counter};
ghost use Rattle.sk_linked.specs.Plans.{after_draw};

use crate::copies::same_items;
use sk_model::{EngineName, GREATEST_NUMBER, Point, PointList, Recycled};
use sk_rows::{Copies, NoMemory};
use sk_weave::{DrawFault, Selected, before_b, pick_newest};
use std::alloc::Global;
use std::marker::Model;

/// Two counters, the number of the oldest live partition, all points from the first one on, and the measures of the ring.
///
/// Contracts see the registry of the definitions.
#[derive(Drop)]
pub struct Regs {
    pub(crate) mem: u32,
    pub(crate) store: u32,
    pub(crate) low: u32,
    pub(crate) points: PointList,
    pub(crate) partitions: u32,
    pub(crate) size: u32,
}

impl Model for Regs {
    ghost use Rattle.sk_weave.specs.Registry.{Regs as AnyRegs};

    ghost Value = { AnyRegs };

    ghost view = { λ r. record { mem = r.mem; store = r.store; low = r.low; points = r.points; partitions = r.partitions; size = r.size } };
}

impl Copies for Regs {
    fn copy(&self, alloc: Global) -> Result<Regs, NoMemory> {
        Ok(Regs {
            mem: self.mem,
            store: self.store,
            low: self.low,
            points: same_items(alloc, self.points.as_slice())?,
            partitions: self.partitions,
            size: self.size,
        })
    }
}

/// The point of a selection.
pub(crate) fn selection(a: u32, b: u32) -> Point
    ensures { result ≡ selection a b }
{
    Point {
        a,
        b,
        commit: false,
    }
}

/// The point of a commit.
pub(crate) fn commit_point(a: u32, b: u32) -> Point
    ensures { result ≡ commit_point a b }
{
    Point { a, b, commit: true }
}

/// The first point, or (0, 0).
pub(crate) fn first_of(points: &[Point]) -> Point
    ensures { result ≡ registry.first_of points.now }
{
    match points {
        [] => selection(0, 0),
        [first, ..] => *first,
    }
}

/// The last point, or (0, 0).
#[tactic(auto, using(crate::proofs::Lasts::last_is))]
pub(crate) fn last_of(points: &[Point]) -> Point
    ensures { result ≡ registry.last_of points.now }
{
    let mut last = selection(0, 0);
    for point in points {
        last = *point;
    }
    last
}

/// The first point whose number of the memory engine is past `a`.
fn first_past(a: u32, points: &[Point]) -> Option<Point>
    ensures { result ≡ first_past a points.now }
{
    for point in points {
        if a < point.a {
            return Some(*point);
        }
    }
    None
}

/// The storage snapshot that goes with the anchor `a`, where `now` is the storage counter.
fn pick(points: &[Point], a: u32, now: u32) -> Selected
    ensures { result ≡ pick points.now a now }
{
    if points.is_empty() {
        return Selected { b: now, made: true };
    }
    match first_past(a, points) {
        None => pick_newest(last_of(points), a, now),
        Some(next) => Selected {
            b: before_b(next),
            made: false,
        },
    }
}

fn is_within(x: u32, y: u32, point: Point) -> bool
    ensures { result ≡ registry.is_within x y point }
{
    point.a <= x && point.b <= y
}

/// The last of these points that is not past the two numbers.
pub(crate) fn greatest_within(x: u32, y: u32, points: &[Point]) -> Option<Point>
    ensures { result ≡ registry.greatest_within x y None points.now }
{
    let mut best = None;
    for point in points {
        if is_within(x, y, *point) {
            best = Some(*point);
        }
    }
    best
}

/// A draw from a counter. Past the greatest number of a word it counts as want of memory.
pub(crate) fn drawn(counter: u32, floor: u32) -> Result<Result<u32, DrawFault>, NoMemory>
    ensures { IfOk result (λ answer. answer ≡ registry.drawn counter floor) }
{
    if counter == GREATEST_NUMBER {
        Ok(Err(DrawFault::Spent))
    } else if counter < floor {
        Ok(Err(DrawFault::Early { floor, counter }))
    } else {
        match counter.checked_add(1) {
            None => Err(NoMemory),
            Some(n) => Ok(Ok(n)),
        }
    }
}

impl Regs {
    /// The counter of this engine.
    pub(crate) fn counter(&self, name: EngineName) -> u32
        ensures { result ≡ counter name self.now }
    {
        match name {
            EngineName::Mem => self.mem,
            EngineName::Store => self.store,
        }
    }

    /// The points from the oldest live partition on.
    pub(crate) fn live(&self) -> Result<&[Point], NoMemory>
        ensures { IfOk result (λ points. points.now ≡ registry.live_of self.now) }
    {
        let points = self.points.as_slice();
        match (self.low as usize).checked_mul(self.size as usize) {
            None => Err(NoMemory),
            Some(at) => Ok(from(points, at)),
        }
    }

    /// The oldest live point.
    pub(crate) fn oldest(&self) -> Result<Point, NoMemory>
        ensures { IfOk result (λ point. point ≡ registry.oldest_of self.now) }
    {
        Ok(first_of(self.live()?))
    }

    /// Whether all places of the ring are live.
    fn is_full(&self) -> Result<bool, NoMemory>
        ensures { IfOk result (λ b. b ≡ registry.is_full self.now) }
    {
        match (self.low as usize + self.partitions as usize).checked_mul(self.size as usize) {
            None => Err(NoMemory),
            Some(room) => Ok(self.points.len() == room),
        }
    }

    /// With this point behind the others. Where all places are live, the oldest partition is given up first.
    fn appended(self, point: Point) -> Result<Regs, NoMemory>
        ensures { IfOk result (λ r. r ≡ registry.appended self point) }
    {
        let mut regs = self;
        if regs.is_full()? {
            let Some(low) = regs.low.checked_add(1) else {
                return Err(NoMemory);
            };
            regs.low = low;
            regs.points.push(point)?;
            Ok(regs)
        } else {
            regs.points.push(point)?;
            Ok(regs)
        }
    }

    /// A selection for the anchor `a`.
    pub(crate) fn selected(&self, a: u32) -> Result<Result<Selected, Recycled>, NoMemory>
        ensures { IfOk result (λ answer. answer ≡ registry.selected self.now a self.now.store) }
    {
        let oldest = self.oldest()?;
        if a < oldest.a {
            Ok(Err(Recycled { a, oldest }))
        } else {
            Ok(Ok(pick(self.points.as_slice(), a, self.store)))
        }
    }

    /// What a selection for the anchor `a` leaves.
    pub(crate) fn after_selection(&self, alloc: Global, a: u32) -> Result<Regs, NoMemory>
        ensures { IfOk result (λ r. r ≡ registry.after_selection self.now a self.now.store) }
    {
        let regs = self.copy(alloc)?;
        match self.selected(a)? {
            Err(_) => Ok(regs),
            Ok(selected) => {
                if selected.made {
                    regs.appended(selection(a, selected.b))
                } else {
                    Ok(regs)
                }
            }
        }
    }

    /// What a draw from an engine's counter leaves.
    pub(crate) fn after_draw(
        &self,
        alloc: Global,
        name: EngineName,
        floor: u32,
    ) -> Result<Regs, NoMemory>
        ensures { IfOk result (λ r. r ≡ after_draw name self.now floor) }
    {
        let mut regs = self.copy(alloc)?;
        match name {
            EngineName::Mem => match drawn(self.mem, floor)? {
                Err(_) => Ok(regs),
                Ok(n) => {
                    regs.mem = n;
                    Ok(regs)
                }
            },
            EngineName::Store => match drawn(self.store, floor)? {
                Err(_) => Ok(regs),
                Ok(n) => {
                    regs.store = n;
                    Ok(regs)
                }
            },
        }
    }

    /// Whether the last point is smaller than the two numbers.
    pub(crate) fn passes(&self, ca: u32, cb: u32) -> bool
        ensures { result ≡ registry.passes self.now ca cb }
    {
        let last = last_of(self.points.as_slice());
        last.a < ca && last.b < cb
    }

    /// What a check leaves.
    pub(crate) fn after_check(&self, alloc: Global, ca: u32, cb: u32) -> Result<Regs, NoMemory>
        ensures { IfOk result (λ r. r ≡ registry.after_check self.now ca cb) }
    {
        let regs = self.copy(alloc)?;
        if self.passes(ca, cb) {
            regs.appended(commit_point(ca, cb))
        } else {
            Ok(regs)
        }
    }

    /// Whether a cut at the two numbers makes a point.
    fn makes_cut(&self, x: u32, y: u32) -> bool
        ensures { result ≡ registry.makes_cut self.now x y self.now.store }
    {
        let last = last_of(self.points.as_slice());
        self.store == y && (is_within(x, y, last) && !(last.a == x && last.b == y))
    }

    /// What a cut at the two numbers leaves.
    pub(crate) fn after_cut(&self, alloc: Global, x: u32, y: u32) -> Result<Regs, NoMemory>
        ensures { IfOk result (λ r. r ≡ registry.after_cut self.now x y self.now.store) }
    {
        let regs = self.copy(alloc)?;
        if self.makes_cut(x, y) {
            regs.appended(selection(x, y))
        } else {
            Ok(regs)
        }
    }
}

/// The points from this place on.
fn from(points: &[Point], at: usize) -> &[Point]
    ensures { result.now ≡ drop at points.now }
{
    if at < points.len() {
        points.split_at(at).1
    } else {
        &[]
    }
}
