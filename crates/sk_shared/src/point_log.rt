//! The registry of a run, and all its points.

ghost use Rattle.std.specs.Prelude.{◌≡◌, ◌≤◌, IfOk, OnErr};
ghost use Rattle.sk_commit.specs.declared.asking.RegistryCall.TheVariants as call;
ghost use Rattle.sk_model.specs.declared.engine.EngineName.TheVariants.{Mem};
ghost use Rattle.sk_recorded.specs.Joined.{from_number};
ghost use Rattle.sk_weave.specs.Registry.{Regs, regs_at};
ghost use Rattle.sk_weave.specs.RegistryLaws.{CanStart};
ghost use Rattle.sk_shared.specs.Logged.{Logs, Told, CutsLog, LogsSame, ShowsOldest};

use sk_commit::{RegistryCall, RegistryReply};
use sk_model::PointList;
use sk_points::Points;
use sk_rows::{List, NoMemory};
use sk_session::Unanswered;
use sk_weave::{CutFound, DrawFault, Point, Registry};
use std::alloc::Global;
use std::marker::Model;

/// The registry of a run, and every point of the run in order, those that the registry recycled too.
///
/// Contracts see the registry and the list of the points.
#[derive(Drop)]
pub struct PointLog {
    points: Points,
    all: Vec<Point>,
}

impl Model for PointLog {
    ghost use Rattle.sk_shared.specs.Logged.{Logged, IsLogged};

    ghost Value = { Logged };

    ghost view = { λ log. record { points = log.points; all = log.all.items } };

    ghost invariant = { λ log. IsLogged (record { points = log.points; all = log.all.items }) };
}

impl PointLog {
    /// The registry with so many partitions of so many points each, whose first point is this selection.
    pub fn new(
        alloc: Global,
        partitions: u32,
        size: u32,
        start: Point,
    ) -> Result<PointLog, NoMemory>
        requires { CanStart partitions size start }
        ensures { IfOk result (λ log. Logs log (regs_at partitions size start)) }
    {
        let points = Points::new(alloc, partitions, size, start)?;
        let mut all = Vec::new(alloc);
        all.push(start)?;
        Ok(PointLog { points, all })
    }

    /// Both counters, and all points of the run.
    pub fn into_parts(self) -> (u32, u32, PointList)
        ensures counters { (r : Regs) → Logs self r → (result.0 ≡ r.mem) × (result.1 ≡ r.store) }
        ensures points { result.2 ≡ self.all }
    {
        let PointLog { mut points, all } = self;
        let mem = points.begin();
        let store = points.store_now();
        (mem, store, List::from_vec(all))
    }

    /// Takes room for the next two points.
    pub fn make_room(&mut self) -> Result<(), NoMemory>
        ensures { self.new ≡ self.old }
    {
        self.all.reserve(2)?;
        Ok(())
    }

    /// Makes the call. There is no answer where it names a number that was not drawn, where a draw comes too early, and where there is no room for the point of a check.
    pub fn answer(&mut self, call: RegistryCall) -> Result<RegistryReply, Unanswered>
        ensures { IfOk result (λ reply. Told self.old call reply self.new) }
    {
        match call {
            RegistryCall::Begin => Ok(self.begin()),
            RegistryCall::StoreNow => Ok(self.store_now()),
            RegistryCall::Select { a } => self.select(a),
            RegistryCall::DrawMem { floor } => self.draw_mem(floor),
            RegistryCall::DrawStore { floor } => self.draw_store(floor),
            RegistryCall::Check { ca, cb } => self.check(ca, cb),
        }
    }

    fn begin(&mut self) -> RegistryReply
        ensures { Told self.old call.Begin result self.new }
    {
        RegistryReply::Number(self.points.begin())
    }

    fn store_now(&mut self) -> RegistryReply
        ensures { Told self.old call.StoreNow result self.new }
    {
        RegistryReply::Number(self.points.store_now())
    }

    fn select(&mut self, a: u32) -> Result<RegistryReply, Unanswered>
        ensures { IfOk result (λ reply. Told self.old (call.Select a) reply self.new) }
    {
        if a > self.points.begin() {
            return Err(Unanswered);
        }
        if self.all.reserve(2).is_err() {
            return Ok(RegistryReply::NoMemory);
        }
        match self.points.select(a) {
            Ok(selected) => {
                if selected.made {
                    self.all.push_reserved(Point {
                        a,
                        b: selected.b,
                        commit: false,
                    });
                }
                Ok(RegistryReply::Selected(selected))
            }
            Err(recycled) => Ok(RegistryReply::Recycled(recycled)),
        }
    }

    fn draw_mem(&mut self, floor: u32) -> Result<RegistryReply, Unanswered>
        ensures { IfOk result (λ reply. Told self.old (call.DrawMem floor) reply self.new) }
    {
        match self.points.draw_mem(floor) {
            Ok(n) => return Ok(RegistryReply::Number(n)),
            Err(DrawFault::Spent) => return Ok(RegistryReply::NotDrawn(DrawFault::Spent)),
            Err(DrawFault::Early { .. }) => return Err(Unanswered),
        }
    }

    fn draw_store(&mut self, floor: u32) -> Result<RegistryReply, Unanswered>
        ensures { IfOk result (λ reply. Told self.old (call.DrawStore floor) reply self.new) }
    {
        match self.points.draw_store(floor) {
            Ok(n) => return Ok(RegistryReply::Number(n)),
            Err(DrawFault::Spent) => return Ok(RegistryReply::NotDrawn(DrawFault::Spent)),
            Err(DrawFault::Early { .. }) => return Err(Unanswered),
        }
    }

    fn check(&mut self, ca: u32, cb: u32) -> Result<RegistryReply, Unanswered>
        ensures { IfOk result (λ reply. Told self.old (call.Check ca cb) reply self.new) }
    {
        if ca > self.points.begin() || cb > self.points.store_now() {
            return Err(Unanswered);
        }
        if self.all.reserve(1).is_err() {
            return Err(Unanswered);
        }
        match self.points.check(ca, cb) {
            Ok(()) => {
                self.all.push_reserved(Point {
                    a: ca,
                    b: cb,
                    commit: true,
                });
                Ok(RegistryReply::Done)
            }
            Err(passed) => Ok(RegistryReply::Passed(passed)),
        }
    }

    /// The cut of a flush at these two horizons. There is no answer where one of them was not drawn, and where there is no room for the cut's point.
    pub fn cut(&mut self, x: u32, y: u32) -> Result<CutFound, Unanswered>
        ensures found { IfOk result (λ found. CutsLog self.old x y found self.new) }
        ensures same { OnErr result (LogsSame self.old self.new) }
    {
        let mem = self.points.begin();
        let store = self.points.store_now();
        if x > mem || y > store {
            return Err(Unanswered);
        }
        if self.all.reserve(1).is_err() {
            return Err(Unanswered);
        }
        let found = self.points.cut(x, y);
        if found.made {
            self.all.push_reserved(Point {
                a: x,
                b: y,
                commit: false,
            });
        }
        Ok(found)
    }

    /// The oldest live point.
    pub fn oldest(&mut self) -> Point
        ensures { ShowsOldest self.old result self.new }
    {
        self.points.oldest()
    }

    /// The points from the first one on whose number of the memory engine is at least this. It looks from the last one back.
    pub fn points_from(&self, a: u32) -> &[Point]
        ensures { result.now ≡ from_number Mem a self.now.all }
    {
        let all = self.all.as_slice();
        let mut front = all;
        while let [before @ .., last] = front {
            if last.a < a {
                return &all[front.len()..];
            }
            front = before;
        }
        all
    }
}
