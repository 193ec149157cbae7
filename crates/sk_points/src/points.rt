//! The registry of points on one thread.

ghost use Rattle.std.specs.Prelude.{◌≡◌, ◌<◌, ◌≤◌, ◌==◌, ◌&&◌, not, nat_lt, IfOk, None, length, slice_index_or};
ghost use Rattle.std.specs.List.{prefix_len};
ghost use Rattle.sk_model.specs.Numbers.{greatest_number};
ghost use Rattle.sk_weave.specs.Registry.{regs_at, is_within, greatest_within, first_of, last_of, drawn};
ghost use Rattle.sk_weave.specs.RegistryLaws.{CanStart};
ghost use Rattle.sk_weave.specs.Promise.{HasDrawn};
ghost use Rattle.sk_points.specs.Parts.{points_in, next_parts, next_newest, room_parts, room_newest, pushed};
ghost use Rattle.sk_points.specs.Stands.{StandsFor, Appends, AppendsCut, Stands, Picks};

use crate::partition::Partition;
use sk_model::GREATEST_NUMBER;
use sk_rows::NoMemory;
use sk_weave::{
    CutFound, DrawFault, Passed, Point, Recycled, Registry, Selected, before_b, pick_newest,
};
use std::alloc::Global;

/// The counters and the points of a run, for one user.
///
/// The points stand in partitions. Where all are full, the oldest is emptied and begun anew.
#[derive(Drop)]
pub struct Points {
    mem: u32,
    store: u32,
    /// How many points a partition has room for.
    size: usize,
    /// All partitions, the oldest first.
    parts: Vec<Partition>,
    /// Which of them is being filled. Those behind it are empty.
    newest: usize,
}

impl Points {
    /// A registry with so many partitions of so many points each, whose first point is this selection. Its counters begin there.
    pub fn new(
        alloc: Global,
        partitions: u32,
        points: u32,
        start: Point,
    ) -> Result<Points, NoMemory>
        requires { CanStart partitions points start }
        ensures { IfOk result (λ p. StandsFor p (regs_at partitions points start)) }
    {
        let size = points as usize;
        let mut first = Partition::new(alloc, size)?;
        first.push(start);
        let mut parts = Vec::new(alloc);
        parts.push(first)?;
        for _ in 1..partitions {
            parts.push(Partition::new(alloc, size)?)?;
        }
        Ok(Points {
            mem: start.a,
            store: start.b,
            size,
            parts,
            newest: 0,
        })
    }

    /// The live point at this place.
    fn point(&self, at: usize) -> Point
        requires stands { Stands self.now }
        requires there { at < length (points_in self.now.parts.items) }
        ensures { result ≡ slice_index_or (points_in self.now.parts.items) at result }
    {
        self.parts[at / self.size].get(at % self.size)
    }

    /// How many points are live.
    fn len(&self) -> usize
        requires { Stands self.now }
        ensures { result ≡ length (points_in self.now.parts.items) }
    {
        self.newest * self.size + self.parts[self.newest].len()
    }

    /// The oldest live point.
    fn first(&self) -> Point
        requires { Stands self.now }
        ensures { result ≡ first_of (points_in self.now.parts.items) }
    {
        self.parts[0].get(0)
    }

    /// The last point.
    fn last(&self) -> Point
        requires { Stands self.now }
        ensures { result ≡ last_of (points_in self.now.parts.items) }
    {
        let part = &self.parts[self.newest];
        part.get(part.len() - 1)
    }

    /// How many live points from the front on are not past the two numbers.
    fn count_within(&self, x: u32, y: u32) -> usize
        requires { Stands self.now }
        ensures { result ≡ prefix_len (is_within x y) (points_in self.now.parts.items) }
    {
        let mut low = 0;
        let mut high = self.len();
        while low < high {
            let middle = low + (high - low) / 2;
            if is_within(x, y, self.point(middle)) {
                low = middle + 1;
            } else {
                high = middle;
            }
        }
        low
    }

    /// The storage snapshot that goes with the anchor, which the oldest live point is not past.
    fn pick(&self, a: u32) -> Selected
        requires { Stands self.now }
        ensures { Picks self.now a result }
    {
        let count = self.count_within(a, u32::MAX);
        if count < self.len() {
            Selected {
                b: before_b(self.point(count)),
                made: false,
            }
        } else {
            pick_newest(self.last(), a, self.store)
        }
    }

    /// The last live point that is not past the two numbers.
    fn greatest_within(&self, x: u32, y: u32) -> Option<Point>
        requires { Stands self.now }
        ensures { result ≡ greatest_within x y None (points_in self.now.parts.items) }
    {
        let count = self.count_within(x, y);
        if count == 0 {
            None
        } else {
            Some(self.point(count - 1))
        }
    }

    /// Appends the selection of the two numbers where a cut makes it, and says whether it did.
    fn append_cut(&mut self, x: u32, y: u32) -> bool
        requires { HasDrawn StandsFor self.old x y }
        ensures { AppendsCut self.old self.new x y result }
    {
        let made = makes_cut(self.last(), x, y, self.store);
        if made {
            self.append(Point {
                a: x,
                b: y,
                commit: false,
            });
        }
        made
    }

    /// Puts a point behind the others.
    fn append(&mut self, point: Point)
        requires { Stands self.old }
        ensures { Appends self.old self.new point }
    {
        self.make_room();
        self.parts[self.newest].push(point);
    }

    /// Goes on to the next partition where the newest is full.
    fn make_room(&mut self)
        requires { Stands self.old }
        ensures parts { self.new.parts.items ≡ room_parts self.old.parts.items self.old.newest }
        ensures newest { self.new.newest ≡ room_newest self.old.parts.items self.old.newest }
        ensures mem { self.new.mem ≡ self.old.mem }
        ensures store { self.new.store ≡ self.old.store }
        ensures size { self.new.size ≡ self.old.size }
    {
        if self.parts[self.newest].is_full() {
            self.advance();
        }
    }

    /// Goes on to the next partition: an empty one, or the oldest, emptied.
    fn advance(&mut self)
        requires { Stands self.old }
        ensures parts { self.new.parts.items ≡ next_parts self.old.parts.items self.old.newest }
        ensures newest { self.new.newest ≡ next_newest self.old.parts.items self.old.newest }
        ensures mem { self.new.mem ≡ self.old.mem }
        ensures store { self.new.store ≡ self.old.store }
        ensures size { self.new.size ≡ self.old.size }
    {
        if self.newest + 1 < self.parts.len() {
            self.newest += 1;
        } else {
            self.parts.rotate_left(1);
            self.parts[self.newest].clear();
        }
    }
}

impl Registry for Points {
    ghost use Rattle.sk_points.specs.Stands.{StandsFor};

    ghost stands = { StandsFor };

    ghost is_sound = { λ x r h. h.sound };

    fn begin(&mut self) -> u32 {
        self.mem
    }

    fn store_now(&mut self) -> u32 {
        self.store
    }

    fn select(&mut self, a: u32) -> Result<Selected, Recycled> {
        let oldest = self.first();
        if a < oldest.a {
            return Err(Recycled { a, oldest });
        }
        let selected = self.pick(a);
        if selected.made {
            self.append(Point {
                a,
                b: selected.b,
                commit: false,
            });
        }
        Ok(selected)
    }

    fn draw_mem(&mut self, floor: u32) -> Result<u32, DrawFault> {
        match draw(self.mem, floor) {
            Ok(n) => {
                self.mem = n;
                Ok(n)
            }
            Err(fault) => Err(fault),
        }
    }

    fn draw_store(&mut self, floor: u32) -> Result<u32, DrawFault> {
        match draw(self.store, floor) {
            Ok(n) => {
                self.store = n;
                Ok(n)
            }
            Err(fault) => Err(fault),
        }
    }

    fn check(&mut self, ca: u32, cb: u32) -> Result<(), Passed> {
        let last = self.last();
        if is_smaller(last, ca, cb) {
            self.append(Point {
                a: ca,
                b: cb,
                commit: true,
            });
            Ok(())
        } else {
            Err(Passed { point: last })
        }
    }

    fn cut(&mut self, x: u32, y: u32) -> CutFound {
        let made = self.append_cut(x, y);
        CutFound {
            cut: self.greatest_within(x, y),
            made,
        }
    }

    fn oldest(&mut self) -> Point {
        self.first()
    }
}

/// The next number of a counter.
fn draw(counter: u32, floor: u32) -> Result<u32, DrawFault>
    requires { counter ≤ greatest_number }
    ensures { result ≡ drawn counter floor }
{
    if counter == GREATEST_NUMBER {
        Err(DrawFault::Spent)
    } else if counter < floor {
        Err(DrawFault::Early { floor, counter })
    } else {
        Ok(counter + 1)
    }
}

fn is_smaller(last: Point, ca: u32, cb: u32) -> bool
    ensures { result ≡ (nat_lt last.a ca && nat_lt last.b cb) }
{
    let a = last.a < ca;
    let b = last.b < cb;
    a && b
}

/// Whether a cut makes a point, where the storage counter is `now`.
fn makes_cut(last: Point, x: u32, y: u32, now: u32) -> bool
    ensures { result ≡ ((now == y) && (is_within x y last && not ((last.a == x) && (last.b == y)))) }
{
    let same = now == y;
    let within = is_within(x, y, last);
    let a = last.a == x;
    let b = last.b == y;
    same && within && !(a && b)
}

fn is_within(x: u32, y: u32, point: Point) -> bool
    ensures { result ≡ is_within x y point }
{
    let a = point.a <= x;
    let b = point.b <= y;
    a && b
}
