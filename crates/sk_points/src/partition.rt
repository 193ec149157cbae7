//! A partition of the ring.

ghost use Rattle.std.specs.Prelude.{◌≡◌, ◌∷◌, ◌++◌, [], ◌<◌, ◌==◌, length, slice_index_or, IfOk};
ghost use Rattle.sk_points.specs.Parts.{RingPart};

use sk_rows::NoMemory;
use sk_weave::Point;
use std::alloc::Global;
use std::marker::Model;

/// Some points, and room for as many as a partition has.
///
/// Contracts see its points and its size.
#[derive(Drop)]
pub struct Partition {
    points: Vec<Point>,
    size: usize,
}

impl Model for Partition {
    ghost use Rattle.std.specs.Prelude.{◌≤◌, List};
    ghost use Rattle.std.specs.Vec.{vec_len, vec_capacity};
    ghost use Rattle.sk_points.specs.Parts.{RingPart};

    ghost Value = { RingPart };

    ghost view = { λ p. record { points = p.points.items; size = p.size } };

    ghost invariant = { λ p. (vec_len p.points ≤ p.size) × (p.size ≤ vec_capacity p.points) };
}

impl Partition {
    /// An empty partition of this size.
    pub fn new(alloc: Global, size: usize) -> Result<Partition, NoMemory>
        ensures { IfOk result (λ p. p ≡ record { points = []; size = size }) }
    {
        let points = Vec::with_capacity(alloc, size)?;
        Ok(Partition { points, size })
    }

    /// How many points it has.
    pub fn len(&self) -> usize
        ensures { result ≡ length self.now.points }
    {
        self.points.len()
    }

    /// Whether it has no room left.
    pub fn is_full(&self) -> bool
        ensures { result ≡ (length self.now.points == self.now.size) }
    {
        self.points.len() == self.size
    }

    /// The point at this place.
    pub fn get(&self, at: usize) -> Point
        requires { at < length self.now.points }
        ensures { result ≡ slice_index_or self.now.points at result }
    {
        self.points[at]
    }

    /// Puts a point behind the others.
    pub fn push(&mut self, point: Point)
        requires { length self.old.points < self.old.size }
        ensures { self.new ≡ record self.old { points = self.old.points ++ point ∷ [] } }
    {
        self.points.push_reserved(point);
    }

    /// Takes all points out.
    pub fn clear(&mut self)
        ensures { self.new ≡ record self.old { points = [] } }
    {
        self.points.clear();
    }
}
