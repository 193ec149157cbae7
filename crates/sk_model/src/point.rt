//! Points: the pairs of numbers at which the two engines show one state.

use sk_rows::List;

/// A pair of numbers, one of each engine: a selection that a transaction made, or the two numbers of a commit that wrote both engines.
#[derive(Clone, Copy, Debug, PartialEq, Eq)]
pub struct Point {
    /// The memory engine's number.
    pub a: u32,
    /// The storage engine's number.
    pub b: u32,
    /// Whether it is a commit.
    pub commit: bool,
}

/// Points in order.
pub type PointList = List<Point>;

/// Why no snapshot was selected: the oldest point that is kept is past the anchor.
#[derive(Clone, Copy, Debug, PartialEq, Eq)]
pub struct Recycled {
    /// The memory engine's snapshot of the transaction that asked.
    pub a: u32,
    /// The oldest point that is kept.
    pub oldest: Point,
}
