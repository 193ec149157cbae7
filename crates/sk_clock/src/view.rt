//! What a pass knows of the clock. No value of these types is made.

use atomic_table::TableRule;
use sk_weave::{Event, Point};
use std::collections::LinkedList;

/// One step on the clock's words.
pub enum WordStep {
    /// The word at this place was loaded, and held this number.
    Load(u64, u64),
    /// The registry changed.
    Change(Event),
}

/// A step of the history, and the pass that made it.
pub struct Entry {
    pub by: LinkedList<u64>,
    pub step: WordStep,
}

/// What a clock begins with: how many partitions of how many points, and the first point.
#[derive(Clone, Copy)]
pub struct Start {
    pub partitions: u32,
    pub size: u32,
    pub point: Point,
}

/// Which split made a pass, how many splits it made itself, and its own steps.
pub struct Own {
    pub path: LinkedList<u64>,
    pub splits: u64,
    pub steps: LinkedList<WordStep>,
}

/// What a pass knows.
pub struct View {
    pub start: Start,
    /// The history as far as it has seen it.
    pub seen: LinkedList<Entry>,
    /// What it was told that another pass has seen.
    pub told: LinkedList<Entry>,
    /// Whether it is a pass that is in use.
    pub live: bool,
    pub own: Own,
    /// The passes that were joined into it.
    pub taken: LinkedList<Own>,
}

/// What holds of the clock's words and of all passes between any two steps.
pub struct Rule;

impl TableRule<(), View, Start> for Rule {
    ghost use Rattle.sk_clock.specs.Kept.{Kept, newborn};

    ghost holds = { Kept };

    ghost first = { newborn };
}
