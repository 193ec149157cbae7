//! What a pass knows of a book. No value of these types is made.

use crate::journaled::Journaled;
use atomic_table::TableRule;
use std::collections::LinkedList;

/// One entry behind those with which the book began, and the pass that made it.
pub struct Entry<E> {
    pub by: LinkedList<u64>,
    pub item: E,
}

/// Which split made a pass, how many splits it made itself, its own entries, and the entries that it has seen.
pub struct Own<E> {
    pub path: LinkedList<u64>,
    pub splits: u64,
    pub items: LinkedList<E>,
    pub seen: LinkedList<Entry<E>>,
}

/// Where a pass stands: it has not the lock, it makes the book of this value, or it has the lock and took this value.
pub enum Stage<V> {
    Idle,
    Opening(V),
    Holding(V),
}

/// The entries with which the book began, where the pass stands, and at the close those that it has taken in.
pub struct View<V, E> {
    pub base: LinkedList<E>,
    pub stage: Stage<V>,
    pub live: bool,
    pub own: Own<E>,
    pub taken: LinkedList<Own<E>>,
}

pub struct Rule;

impl<V: Journaled> TableRule<Option<V>, View<V, (V::Call, V::Reply)>, V> for Rule {
    ghost use Rattle.sk_booked.specs.Kept.{Kept, newborn};

    ghost holds = { Kept V.journal V.ready V.kin };

    ghost first = { newborn V.journal };
}
