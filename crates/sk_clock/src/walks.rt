//! Walks over the ring: the oldest live point, and the last one.

ghost use Rattle.std.specs.Prelude.{◌≡◌};
ghost use Rattle.sk_weave.specs.Registry.{oldest_of};
ghost use Rattle.std.specs.Prelude.{None};
ghost use Rattle.sk_clock.specs.Answers.{At};
ghost use Rattle.sk_clock.specs.Of.{IsOf};
ghost use Rattle.sk_clock.specs.Walks.{FindsOldest, FindsLast};

use crate::pass::{Clock, Pass};
use sk_weave::{Point, unpack};

/// The place of the number of the oldest live partition.
pub(crate) const LOW: usize = 2;

/// The place of the ring's first word.
pub(crate) const RING: usize = 3;

/// What was found of the last point.
#[derive(Clone, Copy, Drop)]
pub(crate) struct Last {
    /// The oldest live partition, seen before.
    pub(crate) low: u64,
    /// The number of the last point.
    pub(crate) at: u64,
    /// Its word.
    pub(crate) word: u64,
    /// The word at the next place.
    pub(crate) next: u64,
}

impl Clock {
    /// The oldest live partition, and the word of its first point.
    pub(crate) fn oldest_word(&self, pass: &mut Pass) -> (u64, u64)
        requires { IsOf self.now pass.old }
        ensures { IsOf self.now pass.new × FindsOldest pass.old.view result.0 result.1 pass.new.view }
    {
        let size = self.size;
        let capacity = self.parts * self.size;
        let mut low = self.load(pass, LOW);
        loop {
            let word = self.load(pass, low as usize * size % capacity + RING);
            let again = self.load(pass, LOW);
            if again == low {
                return (low, word);
            }
            low = again;
        }
    }

    /// The last point.
    pub(crate) fn last(&self, pass: &mut Pass) -> Last
        requires { IsOf self.now pass.old }
        ensures { IsOf self.now pass.new × FindsLast pass.old.view result.low result.at result.word result.next pass.new.view }
    {
        let size = self.size as u64;
        let capacity = (self.parts * self.size) as u64;
        let (mut low, mut word) = self.oldest_word(pass);
        let mut k = low * size;
        loop {
            let next = self.load(pass, ((k + 1) % capacity) as usize + RING);
            let again = self.load(pass, LOW);
            if again * size > k + 1 {
                (low, word) = self.oldest_word(pass);
                k = low * size;
            } else if next > word {
                k += 1;
                word = next;
            } else {
                return Last {
                    low,
                    at: k,
                    word,
                    next,
                };
            }
        }
    }

    /// The oldest live point.
    pub fn oldest(&self, pass: &mut Pass) -> Point
        requires { IsOf self.now pass.old }
        ensures of { IsOf self.now pass.new }
        ensures answer { At pass.old.view (λ r. result ≡ oldest_of r) None pass.new.view }
    {
        let (_, word) = self.oldest_word(pass);
        unpack(word)
    }
}
