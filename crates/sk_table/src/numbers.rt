//! The numbers of an engine.

ghost use Rattle.std.specs.Prelude.{◌≡◌, ◌==◌, ◌+◌, ◌||◌, IfOk, max, min};
ghost use Rattle.std.specs.List.{fold, list_any};
ghost use Rattle.sk_model.specs.EngineReplies.{is_used, climb, top_number, horizon_of, least_open, purged_to};

use crate::entries::find;
use crate::table::EngineTable;
use crate::version::Opening;
use sk_model::Label;
use sk_rows::NoMemory;

fn is_among(n: u32, numbers: &[u32]) -> bool
    ensures { result ≡ list_any (◌==◌ n) numbers.now }
{
    numbers.iter().any(|m| n == *m)
}

fn greatest_voided(numbers: &[u32]) -> u32
    ensures { result ≡ fold max 0 numbers.now }
{
    let mut top: u32 = 0;
    for n in numbers {
        top = top.max(*n);
    }
    top
}

fn greatest_stamped(from: u32, stamped: &[(u32, Label)]) -> u32
    ensures { result ≡ fold (λ m p. max m p.0) from stamped.now }
{
    let mut top = from;
    for entry in stamped {
        top = top.max(entry.0);
    }
    top
}

fn least_open(openings: &[(Label, Opening)], from: u32) -> u32
    ensures { result ≡ least_open openings.now from }
{
    let mut least = from;
    for entry in openings {
        least = least.min(entry.1.snapshot);
    }
    least
}

impl EngineTable {
    /// Whether the number was stamped or voided.
    pub(crate) fn is_used(&self, n: u32) -> bool
        ensures { result ≡ is_used self.now n }
    {
        find(self.stamped.as_slice(), &n).is_some() || is_among(n, self.voided.as_slice())
    }

    /// A number that no used one is past.
    fn top_number(&self) -> u32
        ensures { result ≡ top_number self.now }
    {
        greatest_stamped(
            greatest_voided(self.voided.as_slice()),
            self.stamped.as_slice(),
        )
    }

    /// Up from a number as long as the next one is used, at most so many times. Past the greatest number of a word it counts as want of memory.
    #[tactic(auto, using(crate::proofs::Climbing::climb_more, crate::proofs::Climbing::climb_ends))]
    fn climb(&self, times: u32, from: u32) -> Result<u32, NoMemory>
        ensures { IfOk result (λ n. n ≡ climb times (is_used self.now) from) }
    {
        let mut n = from;
        let mut left = times;
        while left > 0 {
            let Some(next) = n.checked_add(1) else {
                return Err(NoMemory);
            };
            if !self.is_used(next) {
                return Ok(n);
            }
            n = next;
            left -= 1;
        }
        Ok(n)
    }

    /// The greatest number up to which each one from the start on was stamped or voided. Past the greatest number of a word it counts as want of memory.
    pub fn horizon_of(&self) -> Result<u32, NoMemory>
        ensures { IfOk result (λ n. n ≡ horizon_of self.now) }
    {
        self.climb(self.top_number(), self.start)
    }

    /// The number up to which a purge gives up older snapshots.
    pub fn purged_to(&self, upto: u32) -> Result<u32, NoMemory>
        ensures { IfOk result (λ n. n ≡ purged_to self.now upto) }
    {
        let horizon = self.horizon_of()?;
        let least = least_open(self.openings.as_slice(), upto.min(horizon));
        Ok(self.purged.max(least))
    }
}
