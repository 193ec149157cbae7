//! The numbers of an engine that are used, and what each wrote.

ghost use Rattle.std.specs.Prelude.{◌≡◌, ◌≤◌, ◌<◌, ◌⊎◌, ◌-◌, ◌+◌, ℕ, length, drop, slice_get, insert, map, None, Some, IfSome, Bool};
ghost use Rattle.std.specs.List.{AllByRecursion, list_any};
ghost use Rattle.std.specs.Vec.{vec_len, vec_capacity};
ghost use Rattle.sk_engine.specs.Counts.{Used, used, climbed, Entered};

use crate::row_id::RowId;
use sk_model::Label;
use std::collections::BTreeSet;

/// A number that is used: whose it is, and which rows it wrote, or `None` where it was voided.
#[derive(Drop)]
pub struct Number {
    pub(crate) n: u32,
    pub(crate) by: Label,
    pub(crate) wrote: Option<BTreeSet<RowId>>,
}

/// How many of the numbers, from the front on, are below n. It looks from the end.
pub(crate) fn count_below(numbers: &[Number], n: u32) -> usize
    ensures within { result ≤ length numbers.now }
    ensures behind { AllByRecursion (λ u. n ≤ u.n) (drop result numbers.now) }
    ensures before { (result ≡ 0) ⊎ IfSome (slice_get numbers.now (result - 1)) (λ u. u.n < n) }
{
    let mut at = numbers.len();
    while at > 0 {
        if numbers[at - 1].n < n {
            return at;
        }
        at -= 1;
    }
    at
}

/// Up from a number as long as the next one is the next used.
pub(crate) fn climb(from: u32, numbers: &[Number]) -> u32
    ensures { result ≡ climbed from (map used numbers.now) }
{
    let mut top = from;
    let mut list = numbers;
    while let [number, more @ ..] = list {
        if number.n <= top || number.n - top != 1 {
            return top;
        }
        top = number.n;
        list = more;
    }
    top
}

/// Enters a number, for which there is room. Answers the number up to which each one is used.
pub(crate) fn enter(numbers: &mut Vec<Number>, horizon: u32, number: Number) -> u32
    requires { vec_len numbers.old < vec_capacity numbers.old }
    ensures entered { Entered horizon result (map used numbers.old.items) (map used numbers.new.items) (used number) }
    ensures len { vec_len numbers.new ≡ vec_len numbers.old + 1 }
    ensures capacity { vec_capacity numbers.old ≤ vec_capacity numbers.new }
{
    let at = count_below(numbers.as_slice(), number.n);
    if numbers.insert(at, number).is_err() {
        return horizon;
    }
    climb(horizon, numbers.as_slice().split_at(at).1)
}
