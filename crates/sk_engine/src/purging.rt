//! What a purge gives up.

ghost use Rattle.std.specs.Prelude.{◌≡◌, ◌≤◌, ◌<◌, length, take, slice_get, IfSome};
ghost use Rattle.std.specs.List.{AllByRecursion};
ghost use Rattle.std.specs.List.Sorted.{IsStrictlySortedBy};
ghost use Rattle.std.specs.Map.{keys_of};
ghost use Rattle.sk_model.specs.Engine.{label_cmp};
ghost use Rattle.sk_engine.specs.Rows.{Forgets};
ghost use Rattle.sk_engine.specs.Stands.{least_in};

use crate::numbers::Number;
use crate::openings::Opening;
use crate::row_id::RowId;
use crate::rows::Rows;
use sk_model::Label;
use std::collections::{BTreeMap, BTreeSet};

/// Whether there are openings. Asked for its length, a map says that its keys rise.
pub(crate) fn has_openings(openings: &BTreeMap<Label, Opening>) -> bool
    ensures { IsStrictlySortedBy label_cmp (keys_of openings.now.entries) }
{
    openings.len() > 0
}

/// The least snapshot that is open, or this number where none is below it.
pub(crate) fn least_open(openings: &BTreeMap<Label, Opening>, most: u32) -> u32
    ensures { result ≡ least_in openings.now.entries most }
{
    let mut least = most;
    for (_, opening) in openings {
        least = least.min(opening.snapshot);
    }
    least
}

/// How many of the numbers, from the front on, are up to n.
pub(crate) fn count_upto(numbers: &[Number], n: u32) -> usize
    ensures within { result ≤ length numbers.now }
    ensures front { AllByRecursion (λ u. u.n ≤ n) (take result numbers.now) }
    ensures behind { IfSome (slice_get numbers.now result) (λ u. n < u.n) }
{
    let mut count = 0;
    while count < numbers.len() {
        if numbers[count].n > n {
            return count;
        }
        count += 1;
    }
    count
}

/// Gives up what of these rows only snapshots before this number need.
fn forget_rows<R: Rows>(rows: &mut R, row_ids: &BTreeSet<RowId>, upto: u32)
    ensures later { R.faults rows.old ≤ R.faults rows.new }
    ensures forgets { Forgets R.shows upto rows.old rows.new }
{
    for row_id in row_ids {
        rows.forget(row_id.table, &row_id.key, upto);
    }
}

/// The same of all rows that these numbers wrote.
pub(crate) fn forget_all<R: Rows>(rows: &mut R, numbers: &[Number], upto: u32)
    ensures later { R.faults rows.old ≤ R.faults rows.new }
    ensures forgets { Forgets R.shows upto rows.old rows.new }
{
    for number in numbers {
        if let Some(row_ids) = &number.wrote {
            forget_rows(rows, row_ids, upto);
        }
    }
}
