//! The commits of one engine by their numbers.

ghost use Rattle.std.specs.Prelude.{◌≡◌, ◌≤◌, length, IfOk, Some};
ghost use Rattle.std.specs.List.Sorted.{IsNonDecreasingBy};
ghost use Rattle.sk_places.specs.Marks.{number_by, marks, last_end};

use sk_model::{Commit, EngineName};
use sk_rows::NoMemory;
use std::alloc::Global;

/// A commit that has a number of one engine, and how many commits the list has up to it.
#[derive(Clone, Copy)]
pub(crate) struct Mark {
    pub(crate) n: u32,
    pub(crate) end: u32,
}

/// The commit's number of this engine.
fn number_by(name: EngineName, commit: &Commit) -> Option<u32>
    ensures { result ≡ number_by name commit.now }
{
    match name {
        EngineName::Mem => commit.mem,
        EngineName::Store => commit.store,
    }
}

/// The marks of this engine's commits in the list.
pub(crate) fn marks_of(
    alloc: Global,
    name: EngineName,
    order: &[Commit],
) -> Result<Vec<Mark>, NoMemory>
    requires { length order.now ≤ 4294967295 }
    ensures { IfOk result (λ all. all.items ≡ marks name 0 order.now) }
{
    let mut all = Vec::new(alloc);
    for (i, commit) in order.iter().enumerate() {
        let end = i as u32 + 1;
        if let Some(n) = number_by(name, commit) {
            all.push(Mark { n, end })?;
        }
    }
    Ok(all)
}

/// The end of the last mark up to the snapshot, or 0 where there is none.
pub(crate) fn last_end(marks: &[Mark], snapshot: Option<u32>) -> u32
    requires { IsNonDecreasingBy (λ mark. mark.n) marks.now }
    ensures { result ≡ last_end 0 snapshot marks.now }
{
    match snapshot {
        Some(upto) => end_upto(marks, upto),
        None => 0,
    }
}

/// The end of the last mark with a number of at most `upto`, or 0 where there is none.
fn end_upto(marks: &[Mark], upto: u32) -> u32
    requires { IsNonDecreasingBy (λ mark. mark.n) marks.now }
    ensures { result ≡ last_end 0 (Some upto) marks.now }
{
    let behind = marks.partition_point(|mark| mark.n <= upto);
    if behind == 0 {
        0
    } else {
        marks[behind - 1].end
    }
}
