//! The other number of each commit over both engines.

ghost use Rattle.std.specs.Prelude.{◌≡◌, IfOk};
ghost use Rattle.sk_linked.specs.Reads.{number_at};
ghost use Rattle.sk_recorded.specs.Joined.{other_at, from_number, other_first, other_number, set_other, joined};
ghost use Rattle.sk_model.specs.Stamped.{number_in};

use sk_model::{Commit, CommitList, EngineName, Point};
use sk_rows::NoMemory;
use std::alloc::Global;

fn number_at(name: EngineName, point: Point) -> u32
    ensures { result ≡ number_at name point }
{
    match name {
        EngineName::Mem => point.a,
        EngineName::Store => point.b,
    }
}

fn other_at(name: EngineName, point: Point) -> u32
    ensures { result ≡ other_at name point }
{
    match name {
        EngineName::Mem => point.b,
        EngineName::Store => point.a,
    }
}

/// The points from the first one on whose number is not below `n`.
fn from_number(name: EngineName, n: u32, points: &[Point]) -> &[Point]
    ensures { result.now ≡ from_number name n points.now }
{
    let mut rest = points;
    while let [point, later @ ..] = rest {
        if number_at(name, *point) >= n {
            return rest;
        }
        rest = later;
    }
    rest
}

/// The other number of the first of these points, where it is the commit point of `n`.
fn other_first(name: EngineName, n: u32, points: &[Point]) -> Option<u32>
    ensures { result ≡ other_first name n points.now }
{
    match points {
        [point, ..] if point.commit && number_at(name, *point) == n => Some(other_at(name, *point)),
        _ => None,
    }
}

/// The points from the one on at which the search for the last number ended.
#[derive(Clone, Copy)]
struct Walk<'a> {
    rest: &'a [Point],
    last: u32,
}

/// Goes on to the number: from where it stands, or from the first point where the number is below the last one.
fn walk_to<'a>(name: EngineName, points: &'a [Point], walk: Walk<'a>, n: u32) -> Walk<'a>
    requires { walk.rest.now ≡ from_number name walk.last points.now }
    ensures rest { result.rest.now ≡ from_number name n points.now }
    ensures last { result.last ≡ n }
{
    if n < walk.last {
        let rest = from_number(name, n, points);
        return Walk { rest, last: n };
    }
    let rest = from_number(name, n, walk.rest);
    Walk { rest, last: n }
}

/// The other number of the commit of this one, and where the search for it ended.
fn other_number<'a>(
    name: EngineName,
    points: &'a [Point],
    walk: Walk<'a>,
    number: Option<u32>,
) -> (Option<u32>, Walk<'a>)
    requires { walk.rest.now ≡ from_number name walk.last points.now }
    ensures other { result.0 ≡ other_number name points.now number }
    ensures walk { result.1.rest.now ≡ from_number name result.1.last points.now }
{
    match number {
        Some(n) => {
            let walk = walk_to(name, points, walk, n);
            (other_first(name, n, walk.rest), walk)
        }
        None => (None, walk),
    }
}

fn number_in(name: EngineName, commit: &Commit) -> Option<u32>
    ensures { result ≡ number_in name commit.now }
{
    match name {
        EngineName::Mem => commit.mem,
        EngineName::Store => commit.store,
    }
}

fn set_other(name: EngineName, number: Option<u32>, commit: Commit) -> Commit
    ensures { result ≡ set_other name number commit }
{
    let mut commit = commit;
    match name {
        EngineName::Mem => commit.store = number,
        EngineName::Store => commit.mem = number,
    }
    commit
}

/// The commits with both their numbers, where they have two: a commit point says which two are of one commit.
///
/// Where their numbers rise, it goes over the points once.
pub fn join(
    alloc: Global,
    name: EngineName,
    points: &[Point],
    commits: CommitList,
) -> Result<CommitList, NoMemory>
    ensures { IfOk result (λ all. all ≡ joined name points.now commits) }
{
    let mut walk = Walk {
        rest: points,
        last: 0,
    };
    let mut all = CommitList::new(alloc);
    for commit in commits.into_vec() {
        let number = number_in(name, &commit);
        let (other, ended) = other_number(name, points, walk, number);
        walk = ended;
        all.push(set_other(name, other, commit))?;
    }
    Ok(all)
}
