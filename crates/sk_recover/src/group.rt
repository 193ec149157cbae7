//! Reading groups of records, from both logs.

ghost use Rattle.std.specs.Prelude.{◌≡◌, ◌<◌, ◌≤◌, ◌+◌, ◌-◌, ◌^◌, ◌∷◌, [], true, false, length, drop, take, IfOk, IfSome, IfNone};
ghost use Rattle.std.specs.List.{filter};
ghost use Rattle.sk_codec.specs.Reading.{ReadsAs, IsPlace, rest_of};
ghost use Rattle.sk_model.specs.Numbers.{greatest_number};
ghost use Rattle.sk_log.specs.Calls.{store_file, anchor_file};
ghost use Rattle.sk_log.specs.Groups.{number_of, logged_at, records_at, records_to, first_at, second_at, end_at, head_at, body_at, same_number, same_label, is_half, is_cross, half_at, halves};
ghost use Rattle.sk_log.specs.Stores.{range_of, body_of, stored_of, group_at, next_gate, turn, turns};
ghost use Rattle.sk_codec.specs.declared.fault.ReadFault.TheVariants.{Wrong};

use sk_codec::{Fault, ReadFault, Rest, What, record_at, u32_at, u32_in, wrong};
use sk_log::{Head, Logged};
use sk_model::{Commit, CommitList, GREATEST_NUMBER, Label, Point};
use sk_rows::Table;
use std::alloc::Global;

/// A record whose number is past `above` and at most `upto`.
#[tactic(auto, unfolding(sk_log::specs::Groups::logged_at))]
fn logged_at<'a>(
    alloc: Global,
    tables: &[Table],
    store: bool,
    upto: u32,
    above: u32,
    rest: Rest<'a>,
) -> Result<(Logged, Rest<'a>), ReadFault>
    requires place { IsPlace rest.place rest.bytes.now }
    requires above { above ≤ greatest_number }
    ensures value { ReadsAs (λ x. (x.0, rest_of x.1)) result (logged_at tables.now store upto above (rest_of rest.entry)) }
    ensures place { IfOk result (λ x. IsPlace x.1.place x.1.bytes.now) }
    ensures small { IfOk result (λ x. number_of store x.0 ≤ greatest_number) }
{
    let (commit, after) = record_at(alloc, tables, store, above + 1, upto, rest)?;
    let place = rest.place;
    Ok((Logged { place, commit }, after))
}

fn number_of(store: bool, found: &Logged) -> u32
    ensures { result ≡ number_of store found.now }
{
    let own = if store {
        found.commit.store
    } else {
        found.commit.mem
    };
    match own {
        None => 0,
        Some(n) => n,
    }
}

fn records_at<'a>(
    alloc: Global,
    tables: &[Table],
    store: bool,
    count: u32,
    upto: u32,
    above: u32,
    rest: Rest<'a>,
) -> Result<(Vec<Logged>, Rest<'a>), ReadFault>
    requires place { IsPlace rest.place rest.bytes.now }
    requires above { above ≤ greatest_number }
    ensures value { ReadsAs (λ x. (x.0.items, rest_of x.1)) result (records_at tables.now store count upto above (rest_of rest.entry)) }
    ensures place { IfOk result (λ x. IsPlace x.1.place x.1.bytes.now) }
{
    let mut logged = Vec::new(alloc);
    let mut last = above;
    let mut left = rest;
    for _ in 0..count {
        let (found, after) = logged_at(alloc, tables, store, upto, last, left)?;
        last = number_of(store, &found);
        logged.push(found)?;
        left = after;
    }
    Ok((logged, left))
}

#[tactic(auto, unfolding(sk_log::specs::Groups::first_at))]
fn first_at<'a>(cut: &Point, rest: Rest<'a>) -> Result<(u32, Rest<'a>), ReadFault>
    requires { IsPlace rest.place rest.bytes.now }
    ensures value { ReadsAs (λ x. (x.0, rest_of x.1)) result (first_at cut.now (rest_of rest.entry)) }
    ensures place { IfOk result (λ x. IsPlace x.1.place x.1.bytes.now) }
    ensures small { IfOk result (λ x. x.0 ≤ greatest_number) }
{
    let (a, after) = u32_in(0, GREATEST_NUMBER, rest)?;
    if a < cut.a {
        return Err(wrong(What::Order, rest));
    }
    Ok((a, after))
}

#[tactic(auto, unfolding(sk_log::specs::Groups::second_at))]
fn second_at<'a>(cut: &Point, a: u32, rest: Rest<'a>) -> Result<(u32, Rest<'a>), ReadFault>
    requires { IsPlace rest.place rest.bytes.now }
    ensures value { ReadsAs (λ x. (x.0, rest_of x.1)) result (second_at cut.now a (rest_of rest.entry)) }
    ensures place { IfOk result (λ x. IsPlace x.1.place x.1.bytes.now) }
    ensures small { IfOk result (λ x. x.0 ≤ greatest_number) }
{
    let (b, after) = u32_in(0, GREATEST_NUMBER, rest)?;
    if b < cut.b || (a == cut.a && b == cut.b) {
        return Err(wrong(What::Order, rest));
    }
    Ok((b, after))
}

#[tactic(auto, unfolding(sk_log::specs::Groups::end_at))]
fn end_at(end: u32, rest: Rest<'_>) -> Result<(u32, Rest<'_>), ReadFault>
    requires { IsPlace rest.place rest.bytes.now }
    ensures value { ReadsAs (λ x. (x.0, rest_of x.1)) result (end_at end (rest_of rest.entry)) }
    ensures place { IfOk result (λ x. IsPlace x.1.place x.1.bytes.now) }
    ensures past { IfOk result (λ x. end ≤ x.0) }
{
    let (to, after) = u32_at(rest)?;
    if to < end {
        return Err(wrong(What::Range, rest));
    }
    Ok((to, after))
}

#[tactic(auto, unfolding(sk_log::specs::Groups::head_at))]
pub fn head_at<'a>(cut: &Point, end: u32, rest: Rest<'a>) -> Result<(Head, Rest<'a>), ReadFault>
    requires { IsPlace rest.place rest.bytes.now }
    ensures value { ReadsAs (λ x. (x.0, rest_of x.1)) result (head_at cut.now end (rest_of rest.entry)) }
    ensures place { IfOk result (λ x. IsPlace x.1.place x.1.bytes.now) }
    ensures small { IfOk result (λ x. (x.0.cut.a ≤ greatest_number) × (x.0.cut.b ≤ greatest_number) × (end ≤ x.0.end)) }
    ensures selection { IfOk result (λ x. x.0.cut.commit ≡ false) }
{
    let (a, after) = first_at(cut, rest)?;
    let (b, after) = second_at(cut, a, after)?;
    let (end, after) = end_at(end, after)?;
    let cut = Point {
        a,
        b,
        commit: false,
    };
    Ok((Head { cut, end }, after))
}

/// The records of a body that ends at this place.
#[tactic(auto, unfolding(sk_log::specs::Groups::body_at))]
pub fn body_at(
    alloc: Global,
    tables: &[Table],
    above: u32,
    upto: u32,
    end: u64,
    rest: Rest<'_>,
) -> Result<Vec<Logged>, ReadFault>
    requires place { IsPlace rest.place rest.bytes.now }
    requires above { above ≤ greatest_number }
    ensures value { ReadsAs (λ x. x.items) result (body_at tables.now above upto end (rest_of rest.entry)) }
{
    let (count, after) = u32_at(rest)?;
    let (logged, after) = records_at(alloc, tables, false, count, upto, above, after)?;
    if after.place != end {
        return Err(wrong(What::Length, after));
    }
    Ok(logged)
}

/// The records up to the place `end`.
pub fn records_to<'a>(
    alloc: Global,
    tables: &[Table],
    fuel: u32,
    end: u32,
    upto: u32,
    above: u32,
    rest: Rest<'a>,
) -> Result<Vec<Logged>, ReadFault>
    requires place { IsPlace rest.place rest.bytes.now }
    requires above { above ≤ greatest_number }
    ensures value { ReadsAs (λ x. x.items) result (records_to tables.now true fuel end upto above (rest_of rest.entry)) }
{
    let mut logged = Vec::new(alloc);
    let mut last = above;
    let mut left = rest;
    for _ in 0..fuel {
        if left.place >= end as u64 {
            return Ok(logged);
        }
        let (found, after) = logged_at(alloc, tables, true, upto, last, left)?;
        last = number_of(true, &found);
        logged.push(found)?;
        left = after;
    }
    Ok(logged)
}

fn same_number(a: Option<u32>, b: Option<u32>) -> bool
    ensures { result ≡ same_number a b }
{
    match a {
        None => match b {
            None => true,
            Some(_) => false,
        },
        Some(n) => match b {
            None => false,
            Some(m) => n == m,
        },
    }
}

fn same_label(a: Label, b: Label) -> bool
    ensures { result ≡ same_label a b }
{
    a.session == b.session && a.k == b.k
}

fn is_half(s: &Commit, m: &Commit) -> bool
    ensures { result ≡ is_half s.now m.now }
{
    same_label(s.label, m.label) && same_number(s.mem, m.mem) && same_number(s.store, m.store)
}

fn is_cross(found: &Logged) -> bool
    ensures { result ≡ is_cross found.now }
{
    found.commit.mem.is_some() && found.commit.store.is_some()
}

/// The first record of a commit of both engines, and the records behind it.
fn next_cross(logged: &[Logged]) -> Option<(&Logged, &[Logged])>
    ensures some { IfSome result (λ x. filter is_cross logged.now ≡ x.0.now ∷ filter is_cross x.1.now) }
    ensures fewer { IfSome result (λ x. length x.1.now < length logged.now) }
    ensures none { IfNone result (filter is_cross logged.now ≡ []) }
{
    let mut left = logged;
    while let [found, more @ ..] = left {
        if is_cross(found) {
            return Some((found, more));
        }
        left = more;
    }
    None
}

/// The halves of a commit do not fit: the record at this place has no other, or another one.
fn half(file: u8, found: &Logged) -> ReadFault
    ensures { result ≡ Wrong (half_at file found.now.place) }
{
    ReadFault::Wrong(Fault {
        file,
        place: found.place,
        what: What::Half,
    })
}

/// Whether the commits of both engines are the same in both logs, in order.
pub fn halves(store: u8, anchor: u8, stored: &[Logged], mem: &[Logged]) -> Result<(), ReadFault>
    ensures { ReadsAs (λ x. x) result (halves store anchor (filter is_cross stored.now) (filter is_cross mem.now)) }
{
    let mut ours = stored;
    let mut theirs = mem;
    'pairs: while let Some((found, more)) = next_cross(ours) {
        let Some((other, rest)) = next_cross(theirs) else {
            return Err(half(store, found));
        };
        if !is_half(&found.commit, &other.commit) {
            return Err(half(store, found));
        }
        ours = more;
        theirs = rest;
    }
    match next_cross(theirs) {
        None => Ok(()),
        Some((other, _)) => Err(half(anchor, other)),
    }
}
