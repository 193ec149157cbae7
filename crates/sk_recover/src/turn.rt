//! Reading both logs, group by group.

ghost use Rattle.std.specs.Prelude.{◌≡◌, ◌<◌, ◌≤◌, ◌+◌, ◌++◌, false, List, length, drop, IfOk, IfErr, OnOk};
ghost use Rattle.sk_rows.specs.declared.table.Table.{Table as AnyTable};
ghost use Rattle.sk_codec.specs.Reading.{ReadsAs};
ghost use Rattle.sk_model.specs.Numbers.{greatest_number};
ghost use Rattle.sk_log.specs.Stores.{at_place, commits, range_of, body_of, stored_of, group_of, group_at, next_gate, behind_gate, turn, turns};
ghost use Rattle.sk_recover.specs.Views.{position_of, position_in, IsReached, IsTurn};
ghost use Rattle.sk_codec.specs.declared.fault.ReadFault.TheVariants.{Wrong, NoMemory};

use crate::group::{body_at, halves, head_at, records_to};
use crate::image::first;
use sk_codec::{Fault, ReadFault, Rest, What, u32_at, wrong};
use sk_log::{Head, Logged};
use sk_model::{CommitList, Point};
use sk_rows::Table;
use std::alloc::Global;

/// What is known between two groups.
#[derive(Debug, Drop)]
pub struct LogPosition {
    /// The set of files, 0 or 1.
    pub set: u8,
    /// The cut of the last group, at first the root's.
    pub cut: Point,
    /// The end of the storage log so far, in bytes.
    pub end: u32,
    /// The place of the next gate byte in the anchor log.
    pub gate: u32,
    /// The memory engine's commits so far.
    pub mem: CommitList,
    /// The storage engine's commits so far.
    pub store: CommitList,
}

fn behind(bytes: &[u8], place: usize) -> &[u8]
    ensures { result.now ≡ drop place bytes.now }
{
    if place < bytes.len() {
        bytes.split_at(place).1
    } else {
        &[]
    }
}

fn range_of(bytes: &[u8], from: usize, upto: u64) -> &[u8]
    ensures { result.now ≡ range_of bytes.now from upto }
{
    behind(first(bytes, upto), from)
}

/// Where the gate byte behind the group stands.
#[tactic(auto, unfolding(sk_log::specs::Stores::next_gate))]
fn next_gate(set: u8, gate: u32, two: &[u8]) -> Result<u32, ReadFault>
    requires { set < 2 }
    ensures value { ReadsAs (λ x. x) result (next_gate set gate (range_of two.now (gate + 1) (gate + 5))) }
    ensures past { IfOk result (λ x. gate + 5 ≤ x) }
{
    let rest = Rest {
        file: 2 + 2 * set,
        place: gate as u64 + 1,
        bytes: range_of(two, gate as usize + 1, gate as u64 + 5),
    };
    let (n, _) = u32_at(rest)?;
    let next = gate as u64 + 5 + n as u64;
    if next > 4294967295 {
        return Err(wrong(What::Length, rest));
    }
    Ok(next as u32)
}

#[tactic(auto, unfolding(sk_log::specs::Stores::body_of))]
fn body_of(
    alloc: Global,
    tables: &[Table],
    s: &LogPosition,
    next: u32,
    two: &[u8],
) -> Result<(Head, Vec<Logged>), ReadFault>
    requires set { s.now.set < 2 }
    requires cut { s.now.cut.a ≤ greatest_number }
    ensures value { ReadsAs (λ x. (x.0, x.1.items)) result (body_of (position_of tables.now s.now) next (range_of two.now (s.now.gate + 5) next)) }
    ensures small { IfOk result (λ x. (x.0.cut.a ≤ greatest_number) × (x.0.cut.b ≤ greatest_number) × (s.now.end ≤ x.0.end)) }
    ensures selection { IfOk result (λ x. x.0.cut.commit ≡ false) }
{
    let rest = Rest {
        file: 2 + 2 * s.set,
        place: s.gate as u64 + 5,
        bytes: range_of(two, s.gate as usize + 5, next as u64),
    };
    let (head, after) = head_at(&s.cut, s.end, rest)?;
    let logged = body_at(alloc, tables, s.cut.a, head.cut.a, next as u64, after)?;
    Ok((head, logged))
}

#[tactic(auto, unfolding(sk_log::specs::Stores::stored_of))]
fn stored_of(
    alloc: Global,
    tables: &[Table],
    s: &LogPosition,
    head: &Head,
    one: &[u8],
) -> Result<Vec<Logged>, ReadFault>
    requires set { s.now.set < 2 }
    requires cut { s.now.cut.b ≤ greatest_number }
    requires end { s.now.end ≤ head.now.end }
    ensures { ReadsAs (λ x. x.items) result (stored_of (position_of tables.now s.now) head.now (range_of one.now s.now.end head.now.end)) }
{
    let rest = Rest {
        file: 1 + 2 * s.set,
        place: s.end as u64,
        bytes: range_of(one, s.end as usize, head.end as u64),
    };
    records_to(
        alloc,
        tables,
        head.end - s.end,
        head.end,
        head.cut.b,
        s.cut.b,
        rest,
    )
}

/// A fault at this place of a file.
fn fault_at(what: What, file: u8, place: u32) -> ReadFault
    ensures { result ≡ Wrong (at_place what file place) }
{
    ReadFault::Wrong(Fault {
        file,
        place: place as u64,
        what,
    })
}

/// Puts the commits of these records behind the others.
fn push_commits(list: &mut CommitList, logged: Vec<Logged>) -> Result<(), ReadFault>
    ensures ok { OnOk result (list.new ≡ list.old ++ commits logged.items) }
    ensures err { IfErr result (λ e. e ≡ NoMemory) }
{
    for found in logged {
        list.push(found.commit)?;
    }
    Ok(())
}

/// The group behind an open gate, from the records of its body and of its range of the storage log.
#[tactic(auto, unfolding(sk_log::specs::Stores::group_of))]
fn group_of(
    s: LogPosition,
    head: Head,
    mem: Vec<Logged>,
    store: Vec<Logged>,
    gate: u32,
) -> Result<LogPosition, ReadFault>
    requires { IsReached s }
    ensures value { (catalog : List AnyTable) → ReadsAs (position_of catalog) result (group_of (position_of catalog s) head mem.items store.items gate) }
    ensures places { IfOk result (λ x. (x.set ≡ s.set) × (x.cut ≡ head.cut)) }
{
    halves(
        1 + 2 * s.set,
        2 + 2 * s.set,
        store.as_slice(),
        mem.as_slice(),
    )?;
    let mut all_mem = s.mem;
    let mut all_store = s.store;
    push_commits(&mut all_mem, mem)?;
    push_commits(&mut all_store, store)?;
    Ok(LogPosition {
        set: s.set,
        cut: head.cut,
        end: head.end,
        gate,
        mem: all_mem,
        store: all_store,
    })
}

#[tactic(auto, unfolding(sk_log::specs::Stores::group_at))]
fn group_at(
    alloc: Global,
    tables: &[Table],
    one: &[u8],
    two: &[u8],
    s: LogPosition,
    next: u32,
) -> Result<LogPosition, ReadFault>
    requires { IsReached s }
    ensures value { ReadsAs (position_of tables.now) result (group_at one.now two.now (position_of tables.now s) next) }
    ensures reached { IfOk result (λ x. IsReached x) }
{
    let (head, mem) = body_of(alloc, tables, &s, next, two)?;
    let store = stored_of(alloc, tables, &s, &head, one)?;
    if two.len() < next as usize || one.len() < head.end as usize {
        return Err(fault_at(What::Length, 2 + 2 * s.set, next));
    }
    group_of(s, head, mem, store, next)
}

#[tactic(auto, unfolding(sk_log::specs::Stores::behind_gate))]
fn behind_gate(
    alloc: Global,
    tables: &[Table],
    one: &[u8],
    two: &[u8],
    s: LogPosition,
) -> Result<LogPosition, ReadFault>
    requires { IsReached s }
    ensures value { ReadsAs (position_of tables.now) result (behind_gate one.now two.now (position_of tables.now s)) }
    ensures reached { IfOk result (λ x. IsReached x) }
{
    let next = next_gate(s.set, s.gate, two)?;
    group_at(alloc, tables, one, two, s, next)
}

/// What a turn comes to.
#[derive(Drop)]
pub enum Turned {
    /// The gate is closed, so that this is all.
    Closed(LogPosition),
    /// A group was read.
    Went(LogPosition),
}

#[tactic(auto, unfolding(sk_log::specs::Stores::turn))]
fn turn(
    alloc: Global,
    tables: &[Table],
    one: &[u8],
    two: &[u8],
    s: LogPosition,
) -> Result<Turned, ReadFault>
    requires { IsReached s }
    ensures value { IsTurn tables.now one.now two.now s result }
    ensures reached { IfOk result (λ t. IsReached (position_in t)) }
{
    if two.len() <= s.gate as usize {
        return Err(fault_at(What::Length, 2 + 2 * s.set, s.gate));
    }
    if two[s.gate as usize] != 1 {
        return Ok(Turned::Closed(s));
    }
    Ok(Turned::Went(behind_gate(alloc, tables, one, two, s)?))
}

/// All groups of the storage log `one` and the anchor log `two` from there on, up to the first gate that is closed.
pub fn turns(
    alloc: Global,
    tables: &[Table],
    one: &[u8],
    two: &[u8],
    s: LogPosition,
) -> Result<LogPosition, ReadFault>
    requires { IsReached s }
    ensures value { ReadsAs (position_of tables.now) result (turns (length two.now + 1) one.now two.now (position_of tables.now s)) }
    ensures reached { IfOk result (λ x. IsReached x) }
{
    let mut reached = s;
    let fuel = two.len() + 1;
    for _ in 0..fuel {
        match turn(alloc, tables, one, two, reached)? {
            Turned::Closed(last) => return Ok(last),
            Turned::Went(next) => reached = next,
        }
    }
    Err(fault_at(What::Length, 2 + 2 * reached.set, reached.gate))
}
