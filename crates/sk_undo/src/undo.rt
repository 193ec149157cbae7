//! One undo record, and lists of them by place.

ghost use Rattle.std.specs.Prelude.{◌≡◌, ◌<◌, ◌≤◌, length, take, drop, map, ◌++◌, get_or, slice_get, slice_set, ◌-◌, None, Some, OnOk, OnErr, IfOk, IfSome, IsTrue, ◌↔◌};
ghost use Rattle.std.specs.Option.{option_copied};
ghost use Rattle.sk_undo.specs.Log.{AreLinked, AreWhole, IsClaimed, IsFree, IsOlder, IsStanding, IsUnnamed, MayBeNamed, bound, cut, dropped, is_dead, is_empty, is_free, named, newest_for, older_of, put_at, record_at, trimmed, unlinked, with_newer, without_older};

use sk_rows::{NoMemory, Row};

/// An older version of a row.
#[derive(Debug, Drop)]
pub struct Undo {
    /// The place of the record of the next older version.
    pub older: Option<u32>,
    /// The number of the record that names this one.
    pub newer: Option<u32>,
    /// The number as which the version committed.
    pub n: u32,
    /// The row, and None where the version is an absence.
    pub row: Option<Row>,
}

/// Whether no record stands here.
fn is_empty(slot: &Option<Undo>) -> bool
    ensures { result ≡ is_empty slot.now }
{
    match slot {
        None => true,
        Some(_) => false,
    }
}

/// Whether the place is there and has no record.
#[tactic(auto, using(crate::proofs::Frees::is_free_past, crate::proofs::Frees::is_free_at))]
fn is_free(slots: &[Option<Undo>], at: u32) -> bool
    ensures { result ≡ is_free slots.now at }
{
    (at as usize) < slots.len() && is_empty(&slots[at as usize])
}

/// A place without a record, of those that were noted. Places that are in use go from the list.
fn last_free(slots: &[Option<Undo>], free: &mut Vec<u32>) -> Option<u32>
    ensures { IfSome result (λ at. IsFree slots.now at) }
{
    while let Some(at) = free.pop() {
        if is_free(slots, at) {
            note(free, at);
            return Some(at);
        }
    }
    None
}

/// Notes that a place is free. The list has room for every place, so this takes no memory.
fn note(free: &mut Vec<u32>, at: u32) {
    if free.len() < free.capacity() {
        free.push_reserved(at);
    }
}

/// Takes a place that is in use now from the list, if it stands there last, as after a claim.
pub fn forget(free: &mut Vec<u32>, at: u32)
    ensures goes { slice_get free.old.items (length free.old.items - 1) ≡ Some at → free.new.items ≡ take (length free.old.items - 1) free.old.items }
    ensures stays { (slice_get free.old.items (length free.old.items - 1) ≡ Some at → ⊥) → free.new.items ≡ free.old.items }
{
    if let Some(last) = free.last() {
        if *last == at {
            free.pop();
        }
    }
}

/// Takes a free place, or makes one at the end, with room for it in the list of the free ones.
pub fn claim(slots: &mut Vec<Option<Undo>>, free: &mut Vec<u32>) -> Result<u32, NoMemory>
    ensures ok { IfOk result (λ at. IsClaimed slots.old.items at slots.new.items) }
    ensures err { OnErr result (slots.new.items ≡ slots.old.items) }
{
    if let Some(at) = last_free(slots.as_slice(), free) {
        return Ok(at);
    }
    let Ok(at) = u32::try_from(slots.len()) else {
        return Err(NoMemory);
    };
    free.reserve(at as usize + 1)?;
    slots.push(None)?;
    note(free, at);
    Ok(at)
}

/// Tells a record which number names it.
fn name_one(slot: &mut Option<Undo>, n: u32)
    ensures { slot.new ≡ with_newer slot.old n }
{
    if let Some(undo) = slot {
        undo.newer = Some(n);
    }
}

/// Whether a record stands here, has a smaller number, and no record names it.
fn may_be_named(slot: &Option<Undo>, n: u32) -> bool
    ensures { IsTrue result ↔ MayBeNamed slot.now n }
{
    match slot {
        None => false,
        Some(undo) => undo.n < n && undo.newer.is_none(),
    }
}

/// Whether a record of this number may name the older one.
#[tactic(auto, using(crate::proofs::Frees::past_end))]
pub fn may_name(slots: &[Option<Undo>], older: Option<u32>, n: u32) -> bool
    ensures { IsTrue result ↔ IsOlder slots.now older n }
{
    match older {
        None => true,
        Some(at) => (at as usize) < slots.len() && may_be_named(&slots[at as usize], n),
    }
}

/// Tells the record that is named that this number names it.
pub fn name(slots: &mut Vec<Option<Undo>>, older: Option<u32>, n: u32)
    requires { IsStanding slots.old.items older }
    ensures { slots.new.items ≡ named slots.old.items older n }
{
    if let Some(at) = older {
        name_one(&mut slots[at as usize], n);
    }
}

/// Takes the record from a place, and tells which one it named.
fn take_one(slot: &mut Option<Undo>) -> Option<u32>
    ensures named { result ≡ older_of slot.old }
    ensures gone { slot.new ≡ None }
{
    let older = match slot {
        None => None,
        Some(undo) => undo.older,
    };
    *slot = None;
    older
}

/// Frees a place, and tells which one its record named.
#[tactic(auto, using(crate::proofs::Frees::past_end, crate::proofs::Frees::set_past))]
fn take(slots: &mut Vec<Option<Undo>>, free: &mut Vec<u32>, at: u32) -> Option<u32>
    ensures named { result ≡ older_of (record_at slots.old.items at) }
    ensures gone { slots.new.items ≡ slice_set slots.old.items at None }
{
    if (at as usize) < slots.len() {
        if !is_empty(&slots[at as usize]) {
            note(free, at);
        }
        take_one(&mut slots[at as usize])
    } else {
        None
    }
}

/// Takes the link from a record, and tells which one it named.
fn unlink_one(slot: &mut Option<Undo>) -> Option<u32>
    ensures named { result ≡ older_of slot.old }
    ensures alone { slot.new ≡ without_older slot.old }
{
    match slot {
        None => None,
        Some(record) => {
            let older = record.older;
            record.older = None;
            older
        }
    }
}

/// Takes the link from the record in this place, and tells which one it named.
#[tactic(auto, using(crate::proofs::Frees::past_end, crate::proofs::Frees::set_past))]
fn unlink(slots: &mut Vec<Option<Undo>>, at: u32) -> Option<u32>
    ensures named { result ≡ older_of (record_at slots.old.items at) }
    ensures alone { slots.new.items ≡ unlinked slots.old.items at }
{
    if (at as usize) < slots.len() {
        unlink_one(&mut slots[at as usize])
    } else {
        None
    }
}

/// Frees a path that nobody names.
pub fn drop_path(slots: &mut Vec<Option<Undo>>, free: &mut Vec<u32>, from: Option<u32>)
    requires { AreWhole slots.old.items × IsUnnamed slots.old.items from }
    ensures { slots.new.items ≡ dropped slots.old.items from }
{
    let mut next = from;
    while let Some(at) = next {
        next = take(slots, free, at);
    }
}

/// Whether a record stands here that one of a number of at most `upto` names.
fn is_dead(slot: &Option<Undo>, upto: u32) -> bool
    ensures { result ≡ is_dead upto slot.now }
{
    match slot {
        None => false,
        Some(undo) => match undo.newer {
            None => false,
            Some(newer) => newer <= upto,
        },
    }
}

#[tactic(auto, unfolding(crate::specs::Log::trimmed))]
fn trim_one(slot: &mut Option<Undo>, upto: u32)
    ensures { slot.new ≡ trimmed upto slot.old }
{
    if is_dead(slot, upto) {
        *slot = None;
    } else if let Some(undo) = slot {
        if undo.n <= upto {
            undo.older = None;
        }
    }
}

/// Notes a place where a record goes.
fn note_dead(slot: &Option<Undo>, free: &mut Vec<u32>, at: usize, upto: u32) {
    if is_dead(slot, upto) {
        if let Ok(at) = u32::try_from(at) {
            note(free, at);
        }
    }
}

/// Frees each record that one of a number of at most `upto` names, and cuts the links to those.
pub fn trim(slots: &mut Vec<Option<Undo>>, free: &mut Vec<u32>, upto: u32)
    ensures { slots.new.items ≡ map (trimmed upto) slots.old.items }
{
    for at in 0..slots.len() {
        note_dead(&slots[at], free, at, upto);
        trim_one(&mut slots[at], upto);
    }
}

/// Frees what stands behind the first record with a number of at most `upto`.
pub fn cut(slots: &mut Vec<Option<Undo>>, free: &mut Vec<u32>, from: Option<u32>, upto: u32)
    requires { AreWhole slots.old.items }
    ensures { slots.new.items ≡ cut slots.old.items from upto }
{
    if let Some(at) = newest(slots.as_slice(), from, upto) {
        let older = unlink(slots, at);
        drop_path(slots, free, older);
    }
}

/// The record in this place.
pub fn record(slots: &[Option<Undo>], at: u32) -> Option<&Undo>
    ensures { option_copied result ≡ record_at slots.now at }
{
    match slots.get(at as usize) {
        Some(Some(undo)) => Some(undo),
        _ => None,
    }
}

/// The place of the first record on the path from here with a number of at most `snapshot`.
pub fn newest(slots: &[Option<Undo>], from: Option<u32>, snapshot: u32) -> Option<u32>
    requires { AreLinked slots.now }
    ensures { result ≡ newest_for slots.now from snapshot }
{
    let mut at = from;
    while let Some(place) = at {
        let Some(undo) = record(slots, place) else {
            return None;
        };
        if undo.n <= snapshot {
            return Some(place);
        }
        at = undo.older;
    }
    None
}
