//! The openings of an engine, and what one call does to them.

ghost use Rattle.std.specs.Prelude.{◌≡◌, ◌+◌, ◌≤◌, cond, Some, None, OnOk, OnErr, IfSome, OnSome, IfNone, is_some, length};
ghost use Rattle.std.specs.Option.{option_map};
ghost use Rattle.sk_model.specs.declared.label.Label.{Label as AnyLabel};
ghost use Rattle.sk_model.specs.Records.{same_label};
ghost use Rattle.sk_engine.specs.Stands.{Held, held_in, snapshot_by, wrote_by, floor_by, opened_at, floored, noted, held};

use crate::row_id::RowId;
use sk_model::Label;
use sk_rows::{Copies, NoMemory, Value};
use std::alloc::Global;
use std::collections::{BTreeMap, BTreeSet};

/// A transaction's opening, with the rows that it wrote.
#[derive(Drop)]
pub struct Opening {
    pub(crate) snapshot: u32,
    /// The floor, once it is closed.
    pub(crate) floor: Option<u32>,
    pub(crate) wrote: BTreeSet<RowId>,
}

/// The snapshot of an opening, or 0.
pub(crate) fn snapshot_in(openings: &BTreeMap<Label, Opening>, tx: Label) -> u32
    ensures { result ≡ snapshot_by (held_in openings.now.entries tx) }
{
    match openings.get(&tx) {
        Some(opening) => opening.snapshot,
        None => 0,
    }
}

/// A new opening.
pub(crate) fn begin(
    alloc: Global,
    openings: &mut BTreeMap<Label, Opening>,
    tx: Label,
    snapshot: u32,
) -> Result<(), NoMemory>
    ensures more { OnOk result (length openings.new.entries ≤ length openings.old.entries + 1) }
    ensures same { OnErr result (length openings.new.entries ≡ length openings.old.entries) }
    ensures ok { OnOk result ((q : AnyLabel) → held_in openings.new.entries q ≡ cond (same_label tx q) (Some (opened_at snapshot)) (held_in openings.old.entries q)) }
    ensures err { OnErr result ((q : AnyLabel) → held_in openings.new.entries q ≡ held_in openings.old.entries q) }
{
    let opening = Opening {
        snapshot,
        floor: None,
        wrote: BTreeSet::new(alloc),
    };
    openings.insert(tx, opening)?;
    Ok(())
}

/// The opening is closed with this floor.
pub(crate) fn shut(openings: &mut BTreeMap<Label, Opening>, tx: Label, floor: u32)
    ensures openings { (q : AnyLabel) → held_in openings.new.entries q ≡ cond (same_label tx q) (floored floor (held_in openings.old.entries tx)) (held_in openings.old.entries q) }
    ensures len { length openings.new.entries ≡ length openings.old.entries }
{
    if let Some(opening) = openings.get_mut(&tx) {
        opening.floor = Some(floor);
    }
}

/// Whether the transaction has an opening.
pub(crate) fn is_there(openings: &BTreeMap<Label, Opening>, tx: Label) -> bool
    ensures { result ≡ is_some (held_in openings.now.entries tx) }
{
    openings.contains_key(&tx)
}

/// The floor of an opening that is closed.
pub(crate) fn floor_in(openings: &BTreeMap<Label, Opening>, tx: Label) -> Option<u32>
    ensures { result ≡ floor_by (held_in openings.now.entries tx) }
{
    match openings.get(&tx) {
        Some(opening) => opening.floor,
        None => None,
    }
}

fn note_in(opening: &mut Opening, row_id: RowId) -> Result<(), NoMemory>
    ensures ok { OnOk result (option_map held (Some opening.new) ≡ noted row_id (option_map held (Some opening.old))) }
    ensures err { OnErr result (held opening.new ≡ held opening.old) }
{
    opening.wrote.insert(row_id)?;
    Ok(())
}

/// The opening wrote one more row.
pub(crate) fn note(
    alloc: Global,
    openings: &mut BTreeMap<Label, Opening>,
    tx: Label,
    table: u16,
    key: &Value,
) -> Result<(), NoMemory>
    ensures len { length openings.new.entries ≡ length openings.old.entries }
    ensures ok { OnOk result ((q : AnyLabel) → held_in openings.new.entries q ≡ cond (same_label tx q) (noted (record { table = table; key = key.now }) (held_in openings.old.entries tx)) (held_in openings.old.entries q)) }
    ensures err { OnErr result ((q : AnyLabel) → held_in openings.new.entries q ≡ held_in openings.old.entries q) }
{
    let key = key.copy(alloc)?;
    if let Some(opening) = openings.get_mut(&tx) {
        note_in(opening, RowId { table, key })?;
    }
    Ok(())
}

/// The opening ends. Hands out the rows that it wrote.
pub(crate) fn end(openings: &mut BTreeMap<Label, Opening>, tx: Label) -> Option<BTreeSet<RowId>>
    ensures gone { (q : AnyLabel) → held_in openings.new.entries q ≡ cond (same_label tx q) None (held_in openings.old.entries q) }
    ensures wrote { option_map (λ s. s.keys) result ≡ option_map (λ (h : Held). h.wrote) (held_in openings.old.entries tx) }
    ensures len { OnSome result (length openings.new.entries + 1 ≡ length openings.old.entries) }
    ensures none { IfNone result (length openings.new.entries ≡ length openings.old.entries) }
{
    match openings.remove(&tx) {
        Some(opening) => Some(opening.wrote),
        None => None,
    }
}
