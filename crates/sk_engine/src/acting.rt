//! What ends of transactions do to rows.

ghost use Rattle.std.specs.Prelude.{◌≡◌, ◌≤◌};
ghost use Rattle.sk_engine.specs.declared.act.Act.TheVariants as act_of;
ghost use Rattle.sk_engine.specs.Rows.{ActsAll};
ghost use Rattle.std.specs.List.Sorted.{IsStrictlySortedBy};
ghost use Rattle.sk_engine.specs.Stands.{held_in, wrote_by, row_id_cmp};

use crate::act::Act;
use crate::openings::Opening;
use crate::row_id::RowId;
use crate::rows::Rows;
use sk_model::Label;
use std::collections::{BTreeMap, BTreeSet};

/// Does the act at each of these rows.
pub(crate) fn act_all<R: Rows>(rows: &mut R, row_ids: &BTreeSet<RowId>, act: Act)
    ensures later { R.faults rows.old ≤ R.faults rows.new }
    ensures acts { ActsAll R.shows rows.old rows.new row_ids.now.keys act }
{
    for row_id in row_ids {
        rows.act(row_id.table, &row_id.key, act);
    }
}

/// Whether there are rows. Asked for its length, a set says that its keys rise.
pub(crate) fn has_row_ids(row_ids: &BTreeSet<RowId>) -> bool
    ensures { IsStrictlySortedBy row_id_cmp row_ids.now.keys }
{
    row_ids.len() > 0
}

/// Closes what the transaction wrote.
pub(crate) fn close_all<R: Rows>(
    rows: &mut R,
    openings: &BTreeMap<Label, Opening>,
    tx: Label,
    floor: u32,
)
    ensures later { R.faults rows.old ≤ R.faults rows.new }
    ensures acts { ActsAll R.shows rows.old rows.new (wrote_by (held_in openings.now.entries tx)) (act_of.Close floor) }
{
    if let Some(opening) = openings.get(&tx) {
        act_all(rows, &opening.wrote, Act::Close { floor });
    }
}
