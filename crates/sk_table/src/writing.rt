//! What a write meets.

ghost use Rattle.std.specs.Prelude.{◌≡◌, ◌&&◌, ◌∷◌, List as ItemList, None};
ghost use Rattle.std.specs.Option.{option_copied};
ghost use Rattle.std.specs.List.{filter, find as find_first};
ghost use Rattle.sk_model.specs.Engine.{is_of, is_stamped};
ghost use Rattle.sk_model.specs.EngineReplies.{put_answer, conflict_or, past_of, past_or, last_in, is_rival};
ghost use Rattle.sk_table.specs.RowState.{state_of};

use crate::row_state::{RowState, is_stamped, why_undecided};
use crate::table::EngineTable;
use crate::version::Version;
use sk_model::{EngineFault, EngineReply, Label, Why, Write};

/// The first version of the row by another transaction that is open or closed.
fn rival<'a>(versions: &'a [Version], tx: Label, write: &Write) -> Option<&'a Version>
    ensures { option_copied result ≡ find_first (is_rival tx write.now) versions.now }
{
    for version in versions {
        if version.is_rival(tx, write) {
            return Some(version);
        }
    }
    None
}

/// The newest stamped version of the row.
fn newest_stamped<'a>(versions: &'a [Version], write: &Write) -> Option<&'a Version>
    ensures { option_copied result ≡ last_in None (filter (λ v. is_of write.now.table write.now.key v && is_stamped v.standing) versions.now) }
{
    let mut newest = None;
    for version in versions {
        if version.is_of(write.table, &write.key) && is_stamped(version.standing) {
            newest = Some(version);
        }
    }
    newest
}

/// A stamped version past the snapshot is in the way.
fn past_of(snapshot: u32, by: Label, standing: RowState) -> EngineReply
    ensures { result ≡ past_of snapshot by (state_of standing) }
{
    match standing {
        RowState::Stamped(n) => {
            if snapshot < n {
                EngineReply::Fault(EngineFault::Conflict {
                    by,
                    why: Why::Past {
                        number: n,
                        snapshot,
                    },
                })
            } else {
                EngineReply::Done
            }
        }
        RowState::Open | RowState::Closed(_) | RowState::Dropped => EngineReply::Done,
    }
}

fn past_or(snapshot: u32, newest: Option<&Version>) -> EngineReply
    ensures { result ≡ past_or snapshot (option_copied newest.entry) }
{
    match newest {
        None => EngineReply::Done,
        Some(version) => past_of(snapshot, version.by, version.standing),
    }
}

fn conflict_or(rival: Option<&Version>, reply: EngineReply) -> EngineReply
    ensures { result ≡ conflict_or (option_copied rival.entry) reply }
{
    match rival {
        None => reply,
        Some(version) => EngineReply::Fault(EngineFault::Conflict {
            by: version.by,
            why: why_undecided(version.standing),
        }),
    }
}

impl EngineTable {
    /// Whether a write meets another transaction's version, or else a stamped one past its snapshot.
    pub(crate) fn put_answer(&self, tx: Label, write: &Write) -> EngineReply
        ensures { result ≡ put_answer self.now tx write.now }
    {
        let versions = self.versions.as_slice();
        let newest = newest_stamped(versions, write);
        conflict_or(
            rival(versions, tx, write),
            past_or(self.snapshot_of(tx), newest),
        )
    }
}
