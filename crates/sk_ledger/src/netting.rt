//! What writes come to.

ghost use Rattle.std.specs.Prelude.{◌≡◌, [], IfOk, OnOk};
ghost use Rattle.std.specs.List.{fold};
ghost use Rattle.sk_model.specs.Database.{noted, net};

use sk_model::{Write, WriteList};
use sk_rows::{Copies, NoMemory, Row, Value};
use std::alloc::Global;
use std::collections::BTreeMap;

/// Rows by table, and within a table by key.
type NotedRows = BTreeMap<(u16, Value), Option<Row>>;

#[tactic(auto, using(crate::proofs::Noted::put_is))]
fn note(rows: &mut NotedRows, write: Write) -> Result<(), NoMemory>
    ensures { OnOk result (rows.new.entries ≡ noted rows.old.entries write) }
{
    rows.insert((write.table, write.key), write.row)?;
    Ok(())
}

fn noted_rows(alloc: Global, writes: &[Write]) -> Result<NotedRows, NoMemory>
    ensures { IfOk result (λ rows. rows.entries ≡ fold noted [] writes.now) }
{
    let mut rows = BTreeMap::new(alloc);
    for write in writes {
        note(&mut rows, write.copy(alloc)?)?;
    }
    Ok(rows)
}

/// What these writes come to: of each row the last write, by table and within a table by key.
pub(crate) fn net(alloc: Global, writes: &[Write]) -> Result<WriteList, NoMemory>
    ensures { IfOk result (λ ws. ws ≡ net writes.now) }
{
    let rows = noted_rows(alloc, writes)?;
    let mut out = WriteList::new(alloc);
    for ((table, key), row) in rows {
        out.push(Write { table, key, row })?;
    }
    Ok(out)
}
