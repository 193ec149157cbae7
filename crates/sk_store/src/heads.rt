//! The heads of the tables, and what one call does to them.

ghost use Rattle.std.specs.Prelude.{◌≡◌, ◌≤◌, ◌<◌, ℕ, false, cond, length};
ghost use Rattle.std.specs.Option.{option_copied, unwrap_or};
ghost use Rattle.std.specs.Ordering.{eq_by_cmp};
ghost use Rattle.sk_rows.specs.declared.value.Value.{Value as AnyValue};
ghost use Rattle.sk_rows.specs.Values.{value_cmp};
ghost use Rattle.sk_chain.specs.Chained.{Chained};
ghost use Rattle.sk_store.specs.Cells.{Cells};
ghost use Rattle.sk_store.specs.Heads.{acted_head, forgotten, no_head};
ghost use Rattle.sk_store.specs.Maps.{head_at, head_of, is_at_row};
ghost use Rattle.sk_store.specs.Shown.{MayBe, RowShows};
ghost use Rattle.sk_store.specs.Writes.{IsSmallRow, RowPushed};

use crate::head::Head;
use crate::pages::Pages;
use crate::pushing::push_row;
use sk_engine::Act;
use sk_model::{EngineFault, Label};
use sk_rows::{Copies, NoMemory, Row, Table, Value};
use std::alloc::Global;
use std::collections::BTreeMap;

/// The heads of a table's rows, by their keys.
pub(crate) type HeadMap = BTreeMap<Value, Head>;

/// The head of a row, by its table and key, if there is one.
pub(crate) fn find_head<'a>(heads: &'a Vec<HeadMap>, table: u16, key: &Value) -> Option<&'a Head>
    ensures { unwrap_or (option_copied result) no_head ≡ head_at heads.now.items table key.now }
{
    let table = table as usize;
    if table < heads.len() {
        let map = &heads[table];
        map.get(key)
    } else {
        None
    }
}

/// A head at the key: one without versions, where there was none.
fn prepare(alloc: Global, heads: &mut HeadMap, key: &Value) -> Result<(), NoMemory>
    ensures { (q : AnyValue) → head_of heads.new.entries q ≡ head_of heads.old.entries q }
{
    if !heads.contains_key(key) {
        let key = key.copy(alloc)?;
        heads.insert(key, Head::new(alloc))?;
    }
    Ok(())
}

fn push_in<P: Pages>(
    alloc: Global,
    pages: &mut P,
    heads: &mut HeadMap,
    table: &Table,
    key: &Value,
    by: Label,
    snapshot: u32,
    row: &Option<Row>,
) -> Result<bool, EngineFault>
    requires small { IsSmallRow row.now }
    ensures later { P.faults pages.old ≤ P.faults pages.new }
    ensures others { (q : AnyValue) → eq_by_cmp value_cmp key.now q ≡ false → head_of heads.new.entries q ≡ head_of heads.old.entries q }
    ensures pushes { (cells : Cells) (c : Chained) → P.has pages.old cells → RowShows P.told cells table.now.columns key.now (head_of heads.old.entries key.now) c → MayBe table.now.columns key.now row.now
        → RowPushed P.has P.told (P.faults pages.old) (P.faults pages.new) pages.new cells table.now.columns key.now (head_of heads.old.entries key.now).cell (head_of heads.new.entries key.now) c by snapshot row.now result }
{
    match heads.get_mut(key) {
        Some(head) => push_row(alloc, pages, head, table, key, by, snapshot, row),
        None => Err(EngineFault::NoMemory),
    }
}

/// A write by table and key. Answers whether it is the transaction's first to this row.
pub(crate) fn push_at<P: Pages>(
    alloc: Global,
    pages: &mut P,
    heads: &mut Vec<HeadMap>,
    number: u16,
    table: &Table,
    key: &Value,
    by: Label,
    snapshot: u32,
    row: &Option<Row>,
) -> Result<bool, EngineFault>
    requires small { IsSmallRow row.now }
    requires within { number < length heads.old.items }
    ensures later { P.faults pages.old ≤ P.faults pages.new }
    ensures len { length heads.new.items ≡ length heads.old.items }
    ensures others { (t : ℕ) (k : AnyValue) → is_at_row t k number key.now ≡ false → head_at heads.new.items t k ≡ head_at heads.old.items t k }
    ensures pushes { (cells : Cells) (c : Chained) → P.has pages.old cells → RowShows P.told cells table.now.columns key.now (head_at heads.old.items number key.now) c → MayBe table.now.columns key.now row.now
        → RowPushed P.has P.told (P.faults pages.old) (P.faults pages.new) pages.new cells table.now.columns key.now (head_at heads.old.items number key.now).cell (head_at heads.new.items number key.now) c by snapshot row.now result }
{
    let map = &mut heads[number as usize];
    match prepare(alloc, map, key) {
        Ok(()) => push_in(alloc, pages, map, table, key, by, snapshot, row),
        Err(NoMemory) => Err(EngineFault::NoMemory),
    }
}

fn act_in(heads: &mut HeadMap, key: &Value, act: Act)
    ensures { (q : AnyValue) → head_of heads.new.entries q ≡ cond (eq_by_cmp value_cmp key.now q) (acted_head act (head_of heads.old.entries q)) (head_of heads.old.entries q) }
{
    if let Some(head) = heads.get_mut(key) {
        head.act(act);
    }
}

/// Closes, stamps or drops the version of a row that is open or closed.
pub(crate) fn act_at(heads: &mut Vec<HeadMap>, table: u16, key: &Value, act: Act)
    ensures len { length heads.new.items ≡ length heads.old.items }
    ensures acts { (t : ℕ) (k : AnyValue) → head_at heads.new.items t k ≡ cond (is_at_row t k table key.now) (acted_head act (head_at heads.old.items t k)) (head_at heads.old.items t k) }
{
    let table = table as usize;
    if table < heads.len() {
        let map = &mut heads[table];
        act_in(map, key, act);
    }
}

fn forget_in(alloc: Global, heads: &mut HeadMap, key: &Value, upto: u32)
    ensures { (q : AnyValue) → head_of heads.new.entries q ≡ cond (eq_by_cmp value_cmp key.now q) (forgotten upto (head_of heads.old.entries q)) (head_of heads.old.entries q) }
{
    if let Some(head) = heads.get_mut(key) {
        head.forget(alloc, upto);
    }
}

/// Gives up what of a row only snapshots before this number need.
pub(crate) fn forget_at(alloc: Global, heads: &mut Vec<HeadMap>, table: u16, key: &Value, upto: u32)
    ensures len { length heads.new.items ≡ length heads.old.items }
    ensures forgets { (t : ℕ) (k : AnyValue) → head_at heads.new.items t k ≡ cond (is_at_row t k table key.now) (forgotten upto (head_at heads.old.items t k)) (head_at heads.old.items t k) }
{
    let table = table as usize;
    if table < heads.len() {
        let map = &mut heads[table];
        forget_in(alloc, map, key, upto);
    }
}
