//! The chains of the tables, and what one call does to them.

ghost use Rattle.std.specs.Prelude.{◌≡◌, ◌<◌, ℕ, None, true, false, cond, length, IsTrue};
ghost use Rattle.std.specs.Ordering.{eq_by_cmp};
ghost use Rattle.sk_rows.specs.declared.value.Value.{Value as AnyValue};
ghost use Rattle.sk_rows.specs.Values.{value_cmp};
ghost use Rattle.sk_model.specs.declared.call.EngineReply.TheVariants.{Found};
ghost use Rattle.sk_chain.specs.Promise.{replied};
ghost use Rattle.sk_chain.specs.Writing.{conflict};
ghost use Rattle.sk_chain.specs.Changing.{may_push, trimmed};
ghost use Rattle.sk_chain.specs.Chained.{empty};
ghost use Rattle.sk_engine.specs.Rows.{acted, given, reading, AgreeFrom};
ghost use Rattle.sk_mem.specs.Chains.{chain_of, chain_at, is_at_row, Answers, Wrote};

use sk_chain::{Chain, Seen};
use sk_engine::Act;
use sk_model::{EngineFault, Label};
use sk_rows::{Copies, NoMemory, Row, Value};
use std::alloc::Global;
use std::collections::BTreeMap;

/// The versions of a table's rows, by their keys.
pub(crate) type RowMap = BTreeMap<Value, Chain>;

fn copied(alloc: Global, row: &Option<Row>) -> Result<Option<Row>, EngineFault>
    ensures { Answers (replied Found result) (Found row.now) }
{
    match row.copy(alloc) {
        Ok(row) => Ok(row),
        Err(NoMemory) => Err(EngineFault::NoMemory),
    }
}

/// What a reader at the snapshot gets of a row.
pub(crate) fn read_chain(
    alloc: Global,
    chain: &Chain,
    by: Label,
    snapshot: u32,
) -> Result<Option<Row>, EngineFault>
    ensures { Answers (replied Found result) (reading chain.now by snapshot) }
{
    match chain.seen_at(by, snapshot) {
        Seen::At(at) => match chain.version(at) {
            Some(version) => copied(alloc, &version.row),
            None => Ok(None),
        },
        Seen::Nothing => Ok(None),
        Seen::Busy { by } => Err(EngineFault::Busy { by }),
    }
}

fn read(
    alloc: Global,
    rows: &RowMap,
    by: Label,
    snapshot: u32,
    key: &Value,
) -> Result<Option<Row>, EngineFault>
    ensures { Answers (replied Found result) (reading (chain_of rows.now.entries key.now) by snapshot) }
{
    match rows.get(key) {
        Some(chain) => read_chain(alloc, chain, by, snapshot),
        None => Ok(None),
    }
}

/// What a reader at the snapshot gets of a row, by its table and key.
pub(crate) fn read_at(
    alloc: Global,
    tables: &Vec<RowMap>,
    by: Label,
    snapshot: u32,
    table: u16,
    key: &Value,
) -> Result<Option<Row>, EngineFault>
    ensures { Answers (replied Found result) (reading (chain_at tables.now.items table key.now) by snapshot) }
{
    let table = table as usize;
    if table < tables.len() {
        let rows = &tables[table];
        read(alloc, rows, by, snapshot, key)
    } else {
        Ok(None)
    }
}

fn given_chain(alloc: Global, chain: &Chain, n: u32) -> Result<Option<Row>, EngineFault>
    ensures { Answers (replied Found result) (given chain.now n) }
{
    match chain.stamped_upto(n) {
        Some(version) => copied(alloc, &version.row),
        None => Ok(None),
    }
}

fn given_of(alloc: Global, rows: &RowMap, key: &Value, n: u32) -> Result<Option<Row>, EngineFault>
    ensures { Answers (replied Found result) (given (chain_of rows.now.entries key.now) n) }
{
    match rows.get(key) {
        Some(chain) => given_chain(alloc, chain, n),
        None => Ok(None),
    }
}

/// The row of the newest stamped version with a number up to n.
pub(crate) fn given_at(
    alloc: Global,
    tables: &Vec<RowMap>,
    table: u16,
    key: &Value,
    n: u32,
) -> Result<Option<Row>, EngineFault>
    ensures { Answers (replied Found result) (given (chain_at tables.now.items table key.now) n) }
{
    let table = table as usize;
    if table < tables.len() {
        let rows = &tables[table];
        given_of(alloc, rows, key, n)
    } else {
        Ok(None)
    }
}

/// A write. Answers whether it is the transaction's first to this row.
fn write_chain(
    chain: &mut Chain,
    by: Label,
    snapshot: u32,
    row: Option<Row>,
) -> Result<bool, EngineFault>
    requires { conflict chain.old by snapshot ≡ None → may_push chain.old by ≡ true }
    ensures { Wrote chain.old chain.new by snapshot row result }
{
    if let Some(blocked) = chain.conflict(by, snapshot) {
        return Err(EngineFault::Conflict {
            by: blocked.by,
            why: blocked.why,
        });
    }
    let first = !chain.is_by(by);
    match chain.push(by, row) {
        Ok(()) => Ok(first),
        Err(NoMemory) => Err(EngineFault::NoMemory),
    }
}

/// A chain at the key: an empty one, where there was none.
fn prepare(alloc: Global, rows: &mut RowMap, key: &Value) -> Result<(), NoMemory>
    ensures { (q : AnyValue) → chain_of rows.new.entries q ≡ chain_of rows.old.entries q }
{
    if !rows.contains_key(key) {
        let key = key.copy(alloc)?;
        rows.insert(key, Chain::new(alloc))?;
    }
    Ok(())
}

fn write(
    rows: &mut RowMap,
    by: Label,
    snapshot: u32,
    key: &Value,
    row: Option<Row>,
) -> Result<bool, EngineFault>
    requires { conflict (chain_of rows.old.entries key.now) by snapshot ≡ None → may_push (chain_of rows.old.entries key.now) by ≡ true }
    ensures here { Wrote (chain_of rows.old.entries key.now) (chain_of rows.new.entries key.now) by snapshot row result }
    ensures others { (q : AnyValue) → eq_by_cmp value_cmp key.now q ≡ false → chain_of rows.new.entries q ≡ chain_of rows.old.entries q }
{
    match rows.get_mut(key) {
        Some(chain) => write_chain(chain, by, snapshot, row),
        None => Err(EngineFault::NoMemory),
    }
}

/// A write by table and key. Answers whether it is the transaction's first to this row.
pub(crate) fn write_at(
    alloc: Global,
    tables: &mut Vec<RowMap>,
    by: Label,
    snapshot: u32,
    table: u16,
    key: &Value,
    row: Option<Row>,
) -> Result<bool, EngineFault>
    requires within { table < length tables.old.items }
    requires pushes { conflict (chain_at tables.old.items table key.now) by snapshot ≡ None → may_push (chain_at tables.old.items table key.now) by ≡ true }
    ensures len { length tables.new.items ≡ length tables.old.items }
    ensures here { Wrote (chain_at tables.old.items table key.now) (chain_at tables.new.items table key.now) by snapshot row result }
    ensures others { (t : ℕ) (k : AnyValue) → is_at_row t k table key.now ≡ false → chain_at tables.new.items t k ≡ chain_at tables.old.items t k }
{
    let rows = &mut tables[table as usize];
    match prepare(alloc, rows, key) {
        Ok(()) => write(rows, by, snapshot, key, row),
        Err(NoMemory) => Err(EngineFault::NoMemory),
    }
}

fn act_on(chain: &mut Chain, act: Act)
    ensures { chain.new ≡ acted act chain.old }
{
    match act {
        Act::Close { floor } => chain.close(floor),
        Act::Stamp { n } => chain.stamp(n),
        Act::Void => chain.void(),
    }
}

fn act_in(rows: &mut RowMap, key: &Value, act: Act)
    ensures { (q : AnyValue) → chain_of rows.new.entries q ≡ cond (eq_by_cmp value_cmp key.now q) (acted act (chain_of rows.old.entries q)) (chain_of rows.old.entries q) }
{
    if let Some(chain) = rows.get_mut(key) {
        act_on(chain, act);
    }
}

/// Closes, stamps or drops the version of a row that is open or closed.
pub(crate) fn act_at(tables: &mut Vec<RowMap>, table: u16, key: &Value, act: Act)
    ensures len { length tables.new.items ≡ length tables.old.items }
    ensures acts { (t : ℕ) (k : AnyValue) → chain_at tables.new.items t k ≡ cond (is_at_row t k table key.now) (acted act (chain_at tables.old.items t k)) (chain_at tables.old.items t k) }
{
    let table = table as usize;
    if table < tables.len() {
        let rows = &mut tables[table];
        act_in(rows, key, act);
    }
}

/// Whether each reader at a snapshot from this number on finds the row absent, and each writer there meets nobody.
fn is_gone(chain: &Chain, upto: u32) -> bool
    ensures { IsTrue result → AgreeFrom upto chain.now empty }
{
    if chain.version(1).is_some() {
        return false;
    }
    match chain.stamped_upto(upto) {
        Some(version) => version.row.is_none(),
        None => false,
    }
}

fn trim_in(rows: &mut RowMap, key: &Value, upto: u32)
    ensures { (q : AnyValue) → chain_of rows.new.entries q ≡ cond (eq_by_cmp value_cmp key.now q) (trimmed (chain_of rows.old.entries q) upto) (chain_of rows.old.entries q) }
{
    if let Some(chain) = rows.get_mut(key) {
        chain.trim(upto);
    }
}

/// Takes the chain of a row that is gone out of the map.
fn drop_gone(rows: &mut RowMap, key: &Value, upto: u32)
    ensures here { AgreeFrom upto (chain_of rows.old.entries key.now) (chain_of rows.new.entries key.now) }
    ensures others { (q : AnyValue) → eq_by_cmp value_cmp key.now q ≡ false → chain_of rows.new.entries q ≡ chain_of rows.old.entries q }
{
    let gone = match rows.get(key) {
        Some(chain) => is_gone(chain, upto),
        None => false,
    };
    if gone {
        rows.remove(key);
    }
}

fn forget_in(rows: &mut RowMap, key: &Value, upto: u32)
    ensures here { AgreeFrom upto (chain_of rows.old.entries key.now) (chain_of rows.new.entries key.now) }
    ensures others { (q : AnyValue) → eq_by_cmp value_cmp key.now q ≡ false → chain_of rows.new.entries q ≡ chain_of rows.old.entries q }
{
    trim_in(rows, key, upto);
    drop_gone(rows, key, upto);
}

/// Gives up the versions of a row that only snapshots before this number need. A row of which nothing but an absence is left takes no more room.
pub(crate) fn forget_at(tables: &mut Vec<RowMap>, table: u16, key: &Value, upto: u32)
    ensures len { length tables.new.items ≡ length tables.old.items }
    ensures here { AgreeFrom upto (chain_at tables.old.items table key.now) (chain_at tables.new.items table key.now) }
    ensures others { (t : ℕ) (k : AnyValue) → is_at_row t k table key.now ≡ false → chain_at tables.new.items t k ≡ chain_at tables.old.items t k }
{
    let table = table as usize;
    if table < tables.len() {
        let rows = &mut tables[table];
        forget_in(rows, key, upto);
    }
}
