//! The chains that an engine begins with.

ghost use Rattle.std.specs.Prelude.{◌≡◌, ℕ, length, IfOk, Some};
ghost use Rattle.std.specs.FinMap.{find};
ghost use Rattle.sk_rows.specs.declared.value.Value.{Value as AnyValue};
ghost use Rattle.sk_rows.specs.Values.{value_cmp};
ghost use Rattle.sk_model.specs.Database.{row_of};
ghost use Rattle.sk_engine.specs.Stands.{begun};
ghost use Rattle.sk_mem.specs.Chains.{chain_of, chain_at};

use crate::chains::RowMap;
use sk_chain::Chain;
use sk_model::{KeyedRows, Label};
use sk_rows::{Copies, NoMemory, Row, Value};
use std::alloc::Global;
use std::collections::BTreeMap;

/// By whom the rows are that an engine begins with: no transaction has this label.
const NOBODY: Label = Label { session: 0, k: 0 };

/// One version of the row, stamped with the number.
fn first_chain(alloc: Global, row: &Row, start: u32) -> Result<Chain, NoMemory>
    ensures { IfOk result (λ c. c ≡ begun start (Some row.now)) }
{
    let mut chain = Chain::new(alloc);
    chain.push(NOBODY, Some(row.copy(alloc)?))?;
    chain.close(0);
    chain.stamp(start);
    Ok(chain)
}

fn first_rows(alloc: Global, rows: &[(Value, Row)], start: u32) -> Result<RowMap, NoMemory>
    ensures { IfOk result (λ m. (q : AnyValue) → chain_of m.entries q ≡ begun start (find value_cmp q rows.now)) }
{
    let mut chains = BTreeMap::new(alloc);
    let mut list = rows;
    while let [older @ .., row] = list {
        let (key, values) = row;
        chains.insert(key.copy(alloc)?, first_chain(alloc, values, start)?)?;
        list = older;
    }
    Ok(chains)
}

/// A chain for each of these rows, stamped with the number.
pub(crate) fn first_tables(
    alloc: Global,
    tables: &[KeyedRows],
    start: u32,
) -> Result<Vec<RowMap>, NoMemory>
    ensures count { IfOk result (λ ms. length ms.items ≡ length tables.now) }
    ensures chains { IfOk result (λ ms. (t : ℕ) (key : AnyValue) → chain_at ms.items t key ≡ begun start (row_of tables.now t key)) }
{
    let mut maps = Vec::new(alloc);
    for rows in tables {
        maps.push(first_rows(alloc, rows.as_slice(), start)?)?;
    }
    Ok(maps)
}
