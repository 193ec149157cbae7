//! What an engine begins with.

ghost use Rattle.std.specs.Prelude.{◌≡◌, ℕ, length, IfOk};
ghost use Rattle.sk_rows.specs.declared.value.Value.{Value as AnyValue};
ghost use Rattle.sk_chain.specs.Chained.{empty};
ghost use Rattle.sk_store.specs.Heads.{no_head};
ghost use Rattle.sk_store.specs.Maps.{head_at};

use crate::heads::HeadMap;
use crate::page_vec::PageVec;
use crate::paged::PagedRows;
use sk_engine::Rows;
use sk_rows::{Catalog, Copies, NoMemory, Table};
use std::alloc::Global;
use std::collections::BTreeMap;

/// A map without heads for each of these tables.
#[tactic(auto, using(crate::proofs::Beginning::none_more))]
fn first_heads(alloc: Global, tables: &[Table]) -> Result<Vec<HeadMap>, NoMemory>
    ensures count { IfOk result (λ maps. length maps.items ≡ length tables.now) }
    ensures heads { IfOk result (λ maps. (t : ℕ) (key : AnyValue) → head_at maps.items t key ≡ no_head) }
{
    let mut maps = Vec::new(alloc);
    for _table in tables {
        maps.push(BTreeMap::new(alloc))?;
    }
    Ok(maps)
}

/// The rows of these tables, none of which has a version.
pub(crate) fn bare_rows(alloc: Global, catalog: &Catalog) -> Result<PagedRows<PageVec>, NoMemory>
    ensures { IfOk result (λ x. ⟦<PagedRows<PageVec> as Rows>⟧.shows x catalog.now (λ t key. empty)) }
{
    let kept = catalog.copy(alloc)?;
    let heads = first_heads(alloc, catalog.tables())?;
    Ok(PagedRows {
        alloc,
        catalog: kept,
        pages: PageVec::new(alloc),
        heads,
    })
}
