//! Whether a record's replies are those of one database.

ghost use Rattle.std.specs.Prelude.{◌≡◌, ◌↔◌, [], cond, IsTrue, IfOk, OnOk, Some, true};
ghost use Rattle.std.specs.Option.{option_map};
ghost use Rattle.sk_model.specs.Database.{after_writes};
ghost use Rattle.sk_model.specs.Replies.{is_count as is_count_of, is_judged as is_judged_of, writes_in};
ghost use Rattle.sk_model.specs.Records.{Explained, Told, after_said};
ghost use Rattle.sk_expr.specs.Telling.{IsTold};

use crate::answers::Answer;
use crate::database::answer;
use crate::judged::{is_count, is_judged, is_same};
use crate::states::{put_writes, state};
use sk_model::{Commit, KeyedRows, Record, Reply, Said, Tables};
use sk_rows::{Catalog, NoMemory};
use std::alloc::Global;

/// Whether this answer has a reply that the database gives.
fn is_answered(answer: &Option<Answer>, said: &Reply) -> bool
    ensures { is_judged_of said.now ≡ true → (IsTrue result ↔ (option_map (λ a. a.0) answer.now ≡ Some said.now)) }
{
    match answer {
        None => false,
        Some(answer) => is_same(&answer.0, said),
    }
}

fn put_answer(
    alloc: Global,
    tables: &mut Vec<KeyedRows>,
    answer: &Option<Answer>,
) -> Result<(), NoMemory>
    ensures { OnOk result (tables.new.items ≡ after_writes tables.old.items (writes_in answer.now)) }
{
    match answer {
        None => Ok(()),
        Some(answer) => put_writes(alloc, tables, answer.1.as_slice()),
    }
}

/// Makes the writes of an answer, where the reply is a count.
fn put_counted(
    alloc: Global,
    tables: &mut Vec<KeyedRows>,
    reply: &Reply,
    answer: &Option<Answer>,
) -> Result<(), NoMemory>
    ensures { OnOk result (tables.new.items ≡ after_writes tables.old.items (cond (is_count_of reply.now) (writes_in answer.now) [])) }
{
    if is_count(reply) {
        put_answer(alloc, tables, answer)
    } else {
        Ok(())
    }
}

/// Whether the reply is the database's, or one that it does not give. Where it is, the tables have the writes of a count.
#[tactic(auto, using(crate::proofs::Telling::count_judged))]
fn tell(
    alloc: Global,
    catalog: &Catalog,
    tables: &mut Vec<KeyedRows>,
    said: &Said,
) -> Result<bool, NoMemory>
    ensures told { IfOk result (λ b. IsTrue b ↔ IsTold catalog.now tables.old.items said.now) }
    ensures tables { IfOk result (λ b. IsTrue b → tables.new.items ≡ after_said catalog.now tables.old.items said.now) }
{
    if !is_judged(&said.reply) {
        return Ok(true);
    }
    let answer = answer(alloc, catalog, tables.as_slice(), &said.statement)?;
    if !is_answered(&answer, &said.reply) {
        return Ok(false);
    }
    put_counted(alloc, tables, &said.reply, &answer)?;
    Ok(true)
}

fn all_told(
    alloc: Global,
    catalog: &Catalog,
    tables: &mut Vec<KeyedRows>,
    said: &[Said],
) -> Result<bool, NoMemory>
    ensures { IfOk result (λ b. IsTrue b ↔ Told catalog.now tables.old.items said.now) }
{
    for one in said {
        if !tell(alloc, catalog, tables, one)? {
            return Ok(false);
        }
    }
    Ok(true)
}

/// Whether each reply of the database in the record, a count, rows or one of its refusals, is the one that the first
/// `place` commits of `order` over the `opening` tables with the record's own writes give.
///
/// It replays the record, slowly and plainly.
///
/// # Errors
///
/// `NoMemory` alone.
pub fn explain(
    alloc: Global,
    catalog: &Catalog,
    order: &[Commit],
    opening: &Tables,
    tx: &Record,
    place: u32,
) -> Result<bool, NoMemory>
    ensures { IfOk result (λ b. IsTrue b ↔ Explained catalog.now opening.now order.now place tx.now) }
{
    let mut tables = state(alloc, opening, order, place)?;
    all_told(alloc, catalog, &mut tables, tx.said.as_slice())
}
