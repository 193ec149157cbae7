//! Why a statement is refused, whatever rows its table has.

ghost use Rattle.std.specs.Prelude.{◌≡◌};
ghost use Rattle.sk_model.specs.Replies as spec;

use crate::names::{cond_known, names_known, sets_key, sets_known, sets_twice};
use crate::sorts::{have_sorts, is_condition, sets_sorts};
use sk_model::ErrWord;
use sk_rows::{Column, Expr, NameList, SetItem, Statement, Table, Value};

#[tactic(auto, unfolding(sk_model::specs::Replies::insert_refusal))]
fn insert_refusal(columns: &[Column], values: &[Value]) -> Option<ErrWord>
    ensures { result ≡ spec.insert_refusal columns.now values.now }
{
    if have_sorts(values, columns) {
        None
    } else {
        Some(ErrWord::Type)
    }
}

#[tactic(auto, unfolding(sk_model::specs::Replies::select_refusal))]
fn select_refusal(
    columns: &[Column],
    names: &Option<NameList>,
    cond: &Option<Expr>,
) -> Option<ErrWord>
    ensures { result ≡ spec.select_refusal columns.now names.now cond.now }
{
    if !(names_known(columns, names) && cond_known(columns, cond)) {
        Some(ErrWord::Column)
    } else if !is_condition(columns, cond) {
        Some(ErrWord::Type)
    } else {
        None
    }
}

#[tactic(auto, unfolding(sk_model::specs::Replies::update_refusal))]
fn update_refusal(columns: &[Column], sets: &[SetItem], cond: &Option<Expr>) -> Option<ErrWord>
    ensures { result ≡ spec.update_refusal columns.now sets.now cond.now }
{
    if !(sets_known(columns, sets) && cond_known(columns, cond)) || sets_twice(sets) {
        Some(ErrWord::Column)
    } else if sets_key(columns, sets) {
        Some(ErrWord::Key)
    } else if !(sets_sorts(columns, sets) && is_condition(columns, cond)) {
        Some(ErrWord::Type)
    } else {
        None
    }
}

#[tactic(auto, unfolding(sk_model::specs::Replies::delete_refusal))]
fn delete_refusal(columns: &[Column], cond: &Option<Expr>) -> Option<ErrWord>
    ensures { result ≡ spec.delete_refusal columns.now cond.now }
{
    if !cond_known(columns, cond) {
        Some(ErrWord::Column)
    } else if !is_condition(columns, cond) {
        Some(ErrWord::Type)
    } else {
        None
    }
}

/// Why a statement is refused, whatever rows its table has: the first of a column that is unknown or set twice, the key
/// set, and a wrong count or sort. BEGIN, COMMIT and ROLLBACK are not refused here.
pub fn refusal(table: &Table, statement: &Statement) -> Option<ErrWord>
    ensures { result ≡ spec.refusal_in table.now.columns statement.now }
{
    let columns = table.columns.as_slice();
    match statement {
        Statement::Begin(_) | Statement::Commit | Statement::Rollback => None,
        Statement::Insert { values, .. } => insert_refusal(columns, values.as_slice()),
        Statement::Select {
            columns: names,
            cond,
            ..
        } => select_refusal(columns, names, cond),
        Statement::Update { sets, cond, .. } => update_refusal(columns, sets.as_slice(), cond),
        Statement::Delete { cond, .. } => delete_refusal(columns, cond),
    }
}
