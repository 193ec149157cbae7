//! The names in a statement.

ghost use Rattle.std.specs.Prelude.{◌≡◌, Some};
ghost use Rattle.std.specs.List.{list_any};
ghost use Rattle.std.specs.Str.{bytes_eq};
ghost use Rattle.sk_rows.specs.Catalog.{has_column as has_column_of};
ghost use Rattle.sk_model.specs.Names as spec;

use sk_rows::{Column, Expr, NameList, SetItem, Txt};

fn has_column(name: &Txt, columns: &[Column]) -> bool
    ensures { result ≡ has_column_of name.now columns.now }
{
    columns.iter().any(|c| c.name.is_same(name))
}

pub(crate) fn is_key(columns: &[Column], name: &Txt) -> bool
    ensures { result ≡ spec.is_key columns.now name.now }
{
    match columns {
        [] => false,
        [c, ..] => c.name.is_same(name),
    }
}

#[tactic(auto, using(crate::proofs::Naming::known_left, crate::proofs::Naming::unknown_right))]
fn expr_known(columns: &[Column], expr: &Expr) -> bool
    ensures { result ≡ spec.expr_known columns.now expr.now }
{
    let mut e = expr;
    loop {
        match e {
            Expr::Lit(_) => return true,
            Expr::Col(name) => return has_column(name, columns),
            Expr::Not(a) => e = a.get(),
            Expr::Two(_, a, b) => {
                if !expr_known(columns, b.get()) {
                    return false;
                }
                e = a.get();
            }
        }
    }
}

pub(crate) fn cond_known(columns: &[Column], cond: &Option<Expr>) -> bool
    ensures { result ≡ spec.cond_known columns.now cond.now }
{
    match cond {
        None => true,
        Some(e) => expr_known(columns, e),
    }
}

fn are_columns(columns: &[Column], names: &[Txt]) -> bool
    ensures { result ≡ spec.names_known columns.now (Some names.now) }
{
    names.iter().all(|name| has_column(name, columns))
}

pub(crate) fn names_known(columns: &[Column], names: &Option<NameList>) -> bool
    ensures { result ≡ spec.names_known columns.now names.now }
{
    match names {
        None => true,
        Some(names) => are_columns(columns, names.as_slice()),
    }
}

pub(crate) fn sets_known(columns: &[Column], sets: &[SetItem]) -> bool
    ensures { result ≡ spec.sets_known columns.now sets.now }
{
    sets.iter().all(|s| has_column(&s.column, columns) && expr_known(columns, &s.value))
}

fn sets_column(name: &Txt, sets: &[SetItem]) -> bool
    ensures { result ≡ list_any (λ x. bytes_eq x.column name.now) sets.now }
{
    sets.iter().any(|x| x.column.is_same(name))
}

pub(crate) fn sets_twice(sets: &[SetItem]) -> bool
    ensures { result ≡ spec.sets_twice sets.now }
{
    match sets {
        [] => false,
        [s, rest @ ..] => sets_column(&s.column, rest) || sets_twice(rest),
    }
}

pub(crate) fn sets_key(columns: &[Column], sets: &[SetItem]) -> bool
    ensures { result ≡ spec.sets_key columns.now sets.now }
{
    sets.iter().any(|s| is_key(columns, &s.column))
}
