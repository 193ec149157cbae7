//! The counts and the sorts of what stands in a statement.

ghost use Rattle.std.specs.Prelude.{◌≡◌};
ghost use Rattle.sk_model.specs.Sorts as spec;

use sk_eval::{column_sort, same_sort, sort_over};
use sk_rows::{Column, Expr, SetItem, Sort, TypeFault, Value};

pub(crate) fn have_sorts(values: &[Value], columns: &[Column]) -> bool
    ensures { result ≡ spec.have_sorts values.now columns.now }
{
    match values {
        [] => columns.is_empty(),
        [v, vs @ ..] => match columns {
            [] => false,
            [c, cs @ ..] => same_sort(v.sort(), c.sort) && have_sorts(vs, cs),
        },
    }
}

fn is_sort(found: Result<Sort, TypeFault>, wanted: Option<Sort>) -> bool
    ensures { result ≡ spec.is_sort found wanted }
{
    match (found, wanted) {
        (Ok(s), Some(t)) => same_sort(s, t),
        _ => false,
    }
}

pub(crate) fn is_condition(columns: &[Column], cond: &Option<Expr>) -> bool
    ensures { result ≡ spec.is_condition columns.now cond.now }
{
    match cond {
        None => true,
        Some(e) => is_sort(sort_over(e, columns), Some(Sort::Bool)),
    }
}

pub(crate) fn sets_sorts(columns: &[Column], sets: &[SetItem]) -> bool
    ensures { result ≡ spec.sets_sorts columns.now sets.now }
{
    sets.iter().all(|s| is_sort(
        sort_over(&s.value, columns),
        column_sort(&s.column, columns),
    ))
}
