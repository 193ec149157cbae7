//! Which statements can be printed.

ghost use Rattle.std.specs.Prelude.{◌≡◌, ◌↔◌, ◌≤◌, IsTrue, nat_le};
ghost use Rattle.std.specs.List.{list_all};
ghost use Rattle.sk_rows.specs.Names.{is_name as is_name_of};
ghost use Rattle.sk_parse.specs.Printed as spec;

use crate::expression::NESTING;
use crate::printing::{left_at, right_at, strength};
use sk_rows::{Expr, LONGEST_TEXT, NameList, Op, SetItem, Statement, Txt, Value, is_name};

#[tactic(auto, using(crate::proofs::Written::are_printable_of))]
fn is_short(text: &Txt) -> bool
    ensures { result ≡ spec.is_text text.now }
{
    text.as_slice().len() <= LONGEST_TEXT
}

/// Each number of 64 bits is a literal of the grammar.
#[tactic(auto, using(crate::proofs::Written::each_int))]
fn is_int(n: i64) -> bool
    ensures { result ≡ spec.is_int n }
{
    let _in_range = n;
    true
}

fn is_literal(value: &Value) -> bool
    ensures { result ≡ spec.is_literal value.now }
{
    match value {
        Value::Text(t) => is_short(t),
        Value::Int(n) => is_int(*n),
        Value::Bool(_) => true,
    }
}

#[tactic(auto, using(crate::proofs::Nesting::spelled_left, crate::proofs::Nesting::unspelled_right))]
fn can_be_spelled(e: &Expr) -> bool
    ensures { result ≡ spec.can_be_spelled e.now }
{
    let mut left = e;
    loop {
        match left {
            Expr::Lit(v) => return is_literal(v),
            Expr::Col(t) => return is_name(t.as_slice()),
            Expr::Not(a) => left = a.get(),
            Expr::Two(_, a, b) => {
                if !can_be_spelled(b.get()) {
                    return false;
                }
                left = a.get();
            }
        }
    }
}

/// How many more are open within a NOT at the place of a rule.
fn opened_by_not(at: u8) -> usize
    ensures { result ≡ spec.opened_by_not at }
{
    if 2 < at { 2 } else { 1 }
}

/// How many more are open within an operator at the place of a rule.
fn opened_by(op: Op, at: u8) -> usize
    ensures { result ≡ spec.opened_by op at }
{
    if strength(op) < at { 1 } else { 0 }
}

/// Whether at most `limit` NOTs and parentheses are open together where the expression stands at the place of a rule.
#[tactic(auto, using(crate::proofs::Nesting::nesting_not, crate::proofs::Nesting::nesting_two))]
fn nests_within(e: &Expr, at: u8, limit: usize) -> bool
    ensures { IsTrue result ↔ (spec.nesting e.now at ≤ limit) }
{
    let mut left = e;
    let mut place = at;
    let mut room = limit;
    loop {
        match left {
            Expr::Lit(_) | Expr::Col(_) => return true,
            Expr::Not(a) => {
                let opened = opened_by_not(place);
                if room < opened {
                    return false;
                }
                room -= opened;
                place = 2;
                left = a.get();
            }
            Expr::Two(op, a, b) => {
                let opened = opened_by(*op, place);
                if room < opened {
                    return false;
                }
                room -= opened;
                if !nests_within(b.get(), right_at(*op), room) {
                    return false;
                }
                place = left_at(*op);
                left = a.get();
            }
        }
    }
}

#[tactic(auto, using(crate::proofs::Written::as_test))]
fn nests_little(e: &Expr) -> bool
    ensures { result ≡ nat_le (spec.nesting e.now 0) 64 }
{
    nests_within(e, 0, NESTING)
}

#[tactic(auto, unfolding(crate::specs::Printed::is_expression))]
fn is_expression(e: &Expr) -> bool
    ensures { result ≡ spec.is_expression e.now }
{
    can_be_spelled(e) && nests_little(e)
}

fn is_condition(cond: &Option<Expr>) -> bool
    ensures { result ≡ spec.is_condition cond.now }
{
    match cond {
        None => true,
        Some(e) => is_expression(e),
    }
}

fn all_names(names: &[Txt]) -> bool
    ensures { result ≡ list_all is_name_of names.now }
{
    names.iter().all(|t| is_name(t.as_slice()))
}

fn are_names(names: &[Txt]) -> bool
    ensures { result ≡ spec.are_some is_name_of names.now }
{
    match names {
        [] => false,
        [t, rest @ ..] => is_name(t.as_slice()) && all_names(rest),
    }
}

fn all_literals(values: &[Value]) -> bool
    ensures { result ≡ list_all spec.is_literal values.now }
{
    values.iter().all(|v| is_literal(v))
}

fn are_literals(values: &[Value]) -> bool
    ensures { result ≡ spec.are_some spec.is_literal values.now }
{
    match values {
        [] => false,
        [v, rest @ ..] => is_literal(v) && all_literals(rest),
    }
}

fn is_set(item: &SetItem) -> bool
    ensures { result ≡ spec.is_set item.now }
{
    is_name(item.column.as_slice()) && is_expression(&item.value)
}

fn all_sets(items: &[SetItem]) -> bool
    ensures { result ≡ list_all spec.is_set items.now }
{
    items.iter().all(|item| is_set(item))
}

fn are_sets(items: &[SetItem]) -> bool
    ensures { result ≡ spec.are_some spec.is_set items.now }
{
    match items {
        [] => false,
        [item, rest @ ..] => is_set(item) && all_sets(rest),
    }
}

fn are_shown(columns: &Option<NameList>) -> bool
    ensures { result ≡ spec.are_shown columns.now }
{
    match columns {
        None => true,
        Some(names) => are_names(names.as_slice()),
    }
}

/// Whether `print` takes the statement: its names are names of the grammar, its texts have at most 255 bytes, no list is
/// empty, and at most 64 NOTs and parentheses are open together where it is printed.
pub fn can_be_printed(statement: &Statement) -> bool
    ensures { result ≡ spec.can_be_printed statement.now }
{
    match statement {
        Statement::Begin(_) | Statement::Commit | Statement::Rollback => true,
        Statement::Insert { table, values } => {
            is_name(table.as_slice()) && are_literals(values.as_slice())
        }
        Statement::Select {
            table,
            columns,
            cond,
        } => is_name(table.as_slice()) && are_shown(columns) && is_condition(cond),
        Statement::Update { table, sets, cond } => {
            is_name(table.as_slice()) && are_sets(sets.as_slice()) && is_condition(cond)
        }
        Statement::Delete { table, cond } => is_name(table.as_slice()) && is_condition(cond),
    }
}
