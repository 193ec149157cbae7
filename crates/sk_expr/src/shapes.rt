//! What a condition is, as far as `name = literal` goes.

ghost use Rattle.std.specs.Prelude.{◌≡◌};
ghost use Rattle.std.specs.Option.{option_copied};
ghost use Rattle.sk_model.specs.Reads as spec;
ghost use Rattle.sk_expr.specs.Shapes.{shape_seen, side};

use crate::names::is_key;
use sk_rows::{Column, Expr, Op, Txt, Value};

/// A condition as far as `name = literal` goes.
#[derive(Clone, Copy)]
pub(crate) enum Shape<'a> {
    Name(&'a Txt),
    Literal(&'a Value),
    Equation(&'a Txt, &'a Value),
    Other,
}

fn joined<'a>(op: Op, left: Shape<'a>, right: Shape<'a>) -> Shape<'a>
    ensures { shape_seen result ≡ spec.joined op (shape_seen left.entry) (shape_seen right.entry) }
{
    match (op, left, right) {
        (Op::Eq, Shape::Name(name), Shape::Literal(value)) => Shape::Equation(name, value),
        _ => Shape::Other,
    }
}

/// A side of an operator, as far as it can make an equation: a name or a literal.
#[tactic(auto, using(crate::proofs::Sides::other_side))]
fn side_of(expr: &Expr) -> Shape<'_>
    ensures { shape_seen result ≡ side (spec.shape expr.now) }
{
    match expr {
        Expr::Lit(value) => Shape::Literal(value),
        Expr::Col(name) => Shape::Name(name),
        Expr::Not(_) => Shape::Other,
        Expr::Two(_, _, _) => Shape::Other,
    }
}

#[tactic(auto, using(crate::proofs::Sides::joined_sides))]
fn shape_of(expr: &Expr) -> Shape<'_>
    ensures { shape_seen result ≡ spec.shape expr.now }
{
    match expr {
        Expr::Lit(value) => Shape::Literal(value),
        Expr::Col(name) => Shape::Name(name),
        Expr::Not(_) => Shape::Other,
        Expr::Two(op, a, b) => joined(*op, side_of(a.get()), side_of(b.get())),
    }
}

fn key_in<'a>(columns: &[Column], shape: Shape<'a>) -> Option<&'a Value>
    ensures { option_copied result ≡ spec.key_in columns.now (shape_seen shape.entry) }
{
    match shape {
        Shape::Equation(name, value) => {
            if is_key(columns, name) {
                Some(value)
            } else {
                None
            }
        }
        _ => None,
    }
}

/// The one key that a condition asks for, where it is exactly `key = literal`.
pub(crate) fn key_asked<'a>(columns: &[Column], cond: &'a Option<Expr>) -> Option<&'a Value>
    ensures { option_copied result ≡ spec.key_asked columns.now cond.now }
{
    match cond {
        None => None,
        Some(e) => key_in(columns, shape_of(e)),
    }
}
