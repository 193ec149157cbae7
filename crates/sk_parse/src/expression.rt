//! Expressions.

ghost use Rattle.std.specs.Prelude.{◌≡◌, IfOk};
ghost use Rattle.sk_parse.specs.Input.{Reads, first};
ghost use Rattle.sk_parse.specs.Terms as terms;
ghost use Rattle.sk_parse.specs.Grammar as spec;

use crate::cursor::{Cursor, Sign};
use crate::fault::Fault;
use crate::marks::{CLOSE, OPEN};
use crate::terms::{Level, comparison, grouping, literal, name};
use sk_lex::{Keyword, Word};
use sk_rows::{Boxed, Expr, NoMemory, Op};
use std::alloc::Global;

/// How many parentheses and NOTs may be open together.
pub const NESTING: usize = 64;

fn not(alloc: Global, a: Expr) -> Result<Expr, NoMemory>
    ensures { IfOk result (λ e. e ≡ Expr.Not a) }
{
    Ok(Expr::Not(Boxed::new(alloc, a)?))
}

fn two(alloc: Global, op: Op, a: Expr, b: Expr) -> Result<Expr, NoMemory>
    ensures { IfOk result (λ e. e ≡ Expr.Two op a b) }
{
    Ok(Expr::Two(op, Boxed::new(alloc, a)?, Boxed::new(alloc, b)?))
}

fn grouping_at(cursor: &Cursor<'_>, level: Level) -> Option<Op>
    ensures { result ≡ spec.found_by (terms.grouping level) (first cursor.now) }
{
    match cursor.peek() {
        None => None,
        Some(word) => grouping(level, word),
    }
}

fn comparison_at(cursor: &Cursor<'_>) -> Option<Op>
    ensures { result ≡ spec.found_by terms.comparison (first cursor.now) }
{
    match cursor.peek() {
        None => None,
        Some(word) => comparison(word),
    }
}

fn is_column(cursor: &Cursor<'_>) -> bool
    ensures { result ≡ spec.is_column (first cursor.now) }
{
    match cursor.peek() {
        Some(Word::Name(_)) => true,
        _ => false,
    }
}

#[cycle(expr)]
#[tactic(auto, unfolding(crate::specs::Grammar::chained, crate::specs::Grammar::more))]
fn chain(alloc: Global, cursor: &mut Cursor<'_>, level: Level, depth: usize) -> Result<Expr, Fault>
    ensures { Reads (spec.chain_at level depth cursor.old) result cursor.new }
{
    let mut left = operand(alloc, cursor, level, depth)?;
    for _turn in 0..cursor.left() {
        let Some(op) = grouping_at(cursor, level) else {
            return Ok(left);
        };
        cursor.skip();
        let right = operand(alloc, cursor, level, depth)?;
        left = two(alloc, op, left, right)?;
    }
    Ok(left)
}

#[cycle(expr)]
fn operand(
    alloc: Global,
    cursor: &mut Cursor<'_>,
    level: Level,
    depth: usize,
) -> Result<Expr, Fault>
    ensures { Reads (spec.operand_at level depth cursor.old) result cursor.new }
{
    match level {
        Level::Or => chain(alloc, cursor, Level::And, depth),
        Level::And => neg(alloc, cursor, depth),
        Level::Sum => chain(alloc, cursor, Level::Prod, depth),
        Level::Prod => atom(alloc, cursor, depth),
    }
}

#[cycle(expr)]
#[tactic(auto, using(crate::proofs::Levels::neg_is))]
fn neg(alloc: Global, cursor: &mut Cursor<'_>, depth: usize) -> Result<Expr, Fault>
    ensures { Reads (spec.neg depth cursor.old) result cursor.new }
{
    if cursor.sees(Sign::Key(Keyword::Not)) {
        negation(alloc, cursor, depth)
    } else {
        comp(alloc, cursor, depth)
    }
}

#[cycle(expr)]
#[tactic(auto, using(crate::proofs::Levels::negation_deeper), unfolding(crate::specs::Grammar::negation))]
fn negation(alloc: Global, cursor: &mut Cursor<'_>, depth: usize) -> Result<Expr, Fault>
    ensures { Reads (spec.negation depth cursor.old) result cursor.new }
{
    if depth == 0 {
        return Err(cursor.refuse());
    }
    cursor.skip();
    let inner = neg(alloc, cursor, depth - 1)?;
    Ok(not(alloc, inner)?)
}

#[cycle(expr)]
#[tactic(auto, unfolding(crate::specs::Grammar::comp_over, crate::specs::Grammar::compared_to))]
fn comp(alloc: Global, cursor: &mut Cursor<'_>, depth: usize) -> Result<Expr, Fault>
    ensures { Reads (spec.comp_over (spec.parens depth) cursor.old) result cursor.new }
{
    let left = chain(alloc, cursor, Level::Sum, depth)?;
    let Some(op) = comparison_at(cursor) else {
        return Ok(left);
    };
    cursor.skip();
    let right = chain(alloc, cursor, Level::Sum, depth)?;
    Ok(two(alloc, op, left, right)?)
}

#[cycle(expr)]
#[tactic(auto, unfolding(crate::specs::Grammar::atom_over))]
fn atom(alloc: Global, cursor: &mut Cursor<'_>, depth: usize) -> Result<Expr, Fault>
    ensures { Reads (spec.atom_over (spec.parens depth) cursor.old) result cursor.new }
{
    if cursor.sees(OPEN) {
        parens(alloc, cursor, depth)
    } else if is_column(cursor) {
        Ok(Expr::Col(name(alloc, cursor)?))
    } else {
        Ok(Expr::Lit(literal(alloc, cursor)?))
    }
}

#[cycle(expr)]
#[tactic(auto, using(crate::proofs::Levels::parens_deeper), unfolding(crate::specs::Grammar::parens, crate::specs::Grammar::in_parens))]
fn parens(alloc: Global, cursor: &mut Cursor<'_>, depth: usize) -> Result<Expr, Fault>
    ensures { Reads (spec.parens depth cursor.old) result cursor.new }
{
    if depth == 0 {
        return Err(cursor.refuse());
    }
    cursor.expect(OPEN)?;
    let inner = chain(alloc, cursor, Level::Or, depth - 1)?;
    cursor.expect(CLOSE)?;
    Ok(inner)
}

/// An expression, with at most 64 NOTs and parentheses open together.
pub fn expr(alloc: Global, cursor: &mut Cursor<'_>) -> Result<Expr, Fault>
    ensures { Reads (spec.expr cursor.old) result cursor.new }
{
    chain(alloc, cursor, Level::Or, NESTING)
}
