//! Expressions.

ghost use Rattle.std.specs.Prelude.{◌≡◌, ◌↔◌, ◌≤◌, IsTrue};
ghost use Rattle.sk_rows.specs.Expression.{depth};

use crate::copies::Copies;
use crate::memory::NoMemory;
use crate::operations::{First, Spine};
use crate::text::Txt;
use crate::value::Value;
use sqlite_items::Boxed;
use std::alloc::Global;

/// An operator between two expressions.
#[derive(Clone, Copy, Debug, PartialEq, Eq)]
pub enum Op {
    /// `OR`, of two truths.
    Or,
    /// `AND`, of two truths.
    And,
    /// `=`, of two values of one sort.
    Eq,
    /// `<>`, of two values of one sort.
    Ne,
    /// `<`, of two numbers or two texts.
    Lt,
    /// `<=`, of two numbers or two texts.
    Le,
    /// `>`, of two numbers or two texts.
    Gt,
    /// `>=`, of two numbers or two texts.
    Ge,
    /// `+`, of two numbers.
    Add,
    /// `-`, of two numbers.
    Sub,
    /// `*`, of two numbers.
    Mul,
}

/// An expression over the columns of a row.
///
/// Its parts stand in `Boxed` and not in `Box`: a `Box`'s pointer is part of its value, so no copy would equal what it
/// copies. Contracts see a `Boxed` as what it holds.
pub enum Expr {
    /// A value that is written out.
    Lit(Value),
    /// The value in the column of this name.
    Col(Txt),
    /// The contrary of a truth.
    Not(Boxed<Expr>),
    /// An operator between a left and a right side.
    Two(Op, Boxed<Expr>, Boxed<Expr>),
}

/// Goes down the left sides by a loop, so that a long chain of operators needs no more stack than a short one.
impl Drop for Expr {
    fn drop(mut self) {
        loop {
            match self {
                Expr::Lit(_) | Expr::Col(_) => return,
                Expr::Not(a) => self = a.into_inner(),
                Expr::Two(_, a, b) => {
                    let _right = b.into_inner();
                    self = a.into_inner();
                }
            }
        }
    }
}

impl Copies for Expr {
    #[tactic(auto, using(crate::proofs::Spines::joined_push, crate::proofs::Spines::below_pop))]
    fn copy(&self, alloc: Global) -> Result<Expr, NoMemory> {
        let Spine {
            first,
            mut operations,
        } = self.spine(alloc)?;
        let mut copy = match first {
            First::Lit(value) => Expr::Lit(value.copy(alloc)?),
            First::Col(name) => Expr::Col(name.copy(alloc)?),
            First::Not(a) => Expr::Not(Boxed::new(alloc, a.copy(alloc)?)?),
        };
        while let Some(operation) = operations.pop() {
            let left = Boxed::new(alloc, copy)?;
            let right = Boxed::new(alloc, operation.right.copy(alloc)?)?;
            copy = Expr::Two(operation.op, left, right);
        }
        Ok(copy)
    }
}

impl Expr {
    /// Whether the expression is at most `limit` deep. A value and a name are 1 deep.
    pub fn is_within(&self, limit: u32) -> bool
        ensures { IsTrue result ↔ (depth self.now ≤ limit) }
    {
        let mut e = self;
        let mut left = limit;
        loop {
            if left == 0 {
                return false;
            }
            left -= 1;
            match e {
                Expr::Lit(_) | Expr::Col(_) => return true,
                Expr::Not(a) => e = a.get(),
                Expr::Two(_, a, b) => {
                    if !b.get().is_within(left) {
                        return false;
                    }
                    e = a.get();
                }
            }
        }
    }

    /// Whether two expressions are written alike.
    pub fn is_same(&self, other: &Expr) -> bool
        ensures { IsTrue result ↔ (self.now ≡ other.now) }
    {
        let mut left = self;
        let mut right = other;
        loop {
            match (left, right) {
                (Expr::Lit(a), Expr::Lit(b)) => return a.is_same(b),
                (Expr::Col(a), Expr::Col(b)) => return a.is_same(b),
                (Expr::Not(a), Expr::Not(b)) => {
                    left = a.get();
                    right = b.get();
                }
                (Expr::Two(o, a, b), Expr::Two(p, c, d)) => {
                    if *o != *p || !b.get().is_same(d.get()) {
                        return false;
                    }
                    left = a.get();
                    right = c.get();
                }
                _ => return false,
            }
        }
    }
}
