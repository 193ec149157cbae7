//! The left side of an expression, down to its first part.

ghost use Rattle.std.specs.Prelude.{◌≡◌, ◌≤◌, IfOk};
ghost use Rattle.sk_rows.specs.Expression.{depth};
ghost use Rattle.sk_rows.specs.Spine.{AreBelow, first_of, joined};

use crate::expr::{Expr, Op};
use crate::memory::NoMemory;
use crate::text::Txt;
use crate::value::Value;
use std::alloc::Global;

/// What an expression begins with: the end of its left side, which is no operation.
#[derive(Clone, Copy)]
pub enum First<'a> {
    /// A value that is written out.
    Lit(&'a Value),
    /// The value in the column of this name.
    Col(&'a Txt),
    /// The contrary of a truth.
    Not(&'a Expr),
}

/// An operator and its right side.
#[derive(Clone, Copy)]
pub struct Operation<'a> {
    /// The operator.
    pub op: Op,
    /// What stands on its right.
    pub right: &'a Expr,
}

/// An expression as its first part and the operations on it, the outermost first. Code that works on an expression goes
/// over these by a loop, so that a long chain of operators needs no more stack than a short one.
#[derive(Drop)]
pub struct Spine<'a> {
    /// What it begins with.
    pub first: First<'a>,
    /// The operations on it, the last one of all first.
    pub operations: Vec<Operation<'a>>,
}

impl Expr {
    /// The first part of the expression and the operations on it.
    ///
    /// # Errors
    ///
    /// `NoMemory` alone: the list of the operations takes memory, where there are any.
    pub fn spine(&self, alloc: Global) -> Result<Spine<'_>, NoMemory>
        ensures value { IfOk result (λ s. joined s.operations.items (first_of s.first) ≡ self.now) }
        ensures first { IfOk result (λ s. depth (first_of s.first) ≤ depth self.now) }
        ensures sides { IfOk result (λ s. AreBelow (depth self.now) s.operations.items) }
    {
        let mut operations = Vec::new(alloc);
        let mut e = self;
        loop {
            let first = match e {
                Expr::Lit(value) => First::Lit(value),
                Expr::Col(name) => First::Col(name),
                Expr::Not(a) => First::Not(a.get()),
                Expr::Two(op, a, b) => {
                    operations.push(Operation {
                        op: *op,
                        right: b.get(),
                    })?;
                    e = a.get();
                    continue;
                }
            };
            return Ok(Spine { first, operations });
        }
    }
}
