//! The sort of an expression.

ghost use Rattle.std.specs.Prelude.{◌≡◌, find};
ghost use Rattle.std.specs.Option.{option_copied};
ghost use Rattle.std.specs.Str.{bytes_eq};
ghost use Rattle.sk_rows.specs.Typing.{column_sort as column_sort_of, not_sort as not_sort_of, same_sort as same_sort_of, sort_in, takes as takes_of, gives as gives_of, two_sort as two_sort_of};
ghost use Rattle.sk_eval.specs.Typed.{left_of, negated, outcome};

use sk_rows::{Column, Expr, Op, Sort, Table, Txt, TypeFault};

/// The sort of the column of this name, where there is one.
#[tactic(auto, unfolding(sk_rows::specs::Typing::column_sort))]
pub fn column_sort(name: &Txt, columns: &[Column]) -> Option<Sort>
    ensures { result ≡ column_sort_of name.now columns.now }
{
    let column = find_column(name, columns)?;
    Some(column.sort)
}

fn find_column<'a>(name: &Txt, columns: &'a [Column]) -> Option<&'a Column>
    ensures { option_copied result ≡ find (λ c. bytes_eq c.name name.now) columns.now }
{
    columns.iter().find(|c| c.name.is_same(name))
}

/// Whether two sorts are one.
pub fn same_sort(s: Sort, t: Sort) -> bool
    ensures { result ≡ same_sort_of s t }
{
    match (s, t) {
        (Sort::Int, Sort::Int) | (Sort::Text, Sort::Text) | (Sort::Bool, Sort::Bool) => true,
        _ => false,
    }
}

fn takes(op: Op, s: Sort) -> bool
    ensures { result ≡ takes_of op s }
{
    match op {
        Op::Or | Op::And => same_sort(s, Sort::Bool),
        Op::Eq | Op::Ne => true,
        Op::Lt | Op::Le | Op::Gt | Op::Ge => !matches!(s, Sort::Bool),
        Op::Add | Op::Sub | Op::Mul => same_sort(s, Sort::Int),
    }
}

fn gives(op: Op) -> Sort
    ensures { result ≡ gives_of op }
{
    match op {
        Op::Add | Op::Sub | Op::Mul => Sort::Int,
        _ => Sort::Bool,
    }
}

#[tactic(auto, unfolding(sk_rows::specs::Typing::two_sort))]
fn two_sort(op: Op, s: Sort, t: Sort) -> Result<Sort, TypeFault>
    ensures { result ≡ two_sort_of op s t }
{
    if same_sort(s, t) && takes(op, s) {
        Ok(gives(op))
    } else {
        Err(TypeFault::TypeMismatch)
    }
}

#[tactic(auto, unfolding(sk_rows::specs::Typing::not_sort))]
fn not_sort(s: Sort) -> Result<Sort, TypeFault>
    ensures { result ≡ not_sort_of s }
{
    if same_sort(s, Sort::Bool) {
        Ok(Sort::Bool)
    } else {
        Err(TypeFault::TypeMismatch)
    }
}

/// What the whole expression comes to for each sort of what is left to look at: a fault on its right is answered only
/// where there is none further left.
#[derive(Clone, Copy)]
struct Outcomes {
    int: Result<Sort, TypeFault>,
    text: Result<Sort, TypeFault>,
    truth: Result<Sort, TypeFault>,
}

/// Where nothing is left but the expression itself.
const ITSELF: Outcomes = Outcomes {
    int: Ok(Sort::Int),
    text: Ok(Sort::Text),
    truth: Ok(Sort::Bool),
};

impl Outcomes {
    fn of(self, found: Result<Sort, TypeFault>) -> Result<Sort, TypeFault>
        ensures { result ≡ outcome self found }
    {
        match found? {
            Sort::Int => self.int,
            Sort::Text => self.text,
            Sort::Bool => self.truth,
        }
    }

    fn left_of(self, op: Op, right: Result<Sort, TypeFault>) -> Outcomes
        ensures { result ≡ left_of op right self }
    {
        match right {
            Err(fault) => Outcomes {
                int: Err(fault),
                text: Err(fault),
                truth: Err(fault),
            },
            Ok(t) => Outcomes {
                int: self.of(two_sort(op, Sort::Int, t)),
                text: self.of(two_sort(op, Sort::Text, t)),
                truth: self.of(two_sort(op, Sort::Bool, t)),
            },
        }
    }

    fn negated(self) -> Outcomes
        ensures { result ≡ negated self }
    {
        Outcomes {
            int: self.of(not_sort(Sort::Int)),
            text: self.of(not_sort(Sort::Text)),
            truth: self.of(not_sort(Sort::Bool)),
        }
    }
}

/// The sort of an expression over these columns, as [`type_check`] has it.
///
/// # Errors
///
/// Those of [`type_check`].
#[tactic(auto, using(crate::proofs::Typed::left_outcome, crate::proofs::Typed::negated_outcome, crate::proofs::Typed::itself))]
pub fn sort_over(expr: &Expr, columns: &[Column]) -> Result<Sort, TypeFault>
    ensures { result ≡ sort_in columns.now expr.now }
{
    let mut e = expr;
    let mut outcomes = ITSELF;
    loop {
        match e {
            Expr::Lit(value) => return outcomes.of(Ok(value.sort())),
            Expr::Col(name) => {
                return outcomes.of(column_sort(name, columns).ok_or(TypeFault::UnknownColumn));
            }
            Expr::Not(a) => {
                outcomes = outcomes.negated();
                e = a.get();
            }
            Expr::Two(op, a, b) => {
                outcomes = outcomes.left_of(*op, sort_over(b.get(), columns));
                e = a.get();
            }
        }
    }
}

/// The sort of an expression over a table's columns.
///
/// # Errors
///
/// The first fault: of each operator its left side, then its right side, then the operator itself.
pub fn type_check(expr: &Expr, table: &Table) -> Result<Sort, TypeFault>
    ensures { result ≡ sort_in table.now.columns expr.now }
{
    sort_over(expr, table.columns.as_slice())
}
