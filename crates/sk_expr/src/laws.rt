//! The law of the rows that can matter to a statement. The function does nothing: its contract is what is proved.

ghost use Rattle.sk_expr.specs.Concerns.{IsSameOverConcerned};

/// A statement comes to the same over the rows that can matter to it as over all that it reads.
#[tactic(auto, using(crate::proofs::Concerning::concerned))]
pub fn only_rows_that_concern_count()
    ensures { IsSameOverConcerned }
{}
