//! Laws of the words that contracts use. The functions do nothing: their contracts are what is proved.

ghost use Rattle.std.specs.Cmp.{IsTotalOrder};
ghost use Rattle.std.specs.FinMap.{IsAntisymmetric};
ghost use Rattle.sk_rows.specs.Values.{value_cmp};

/// The order of values is total, and values that tie in it are one.
#[tactic(auto, using(crate::specs::Orders::value_laws))]
pub fn values_are_ordered()
    ensures total { IsTotalOrder value_cmp }
    ensures exact { IsAntisymmetric value_cmp }
{}
