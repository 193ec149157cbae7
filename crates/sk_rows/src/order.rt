//! The order of values, as one of Rust's.

ghost use Rattle.std.specs.Prelude.{refl};
ghost use Rattle.std.specs.Cmp.{partial_equiv_from_equiv, partial_order_from_total};
ghost use Rattle.std.specs.Ordering.{as_partial_cmp, eq_by_cmp};
ghost use Rattle.std.proofs.Common.{rules};
ghost use Rattle.std.specs.Cmp.Rules.{comparing};
ghost use Rattle.std.proofs.lemmas.Cmp.{eq_by_cmp_equiv};
ghost use Rattle.sk_rows.specs.Values.{value_cmp};
ghost use Rattle.sk_rows.specs.Orders.{value_cmp_total};

use crate::value::Value;
use std::cmp::Ordering;

impl PartialEq for Value {
    ghost eq = { eq_by_cmp value_cmp };

    ghost laws = { partial_equiv_from_equiv (eq_by_cmp_equiv value_cmp_total) };

    fn eq(&self, other: &Value) -> bool {
        self.compare(other).is_eq()
    }
}

impl Eq for Value {
    ghost laws = { eq_by_cmp_equiv value_cmp_total };
}

impl PartialOrd for Value {
    ghost partial_cmp = { as_partial_cmp value_cmp };

    ghost laws = { partial_order_from_total value_cmp_total };

    fn partial_cmp(&self, other: &Value) -> Option<Ordering> {
        Some(self.compare(other))
    }
}

/// Numbers by size, texts by their bytes, FALSE before TRUE, and across sorts numbers before texts before truths.
impl Ord for Value {
    ghost cmp = { value_cmp };

    ghost total = { value_cmp_total };

    ghost matches_partial_cmp = { λ a b. refl };

    ghost matches_eq = { λ a b. refl };

    fn cmp(&self, other: &Value) -> Ordering {
        self.compare(other)
    }
}
