//! The law of sorts and values. The function does nothing: its contract is what is proved.

ghost use Rattle.std.specs.Prelude.{◌≡◌, List, Ok};
ghost use Rattle.sk_rows.specs.declared.value.Sort.{Sort};
ghost use Rattle.sk_rows.specs.declared.value.Value.{Value};
ghost use Rattle.sk_rows.specs.declared.table.Column.{Column};
ghost use Rattle.sk_rows.specs.declared.expr.Expr.{Expr};
ghost use Rattle.sk_rows.specs.Values.{Fits};
ghost use Rattle.sk_rows.specs.Typing.{sort_in};
ghost use Rattle.sk_rows.specs.Evaluation.{value_in};
ghost use Rattle.sk_eval.specs.Sound.{HasSort};

/// What is well typed over a table has, on each row that fits the table, a value of that sort, or overflows.
pub fn typed_has_value()
    ensures { (columns : List Column) (row : List Value) (e : Expr) (s : Sort) → Fits row columns → sort_in columns e ≡ Ok s → HasSort s (value_in columns row e) }
{}
