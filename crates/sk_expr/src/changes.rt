//! The new rows of an UPDATE, each made of its old row alone.

ghost use Rattle.std.specs.Prelude.{◌≡◌, ◌∷◌, ◌++◌, [], find, OnOk, IfErr};
ghost use Rattle.std.specs.Option.{option_copied};
ghost use Rattle.std.specs.Str.{bytes_eq};
ghost use Rattle.sk_rows.specs.Memory.{Gives};
ghost use Rattle.sk_rows.specs.Evaluation.{wants_memory};
ghost use Rattle.sk_rows.specs.declared.faults.ValueFault.TheVariants as fault;
ghost use Rattle.sk_model.specs.Changes as spec;
ghost use Rattle.sk_expr.specs.Extended.{Extends};

use sk_eval::value_over;
use sk_model::KeyedRows;
use sk_rows::{Column, Copies, NoMemory, Row, SetItem, Txt, Value, ValueFault};
use std::alloc::Global;

fn set_of<'a>(name: &Txt, sets: &'a [SetItem]) -> Option<&'a SetItem>
    ensures { option_copied result ≡ find (λ s. bytes_eq s.column name.now) sets.now }
{
    sets.iter().find(|s| s.column.is_same(name))
}

/// The new value of a column that is set, over the old row, or the value that it has.
fn new_value(
    alloc: Global,
    columns: &[Column],
    row: &[Value],
    set: Option<&SetItem>,
    old: &Value,
) -> Result<Value, ValueFault>
    ensures { Gives wants_memory result (spec.new_value columns.now row.now (option_copied set.entry) old.now) }
{
    match set {
        None => Ok(old.copy(alloc)?),
        Some(set) => value_over(alloc, &set.value, columns, row),
    }
}

fn put_value(out: &mut Row, value: Value) -> Result<(), ValueFault>
    ensures ok { OnOk result (out.new ≡ out.old ++ value ∷ []) }
    ensures err { IfErr result (λ e. e ≡ fault.NoMemory) }
{
    match out.push(value) {
        Ok(()) => Ok(()),
        Err(_) => Err(ValueFault::NoMemory),
    }
}

/// Puts the new values of these columns, which have the old values `olds`, behind the others.
fn put_new_values(
    alloc: Global,
    columns: &[Column],
    row: &[Value],
    sets: &[SetItem],
    of: &[Column],
    olds: &[Value],
    out: &mut Row,
) -> Result<(), ValueFault>
    ensures { Extends result out.old out.new (spec.new_values columns.now row.now sets.now of.now olds.now) }
{
    match of {
        [] => Ok(()),
        [c, cs @ ..] => match olds {
            [] => Ok(()),
            [v, vs @ ..] => {
                let new = new_value(alloc, columns, row, set_of(&c.name, sets), v)?;
                put_value(out, new)?;
                put_new_values(alloc, columns, row, sets, cs, vs, out)
            }
        },
    }
}

/// The new row.
fn new_row(
    alloc: Global,
    columns: &[Column],
    sets: &[SetItem],
    row: &[Value],
) -> Result<Row, ValueFault>
    ensures { Gives wants_memory result (spec.new_row columns.now sets.now row.now) }
{
    let mut values = Row::new(alloc);
    put_new_values(alloc, columns, row, sets, columns, row, &mut values)?;
    Ok(values)
}

fn push_keyed(alloc: Global, out: &mut KeyedRows, key: &Value, row: Row) -> Result<(), NoMemory>
    ensures { OnOk result (out.new ≡ out.old ++ (key.now, row) ∷ []) }
{
    out.push((key.copy(alloc)?, row))?;
    Ok(())
}

fn put_keyed(alloc: Global, out: &mut KeyedRows, key: &Value, row: Row) -> Result<(), ValueFault>
    ensures ok { OnOk result (out.new ≡ out.old ++ (key.now, row) ∷ []) }
    ensures err { IfErr result (λ e. e ≡ fault.NoMemory) }
{
    match push_keyed(alloc, out, key, row) {
        Ok(()) => Ok(()),
        Err(NoMemory) => Err(ValueFault::NoMemory),
    }
}

/// The new rows with their keys.
pub(crate) fn new_rows(
    alloc: Global,
    columns: &[Column],
    sets: &[SetItem],
    rows: &[(Value, Row)],
) -> Result<KeyedRows, ValueFault>
    ensures { Gives wants_memory result (spec.new_rows columns.now sets.now rows.now) }
{
    let mut out = KeyedRows::new(alloc);
    for row in rows {
        let new = new_row(alloc, columns, sets, row.1.as_slice())?;
        put_keyed(alloc, &mut out, &row.0, new)?;
    }
    Ok(out)
}
