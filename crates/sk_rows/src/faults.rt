//! What can go wrong with an expression.

use crate::memory::NoMemory;

/// The first thing that is wrong with an expression's sorts.
#[derive(Clone, Copy, Debug, PartialEq, Eq)]
pub enum TypeFault {
    /// A name that no column of the table has.
    UnknownColumn,
    /// An operator over sorts that it does not take.
    TypeMismatch,
}

/// Why an expression has no value.
#[derive(Clone, Copy, Debug, PartialEq, Eq)]
pub enum ValueFault {
    /// A result lies outside 64 bits.
    Overflow,
    /// Memory was wanted and refused.
    NoMemory,
}

impl From<NoMemory> for ValueFault {
    ghost use Rattle.std.specs.Prelude.{◌≡◌};
    ghost use Rattle.sk_rows.specs.declared.faults.ValueFault.TheVariants as fault;

    ghost from_gives = { λ _ e. e ≡ fault.NoMemory };

    fn from(_e: NoMemory) -> ValueFault {
        ValueFault::NoMemory
    }
}
