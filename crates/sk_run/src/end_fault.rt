//! Why a run did not answer.

use sk_rows::NoMemory;

/// Why a run did not answer.
#[derive(Clone, Copy, Debug, PartialEq, Eq)]
pub enum EndFault {
    /// A call could not be answered: the run is at its end.
    Unanswered,
    /// Memory was wanted and refused.
    NoMemory,
}

impl From<NoMemory> for EndFault {
    ghost use Rattle.std.specs.Prelude.{◌≡◌};
    ghost use Rattle.sk_run.specs.declared.end_fault.EndFault.TheVariants as fault;

    ghost from_gives = { λ _ e. e ≡ fault.NoMemory };

    fn from(_e: NoMemory) -> EndFault {
        EndFault::NoMemory
    }
}
