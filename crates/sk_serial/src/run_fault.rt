//! Why no script was played.

use sk_codec::What;
use sk_rows::NoMemory;

/// Why no script was played.
#[derive(Clone, Copy, Debug, PartialEq, Eq)]
pub(crate) enum RunFault {
    /// The words are of no written form.
    Usage,
    /// This is the first fault of the script.
    Script { line: u32, place: u32 },
    /// This line does not go with the store that is there.
    Tables { line: u32 },
    /// The source failed.
    Read,
    /// The disk failed before the run began.
    Device,
    /// This is the first field of the stored files that is wrong.
    Damaged { file: u8, place: u64, what: What },
    /// Memory was wanted and refused.
    NoMemory,
}

impl From<NoMemory> for RunFault {
    ghost use Rattle.std.specs.Prelude.{◌≡◌};
    ghost use Rattle.sk_serial.specs.declared.run_fault.RunFault.TheVariants as run_fault;

    ghost from_gives = { λ _ e. e ≡ run_fault.NoMemory };

    fn from(_e: NoMemory) -> RunFault {
        RunFault::NoMemory
    }
}
