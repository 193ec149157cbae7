//! What is left to read of a file.

ghost use Rattle.std.specs.Prelude.{◌≡◌};
ghost use Rattle.sk_codec.specs.declared.fault.ReadFault.TheVariants.{Wrong};

use crate::fault::{Fault, ReadFault, What};

/// What is left of a file, and the place where it begins.
#[derive(Clone, Copy)]
pub struct Rest<'a> {
    /// The number of the file.
    pub file: u8,
    /// The place in the file of the first byte that is left, from 0.
    pub place: u64,
    /// What is left, up to the end of the file or of the part that is read.
    pub bytes: &'a [u8],
}

/// This is wrong with the field that stands first.
pub fn wrong(what: What, rest: Rest<'_>) -> ReadFault
    ensures { result ≡ Wrong (record { file = rest.entry.file; place = rest.entry.place; what = what }) }
{
    ReadFault::Wrong(Fault {
        file: rest.file,
        place: rest.place,
        what,
    })
}
