//! Why bytes could not be read.

ghost use Rattle.std.specs.Prelude.{◌≡◌};
ghost use Rattle.sk_codec.specs.declared.fault.CodecFault.TheVariants.{NoMemory as CodecWantsMemory};
ghost use Rattle.sk_codec.specs.declared.fault.ReadFault.TheVariants.{NoMemory as ReadWantsMemory};

use std::alloc::{AllocError, AllocFailed};

/// What is wrong with a stored field.
#[derive(Clone, Copy, Debug, PartialEq, Eq)]
pub enum What {
    /// A format that is not known.
    Format,
    /// The bytes end early, or some are left over.
    Length,
    /// A byte that must be one of few is none of them.
    Tag,
    /// A number, a text or a row is out of its range.
    Range,
    /// What must rise does not.
    Order,
    /// The other half of a commit of both engines is missing or differs.
    Half,
}

/// The first field that is wrong, by its file and the place of its first byte.
#[derive(Clone, Copy, Debug, PartialEq, Eq)]
pub struct Fault {
    /// The number of the file.
    pub file: u8,
    /// The place of the field's first byte in it, from 0.
    pub place: u64,
    /// What is wrong there.
    pub what: What,
}

/// Why a reader gave nothing.
#[derive(Clone, Copy, Debug, PartialEq, Eq)]
pub enum ReadFault {
    /// A field is wrong.
    Wrong(Fault),
    /// Memory was wanted and refused.
    NoMemory,
}

/// Why bytes are no row or no record: the first fault from left to right. A place counts bytes from 0 and is that of the field's first byte; a text is one field with its length.
#[derive(Clone, Copy, Debug, PartialEq, Eq)]
pub enum CodecFault {
    /// A field passes the end.
    Short { place: u64 },
    /// A byte that must be one of few is none of them.
    Tag { place: u64 },
    /// A number, a text or the row is out of its range.
    Range { place: u64 },
    /// This byte is left over.
    Extra { place: u64 },
    /// Memory was wanted and refused.
    NoMemory,
}

impl From<AllocError> for ReadFault {
    ghost from_gives = { λ _ e. e ≡ ReadWantsMemory };

    fn from(_e: AllocError) -> ReadFault {
        ReadFault::NoMemory
    }
}

impl<T: Drop> From<AllocFailed<T>> for ReadFault {
    ghost from_gives = { λ _ e. e ≡ ReadWantsMemory };

    fn from(_e: AllocFailed<T>) -> ReadFault {
        ReadFault::NoMemory
    }
}

impl From<sk_rows::NoMemory> for ReadFault {
    ghost from_gives = { λ _ e. e ≡ ReadWantsMemory };

    fn from(_e: sk_rows::NoMemory) -> ReadFault {
        ReadFault::NoMemory
    }
}

impl From<sk_rows::NoMemory> for CodecFault {
    ghost from_gives = { λ _ e. e ≡ CodecWantsMemory };

    fn from(_e: sk_rows::NoMemory) -> CodecFault {
        CodecFault::NoMemory
    }
}
