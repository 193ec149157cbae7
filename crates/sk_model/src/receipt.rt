//! Who waits until a commit is durable, what they are told, and why a flush is refused.

ghost use Rattle.std.specs.Prelude.{◌≡◌};
ghost use Rattle.sk_model.specs.declared.receipt.FlushFault.TheVariants.{NoMemory as FlushWantsMemory};

use crate::label::Label;
use crate::point::Point;
use sk_rows::{List, NoMemory};
use std::alloc::AllocError;

/// What a committed transaction waits for: in each engine that it opened, the greater of its snapshot and the number that it drew.
#[derive(Clone, Copy, Debug, PartialEq, Eq)]
pub struct Need {
    /// The transaction.
    pub label: Label,
    /// In the memory engine, if it opened that.
    pub mem: Option<u32>,
    /// In the storage engine, if it opened that.
    pub store: Option<u32>,
}

/// The transaction is durable: a stop at any later moment leaves a store that opens at this cut or a later one.
#[derive(Clone, Copy, Debug, PartialEq, Eq)]
pub struct Receipt {
    /// The transaction.
    pub label: Label,
    /// The cut of the flush that told it.
    pub cut: Point,
}

/// Receipts in the order in which their needs were queued.
pub type ReceiptList = List<Receipt>;

/// Why a flush was refused.
#[derive(Clone, Copy, Debug, PartialEq, Eq)]
pub enum FlushFault {
    /// The device failed. The logs take no further flush; they have to be opened again.
    Device,
    /// A log would have this length in bytes, which is too long. Nothing was changed.
    LogFull { length: u64 },
    /// Memory was wanted and refused. Nothing was changed.
    NoMemory,
}

impl From<AllocError> for FlushFault {
    ghost from_gives = { λ _ fault. fault ≡ FlushWantsMemory };

    fn from(_: AllocError) -> FlushFault {
        FlushFault::NoMemory
    }
}

impl From<NoMemory> for FlushFault {
    ghost from_gives = { λ _ fault. fault ≡ FlushWantsMemory };

    fn from(_: NoMemory) -> FlushFault {
        FlushFault::NoMemory
    }
}
