//! The pages behind the rows, as the engine reaches them.

ghost use Rattle.std.specs.Prelude.{◌≤◌, ℕ, Bool, IfErr, length};
ghost use Rattle.sk_store.specs.Cells.{Cells};
ghost use Rattle.sk_store.specs.Calls.{HasFault, InsertsCell, KeepsCells, ReadsCell, RemovesCell, ReplacesCell};

use sk_rows::NoMemory;
use std::alloc::AllocFailed;

/// Why pages refuse a call.
#[derive(Clone, Copy, Debug, PartialEq, Eq)]
pub enum PageFault {
    /// The device behind them failed.
    Device,
    /// Memory was wanted and refused.
    NoMemory,
}

impl From<NoMemory> for PageFault {
    ghost use Rattle.std.specs.Prelude.{◌≡◌};
    ghost use Rattle.sk_store.specs.declared.pages.PageFault.TheVariants as fault;

    ghost from_gives = { λ _ e. e ≡ fault.NoMemory };

    fn from(_e: NoMemory) -> PageFault {
        PageFault::NoMemory
    }
}

impl<T: Drop> From<AllocFailed<T>> for PageFault {
    ghost use Rattle.std.specs.Prelude.{◌≡◌};
    ghost use Rattle.sk_store.specs.declared.pages.PageFault.TheVariants as fault;

    ghost from_gives = { λ _ e. e ≡ fault.NoMemory };

    fn from(_e: AllocFailed<T>) -> PageFault {
        PageFault::NoMemory
    }
}

/// Cells of at most 4,084 bytes, by page and slot. Each call works on one page; a call that is refused leaves all cells.
pub trait Pages {
    /// Whether they are told what the device behind them reads.
    ghost told: { Bool };

    /// How often a device failed them.
    ghost faults: { Self → ℕ };

    /// They have these cells. Where they are not told what is read, they may have several.
    ghost has: { Self → Cells → Type 0 };

    /// Puts the bytes of a cell behind those of `out`, and answers whether the slot is in use.
    fn read(&mut self, page: u32, slot: u16, out: &mut Vec<u8>) -> Result<bool, PageFault>
        ensures later { faults self.old ≤ faults self.new }
        ensures caused { IfErr result (λ e. HasFault (faults self.old) (faults self.new) e) }
        ensures keeps { KeepsCells has self.old self.new }
        ensures reads { ReadsCell has told self.old page slot out.old.items out.new.items result };

    /// Puts a cell into a slot that is not in use, on a page with room for it, and answers its page and slot.
    fn insert(&mut self, cell: &[u8]) -> Result<(u32, u16), PageFault>
        requires { length cell.now ≤ 4084 }
        ensures later { faults self.old ≤ faults self.new }
        ensures caused { IfErr result (λ e. HasFault (faults self.old) (faults self.new) e) }
        ensures inserts { InsertsCell has told self.old self.new cell.now result };

    /// Gives the cell in this slot these bytes, and answers whether it did. It does where the slot is in use and the new bytes are
    /// no more than the old ones; where they are more it does if the page has room.
    fn replace(&mut self, page: u32, slot: u16, cell: &[u8]) -> Result<bool, PageFault>
        requires { length cell.now ≤ 4084 }
        ensures later { faults self.old ≤ faults self.new }
        ensures caused { IfErr result (λ e. HasFault (faults self.old) (faults self.new) e) }
        ensures replaces { ReplacesCell has told self.old self.new page slot cell.now result };

    /// Takes the cell away. A slot that is not in use stays as it is.
    fn remove(&mut self, page: u32, slot: u16) -> Result<(), PageFault>
        ensures later { faults self.old ≤ faults self.new }
        ensures caused { IfErr result (λ e. HasFault (faults self.old) (faults self.new) e) }
        ensures removes { RemovesCell has self.old self.new page slot result };
}
