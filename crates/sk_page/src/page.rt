//! A page of cells.
//!
//! A page has 4,096 bytes. As they stand in a file, numbers of two bytes, the greater byte first:
//!
//! | Bytes | Field |
//! |---|---|
//! | 2 | how many slots there are, up to the last that was in use |
//! | 2 | how many cells there are |
//! | 4 | 0 |
//! | for each cell, in the order of the slots: 2 | how many slots that are not in use stand before it |
//! | 2 | its length |
//! | its length | its bytes |
//! | to the end | 0 |
//!
//! `page_bytes` of `specs/Bytes.antt` is this table. In memory the lengths by slot and the bytes of the cells, one behind the
//! other, stand in arrays.

ghost use Rattle.std.specs.Prelude.{◌≡◌, ◌+◌, ◌-◌, ◌*◌, ◌<◌, ◌≤◌, [], length, get_or, None, Some, IfOk, IfErr, OnOk, OnErr, IsSome, sum_by, slice_set};
ghost use Rattle.std.specs.Option.{option_copied};
ghost use Rattle.sk_page.specs.Cells.{bytes_of, cell_at, cost, first_free, free, put_at};

use crate::laid::{
    Heap, Sizes, bytes_in, cell_in, count, first_empty, heap_with, set_size, size_in,
};
use arrayvec::ArrayVec;
use std::marker::Model;

/// Why a cell did not fit. Both are counts of bytes, and `need` is greater than `free`.
#[derive(Clone, Copy, Debug, PartialEq, Eq)]
pub struct Full {
    /// What the page has left.
    pub free: u32,
    /// What the cell takes: its bytes and 4 where it is new, what it grows by where it replaces one.
    pub need: u32,
}

/// A page of 4,096 bytes: a header of 8 and, for each cell, its bytes and 4. Contracts see it as its cells by slot, with none in
/// a slot that is not in use.
#[derive(Drop)]
pub struct Page {
    sizes: Sizes,
    heap: Heap,
}

impl Model for Page {
    ghost use Rattle.std.specs.Prelude.{List, Option, ℕ};
    ghost use Rattle.sk_page.specs.Cells.{cells, IsLaid};

    ghost Value = { List (Option (List ℕ)) };

    ghost view = { λ p. cells p.sizes.items p.heap.items };

    ghost invariant = { λ p. IsLaid p.sizes.items p.heap.items };
}

impl Page {
    /// A page without cells.
    pub fn new() -> Page
        ensures { result ≡ [] }
    {
        Page {
            sizes: ArrayVec::new(),
            heap: ArrayVec::new(),
        }
    }

    fn slots(&self) -> usize
        ensures value { result ≡ length self.now }
        ensures few { result ≤ 1022 }
        ensures within { sum_by cost self.now ≤ 4088 }
    {
        self.sizes.len()
    }

    /// How many bytes are free: what the cells leave of the 4,088 behind the header.
    pub fn free(&self) -> u32
        ensures value { result ≡ free self.now }
        ensures within { sum_by cost self.now ≤ 4088 }
    {
        let heap = self.heap.len();
        let cells = count(self.sizes.as_slice());
        (4088 - (heap + 4 * cells)) as u32
    }

    fn first_free(&self) -> usize
        ensures value { result ≡ first_free self.now }
        ensures within { result ≤ length self.now }
        ensures few { 4 * result ≤ sum_by cost self.now }
        ensures empty { cell_at self.now result ≡ None }
    {
        first_empty(self.sizes.as_slice())
    }

    fn put(&mut self, slot: usize, cell: Option<&[u8]>)
        requires at { slot ≤ length self.old }
        requires few { slot < 1022 }
        requires room { sum_by cost (put_at self.old slot (option_copied cell)) ≤ 4088 }
        ensures { self.new ≡ put_at self.old slot (option_copied cell.entry) }
    {
        let heap = heap_with(self.sizes.as_slice(), self.heap.as_slice(), slot, cell);
        set_size(&mut self.sizes, slot, size_in(cell));
        self.heap = heap;
    }

    /// The bytes of the cell in the slot, and none exactly where the slot is not in use.
    pub fn cell(&self, slot: u16) -> Option<&[u8]>
        ensures { option_copied result ≡ cell_at self.now slot }
    {
        cell_in(self.sizes.as_slice(), self.heap.as_slice(), slot as usize)
    }

    /// Puts the cell into the lowest slot that is not in use, and answers that slot. All other cells stay as they are.
    #[tactic(auto, using(crate::proofs::Cut::adds_fit), unfolding(crate::specs::Cells::free))]
    pub fn insert(&mut self, cell: &[u8]) -> Result<u16, Full>
        requires { length cell.now < 4294967292 }
        ensures ok { IfOk result (λ slot. (slot ≡ first_free self.old) × (self.new ≡ put_at self.old slot (Some cell.now)) × (length cell.now + 4 ≤ free self.old)) }
        ensures unused { IfOk result (λ slot. (slot ≤ length self.old) × (cell_at self.old slot ≡ None)) }
        ensures full { IfErr result (λ e. (e.free ≡ free self.old) × (e.need ≡ length cell.now + 4) × (e.free < e.need)) }
        ensures unchanged { OnErr result (self.new ≡ self.old) }
    {
        let need = cell.len() as u32 + 4;
        let free = self.free();
        if free < need {
            return Err(Full { free, need });
        }
        let slot = self.first_free();
        self.put(slot, Some(cell));
        Ok(slot as u16)
    }

    /// Puts the cell in the place of the one in the slot, which is in use. All other cells stay as they are.
    #[tactic(auto, using(crate::proofs::Cut::grows_fit, crate::proofs::Cut::used_within), unfolding(crate::specs::Cells::free))]
    pub fn replace(&mut self, slot: u16, cell: &[u8]) -> Result<(), Full>
        requires small { length cell.now < 4294967292 }
        requires used { IsSome (cell_at self.old slot) }
        ensures ok { OnOk result ((self.new ≡ put_at self.old slot (Some cell.now)) × (length cell.now - length (bytes_of (cell_at self.old slot)) ≤ free self.old)) }
        ensures full { IfErr result (λ e. (e.free ≡ free self.old) × (e.need ≡ length cell.now - length (bytes_of (cell_at self.old slot))) × (e.free < e.need)) }
        ensures unchanged { OnErr result (self.new ≡ self.old) }
    {
        let old = bytes_in(self.cell(slot)).len();
        let need = if old < cell.len() {
            (cell.len() - old) as u32
        } else {
            0
        };
        let free = self.free();
        if free < need {
            return Err(Full { free, need });
        }
        let slot = slot as usize;
        prove!(slot < self.slots());
        self.put(slot, Some(cell));
        Ok(())
    }

    /// Empties the slot. One that is not in use stays as it is.
    #[tactic(auto, using(crate::proofs::Cut::removes_fit, crate::proofs::Cut::set_past, crate::proofs::Cut::set_is_put))]
    pub fn remove(&mut self, slot: u16)
        ensures { self.new ≡ slice_set self.old slot None }
    {
        if (slot as usize) < self.slots() {
            self.put(slot as usize, None);
        }
    }
}
