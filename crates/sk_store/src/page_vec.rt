//! Pages in a vector.

ghost use Rattle.std.specs.Prelude.{◌≡◌, ◌≤◌, ◌<◌, [], ◌∷◌, length, None, Some, true, IsTrue, IsFalse, IfOk, IfSome, IfNone, OnErr, IfErr};
ghost use Rattle.std.specs.Option.{is_some, option_copied};
ghost use Rattle.sk_store.specs.declared.pages.PageFault.TheVariants as fault;
ghost use Rattle.sk_store.specs.Cells.{Changes, cells_of};
ghost use Rattle.sk_store.specs.Calls.{IsShorter};

use crate::pages::{PageFault, Pages};
use crate::rooms::Rooms;
use sk_page::Page;
use std::alloc::Global;
use std::marker::Model;

/// Pages in memory, as many as the cells take. Contracts see the list of pages, each as its cells by slot.
#[derive(Drop)]
pub struct PageVec {
    pages: Vec<Page>,
    rooms: Rooms,
}

impl Model for PageVec {
    ghost use Rattle.std.specs.Prelude.{List, Option, ℕ};

    ghost Value = { List (List (Option (List ℕ))) };

    ghost view = { λ p. p.pages.items };
}

/// The cell on this page in this slot.
#[tactic(auto, using(crate::proofs::Changing::past_end, crate::proofs::Changing::at_page))]
fn cell_of<'a>(pages: &'a [Page], page: u32, slot: u16) -> Option<&'a [u8]>
    ensures { option_copied result ≡ cells_of pages.now page slot }
{
    if (page as usize) < pages.len() {
        pages[page as usize].cell(slot)
    } else {
        None
    }
}

/// Puts the cell into a slot of the page that is not in use, and answers the slot, if the page has room.
fn insert_in(pages: &mut Vec<Page>, page: usize, cell: &[u8]) -> Option<u16>
    requires there { page < length pages.old.items }
    requires small { length cell.now ≤ 4084 }
    ensures unused { IfSome result (λ slot. cells_of pages.old.items page slot ≡ None) }
    ensures some { IfSome result (λ slot. Changes pages.old.items pages.new.items page slot (Some cell.now)) }
    ensures none { IfNone result (pages.new.items ≡ pages.old.items) }
{
    match pages[page].insert(cell) {
        Ok(slot) => Some(slot),
        Err(_) => None,
    }
}

/// A page with this cell in its first slot.
#[tactic(auto, using(crate::proofs::Changing::first_of_new))]
fn page_with(cell: &[u8]) -> Page
    requires { length cell.now ≤ 4084 }
    ensures { result ≡ Some cell.now ∷ [] }
{
    let mut page = Page::new();
    match page.insert(cell) {
        Ok(_) => page,
        Err(_) => unreachable!(),
    }
}

/// Adds a page with this cell in its first slot, and answers the number of the page.
fn add_page(pages: &mut Vec<Page>, cell: &[u8]) -> Result<u32, PageFault>
    requires { length cell.now ≤ 4084 }
    ensures ok { IfOk result (λ page. (page ≡ length pages.old.items) × Changes pages.old.items pages.new.items page 0 (Some cell.now)) }
    ensures memory { IfErr result (λ e. e ≡ fault.NoMemory) }
    ensures err { OnErr result (pages.new.items ≡ pages.old.items) }
{
    let Ok(number) = u32::try_from(pages.len()) else {
        return Err(PageFault::NoMemory);
    };
    pages.push(page_with(cell))?;
    Ok(number)
}

/// Whether the slot of the page is in use.
fn is_used(pages: &[Page], page: u32, slot: u16) -> bool
    ensures { result ≡ is_some (cells_of pages.now page slot) }
{
    match cell_of(pages, page, slot) {
        None => false,
        Some(_) => true,
    }
}

/// Gives the cell the bytes, if the page has room for them.
fn replace_used(pages: &mut Vec<Page>, page: usize, slot: u16, cell: &[u8]) -> bool
    requires there { page < length pages.old.items }
    requires used { is_some (cells_of pages.old.items page slot) ≡ true }
    requires small { length cell.now ≤ 4084 }
    ensures done { IsTrue result → Changes pages.old.items pages.new.items page slot (Some cell.now) }
    ensures left { IsFalse result → pages.new.items ≡ pages.old.items }
    ensures shorter { IsFalse result → IsShorter (cells_of pages.old.items page slot) cell.now }
{
    match pages[page].replace(slot, cell) {
        Ok(()) => true,
        Err(_) => false,
    }
}

/// Gives the cell the bytes, if the slot is in use and the page has room for them.
fn replace_in(pages: &mut Vec<Page>, page: u32, slot: u16, cell: &[u8]) -> bool
    requires there { page < length pages.old.items }
    requires small { length cell.now ≤ 4084 }
    ensures done { IsTrue result → Changes pages.old.items pages.new.items page slot (Some cell.now) }
    ensures left { IsFalse result → pages.new.items ≡ pages.old.items }
    ensures shorter { IsFalse result → IsShorter (cells_of pages.old.items page slot) cell.now }
{
    if is_used(pages.as_slice(), page, slot) {
        replace_used(pages, page as usize, slot, cell)
    } else {
        false
    }
}

/// Takes the cell away.
fn remove_in(pages: &mut Vec<Page>, page: usize, slot: u16)
    requires { page < length pages.old.items }
    ensures { Changes pages.old.items pages.new.items page slot None }
{
    pages[page].remove(slot);
}

impl PageVec {
    /// No pages yet.
    pub fn new(alloc: Global) -> PageVec
        ensures { result ≡ [] }
    {
        PageVec {
            pages: Vec::new(alloc),
            rooms: Rooms::new(alloc),
        }
    }

    /// Notes how much room the page has now.
    fn note(&mut self, page: usize)
        ensures { self.new ≡ self.old }
    {
        if page < self.pages.len() {
            let room = self.pages[page].free();
            self.rooms.note(page, room);
        }
    }

    /// Puts the cell on this page, if it is there and has room.
    fn insert_at(&mut self, page: u32, cell: &[u8]) -> Option<u16>
        requires { length cell.now ≤ 4084 }
        ensures unused { IfSome result (λ slot. cells_of self.old page slot ≡ None) }
        ensures some { IfSome result (λ slot. Changes self.old self.new page slot (Some cell.now)) }
        ensures none { IfNone result (self.new ≡ self.old) }
    {
        let at = page as usize;
        if at >= self.pages.len() {
            return None;
        }
        let slot = insert_in(&mut self.pages, at, cell);
        self.note(at);
        slot
    }

    /// Puts the cell on a new page, and answers the number of the page.
    fn insert_new(&mut self, cell: &[u8]) -> Result<u32, PageFault>
        requires { length cell.now ≤ 4084 }
        ensures ok { IfOk result (λ page. (page ≡ length self.old) × Changes self.old self.new page 0 (Some cell.now)) }
        ensures memory { IfErr result (λ e. e ≡ fault.NoMemory) }
        ensures err { OnErr result (self.new ≡ self.old) }
    {
        let at = self.pages.len();
        self.rooms.grow(at)?;
        let page = add_page(&mut self.pages, cell)?;
        self.note(at);
        Ok(page)
    }
}

impl Pages for PageVec {
    ghost use Rattle.std.specs.Prelude.{true};
    ghost use Rattle.sk_store.specs.Cells.{HasCells};

    ghost told = { true };

    ghost faults = { λ _. 0 };

    ghost has = { HasCells };

    fn read(&mut self, page: u32, slot: u16, out: &mut Vec<u8>) -> Result<bool, PageFault> {
        match cell_of(self.pages.as_slice(), page, slot) {
            None => Ok(false),
            Some(bytes) => match out.extend_from_slice(bytes) {
                Ok(()) => Ok(true),
                Err(_) => Err(PageFault::NoMemory),
            },
        }
    }

    fn insert(&mut self, cell: &[u8]) -> Result<(u32, u16), PageFault> {
        if let Some(page) = self.rooms.find(cell.len() as u32 + 4) {
            if let Some(slot) = self.insert_at(page, cell) {
                return Ok((page, slot));
            }
        }
        let page = self.insert_new(cell)?;
        Ok((page, 0))
    }

    fn replace(&mut self, page: u32, slot: u16, cell: &[u8]) -> Result<bool, PageFault> {
        let at = page as usize;
        if at >= self.pages.len() {
            return Ok(false);
        }
        let done = replace_in(&mut self.pages, page, slot, cell);
        self.note(at);
        Ok(done)
    }

    fn remove(&mut self, page: u32, slot: u16) -> Result<(), PageFault> {
        let at = page as usize;
        if at < self.pages.len() {
            remove_in(&mut self.pages, at, slot);
            self.note(at);
        }
        Ok(())
    }
}
