//! How cells lie in memory.

ghost use Rattle.std.specs.Prelude.{◌≡◌, not, ◌+◌, ◌<◌, ◌≤◌, ◌^◌, ◌++◌, length, take, drop, get_or, None, Some, slice_range, sum_by};
ghost use Rattle.std.specs.List.{flat_map, position, position_or_len, count_by};
ghost use Rattle.std.specs.Option.{option_copied};
ghost use Rattle.sk_page.specs.Cells.{IsLaid, bytes_of, cell_at, cells, cost, first_free, is_empty, put_at, room_of, size_of};

use arrayvec::ArrayVec;

/// The bytes of a page behind its header.
pub const HEAP: usize = 4088;

/// A cell costs 4 bytes beside its own, so a page has at most so many.
pub const SLOTS: usize = HEAP / 4;

pub type Sizes = ArrayVec<Option<u16>, SLOTS>;

pub type Heap = ArrayVec<u8, HEAP>;

pub fn bytes_in<'a>(cell: Option<&'a [u8]>) -> &'a [u8]
    ensures { result.now ≡ bytes_of (option_copied cell.entry) }
{
    match cell {
        None => &[],
        Some(bytes) => bytes,
    }
}

pub fn size_in(cell: Option<&[u8]>) -> Option<u16>
    requires { length (bytes_of (option_copied cell)) < 2 ^ 16 }
    ensures { result ≡ size_of (option_copied cell.entry) }
{
    match cell {
        None => None,
        Some(bytes) => Some(bytes.len() as u16),
    }
}

pub fn room_in(size: Option<u16>) -> usize
    ensures { result ≡ room_of size }
{
    match size {
        None => 0,
        Some(n) => n as usize,
    }
}

pub fn size_at(sizes: &[Option<u16>], slot: usize) -> Option<u16>
    ensures { result ≡ get_or sizes.now slot None }
{
    if slot < sizes.len() {
        sizes[slot]
    } else {
        None
    }
}

/// Where the cell of the slot begins.
pub fn offset(sizes: &[Option<u16>], slot: usize) -> usize
    requires at { slot ≤ length sizes.now }
    requires small { sum_by room_of sizes.now ≤ 4088 }
    ensures { result ≡ sum_by room_of (take slot sizes.now) }
{
    let mut at = 0;
    for size in &sizes[..slot] {
        at += room_in(*size);
    }
    at
}

pub fn count(sizes: &[Option<u16>]) -> usize
    ensures { result ≡ count_by (λ s. not (is_empty s)) sizes.now }
{
    sizes.iter().filter(|s| s.is_some()).count()
}

fn empty_at(sizes: &[Option<u16>]) -> Option<usize>
    ensures { result ≡ position is_empty sizes.now }
{
    sizes.iter().position(|s| s.is_none())
}

#[tactic(auto, using(crate::proofs::Cut::position_some, crate::proofs::Cut::position_none))]
pub fn first_empty(sizes: &[Option<u16>]) -> usize
    ensures { result ≡ position_or_len is_empty sizes.now }
{
    match empty_at(sizes) {
        Some(at) => at,
        None => sizes.len(),
    }
}

fn extend(all: &mut Heap, more: &[u8])
    requires { length all.old.items + length more.now ≤ 4088 }
    ensures { all.new.items ≡ all.old.items ++ more.now }
{
    if all.try_extend_from_slice(more).is_err() {
        unreachable!();
    }
}

pub fn joined(a: &[u8], b: &[u8], c: &[u8]) -> Heap
    requires { length a.now + length b.now + length c.now ≤ 4088 }
    ensures { result.items ≡ (a.now ++ b.now) ++ c.now }
{
    let mut all = ArrayVec::new();
    extend(&mut all, a);
    extend(&mut all, b);
    extend(&mut all, c);
    all
}

#[tactic(auto, using(crate::proofs::Cut::refill_put, crate::proofs::Cut::push_is_put))]
pub fn set_size(sizes: &mut Sizes, slot: usize, size: Option<u16>)
    requires at { slot ≤ length sizes.old.items }
    requires few { slot < 1022 }
    ensures { sizes.new.items ≡ put_at sizes.old.items slot size }
{
    if slot < sizes.len() {
        sizes.as_mut_slice()[slot] = size;
    } else {
        sizes.push(size);
    }
}

fn front(heap: &[u8], at: usize) -> &[u8]
    requires { at ≤ length heap.now }
    ensures { result.now ≡ take at heap.now }
{
    &heap[..at]
}

fn part(heap: &[u8], at: usize, len: usize) -> &[u8]
    requires { at + len ≤ length heap.now }
    ensures { result.now ≡ take len (drop at heap.now) }
{
    heap.split_at(at).1.split_at(len).0
}

fn behind(heap: &[u8], at: usize, len: usize) -> &[u8]
    requires { at + len ≤ length heap.now }
    ensures { result.now ≡ drop (at + len) heap.now }
{
    heap.split_at(at + len).1
}

/// The cell of the slot.
pub fn cell_in<'a>(sizes: &[Option<u16>], heap: &'a [u8], slot: usize) -> Option<&'a [u8]>
    requires { IsLaid sizes.now heap.now }
    ensures { option_copied result ≡ cell_at (cells sizes.now heap.now) slot }
{
    match size_at(sizes, slot) {
        None => None,
        Some(size) => {
            let at = offset(sizes, slot);
            Some(part(heap, at, size as usize))
        }
    }
}

/// The bytes of the cells, with this one in the slot.
pub fn heap_with(sizes: &[Option<u16>], heap: &[u8], slot: usize, cell: Option<&[u8]>) -> Heap
    requires laid { IsLaid sizes.now heap.now }
    requires at { slot ≤ length sizes.now }
    requires room { sum_by cost (put_at (cells sizes.now heap.now) slot (option_copied cell)) ≤ 4088 }
    ensures { result.items ≡ flat_map bytes_of (put_at (cells sizes.now heap.now) slot (option_copied cell.entry)) }
{
    let at = offset(sizes, slot);
    let room = room_in(size_at(sizes, slot));
    joined(front(heap, at), bytes_in(cell), behind(heap, at, room))
}
