//! How much room pages have, to find one with enough of it.
//!
//! A tree over the pages: the first level has the free bytes of each page, and each later level the most of two neighbours of the
//! level below, up to one of at most two. A page with enough room is found from the top down, in as many steps as there are levels.
//! Nothing is proved of it: it is advice, and the page itself decides whether a cell fits.

use sk_rows::NoMemory;
use std::alloc::Global;

#[derive(Debug, Drop)]
pub struct Rooms {
    alloc: Global,
    levels: Vec<Vec<u32>>,
}

fn room_at(level: &[u32], at: usize) -> u32 {
    if at < level.len() { level[at] } else { 0 }
}

fn set_room(level: &mut Vec<u32>, at: usize, room: u32) {
    if at < level.len() {
        level[at] = room;
    }
}

/// The most of two neighbours.
fn most_of(level: &[u32], at: usize) -> u32 {
    let left = at / 2 * 2;
    room_at(level, left).max(room_at(level, left.saturating_add(1)))
}

/// Which of the two below has enough room.
fn below(level: &[u32], at: usize, need: u32) -> Option<usize> {
    let left = at.checked_mul(2)?;
    let right = left.checked_add(1)?;
    if room_at(level, left) >= need {
        Some(left)
    } else if room_at(level, right) >= need {
        Some(right)
    } else {
        None
    }
}

impl Rooms {
    pub fn new(alloc: Global) -> Rooms {
        Rooms {
            alloc,
            levels: Vec::new(alloc),
        }
    }

    /// A page that was noted with so many free bytes.
    pub fn find(&self, need: u32) -> Option<u32> {
        if self.levels.is_empty() {
            return None;
        }
        let mut at = 0;
        for level in self.levels.iter().rev() {
            at = below(level.as_slice(), at, need)?;
        }
        u32::try_from(at).ok()
    }

    /// Notes how many bytes of a page are free.
    pub fn note(&mut self, page: usize, room: u32) {
        let mut at = page;
        let mut most = room;
        for level in self.levels.iter_mut() {
            set_room(level, at, most);
            most = most_of(level.as_slice(), at);
            at /= 2;
        }
    }

    /// Takes room for one more page.
    pub fn grow(&mut self, page: usize) -> Result<(), NoMemory> {
        let mut at = page;
        for level in self.levels.iter_mut() {
            if level.len() <= at {
                level.push(0)?;
            }
            at /= 2;
        }
        match self.levels.last() {
            None => self.add_level(),
            Some(top) if top.len() > 2 => self.add_level(),
            Some(_) => Ok(()),
        }
    }

    /// Adds a level over the top.
    fn add_level(&mut self) -> Result<(), NoMemory> {
        let mut level = Vec::with_capacity(self.alloc, 2)?;
        match self.levels.last() {
            None => level.push(0)?,
            Some(top) => {
                level.push(most_of(top.as_slice(), 0))?;
                level.push(most_of(top.as_slice(), 2))?;
            }
        }
        self.levels.push(level)?;
        Ok(())
    }
}
