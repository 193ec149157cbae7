//! A `Vec` that contracts see as the list of its items.

ghost use Rattle.std.specs.Prelude.{◌≡◌, ◌↔◌, ◌<◌, [], ◌∷◌, ◌++◌, length, slice_get, IsTrue, OnOk, OnErr, IfErr, IfOk, OnSome};
ghost use Rattle.std.specs.Option.{option_copied};

use crate::copies::Copies;
use crate::memory::NoMemory;
use std::alloc::{AllocFailed, Global};
use std::marker::Model;

/// A list that contracts see as the list of its items.
#[derive(Debug, Drop)]
pub struct List<T> {
    items: Vec<T>,
}

impl<T> Model for List<T> {
    ghost use Rattle.std.specs.Prelude.{List as ItemList};
    ghost use Rattle.std.specs.Coded.{coded_list};

    ghost Value = { ItemList T };

    ghost coded = { coded_list T.code };

    ghost view = { λ it. it.items.items };
}

impl<T> List<T> {
    /// The list of no items.
    pub fn new(alloc: Global) -> List<T>
        ensures { result ≡ [] }
    {
        List {
            items: Vec::new(alloc),
        }
    }

    /// The list of a vector's items.
    pub fn from_vec(items: Vec<T>) -> List<T>
        ensures { result ≡ items.items }
    {
        List { items }
    }

    /// The items as a vector.
    pub fn into_vec(self) -> Vec<T>
        ensures { result.items ≡ self }
    {
        let List { items } = self;
        items
    }

    /// The items as a slice.
    pub fn as_slice(&self) -> &[T]
        ensures { result.now ≡ self.now }
    {
        self.items.as_slice()
    }

    /// How many items there are.
    pub fn len(&self) -> usize
        ensures { result ≡ length self.now }
    {
        self.items.len()
    }

    /// Whether there is no item.
    pub fn is_empty(&self) -> bool
        ensures { IsTrue result ↔ (self.now ≡ []) }
    {
        self.items.is_empty()
    }

    /// The item at this place, counted from 0, if there is one.
    pub fn get(&self, at: usize) -> Option<&T>
        ensures value { option_copied result ≡ slice_get self.now at }
        ensures within { OnSome result (at < length self.now) }
    {
        self.items.get(at)
    }

    /// Puts the item behind the others. A refusal hands it back and changes nothing.
    pub fn push(&mut self, item: T) -> Result<(), AllocFailed<T>>
        ensures ok { OnOk result (self.new ≡ self.old ++ item ∷ []) }
        ensures err { OnErr result (self.new ≡ self.old) }
        ensures item { IfErr result (λ e. e.value ≡ item) }
    {
        self.items.push(item)
    }

    /// Gives back the room that no item takes, as far as there is memory to move to less.
    pub fn shrink_to_fit(&mut self)
        ensures { self.new ≡ self.old }
    {
        self.items.shrink_to_fit();
    }
}

impl<T: Drop> List<T> {
    /// The list of one item, which takes room for one.
    pub fn of_one(alloc: Global, item: T) -> Result<List<T>, NoMemory>
        ensures { IfOk result (λ list. list ≡ item ∷ []) }
    {
        let mut items = Vec::with_capacity(alloc, 1)?;
        items.push(item)?;
        Ok(List { items })
    }
}

impl<T: Copies> Copies for List<T> {
    fn copy(&self, alloc: Global) -> Result<List<T>, NoMemory> {
        let all = self.items.as_slice();
        let mut items = Vec::with_capacity(alloc, all.len())?;
        for item in all {
            items.push(item.copy(alloc)?)?;
        }
        Ok(List { items })
    }
}
