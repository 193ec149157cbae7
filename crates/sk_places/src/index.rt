//! The list of commits, made ready to find places in it.

ghost use Rattle.std.specs.Prelude.{◌≡◌, ◌≤◌, ◌++◌, List, length, map, IfOk, OnOk};
ghost use Rattle.std.specs.List.Sorted.{IsNonDecreasingBy};
ghost use Rattle.sk_model.specs.declared.commit.Commit.{Commit};
ghost use Rattle.sk_model.specs.Places.{place};
ghost use Rattle.sk_model.specs.Records.{InTurn};

use crate::marks::{Mark, last_end, marks_of};
use sk_model::{Commit, EngineName, PlaceList, Record};
use sk_rows::NoMemory;
use std::alloc::Global;

/// The commits of each engine by their numbers, of one list of commits.
#[derive(Drop)]
pub struct PlaceIndex {
    mem: Vec<Mark>,
    store: Vec<Mark>,
    ghost mem_rises: { IsNonDecreasingBy (λ mark. mark.n) mem.items },
    ghost store_rises: { IsNonDecreasingBy (λ mark. mark.n) store.items },
}

impl PlaceIndex {
    ghost use Rattle.sk_places.specs.Index.{IsIndexOf};

    /// The index of this list, in which the numbers of each engine rise.
    pub fn new(alloc: Global, order: &[Commit]) -> Result<PlaceIndex, NoMemory>
        requires few { length order.now ≤ 4294967295 }
        requires by_mem { InTurn (λ c. c.mem) order.now }
        requires by_store { InTurn (λ c. c.store) order.now }
        ensures { IfOk result (λ x. IsIndexOf order.now x) }
    {
        Ok(PlaceIndex {
            mem: marks_of(alloc, EngineName::Mem, order)?,
            store: marks_of(alloc, EngineName::Store, order)?,
        })
    }

    /// The length of the shortest prefix of its list that holds each memory commit up to `mem` and each storage commit up to `store`, each where it is given.
    pub fn of(&self, mem: Option<u32>, store: Option<u32>) -> u32
        ensures { (order : List Commit) → IsIndexOf order self.now → result ≡ place order mem store }
    {
        let in_mem = last_end(&self.mem, mem);
        let in_store = last_end(&self.store, store);
        in_mem.max(in_store)
    }

    /// Puts the place of each of these records behind the places. Where memory is refused, only the first of them are there.
    pub fn add(&self, records: &[Record], places: &mut PlaceList) -> Result<(), NoMemory>
        ensures { OnOk result ((order : List Commit) → IsIndexOf order self.now → places.new ≡ places.old ++ map (λ r. place order r.mem r.store) records.now) }
    {
        for kept in records {
            places.push(self.of(kept.mem, kept.store))?;
        }
        Ok(())
    }
}
