//! Sets of far ends of links, by the numbers of incidents: whether two are linked takes a look-up or two.

ghost use Rattle.std.specs.Prelude.{◌≡◌, ◌<◌, ◌≤◌, ◌+◌, ◌&&◌, ◌==◌, ℕ, true, false, if◌then◌else◌, nat_eq, OnOk};
ghost use Rattle.std.specs.List.{list_any};
ghost use Rattle.indexmap.specs.IndexSet.{spare};
ghost use Rattle.desk_index.specs.Places.{has_list};
ghost use Rattle.desk_incidents.specs.EndSets.{has_end, has_either, room_of};

use indexmap::{IndexMap, IndexSet};
use std::alloc::{AllocError, Global};

/// Sets of far ends, by the numbers of incidents. They hash as the index of places does: the desk gives the numbers.
pub(crate) struct EndSets {
    pub sets: IndexMap<u64, IndexSet<u64>>,
    pub alloc: Global,
}

// Written out, so that callers need not prove each part's drop.
impl Drop for EndSets {
    fn drop(self) {
        let EndSets { sets: _, alloc: _ } = self;
    }
}

/// Takes the memory for one more end.
fn grow_set(ends: &mut IndexSet<u64>) -> Result<(), AllocError>
    ensures ends { ends.new.keys ≡ ends.old.keys }
    ensures grown { OnOk result (0 < spare ends.new) }
{
    ends.reserve(1)
}

/// Puts an end into a set, which has room for it.
pub(crate) fn put_end(ends: &mut IndexSet<u64>, end: u64)
    requires { 0 < spare ends.old }
    ensures ends { (m : ℕ) → list_any (nat_eq m) ends.new.keys
        ≡ (if end == m then true else list_any (nat_eq m) ends.old.keys) }
    ensures room { spare ends.old ≤ spare ends.new + 1 }
{
    let put = ends.insert(end);
    put.unwrap();
}

/// Takes an end out of a set. It takes constant time.
fn take_end(ends: &mut IndexSet<u64>, end: u64)
    ensures { (m : ℕ) → list_any (nat_eq m) ends.new.keys
        ≡ (if end == m then false else list_any (nat_eq m) ends.old.keys) }
{
    ends.swap_remove(&end);
}

impl EndSets {
    /// No sets. It takes no memory.
    pub(crate) fn new(alloc: Global) -> EndSets
        ensures { (n m : ℕ) → has_end n m result.sets.entries ≡ false }
    {
        EndSets {
            sets: IndexMap::new(alloc),
            alloc,
        }
    }

    /// Whether the set of a number has an end.
    fn has(&self, number: u64, end: u64) -> bool
        ensures { result ≡ has_end number end self.now.sets.entries }
    {
        match self.sets.get(&number) {
            None => false,
            Some(ends) => ends.contains(&end),
        }
    }

    /// Whether the set of one of two numbers has the other.
    pub(crate) fn has_either(&self, one: u64, other: u64) -> bool
        ensures { result ≡ has_either one other self.now.sets.entries }
    {
        self.has(one, other) || self.has(other, one)
    }

    /// Gives a number a set, where it has none. All sets keep their ends, whatever the result.
    pub(crate) fn open(&mut self, number: u64) -> Result<(), AllocError>
        ensures ends { (n m : ℕ) → has_end n m self.new.sets.entries ≡ has_end n m self.old.sets.entries }
        ensures preserved { (n : ℕ) → has_list n self.old.sets.entries ≡ true →
            has_list n self.new.sets.entries ≡ true }
        ensures there { OnOk result (has_list number self.new.sets.entries ≡ true) }
    {
        match self.sets.get_index_of(&number) {
            Some(_) => Ok(()),
            None => {
                self.sets.insert(number, IndexSet::new(self.alloc))?;
                Ok(())
            }
        }
    }

    /// Takes the memory for one more end of a number that has a set. All sets keep their ends, whatever the result.
    pub(crate) fn grow(&mut self, number: u64) -> Result<(), AllocError>
        requires { has_list number self.old.sets.entries ≡ true }
        ensures ends { (n m : ℕ) → has_end n m self.new.sets.entries ≡ has_end n m self.old.sets.entries }
        ensures preserved { (n : ℕ) → has_list n self.new.sets.entries ≡ has_list n self.old.sets.entries }
        ensures grown { OnOk result (0 < room_of number self.new.sets.entries) }
    {
        match self.sets.get_index_of(&number) {
            Some(index) => grow_set(&mut self.sets[index]),
            None => Ok(()),
        }
    }

    /// Puts an end into the set of a number, which has room for it.
    pub(crate) fn note(&mut self, number: u64, end: u64)
        requires { 0 < room_of number self.old.sets.entries }
        ensures ends { (n m : ℕ) → has_end n m self.new.sets.entries
            ≡ (if (number == n) && (end == m) then true else has_end n m self.old.sets.entries) }
        ensures preserved { (n : ℕ) → has_list n self.new.sets.entries ≡ has_list n self.old.sets.entries }
    {
        if let Some(index) = self.sets.get_index_of(&number) {
            put_end(&mut self.sets[index], end);
        }
    }

    /// Takes an end out of the set of a number.
    pub(crate) fn forget(&mut self, number: u64, end: u64)
        ensures ends { (n m : ℕ) → has_end n m self.new.sets.entries
            ≡ (if (number == n) && (end == m) then false else has_end n m self.old.sets.entries) }
        ensures preserved { (n : ℕ) → has_list n self.new.sets.entries ≡ has_list n self.old.sets.entries }
    {
        if let Some(index) = self.sets.get_index_of(&number) {
            take_end(&mut self.sets[index], end);
        }
    }

    /// Gives a number that has a set another one. It takes no memory.
    pub(crate) fn put(&mut self, number: u64, ends: IndexSet<u64>)
        requires { has_list number self.old.sets.entries ≡ true }
        ensures ends { (n m : ℕ) → has_end n m self.new.sets.entries
            ≡ (if number == n then list_any (nat_eq m) ends.keys else has_end n m self.old.sets.entries) }
        ensures preserved { (n : ℕ) → has_list n self.new.sets.entries ≡ has_list n self.old.sets.entries }
    {
        if let Some(index) = self.sets.get_index_of(&number) {
            self.sets[index] = ends;
        }
    }

    /// Takes all ends out of the set of a number, and gives their memory back.
    pub(crate) fn empty(&mut self, number: u64)
        ensures ends { (n m : ℕ) → has_end n m self.new.sets.entries
            ≡ (if number == n then false else has_end n m self.old.sets.entries) }
        ensures preserved { (n : ℕ) → has_list n self.new.sets.entries ≡ has_list n self.old.sets.entries }
    {
        if let Some(index) = self.sets.get_index_of(&number) {
            self.sets[index] = IndexSet::new(self.alloc);
        }
    }
}
