//! An index from numbers to places in a list.

ghost use Rattle.std.specs.Prelude.{◌≡◌, ◌<◌, ◌≤◌, ◌+◌, ◌-◌, ℕ, [], ◌++◌, ◌∷◌, ◌==◌, if◌then◌else◌, nat_eq, nat_lt};
ghost use Rattle.std.specs.Prelude.{position, length, take, insert, vec_capacity, true, IfOk, OnOk};
ghost use Rattle.std.specs.List.{position_or_len};
ghost use Rattle.std.specs.Set.{remove_key};
ghost use Rattle.desk_index.specs.Places.{at_in, room_in, has_list};
ghost use Rattle.desk_index.specs.Slots.{insert_place};

use indexmap::IndexMap;
use std::alloc::{AllocError, Global};

/// An index from numbers to rising places.
pub struct Places {
    pub lists: IndexMap<u64, Vec<usize>>,
    pub alloc: Global,
}

// Written out, so that callers need not prove each part's drop.
impl Drop for Places {
    fn drop(self) {
        let Places { lists: _, alloc: _ } = self;
    }
}

/// Takes the memory for one more place.
fn grow(list: &mut Vec<usize>) -> Result<(), AllocError>
    ensures items { list.new.items ≡ list.old.items }
    ensures room { vec_capacity list.old ≤ vec_capacity list.new }
    ensures grown { OnOk result (length list.new.items < vec_capacity list.new) }
{
    list.reserve(1)
}

/// A list without places, which has room for as many.
pub fn with_room(alloc: Global, count: usize) -> Result<Vec<usize>, AllocError>
    ensures items { IfOk result (λ list. list.items ≡ []) }
    ensures room { IfOk result (λ list. count ≤ vec_capacity list) }
{
    Vec::with_capacity(alloc, count)
}

/// Puts a place last, for which there is room.
pub fn push_place(list: &mut Vec<usize>, place: usize)
    requires { length list.old.items < vec_capacity list.old }
    ensures items { list.new.items ≡ list.old.items ++ place ∷ [] }
    ensures room { vec_capacity list.old ≤ vec_capacity list.new }
{
    let put = list.push(place);
    put.unwrap();
}

/// Takes the last place out.
fn pop_place(list: &mut Vec<usize>)
    ensures items { list.new.items ≡ take (length list.old.items - 1) list.old.items }
    ensures room { vec_capacity list.old ≤ vec_capacity list.new }
{
    list.pop();
}

/// Where a place stands.
fn index_of(list: &[usize], place: usize) -> Option<usize>
    ensures { result ≡ position (nat_eq place) list.now }
{
    list.iter().position(|other| place == *other)
}

/// Takes a place out.
fn remove_place(list: &mut Vec<usize>, place: usize)
    ensures items { list.new.items ≡ remove_key (nat_eq place) list.old.items }
    ensures room { vec_capacity list.old ≤ vec_capacity list.new }
{
    let index = index_of(list, place);
    if let Some(index) = index {
        list.remove(index);
    }
}

/// Where the first greater place stands.
fn index_above(list: &[usize], place: usize) -> Option<usize>
    ensures { result ≡ position (nat_lt place) list.now }
{
    list.iter().position(|other| place < *other)
}

/// Where a place goes among rising ones.
fn index_for(list: &[usize], place: usize) -> usize
    ensures place { result ≡ position_or_len (nat_lt place) list.now }
    ensures within { result ≤ length list.now }
{
    match index_above(list, place) {
        Some(index) => index,
        None => list.len(),
    }
}

/// Inserts a place, for which there is room.
fn insert_within(list: &mut Vec<usize>, index: usize, place: usize)
    requires within { index ≤ length list.old.items }
    requires room { length list.old.items < vec_capacity list.old }
    ensures items { list.new.items ≡ insert list.old.items index place }
    ensures room { vec_capacity list.old ≤ vec_capacity list.new }
{
    let put = list.insert(index, place);
    put.unwrap();
}

/// Puts a place among rising ones, for which there is room.
fn put_place(list: &mut Vec<usize>, place: usize)
    requires { length list.old.items < vec_capacity list.old }
    ensures items { list.new.items ≡ insert_place place list.old.items }
    ensures room { vec_capacity list.old ≤ vec_capacity list.new }
{
    let index = index_for(list, place);
    insert_within(list, index, place);
}

/// Puts the places of a list into other memory, which has room for them.
fn install_list(list: &mut Vec<usize>, mut room: Vec<usize>)
    requires { length list.old.items ≤ vec_capacity room }
    ensures items { list.new.items ≡ list.old.items }
    ensures room { vec_capacity room ≤ vec_capacity list.new }
{
    room.clear();
    let copied = room.extend_from_slice(list.as_slice());
    copied.unwrap();
    *list = room;
}

impl Places {
    /// An empty index. It takes no memory.
    pub fn new(alloc: Global) -> Places
        ensures { (n : ℕ) → at_in n result.lists.entries ≡ [] }
    {
        Places {
            lists: IndexMap::new(alloc),
            alloc,
        }
    }

    /// The places of a number, in their order.
    pub fn at(&self, number: u64) -> &[usize]
        ensures { result.now ≡ at_in number self.now.lists.entries }
    {
        match self.lists.get(&number) {
            None => &[],
            Some(list) => list.as_slice(),
        }
    }

    /// Room for the places of two numbers in one list.
    pub fn room_for(&self, one: u64, other: u64) -> Result<Vec<usize>, AllocError>
        ensures { IfOk result (λ list.
            length (at_in one self.now.lists.entries) + length (at_in other self.now.lists.entries)
            ≤ vec_capacity list) }
    {
        let count = self.at(one).len() + self.at(other).len();
        with_room(self.alloc, count)
    }

    /// Takes the memory for one more place of a number, which has a list then. All places stay, whatever the result.
    pub fn reserve(&mut self, number: u64) -> Result<(), AllocError>
        ensures lists { (n : ℕ) → at_in n self.new.lists.entries ≡ at_in n self.old.lists.entries }
        ensures room { (n : ℕ) → room_in n self.old.lists.entries ≤ room_in n self.new.lists.entries }
        ensures preserved { (n : ℕ) → has_list n self.old.lists.entries ≡ true →
            has_list n self.new.lists.entries ≡ true }
        ensures there { OnOk result (has_list number self.new.lists.entries ≡ true) }
        ensures grown { OnOk result
            (length (at_in number self.new.lists.entries) < room_in number self.new.lists.entries) }
    {
        match self.lists.get_index_of(&number) {
            Some(index) => grow(&mut self.lists[index]),
            None => {
                let list = with_room(self.alloc, 1)?;
                self.lists.insert(number, list)?;
                Ok(())
            }
        }
    }

    /// Puts a place last in the list of a number, for which there is room.
    pub fn push(&mut self, number: u64, place: usize)
        requires { length (at_in number self.old.lists.entries) < room_in number self.old.lists.entries }
        ensures lists { (n : ℕ) → at_in n self.new.lists.entries
            ≡ (if number == n then at_in n self.old.lists.entries ++ place ∷ [] else at_in n self.old.lists.entries) }
        ensures room { (n : ℕ) → room_in n self.old.lists.entries ≤ room_in n self.new.lists.entries }
        ensures there { (n : ℕ) → has_list n self.new.lists.entries ≡ has_list n self.old.lists.entries }
    {
        if let Some(index) = self.lists.get_index_of(&number) {
            push_place(&mut self.lists[index], place);
        }
    }

    /// Takes the last place of a number out.
    pub fn pop(&mut self, number: u64)
        ensures lists { (n : ℕ) → at_in n self.new.lists.entries
            ≡ (if number == n then take (length (at_in n self.old.lists.entries) - 1) (at_in n self.old.lists.entries)
            else at_in n self.old.lists.entries) }
        ensures room { (n : ℕ) → room_in n self.old.lists.entries ≤ room_in n self.new.lists.entries }
        ensures there { (n : ℕ) → has_list n self.new.lists.entries ≡ has_list n self.old.lists.entries }
    {
        if let Some(index) = self.lists.get_index_of(&number) {
            pop_place(&mut self.lists[index]);
        }
    }

    /// Takes a place out of the list of a number.
    pub fn remove(&mut self, number: u64, place: usize)
        ensures lists { (n : ℕ) → at_in n self.new.lists.entries
            ≡ (if number == n then remove_key (nat_eq place) (at_in n self.old.lists.entries)
            else at_in n self.old.lists.entries) }
        ensures room { (n : ℕ) → room_in n self.old.lists.entries ≤ room_in n self.new.lists.entries }
        ensures there { (n : ℕ) → has_list n self.new.lists.entries ≡ has_list n self.old.lists.entries }
    {
        if let Some(index) = self.lists.get_index_of(&number) {
            remove_place(&mut self.lists[index], place);
        }
    }

    /// Puts a place among those of a number, for which there is room.
    pub fn put(&mut self, number: u64, place: usize)
        requires { length (at_in number self.old.lists.entries) < room_in number self.old.lists.entries }
        ensures lists { (n : ℕ) → at_in n self.new.lists.entries
            ≡ (if number == n then insert_place place (at_in n self.old.lists.entries)
            else at_in n self.old.lists.entries) }
        ensures room { (n : ℕ) → room_in n self.old.lists.entries ≤ room_in n self.new.lists.entries }
        ensures there { (n : ℕ) → has_list n self.new.lists.entries ≡ has_list n self.old.lists.entries }
    {
        if let Some(index) = self.lists.get_index_of(&number) {
            put_place(&mut self.lists[index], place);
        }
    }

    /// Gives a number that has a list another one. It takes no memory.
    pub fn put_list(&mut self, number: u64, list: Vec<usize>)
        requires { has_list number self.old.lists.entries ≡ true }
        ensures lists { (n : ℕ) → at_in n self.new.lists.entries
            ≡ (if number == n then list.items else at_in n self.old.lists.entries) }
        ensures there { (n : ℕ) → has_list n self.new.lists.entries ≡ has_list n self.old.lists.entries }
    {
        if let Some(index) = self.lists.get_index_of(&number) {
            self.lists[index] = list;
        }
    }

    /// Takes all places of a number out, and gives their memory back.
    pub fn empty_list(&mut self, number: u64)
        ensures lists { (n : ℕ) → at_in n self.new.lists.entries
            ≡ (if number == n then [] else at_in n self.old.lists.entries) }
        ensures there { (n : ℕ) → has_list n self.new.lists.entries ≡ has_list n self.old.lists.entries }
    {
        if let Some(index) = self.lists.get_index_of(&number) {
            self.lists[index] = Vec::new(self.alloc);
        }
    }

    /// Lets the places of a number stand in other memory, which has room for more.
    pub fn install(&mut self, number: u64, room: Vec<usize>)
        requires there { has_list number self.old.lists.entries ≡ true }
        requires room { length (at_in number self.old.lists.entries) ≤ vec_capacity room }
        ensures lists { (n : ℕ) → at_in n self.new.lists.entries ≡ at_in n self.old.lists.entries }
        ensures room { vec_capacity room ≤ room_in number self.new.lists.entries }
        ensures fits { (n : ℕ) → length (at_in n self.old.lists.entries) ≤ room_in n self.old.lists.entries →
            length (at_in n self.new.lists.entries) ≤ room_in n self.new.lists.entries }
        ensures preserved { (n : ℕ) → has_list n self.new.lists.entries ≡ has_list n self.old.lists.entries }
    {
        if let Some(index) = self.lists.get_index_of(&number) {
            install_list(&mut self.lists[index], room);
        }
    }
}
