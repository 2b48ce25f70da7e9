//! Calls in the order in which they came, with an index by incident.

ghost use Rattle.std.specs.Prelude.{◌≡◌, ◌≢◌, ◌<◌, ◌≤◌, ◌+◌, ◌-◌, ◌^◌, ℕ, [], ◌++◌};
ghost use Rattle.std.specs.Prelude.{◌∷◌, ◌&&◌, ◌==◌, true, false, Some};
ghost use Rattle.std.specs.Prelude.{length, take, map, slice_get, vec_capacity, IfOk, OnOk, OnErr};
ghost use Rattle.std.specs.List.{list_any};
ghost use Rattle.std.specs.Option.{option_map};
ghost use Rattle.std.specs.Str.{bytes_eq};
ghost use Rattle.indexmap.specs.IndexMap.{spare, insert_entry, set_value_at};
ghost use Rattle.desk_types.specs.Lists.{update_first};
ghost use Rattle.desk_index.specs.Places.{at_in, room_in, has_list, is_listed};
ghost use Rattle.desk_index.specs.Slots.{changed_at, first, with_place, without_place};
ghost use Rattle.desk_incidents.specs.Calls.{is_call, is_of, calls_of, call_count, call_of_incident, call_after_merge};
ghost use Rattle.desk_incidents.specs.CallTable.{pair_of, IsCallTable, IsGiven, calls_at};

use desk_index::{Places, with_room};
use desk_types::{CallId, HashSeed, Items, WantOfMemory};
use indexmap::IndexMap;
use std::alloc::{AllocError, Global};
use std::marker::Model;

/// The calls of incidents. A contract sees them as the list of pairs, in the order in which the calls came, and as the
/// numbers that have a list in the index.
pub(crate) struct Calls {
    table: IndexMap<CallId, u64, HashSeed>,
    index: Places,
}

// Written out, so that callers need not prove each part's drop.
impl Drop for Calls {
    fn drop(self) {
        let Calls { table: _, index: _ } = self;
    }
}

impl Model for Calls {
    ghost use Rattle.std.specs.Prelude.{map};
    ghost use Rattle.std.specs.Map.{keys_of};
    ghost use Rattle.desk_incidents.specs.CallTable.{CallsValue, pair_of, IsCallTable};

    ghost Value = { CallsValue };

    ghost view = { λ c. record {
      pairs = map pair_of c.table.entries;
      listed = keys_of c.index.lists.entries;
    } };

    ghost invariant = { λ c. IsCallTable c.table.entries c.index.lists.entries };
}

/// Inserts a call that is not there, for which there is room.
fn insert_within(table: &mut IndexMap<CallId, u64, HashSeed>, call: CallId, number: u64)
    requires { 0 < spare table.old }
    ensures { table.new.entries ≡ insert_entry bytes_eq table.old.entries call number }
{
    let put = table.insert(call, number);
    put.unwrap();
}

/// Gives the call at a place to the incident of a number, in the table.
fn set_number(table: &mut IndexMap<CallId, u64, HashSeed>, place: usize, number: u64)
    requires { place < length table.old.entries }
    ensures { table.new.entries ≡ set_value_at table.old.entries place number }
{
    table[place] = number;
}

/// The number of the incident whose call is at a place.
fn number_at(table: &IndexMap<CallId, u64, HashSeed>, place: usize) -> Option<u64>
    ensures { result ≡ option_map (λ e. e.1) (slice_get table.now.entries place) }
{
    match table.get_index(place) {
        None => None,
        Some((_call, number)) => Some(*number),
    }
}

/// Where a call stands.
fn place_of(table: &IndexMap<CallId, u64, HashSeed>, call: &CallId) -> Option<usize>
    ensures { result ≡ first (is_call call.now) 0 (map pair_of table.now.entries) }
{
    table.get_index_of(call)
}

/// The first of some places, where there are any.
fn first_of(places: &[usize]) -> Option<usize>
    ensures { result ≡ slice_get places.now 0 }
{
    places.first().copied()
}

/// Gives the call at a place, which is that of one incident, to another. There is room for its place in the list of
/// that one.
fn give_at(
    table: &mut IndexMap<CallId, u64, HashSeed>,
    index: &mut Places,
    place: usize,
    old: u64,
    number: u64,
)
    requires table { IsCallTable table.old.entries index.old.lists.entries }
    requires there { option_map (λ e. e.1) (slice_get table.old.entries place) ≡ Some old }
    requires room { length (at_in number index.old.lists.entries) < room_in number index.old.lists.entries }
    ensures calls { map pair_of table.new.entries
        ≡ changed_at place (call_of_incident number) (map pair_of table.old.entries) }
    ensures table { IsCallTable table.new.entries index.new.lists.entries }
    ensures lists { (n : ℕ) → at_in n index.new.lists.entries
        ≡ with_place (number == n) place (without_place (old == n) place (at_in n index.old.lists.entries)) }
    ensures room { (n : ℕ) → room_in n index.old.lists.entries ≤ room_in n index.new.lists.entries }
    ensures listed { (n : ℕ) → has_list n index.new.lists.entries ≡ has_list n index.old.lists.entries }
{
    set_number(table, place, number);
    index.remove(old, place);
    index.put(number, place);
}

/// Gives the first call of one incident to another.
fn move_first(table: &mut IndexMap<CallId, u64, HashSeed>, index: &mut Places, from: u64, to: u64)
    requires table { IsCallTable table.old.entries index.old.lists.entries }
    requires apart { from ≢ to }
    requires some { 0 < length (at_in from index.old.lists.entries) }
    requires room { length (at_in to index.old.lists.entries) + length (at_in from index.old.lists.entries)
        ≤ room_in to index.old.lists.entries }
    ensures { IsGiven from to table.old.entries index.old.lists.entries table.new.entries index.new.lists.entries }
{
    if let Some(place) = first_of(index.at(from)) {
        give_at(table, index, place, from, to);
    }
}

/// Gives all calls of one incident to another. There is room in the list of that one.
fn move_calls(table: &mut IndexMap<CallId, u64, HashSeed>, index: &mut Places, from: u64, to: u64)
    requires table { IsCallTable table.old.entries index.old.lists.entries }
    requires apart { from ≢ to }
    requires room { length (at_in to index.old.lists.entries) + length (at_in from index.old.lists.entries)
        ≤ room_in to index.old.lists.entries }
    ensures calls { map pair_of table.new.entries ≡ map (call_after_merge from to) (map pair_of table.old.entries) }
    ensures table { IsCallTable table.new.entries index.new.lists.entries }
    ensures preserved { (n : ℕ) → has_list n index.new.lists.entries ≡ has_list n index.old.lists.entries }
{
    let count = index.at(from).len();
    for _done in 0..count {
        move_first(table, index, from, to);
    }
}

/// The call at a place, where the table reaches so far.
fn call_in(table: &IndexMap<CallId, u64, HashSeed>, place: usize) -> Option<&CallId>
    ensures { option_map (λ call. call.now) result ≡ option_map (λ e. e.0) (slice_get table.now.entries place) }
{
    match table.get_index(place) {
        None => None,
        Some((call, _number)) => Some(call),
    }
}

/// Copies of the calls at places, in the order of the places.
fn calls_in(
    alloc: Global,
    table: &IndexMap<CallId, u64, HashSeed>,
    places: &[usize],
) -> Result<Items<CallId>, WantOfMemory>
    ensures { IfOk result (λ calls. calls ≡ calls_at table.now.entries places.now) }
{
    let mut calls = Items::new(alloc);
    for place in places {
        if let Some(call) = call_in(table, *place) {
            calls.push(call.copy()?)?;
        }
    }
    Ok(calls)
}

impl Calls {
    /// No calls. It takes no memory.
    pub(crate) fn new(alloc: Global, seed: HashSeed) -> Calls
        ensures { result.pairs ≡ [] }
    {
        Calls {
            table: IndexMap::with_hasher(alloc, seed),
            index: Places::new(alloc),
        }
    }

    /// Whether an incident has the call.
    pub(crate) fn is_taken(&self, call: &CallId) -> bool
        ensures { result ≡ list_any (is_call call.now) self.now.pairs }
    {
        self.table.get(call).is_some()
    }

    /// How many calls the incident of a number has.
    pub(crate) fn count(&self, number: u64) -> u64
        ensures count { result ≡ call_count number self.now.pairs }
        ensures bounded { result < 2 ^ 63 }
    {
        self.index.at(number).len() as u64
    }

    /// Whether the incident of a number has the call.
    pub(crate) fn has_pair(&self, number: u64, call: &CallId) -> bool
        ensures { result ≡ list_any (λ h. is_of number h && is_call call.now h) self.now.pairs }
    {
        // The clauses of `len` say too that no call stands in the table twice.
        prove!(self.table.len() < usize::MAX);
        match self.table.get(call) {
            None => false,
            Some(incident) => *incident == number,
        }
    }

    /// The calls of the incident of a number, the earliest first.
    pub(crate) fn of(&self, alloc: Global, number: u64) -> Result<Items<CallId>, WantOfMemory>
        ensures { IfOk result (λ calls. calls ≡ calls_of number self.now.pairs) }
    {
        calls_in(alloc, &self.table, self.index.at(number))
    }

    /// Takes the memory for one more call of a number, which has a list then. The calls stay as they are.
    pub(crate) fn reserve(&mut self, number: u64) -> Result<(), AllocError>
        ensures pairs { self.new.pairs ≡ self.old.pairs }
        ensures listed { OnOk result (is_listed number self.new.listed ≡ true) }
        ensures preserved { (n : ℕ) → is_listed n self.old.listed ≡ true → is_listed n self.new.listed ≡ true }
    {
        self.index.reserve(number)
    }

    /// Takes the memory for one more call of a number, which has a list then, and hands out room for its list with that
    /// call. The calls stay as they are.
    pub(crate) fn prepare(&mut self, number: u64) -> Result<Vec<usize>, AllocError>
        ensures pairs { self.new.pairs ≡ self.old.pairs }
        ensures listed { OnOk result (is_listed number self.new.listed ≡ true) }
        ensures preserved { (n : ℕ) → is_listed n self.old.listed ≡ true → is_listed n self.new.listed ≡ true }
        ensures room { IfOk result (λ room. call_count number self.old.pairs < vec_capacity room) }
    {
        self.index.reserve(number)?;
        with_room(self.index.alloc, self.index.at(number).len() + 1)
    }

    /// Room for the calls of two incidents in one list.
    pub(crate) fn room_for(&self, one: u64, other: u64) -> Result<Vec<usize>, AllocError>
        ensures { IfOk result (λ room. call_count one self.now.pairs + call_count other self.now.pairs
            ≤ vec_capacity room) }
    {
        self.index.room_for(one, other)
    }

    /// Puts a call that no incident has last, or changes nothing. The number has a list then.
    pub(crate) fn push(&mut self, call: CallId, number: u64) -> Result<(), WantOfMemory>
        requires { list_any (is_call call) self.old.pairs ≡ false }
        ensures ok { OnOk result (self.new.pairs
            ≡ self.old.pairs ++ record { incident = number; call = call } ∷ []) }
        ensures err { OnErr result (self.new.pairs ≡ self.old.pairs) }
        ensures preserved { (n : ℕ) → is_listed n self.old.listed ≡ true → is_listed n self.new.listed ≡ true }
    {
        self.table.reserve(1)?;
        self.index.reserve(number)?;
        let place = self.table.len();
        insert_within(&mut self.table, call, number);
        self.index.push(number, place);
        Ok(())
    }

    /// Takes the last pair out. It takes no memory.
    pub(crate) fn pop(&mut self)
        ensures pairs { self.new.pairs ≡ take (length self.old.pairs - 1) self.old.pairs }
        ensures preserved { (n : ℕ) → is_listed n self.new.listed ≡ is_listed n self.old.listed }
    {
        if let Some((_call, number)) = self.table.pop() {
            self.index.pop(number);
        }
    }

    /// Gives a call, where there is one, to the incident of a number, whose list takes the room that was made for it.
    pub(crate) fn give_call(&mut self, call: &CallId, number: u64, room: Vec<usize>)
        requires listed { is_listed number self.old.listed ≡ true }
        requires room { call_count number self.old.pairs < vec_capacity room }
        ensures pairs { self.new.pairs ≡ update_first (is_call call.now) (call_of_incident number) self.old.pairs }
        ensures preserved { (n : ℕ) → is_listed n self.new.listed ≡ is_listed n self.old.listed }
    {
        self.index.install(number, room);
        if let Some(place) = place_of(&self.table, call) {
            if let Some(old) = number_at(&self.table, place) {
                give_at(&mut self.table, &mut self.index, place, old, number);
            }
        }
    }

    /// Gives all calls of one incident to another, whose list takes the room that was made for it. It takes no memory.
    pub(crate) fn merge(&mut self, from: u64, to: u64, room: Vec<usize>)
        requires apart { from ≢ to }
        requires listed { is_listed to self.old.listed ≡ true }
        requires room { call_count to self.old.pairs + call_count from self.old.pairs ≤ vec_capacity room }
        ensures pairs { self.new.pairs ≡ map (call_after_merge from to) self.old.pairs }
        ensures preserved { (n : ℕ) → is_listed n self.new.listed ≡ is_listed n self.old.listed }
    {
        self.index.install(to, room);
        move_calls(&mut self.table, &mut self.index, from, to);
    }
}
