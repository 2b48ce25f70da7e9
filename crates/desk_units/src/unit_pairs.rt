//! Units, each with the incident that it is at, in slots, with an index of the units and one of the incidents.

ghost use Rattle.std.specs.Prelude.{◌≡◌, ◌≢◌, ◌<◌, ◌≤◌, ◌==◌, ◌+◌, ℕ, List, [], ◌++◌, ◌∷◌, true, false, Some, None};
ghost use Rattle.std.specs.Prelude.{length, map, count_by, vec_len, vec_capacity, if◌then◌else◌, IfOk, OnOk};
ghost use Rattle.std.specs.Prelude.{OnErr};
ghost use Rattle.std.specs.List.{list_any};
ghost use Rattle.std.specs.Option.{option_map};
ghost use Rattle.indexmap.specs.IndexMap.{spare};
ghost use Rattle.desk_index.specs.Places.{at_in, room_in, is_listed};
ghost use Rattle.desk_index.specs.Slots.{live, passes, places, standing, changed_at};
ghost use Rattle.desk_units.specs.Checks.{is_unit, is_to, pair_of_unit, has_units, units_of};
ghost use Rattle.desk_units.specs.NameTable.{IsNameTable};
ghost use Rattle.desk_units.specs.PairTable.{IsPairTable, pair_at, names_at};
ghost use Rattle.desk_units.specs.Verbs.{pair_after_merge, without_unit};

use crate::names::{put_name, slot_of, take_name};
use crate::unit::UnitPair;
use desk_index::{Places, clear_slot, merged_list, slot_count, standing_in};
use desk_types::{HashSeed, Items, UnitName, WantOfMemory, push_within};
use indexmap::IndexMap;
use std::alloc::{AllocError, Global};
use std::marker::Model;

/// Units, each with the incident that it is at. A unit is at one incident at most. A contract sees them as the list of
/// pairs, in the order in which they came, and as the numbers that have a list in the index.
pub(crate) struct UnitPairs {
    slots: Vec<Option<UnitPair>>,
    by_unit: IndexMap<UnitName, usize, HashSeed>,
    of_incident: Places,
}

// Written out, so that callers need not prove each part's drop.
impl Drop for UnitPairs {
    fn drop(self) {
        let UnitPairs {
            slots: _,
            by_unit: _,
            of_incident: _,
        } = self;
    }
}

impl Model for UnitPairs {
    ghost use Rattle.std.specs.Map.{keys_of};
    ghost use Rattle.desk_index.specs.Slots.{live};
    ghost use Rattle.desk_units.specs.PairTable.{PairsValue, IsPairTable};

    ghost Value = { PairsValue };

    ghost view = { λ p. record {
      pairs = live p.slots.items;
      listed = keys_of p.of_incident.lists.entries;
    } };

    ghost invariant = { λ p. IsPairTable p.slots.items p.by_unit.entries p.of_incident.lists.entries };
}

/// The number of the incident of the pair of a slot.
fn number_in(slots: &[Option<UnitPair>], slot: usize) -> Option<u64>
    ensures { result ≡ option_map (λ p. p.incident) (standing slots.now slot) }
{
    match slots.get(slot) {
        Some(Some(pair)) => Some(pair.incident),
        _ => None,
    }
}

/// The units of the pairs at slots.
fn names_in(
    alloc: Global,
    slots: &[Option<UnitPair>],
    places: &[usize],
) -> Result<Items<UnitName>, WantOfMemory>
    ensures { IfOk result (λ units. units ≡ names_at slots.now places.now) }
{
    let mut units = Items::new(alloc);
    for place in places {
        if let Some(pair) = standing_in(slots, *place) {
            units.push(pair.unit.copy()?)?;
        }
    }
    Ok(units)
}

/// Puts a pair at an incident, where there is one.
fn set_pair(pair: &mut Option<UnitPair>, incident: u64)
    ensures { pair.new ≡ option_map (pair_at incident) pair.old }
{
    if let Some(pair) = pair {
        pair.incident = incident;
    }
}

/// Puts the pair of a slot at an incident.
fn set_slot(slots: &mut Vec<Option<UnitPair>>, slot: usize, incident: u64)
    requires { slot < length slots.old.items }
    ensures { slots.new.items ≡ changed_at slot (option_map (pair_at incident)) slots.old.items }
{
    set_pair(&mut slots[slot], incident);
}

/// Puts the pairs at places, which are all those of one incident, at another.
fn move_slots(slots: &mut Vec<Option<UnitPair>>, among: &[usize], from: u64, to: u64)
    requires all { among.now ≡ places (passes (is_to from)) 0 slots.old.items }
    requires apart { from ≢ to }
    ensures slots { slots.new.items ≡ map (option_map (pair_after_merge from to)) slots.old.items }
    ensures named { (es : List (List ℕ × ℕ)) → IsNameTable (λ p. p.unit) slots.old.items es →
        IsNameTable (λ p. p.unit) slots.new.items es }
{
    for place in among {
        set_slot(slots, *place, to);
    }
}

/// Takes the list of a number out. It takes no memory.
fn drop_list(of_incident: &mut Places, number: u64)
    ensures { (n : ℕ) → at_in n of_incident.new.lists.entries
        ≡ (if number == n then [] else at_in n of_incident.old.lists.entries) }
{
    of_incident.lists.swap_remove(&number);
}

/// Takes the memory for one more pair at an incident. The pairs stay, whatever the result.
fn reserve_pair(
    slots: &mut Vec<Option<UnitPair>>,
    by_unit: &mut IndexMap<UnitName, usize, HashSeed>,
    of_incident: &mut Places,
    incident: u64,
) -> Result<(), AllocError>
    requires { IsPairTable slots.old.items by_unit.old.entries of_incident.old.lists.entries }
    ensures table { IsPairTable slots.new.items by_unit.new.entries of_incident.new.lists.entries }
    ensures slots { slots.new.items ≡ slots.old.items }
    ensures slots_room { OnOk result (vec_len slots.new + 1 ≤ vec_capacity slots.new) }
    ensures names_room { OnOk result (0 < spare by_unit.new) }
    ensures places_room { OnOk result (length (at_in incident of_incident.new.lists.entries)
        < room_in incident of_incident.new.lists.entries) }
{
    slots.reserve(1)?;
    by_unit.reserve(1)?;
    of_incident.reserve(incident)
}

/// Puts a pair of a unit that has none last. There is room for it.
fn put_pair(
    slots: &mut Vec<Option<UnitPair>>,
    by_unit: &mut IndexMap<UnitName, usize, HashSeed>,
    of_incident: &mut Places,
    name: UnitName,
    pair: UnitPair,
)
    requires table { IsPairTable slots.old.items by_unit.old.entries of_incident.old.lists.entries }
    requires named { name ≡ pair.unit }
    requires new { list_any (is_unit pair.unit) (live slots.old.items) ≡ false }
    requires slots_room { vec_len slots.old + 1 ≤ vec_capacity slots.old }
    requires names_room { 0 < spare by_unit.old }
    requires places_room { length (at_in pair.incident of_incident.old.lists.entries)
        < room_in pair.incident of_incident.old.lists.entries }
    ensures table { IsPairTable slots.new.items by_unit.new.entries of_incident.new.lists.entries }
    ensures pairs { live slots.new.items ≡ live slots.old.items ++ pair ∷ [] }
{
    let slot = slot_count(slots);
    put_name(by_unit, name, slot);
    of_incident.push(pair.incident, slot);
    push_within(slots, Some(pair));
}

/// Takes the pair of a unit out, where there is one. It takes no memory, and leaves the room that there is.
fn take_pair(
    slots: &mut Vec<Option<UnitPair>>,
    by_unit: &mut IndexMap<UnitName, usize, HashSeed>,
    of_incident: &mut Places,
    unit: &UnitName,
)
    requires { IsPairTable slots.old.items by_unit.old.entries of_incident.old.lists.entries }
    ensures table { IsPairTable slots.new.items by_unit.new.entries of_incident.new.lists.entries }
    ensures pairs { live slots.new.items ≡ without_unit unit.now (live slots.old.items) }
    ensures slots_room { vec_len slots.old + 1 ≤ vec_capacity slots.old →
        vec_len slots.new + 1 ≤ vec_capacity slots.new }
    ensures names_room { spare by_unit.old ≤ spare by_unit.new }
    ensures places_room { (n : ℕ) →
        length (at_in n of_incident.old.lists.entries) < room_in n of_incident.old.lists.entries →
        length (at_in n of_incident.new.lists.entries) < room_in n of_incident.new.lists.entries }
{
    if let Some(slot) = take_name(by_unit, unit) {
        if let Some(number) = number_in(slots, slot) {
            clear_slot(slots, slot);
            of_incident.remove(number, slot);
        }
    }
}

impl UnitPairs {
    /// No pairs. It takes no memory.
    pub(crate) fn new(alloc: Global, seed: HashSeed) -> UnitPairs
        ensures { result.pairs ≡ [] }
    {
        UnitPairs {
            slots: Vec::new(alloc),
            by_unit: IndexMap::with_hasher(alloc, seed),
            of_incident: Places::new(alloc),
        }
    }

    /// The pair of a unit.
    pub(crate) fn of_unit(&self, unit: &UnitName) -> Option<&UnitPair>
        ensures { option_map (λ p. p.now) result ≡ pair_of_unit unit.now self.now.pairs }
    {
        match slot_of(&self.by_unit, unit) {
            None => None,
            Some(slot) => standing_in(&self.slots, slot),
        }
    }

    /// A unit has one pair at most. It does nothing: its clause is the fact.
    pub(crate) fn has_each_once(&self)
        ensures { (name : List ℕ) → count_by (is_unit name) self.now.pairs ≤ 1 }
    {
        // Only where a field is used does a proof know what the type keeps.
        prove!(self.by_unit.len() < usize::MAX);
    }

    /// Whether units are at the incident of a number.
    pub(crate) fn any_of(&self, number: u64) -> bool
        ensures { result ≡ has_units number self.now.pairs }
    {
        !self.of_incident.at(number).is_empty()
    }

    /// The units that are at the incident of a number, in the order of their pairs.
    pub(crate) fn units_of(
        &self,
        alloc: Global,
        number: u64,
    ) -> Result<Items<UnitName>, WantOfMemory>
        ensures { IfOk result (λ units. units ≡ units_of number self.now.pairs) }
    {
        names_in(alloc, &self.slots, self.of_incident.at(number))
    }

    /// Puts a unit that has no pair last, at an incident, or changes nothing.
    pub(crate) fn push(&mut self, unit: &UnitName, incident: u64) -> Result<(), WantOfMemory>
        requires { list_any (is_unit unit.now) self.old.pairs ≡ false }
        ensures ok { OnOk result (self.new.pairs
            ≡ self.old.pairs ++ record { unit = unit.now; incident = incident } ∷ []) }
        ensures err { OnErr result (self.new.pairs ≡ self.old.pairs) }
    {
        let name = unit.copy()?;
        let pair = UnitPair {
            unit: unit.copy()?,
            incident,
        };
        reserve_pair(
            &mut self.slots,
            &mut self.by_unit,
            &mut self.of_incident,
            incident,
        )?;
        put_pair(
            &mut self.slots,
            &mut self.by_unit,
            &mut self.of_incident,
            name,
            pair,
        );
        Ok(())
    }

    /// Takes the pair of a unit out, where there is one. It takes no memory.
    pub(crate) fn remove(&mut self, unit: &UnitName)
        ensures { self.new.pairs ≡ without_unit unit.now self.old.pairs }
    {
        take_pair(
            &mut self.slots,
            &mut self.by_unit,
            &mut self.of_incident,
            unit,
        );
    }

    /// Puts the pair of a unit last, at another incident, or changes nothing.
    pub(crate) fn put_last(&mut self, unit: &UnitName, incident: u64) -> Result<(), WantOfMemory>
        ensures ok { OnOk result (self.new.pairs
            ≡ without_unit unit.now self.old.pairs ++ record { unit = unit.now; incident = incident } ∷ []) }
        ensures err { OnErr result (self.new.pairs ≡ self.old.pairs) }
    {
        let name = unit.copy()?;
        let pair = UnitPair {
            unit: unit.copy()?,
            incident,
        };
        reserve_pair(
            &mut self.slots,
            &mut self.by_unit,
            &mut self.of_incident,
            incident,
        )?;
        take_pair(
            &mut self.slots,
            &mut self.by_unit,
            &mut self.of_incident,
            unit,
        );
        put_pair(
            &mut self.slots,
            &mut self.by_unit,
            &mut self.of_incident,
            name,
            pair,
        );
        Ok(())
    }

    /// Takes the memory for the units of one incident at another, which has a list then, and hands out room for all
    /// in one list. The pairs stay as they are.
    pub(crate) fn prepare_move(&mut self, from: u64, to: u64) -> Result<Vec<usize>, AllocError>
        ensures pairs { self.new.pairs ≡ self.old.pairs }
        ensures there { OnOk result (is_listed to self.new.listed ≡ true) }
        ensures room { IfOk result (λ room.
            length (units_of to self.old.pairs) + length (units_of from self.old.pairs) ≤ vec_capacity room) }
    {
        self.of_incident.reserve(to)?;
        self.of_incident.room_for(to, from)
    }

    /// Moves the units of one incident to another, whose list takes the room that was made for it. It takes no memory.
    pub(crate) fn move_all(&mut self, from: u64, to: u64, room: Vec<usize>)
        requires apart { from ≢ to }
        requires there { is_listed to self.old.listed ≡ true }
        requires room { length (units_of to self.old.pairs) + length (units_of from self.old.pairs)
            ≤ vec_capacity room }
        ensures { self.new.pairs ≡ map (pair_after_merge from to) self.old.pairs }
    {
        let list = merged_list(room, self.of_incident.at(to), self.of_incident.at(from));
        self.of_incident.put_list(to, list);
        move_slots(&mut self.slots, self.of_incident.at(from), from, to);
        drop_list(&mut self.of_incident, from);
    }
}
