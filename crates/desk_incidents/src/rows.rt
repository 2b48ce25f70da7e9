//! Incidents in the order of their opening, with indexes by identifier and by number.

ghost use Rattle.std.specs.Prelude.{◌≡◌, ◌<◌, ℕ, List, [], ◌++◌, ◌∷◌, Some, None, is_some, nat_eq, length, slice_get};
ghost use Rattle.std.specs.Prelude.{if◌then◌else◌, OnOk, OnErr};
ghost use Rattle.std.specs.List.{list_any};
ghost use Rattle.std.specs.Map.{lookup};
ghost use Rattle.std.specs.Option.{option_map};
ghost use Rattle.std.specs.Str.{bytes_eq};
ghost use Rattle.indexmap.specs.IndexMap.{spare};
ghost use Rattle.desk_types.specs.Lists.{update_first};
ghost use Rattle.desk_index.specs.Slots.{changed_at};
ghost use Rattle.desk_incidents.specs.Checks.{has_id, has_number, incident_of, incident_at, in_state, with_note};

use crate::incident::Incident;
use desk_types::{HashSeed, IncidentId, IncidentState, NoteText, WantOfMemory, push_within};
use indexmap::IndexMap;
use std::alloc::Global;
use std::marker::Model;

/// Incidents in the order of their opening. A contract sees them as their list.
pub(crate) struct Rows {
    list: Vec<Incident>,
    by_id: IndexMap<IncidentId, usize, HashSeed>,
    by_number: IndexMap<u64, usize>,
}

// Written out, so that callers need not prove each part's drop.
impl Drop for Rows {
    fn drop(self) {
        let Rows {
            list: _,
            by_id: _,
            by_number: _,
        } = self;
    }
}

impl Model for Rows {
    ghost use Rattle.std.specs.Prelude.{◌≡◌, ℕ, List, nat_eq};
    ghost use Rattle.std.specs.Map.{lookup};
    ghost use Rattle.std.specs.Str.{bytes_eq};
    ghost use Rattle.desk_incidents.specs.declared.incident.Incident.{Incident};
    ghost use Rattle.desk_incidents.specs.Checks.{has_id, has_number};
    ghost use Rattle.desk_index.specs.Slots.{first};

    ghost Value = { List Incident };

    ghost view = { λ r. r.list.items };

    ghost invariant = { λ r.
        ((id : List ℕ) → lookup (bytes_eq id) r.by_id.entries ≡ first (has_id id) 0 r.list.items)
        × ((n : ℕ) → lookup (nat_eq n) r.by_number.entries ≡ first (has_number n) 0 r.list.items) };
}

/// Makes a place that of an identifier, unless it has one.
fn put_id(map: &mut IndexMap<IncidentId, usize, HashSeed>, id: IncidentId, place: usize)
    requires { 0 < spare map.old }
    ensures { (q : List ℕ) → lookup (bytes_eq q) map.new.entries
        ≡ (if is_some (lookup (bytes_eq q) map.old.entries) then lookup (bytes_eq q) map.old.entries
        else if bytes_eq q id then Some place else None) }
{
    if map.get(&id).is_none() {
        let put = map.insert(id, place);
        put.unwrap();
    }
}

/// Makes a place that of a number, unless it has one.
fn put_number(map: &mut IndexMap<u64, usize>, number: u64, place: usize)
    requires { 0 < spare map.old }
    ensures { (q : ℕ) → lookup (nat_eq q) map.new.entries
        ≡ (if is_some (lookup (nat_eq q) map.old.entries) then lookup (nat_eq q) map.old.entries
        else if nat_eq q number then Some place else None) }
{
    if map.get(&number).is_none() {
        let put = map.insert(number, place);
        put.unwrap();
    }
}

/// The incident at a place.
fn at(list: &[Incident], place: usize) -> Option<&Incident>
    ensures { option_map (λ i. i.now) result ≡ slice_get list.now place }
{
    list.get(place)
}

/// How many incidents there are.
fn count(list: &[Incident]) -> usize
    ensures { result ≡ length list.now }
{
    list.len()
}

/// Where the incident of an identifier stands.
fn place_of(by_id: &IndexMap<IncidentId, usize, HashSeed>, id: &IncidentId) -> Option<usize>
    ensures { result ≡ lookup (bytes_eq id.now) by_id.now.entries }
{
    by_id.get(id).copied()
}

/// Gives the incident at a place a state.
fn set_state_at(list: &mut Vec<Incident>, place: usize, state: IncidentState)
    requires { place < length list.old.items }
    ensures { list.new.items ≡ changed_at place (in_state state) list.old.items }
{
    list[place].state = state;
}

/// Gives the incident at a place a note in place of an earlier one.
fn set_note_at(list: &mut Vec<Incident>, place: usize, text: NoteText)
    requires { place < length list.old.items }
    ensures { list.new.items ≡ changed_at place (with_note text) list.old.items }
{
    list[place].note = Some(text);
}

impl Rows {
    /// No incidents. It takes no memory.
    pub(crate) fn new(alloc: Global, seed: HashSeed) -> Rows
        ensures { result ≡ [] }
    {
        Rows {
            list: Vec::new(alloc),
            by_id: IndexMap::with_hasher(alloc, seed),
            by_number: IndexMap::new(alloc),
        }
    }

    /// How many incidents there are.
    pub(crate) fn len(&self) -> usize
        ensures { result ≡ length self.now }
    {
        count(&self.list)
    }

    /// The incidents in the order of their opening.
    pub(crate) fn as_slice(&self) -> &[Incident]
        ensures { result.now ≡ self.now }
    {
        self.list.as_slice()
    }

    /// The incident of an identifier.
    pub(crate) fn of_id(&self, id: &IncidentId) -> Option<&Incident>
        ensures { option_map (λ i. i.now) result ≡ incident_of id.now self.now }
    {
        match self.by_id.get(id) {
            None => None,
            Some(place) => at(&self.list, *place),
        }
    }

    /// The incident of a number.
    pub(crate) fn of_number(&self, number: u64) -> Option<&Incident>
        ensures { option_map (λ i. i.now) result ≡ incident_at number self.now }
    {
        match self.by_number.get(&number) {
            None => None,
            Some(place) => at(&self.list, *place),
        }
    }

    /// Whether an incident has the identifier.
    pub(crate) fn is_id_taken(&self, id: &IncidentId) -> bool
        ensures { result ≡ list_any (has_id id.now) self.now }
    {
        self.by_id.get(id).is_some()
    }

    /// Puts an incident last, or changes nothing.
    pub(crate) fn push(&mut self, incident: Incident) -> Result<(), WantOfMemory>
        ensures ok { OnOk result (self.new ≡ self.old ++ incident ∷ []) }
        ensures err { OnErr result (self.new ≡ self.old) }
    {
        let id = incident.id.copy()?;
        self.list.reserve(1)?;
        self.by_id.reserve(1)?;
        self.by_number.reserve(1)?;
        let place = count(&self.list);
        put_id(&mut self.by_id, id, place);
        put_number(&mut self.by_number, incident.number, place);
        push_within(&mut self.list, incident);
        Ok(())
    }

    /// Gives the incident of an identifier a state, where there is one.
    pub(crate) fn set_state(&mut self, id: &IncidentId, state: IncidentState)
        ensures { self.new ≡ update_first (has_id id.now) (in_state state) self.old }
    {
        if let Some(place) = place_of(&self.by_id, id) {
            set_state_at(&mut self.list, place, state);
        }
    }

    /// Gives the incident of an identifier a note in place of an earlier one, where there is one.
    pub(crate) fn set_note(&mut self, id: &IncidentId, text: NoteText)
        ensures { self.new ≡ update_first (has_id id.now) (with_note text) self.old }
    {
        if let Some(place) = place_of(&self.by_id, id) {
            set_note_at(&mut self.list, place, text);
        }
    }
}
