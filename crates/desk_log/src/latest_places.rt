//! The last place of each client's entries, looked up by the client.

ghost use Rattle.std.specs.Prelude.{◌≡◌, ◌==◌, ℕ, [], if◌then◌else◌, Some, None, IsOk, IfOk, OnOk};
ghost use Rattle.desk_log.specs.LatestPlaces.{place_of, HasRoom, HasRoomFor, HasLatest, KeepsRoom};

use desk_types::{ClientId, Entry, WantOfMemory};
use std::alloc::Global;
use std::collections::BTreeMap;

/// A place for each client, or only the room for one.
pub(crate) struct LatestPlaces {
    places: BTreeMap<u64, Option<u64>>,
}

// Written out, so that callers need not prove each part's drop.
impl Drop for LatestPlaces {
    fn drop(self) {
        let LatestPlaces { places: _ } = self;
    }
}

impl LatestPlaces {
    /// No place of any client. It takes no memory.
    pub(crate) fn new(alloc: Global) -> LatestPlaces
        ensures { HasLatest [] result }
    {
        LatestPlaces {
            places: BTreeMap::new(alloc),
        }
    }

    /// The last places in a log of these entries.
    pub(crate) fn of_entries(alloc: Global, entries: &[Entry]) -> Result<LatestPlaces, WantOfMemory>
        ensures { IfOk result (HasLatest entries.now) }
    {
        let mut places = LatestPlaces::new(alloc);
        places.reserve_all(entries)?;
        places.set_all(entries);
        Ok(places)
    }

    /// The last place of a client's entries, `None` also where there is only the room for it.
    pub(crate) fn get(&self, client: ClientId) -> Option<u64>
        ensures { result ≡ place_of self.now client }
    {
        self.places.get(&client.get()).copied().flatten()
    }

    /// Makes room for the place of a client. No place changes.
    pub(crate) fn reserve(&mut self, client: ClientId) -> Result<(), WantOfMemory>
        ensures same { (c : ℕ) → place_of self.new c ≡ place_of self.old c }
        ensures room { OnOk result (HasRoom self.new client) }
        ensures preserved { KeepsRoom self.old self.new }
    {
        let _place = self.places.entry(client.get())?.or_insert(None);
        Ok(())
    }

    /// Makes room for the places of the clients of these entries. No place changes. Without entries it takes no memory.
    pub(crate) fn reserve_all(&mut self, entries: &[Entry]) -> Result<(), WantOfMemory>
        ensures same { (c : ℕ) → place_of self.new c ≡ place_of self.old c }
        ensures room { OnOk result (HasRoomFor entries.now self.new) }
        ensures preserved { KeepsRoom self.old self.new }
        ensures nothing { entries.now ≡ [] → IsOk result }
    {
        for entry in entries {
            self.reserve(entry.client)?;
        }
        Ok(())
    }

    /// Sets the place of a client for which there is room.
    pub(crate) fn set(&mut self, client: ClientId, place: u64)
        requires { HasRoom self.old client }
        ensures place { (c : ℕ) → place_of self.new c ≡ (if client == c then Some place else place_of self.old c) }
        ensures preserved { KeepsRoom self.old self.new }
    {
        if let Some(latest) = self.places.get_mut(&client.get()) {
            *latest = Some(place);
        }
    }

    /// Sets the last places in a log of these entries, where no client has a place.
    pub(crate) fn set_all(&mut self, entries: &[Entry])
        requires none { HasLatest [] self.old }
        requires room { HasRoomFor entries.now self.old }
        ensures { HasLatest entries.now self.new }
    {
        for (index, entry) in entries.iter().enumerate() {
            self.set(entry.client, index as u64 + 1);
        }
    }

    /// Takes the place of a client away, and leaves the room for it.
    fn forget(&mut self, client: ClientId)
        ensures place { (c : ℕ) → place_of self.new c ≡ (if client == c then None else place_of self.old c) }
        ensures preserved { KeepsRoom self.old self.new }
    {
        if let Some(latest) = self.places.get_mut(&client.get()) {
            *latest = None;
        }
    }

    /// Takes all places away, which are those in a log of these entries, and leaves the room for them.
    pub(crate) fn forget_all(&mut self, entries: &[Entry])
        requires { HasLatest entries.now self.old }
        ensures none { HasLatest [] self.new }
        ensures preserved { KeepsRoom self.old self.new }
    {
        for entry in entries {
            self.forget(entry.client);
        }
    }
}
