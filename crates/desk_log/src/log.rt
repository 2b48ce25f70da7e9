//! The log: entries in their order, and the last place of each client.

ghost use Rattle.std.specs.Prelude.{◌≡◌, ◌↔◌, ◌<◌, ◌≤◌, ◌+◌, [], ◌∷◌, ◌++◌, length, take, drop, Some, Err, IsOk};
ghost use Rattle.std.specs.Prelude.{IsTrue, vec_len, vec_capacity, IfOk, IfErr, IfSome, OnErr, OnOk};
ghost use Rattle.desk_types.specs.declared.refusal.Refusal.TheVariants as refusals;
ghost use Rattle.std.specs.Prelude.{◌-◌};
ghost use Rattle.std.specs.List.{slice_range};
ghost use Rattle.desk_log.specs.Entries.{entry_at, latest};
ghost use Rattle.desk_log.specs.Clients.{clients};

use crate::clients::{ClientRow, client_rows};
use crate::equal::are_equal;
use crate::latest_places::LatestPlaces;
use desk_types::limits::LOG_ENTRIES;
use desk_types::{ClientId, Entry, Refusal, WantOfMemory};
use std::alloc::Global;
use std::marker::Model;

/// Entries in their order, at most 65,536 of them. The first has place 1. A contract sees the list of the entries.
/// Beside them it keeps the last place of each client, so that a look-up doesn't go over the entries.
pub struct Log {
    entries: Vec<Entry>,
    latest_places: LatestPlaces,
    alloc: Global,
}

// Written out, so that callers need not prove each part's drop.
impl Drop for Log {
    fn drop(self) {
        let Log {
            entries: _,
            latest_places: _,
            alloc: _,
        } = self;
    }
}

impl Model for Log {
    ghost use Rattle.std.specs.Prelude.{List, length, ◌≤◌};
    ghost use Rattle.desk_types.specs.declared.command.Entry.{Entry};

    ghost Value = { List Entry };

    ghost view = { λ l. l.entries.items };

    ghost use Rattle.desk_types.specs.declared.limits.TheConstants.{LOG_ENTRIES};
    ghost use Rattle.desk_log.specs.LatestPlaces.{HasLatest};

    ghost invariant = { λ l. (length l.entries.items ≤ LOG_ENTRIES) × HasLatest l.entries.items l.latest_places };
}

/// Equal entries, in their order.
fn copies(alloc: Global, entries: &[Entry]) -> Result<Vec<Entry>, WantOfMemory>
    ensures { IfOk result (λ copies. copies.items ≡ entries.now) }
{
    let mut copies = Vec::new(alloc);
    for entry in entries {
        copies.push(entry.copy()?)?;
    }
    Ok(copies)
}

/// Puts an entry last. Where memory is refused nothing changes, and the entry is dropped.
fn push_entry(entries: &mut Vec<Entry>, entry: Entry) -> Result<(), WantOfMemory>
    ensures ok { OnOk result (entries.new.items ≡ entries.old.items ++ entry ∷ []) }
    ensures err { OnErr result (entries.new.items ≡ entries.old.items) }
{
    entries.push(entry)?;
    Ok(())
}

/// Leaves the first `k` entries followed by the given ones, for which there is room.
fn replace_within(entries: &mut Vec<Entry>, k: usize, mut given: Vec<Entry>)
    requires prefix { k ≤ vec_len entries.old }
    requires room { k + vec_len given ≤ vec_capacity entries.old }
    ensures { entries.new.items ≡ take k entries.old.items ++ given.items }
{
    entries.truncate(k);
    let appended = entries.append(&mut given);
    appended.unwrap();
}

/// Whether both hold equal entries in the same order.
#[tactic(auto, using(std::proofs::lemmas::List::take_more_same))]
fn are_all_equal(first: &[Entry], second: &[Entry]) -> bool
    requires { length first.now ≡ length second.now }
    ensures { IsTrue result ↔ (first.now ≡ second.now) }
{
    for i in 0..first.len() {
        if !are_equal(&first[i], &second[i]) {
            return false;
        }
    }
    true
}

impl Log {
    /// The empty log. It takes no memory.
    pub fn new(alloc: Global) -> Log
        ensures { result ≡ [] }
    {
        Log {
            entries: Vec::new(alloc),
            latest_places: LatestPlaces::new(alloc),
            alloc,
        }
    }

    /// The log of these entries. It takes memory for their clients.
    pub fn from_entries(alloc: Global, entries: Vec<Entry>) -> Result<Log, WantOfMemory>
        requires { length entries.items ≤ LOG_ENTRIES }
        ensures { IfOk result (λ log. log ≡ entries.items) }
    {
        let latest_places = LatestPlaces::of_entries(alloc, entries.as_slice())?;
        Ok(Log {
            entries,
            latest_places,
            alloc,
        })
    }

    /// How many entries there are, which is the last place.
    pub fn len(&self) -> u64
        ensures count { result ≡ length self.now }
        ensures within { result ≤ LOG_ENTRIES }
    {
        self.entries().len() as u64
    }

    /// Whether the last place is 0.
    pub fn is_empty(&self) -> bool
        ensures { IsTrue result ↔ (self.now ≡ []) }
    {
        self.len() == 0
    }

    /// Whether there are 65,536 entries, so that no more can be put last.
    pub fn is_full(&self) -> bool
        ensures { IsTrue result ↔ (length self.now ≡ LOG_ENTRIES) }
    {
        self.len() == LOG_ENTRIES
    }

    /// The entry at a place. The first has place 1.
    pub fn at(&self, place: u64) -> &Entry
        requires least { 1 ≤ place }
        requires most { place ≤ length self.now }
        ensures { entry_at self.now place ≡ Some result.now }
    {
        &self.entries()[(place - 1) as usize]
    }

    /// The entries in their order, of which the one at place `k` has the index `k - 1`.
    pub fn entries(&self) -> &[Entry]
        ensures value { result.now ≡ self.now }
        ensures within { length self.now ≤ LOG_ENTRIES }
    {
        self.entries.as_slice()
    }

    /// Puts an entry last, and gives its place. A full log refuses it by `BookFull`, and else only memory can refuse
    /// it. The log is then as it was, and the entry is dropped.
    pub fn append(&mut self, entry: Entry) -> Result<u64, Refusal>
        ensures appended { OnOk result (self.new ≡ self.old ++ entry ∷ []) }
        ensures place { IfOk result (λ place. place ≡ length self.old + 1) }
        ensures full { length self.old ≡ LOG_ENTRIES → result ≡ Err refusals.BookFull }
        ensures room { length self.old < LOG_ENTRIES → IfErr result (λ refusal. refusal ≡ refusals.WantOfMemory) }
        ensures unchanged { OnErr result (self.new ≡ self.old) }
    {
        // Where the function's end drops the entry, its proof takes longer.
        if self.is_full() {
            drop(entry);
            return Err(Refusal::BookFull);
        }
        let client = entry.client;
        if self.latest_places.reserve(client).is_err() {
            drop(entry);
            return Err(Refusal::WantOfMemory);
        }
        push_entry(&mut self.entries, entry)?;
        let place = self.entries.len() as u64;
        self.latest_places.set(client, place);
        Ok(place)
    }

    /// Whether both logs have at least `k` entries, and the first `k` of them are equal.
    pub fn front_of(&self, other: &Log, k: u64) -> bool
        ensures { IsTrue result
            ↔ ((k ≤ length self.now) × (k ≤ length other.now) × (take k self.now ≡ take k other.now)) }
    {
        k <= self.len()
            && k <= other.len()
            && are_all_equal(
                &self.entries()[..k as usize],
                &other.entries()[..k as usize],
            )
    }

    /// Whether the entries after a place, up to another, are the first of the given ones.
    pub fn goes_on(&self, base: u64, upto: u64, entries: &[Entry]) -> bool
        requires order { base ≤ upto }
        requires within { upto ≤ length self.now }
        ensures { IsTrue result
            ↔ ((upto ≤ base + length entries.now) × (slice_range self.now base upto ≡ take (upto - base) entries.now)) }
    {
        let count = (upto - base) as usize;
        count <= entries.len()
            && are_all_equal(
                &self.entries()[base as usize..upto as usize],
                &entries[..count],
            )
    }

    /// Leaves the first `k` entries followed by the given ones. Where memory is refused the log is as it was. A log
    /// that is only cut takes no memory.
    pub fn replace_after(&mut self, k: u64, entries: Vec<Entry>) -> Result<(), WantOfMemory>
        requires prefix { k ≤ length self.old }
        requires room { k + length entries.items ≤ LOG_ENTRIES }
        ensures replaced { OnOk result (self.new ≡ take k self.old ++ entries.items) }
        ensures cut { entries.items ≡ [] → IsOk result }
        ensures unchanged { OnErr result (self.new ≡ self.old) }
    {
        let k = k as usize;
        self.latest_places.reserve_all(entries.as_slice())?;
        let more = (k + entries.len()).saturating_sub(self.entries.len());
        self.entries.reserve(more)?;
        self.latest_places.forget_all(self.entries.as_slice());
        replace_within(&mut self.entries, k, entries);
        self.latest_places.set_all(self.entries.as_slice());
        Ok(())
    }

    /// The last place with an entry of the client. The time is logarithmic in the number of clients.
    pub fn latest(&self, client: ClientId) -> Option<u64>
        ensures value { result ≡ latest client self.now }
        ensures within { IfSome result (λ place. (1 ≤ place) × (place ≤ length self.now)) }
    {
        self.latest_places.get(client)
    }

    /// Each client of the log once, in the order of their first entries, with the number and the place of its latest
    /// entry. It takes memory for each client. The time for each entry is logarithmic in the number of clients.
    pub fn clients(&self) -> Result<Vec<ClientRow>, WantOfMemory>
        ensures { IfOk result (λ rows. rows.items ≡ clients self.now) }
    {
        client_rows(self.alloc, self)
    }

    /// An equal log. It takes memory for each entry and each client.
    pub fn copy(&self) -> Result<Log, WantOfMemory>
        ensures { IfOk result (λ log. log ≡ self.now) }
    {
        let entries = copies(self.alloc, self.entries())?;
        Log::from_entries(self.alloc, entries)
    }

    /// Equal entries, in their order.
    pub fn copy_entries(&self) -> Result<Vec<Entry>, WantOfMemory>
        ensures { IfOk result (λ entries. entries.items ≡ self.now) }
    {
        copies(self.alloc, self.entries())
    }

    /// Equal entries to those after a place, in their order.
    pub fn copy_after(&self, place: u64) -> Result<Vec<Entry>, WantOfMemory>
        requires { place ≤ length self.now }
        ensures { IfOk result (λ entries. entries.items ≡ drop place self.now) }
    {
        copies(self.alloc, &self.entries()[place as usize..])
    }
}
