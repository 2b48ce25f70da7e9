//! The state that was saved last.

ghost use Rattle.std.specs.Prelude.{◌≡◌, ◌≤◌, ◌↔◌, ◌++◌, ℕ, length, take, drop, IsTrue};
ghost use Rattle.std.specs.Prelude.{OnOk, IfOk};
ghost use Rattle.desk_log.specs.SavedValue.{IsSaved, initial_saved};
ghost use Rattle.desk_saved.specs.Clients.{clients_of, changed_clients};

use crate::transactions::{Numbers, Stored};
use desk_log::{Log, Saved};
use desk_types::{ClientId, Entry, WantOfMemory};
use std::alloc::Global;
use std::marker::Model;

/// The saved state whose rows the tables hold, in parts. It becomes another with no copy of the entries that both have.
pub(crate) struct LastSaved {
    numbers: Numbers,
    log: Log,
}

// Written out, so that callers need not prove each part's drop.
impl Drop for LastSaved {
    fn drop(self) {
        let LastSaved { numbers: _, log: _ } = self;
    }
}

impl Model for LastSaved {
    ghost use Rattle.desk_log.specs.SavedValue.{SavedValue, IsSaved};

    ghost Value = { SavedValue };

    ghost view = { λ s. record {
      view = s.numbers.view;
      normal = s.numbers.normal;
      log = s.log;
      commit = s.numbers.commit;
    } };

    ghost invariant = { λ s. IsSaved (record {
      view = s.numbers.view;
      normal = s.numbers.normal;
      log = s.log;
      commit = s.numbers.commit;
    }) };
}

/// The entries after a front.
pub(crate) fn entries_after(entries: &[Entry], front: u64) -> &[Entry]
    requires within { front ≤ length entries.now }
    ensures { result.now ≡ drop front entries.now }
{
    &entries[front as usize..]
}

/// Puts the client of each entry last.
fn push_clients(clients: &mut Vec<ClientId>, entries: &[Entry]) -> Result<(), WantOfMemory>
    ensures { OnOk result (clients.new.items ≡ clients.old.items ++ clients_of entries.now) }
{
    for entry in entries {
        clients.push(entry.client)?;
    }
    Ok(())
}

/// The client of each entry of a log.
pub(crate) fn all_clients(alloc: Global, log: &Log) -> Result<Vec<ClientId>, WantOfMemory>
    ensures { IfOk result (λ clients. clients.items ≡ clients_of log.now) }
{
    let mut clients = Vec::new(alloc);
    push_clients(&mut clients, log.entries())?;
    Ok(clients)
}

/// The clients whose entries go or come where a log becomes another, with which it has so many first entries in common.
fn changed_clients(
    alloc: Global,
    log: &Log,
    other: &Log,
    front: u64,
) -> Result<Vec<ClientId>, WantOfMemory>
    requires within { (front ≤ length log.now) × (front ≤ length other.now) }
    ensures { IfOk result (λ clients. clients.items ≡ changed_clients front log.now other.now) }
{
    let mut clients = Vec::new(alloc);
    push_clients(&mut clients, entries_after(log.entries(), front))?;
    push_clients(&mut clients, entries_after(other.entries(), front))?;
    Ok(clients)
}

impl LastSaved {
    /// That of a node that has done nothing. It takes no memory.
    pub(crate) fn initial(alloc: Global) -> LastSaved
        ensures { result ≡ initial_saved }
    {
        LastSaved {
            numbers: Numbers {
                view: 0,
                normal: 0,
                commit: 0,
            },
            log: Log::new(alloc),
        }
    }

    /// That of these parts.
    pub(crate) fn of(
        alloc: Global,
        numbers: Numbers,
        entries: Vec<Entry>,
    ) -> Result<LastSaved, WantOfMemory>
        requires { IsSaved (record {
          view = numbers.view;
          normal = numbers.normal;
          log = entries.items;
          commit = numbers.commit;
        }) }
        ensures ok { IfOk result (λ s. s ≡ record {
          view = numbers.view;
          normal = numbers.normal;
          log = entries.items;
          commit = numbers.commit;
        }) }
    {
        let log = Log::from_entries(alloc, entries)?;
        Ok(LastSaved { numbers, log })
    }

    /// The saved state itself.
    pub(crate) fn into_saved(self) -> Saved
        ensures { result ≡ self }
    {
        let LastSaved { numbers, log } = self;
        Saved::new(numbers.view, numbers.normal, log, numbers.commit)
    }

    /// A copy of the saved state.
    pub(crate) fn copy(&self) -> Result<Saved, WantOfMemory>
        ensures { IfOk result (λ s. s ≡ self.now) }
    {
        let log = self.log.copy()?;
        Ok(Saved::new(
            self.numbers.view,
            self.numbers.normal,
            log,
            self.numbers.commit,
        ))
    }

    /// The log whose entries the tables hold.
    pub(crate) fn log(&self) -> &Log
        ensures { result.now ≡ self.now.log }
    {
        &self.log
    }

    /// What the tables hold.
    pub(crate) fn stored(&self) -> Stored
        ensures { result ≡ record {
          count = length self.now.log;
          numbers = record { view = self.now.view; normal = self.now.normal; commit = self.now.commit };
        } }
    {
        Stored {
            count: self.log.len(),
            numbers: self.numbers,
        }
    }

    /// The greatest number of equal entries with which its log and that of another begin, where so many are known to be
    /// equal: these are not compared.
    pub(crate) fn same_front_after(&self, saved: &Saved, known: u64) -> u64
        requires known_within { (known ≤ length self.now.log) × (known ≤ length saved.now.log) }
        requires known_same { take known self.now.log ≡ take known saved.now.log }
        ensures within { (result ≤ length self.now.log) × (result ≤ length saved.now.log) }
        ensures same { take result self.now.log ≡ take result saved.now.log }
        ensures greatest { (k : ℕ) → k ≤ length self.now.log → k ≤ length saved.now.log
            → take k self.now.log ≡ take k saved.now.log → k ≤ result }
    {
        self.log.same_front_after(saved.log(), known)
    }

    /// Whether another is the same, where its own log and that of the other begin with so many equal entries and no
    /// more. It takes no time in the lengths of the logs.
    pub(crate) fn is_same(&self, saved: &Saved, common: u64) -> bool
        requires within { (common ≤ length self.now.log) × (common ≤ length saved.now.log) }
        requires same { take common self.now.log ≡ take common saved.now.log }
        requires greatest { (k : ℕ) → k ≤ length self.now.log → k ≤ length saved.now.log
            → take k self.now.log ≡ take k saved.now.log → k ≤ common }
        ensures { IsTrue result ↔ (self.now ≡ saved.now) }
    {
        common == self.log.len()
            && common == saved.log().len()
            && self.numbers.is_same(Numbers::of(saved))
    }

    /// Becomes another, with whose log its own has so many entries in common, and gives the clients of the entries that
    /// go and come.
    pub(crate) fn follow(
        &mut self,
        alloc: Global,
        saved: &Saved,
        front: u64,
    ) -> Result<Vec<ClientId>, WantOfMemory>
        requires within { (front ≤ length self.old.log) × (front ≤ length saved.now.log) }
        requires same { take front self.old.log ≡ take front saved.now.log }
        ensures follows { OnOk result (self.new ≡ saved.now) }
        ensures clients { IfOk result (λ clients.
            clients.items ≡ changed_clients front self.old.log saved.now.log) }
    {
        let clients = changed_clients(alloc, &self.log, saved.log(), front)?;
        self.log.follow(saved.log(), front)?;
        self.numbers = Numbers::of(saved);
        Ok(clients)
    }
}
