//! What an epoch keeps of the logs of past epochs: how long they are together, each client's latest entry in them, and
//! the replacements that they name.

ghost use Rattle.std.specs.Prelude.{◌≡◌, ◌==◌, ◌≤◌, ◌+◌, ◌++◌, ℕ, [], List, length, if◌then◌else◌, Some, IfOk, OnOk};
ghost use Rattle.desk_types.specs.declared.command.Entry.{Entry as AnEntry};
ghost use Rattle.desk_types.specs.declared.limits.TheConstants.{LAST_PLACE};
ghost use Rattle.desk_epochs.specs.OneLog.{new_where};
ghost use Rattle.desk_epoch_node.specs.PastRows.{AreLatestRows, StandFor, decided, one_log_admission, latest_row};
ghost use Rattle.desk_epoch_node.specs.Replacements.{named_by, replacements, with_replacement};

use crate::past_row::PastRow;
use crate::replacement::{Replacement, named_by};
use desk_log::{Admission, Log};
use desk_types::{ClientId, Entry, RequestNumber, WantOfMemory};
use std::alloc::Global;
use std::collections::BTreeMap;
use std::marker::Model;

/// The logs of past epochs, one after the other, as an epoch keeps them: the rows of their clients, the replacements
/// that they name, and no entries. They have at most 999,999,999,999 entries.
pub struct PastLogs {
    rows: BTreeMap<u64, PastRow>,
    length: u64,
    replacements: Vec<Replacement>,
    alloc: Global,
}

// Written out, so that callers need not prove each part's drop.
impl Drop for PastLogs {
    fn drop(self) {
        let PastLogs {
            rows: _,
            length: _,
            replacements: _,
            alloc: _,
        } = self;
    }
}

impl Model for PastLogs {
    ghost use Rattle.std.specs.Prelude.{◌≤◌};
    ghost use Rattle.desk_types.specs.declared.limits.TheConstants.{LAST_PLACE};
    ghost use Rattle.desk_epoch_node.specs.PastRows.{PastValue};

    ghost Value = { PastValue };

    ghost view = { λ p. record {
      rows = p.rows.entries;
      length = p.length;
      replacements = p.replacements.items;
    } };

    ghost invariant = { λ p. p.length ≤ LAST_PLACE };
}

/// A new request is put last where there is room.
fn admit_new(room: bool) -> Admission
    ensures { result ≡ new_where room }
{
    if room {
        Admission::Append
    } else {
        Admission::Full
    }
}

/// What becomes of a request beside the client's latest entry.
fn decide(number: RequestNumber, latest: RequestNumber, place: u64, room: bool) -> Admission
    ensures { result ≡ decided number latest place room }
{
    if number.get() < latest.get() {
        return Admission::Stale { latest };
    }
    if number.get() == latest.get() {
        return Admission::Retry { place };
    }
    admit_new(room)
}

/// Equal rows.
fn copy_rows(rows: &BTreeMap<u64, PastRow>) -> Result<BTreeMap<u64, PastRow>, WantOfMemory>
    ensures { IfOk result (λ copy. copy.entries ≡ rows.now.entries) }
{
    let copy = rows.clone()?;
    Ok(copy)
}

/// Sets the row of a client.
fn set_row(
    rows: &mut BTreeMap<u64, PastRow>,
    client: ClientId,
    row: PastRow,
) -> Result<(), WantOfMemory>
    ensures { OnOk result ((c : ℕ) → latest_row rows.new.entries c
        ≡ (if client == c then Some row else latest_row rows.old.entries c)) }
{
    rows.insert(client.get(), row)?;
    Ok(())
}

/// Sets the rows of the clients of these entries, which stand after so many others.
fn set_rows(
    rows: &mut BTreeMap<u64, PastRow>,
    before: u64,
    entries: &[Entry],
) -> Result<(), WantOfMemory>
    requires { before + length entries.now ≤ LAST_PLACE }
    ensures { OnOk result ((past : List AnEntry) → before ≡ length past → AreLatestRows past rows.old.entries →
        AreLatestRows (past ++ entries.now) rows.new.entries) }
{
    for (index, entry) in entries.iter().enumerate() {
        let row = PastRow {
            number: entry.number,
            place: before + index as u64 + 1,
        };
        set_row(rows, entry.client, row)?;
    }
    Ok(())
}

/// Equal replacements.
fn copy_replacements(
    alloc: Global,
    replacements: &[Replacement],
) -> Result<Vec<Replacement>, WantOfMemory>
    ensures { IfOk result (λ copies. copies.items ≡ replacements.now) }
{
    let mut copies = Vec::new(alloc);
    for replacement in replacements {
        copies.push(*replacement)?;
    }
    Ok(copies)
}

/// Puts the replacement that an entry names last, where it names one.
fn push_replacement(all: &mut Vec<Replacement>, entry: &Entry) -> Result<(), WantOfMemory>
    ensures { OnOk result (all.new.items ≡ all.old.items ++ with_replacement (named_by entry.now) []) }
{
    if let Some(named) = named_by(entry) {
        all.push(named)?;
    }
    Ok(())
}

/// Puts the replacements that these entries name last.
fn push_replacements(all: &mut Vec<Replacement>, entries: &[Entry]) -> Result<(), WantOfMemory>
    ensures { OnOk result (all.new.items ≡ all.old.items ++ replacements entries.now) }
{
    for entry in entries {
        push_replacement(all, entry)?;
    }
    Ok(())
}

impl PastLogs {
    /// No entries, as before the first epoch. It takes no memory.
    pub fn new(alloc: Global) -> PastLogs
        ensures stand { StandFor [] result }
        ensures length { result.length ≡ 0 }
    {
        PastLogs {
            rows: BTreeMap::new(alloc),
            length: 0,
            replacements: Vec::new(alloc),
            alloc,
        }
    }

    /// How many entries they are, in entries. The first entry of the next epoch stands after this place.
    pub fn len(&self) -> u64
        ensures value { result ≡ self.now.length }
        ensures within { result ≤ LAST_PLACE }
    {
        self.length
    }

    /// The replacements that they name, in their order.
    pub fn replacements(&self) -> &[Replacement]
        ensures { result.now ≡ self.now.replacements }
    {
        self.replacements.as_slice()
    }

    /// The row of a client.
    fn row(&self, client: ClientId) -> Option<PastRow>
        ensures { result ≡ latest_row self.now.rows client }
    {
        self.rows.get(&client.get()).copied()
    }

    /// What an epoch with this log makes of a request: what the one log of all epochs would. The epoch's own log alone
    /// may be full. The time is logarithmic in the number of clients.
    #[tactic(auto, using(crate::proofs::Rows::of_own, crate::proofs::Rows::of_past, crate::proofs::Rows::of_none))]
    pub fn admission(&self, log: &Log, client: ClientId, number: RequestNumber) -> Admission
        ensures { (past : List AnEntry) → StandFor past self.now →
            result ≡ one_log_admission past log.now client number }
    {
        let room = !log.is_full();
        match log.latest(client) {
            Some(place) => {
                // A log has no more places than it may have.
                prove!(place <= log.len());
                let latest = log.at(place).number;
                decide(number, latest, self.length + place, room)
            }
            None => match self.row(client) {
                Some(row) => decide(number, row.number, row.place, room),
                None => admit_new(room),
            },
        }
    }

    /// These logs with the entries of one more after them. It takes memory for each client.
    pub fn followed_by(&self, entries: &[Entry]) -> Result<PastLogs, WantOfMemory>
        requires { self.now.length + length entries.now ≤ LAST_PLACE }
        ensures stand { IfOk result (λ longer. (past : List AnEntry) → StandFor past self.now →
            StandFor (past ++ entries.now) longer) }
        ensures length { IfOk result (λ longer. longer.length ≡ self.now.length + length entries.now) }
    {
        let mut rows = copy_rows(&self.rows)?;
        set_rows(&mut rows, self.length, entries)?;
        let mut replacements = copy_replacements(self.alloc, self.replacements.as_slice())?;
        push_replacements(&mut replacements, entries)?;
        Ok(PastLogs {
            rows,
            length: self.length + entries.len() as u64,
            replacements,
            alloc: self.alloc,
        })
    }
}
