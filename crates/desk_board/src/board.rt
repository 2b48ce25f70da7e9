//! The board.

ghost use Rattle.std.specs.Prelude.{◌≡◌, ◌≢◌, ◌<◌, ◌≤◌, ◌+◌, ◌↔◌, ℕ, IfOk, OnErr, IsTrue, All, AllPairs};
ghost use Rattle.std.specs.Option.{option_map};
ghost use Rattle.desk_board.specs.BoardValue.{empty_board};
ghost use Rattle.desk_board.specs.Execute.{execute, row_of};
ghost use Rattle.desk_board.specs.Consistency.{IsConsistent, IsMergedIntoAnother, IsMerged, IsOpenOn, IsUnmergedOn};
ghost use Rattle.desk_board.specs.Consistency.{IsSignedOn, IsCommittedOn};
ghost use Rattle.desk_incidents.specs.Calls.{call_count};
ghost use Rattle.desk_units.specs.Checks.{is_at_work};
ghost use Rattle.desk_units.specs.StandBys.{AreElsewhere};
ghost use Rattle.desk_board.specs.Shown.{shown_on};
ghost use Rattle.desk_board.specs.Tables.{board_in, board_of_tables};

use crate::row::row_of;
use crate::show::shown_before_entries;
use crate::tables::Tables;
use desk_types::limits::{INCIDENT_CALLS, LAST_PLACE};
use desk_types::{ClientId, Domain, Entry, Reply, RequestNumber, Show, Shown, WantOfMemory};
use std::alloc::Global;
use std::marker::Model;

/// A dispatch board. A contract sees it as its lists. Its tables are made with the first entry, in a block of memory of
/// their own, so that a board moves as a few words.
pub struct Board {
    domain: Domain,
    tables: Option<Box<Tables>>,
    alloc: Global,
}

// Written out, so that callers need not prove each part's drop.
impl Drop for Board {
    fn drop(self) {
        let Board {
            domain: _,
            tables: _,
            alloc: _,
        } = self;
    }
}

impl Model for Board {
    ghost use Rattle.desk_types.specs.Identifier.{IsLowerDomain};
    ghost use Rattle.desk_board.specs.BoardValue.{BoardValue};
    ghost use Rattle.desk_board.specs.Consistency.{IsConsistent};
    ghost use Rattle.desk_board.specs.Tables.{board_of_tables};

    ghost Value = { BoardValue };

    ghost view = { λ b. board_of_tables b.domain b.tables };

    ghost invariant = { λ b. IsLowerDomain (board_of_tables b.domain b.tables).domain
        × IsConsistent (board_of_tables b.domain b.tables) };
}

/// The tables after the first entry, and its reply.
fn first_tables(
    alloc: Global,
    domain: &Domain,
    place: u64,
    entry: &Entry,
) -> Result<(Box<Tables>, Reply), WantOfMemory>
    requires { place ≤ LAST_PLACE }
    ensures { IfOk result (λ first. (board_in first.0.value, first.1)
        ≡ execute (empty_board domain.now) place entry.now) }
{
    let mut tables = Box::new(alloc, Tables::new(alloc, domain.copy()?))?;
    let reply = tables.apply(place, entry)?;
    Ok((tables, reply))
}

/// Executes the entry of a place, and makes the tables where there are none yet.
fn apply_to(
    alloc: Global,
    domain: &Domain,
    tables: &mut Option<Box<Tables>>,
    place: u64,
    entry: &Entry,
) -> Result<Reply, WantOfMemory>
    requires { place ≤ LAST_PLACE }
    ensures ok { IfOk result (λ reply. (board_of_tables domain.now tables.new, reply)
        ≡ execute (board_of_tables domain.now tables.old) place entry.now) }
    ensures err { OnErr result (board_of_tables domain.now tables.new ≡ board_of_tables domain.now tables.old) }
{
    match tables {
        Some(tables) => tables.apply(place, entry),
        None => {
            let (first, reply) = first_tables(alloc, domain, place, entry)?;
            *tables = Some(first);
            Ok(reply)
        }
    }
}

impl Board {
    /// The board of a desk before the first entry. It takes no memory.
    pub fn new(alloc: Global, domain: Domain) -> Board
        ensures { result ≡ empty_board domain }
    {
        Board {
            domain,
            tables: None,
            alloc,
        }
    }

    /// Executes the entry at the next place of the log and gives the reply, which stands in the client's row from then
    /// on. A refused command is a reply too. Where memory is refused the board is as it was.
    pub fn apply(&mut self, place: u64, entry: &Entry) -> Result<Reply, WantOfMemory>
        requires next { place ≡ self.old.count + 1 }
        requires within { place ≤ LAST_PLACE }
        ensures ok { IfOk result (λ reply. (self.new, reply) ≡ execute self.old place entry.now) }
        ensures err { OnErr result (self.new ≡ self.old) }
    {
        apply_to(self.alloc, &self.domain, &mut self.tables, place, entry)
    }

    /// The latest request of a client: its number, its place and its reply. `None` where the client made none.
    pub fn last(&self, client: ClientId) -> Option<(RequestNumber, u64, &Reply)>
        ensures { option_map {U = ℕ × ℕ × Reply} (λ last. (last.0, last.1, last.2.now)) result
            ≡ option_map (λ row. (row.number, row.place, row.reply)) (row_of client self.now) }
    {
        let Some(tables) = &self.tables else {
            return None;
        };
        let row = row_of(&tables.rows, client)?;
        Some((row.number, row.place, &row.reply))
    }

    /// What a show is shown: the number of executed entries with the counts of incidents and of units, or with one
    /// incident or one unit, or with the refusal of what is not there. A list is shown the first 1,024 of its incidents
    /// at most, with the place at which the next one was opened where more are left, and the units unless it begins at
    /// a place.
    pub fn show(&self, show: &Show) -> Result<Shown, WantOfMemory>
        ensures { IfOk result (λ shown. shown ≡ shown_on self.now show.now.subject) }
    {
        match &self.tables {
            Some(tables) => tables.shown(&show.subject),
            None => Ok(shown_before_entries(self.alloc, &show.subject)),
        }
    }

    /// How many entries were executed.
    pub fn len(&self) -> u64
        ensures count { result ≡ self.now.count }
    {
        match &self.tables {
            Some(tables) => tables.count,
            None => 0,
        }
    }

    /// What is true of every board, whatever entries it executed. It does nothing: its clauses are the facts.
    pub fn facts(&self)
        // All of the facts that follow, in one record, with those that they rest on.
        ensures consistent { IsConsistent self.now }
        // Identifiers of incidents are all different.
        ensures incidents_differ { AllPairs (λ i j. i.id ≢ j.id) self.now.incidents }
        // What is merged is merged into another incident of the board.
        ensures merged_into_another { All (IsMergedIntoAnother self.now.incidents) self.now.incidents }
        // Each call is one incident's, which is on the board, and an incident has no more calls than it may have.
        ensures calls_differ { AllPairs (λ g h. g.call ≢ h.call) self.now.has_call }
        ensures calls_on_board { All (λ h. IsUnmergedOn self.now h.incident) self.now.has_call }
        ensures calls_most { (number : ℕ) → call_count number self.now.has_call ≤ INCIDENT_CALLS }
        // Each link is there once, with its smaller number first, and both its incidents are on the board.
        ensures links_differ { AllPairs (λ l m. l ≢ m) self.now.linked }
        ensures links_ordered { All (λ l. l.incident < l.other) self.now.linked }
        ensures links_on_board { All (λ l. IsUnmergedOn self.now l.incident × IsUnmergedOn self.now l.other)
            self.now.linked }
        // No call, no link and no unit names a merged incident.
        ensures merged_without_calls { All (λ i. IsMerged i → All (λ h. h.incident ≢ i.number) self.now.has_call)
            self.now.incidents }
        ensures merged_without_links { All (λ i. IsMerged i → All (λ l. (l.incident ≢ i.number) × (l.other ≢ i.number))
            self.now.linked) self.now.incidents }
        ensures merged_without_units { All (λ i. IsMerged i → All (λ p. p.incident ≢ i.number) self.now.committed_to)
            self.now.incidents }
        ensures merged_without_stand_bys { All (λ i. IsMerged i → All (λ p. p.incident ≢ i.number) self.now.standing_by)
            self.now.incidents }
        // Each unit stands by once at most, for an incident that is on the board and open, and is committed to another.
        ensures stand_bys_differ { AllPairs (λ p q. p.unit ≢ q.unit) self.now.standing_by }
        ensures stand_bys_at_open { All (λ p. IsOpenOn self.now p.incident) self.now.standing_by }
        ensures stand_bys_elsewhere { AreElsewhere self.now.committed_to self.now.standing_by }
        // Each unit is signed on once.
        ensures names_differ { AllPairs (λ u v. u.name ≢ v.name) self.now.units }
        // Each unit is committed to one incident at most, which is on the board and open, and it is signed on.
        ensures units_differ { AllPairs (λ p q. p.unit ≢ q.unit) self.now.committed_to }
        ensures units_at_open { All (λ p. IsOpenOn self.now p.incident) self.now.committed_to }
        ensures units_signed_on { All (λ p. IsSignedOn self.now p.unit) self.now.committed_to }
        // A unit is committed exactly where its status is one of the five from dispatched to at_facility.
        ensures units_at_work { All (λ u. IsTrue (is_at_work u.status) ↔ IsCommittedOn self.now u.name) self.now.units }
    {
        // Only where a field is used does a proof know what the type keeps.
        prove!(self.tables.is_some() || self.tables.is_none());
    }
}
