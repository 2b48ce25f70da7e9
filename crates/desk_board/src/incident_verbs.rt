//! The verbs of incidents, of which some look at units or change them.

ghost use Rattle.std.specs.Prelude.{◌≡◌, ◌≤◌};
ghost use Rattle.desk_types.specs.Checks.{VerbOutcome};
ghost use Rattle.desk_types.specs.Identifier.{own_id};
ghost use Rattle.desk_types.specs.declared.reply.Word.TheVariants as words;
ghost use Rattle.desk_incidents.specs.Checks.{new_id};
ghost use Rattle.desk_types.specs.Checks.{plain_done, opening_done};
ghost use Rattle.desk_incidents.specs.Verbs.{open_refusal, incidents_after_open};
ghost use Rattle.desk_incidents.specs.Verbs.{split_refusal, incidents_after_split, merge_refusal};
ghost use Rattle.desk_incidents.specs.Verbs.{incidents_after_clear};
ghost use Rattle.desk_board.specs.BoardValue.{with_incidents};
ghost use Rattle.desk_board.specs.Tables.{board_in};
ghost use Rattle.desk_board.specs.Verbs.{board_after_merge, clear_refusal_on};

use crate::tables::Tables;
use desk_incidents::NewIncident;
use desk_types::limits::LAST_PLACE;
use desk_types::{CallId, Done, IncidentId, KindText, Refusal, SiteText};

impl Tables {
    /// Opens an incident, or refuses to.
    pub(crate) fn open(
        &mut self,
        place: u64,
        at: i64,
        kind: &KindText,
        site: &SiteText,
        incident: &Option<IncidentId>,
        call: &Option<CallId>,
    ) -> Result<Done, Refusal>
        requires { place ≤ LAST_PLACE }
        ensures settles { VerbOutcome (open_refusal self.old.domain incident.now call.now self.old.incidents)
            (opening_done words.Opened (new_id place self.old.domain incident.now))
            (with_incidents (incidents_after_open place self.old.domain at kind.now site.now incident.now call.now
            self.old.incidents) (board_in self.old))
            (board_in self.old) (board_in self.new) result }
        ensures rows { self.new.rows ≡ self.old.rows }
    {
        let details = NewIncident {
            place,
            domain: &self.domain,
            at,
            kind,
            site,
        };
        self.incidents.open(&details, incident, call)
    }

    /// Splits a call from an incident, or refuses to.
    pub(crate) fn split(
        &mut self,
        place: u64,
        at: i64,
        incident: &IncidentId,
        call: &CallId,
        kind: &KindText,
        site: &SiteText,
    ) -> Result<Done, Refusal>
        requires { place ≤ LAST_PLACE }
        ensures settles { VerbOutcome (split_refusal incident.now call.now self.old.incidents)
            (opening_done words.Split (own_id place self.old.domain))
            (with_incidents (incidents_after_split place self.old.domain at call.now kind.now site.now
            self.old.incidents) (board_in self.old))
            (board_in self.old) (board_in self.new) result }
        ensures rows { self.new.rows ≡ self.old.rows }
    {
        let details = NewIncident {
            place,
            domain: &self.domain,
            at,
            kind,
            site,
        };
        self.incidents.split(&details, incident, call)
    }

    /// Merges an incident into another, and commits its units to that, or refuses to.
    pub(crate) fn merge(
        &mut self,
        incident: &IncidentId,
        into: &IncidentId,
    ) -> Result<Done, Refusal>
        ensures settles { VerbOutcome (merge_refusal incident.now into.now self.old.incidents) (plain_done words.Merged)
            (board_after_merge incident.now into.now (board_in self.old)) (board_in self.old) (board_in self.new)
            result }
        ensures rows { self.new.rows ≡ self.old.rows }
    {
        let prepared = self.incidents.prepare_merge(incident, into)?;
        self.units.merge(prepared.from(), prepared.to())?;
        Ok(self.incidents.finish_merge(prepared))
    }

    /// Clears an incident that no unit is committed to and none stands by for, or refuses to.
    pub(crate) fn clear(&mut self, incident: &IncidentId) -> Result<Done, Refusal>
        ensures settles { VerbOutcome (clear_refusal_on incident.now (board_in self.old)) (plain_done words.Cleared)
            (with_incidents (incidents_after_clear incident.now self.old.incidents) (board_in self.old))
            (board_in self.old) (board_in self.new) result }
        ensures rows { self.new.rows ≡ self.old.rows }
    {
        let number = self.incidents.open_number(incident)?;
        if self.units.has_units(number) || self.units.has_stand_bys(number) {
            return Err(Refusal::IncidentHasUnits);
        }
        self.incidents.clear(incident)
    }
}
