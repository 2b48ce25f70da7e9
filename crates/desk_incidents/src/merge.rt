//! Merging an incident into another.

ghost use Rattle.std.specs.Prelude.{◌≡◌, IfOk};
ghost use Rattle.desk_types.specs.declared.reply.Word.TheVariants as words;
ghost use Rattle.desk_incidents.specs.Checks.{IsCheckResult};
ghost use Rattle.desk_incidents.specs.Merge.{IsPreparedMerge};
ghost use Rattle.desk_types.specs.Checks.{plain_done};
ghost use Rattle.desk_incidents.specs.Verbs.{merge_refusal, incidents_after_merge};

use crate::calls::check_together;
use crate::incidents::Incidents;
use crate::link_table::LinksRoom;
use desk_types::{Done, IncidentId, IncidentState, Refusal, Word};
use std::marker::Model;

/// A merge that nothing refused, which takes no memory any more. `Incidents::prepare_merge` alone makes one. A contract
/// sees it as its parts.
#[derive(Drop)]
pub struct PreparedMerge {
    incident: IncidentId,
    into: IncidentId,
    from: u64,
    to: u64,
    /// The memory for the calls of both.
    calls_room: Vec<usize>,
    /// The memory for the links of both.
    links_room: LinksRoom,
}

impl Model for PreparedMerge {
    ghost use Rattle.std.specs.Prelude.{vec_capacity};
    ghost use Rattle.desk_incidents.specs.Merge.{PreparedMergeValue};

    ghost Value = { PreparedMergeValue };

    ghost view = { λ p. record {
      incident = p.incident;
      into = p.into;
      from = p.from;
      to = p.to;
      calls_room = vec_capacity p.calls_room;
      links_room = p.links_room;
    } };
}

impl PreparedMerge {
    /// The number of the incident that is merged.
    pub fn from(&self) -> u64
        ensures { result ≡ self.now.from }
    {
        self.from
    }

    /// The number of the incident that it is merged into.
    pub fn to(&self) -> u64
        ensures { result ≡ self.now.to }
    {
        self.to
    }
}

impl Incidents {
    /// Prepares to merge an open incident into another open one. Together they have no more calls than one may have.
    pub fn prepare_merge(
        &self,
        incident: &IncidentId,
        into: &IncidentId,
    ) -> Result<PreparedMerge, Refusal>
        ensures checked { IsCheckResult (merge_refusal incident.now into.now self.now) result }
        ensures prepared { IfOk result (λ prepared. IsPreparedMerge incident.now into.now self.now prepared) }
    {
        let from = self.open_number(incident)?;
        let to = self.open_number(into)?;
        if from == to {
            return Err(Refusal::SameIncident);
        }
        check_together(&self.has_call, from, to)?;
        Ok(PreparedMerge {
            incident: incident.copy()?,
            into: into.copy()?,
            from,
            to,
            calls_room: self.has_call.room_for(to, from)?,
            links_room: self.linked.room_for(to, from)?,
        })
    }

    /// Finishes a merge that was prepared on these incidents as they are. A caller hands in what `prepare_merge` gave
    /// and changes the incidents nowhere between: its clause `prepared` is then what is asked for here.
    pub fn finish_merge(&mut self, prepared: PreparedMerge) -> Done
        requires { IsPreparedMerge prepared.incident prepared.into self.old prepared }
        ensures state { self.new ≡ incidents_after_merge prepared.incident prepared.into self.old }
        ensures done { result ≡ plain_done words.Merged }
    {
        let PreparedMerge {
            incident,
            into,
            from,
            to,
            calls_room,
            links_room,
        } = prepared;
        self.incidents
            .set_state(&incident, IncidentState::Merged { into });
        self.has_call.merge(from, to, calls_room);
        self.linked.merge(from, to, links_room);
        Done::plain(Word::Merged)
    }
}
