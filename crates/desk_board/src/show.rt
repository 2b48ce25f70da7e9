//! Showing a board.

ghost use Rattle.std.specs.Prelude.{◌≡◌, ℕ, List, Some, IfOk};
ghost use Rattle.desk_board.specs.BoardValue.{empty_board};
ghost use Rattle.desk_incidents.specs.Checks.{incident_of};
ghost use Rattle.desk_units.specs.Checks.{unit_of};
ghost use Rattle.desk_board.specs.Shown.{shown_of_incident, shown_of_unit, shown_on};
ghost use Rattle.desk_board.specs.Tables.{board_in};

use crate::listed::{copy_id, listed_before_entries};
use crate::tables::Tables;
use crate::unit_verbs::{committed_id, stand_by_id};
use desk_incidents::Incident;
use desk_types::{IncidentId, Refusal, Shown, Subject, UnitName, WantOfMemory};
use std::alloc::Global;

/// What is shown before the first entry.
#[tactic(auto, unfolding(crate::specs::Shown::shown_on))]
pub(crate) fn shown_before_entries(alloc: Global, subject: &Subject) -> Shown
    ensures { (domain : List ℕ) → result ≡ shown_on (empty_board domain) subject.now }
{
    let refusal = match subject {
        Subject::Board => {
            return Shown::Board {
                place: 0,
                incidents: 0,
                units: 0,
            };
        }
        Subject::Incident(_) => Refusal::IncidentUnknown,
        Subject::Unit(_) => Refusal::UnitUnknown,
        Subject::List { state, from } => return listed_before_entries(alloc, *state, *from),
    };
    Shown::Absent { place: 0, refusal }
}

impl Tables {
    /// What is shown of an incident.
    fn shown_with_units(&self, incident: &Incident) -> Result<Shown, WantOfMemory>
        ensures { IfOk result (λ shown. shown ≡ shown_of_incident (board_in self.now) (Some incident.now)) }
    {
        let units = self.units.units_of(self.alloc, incident.number)?;
        let stand_by = self.units.stand_bys_of(self.alloc, incident.number)?;
        let incident = self.incidents.shown(incident, units)?;
        Ok(Shown::Incident {
            place: self.count,
            incident,
            stand_by,
        })
    }

    /// What is shown of the incident of an identifier.
    fn shown_incident(&self, id: &IncidentId) -> Result<Shown, WantOfMemory>
        ensures { IfOk result (λ shown. shown
            ≡ shown_of_incident (board_in self.now) (incident_of id.now self.now.incidents.incidents)) }
    {
        match self.incidents.incident(id) {
            Some(incident) => self.shown_with_units(incident),
            None => Ok(Shown::Absent {
                place: self.count,
                refusal: Refusal::IncidentUnknown,
            }),
        }
    }

    /// What is shown of the unit of a name.
    fn shown_of_unit(&self, name: &UnitName) -> Result<Shown, WantOfMemory>
        ensures { IfOk result (λ shown. shown
            ≡ shown_of_unit (board_in self.now) (unit_of name.now self.now.units.units)) }
    {
        let place = self.count;
        let Some(unit) = self.units.unit(name) else {
            return Ok(Shown::Absent {
                place,
                refusal: Refusal::UnitUnknown,
            });
        };
        Ok(Shown::Unit {
            place,
            unit: unit.name.copy()?,
            status: unit.status,
            incident: copy_id(committed_id(&self.incidents, &self.units, &unit.name))?,
            stand_by: copy_id(stand_by_id(&self.incidents, &self.units, &unit.name))?,
        })
    }

    /// What is shown of a subject.
    #[tactic(auto, unfolding(crate::specs::Shown::shown_on))]
    pub(crate) fn shown(&self, subject: &Subject) -> Result<Shown, WantOfMemory>
        ensures { IfOk result (λ shown. shown ≡ shown_on (board_in self.now) subject.now) }
    {
        match subject {
            Subject::Board => Ok(Shown::Board {
                place: self.count,
                incidents: self.incidents.count(),
                units: self.units.count(),
            }),
            Subject::Incident(id) => self.shown_incident(id),
            Subject::Unit(name) => self.shown_of_unit(name),
            Subject::List { state, from } => self.shown_of_list(*state, *from),
        }
    }
}
