//! Listing a board.

ghost use Rattle.std.specs.Prelude.{◌≡◌, ◌↔◌, ℕ, List, IfOk, IsTrue, length, map, None};
ghost use Rattle.std.specs.Option.{option_map};
ghost use Rattle.desk_board.specs.BoardValue.{empty_board};
ghost use Rattle.desk_board.specs.Listed.{has_state, is_in_list, listed_incident, listed_part};
ghost use Rattle.desk_board.specs.Listed.{listed_unit, listed_units};
ghost use Rattle.desk_board.specs.Shown.{shown_of_list};
ghost use Rattle.desk_board.specs.Tables.{board_in};

use crate::tables::Tables;
use crate::unit_verbs::{committed_id, stand_by_id};
use desk_incidents::Incident;
use desk_types::limits::LIST_INCIDENTS;
use desk_types::{
    IncidentId, IncidentState, Items, ListedIncident, ListedState, ListedUnit, Shown, WantOfMemory,
};
use desk_units::Unit;
use std::alloc::Global;

/// The first incidents of a list, and the place at which the first was opened that it has no room for.
#[derive(Drop)]
pub(crate) struct ListedPart {
    incidents: Items<ListedIncident>,
    next: Option<u64>,
}

/// An equal identifier, where there is one.
pub(crate) fn copy_id(id: Option<&IncidentId>) -> Result<Option<IncidentId>, WantOfMemory>
    ensures { IfOk result (λ copy. copy ≡ option_map (λ i. i.now) id.entry) }
{
    match id {
        None => Ok(None),
        Some(id) => Ok(Some(id.copy()?)),
    }
}

/// Whether a state is asked for.
fn has_state(asked: ListedState, state: &IncidentState) -> bool
    ensures { result ≡ has_state asked state.now }
{
    match asked {
        ListedState::Any => true,
        ListedState::Open => matches!(state, IncidentState::Open),
        ListedState::Cleared => matches!(state, IncidentState::Cleared),
        ListedState::Merged => matches!(state, IncidentState::Merged { .. }),
    }
}

/// Whether an incident is listed.
fn is_in_list(asked: ListedState, from: Option<u64>, incident: &Incident) -> bool
    ensures { result ≡ is_in_list asked from incident.now }
{
    from.unwrap_or(0) <= incident.number && has_state(asked, &incident.state)
}

/// Whether a list has no room for more incidents.
fn is_full(incidents: &Items<ListedIncident>) -> bool
    ensures { IsTrue result ↔ (length incidents.now ≡ LIST_INCIDENTS) }
{
    incidents.as_slice().len() == LIST_INCIDENTS
}

/// What is listed before the first entry.
pub(crate) fn listed_before_entries(alloc: Global, asked: ListedState, from: Option<u64>) -> Shown
    ensures { (domain : List ℕ) → result ≡ shown_of_list (empty_board domain) asked from }
{
    Shown::List {
        place: 0,
        incidents: Items::new(alloc),
        next: None,
        units: match from {
            None => Some(Items::new(alloc)),
            Some(_) => None,
        },
    }
}

impl Tables {
    /// An incident with the units that are committed to it and those that stand by for it.
    fn listed_incident(&self, incident: &Incident) -> Result<ListedIncident, WantOfMemory>
        ensures { IfOk result (λ listed. listed ≡ listed_incident (board_in self.now) incident.now) }
    {
        let units = self.units.units_of(self.alloc, incident.number)?;
        let stand_by = self.units.stand_bys_of(self.alloc, incident.number)?;
        let incident = self.incidents.shown(incident, units)?;
        Ok(ListedIncident { incident, stand_by })
    }

    /// A unit with the identifiers of the incidents that it is committed to and stands by for.
    fn listed_unit(&self, unit: &Unit) -> Result<ListedUnit, WantOfMemory>
        ensures { IfOk result (λ listed. listed ≡ listed_unit (board_in self.now) unit.now) }
    {
        Ok(ListedUnit {
            unit: unit.name.copy()?,
            status: unit.status,
            incident: copy_id(committed_id(&self.incidents, &self.units, &unit.name))?,
            stand_by: copy_id(stand_by_id(&self.incidents, &self.units, &unit.name))?,
        })
    }

    /// The first of the incidents that are listed, as many as a list has room for.
    fn part(&self, asked: ListedState, from: Option<u64>) -> Result<ListedPart, WantOfMemory>
        ensures { IfOk result (λ part. part ≡ listed_part (board_in self.now) asked from) }
    {
        let mut incidents = Items::new(self.alloc);
        for incident in self.incidents.as_slice() {
            if is_in_list(asked, from, incident) {
                if is_full(&incidents) {
                    let next = Some(incident.number);
                    return Ok(ListedPart { incidents, next });
                }
                incidents.push(self.listed_incident(incident)?)?;
            }
        }
        Ok(ListedPart {
            incidents,
            next: None,
        })
    }

    /// The units in the order of their signing on.
    fn all_units(&self) -> Result<Items<ListedUnit>, WantOfMemory>
        ensures { IfOk result (λ all. all ≡ map (listed_unit (board_in self.now)) self.now.units.units) }
    {
        let mut all = Items::new(self.alloc);
        for slot in self.units.slots() {
            if let Some(unit) = slot {
                all.push(self.listed_unit(unit)?)?;
            }
        }
        Ok(all)
    }

    /// The units, unless incidents are listed from a place on.
    fn listed_units(&self, from: Option<u64>) -> Result<Option<Items<ListedUnit>>, WantOfMemory>
        ensures { IfOk result (λ units. units ≡ listed_units (board_in self.now) from) }
    {
        match from {
            None => Ok(Some(self.all_units()?)),
            Some(_) => Ok(None),
        }
    }

    /// What is shown of a list.
    pub(crate) fn shown_of_list(
        &self,
        asked: ListedState,
        from: Option<u64>,
    ) -> Result<Shown, WantOfMemory>
        ensures { IfOk result (λ shown. shown ≡ shown_of_list (board_in self.now) asked from) }
    {
        let ListedPart { incidents, next } = self.part(asked, from)?;
        Ok(Shown::List {
            place: self.count,
            incidents,
            next,
            units: self.listed_units(from)?,
        })
    }
}
