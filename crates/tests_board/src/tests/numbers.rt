//! Incidents and units by themselves: what is known by the number of an incident, which no reply line tells.

use super::entry_of;
use desk_incidents::{Incidents, NewIncident};
use desk_types::limits::LOG_ENTRIES;
use desk_types::{Command, Domain, Entry, HashSeed, IncidentId, UnitName};
use desk_units::Units;
use std::alloc::Global;

const OWN: &str = "urn:emergency:uid:incidentid:000000000001:desk.example";

const HANDED_IN: &str = "urn:nena:uid:incidentid:x:other.example";

const NOT_THERE: &str = "urn:emergency:uid:incidentid:000000000003:desk.example";

// The members of two openings, at the places 1 and 2.
const FIRES: &[(u64, &str)] = &[
    (1, r#""do":"open","kind":"fire","where":"12 Elm St""#),
    (
        2,
        r#""do":"open","kind":"fire","where":"12 Elm St","incident":"urn:nena:uid:incidentid:x:other.example""#,
    ),
];

/// Opens what an entry opens. The number of the request stands for its place.
fn is_opened(incidents: &mut Incidents, domain: &Domain, entry: &Entry) -> bool {
    let place = entry.number.get().min(LOG_ENTRIES);
    match &entry.command {
        Command::Open {
            at,
            kind,
            site,
            incident,
            call,
        } => {
            let at = *at;
            let details = NewIncident {
                place,
                domain,
                at,
                kind,
                site,
            };
            incidents.open(&details, incident, call).is_ok()
        }
        _ => false,
    }
}

/// The same of a document with these members.
fn is_done(alloc: Global, incidents: &mut Incidents, number: u64, members: &str) -> Option<bool> {
    let domain = Domain::new(alloc, "Desk.Example").ok()?;
    let entry = entry_of(alloc, number, members)?;
    let is_opened = is_opened(incidents, &domain, &entry);
    drop(entry);
    Some(is_opened)
}

/// Two fires, of which the second has an identifier that was handed in.
fn two_fires(alloc: Global) -> Option<Incidents> {
    let mut incidents = Incidents::new(alloc, HashSeed::new(0));
    for (number, members) in FIRES {
        if is_done(alloc, &mut incidents, *number, members) != Some(true) {
            return None;
        }
    }
    Some(incidents)
}

/// The number of the incident of an identifier.
fn number_of(alloc: Global, incidents: &Incidents, text: &str) -> Option<u64> {
    let id = IncidentId::parse(alloc, text).ok()?;
    let incident = incidents.incident(&id)?;
    Some(incident.number)
}

/// Whether each identifier has its number, and no incident the number 3.
fn are_numbered(alloc: Global, incidents: &Incidents) -> bool {
    number_of(alloc, incidents, OWN) == Some(1)
        && number_of(alloc, incidents, HANDED_IN) == Some(2)
        && number_of(alloc, incidents, NOT_THERE) == None
        && incidents.by_number(2).is_some()
        && incidents.by_number(3).is_none()
}

#[test]
fn incidents_are_looked_up_by_their_numbers(rt: HostRuntime) {
    match two_fires(rt.alloc()) {
        Some(incidents) => {
            let are_numbered = are_numbered(rt.alloc(), &incidents);
            drop(incidents);
            assert!(rt; are_numbered);
        }
        None => assert!(rt; false, "no fires"),
    }
}

fn is_assigned(units: &mut Units, engine: &UnitName) -> bool {
    units.sign_on(engine).is_ok() && units.assign(engine, 1, None).is_ok()
}

/// Whether a unit that is assigned to the first incident is at the second alone, once that is merged into it. No
/// document can ask: what looks for units refuses a merged incident before.
fn goes_along(units: &mut Units, engine: &UnitName) -> bool {
    is_assigned(units, engine)
        && units.has_units(1)
        && units.merge(1, 2).is_ok()
        && !units.has_units(1)
        && units.commitment(engine) == Some(2)
}

#[test]
fn no_unit_is_at_a_merged_incident(rt: HostRuntime) {
    let mut units = Units::new(rt.alloc(), HashSeed::new(0));
    let goes_along = match UnitName::new(rt.alloc(), "E1") {
        Ok(engine) => goes_along(&mut units, &engine),
        Err(_) => false,
    };
    drop(units);
    assert!(rt; goes_along);
}
