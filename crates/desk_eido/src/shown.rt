//! What a show is shown, written in a reply.

ghost use Rattle.std.specs.Prelude.{◌≡◌, [], IfOk, codes, unwrap_or};
ghost use Rattle.desk_types.specs.declared.show.Shown.TheVariants as shows;
ghost use Rattle.desk_eido.specs.ReplyLine.{merged_into, incident_members, shown_members, state_text, optional_texts};
ghost use Rattle.desk_eido.specs.ReplyLine.{first_values, noted_values, place_values, last_values};
ghost use Rattle.desk_eido.specs.Writing.{with_optional, with_all};

use crate::listed::with_list;
use crate::reply::{with_first_details, with_last_details, with_refusal};
use crate::reply_writer::ReplyWriter;
use crate::status::status_text;
use desk_types::{
    ClientId, IncidentId, IncidentState, NoteText, Refusal, Shown, ShownIncident, Status, UnitName,
    WantOfMemory,
};

/// The word that tells an incident's state.
fn state_text(state: &IncidentState) -> &'static str
    ensures { result.now ≡ state_text state.now }
{
    match state {
        IncidentState::Open => "open",
        IncidentState::Cleared => "cleared",
        IncidentState::Merged { .. } => "merged",
    }
}

/// The note, empty where there is none.
fn note_text(note: &Option<NoteText>) -> &str
    ensures { result.now ≡ unwrap_or note.now [] }
{
    match note {
        Some(note) => note.as_str(),
        None => "",
    }
}

/// With the incident that an incident was merged into.
fn with_into(reply: ReplyWriter, state: &IncidentState) -> Result<ReplyWriter, WantOfMemory>
    ensures { IfOk result (λ w. w ≡ with_optional (codes "into") (merged_into state.now) reply) }
{
    match state {
        IncidentState::Merged { into } => reply.text("into", into.as_text()),
        IncidentState::Open | IncidentState::Cleared => Ok(reply),
    }
}

/// With the units that stand by for an incident, where there are any.
fn with_stand_by(reply: ReplyWriter, stand_by: &[UnitName]) -> Result<ReplyWriter, WantOfMemory>
    ensures { IfOk result (λ w. w ≡ with_all (optional_texts (codes "stand_by") stand_by.now) reply) }
{
    if stand_by.is_empty() {
        return Ok(reply);
    }
    reply.texts("stand_by", stand_by)
}

/// With the members that tell the board as a whole.
fn with_board(
    reply: ReplyWriter,
    client: ClientId,
    place: u64,
    incidents: u64,
    units: u64,
) -> Result<ReplyWriter, WantOfMemory>
    ensures { IfOk result (λ w. w ≡ with_all (shown_members client (shows.Board place incidents units)) reply) }
{
    reply
        .count("incidents", incidents)?
        .text("ok", "board")?
        .count("place", place)?
        .count("session", client.get())?
        .count("units", units)
}

/// With what tells an incident up to what it was merged into.
pub(crate) fn with_first_values(
    reply: ReplyWriter,
    incident: &ShownIncident,
) -> Result<ReplyWriter, WantOfMemory>
    ensures { IfOk result (λ w. w ≡ with_all (first_values incident.now) reply) }
{
    let reply = reply
        .texts("calls", incident.calls.as_slice())?
        .text("incident", incident.id.as_text())?;
    with_into(reply, &incident.state)
}

/// With what tells it up to its note.
pub(crate) fn with_noted_values(
    reply: ReplyWriter,
    incident: &ShownIncident,
) -> Result<ReplyWriter, WantOfMemory>
    ensures { IfOk result (λ w. w ≡ with_all (noted_values incident.now) reply) }
{
    reply
        .text("kind", incident.kind.as_str())?
        .texts("links", incident.links.as_slice())?
        .text("note", note_text(&incident.note))
}

/// With what tells it up to the client whom it is shown at a place.
fn with_place_values(
    reply: ReplyWriter,
    client: ClientId,
    place: u64,
    incident: &ShownIncident,
) -> Result<ReplyWriter, WantOfMemory>
    ensures { IfOk result (λ w. w ≡ with_all (place_values client place incident.now) reply) }
{
    reply
        .text("ok", "incident")?
        .seconds("opened", incident.opened)?
        .count("place", place)?
        .count("session", client.get())
}

/// With what tells it from the units on that stand by for it.
pub(crate) fn with_last_values(
    reply: ReplyWriter,
    incident: &ShownIncident,
    stand_by: &[UnitName],
) -> Result<ReplyWriter, WantOfMemory>
    ensures { IfOk result (λ w. w ≡ with_all (last_values incident.now stand_by.now) reply) }
{
    with_stand_by(reply, stand_by)?
        .text("state", state_text(&incident.state))?
        .texts("units", incident.units.as_slice())?
        .text("where", incident.site.as_str())
}

/// With the members that tell an incident.
fn with_incident(
    reply: ReplyWriter,
    client: ClientId,
    place: u64,
    incident: &ShownIncident,
    stand_by: &[UnitName],
) -> Result<ReplyWriter, WantOfMemory>
    ensures { IfOk result (λ w. w ≡ with_all (incident_members client place incident.now stand_by.now) reply) }
{
    let reply = with_noted_values(with_first_values(reply, incident)?, incident)?;
    let reply = with_place_values(reply, client, place, incident)?;
    with_last_values(reply, incident, stand_by)
}

/// With the members that tell a unit.
fn with_unit(
    reply: ReplyWriter,
    client: ClientId,
    place: u64,
    unit: &UnitName,
    status: Status,
    incident: &Option<IncidentId>,
    stand_by: &Option<IncidentId>,
) -> Result<ReplyWriter, WantOfMemory>
    ensures { IfOk result (λ w. w
        ≡ with_all (shown_members client (shows.Unit place unit.now status incident.now stand_by.now)) reply) }
{
    reply
        .optional_incident("incident", incident)?
        .text("ok", "unit")?
        .count("place", place)?
        .count("session", client.get())?
        .optional_incident("stand_by", stand_by)?
        .text("status", status_text(status))?
        .text("unit", unit.as_text())
}

/// With the members that tell why nothing is shown.
fn with_absent(
    reply: ReplyWriter,
    client: ClientId,
    place: u64,
    refusal: &Refusal,
) -> Result<ReplyWriter, WantOfMemory>
    ensures { IfOk result (λ w. w ≡ with_all (shown_members client (shows.Absent place refusal.now)) reply) }
{
    let reply = with_first_details(reply, refusal)?.count("place", place)?;
    let reply = with_refusal(reply, refusal)?.count("session", client.get())?;
    with_last_details(reply, refusal)
}

/// With the members that tell what is shown.
pub(crate) fn with_shown(
    reply: ReplyWriter,
    client: ClientId,
    shown: &Shown,
) -> Result<ReplyWriter, WantOfMemory>
    ensures { IfOk result (λ w. w ≡ with_all (shown_members client shown.now) reply) }
{
    match shown {
        Shown::Board {
            place,
            incidents,
            units,
        } => with_board(reply, client, *place, *incidents, *units),
        Shown::Incident {
            place,
            incident,
            stand_by,
        } => with_incident(reply, client, *place, incident, stand_by.as_slice()),
        Shown::Unit {
            place,
            unit,
            status,
            incident,
            stand_by,
        } => with_unit(reply, client, *place, unit, *status, incident, stand_by),
        Shown::List {
            place,
            incidents,
            next,
            units,
        } => with_list(reply, client, *place, incidents.as_slice(), *next, units),
        Shown::Absent { place, refusal } => with_absent(reply, client, *place, refusal),
    }
}
