//! A list of incidents and units, written in a reply.

ghost use Rattle.std.specs.Prelude.{◌≡◌, IfOk, codes, map, option_map};
ghost use Rattle.desk_types.specs.declared.show.Shown.TheVariants as shows;
ghost use Rattle.desk_eido.specs.ReplyLine.{json_members, listed_incident_members, listed_unit_members};
ghost use Rattle.desk_eido.specs.ReplyLine.{optional_rows, shown_members};
ghost use Rattle.desk_eido.specs.Writing.{with_all};

use crate::reply_writer::{ReplyWriter, Row};
use crate::shown::{with_first_values, with_last_values, with_noted_values};
use crate::status::status_text;
use desk_types::{ClientId, Items, ListedIncident, ListedUnit, WantOfMemory};

impl Row for ListedIncident {
    ghost members = { listed_incident_members };

    fn with_members(&self, row: ReplyWriter) -> Result<ReplyWriter, WantOfMemory> {
        let incident = &self.incident;
        let row = with_noted_values(with_first_values(row, incident)?, incident)?;
        let row = row.seconds("opened", incident.opened)?;
        with_last_values(row, incident, self.stand_by.as_slice())
    }
}

impl Row for ListedUnit {
    ghost members = { listed_unit_members };

    fn with_members(&self, row: ReplyWriter) -> Result<ReplyWriter, WantOfMemory> {
        row.optional_incident("incident", &self.incident)?
            .optional_incident("stand_by", &self.stand_by)?
            .text("status", status_text(self.status))?
            .text("unit", self.unit.as_text())
    }
}

/// With the units of a list, where they are listed.
fn with_listed_units(
    reply: ReplyWriter,
    units: &Option<Items<ListedUnit>>,
) -> Result<ReplyWriter, WantOfMemory>
    ensures { IfOk result (λ w. w ≡ with_all
        (optional_rows (codes "units") (option_map (map (λ l. json_members (listed_unit_members l))) units.now))
        reply) }
{
    match units {
        Some(units) => reply.rows("units", units.as_slice()),
        None => Ok(reply),
    }
}

/// With the members that tell a list.
pub(crate) fn with_list(
    reply: ReplyWriter,
    client: ClientId,
    place: u64,
    incidents: &[ListedIncident],
    next: Option<u64>,
    units: &Option<Items<ListedUnit>>,
) -> Result<ReplyWriter, WantOfMemory>
    ensures { IfOk result (λ w.
        w ≡ with_all (shown_members client (shows.List place incidents.now next units.now)) reply) }
{
    let reply = reply
        .rows("incidents", incidents)?
        .optional_count("next", next)?
        .text("ok", "list")?
        .count("place", place)?
        .count("session", client.get())?;
    with_listed_units(reply, units)
}
