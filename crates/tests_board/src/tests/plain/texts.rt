//! The members of a command, and the lines of its reply and of what is shown, without their newlines.

use super::super::line::Line;
use super::{Answer, Asked, HANDED_IN, Incident, Pair, PlainBoard, count_of, of};
use std::alloc::Global;

/// The words of the statuses, in their order.
const STATUSES: &[&str] = &[
    "available",
    "dispatched",
    "en_route",
    "on_scene",
    "transporting",
    "at_facility",
    "out_of_service",
];

/// The word of a status, by its number from 1.
pub(super) fn status_word(status: u64) -> &'static str {
    match STATUSES.get(status.saturating_sub(1) as usize) {
        Some(word) => word,
        None => "",
    }
}

impl Line {
    /// Puts the identifier of an incident after a text, and nothing where it is none.
    pub(super) fn put_incident(&mut self, before: &str, id: u64) {
        let _written = if id >= HANDED_IN {
            write!(
                self.text,
                "{before}\"urn:nena:uid:incidentid:i{id}:psap.example\""
            )
        } else if id > 0 {
            write!(
                self.text,
                "{before}\"urn:emergency:uid:incidentid:{id:012}:desk.example\""
            )
        } else {
            Ok(())
        };
    }

    /// Puts the identifier of a call after a text, and nothing where it is none.
    fn put_call(&mut self, before: &str, call: u64) {
        if call > 0 {
            let _written = write!(
                self.text,
                "{before}\"urn:nena:uid:callid:c{call}:psap.example\""
            );
        }
    }

    /// Puts the name of a unit after a text.
    pub(super) fn put_unit(&mut self, before: &str, unit: u64) {
        let _written = write!(self.text, "{before}\"E{unit}\"");
    }

    /// Puts the calls of an incident.
    fn put_calls(&mut self, calls: &[Pair], id: u64) {
        let mut before = "";
        for pair in calls {
            if pair.1 == id {
                self.put_call(before, pair.0);
                before = ",";
            }
        }
    }

    /// Puts the incidents that an incident is linked with.
    fn put_links(&mut self, links: &[Pair], id: u64) {
        let mut before = "";
        for pair in links {
            if pair.0 == id || pair.1 == id {
                self.put_incident(before, if pair.0 == id { pair.1 } else { pair.0 });
                before = ",";
            }
        }
    }

    /// Puts the units of an incident.
    fn put_units(&mut self, units: &[Pair], id: u64) {
        let mut before = "";
        for pair in units {
            if pair.1 == id {
                self.put_unit(before, pair.0);
                before = ",";
            }
        }
    }
}

impl Asked {
    /// The members of the document that asks for it, but its number and its time.
    pub(in crate::tests) fn members(&self, alloc: Global) -> Line {
        let mut line = Line::new(alloc);
        line.put_number("\"session\":", self.client);
        line.put_word(",\"do\":", self.verb);
        line.put_incident(",\"incident\":", self.incident);
        line.put_incident(",\"other\":", self.other);
        line.put_incident(",\"into\":", self.other);
        line.put_call(",\"call\":", self.call);
        line.put_unit(",\"unit\":", self.unit);
        line.put_word(",\"status\":", status_word(self.status));
        line.put_word(",\"kind\":", self.kind);
        line.put_number(",\"where\":\"", self.site);
        line.put_number(" Elm St\",\"text\":\"note ", self.unit);
        line.put_number("\",\"node\":", self.unit % 5);
        line.put_number(",\"token\":", self.call);
        line
    }
}

impl Answer {
    /// The reply line.
    pub(in crate::tests) fn line(&self, alloc: Global) -> Line {
        let mut line = Line::new(alloc);
        line.put_incident("\"incident\":", self.incident);
        line.put_number(
            if self.incident > 0 {
                ",\"number\":"
            } else {
                "\"number\":"
            },
            self.place,
        );
        if self.refusal == 0 {
            line.put_word(",\"ok\":", self.done);
        }
        line.put_number(",\"place\":", self.place);
        if self.refusal > 0 {
            line.put_number(",\"refusal\":", self.refusal);
        }
        line.put_number(",\"session\":", self.client);
        line
    }
}

/// What is shown: all of the board, an incident, a unit, or the incidents of a state, or of any where it is empty, from
/// a place on. Where that is 0 all of them are listed, and the units.
#[derive(Clone, Copy)]
pub(in crate::tests) enum Subject {
    Board,
    Incident(u64),
    Unit(u64),
    List { state: &'static str, from: u64 },
}

impl Subject {
    /// The word of the verb that asks for it.
    fn verb(self) -> &'static str {
        match self {
            Subject::List { .. } => "list",
            _ => "show",
        }
    }

    /// The members of the document that asks for it.
    pub(in crate::tests) fn members(self, alloc: Global) -> Line {
        let mut line = Line::new(alloc);
        line.put_word("\"do\":", self.verb());
        match self {
            Subject::Board => {}
            Subject::Incident(id) => line.put_incident(",\"incident\":", id),
            Subject::Unit(unit) => line.put_unit(",\"unit\":", unit),
            Subject::List { state, from } => line.put_listed(state, from),
        }
        line
    }
}

impl PlainBoard {
    fn put_counts(&self, line: &mut Line) {
        line.put_number("\"incidents\":", self.incidents.len() as u64);
        line.put_number(",\"ok\":\"board\",\"place\":", self.count);
        line.put_number(",\"session\":7,\"units\":", self.units.len() as u64);
    }

    fn put_absent(&self, line: &mut Line, refusal: u64) {
        line.put_number("\"place\":", self.count);
        line.put_number(",\"refusal\":", refusal);
        line.put(",\"session\":7");
    }

    /// The first members of an incident, up to its links.
    pub(super) fn put_front(&self, line: &mut Line, incident: &Incident) {
        line.put("\"calls\":[");
        line.put_calls(self.calls.as_slice(), incident.id);
        line.put_incident("],\"incident\":", incident.id);
        line.put_incident(",\"into\":", incident.into);
        line.put_word(",\"kind\":", incident.kind);
        line.put(",\"links\":[");
        line.put_links(self.links.as_slice(), incident.id);
        line.put("],\"note\":\"");
        if incident.note > 0 {
            line.put_number("note ", incident.note);
        }
    }

    /// Its last members, from the units that stand by for it.
    pub(super) fn put_back(&self, line: &mut Line, incident: &Incident) {
        if count_of(self.stand_bys.as_slice(), incident.id) > 0 {
            line.put("\"stand_by\":[");
            line.put_units(self.stand_bys.as_slice(), incident.id);
            line.put("],");
        }
        line.put_word("\"state\":", incident.state);
        line.put(",\"units\":[");
        line.put_units(self.committed.as_slice(), incident.id);
        line.put_number("],\"where\":\"", incident.site);
        line.put(" Elm St\"");
    }

    fn put_incident(&self, line: &mut Line, incident: &Incident) {
        self.put_front(line, incident);
        line.put_number(
            "\",\"ok\":\"incident\",\"opened\":1772366400,\"place\":",
            self.count,
        );
        line.put(",\"session\":7,");
        self.put_back(line, incident);
    }

    fn put_unit(&self, line: &mut Line, unit: u64, status: u64) {
        let committed = of(self.committed.as_slice(), unit);
        line.put_incident("\"incident\":", committed);
        line.put(if committed > 0 { "," } else { "" });
        line.put_number("\"ok\":\"unit\",\"place\":", self.count);
        line.put(",\"session\":7");
        line.put_incident(",\"stand_by\":", of(self.stand_bys.as_slice(), unit));
        line.put_word(",\"status\":", status_word(status));
        line.put_unit(",\"unit\":", unit);
    }

    /// The line that shows client 7 what the board has.
    pub(in crate::tests) fn shown(&self, alloc: Global, subject: Subject) -> Line {
        let mut line = Line::new(alloc);
        match subject {
            Subject::Board => self.put_counts(&mut line),
            Subject::Incident(id) => match self.incident(id) {
                Some(incident) => self.put_incident(&mut line, &incident),
                None => self.put_absent(&mut line, 10),
            },
            Subject::Unit(unit) => match of(self.units.as_slice(), unit) {
                0 => self.put_absent(&mut line, 20),
                status => self.put_unit(&mut line, unit, status),
            },
            Subject::List { state, from } => self.put_list(&mut line, state, from),
        }
        line
    }
}
