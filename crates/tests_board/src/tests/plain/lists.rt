//! The members of a list, and of the document that asks for it.

use super::super::line::Line;
use super::texts::status_word;
use super::{Incident, Pair, PlainBoard, of};

/// How many incidents a list has at most.
const MOST: u64 = 1_024;

impl Line {
    /// Puts the members that say what is listed.
    pub(super) fn put_listed(&mut self, state: &str, from: u64) {
        if !state.is_empty() {
            self.put_word(",\"state\":", state);
        }
        if from > 0 {
            self.put_number(",\"from\":", from);
        }
    }
}

/// Whether an incident is of a state, or of any where that is empty, and was opened at a place or later.
fn is_listed(incident: &Incident, state: &str, from: u64) -> bool {
    incident.place >= from && (state.is_empty() || incident.state == state)
}

impl PlainBoard {
    fn put_listed_incident(&self, line: &mut Line, before: &str, incident: &Incident) {
        line.put(before);
        self.put_front(line, incident);
        line.put("\",\"opened\":1772366400,");
        self.put_back(line, incident);
        line.put("}");
    }

    /// Puts the incidents of a list, and gives the place of the first that it has no room for, or 0.
    fn put_listed_incidents(&self, line: &mut Line, state: &str, from: u64) -> u64 {
        let mut count = 0u64;
        for incident in &self.incidents {
            if is_listed(incident, state, from) {
                if count == MOST {
                    return incident.place;
                }
                self.put_listed_incident(line, if count > 0 { ",{" } else { "{" }, incident);
                count = count.saturating_add(1);
            }
        }
        0
    }

    fn put_listed_unit(&self, line: &mut Line, before: &str, unit: Pair) {
        line.put(before);
        let committed = of(self.committed.as_slice(), unit.0);
        line.put_incident("\"incident\":", committed);
        line.put(if committed > 0 { "," } else { "" });
        let stand_by = of(self.stand_bys.as_slice(), unit.0);
        line.put_incident("\"stand_by\":", stand_by);
        line.put(if stand_by > 0 { "," } else { "" });
        line.put_word("\"status\":", status_word(unit.1));
        line.put_unit(",\"unit\":", unit.0);
        line.put("}");
    }

    fn put_listed_units(&self, line: &mut Line) {
        let mut before = "{";
        for unit in &self.units {
            self.put_listed_unit(line, before, *unit);
            before = ",{";
        }
    }

    /// Puts the members that list incidents of a state, or of any where it is empty, from a place on, or all where it
    /// is 0, and the units.
    pub(super) fn put_list(&self, line: &mut Line, state: &str, from: u64) {
        line.put("\"incidents\":[");
        let next = self.put_listed_incidents(line, state, from);
        line.put("]");
        if next > 0 {
            line.put_number(",\"next\":", next);
        }
        line.put_number(",\"ok\":\"list\",\"place\":", self.count);
        line.put(",\"session\":7");
        if from == 0 {
            line.put(",\"units\":[");
            self.put_listed_units(line);
            line.put("]");
        }
    }
}
