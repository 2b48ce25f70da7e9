//! What a command does once its checks hold.

use super::{Asked, Incident, Pair, PlainBoard, is_among, link_of, of};

fn push(pairs: &mut Vec<Pair>, what: u64, incident: u64) {
    let _pushed = pairs.push((what, incident));
}

/// Gives each pair of a call or a unit this second number.
fn set(pairs: &mut Vec<Pair>, what: u64, second: u64) {
    for pair in pairs.iter_mut() {
        if pair.0 == what {
            pair.1 = second;
        }
    }
}

/// Takes the pairs of a unit out.
fn take(pairs: &mut Vec<Pair>, what: u64) {
    pairs.retain(|pair| pair.0 != what);
}

/// The number that stands in the place of another after a merge.
fn moved(from: u64, to: u64, number: u64) -> u64 {
    if number == from { to } else { number }
}

/// Puts an incident in the place of another in each pair.
fn move_pairs(pairs: &mut Vec<Pair>, from: u64, to: u64) {
    for pair in pairs.iter_mut() {
        pair.1 = moved(from, to, pair.1);
    }
}

/// Puts an incident in the place of another in each link.
fn move_links(links: &mut Vec<Pair>, from: u64, to: u64) {
    for pair in links.iter_mut() {
        *pair = link_of(moved(from, to, pair.0), moved(from, to, pair.1));
    }
}

impl PlainBoard {
    /// Puts an incident last, and gives its number.
    fn open(&mut self, id: u64, asked: &Asked) -> u64 {
        let _pushed = self.incidents.push(Incident {
            id,
            place: self.count,
            kind: asked.kind,
            site: asked.site,
            note: 0,
            state: "open",
            into: 0,
        });
        id
    }

    /// Gives an incident a state, and the incident that it was merged into, or 0.
    fn set_state(&mut self, id: u64, state: &'static str, into: u64) {
        for incident in self.incidents.iter_mut() {
            if incident.id == id {
                incident.state = state;
                incident.into = into;
            }
        }
    }

    fn set_note(&mut self, id: u64, note: u64) {
        for incident in self.incidents.iter_mut() {
            if incident.id == id {
                incident.note = note;
            }
        }
    }

    fn unlink(&mut self, link: Pair) {
        self.links.retain(|other| *other != link);
    }

    /// The links of which none is of an incident with itself; of equal ones the first is left.
    fn links_once(&self) -> Vec<Pair> {
        let mut links: Vec<Pair> = Vec::new(self.alloc);
        for pair in &self.links {
            if pair.0 != pair.1 && !is_among(links.as_slice(), *pair) {
                push(&mut links, pair.0, pair.1);
            }
        }
        links
    }

    /// Takes out the units that stand by for the incident that they are committed to.
    fn stand_by_elsewhere(&mut self) {
        let committed = self.committed.as_slice();
        self.stand_bys
            .retain(|pair| of(committed, pair.0) != pair.1);
    }

    fn merge(&mut self, from: u64, to: u64) {
        move_pairs(&mut self.calls, from, to);
        move_pairs(&mut self.committed, from, to);
        move_pairs(&mut self.stand_bys, from, to);
        self.stand_by_elsewhere();
        move_links(&mut self.links, from, to);
        self.links = self.links_once();
        self.set_state(from, "merged", to);
    }

    /// Commits a unit to an incident, or to none where that is 0.
    fn commit(&mut self, unit: u64, id: u64) {
        take(&mut self.committed, unit);
        if id > 0 {
            push(&mut self.committed, unit, id);
        }
        set(&mut self.units, unit, if id > 0 { 2 } else { 1 });
    }

    /// A unit goes on to the incident that it stands by for, if there is one.
    fn release(&mut self, unit: u64) {
        let next = of(self.stand_bys.as_slice(), unit);
        take(&mut self.stand_bys, unit);
        self.commit(unit, next);
    }

    /// Does what a command on units asks for.
    fn change_unit(&mut self, asked: &Asked) {
        match asked.verb {
            "sign_on" => push(&mut self.units, asked.unit, 1),
            "sign_off" => take(&mut self.units, asked.unit),
            "assign" => self.commit(asked.unit, asked.incident),
            "status" => set(&mut self.units, asked.unit, asked.status),
            "release" => self.release(asked.unit),
            "stand_by" => push(&mut self.stand_bys, asked.unit, asked.incident),
            _ => take(&mut self.stand_bys, asked.unit),
        }
    }

    /// Does what a command asks for that opens nothing.
    fn change(&mut self, asked: &Asked) {
        match asked.verb {
            "add_call" => push(&mut self.calls, asked.call, asked.incident),
            "link" => {
                let link = link_of(asked.incident, asked.other);
                push(&mut self.links, link.0, link.1);
            }
            "unlink" => self.unlink(link_of(asked.incident, asked.other)),
            "merge" => self.merge(asked.incident, asked.other),
            "clear" => self.set_state(asked.incident, "cleared", 0),
            "reopen" => self.set_state(asked.incident, "open", 0),
            "note" => self.set_note(asked.incident, asked.unit),
            "replace" => {}
            _ => self.change_unit(asked),
        }
    }

    /// Does what a command asks for, and gives the incident that it opens, or 0.
    pub(super) fn perform(&mut self, asked: &Asked) -> u64 {
        match asked.verb {
            "open" => {
                let id = if asked.incident > 0 {
                    asked.incident
                } else {
                    self.count
                };
                if asked.call > 0 {
                    push(&mut self.calls, asked.call, id);
                }
                self.open(id, asked)
            }
            "split" => {
                set(&mut self.calls, asked.call, self.count);
                self.open(self.count, asked)
            }
            _ => {
                self.change(asked);
                0
            }
        }
    }
}
