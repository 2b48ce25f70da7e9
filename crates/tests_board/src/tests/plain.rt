//! A board of plain lists of numbers, each of which is walked: what the board with its indexes is compared with. It
//! shares no code with that, and writes its lines by itself.

mod changes;
mod lists;
mod rules;
mod texts;

use rules::rule_of;
use std::alloc::Global;
pub(super) use texts::Subject;

/// What names an incident: its place where the desk named it, and from this number on one that was handed in.
pub(super) const HANDED_IN: u64 = 100_000;

/// A call, a unit or an incident, and the incident that it belongs to; or a unit and its status.
type Pair = (u64, u64);

/// What a refusal tells: its number, and an incident, or 0.
type Refused = (u64, u64);

/// What a command asks for, whatever its verb looks at. An incident or a call of number 0 is none.
#[derive(Clone, Copy)]
pub(super) struct Asked {
    pub(super) client: u64,
    /// The word of the verb.
    pub(super) verb: &'static str,
    pub(super) incident: u64,
    pub(super) other: u64,
    pub(super) call: u64,
    pub(super) unit: u64,
    /// A status, of those of a unit that is signed on, from 1.
    pub(super) status: u64,
    pub(super) kind: &'static str,
    pub(super) site: u64,
}

/// The reply to a command. Its refusal is 0 where it is done, and its incident 0 where it tells none.
#[derive(Clone, Copy)]
pub(super) struct Answer {
    client: u64,
    pub(super) place: u64,
    done: &'static str,
    refusal: u64,
    pub(super) incident: u64,
}

/// An incident. Its note is a number, or 0, and so is the incident that it was merged into.
#[derive(Clone, Copy)]
struct Incident {
    id: u64,
    /// The place at which it was opened.
    place: u64,
    kind: &'static str,
    site: u64,
    note: u64,
    state: &'static str,
    into: u64,
}

/// The lists of a board, the replies to all commands, and how many these are.
#[derive(Drop)]
pub(super) struct PlainBoard {
    alloc: Global,
    incidents: Vec<Incident>,
    calls: Vec<Pair>,
    links: Vec<Pair>,
    /// With the number of its status.
    units: Vec<Pair>,
    committed: Vec<Pair>,
    stand_bys: Vec<Pair>,
    answers: Vec<Answer>,
    count: u64,
}

/// The second number of the first pair with this call or unit, or 0.
fn of(pairs: &[Pair], what: u64) -> u64 {
    for pair in pairs {
        if pair.0 == what {
            return pair.1;
        }
    }
    0
}

/// How many of some pairs are of an incident.
fn count_of(pairs: &[Pair], incident: u64) -> u64 {
    let mut count = 0u64;
    for pair in pairs {
        if pair.1 == incident {
            count = count.saturating_add(1);
        }
    }
    count
}

/// Whether a pair is one of these.
fn is_among(pairs: &[Pair], wanted: Pair) -> bool {
    for pair in pairs {
        if *pair == wanted {
            return true;
        }
    }
    false
}

/// The link of two incidents, the smaller number first.
fn link_of(one: u64, other: u64) -> Pair {
    (one.min(other), one.max(other))
}

impl PlainBoard {
    /// The board before the first entry.
    pub(super) fn new(alloc: Global) -> PlainBoard {
        PlainBoard {
            alloc,
            incidents: Vec::new(alloc),
            calls: Vec::new(alloc),
            links: Vec::new(alloc),
            units: Vec::new(alloc),
            committed: Vec::new(alloc),
            stand_bys: Vec::new(alloc),
            answers: Vec::new(alloc),
            count: 0,
        }
    }

    /// The incident of a number.
    fn incident(&self, id: u64) -> Option<Incident> {
        for incident in &self.incidents {
            if incident.id == id {
                return Some(*incident);
            }
        }
        None
    }

    /// The reply to a command at the next place, which it keeps.
    pub(super) fn answer(&mut self, asked: &Asked) -> Answer {
        self.count = self.count.saturating_add(1);
        let (done, checks) = rule_of(asked.verb);
        let mut reported = self.first_refusal(asked, checks);
        if reported.0 == 0 {
            reported.1 = self.perform(asked);
        }
        let answer = Answer {
            client: asked.client,
            place: self.count,
            done,
            refusal: reported.0,
            incident: reported.1,
        };
        let _pushed = self.answers.push(answer);
        answer
    }

    /// The latest reply to a client.
    pub(super) fn latest(&self, client: u64) -> Option<Answer> {
        let mut latest = None;
        for answer in &self.answers {
            if answer.client == client {
                latest = Some(*answer);
            }
        }
        latest
    }

    /// One of the incidents that opened last: the last of them, or one so many before it.
    pub(super) fn recent_incident(&self, before: usize) -> Option<u64> {
        let last = self.incidents.len().checked_sub(1)?;
        let incident = self.incidents.get(last.saturating_sub(before))?;
        Some(incident.id)
    }

    /// One of the calls that came last, with its incident.
    pub(super) fn recent_call(&self, before: usize) -> Option<(u64, u64)> {
        let last = self.calls.len().checked_sub(1)?;
        let pair = self.calls.get(last.saturating_sub(before))?;
        Some(*pair)
    }
}
