//! What has to hold before a command is done, and the refusal that is told where it does not.

use super::{Asked, HANDED_IN, PlainBoard, Refused, count_of, is_among, link_of, of};

/// A check of a command.
#[derive(Clone, Copy)]
pub(super) enum Check {
    /// The incident is there and not merged, or it is open too; and the same of the other one.
    Known,
    Open,
    OtherKnown,
    OtherOpen,
    /// The two are not one, are linked, or are not linked.
    Apart,
    Linked,
    NotLinked,
    /// An identifier that is handed in is not under the desk's domain, and no incident has it.
    HandedIn,
    Untaken,
    /// No incident has the call; the incident has it, and not alone; there is room for it, or for those of both.
    CallFree,
    CallHere,
    CallLeft,
    CallRoom,
    MergeRoom,
    /// The incident has no units, or is not open.
    NoUnits,
    NotOpen,
    /// The unit is signed on, or not; it is not committed, not out of service, or committed, and to another incident.
    SignedOn,
    NotSignedOn,
    Free,
    OnDuty,
    Committed,
    Elsewhere,
    /// It goes to the status; it stands by, or does not.
    Allowed,
    StandBy,
    NoStandBy,
}

/// The word of a verb, that of a reply which tells that it is done, and its checks in their order.
type Rule = (&'static str, &'static str, &'static [Check]);

const RULES: &[Rule] = &[
    (
        "open",
        "opened",
        &[Check::HandedIn, Check::Untaken, Check::CallFree],
    ),
    (
        "split",
        "split",
        &[Check::Open, Check::CallHere, Check::CallLeft],
    ),
    (
        "add_call",
        "call_added",
        &[Check::Open, Check::CallFree, Check::CallRoom],
    ),
    (
        "link",
        "linked",
        &[
            Check::Open,
            Check::OtherOpen,
            Check::Apart,
            Check::NotLinked,
        ],
    ),
    (
        "unlink",
        "unlinked",
        &[Check::Known, Check::OtherKnown, Check::Apart, Check::Linked],
    ),
    (
        "merge",
        "merged",
        &[
            Check::Open,
            Check::OtherOpen,
            Check::Apart,
            Check::MergeRoom,
        ],
    ),
    ("clear", "cleared", &[Check::Open, Check::NoUnits]),
    ("reopen", "reopened", &[Check::Known, Check::NotOpen]),
    ("note", "noted", &[Check::Known]),
    ("sign_on", "signed_on", &[Check::NotSignedOn]),
    ("sign_off", "signed_off", &[Check::SignedOn, Check::Free]),
    (
        "assign",
        "assigned",
        &[Check::SignedOn, Check::Open, Check::Free, Check::OnDuty],
    ),
    ("status", "status_set", &[Check::SignedOn, Check::Allowed]),
    ("release", "released", &[Check::SignedOn, Check::Committed]),
    (
        "stand_by",
        "standing_by",
        &[
            Check::SignedOn,
            Check::Open,
            Check::Committed,
            Check::Elsewhere,
            Check::NoStandBy,
        ],
    ),
    (
        "stand_down",
        "stood_down",
        &[Check::SignedOn, Check::StandBy],
    ),
    ("replace", "replaced", &[]),
];

/// The word of a reply which tells that a verb is done, and its checks.
pub(super) fn rule_of(verb: &str) -> (&'static str, &'static [Check]) {
    for rule in RULES {
        if rule.0 == verb {
            return (rule.1, rule.2);
        }
    }
    ("", &[])
}

/// What is told where something has to hold.
fn unless(holds: bool, refusal: u64) -> Refused {
    if holds { (0, 0) } else { (refusal, 0) }
}

/// What is told where a unit has to have no incident.
fn unless_at(incident: u64, refusal: u64) -> Refused {
    if incident == 0 {
        (0, 0)
    } else {
        (refusal, incident)
    }
}

/// What is told where a unit is to go from a status to another. Statuses are numbered from 1: the first and the last
/// are those of a unit that is not committed.
fn unless_allowed(old: u64, new: u64, is_committed: bool) -> Refused {
    let is_at_work = 1 < new && new < 7;
    if is_committed {
        return unless(is_at_work && old < new, 25);
    }
    if is_at_work {
        (24, 0)
    } else {
        unless(old != new, 25)
    }
}

impl PlainBoard {
    /// What is told where an incident has to be there and not merged, or open.
    fn unless_known(&self, id: u64, is_open: bool) -> Refused {
        match self.incident(id) {
            Some(incident) if incident.into > 0 => (12, incident.into),
            Some(incident) => unless(!is_open || incident.state == "open", 11),
            None => (10, 0),
        }
    }

    /// What a check of a command's incidents tells, or (0, 0).
    fn refusal(&self, check: Check, asked: &Asked) -> Refused {
        let (id, other) = (asked.incident, asked.other);
        match check {
            Check::Known => self.unless_known(id, false),
            Check::Open => self.unless_known(id, true),
            Check::OtherKnown => self.unless_known(other, false),
            Check::OtherOpen => self.unless_known(other, true),
            Check::Apart => unless(id != other, 15),
            Check::Linked => unless(is_among(self.links.as_slice(), link_of(id, other)), 19),
            Check::NotLinked => unless(!is_among(self.links.as_slice(), link_of(id, other)), 18),
            Check::HandedIn => unless(id == 0 || id >= HANDED_IN, 14),
            Check::Untaken => unless(self.incident(id).is_none(), 13),
            Check::NotOpen => unless(self.unless_known(id, true) == (11, 0), 28),
            _ => self.refusal_of_call(check, asked),
        }
    }

    /// The same of its call, and of what an incident has.
    fn refusal_of_call(&self, check: Check, asked: &Asked) -> Refused {
        let (id, calls) = (asked.incident, self.calls.as_slice());
        let count = count_of(calls, id);
        match check {
            Check::CallFree => unless(of(calls, asked.call) == 0, 16),
            Check::CallHere => unless(of(calls, asked.call) == id, 17),
            Check::CallLeft => unless(count > 1, 29),
            Check::CallRoom => unless(count < 16, 27),
            Check::MergeRoom => unless(
                count.saturating_add(count_of(calls, asked.other)) <= 16,
                27,
            ),
            Check::NoUnits => unless(
                count_of(self.committed.as_slice(), id) == 0
                    && count_of(self.stand_bys.as_slice(), id) == 0,
                26,
            ),
            _ => self.refusal_of_unit(check, asked),
        }
    }

    /// The same of its unit.
    fn refusal_of_unit(&self, check: Check, asked: &Asked) -> Refused {
        let status = of(self.units.as_slice(), asked.unit);
        let committed = of(self.committed.as_slice(), asked.unit);
        let stand_by = of(self.stand_bys.as_slice(), asked.unit);
        match check {
            Check::SignedOn => unless(status > 0, 20),
            Check::NotSignedOn => unless(status == 0, 21),
            Check::Free => unless_at(committed, 23),
            Check::OnDuty => unless(status < 7, 22),
            Check::Committed => unless(committed > 0, 24),
            Check::Elsewhere => unless(committed != asked.incident, 15),
            Check::Allowed => unless_allowed(status, asked.status, committed > 0),
            Check::StandBy => unless(stand_by > 0, 37),
            _ => unless_at(stand_by, 36),
        }
    }

    /// What the first check tells that does not hold, or (0, 0).
    pub(super) fn first_refusal(&self, asked: &Asked, checks: &[Check]) -> Refused {
        for check in checks {
            let refused = self.refusal(*check, asked);
            if refused.0 > 0 {
                return refused;
            }
        }
        (0, 0)
    }
}
