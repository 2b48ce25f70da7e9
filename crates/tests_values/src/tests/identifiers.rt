//! Identifiers of incidents and of calls, domains, and names of units.

use desk_types::limits::{LOG_ENTRIES, UNIQUE_BYTES};
use desk_types::{CallId, Domain, HashSeed, IncidentId, Member, Refusal, UnitName};
use std::alloc::Global;
use std::hash::{BuildHasher, Hasher};

// What a text is read as.
#[derive(Clone, Copy)]
enum Kind {
    Incident,
    Call,
    Domain,
    Unit,
}

// Texts, and the canonical text of what each spells; none where it spells nothing of the kind.
const ROWS: &[(Kind, &str, &str)] = &[
    (
        Kind::Incident,
        "urn:emergency:uid:incidentid:x:a.example",
        "urn:emergency:uid:incidentid:x:a.example",
    ),
    (
        Kind::Incident,
        "URN:Emergency:uid:incidentid:000000000009:DESK.example",
        "urn:emergency:uid:incidentid:000000000009:desk.example",
    ),
    (
        Kind::Incident,
        "uRn:NENA:uid:incidentid:A-b_c.D:a-1.EXAMPLE",
        "urn:nena:uid:incidentid:A-b_c.D:a-1.example",
    ),
    (
        Kind::Incident,
        "urn:emergency:uid:incidentid:aaaaaaaaaaaaaaaaaaaaaaaaaaaaaaaaaaaaaaaaaaaaaaaaaaaaaaaaaaaaaaaa:x.example",
        "urn:emergency:uid:incidentid:aaaaaaaaaaaaaaaaaaaaaaaaaaaaaaaaaaaaaaaaaaaaaaaaaaaaaaaaaaaaaaaa:x.example",
    ),
    (Kind::Incident, "", ""),
    (Kind::Incident, "urn", ""),
    (Kind::Incident, "urn:emergency:uid:incidentid:x", ""),
    (Kind::Incident, "urn:emergency:uid:callid:x:a.example", ""),
    (
        Kind::Incident,
        "urn:emergency:UID:incidentid:x:a.example",
        "",
    ),
    (
        Kind::Incident,
        "urn:emergency:uid:IncidentId:x:a.example",
        "",
    ),
    (Kind::Incident, "urn:police:uid:incidentid:x:a.example", ""),
    (
        Kind::Incident,
        "url:emergency:uid:incidentid:x:a.example",
        "",
    ),
    (
        Kind::Incident,
        "urn:emergency:uid:incidentid::a.example",
        "",
    ),
    (
        Kind::Incident,
        "urn:emergency:uid:incidentid:x y:a.example",
        "",
    ),
    (Kind::Incident, "urn:emergency:uid:incidentid:x:", ""),
    (
        Kind::Incident,
        "urn:emergency:uid:incidentid:x:.example",
        "",
    ),
    (
        Kind::Incident,
        "urn:emergency:uid:incidentid:x:a..example",
        "",
    ),
    (
        Kind::Incident,
        "urn:emergency:uid:incidentid:x:example.",
        "",
    ),
    (
        Kind::Incident,
        "urn:emergency:uid:incidentid:x:a_b.example",
        "",
    ),
    (
        Kind::Incident,
        "urn:emergency:uid:incidentid:x:a.example:80",
        "",
    ),
    (
        Kind::Incident,
        " urn:emergency:uid:incidentid:x:a.example",
        "",
    ),
    (
        Kind::Incident,
        "urn:emergency:uid:incidentid:aaaaaaaaaaaaaaaaaaaaaaaaaaaaaaaaaaaaaaaaaaaaaaaaaaaaaaaaaaaaaaaaa:x.example",
        "",
    ),
    (
        Kind::Call,
        "URN:emergency:uid:callid:c1:X.example",
        "urn:emergency:uid:callid:c1:x.example",
    ),
    (Kind::Call, "urn:emergency:uid:incidentid:c1:x.example", ""),
    (Kind::Domain, "a", "a"),
    (Kind::Domain, "A-9.b", "a-9.b"),
    (Kind::Domain, "Desk.Example", "desk.example"),
    (Kind::Domain, "", ""),
    (Kind::Domain, ".", ""),
    (Kind::Domain, "a..b", ""),
    (Kind::Domain, ".a", ""),
    (Kind::Domain, "a.", ""),
    (Kind::Domain, "a_b", ""),
    (Kind::Domain, "a b", ""),
    (Kind::Unit, "E1", "E1"),
    (Kind::Unit, "Engine-1_b", "Engine-1_b"),
    (
        Kind::Unit,
        "abcdefghijklmnopqrstuvwx",
        "abcdefghijklmnopqrstuvwx",
    ),
    (Kind::Unit, "abcdefghijklmnopqrstuvwxy", ""),
    (Kind::Unit, "", ""),
    (Kind::Unit, "E 1", ""),
    (Kind::Unit, "E.1", ""),
];

/// Whether a text spells the identifier of an incident with this canonical text, or none where that is empty: no member
/// is named then.
fn is_incident(alloc: Global, text: &str, canonical: &str) -> bool {
    match IncidentId::parse(alloc, text) {
        Ok(id) => id.as_text() == canonical,
        Err(Refusal::BadIdentifier { member, .. }) => {
            canonical.is_empty() && member == Member::Unnamed
        }
        Err(_) => false,
    }
}

fn is_copied(call: &CallId) -> bool {
    match call.copy() {
        Ok(copy) => copy == *call,
        Err(_) => false,
    }
}

/// The same of a call, whose copy is the same.
fn is_call(alloc: Global, text: &str, canonical: &str) -> bool {
    match CallId::parse(alloc, text) {
        Ok(call) => call.as_text() == canonical && is_copied(&call),
        Err(Refusal::BadIdentifier { member, .. }) => {
            canonical.is_empty() && member == Member::Unnamed
        }
        Err(_) => false,
    }
}

/// The same of a domain.
fn is_domain(alloc: Global, text: &str, canonical: &str) -> bool {
    match Domain::new(alloc, text) {
        Ok(domain) => domain.as_text() == canonical,
        Err(refusal) => canonical.is_empty() && refusal.number() == 7,
    }
}

/// The same of the name of a unit.
fn is_unit(alloc: Global, text: &str, canonical: &str) -> bool {
    match UnitName::new(alloc, text) {
        Ok(name) => name.as_text() == canonical,
        Err(Refusal::OutOfRange { member, .. }) => canonical.is_empty()
            && member == Member::Unnamed,
        Err(_) => false,
    }
}

/// The same of any kind.
fn is_read(alloc: Global, kind: Kind, text: &str, canonical: &str) -> bool {
    match kind {
        Kind::Incident => is_incident(alloc, text, canonical),
        Kind::Call => is_call(alloc, text, canonical),
        Kind::Domain => is_domain(alloc, text, canonical),
        Kind::Unit => is_unit(alloc, text, canonical),
    }
}

#[test]
fn texts_are_read(rt: HostRuntime) {
    for (kind, text, canonical) in ROWS {
        assert!(rt; is_read(rt.alloc(), *kind, text, canonical), "{text}");
    }
    assert!(rt; UNIQUE_BYTES == 64);
}

/// Whether two texts spell one identifier of an incident.
fn are_equal(alloc: Global, text: &str, other: &str) -> Option<bool> {
    let id = IncidentId::parse(alloc, text).ok()?;
    let other = IncidentId::parse(alloc, other).ok()?;
    Some(id == other)
}

// Texts, and whether they spell the identifier `urn:nena:uid:incidentid:x:a.example`.
const COMPARED: &[(&str, bool)] = &[
    ("URN:NENA:uid:incidentid:x:A.EXAMPLE", true),
    ("urn:emergency:uid:incidentid:x:a.example", false),
    ("urn:nena:uid:incidentid:X:a.example", false),
];

#[test]
fn identifiers_are_compared_by_their_canonical_texts(rt: HostRuntime) {
    for (other, wanted) in COMPARED {
        let found = are_equal(rt.alloc(), "urn:nena:uid:incidentid:x:a.example", other);
        assert!(rt; found == Some(*wanted), "{other}");
    }
}

/// Whether the desk's own identifier of a place is this text, and under the desk's domain.
fn is_own(alloc: Global, place: u64, text: &str) -> Option<bool> {
    let domain = Domain::new(alloc, "Desk.Example").ok()?;
    let id = IncidentId::own(alloc, place.min(LOG_ENTRIES), &domain).ok()?;
    Some(id.as_text() == text && id.is_under(&domain))
}

/// Whether a text spells an identifier of an incident that is under the desk's domain.
fn is_under(alloc: Global, text: &str) -> Option<bool> {
    let domain = Domain::new(alloc, "Desk.Example").ok()?;
    let id = IncidentId::parse(alloc, text).ok()?;
    Some(id.is_under(&domain))
}

const OWN: &[(u64, &str)] = &[
    (1, "urn:emergency:uid:incidentid:000000000001:desk.example"),
    (
        16_384,
        "urn:emergency:uid:incidentid:000000016384:desk.example",
    ),
];

#[test]
fn the_desk_gives_identifiers_under_its_domain(rt: HostRuntime) {
    for (place, text) in OWN {
        assert!(rt; is_own(rt.alloc(), *place, text) == Some(true), "{text}");
    }
    let of_another = "urn:nena:uid:incidentid:x:sub.desk.example";
    assert!(rt; is_under(rt.alloc(), of_another) == Some(false));
}

/// What the hashes of a domain's boards begin with, where it was told so many numbers of seeds.
fn begun_hash(alloc: Global, seeds: &[u64]) -> Option<u64> {
    let mut domain = Domain::new(alloc, "desk.example").ok()?;
    for seed in seeds {
        domain.set_seed(HashSeed::new(*seed));
    }
    let copied = domain.copy().ok()?;
    Some(copied.seed().build_hasher().finish())
}

/// Whether no seed is the seed 0, another is not, and the last that was told counts.
fn seeds_count(alloc: Global) -> Option<bool> {
    let zero = begun_hash(alloc, &[0])?;
    let one = begun_hash(alloc, &[1])?;
    let (none, both) = (begun_hash(alloc, &[])?, begun_hash(alloc, &[0, 1])?);
    Some(zero == none && zero != one && both == one)
}

#[test]
fn boards_hash_with_the_seed_of_their_domain(rt: HostRuntime) {
    assert!(rt; seeds_count(rt.alloc()) == Some(true));
}
