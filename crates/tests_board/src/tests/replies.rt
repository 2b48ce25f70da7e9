//! The lines that tell outcomes which no replay has.

use super::{is_line, line_of};
use desk_types::{ClientId, Outcome, Refusal, RequestNumber, Shown, Status, UnitName};
use std::alloc::Global;

/// Whether an outcome is told by this line, which ends with a newline.
fn is_reported(alloc: Global, outcome: Outcome, line: &str) -> bool {
    is_line(line_of(alloc, outcome), line)
}

/// Whether it is told by a line that a node refuses client 7's request of this number.
fn is_node_told(alloc: Global, number: u64, refusal: Refusal, line: &str) -> Option<bool> {
    let client = ClientId::new(7)?;
    let number = RequestNumber::new(number)?;
    let outcome = Outcome::Node {
        client,
        number,
        refusal,
    };
    Some(is_reported(alloc, outcome, line))
}

#[test]
fn refusals_of_nodes_are_told(rt: HostRuntime) {
    let not_primary = Refusal::NotPrimary { view: 4, node: 2 };
    let line = r#"{"node":2,"number":1,"refusal":30,"session":7,"view":4}"#;
    assert!(rt; is_node_told(rt.alloc(), 1, not_primary, line) == Some(true));
    let stopped = Outcome::Document(Refusal::NodeStopped);
    assert!(rt; is_reported(rt.alloc(), stopped, r#"{"refusal":34}"#));
    let want_of_memory = Outcome::Document(Refusal::WantOfMemory);
    assert!(rt; is_reported(rt.alloc(), want_of_memory, r#"{"refusal":40}"#));
}

#[test]
fn an_unheard_member_is_told(rt: HostRuntime) {
    let line = r#"{"number":1,"refusal":38,"session":7}"#;
    assert!(rt; is_node_told(rt.alloc(), 1, Refusal::MemberUnheard, line) == Some(true));
}

// The statuses of which a unit has one only while it is committed, and the lines that would show it uncommitted.
const UNITS: &[(Status, &str)] = &[
    (
        Status::EnRoute,
        r#"{"ok":"unit","place":8,"session":7,"status":"en_route","unit":"E1"}"#,
    ),
    (
        Status::OnScene,
        r#"{"ok":"unit","place":8,"session":7,"status":"on_scene","unit":"E1"}"#,
    ),
    (
        Status::Transporting,
        r#"{"ok":"unit","place":8,"session":7,"status":"transporting","unit":"E1"}"#,
    ),
    (
        Status::AtFacility,
        r#"{"ok":"unit","place":8,"session":7,"status":"at_facility","unit":"E1"}"#,
    ),
];

/// Whether it is told by a line that a unit of a status is shown, which is committed to nothing.
fn is_unit_shown(alloc: Global, status: Status, line: &str) -> Option<bool> {
    let client = ClientId::new(7)?;
    let unit = UnitName::new(alloc, "E1").ok()?;
    let shown = Shown::Unit {
        place: 8,
        unit,
        status,
        incident: None,
        stand_by: None,
    };
    Some(is_reported(alloc, Outcome::Board { client, shown }, line))
}

#[test]
fn units_at_work_without_an_incident_are_shown(rt: HostRuntime) {
    for (status, line) in UNITS {
        assert!(rt;
            is_unit_shown(rt.alloc(), *status, line) == Some(true),
            "{line}"
        );
    }
}
