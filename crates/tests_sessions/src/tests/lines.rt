//! What the two sessions send, and what comes back.

/// What is committed in the end: what the second session opens by its lines, and what it opens after that.
pub(super) const REQUESTS: u64 = 2;

/// The first session asks for the whole board.
pub(super) const FIRST: &str = "{\"session\":7,\"do\":\"show\"}\n";

/// The second opens an incident, and reads it back.
pub(super) const SECOND: &str =
    r#"{"session":8,"number":1,"at":"2026-03-01T12:00:00Z","do":"open","kind":"fire","where":"12 Elm St"}
{"session":8,"do":"show","incident":"urn:emergency:uid:incidentid:000000000001:desk.example"}
"#;

/// The replies to the second.
pub(super) const SECOND_REPLIES: &str = concat!(
    r#"{"incident":"urn:emergency:uid:incidentid:000000000001:desk.example","#,
    r#""number":1,"ok":"opened","place":1,"session":8}
{"calls":[],"incident":"urn:emergency:uid:incidentid:000000000001:desk.example","kind":"fire","links":[],"#,
    r#""note":"","ok":"incident","opened":1772366400,"place":1,"session":8,"state":"open","units":[],"#,
    r#""where":"12 Elm St"}
"#
);

/// The place that the last reply line tells.
pub(super) fn last_place(replies: &[u8]) -> Option<u64> {
    let text = str::from_utf8(replies).ok()?;
    let (_, after) = text.rsplit_once("\"place\":")?;
    let (digits, _) = after.split_once(',')?;
    digits.parse::<u64>().ok()
}
