//! What is left of the board where memory is refused. These tests are for runs in which one allocation fails; in any
//! other run they say no more than the rest.

mod verbs;

use super::{answered, applied, assert_run, empty_board, entry_of, first_wrong, is_line};
use desk_board::Board;
use desk_types::Entry;
use std::alloc::Global;

// A fire with two calls and a unit, linked with another incident.
const BEFORE: &str = r#"
- "do":"open","kind":"fire","where":"12 Elm St","call":"urn:emergency:uid:callid:c1:x.example" gives
  {"incident":"urn:emergency:uid:incidentid:000000000001:desk.example","number":1,"ok":"opened","place":1,"session":7}
- "do":"open","kind":"smoke","where":"12 Elm St" gives
  {"incident":"urn:emergency:uid:incidentid:000000000002:desk.example","number":2,"ok":"opened","place":2,"session":7}
- "do":"add_call","incident":"urn:emergency:uid:incidentid:000000000001:desk.example",
  "call":"urn:emergency:uid:callid:c2:x.example" gives {"number":3,"ok":"call_added","place":3,"session":7}
- "do":"link","incident":"urn:emergency:uid:incidentid:000000000001:desk.example",
  "other":"urn:emergency:uid:incidentid:000000000002:desk.example" gives
  {"number":4,"ok":"linked","place":4,"session":7}
- "do":"sign_on","unit":"E1" gives {"number":5,"ok":"signed_on","place":5,"session":7}
- "do":"assign","unit":"E1","incident":"urn:emergency:uid:incidentid:000000000001:desk.example" gives
  {"number":6,"ok":"assigned","place":6,"session":7}
"#;

#[test]
fn the_board_before_a_growth_is_as_it_is_told(rt: HostRuntime) {
    assert_run(&rt, rt.alloc(), BEFORE);
}

// What is shown then, and the latest reply.
const SHOWN: &str = r#"
- "do":"show","incident":"urn:emergency:uid:incidentid:000000000001:desk.example" gives
  {"calls":["urn:emergency:uid:callid:c1:x.example","urn:emergency:uid:callid:c2:x.example"],
  "incident":"urn:emergency:uid:incidentid:000000000001:desk.example","kind":"fire",
  "links":["urn:emergency:uid:incidentid:000000000002:desk.example"],"note":"","ok":"incident","opened":1772366400,
  "place":6,"session":7,"state":"open","units":["E1"],"where":"12 Elm St"}
- "do":"show","incident":"urn:emergency:uid:incidentid:000000000002:desk.example" gives
  {"calls":[],"incident":"urn:emergency:uid:incidentid:000000000002:desk.example","kind":"smoke",
  "links":["urn:emergency:uid:incidentid:000000000001:desk.example"],"note":"","ok":"incident","opened":1772366400,
  "place":6,"session":7,"state":"open","units":[],"where":"12 Elm St"}
- "do":"show","unit":"E1" gives
  {"incident":"urn:emergency:uid:incidentid:000000000001:desk.example","ok":"unit","place":6,"session":7,
  "status":"dispatched","unit":"E1"}
- "do":"show" gives {"incidents":2,"ok":"board","place":6,"session":7,"units":1}
- latest of 7 gives 6 {"number":6,"ok":"assigned","place":6,"session":7}
"#;

/// The board after documents, if memory for each is there.
fn board_after(alloc: Global, rows: &str) -> Option<Board> {
    match empty_board(alloc) {
        Some(mut board) => match first_wrong(alloc, &mut board, rows) {
            None => Some(board),
            Some(_) => None,
        },
        None => None,
    }
}

/// Whether an entry gets its reply line; or memory for it is refused, the board is as before, and the same document
/// gets that reply then.
fn is_entry_done_or_undone(
    alloc: Global,
    board: &mut Board,
    entry: &Entry,
    members: &str,
    reply: &str,
) -> bool {
    match applied(alloc, board, entry) {
        Some(text) => is_line(Some(text), reply),
        // The command was applied, and memory for its line was refused.
        None if board.len() == 7 => true,
        None => {
            first_wrong(alloc, board, SHOWN).is_none()
                && is_line(answered(alloc, board, members), reply)
        }
    }
}

/// The same of the next document on a board, if it is read.
fn is_next_done_or_undone(alloc: Global, board: &mut Board, members: &str, reply: &str) -> bool {
    match entry_of(alloc, 7, members) {
        Some(entry) => {
            let is_well = is_entry_done_or_undone(alloc, board, &entry, members, reply);
            drop(entry);
            is_well
        }
        None => true,
    }
}

/// The same on the board before the growth, if memory for that is there.
fn is_done_or_undone(alloc: Global, members: &str, reply: &str) -> bool {
    match board_after(alloc, BEFORE) {
        Some(mut board) => {
            let is_well = is_next_done_or_undone(alloc, &mut board, members, reply);
            drop(board);
            is_well
        }
        None => true,
    }
}

#[test]
fn a_merge_is_done_or_undone(rt: HostRuntime) {
    let members =
        r#""do":"merge","incident":"urn:emergency:uid:incidentid:000000000001:desk.example",
        "into":"urn:emergency:uid:incidentid:000000000002:desk.example""#;
    let reply = r#"{"number":7,"ok":"merged","place":7,"session":7}"#;
    assert!(rt; is_done_or_undone(rt.alloc(), members, reply));
}

#[test]
fn a_split_is_done_or_undone(rt: HostRuntime) {
    let members =
        r#""do":"split","incident":"urn:emergency:uid:incidentid:000000000001:desk.example",
        "call":"urn:emergency:uid:callid:c2:x.example","kind":"medical","where":"rear""#;
    let reply = r#"{"incident":"urn:emergency:uid:incidentid:000000000007:desk.example",
        "number":7,"ok":"split","place":7,"session":7}"#;
    assert!(rt; is_done_or_undone(rt.alloc(), members, reply));
}

#[test]
fn an_open_with_a_call_is_done_or_undone(rt: HostRuntime) {
    let members = r#""do":"open","kind":"fire","where":"12 Elm St",
        "incident":"urn:nena:uid:incidentid:x:other.example","call":"urn:nena:uid:callid:c1:psap.example""#;
    let reply =
        r#"{"incident":"urn:nena:uid:incidentid:x:other.example","number":7,"ok":"opened","place":7,"session":7}"#;
    assert!(rt; is_done_or_undone(rt.alloc(), members, reply));
}
