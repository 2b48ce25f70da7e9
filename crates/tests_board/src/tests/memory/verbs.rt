//! Documents of each verb, one after another on one board. Where memory is refused, in reading a document, in its
//! command or in its reply line, the same is done again, and gives what it would have given.

use super::super::{BULLET, answered, asked, empty_board, first_wrong, is_line, next_place};
use desk_board::Board;
use desk_eido::{Ask, reply_line};
use desk_types::{Entry, Outcome, Refusal, Reply, Show, Shown};
use std::alloc::Global;
use std::process::Abort;

// What shows all of a board after the documents of each verb.
const SHOWS: &str =
    r#""do":"show","incident":"urn:emergency:uid:incidentid:000000000001:desk.example"
"do":"show","incident":"urn:emergency:uid:incidentid:000000000002:desk.example"
"do":"show","incident":"urn:nena:uid:incidentid:x:other.example"
"do":"show","incident":"urn:emergency:uid:incidentid:000000000017:desk.example"
"do":"show","unit":"E1"
"do":"show","unit":"E2"
"do":"show"
"do":"list"
"do":"list","state":"open","from":2
latest of 7
latest of 8
"#;

/// Whether two boards answer a show alike.
fn is_shown_alike(alloc: Global, one: &mut Board, other: &mut Board, show: &str) -> bool {
    match answered(alloc, one, show) {
        Some(text) => {
            let line = text.as_str().strip_suffix("\n").unwrap_or("");
            let is_alike = is_line(answered(alloc, other, show), line);
            drop(text);
            is_alike
        }
        None => false,
    }
}

/// Whether two boards show the same.
fn show_alike(alloc: Global, one: &mut Board, other: &mut Board) -> bool {
    for show in SHOWS.lines() {
        if !is_shown_alike(alloc, one, other, show) {
            return false;
        }
    }
    true
}

/// Whether the first rows come true until a board has so many entries.
fn is_filled(alloc: Global, board: &mut Board, rows: &str, entries: u64) -> bool {
    for row in rows.split(BULLET) {
        if board.len() < entries && first_wrong(alloc, board, row).is_some() {
            return false;
        }
    }
    true
}

/// The board that has so many entries, by the first rows.
fn board_of(alloc: Global, rows: &str, entries: u64) -> Option<Board> {
    let mut board = empty_board(alloc)?;
    if is_filled(alloc, &mut board, rows, entries) {
        Some(board)
    } else {
        drop(board);
        None
    }
}

/// Whether a board is as the first rows make it.
fn is_made_by(alloc: Global, board: &mut Board, rows: &str) -> bool {
    match board_of(alloc, rows, board.len()) {
        Some(mut made) => {
            let is_alike = show_alike(alloc, board, &mut made);
            drop(made);
            is_alike
        }
        None => false,
    }
}

/// What a document asks for, read again where memory for it is refused.
fn asked_at_last(alloc: Global, number: u64, members: &str) -> Result<Ask, Refusal> {
    let read = asked(alloc, number, members);
    if matches!(&read, Err(Refusal::WantOfMemory)) {
        return asked(alloc, number, members);
    }
    read
}

/// The reply to an entry at the next place, if memory for it is there.
fn reply_to(board: &mut Board, entry: &Entry) -> Option<Reply> {
    let place = next_place(board)?;
    board.apply(place, entry).ok()
}

/// The same, applied again where memory for it is refused and the board is as the rows before it made it.
fn reply_at_last(alloc: Global, board: &mut Board, rows: &str, entry: &Entry) -> Option<Reply> {
    let before = board.len();
    match reply_to(board, entry) {
        None if board.len() == before && is_made_by(alloc, board, rows) => reply_to(board, entry),
        reply => reply,
    }
}

/// What is shown, asked again where memory for it is refused.
fn shown_at_last(board: &Board, show: &Show) -> Option<Shown> {
    match board.show(show) {
        Ok(shown) => Some(shown),
        Err(_) => board.show(show).ok(),
    }
}

/// Whether an outcome is told by this line, told again where memory for it is refused.
fn is_told_at_last(alloc: Global, outcome: Outcome, line: &str) -> bool {
    let reported = match reply_line(alloc, &outcome) {
        Ok(reported) => Some(reported),
        Err(_) => reply_line(alloc, &outcome).ok(),
    };
    drop(outcome);
    is_line(reported, line)
}

/// Whether the reply to an entry is told by this line.
fn is_reply_told(alloc: Global, board: &mut Board, rows: &str, entry: &Entry, line: &str) -> bool {
    let (client, number) = (entry.client, entry.number);
    match reply_at_last(alloc, board, rows, entry) {
        Some(reply) => {
            let outcome = Outcome::Command {
                client,
                number,
                reply,
            };
            is_told_at_last(alloc, outcome, line)
        }
        None => false,
    }
}

/// Whether a show is answered by this line.
fn is_show_told(alloc: Global, board: &Board, show: &Show, line: &str) -> bool {
    let client = show.client;
    match shown_at_last(board, show) {
        Some(shown) => is_told_at_last(alloc, Outcome::Board { client, shown }, line),
        None => false,
    }
}

/// Whether a document with these members, one of the rows, is answered by this line.
fn is_answered_at_last(
    alloc: Global,
    board: &mut Board,
    rows: &str,
    members: &str,
    line: &str,
) -> bool {
    match asked_at_last(alloc, board.len().saturating_add(1), members) {
        Ok(Ask::Command(entry)) => {
            let is_reported = is_reply_told(alloc, board, rows, &entry, line);
            drop(entry);
            is_reported
        }
        Ok(Ask::Show(show)) => {
            let is_reported = is_show_told(alloc, board, &show, line);
            drop(show);
            is_reported
        }
        Err(_) => false,
    }
}

/// The first row that is answered in another way, of rows one after another on a board before the first entry. A row is
/// `MEMBERS gives REPLY`.
fn first_unanswered<'a>(alloc: Global, board: &mut Board, rows: &'a str) -> Option<&'a str> {
    for row in rows.split(BULLET) {
        match row.split_once(" gives") {
            Some((members, line)) if is_answered_at_last(alloc, board, rows, members, line) => {}
            None if row.is_empty() => {}
            _ => return Some(row),
        }
    }
    None
}

/// Asserts that these rows are answered so, if memory for the board is there.
fn assert_answered(rt: &impl Abort, alloc: Global, rows: &str) {
    if let Some(mut board) = empty_board(alloc) {
        let row = first_unanswered(alloc, &mut board, rows);
        drop(board);
        assert!(rt; row == None, "{}", row.unwrap_or(""));
    }
}

// The identifier is taken, in another case too: that is told before the call, which is taken as well. The last one is
// the desk's own to give, and taken: the former is told.
const BY_THE_RULES: &str = r#"
- "do":"open","kind":"fire","where":"12 Elm St","incident":"urn:nena:uid:incidentid:x:other.example",
  "call":"urn:nena:uid:callid:c1:psap.example" gives
  {"incident":"urn:nena:uid:incidentid:x:other.example","number":1,"ok":"opened","place":1,"session":7}
- "do":"open","kind":"fire","where":"12 Elm St","incident":"urn:NENA:uid:incidentid:x:Other.example",
  "call":"urn:nena:uid:callid:c1:psap.example" gives {"number":2,"place":2,"refusal":13,"session":7}
- "do":"open","kind":"fire","where":"12 Elm St","call":"urn:nena:uid:callid:c1:psap.example" gives
  {"number":3,"place":3,"refusal":16,"session":7}
- "do":"open","kind":"fire","where":"12 Elm St","incident":"urn:emergency:uid:incidentid:000000000001:desk.example",
  "call":"urn:nena:uid:callid:c1:psap.example" gives {"number":4,"place":4,"refusal":14,"session":7}
- "do":"clear","incident":"urn:emergency:uid:incidentid:000000000001:desk.example" gives
  {"number":5,"place":5,"refusal":10,"session":7}
- "do":"clear","incident":"urn:nena:uid:incidentid:x:other.example" gives
  {"number":6,"ok":"cleared","place":6,"session":7}
- "do":"clear","incident":"urn:nena:uid:incidentid:x:other.example" gives
  {"number":7,"place":7,"refusal":11,"session":7}
- "do":"open","kind":"fire","where":"12 Elm St" gives
  {"incident":"urn:emergency:uid:incidentid:000000000008:desk.example","number":8,"ok":"opened","place":8,"session":7}
- "do":"open","kind":"fire","where":"12 Elm St","incident":"urn:emergency:uid:incidentid:000000000008:desk.example"
   gives {"number":9,"place":9,"refusal":14,"session":7}
- "do":"show" gives {"incidents":2,"ok":"board","place":9,"session":7,"units":0}
"#;

#[test]
fn commands_get_their_replies_at_last(rt: HostRuntime) {
    assert_answered(&rt, rt.alloc(), BY_THE_RULES);
}

// Each verb, two refusals that name an incident, a second client, and each show. The merge takes a stand-by along and
// ends another; the last release is to the incident that the unit stands by for.
const EACH_VERB: &str = r#"
- "do":"open","kind":"fire","where":"12 Elm St","call":"urn:emergency:uid:callid:c1:x.example" gives
  {"incident":"urn:emergency:uid:incidentid:000000000001:desk.example","number":1,"ok":"opened","place":1,"session":7}
- "do":"open","kind":"smoke","where":"14 Elm St" gives
  {"incident":"urn:emergency:uid:incidentid:000000000002:desk.example","number":2,"ok":"opened","place":2,"session":7}
- "do":"open","kind":"flood","where":"rear","incident":"urn:nena:uid:incidentid:x:other.example" gives
  {"incident":"urn:nena:uid:incidentid:x:other.example","number":3,"ok":"opened","place":3,"session":7}
- "do":"add_call","incident":"urn:emergency:uid:incidentid:000000000001:desk.example",
  "call":"urn:emergency:uid:callid:c2:x.example" gives {"number":4,"ok":"call_added","place":4,"session":7}
- "do":"link","incident":"urn:emergency:uid:incidentid:000000000001:desk.example",
  "other":"urn:emergency:uid:incidentid:000000000002:desk.example" gives
  {"number":5,"ok":"linked","place":5,"session":7}
- "do":"link","incident":"urn:nena:uid:incidentid:x:other.example",
  "other":"urn:emergency:uid:incidentid:000000000001:desk.example" gives
  {"number":6,"ok":"linked","place":6,"session":7}
- "do":"sign_on","unit":"E1" gives {"number":7,"ok":"signed_on","place":7,"session":7}
- "do":"sign_on","unit":"E2" gives {"number":8,"ok":"signed_on","place":8,"session":7}
- "do":"assign","unit":"E1","incident":"urn:emergency:uid:incidentid:000000000001:desk.example" gives
  {"number":9,"ok":"assigned","place":9,"session":7}
- "do":"assign","unit":"E2","incident":"urn:nena:uid:incidentid:x:other.example" gives
  {"number":10,"ok":"assigned","place":10,"session":7}
- "do":"assign","unit":"E1","incident":"urn:emergency:uid:incidentid:000000000002:desk.example" gives
  {"incident":"urn:emergency:uid:incidentid:000000000001:desk.example","number":11,"place":11,"refusal":23,"session":7}
- "do":"status","unit":"E1","status":"en_route" gives {"number":12,"ok":"status_set","place":12,"session":7}
- "do":"stand_by","unit":"E1","incident":"urn:emergency:uid:incidentid:000000000002:desk.example" gives
  {"number":13,"ok":"standing_by","place":13,"session":7}
- "do":"stand_by","unit":"E2","incident":"urn:emergency:uid:incidentid:000000000001:desk.example" gives
  {"number":14,"ok":"standing_by","place":14,"session":7}
- "do":"note","incident":"urn:emergency:uid:incidentid:000000000001:desk.example","text":"smoke on two floors" gives
  {"number":15,"ok":"noted","place":15,"session":7}
- "do":"unlink","incident":"urn:emergency:uid:incidentid:000000000002:desk.example",
  "other":"urn:emergency:uid:incidentid:000000000001:desk.example" gives
  {"number":16,"ok":"unlinked","place":16,"session":7}
- "do":"split","incident":"urn:emergency:uid:incidentid:000000000001:desk.example",
  "call":"urn:emergency:uid:callid:c2:x.example","kind":"medical","where":"rear" gives
  {"incident":"urn:emergency:uid:incidentid:000000000017:desk.example","number":17,"ok":"split","place":17,"session":7}
- "do":"merge","incident":"urn:emergency:uid:incidentid:000000000001:desk.example",
  "into":"urn:emergency:uid:incidentid:000000000002:desk.example" gives
  {"number":18,"ok":"merged","place":18,"session":7}
- "do":"add_call","incident":"urn:emergency:uid:incidentid:000000000001:desk.example",
  "call":"urn:emergency:uid:callid:c9:x.example" gives
  {"incident":"urn:emergency:uid:incidentid:000000000002:desk.example","number":19,"place":19,"refusal":12,"session":7}
- "do":"release","unit":"E1" gives {"number":20,"ok":"released","place":20,"session":7}
- "do":"sign_off","unit":"E1" gives {"number":21,"ok":"signed_off","place":21,"session":7}
- "do":"clear","incident":"urn:emergency:uid:incidentid:000000000017:desk.example" gives
  {"number":22,"ok":"cleared","place":22,"session":7}
- "do":"reopen","incident":"urn:emergency:uid:incidentid:000000000017:desk.example" gives
  {"number":23,"ok":"reopened","place":23,"session":7}
- "do":"stand_down","unit":"E2" gives {"number":24,"ok":"stood_down","place":24,"session":7}
- "do":"stand_by","unit":"E2","incident":"urn:emergency:uid:incidentid:000000000017:desk.example" gives
  {"number":25,"ok":"standing_by","place":25,"session":7}
- "do":"release","unit":"E2" gives {"number":26,"ok":"released","place":26,"session":7}
- "do":"stand_by","unit":"E2","incident":"urn:nena:uid:incidentid:x:other.example" gives
  {"number":27,"ok":"standing_by","place":27,"session":7}
- "session":8,"number":1,"do":"note","incident":"urn:emergency:uid:incidentid:000000000002:desk.example","text":"out"
   gives {"number":1,"ok":"noted","place":28,"session":8}
- "do":"show","incident":"urn:emergency:uid:incidentid:000000000002:desk.example" gives
  {"calls":["urn:emergency:uid:callid:c1:x.example"],
  "incident":"urn:emergency:uid:incidentid:000000000002:desk.example","kind":"smoke",
  "links":["urn:nena:uid:incidentid:x:other.example"],"note":"out","ok":"incident","opened":1772366400,"place":28,
  "session":7,"state":"open","units":[],"where":"14 Elm St"}
- "do":"show","incident":"urn:nena:uid:incidentid:x:other.example" gives
  {"calls":[],"incident":"urn:nena:uid:incidentid:x:other.example","kind":"flood",
  "links":["urn:emergency:uid:incidentid:000000000002:desk.example"],"note":"","ok":"incident","opened":1772366400,
  "place":28,"session":7,"stand_by":["E2"],"state":"open","units":[],"where":"rear"}
- "do":"show","unit":"E2" gives
  {"incident":"urn:emergency:uid:incidentid:000000000017:desk.example","ok":"unit","place":28,"session":7,
  "stand_by":"urn:nena:uid:incidentid:x:other.example","status":"dispatched","unit":"E2"}
- "do":"show","unit":"E1" gives {"place":28,"refusal":20,"session":7}
- "do":"show" gives {"incidents":4,"ok":"board","place":28,"session":7,"units":1}
- "do":"list" gives {"incidents":[
  {"calls":[],"incident":"urn:emergency:uid:incidentid:000000000001:desk.example",
  "into":"urn:emergency:uid:incidentid:000000000002:desk.example","kind":"fire","links":[],
  "note":"smoke on two floors","opened":1772366400,"state":"merged","units":[],"where":"12 Elm St"},
  {"calls":["urn:emergency:uid:callid:c1:x.example"],
  "incident":"urn:emergency:uid:incidentid:000000000002:desk.example","kind":"smoke",
  "links":["urn:nena:uid:incidentid:x:other.example"],"note":"out","opened":1772366400,"state":"open","units":[],
  "where":"14 Elm St"},
  {"calls":[],"incident":"urn:nena:uid:incidentid:x:other.example","kind":"flood",
  "links":["urn:emergency:uid:incidentid:000000000002:desk.example"],"note":"","opened":1772366400,
  "stand_by":["E2"],"state":"open","units":[],"where":"rear"},
  {"calls":["urn:emergency:uid:callid:c2:x.example"],
  "incident":"urn:emergency:uid:incidentid:000000000017:desk.example","kind":"medical","links":[],"note":"",
  "opened":1772366400,"state":"open","units":["E2"],"where":"rear"}],
  "ok":"list","place":28,"session":7,"units":[
  {"incident":"urn:emergency:uid:incidentid:000000000017:desk.example",
  "stand_by":"urn:nena:uid:incidentid:x:other.example","status":"dispatched","unit":"E2"}]}
- "do":"list","state":"open","from":17 gives {"incidents":[
  {"calls":["urn:emergency:uid:callid:c2:x.example"],
  "incident":"urn:emergency:uid:incidentid:000000000017:desk.example","kind":"medical","links":[],"note":"",
  "opened":1772366400,"state":"open","units":["E2"],"where":"rear"}],"ok":"list","place":28,"session":7}
- "do":"replace","node":2,"token":123 gives {"number":29,"ok":"replaced","place":29,"session":7}
"#;

#[test]
fn each_verb_gets_its_reply_at_last(rt: HostRuntime) {
    assert_answered(&rt, rt.alloc(), EACH_VERB);
}
