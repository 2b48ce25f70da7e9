//! What is answered where memory is refused. These tests are for runs in which one allocation fails; in any other run
//! they say no more than the rest.

use super::super::{BULLET, is_said};
use super::words::{has_text, text_of};
use desk_arena::DocArena;
use desk_eido::read_document;
use desk_types::WantOfMemory;
use std::alloc::Global;

/// Whether a document is read with this text where it was refused memory, and the arena held nothing then, or the copy
/// that it holds now.
fn is_read_again(alloc: Global, line: &[u8], arena: &mut DocArena, wanted: &str) -> bool {
    let left = arena.used();
    let is_read = has_text(alloc, read_document(alloc, line, arena), wanted);
    is_read && (left == 0 || left == arena.used())
}

/// Whether a document is read with this text, again where it is refused memory. Where memory for the text is refused,
/// nothing is said.
fn is_read_at_last(alloc: Global, line: &[u8], arena: &mut DocArena, wanted: &str) -> bool {
    match text_of(alloc, read_document(alloc, line, arena)) {
        Some(text) if text.as_str() == "40" => is_read_again(alloc, line, arena, wanted),
        Some(text) => is_said(text.as_str(), wanted),
        None => true,
    }
}

/// A document with these members and those of every command.
fn command_line(alloc: Global, members: &str) -> Result<String, WantOfMemory> {
    Ok(format!(in alloc;
        "{{\"session\":7,\"number\":1,\"at\":\"2026-03-01T12:00:00Z\",{members}}}"
    )?)
}

/// Whether a document that begins like that of a command, and goes on with these members, is read so.
fn is_command_read(alloc: Global, members: &str, arena: &mut DocArena, wanted: &str) -> bool {
    match command_line(alloc, members) {
        Ok(line) => is_read_at_last(alloc, line.as_bytes(), arena, wanted),
        Err(_) => true,
    }
}

/// The first row that is read in another way, into one arena. A row is `LINE gives TEXT`, or `MEMBERS gives TEXT`.
fn first_unread<'a>(alloc: Global, arena: &mut DocArena, rows: &'a str) -> Option<&'a str> {
    for row in rows.split(BULLET) {
        let is_read = match row.split_once(" gives") {
            Some((line, wanted)) if line.starts_with("\"") => {
                is_command_read(alloc, line, arena, wanted)
            }
            Some((line, wanted)) => is_read_at_last(alloc, line.as_bytes(), arena, wanted),
            None => row.is_empty(),
        };
        if !is_read {
            return Some(row);
        }
    }
    None
}

/// The same, if memory for the arena is there.
fn first_unread_within<'a>(alloc: Global, rows: &'a str) -> Option<&'a str> {
    match DocArena::with_capacity(alloc, 4_096) {
        Ok(mut arena) => first_unread(alloc, &mut arena, rows),
        Err(_) => None,
    }
}

// Each verb with its members, each status, and notes of 1 and of 100 bytes.
const READ: &str = r#"
- "do":"add_call","incident":"urn:nena:uid:incidentid:1:a.example","call":"urn:nena:uid:callid:8:a.example" gives
  7/1 1772366400 add_call|urn:nena:uid:incidentid:1:a.example|urn:nena:uid:callid:8:a.example
- "do":"link","incident":"urn:nena:uid:incidentid:1:a.example","other":"urn:nena:uid:incidentid:2:a.example","into":7
   gives 7/1 1772366400 link|urn:nena:uid:incidentid:1:a.example|urn:nena:uid:incidentid:2:a.example
- "do":"unlink","incident":"urn:nena:uid:incidentid:2:a.example","other":"urn:nena:uid:incidentid:1:a.example" gives
  7/1 1772366400 unlink|urn:nena:uid:incidentid:2:a.example|urn:nena:uid:incidentid:1:a.example
- "do":"merge","incident":"urn:nena:uid:incidentid:1:a.example","into":"urn:nena:uid:incidentid:2:a.example","other":7
   gives 7/1 1772366400 merge|urn:nena:uid:incidentid:1:a.example|urn:nena:uid:incidentid:2:a.example
- "do":"split","incident":"urn:nena:uid:incidentid:1:a.example","call":"urn:nena:uid:callid:8:a.example","kind":"fire",
  "where":"12 Elm St" gives
  7/1 1772366400 split|urn:nena:uid:incidentid:1:a.example|urn:nena:uid:callid:8:a.example|fire|12 Elm St
- "do":"reopen","incident":"urn:nena:uid:incidentid:1:a.example" gives
  7/1 1772366400 reopen|urn:nena:uid:incidentid:1:a.example
- "do":"sign_on","unit":"E1" gives 7/1 1772366400 sign_on|E1
- "do":"sign_off","unit":"E1" gives 7/1 1772366400 sign_off|E1
- "do":"assign","incident":"urn:nena:uid:incidentid:1:a.example","unit":"E1" gives
  7/1 1772366400 assign|E1|urn:nena:uid:incidentid:1:a.example
- "do":"release","unit":"E1" gives 7/1 1772366400 release|E1
- "do":"status","unit":"E1","status":"available" gives 7/1 1772366400 status|E1|available
- "do":"status","unit":"E1","status":"dispatched" gives 7/1 1772366400 status|E1|dispatched
- "do":"status","unit":"E1","status":"en_route" gives 7/1 1772366400 status|E1|en_route
- "do":"status","unit":"E1","status":"on_scene" gives 7/1 1772366400 status|E1|on_scene
- "do":"status","unit":"E1","status":"transporting" gives 7/1 1772366400 status|E1|transporting
- "do":"status","unit":"E1","status":"at_facility" gives 7/1 1772366400 status|E1|at_facility
- "do":"status","unit":"E1","status":"out_of_service" gives 7/1 1772366400 status|E1|out_of_service
- "do":"note","incident":"urn:nena:uid:incidentid:1:a.example","text":"n" gives
  7/1 1772366400 note|urn:nena:uid:incidentid:1:a.example|n
- "do":"note","incident":"urn:nena:uid:incidentid:1:a.example",
  "text":"nnnnnnnnnnnnnnnnnnnnnnnnnnnnnnnnnnnnnnnnnnnnnnnnnnnnnnnnnnnnnnnnnnnnnnnnnnnnnnnnnnnnnnnnnnnnnnnnnnnn" gives
  7/1 1772366400 note|urn:nena:uid:incidentid:1:a.example|
  nnnnnnnnnnnnnnnnnnnnnnnnnnnnnnnnnnnnnnnnnnnnnnnnnnnnnnnnnnnnnnnnnnnnnnnnnnnnnnnnnnnnnnnnnnnnnnnnnnnn
"#;

#[test]
fn each_verb_is_read_at_last(rt: HostRuntime) {
    let row = first_unread_within(rt.alloc(), READ);
    assert!(rt; row == None, "{}", row.unwrap_or(""));
}

// An open with both identifiers, shows, lists, members that are not looked at, and refusals on the way.
const LINES: &str = r#"
- {"session":7,"number":1,"at":"2026-03-01T12:00:00Z","do":"open","kind":"fire","where":"12 Elm St",
  "incident":"urn:NENA:uid:incidentid:9:A.example","call":"urn:NENA:uid:callid:8:A.example"} gives
  7/1 1772366400 open|fire|12 Elm St|urn:nena:uid:incidentid:9:a.example|urn:nena:uid:callid:8:a.example
- {"do":"show","session":7} gives 7 shows board
- {"do":"show","session":7,"incident":"urn:nena:uid:incidentid:9:a.example"} gives
  7 shows incident|urn:nena:uid:incidentid:9:a.example
- {"do":"sing","session":[1,2,{"x":[null,true,"\u0041"]}],"do":"show","session":7,"unit":"E1"} gives 7 shows unit|E1
- {"do":"show","session":7,"unit":"E 1"} gives 5 unit
- {"do":"list","session":7,"state":"open","from":3} gives 7 shows list|open|3
- {"do":"list","session":7,"state":"shut"} gives 5 state
- {"do":"open","session":7,"number":1,"at":"noon"} gives 8 at
- {"do":"sing","session":7,"text":"so long a text that it has a place of its own"} gives 6
- {"do":"show","session":[{"a":[1,2,3]},7 gives 1
- [1,2,{"do":"show"}] gives 1
"#;

#[test]
fn lines_are_read_at_last(rt: HostRuntime) {
    let row = first_unread_within(rt.alloc(), LINES);
    assert!(rt; row == None, "{}", row.unwrap_or(""));
}
