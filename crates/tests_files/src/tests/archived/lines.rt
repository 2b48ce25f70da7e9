//! The line of an entry is a document that asks for that entry, and a replay of such lines is one of the documents that
//! were sent.

use super::entry_of;
use desk_archive::document_line;
use desk_replay::replay_lines;
use desk_types::Domain;
use std::alloc::{AllocError, Global};
use tests_streams::{Sink, Source};

/// Documents that were sent, each with the line of its entry.
const SENT: [(&str, &str); 3] = [
    (
        concat!(
            r#"{"do":"open","where":"12 Elm St","kind":"fire","at":"2026-03-01T12:00:00.9Z","#,
            r#""number":1,"session":7}"#
        ),
        concat!(
            r#"{"session":7,"number":1,"at":"2026-03-01T12:00:00Z","do":"open","#,
            r#""kind":"fire","where":"12 Elm St"}"#
        ),
    ),
    (
        concat!(
            r#"{"session":8,"number":1,"at":"1969-12-31T23:59:59.5-00:30","do":"open","kind":"\u0066ire \"a\"","#,
            r#""where":"caf\u00e9\n\t\\ \u0001 💧","incident":"URN:nena:uid:incidentid:S-4:D.E","#,
            r#""call":"urn:emergency:uid:callid:c1:X.Y","more":[1,{"a":null}]}"#
        ),
        concat!(
            r#"{"session":8,"number":1,"at":"1970-01-01T00:29:59Z","do":"open","kind":"fire \"a\"","#,
            r#""where":"café\n\t\\ \u0001 💧","incident":"urn:nena:uid:incidentid:S-4:d.e","#,
            r#""call":"urn:emergency:uid:callid:c1:x.y"}"#
        ),
    ),
    (
        concat!(
            r#"{"session":9007199254740991,"number":9007199254740991,"at":"-000001-01-01T00:00:00Z","#,
            r#""do":"sign_on","unit":"E2"}"#
        ),
        concat!(
            r#"{"session":9007199254740991,"number":9007199254740991,"at":"-000001-01-01T00:00:00Z","#,
            r#""do":"sign_on","unit":"E2"}"#
        ),
    ),
];

/// Members of documents of client 9, behind its number and an instant: their entries have the lines of these documents.
const VERBS: [&str; 16] = [
    r#""do":"add_call","incident":"urn:nena:uid:incidentid:S-4:d.e","call":"urn:emergency:uid:callid:c2:x.y""#,
    r#""do":"link","incident":"urn:nena:uid:incidentid:S-4:d.e","other":"urn:nena:uid:incidentid:S-5:d.e""#,
    r#""do":"open","kind":"fire","where":"1 Oak St","incident":"urn:nena:uid:incidentid:S-5:d.e""#,
    r#""do":"link","incident":"urn:nena:uid:incidentid:S-4:d.e","other":"urn:nena:uid:incidentid:S-5:d.e""#,
    r#""do":"note","incident":"urn:nena:uid:incidentid:S-4:d.e","text":"/""#,
    r#""do":"sign_on","unit":"E1""#,
    r#""do":"assign","unit":"E1","incident":"urn:nena:uid:incidentid:S-4:d.e""#,
    r#""do":"stand_by","unit":"E1","incident":"urn:nena:uid:incidentid:S-5:d.e""#,
    r#""do":"status","unit":"E1","status":"en_route""#,
    r#""do":"unlink","incident":"urn:nena:uid:incidentid:S-4:d.e","other":"urn:nena:uid:incidentid:S-5:d.e""#,
    r#""do":"stand_down","unit":"E1""#,
    r#""do":"release","unit":"E1""#,
    r#""do":"sign_off","unit":"E1""#,
    r#""do":"clear","incident":"urn:nena:uid:incidentid:S-5:d.e""#,
    r#""do":"reopen","incident":"urn:nena:uid:incidentid:S-5:d.e""#,
    r#""do":"replace","node":4,"token":1000000000000"#,
];

/// Members of documents of client 10, as those of client 9.
const LAST_VERBS: [&str; 2] = [
    r#""do":"merge","incident":"urn:nena:uid:incidentid:S-5:d.e","into":"urn:nena:uid:incidentid:S-4:d.e""#,
    concat!(
        r#""do":"split","incident":"urn:nena:uid:incidentid:S-4:d.e","call":"urn:emergency:uid:callid:c2:x.y","#,
        r#""kind":"medical","where":"2 Oak St""#
    ),
];

/// The document of a client's number with these members.
fn document_with(
    alloc: Global,
    client: u64,
    number: u64,
    members: &str,
) -> Result<String, AllocError> {
    format!(in alloc;
        "{{\"session\":{client},\"number\":{number},\"at\":\"2026-03-01T12:00:00Z\",{members}}}"
    )
}

/// What is asked for of a board after all of them.
const LIST: &str = "{\"session\":1,\"do\":\"list\"}\n";

/// Whether the line of the entry that a document asks for is this, with a newline.
fn is_line_of(alloc: Global, document: &str, wanted: &str) -> bool {
    let Some(entry) = entry_of(alloc, document) else {
        return false;
    };
    match document_line(alloc, &entry) {
        Ok(line) => line.as_str().strip_suffix("\n") == Some(wanted),
        Err(_) => false,
    }
}

#[test]
fn entries_have_their_lines(rt: HostRuntime) {
    for (document, line) in SENT {
        assert!(rt; is_line_of(rt.alloc(), document, line), "{document}");
        assert!(rt; is_line_of(rt.alloc(), line, line), "{line}");
    }
}

#[test]
fn each_verb_has_its_line(rt: HostRuntime) {
    for members in VERBS.iter().chain(&LAST_VERBS) {
        let document = document_with(rt.alloc(), 9, 1, members);
        let is_own = match &document {
            Ok(document) => is_line_of(rt.alloc(), document.as_str(), document.as_str()),
            Err(_) => false,
        };
        assert!(rt; is_own, "{members}");
    }
}

/// Puts the documents of a client's numbers from 1 on, each in a line.
fn put_documents(
    alloc: Global,
    all: &mut String,
    client: u64,
    rows: &[&str],
) -> Result<(), AllocError> {
    let mut number = 0u64;
    for members in rows {
        number = number.saturating_add(1);
        let document = document_with(alloc, client, number, members)?;
        all.push_str(document.as_str())?;
        all.push_str("\n")?;
    }
    Ok(())
}

/// The documents of all rows as they were sent, and a list of the board.
fn all_sent(alloc: Global) -> Result<String, AllocError> {
    let mut all = String::new(alloc);
    for (document, _) in SENT {
        all.push_str(document)?;
        all.push_str("\n")?;
    }
    put_documents(alloc, &mut all, 9, &VERBS)?;
    put_documents(alloc, &mut all, 10, &LAST_VERBS)?;
    all.push_str(LIST)?;
    Ok(all)
}

/// The lines of the entries of documents, and what asks for no entry as it is.
fn lines_of(alloc: Global, documents: &str) -> Option<String> {
    let mut all = String::new(alloc);
    for document in documents.lines() {
        match entry_of(alloc, document) {
            Some(entry) => all
                .push_str(document_line(alloc, &entry).ok()?.as_str())
                .ok()?,
            None => {
                all.push_str(document).ok()?;
                all.push_str("\n").ok()?;
            }
        }
    }
    Some(all)
}

/// What a replay of documents writes.
fn replayed(alloc: Global, documents: &str) -> Option<Sink> {
    let domain = Domain::new(alloc, "desk.example").ok()?;
    let mut source = Source::in_pieces(documents.as_bytes(), 4_096);
    let mut sink = Sink::in_pieces(Vec::new(alloc), 4_096);
    if replay_lines(alloc, &mut source, &mut sink, domain).is_err() {
        return None;
    }
    Some(sink)
}

/// What replays of the documents write, and of the lines of their entries.
fn both_replayed(alloc: Global) -> Option<(Sink, Sink)> {
    let sent = all_sent(alloc).ok()?;
    let lines = lines_of(alloc, sent.as_str())?;
    Some((
        replayed(alloc, sent.as_str())?,
        replayed(alloc, lines.as_str())?,
    ))
}

#[test]
fn lines_replay_to_the_board_of_what_was_sent(rt: HostRuntime) {
    match both_replayed(rt.alloc()) {
        Some((sent, lines)) => {
            assert!(rt; sent.bytes.as_slice() == lines.bytes.as_slice());
            assert!(rt; sent.bytes.len() > 2_000);
        }
        None => assert!(rt; false),
    }
}
