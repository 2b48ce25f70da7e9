//! What documents ask for, in words.

use super::super::is_said;
use super::super::line::Line;
use desk_eido::Ask;
use desk_types::{CallId, Command, Entry, IncidentId, ListedState, Refusal, Show, Status, Subject};
use std::alloc::Global;

/// The verb of a command and its texts, in the order in which a document's members are looked at.
type Words<'a> = [&'a str; 3];

fn incident_text(incident: &Option<IncidentId>) -> &str {
    match incident {
        Some(id) => id.as_text(),
        None => "-",
    }
}

fn call_text(call: &Option<CallId>) -> &str {
    match call {
        Some(id) => id.as_text(),
        None => "-",
    }
}

fn status_word(status: &Status) -> &str {
    match status {
        Status::Available => "available",
        Status::Dispatched => "dispatched",
        Status::EnRoute => "en_route",
        Status::OnScene => "on_scene",
        Status::Transporting => "transporting",
        Status::AtFacility => "at_facility",
        Status::OutOfService => "out_of_service",
    }
}

/// The words of a command on units.
fn unit_words(command: &Command) -> Words<'_> {
    match command {
        Command::SignOn { unit, .. } => ["sign_on", unit.as_text(), ""],
        Command::SignOff { unit, .. } => ["sign_off", unit.as_text(), ""],
        Command::Assign { unit, incident, .. } => ["assign", unit.as_text(), incident.as_text()],
        Command::SetStatus { unit, status, .. } => {
            ["status", unit.as_text(), status_word(status)]
        }
        Command::Release { unit, .. } => ["release", unit.as_text(), ""],
        Command::StandBy { unit, incident, .. } => {
            ["stand_by", unit.as_text(), incident.as_text()]
        }
        Command::StandDown { unit, .. } => ["stand_down", unit.as_text(), ""],
        _ => ["", "", ""],
    }
}

/// The words of a command that opens nothing.
fn command_words(command: &Command) -> Words<'_> {
    match command {
        Command::AddCall { incident, call, .. } => {
            ["add_call", incident.as_text(), call.as_text()]
        }
        Command::Link {
            incident,
            other,
            ..
        } => ["link", incident.as_text(), other.as_text()],
        Command::Unlink {
            incident,
            other,
            ..
        } => ["unlink", incident.as_text(), other.as_text()],
        Command::Merge { incident, into, .. } => ["merge", incident.as_text(), into.as_text()],
        Command::Clear { incident, .. } => ["clear", incident.as_text(), ""],
        Command::Reopen { incident, .. } => ["reopen", incident.as_text(), ""],
        Command::Note { incident, text, .. } => ["note", incident.as_text(), text.as_str()],
        _ => unit_words(command),
    }
}

/// When a command is given.
fn at_of(command: &Command) -> i64 {
    match command {
        Command::Open { at, .. }
        | Command::AddCall { at, .. }
        | Command::Link { at, .. }
        | Command::Unlink { at, .. }
        | Command::Merge { at, .. }
        | Command::Split { at, .. }
        | Command::Clear { at, .. }
        | Command::Reopen { at, .. }
        | Command::Note { at, .. }
        | Command::SignOn { at, .. }
        | Command::SignOff { at, .. }
        | Command::Assign { at, .. }
        | Command::SetStatus { at, .. }
        | Command::Release { at, .. }
        | Command::StandBy { at, .. }
        | Command::StandDown { at, .. }
        | Command::Replace { at, .. } => *at,
    }
}

/// Puts words, with bars between them. There are no empty words.
fn put_words(line: &mut Line, words: &[&str]) {
    let mut bar = "";
    for word in words {
        if !word.is_empty() {
            line.put(bar);
            line.put(word);
            bar = "|";
        }
    }
}

fn put_command(line: &mut Line, command: &Command) {
    match command {
        Command::Open {
            kind,
            site,
            incident,
            call,
            ..
        } => {
            put_words(line, &["open", kind.as_str(), site.as_str()]);
            line.put("|");
            put_words(line, &[incident_text(incident), call_text(call)]);
        }
        Command::Split {
            incident,
            call,
            kind,
            site,
            ..
        } => {
            put_words(line, &["split", incident.as_text(), call.as_text()]);
            line.put("|");
            put_words(line, &[kind.as_str(), site.as_str()]);
        }
        Command::Replace { node, token, .. } => {
            line.put_number("replace|", node.get() as u64);
            line.put_number("|", token.get());
        }
        _ => put_words(line, &command_words(command)),
    }
}

/// Puts the client, the number, the time and the words of an entry.
fn put_entry(line: &mut Line, entry: &Entry) {
    line.put_number("", entry.client.get());
    line.put_number("/", entry.number.get());
    line.put_time(" ", at_of(&entry.command));
    line.put(" ");
    put_command(line, &entry.command);
}

fn listed_word(state: ListedState) -> &'static str {
    match state {
        ListedState::Any => "any",
        ListedState::Open => "open",
        ListedState::Cleared => "cleared",
        ListedState::Merged => "merged",
    }
}

/// Puts the client of a show, and what it is shown.
fn put_show(line: &mut Line, show: &Show) {
    line.put_number("", show.client.get());
    line.put(" shows ");
    match &show.subject {
        Subject::Board => line.put("board"),
        Subject::Incident(id) => put_words(line, &["incident", id.as_text()]),
        Subject::Unit(name) => put_words(line, &["unit", name.as_text()]),
        Subject::List { state, from } => {
            put_words(line, &["list", listed_word(*state)]);
            if let Some(from) = from {
                line.put_number("|", *from);
            }
        }
    }
}

/// The name of the member that a refusal tells.
fn member_name(refusal: &Refusal) -> &'static str {
    match refusal {
        Refusal::Missing { member }
        | Refusal::WrongKind { member }
        | Refusal::OutOfRange { member }
        | Refusal::BadIdentifier { member }
        | Refusal::BadTime { member } => member.name(),
        _ => "",
    }
}

/// Puts the number of a refusal, and the name of the member that it tells.
fn put_refusal(line: &mut Line, refusal: &Refusal) {
    let member = member_name(refusal);
    line.put_number("", refusal.number() as u64);
    line.put(if member.is_empty() { "" } else { " " });
    line.put(member);
}

fn put_read(line: &mut Line, read: &Result<Ask, Refusal>) {
    match read {
        Ok(Ask::Command(entry)) => put_entry(line, entry),
        Ok(Ask::Show(show)) => put_show(line, show),
        Err(refusal) => put_refusal(line, refusal),
    }
}

/// What was read, as a text: of a command `7/1 1772366400 open|fire|12 Elm St|-|-`, of a show `7 shows unit|E1`, and of
/// a refusal `3 session`. There is none where memory for it is refused.
pub fn text_of(alloc: Global, read: Result<Ask, Refusal>) -> Option<String> {
    let mut line = Line::new(alloc);
    put_read(&mut line, &read);
    drop(read);
    line.into_text()
}

/// Whether what was read has this text.
pub fn has_text(alloc: Global, read: Result<Ask, Refusal>, wanted: &str) -> bool {
    match text_of(alloc, read) {
        Some(text) => is_said(text.as_str(), wanted),
        None => false,
    }
}
