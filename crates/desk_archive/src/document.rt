//! The document line of an entry.

ghost use Rattle.std.specs.Prelude.{◌≡◌, ◌⊎◌, IfOk, IfErr, IfSome, IsNone, string_bytes};
ghost use Rattle.jiff_core.specs.Timestamp.{IsTimestampNanos};
ghost use Rattle.desk_types.specs.declared.refusal.Refusal.TheVariants as refusals;
ghost use Rattle.desk_eido.specs.ReplyLine.{status_text};
ghost use Rattle.desk_eido.specs.Writing.{with_all};
ghost use Rattle.desk_archive.specs.Document.{verb_word, two_texts, opened_members, split_members};
ghost use Rattle.desk_archive.specs.Document.{replacement_members, verb_members};
ghost use Rattle.desk_archive.specs.Document.{head_members, instant, nanoseconds, line_with, IsLineOf};

use crate::document_writer::DocumentWriter;
use desk_types::{
    CallId, Command, Entry, IncidentId, KindText, NodeNumber, Refusal, SiteText, Status, Token,
    WantOfMemory,
};
use jiff_core::Timestamp;
use jiff_fmt::temporal::DateTimePrinter;
use std::alloc::Global;

/// The word of a command's verb.
fn verb_word(command: &Command) -> &'static str
    ensures { result.now ≡ verb_word command.now }
{
    match command {
        Command::Open { .. } => "open",
        Command::AddCall { .. } => "add_call",
        Command::Link { .. } => "link",
        Command::Unlink { .. } => "unlink",
        Command::Merge { .. } => "merge",
        Command::Split { .. } => "split",
        Command::Clear { .. } => "clear",
        Command::Reopen { .. } => "reopen",
        Command::Note { .. } => "note",
        Command::SignOn { .. } => "sign_on",
        Command::SignOff { .. } => "sign_off",
        Command::Assign { .. } => "assign",
        Command::SetStatus { .. } => "status",
        Command::Release { .. } => "release",
        Command::StandBy { .. } => "stand_by",
        Command::StandDown { .. } => "stand_down",
        Command::Replace { .. } => "replace",
    }
}

/// The instant of a command, in whole seconds since 1970.
fn instant(command: &Command) -> i64
    ensures { result ≡ instant command.now }
{
    match command {
        Command::Open { at, .. }
        | Command::AddCall { at, .. }
        | Command::Link { at, .. }
        | Command::Unlink { at, .. }
        | Command::Merge { at, .. }
        | Command::Split { at, .. }
        | Command::Clear { at, .. }
        | Command::Reopen { at, .. }
        | Command::Note { at, .. }
        | Command::SignOn { at, .. }
        | Command::SignOff { at, .. }
        | Command::Assign { at, .. }
        | Command::SetStatus { at, .. }
        | Command::Release { at, .. }
        | Command::StandBy { at, .. }
        | Command::StandDown { at, .. }
        | Command::Replace { at, .. } => *at,
    }
}

/// The instant of a command, where a document can name it.
fn timestamp(command: &Command) -> Option<Timestamp>
    ensures value { IfSome result (λ at. at.nanosecond ≡ nanoseconds (instant command.now)) }
    ensures none { IsNone result → ¬ IsTimestampNanos (nanoseconds (instant command.now)) }
{
    match Timestamp::from_nanosecond(instant(command) as i128 * 1_000_000_000) {
        Ok(at) => Some(at),
        Err(_) => None,
    }
}

/// The word that tells a unit's status.
fn status_word(status: Status) -> &'static str
    ensures { result.now ≡ status_text status }
{
    match status {
        Status::Available => "available",
        Status::Dispatched => "dispatched",
        Status::EnRoute => "en_route",
        Status::OnScene => "on_scene",
        Status::Transporting => "transporting",
        Status::AtFacility => "at_facility",
        Status::OutOfService => "out_of_service",
    }
}

// The commands with more than two members of their own are written in functions of their own: a body with many `?` is
// dear to prove.

/// With the members that tell of what is opened.
fn with_opened(
    document: DocumentWriter,
    kind: &KindText,
    site: &SiteText,
    incident: &Option<IncidentId>,
    call: &Option<CallId>,
) -> Result<DocumentWriter, WantOfMemory>
    ensures { IfOk result (λ w.
        w ≡ with_all (opened_members kind.now site.now incident.now call.now) document) }
{
    document
        .text("kind", kind.as_str())?
        .text("where", site.as_str())?
        .optional_incident("incident", incident)?
        .optional_call("call", call)
}

/// With the members that tell of what is split off.
fn with_split(
    document: DocumentWriter,
    incident: &IncidentId,
    call: &CallId,
    kind: &KindText,
    site: &SiteText,
) -> Result<DocumentWriter, WantOfMemory>
    ensures { IfOk result (λ w.
        w ≡ with_all (split_members incident.now call.now kind.now site.now) document) }
{
    document
        .text("incident", incident.as_text())?
        .text("call", call.as_text())?
        .text("kind", kind.as_str())?
        .text("where", site.as_str())
}

/// With the members under these two names.
fn with_two(
    document: DocumentWriter,
    one: &str,
    text: &str,
    other: &str,
    more: &str,
) -> Result<DocumentWriter, WantOfMemory>
    ensures { IfOk result (λ w. w ≡ with_all (two_texts one.now text.now other.now more.now) document) }
{
    document.text(one, text)?.text(other, more)
}

/// With the members that tell of a replacement.
fn with_replacement(
    document: DocumentWriter,
    node: NodeNumber,
    token: Token,
) -> Result<DocumentWriter, WantOfMemory>
    ensures { IfOk result (λ w. w ≡ with_all (replacement_members node token) document) }
{
    document
        .count("node", node.get() as u64)?
        .count("token", token.get())
}

/// With the members that a command has beside its verb and its instant.
fn with_verb(document: DocumentWriter, command: &Command) -> Result<DocumentWriter, WantOfMemory>
    ensures { IfOk result (λ w. w ≡ with_all (verb_members command.now) document) }
{
    match command {
        Command::Open {
            kind,
            site,
            incident,
            call,
            ..
        } => with_opened(document, kind, site, incident, call),
        Command::AddCall { incident, call, .. } => {
            with_two(
                document,
                "incident",
                incident.as_text(),
                "call",
                call.as_text(),
            )
        }
        Command::Link {
            incident,
            other,
            ..
        }
        | Command::Unlink {
            incident,
            other,
            ..
        } => {
            with_two(
                document,
                "incident",
                incident.as_text(),
                "other",
                other.as_text(),
            )
        }
        Command::Merge { incident, into, .. } => {
            with_two(
                document,
                "incident",
                incident.as_text(),
                "into",
                into.as_text(),
            )
        }
        Command::Split {
            incident,
            call,
            kind,
            site,
            ..
        } => with_split(document, incident, call, kind, site),
        Command::Clear { incident, .. } | Command::Reopen { incident, .. } => {
            document.text("incident", incident.as_text())
        }
        Command::Note { incident, text, .. } => {
            with_two(
                document,
                "incident",
                incident.as_text(),
                "text",
                text.as_str(),
            )
        }
        Command::SignOn { unit, .. }
        | Command::SignOff { unit, .. }
        | Command::Release { unit, .. }
        | Command::StandDown { unit, .. } => document.text("unit", unit.as_text()),
        Command::Assign { unit, incident, .. } | Command::StandBy { unit, incident, .. } => {
            with_two(
                document,
                "unit",
                unit.as_text(),
                "incident",
                incident.as_text(),
            )
        }
        Command::SetStatus { unit, status, .. } => {
            with_two(
                document,
                "unit",
                unit.as_text(),
                "status",
                status_word(*status),
            )
        }
        Command::Replace { node, token, .. } => with_replacement(document, *node, *token),
    }
}

/// With the members that every command has.
fn with_head(
    document: DocumentWriter,
    entry: &Entry,
    at: &str,
) -> Result<DocumentWriter, WantOfMemory>
    ensures { IfOk result (λ w. w ≡ with_all (head_members at.now entry.now) document) }
{
    document
        .count("session", entry.client.get())?
        .count("number", entry.number.get())?
        .text("at", at)?
        .text("do", verb_word(&entry.command))
}

/// The line of an entry, with this text for its instant.
fn line_with(alloc: Global, entry: &Entry, at: &str) -> Result<String, WantOfMemory>
    ensures { IfOk result (λ line. string_bytes line ≡ line_with at.now entry.now) }
{
    let document = with_head(DocumentWriter::new(alloc)?, entry, at)?;
    with_verb(document, &entry.command)?.into_line()
}

/// The document line of an entry: whoever sends it asks for the command of the entry, as its client and under its
/// number. An instant outside of the years -9999 to 9999, which no document names, is refused by `WrongFile`, and a
/// refused growth is `WantOfMemory`.
pub fn document_line(alloc: Global, entry: &Entry) -> Result<String, Refusal>
    ensures line { IfOk result (λ line. IsLineOf entry.now (string_bytes line)) }
    ensures fault { IfErr result (λ r. (r ≡ refusals.WantOfMemory) ⊎ (r ≡ refusals.WrongFile)) }
    ensures no_instant { IfErr result (λ r. r ≡ refusals.WrongFile
        → ¬ IsTimestampNanos (nanoseconds (instant entry.now.command))) }
{
    let Some(at) = timestamp(&entry.command) else {
        return Err(Refusal::WrongFile);
    };
    let text = DateTimePrinter::new().timestamp_text(at);
    Ok(line_with(alloc, entry, text.as_str())?)
}
