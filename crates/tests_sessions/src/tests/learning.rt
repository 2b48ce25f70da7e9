//! Two sessions in one thread: what the first reads before and after it learns a word to the second.

ghost use Rattle.std.specs.Prelude.{◌≡◌};
ghost use Rattle.desk_mailbox.specs.Ends.{IsSameSender};

use super::known_wire::KnownWire;
use super::lines::REQUESTS;
use super::talking::{SessionParts, serve_show};
use desk_published::{Reported, ReportedWord};
use desk_sessions::{Line, NoGate};
use desk_threads::{BoardName, SessionEnds};
use desk_types::{ClientId, Command, Entry, KindText, RequestNumber, SiteText};
use std::alloc::Global;
use std::sync::Wait;

/// The second open of the second session.
fn second_open(alloc: Global) -> Option<Entry> {
    Some(Entry {
        client: ClientId::new(8)?,
        number: RequestNumber::new(2)?,
        command: Command::Open {
            at: 0,
            kind: KindText::new(alloc, "flood").ok()??,
            site: SiteText::new(alloc, "3 Mill Ln").ok()??,
            incident: None,
            call: None,
        },
    })
}

/// Asks an entry of the keeper: its word, if one comes.
fn ask<B: BoardName, R: Wait>(
    rt: &R,
    parts: SessionParts<B>,
    entry: Entry,
) -> (SessionParts<B>, Option<Reported<B>>)
    ensures { IsSameSender parts.sender result.0.sender }
{
    let SessionParts { sender, ends } = parts;
    let SessionEnds { words, reader } = ends;
    let (wire, reported) = KnownWire::new(sender, words).ask(rt, entry);
    (wire.into_parts(reader), reported.ok())
}

/// Has a session learn a word.
fn learn<B: BoardName>(parts: SessionParts<B>, reported: &Reported<B>) -> SessionParts<B>
    ensures { result.sender ≡ parts.sender }
{
    let SessionParts { sender, ends } = parts;
    let SessionEnds { words, reader } = ends;
    let reader = reader.learn(reported);
    SessionParts {
        sender,
        ends: SessionEnds { words, reader },
    }
}

/// Whether a show told at least a place.
fn reaches(shown: Option<u64>, place: u64) -> bool {
    match shown {
        Some(shown) => place <= shown,
        None => false,
    }
}

/// Shows the board to both sessions, before and after the first learns a word to the second: whether each show tells
/// at least the place that its session had read or learnt.
fn show_around<B: BoardName, R: Wait>(
    rt: &R,
    alloc: Global,
    first: SessionParts<B>,
    second: SessionParts<B>,
    reported: &Reported<B>,
) -> (SessionParts<B>, SessionParts<B>, bool)
    ensures first { IsSameSender first.sender result.0.sender }
    ensures second { IsSameSender second.sender result.1.sender }
{
    let (second, of_second) = serve_show(rt, alloc, learn(second, reported), &NoGate);
    let (first, before) = serve_show(rt, alloc, first, &NoGate);
    let (first, after) = serve_show(rt, alloc, learn(first, reported), &NoGate);
    let is_well = reaches(of_second, REQUESTS) && reaches(before, 1) && reaches(after, REQUESTS);
    (first, second, is_well)
}

/// The first session has read place 1, and is held. The second opens an incident, and is told that two entries are
/// published; its show tells place 2. The next show of the first tells place 1 or more, and once it has learnt the word
/// to the second, 2 or more.
pub(super) fn learn_a_word<B: BoardName, R: Wait>(
    rt: &R,
    alloc: Global,
    parts: (SessionParts<B>, SessionParts<B>),
) -> (SessionParts<B>, SessionParts<B>, bool)
    ensures first { IsSameSender parts.0.sender result.0.sender }
    ensures second { IsSameSender parts.1.sender result.1.sender }
{
    let (first, second) = parts;
    let Some(entry) = second_open(alloc) else {
        return (first, second, false);
    };
    let (second, reported) = ask(rt, second, entry);
    match reported {
        Some(reported)
            if matches!(reported.word(), ReportedWord::Published(count) if *count == REQUESTS) => {
            show_around(rt, alloc, first, second, &reported)
        }
        _ => (first, second, false),
    }
}
