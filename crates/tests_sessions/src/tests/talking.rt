//! Two sessions that are served at once.

ghost use Rattle.desk_mailbox.specs.Ends.{IsSameSender};

use super::carrying::{Inbox, stop_node};
use super::gate::{Flag, FlagGate};
use super::known_wire::KnownWire;
use super::learning::learn_a_word;
use super::lines::{FIRST, last_place};
use super::loopback::Loopback;
use desk_sessions::{Gate, NoGate, Session, serve_session};
use desk_threads::{BoardName, Item, Sender, SessionEnds};
use std::alloc::Global;
use std::io::{Read, Write};
use std::net::{Shutdown, TcpStream};
use std::rt::Clock;
use std::sync::Wait;
use std::thread;
use std::thread::Threads;

/// A session's sender and its ends.
#[derive(Drop)]
pub(super) struct SessionParts<B: BoardName> {
    pub(super) sender: Sender<Item>,
    pub(super) ends: SessionEnds<B>,
}

/// Serves a session: its ends, and whether it read and wrote to the end.
fn serve<B: BoardName, I: Read, O: Write, G: Gate, R: Wait>(
    rt: &R,
    alloc: Global,
    parts: SessionParts<B>,
    input: &mut I,
    output: &mut O,
    gate: &G,
) -> (SessionParts<B>, bool)
    ensures { IsSameSender parts.sender result.0.sender }
{
    let SessionParts { sender, ends } = parts;
    let SessionEnds { words, reader } = ends;
    match Session::new(alloc, KnownWire::new(sender, words), reader) {
        Ok(session) => {
            let (session, outcome) = serve_session(rt, alloc, input, output, session, gate);
            let Session {
                line,
                reader,
                arena,
            } = session;
            drop(arena);
            (line.into_parts(reader), outcome.is_ok())
        }
        Err((line, reader)) => (line.into_parts(reader), false),
    }
}

/// Serves a session that asks for the whole board: the place that its show told.
pub(super) fn serve_show<B: BoardName, G: Gate, R: Wait>(
    rt: &R,
    alloc: Global,
    parts: SessionParts<B>,
    gate: &G,
) -> (SessionParts<B>, Option<u64>)
    ensures { IsSameSender parts.sender result.0.sender }
{
    let (mut input, mut output) = (FIRST.as_bytes(), Vec::new(alloc));
    let (parts, is_served) = serve(rt, alloc, parts, &mut input, &mut output, gate);
    let place = if is_served {
        last_place(output.as_slice())
    } else {
        None
    };
    (parts, place)
}

/// Serves the second session over a connection, as a node does.
fn serve_second<B: BoardName, R: Wait>(
    rt: &R,
    alloc: Global,
    parts: SessionParts<B>,
    stream: &TcpStream,
) -> (SessionParts<B>, bool)
    ensures { IsSameSender parts.sender result.0.sender }
{
    let mut input = stream;
    let mut output = stream;
    let (parts, is_served) = serve(rt, alloc, parts, &mut input, &mut output, &NoGate);
    // where it was not served to the end, the client waits no longer
    let _ = stream.shutdown(Shutdown::Both);
    (parts, is_served)
}

/// What the sessions share with the client of the second.
#[derive(Drop)]
pub(super) struct Meeting {
    pub(super) flag: Flag,
    pub(super) loopback: Loopback,
}

/// Two sessions that have ended.
#[derive(Drop)]
pub(super) struct Talks<B: BoardName> {
    pub(super) first: SessionParts<B>,
    pub(super) second: SessionParts<B>,
    /// The replies came, and the first saw at least what the second had seen or was told.
    pub(super) is_well: bool,
}

/// Whether both shows told a place, and the first is not before the second.
fn is_in_order(first: Option<u64>, second: Option<u64>) -> bool {
    match (first, second) {
        (Some(first), Some(second)) => second <= first,
        _ => false,
    }
}

/// Serves both sessions, each in a thread of its own, where there is a meeting; then the first learns a word to the
/// second. At the end the node is stopped.
pub(super) fn talk<B: BoardName + Send + Sync, R: Threads + Wait + Clock + Sync>(
    rt: &R,
    alloc: Global,
    parts: (SessionParts<B>, SessionParts<B>),
    meeting: Option<&Meeting>,
    inboxes: &[Inbox],
) -> Talks<B>
    ensures first { IsSameSender parts.0.sender result.first.sender }
    ensures second { IsSameSender parts.1.sender result.second.sender }
{
    let (first, second) = parts;
    let Some(Meeting { flag, loopback }) = meeting else {
        return Talks {
            first,
            second,
            is_well: true,
        };
    };
    let gate = FlagGate { rt, flag };
    let ((first, shown), (second, is_served)) = thread::join(
        rt,
        || serve_show(rt, alloc, first, &gate),
        || serve_second(rt, alloc, second, &loopback.served),
    );
    let (first, second, is_learnt) = learn_a_word(rt, alloc, (first, second));
    stop_node(rt, inboxes, 0);
    Talks {
        first,
        second,
        is_well: is_served
            && flag.is_preserved()
            && flag.answers() == 1
            && is_in_order(shown, flag.seen())
            && is_learnt,
    }
}
