//! A session's lines where memory is refused, to the session or to its keeper.

use super::super::keeping::{Keeps, Way};
use super::super::near::Serves;
use super::over::{DrivesRows, Ended, is_done_in_memory};
use std::alloc::Global;
use tests_streams::{Sink, Source};

/// Three commands, each of a client of its own, a line that is no document, and a show, with their replies.
const ROWS: &[(&str, &str)] = &[
    (
        r#"{"session":7,"number":1,"at":"2026-03-01T12:00:00Z","do":"open","kind":"fire","where":"12 Elm St"}"#,
        "{\"incident\":\"urn:emergency:uid:incidentid:000000000001:desk.example\",\
          \"number\":1,\"ok\":\"opened\",\"place\":1,\"session\":7}\n",
    ),
    (
        r#"{"session":8,"number":1,"at":"2026-03-01T12:00:00Z","do":"sign_on","unit":"E1"}"#,
        "{\"number\":1,\"ok\":\"signed_on\",\"place\":2,\"session\":8}\n",
    ),
    ("[]", "{\"refusal\":1}\n"),
    (
        concat!(
            r#"{"session":9,"number":1,"at":"2026-03-01T12:00:00Z","do":"assign","unit":"E1","#,
            r#""incident":"urn:emergency:uid:incidentid:000000000001:desk.example"}"#
        ),
        "{\"number\":1,\"ok\":\"assigned\",\"place\":3,\"session\":9}\n",
    ),
    (
        r#"{"session":7,"do":"show"}"#,
        "{\"incidents\":1,\"ok\":\"board\",\"place\":3,\"session\":7,\"units\":1}\n",
    ),
];

/// The reply of want of memory.
const WANT: &str = "{\"refusal\":40}\n";

/// How the reply begins to a request that the keeper's node was refused memory for: it is to be asked again.
const AGAIN: &str = "{\"number\":1,\"refusal\":32,";

/// How the reply begins where the store failed.
const STOPPED: &str = "{\"number\":1,\"refusal\":34,";

/// The bytes of a reply at most.
const REPLY_BYTES: usize = 1_024;

/// What comes of a line.
#[derive(Clone, Copy, PartialEq, Eq)]
enum Came {
    Replied,
    /// It is to be sent again.
    Refused,
    Stopped,
    Wrong,
}

/// What the number of a refusal and what was written come to, where this reply is wanted.
fn came_of(number: u8, output: &[u8], reply: &str) -> Came {
    let is_want = output == WANT.as_bytes() || output.starts_with(AGAIN.as_bytes());
    match number {
        0 if output == reply.as_bytes() => Came::Replied,
        0 if is_want => Came::Refused,
        0 if output.starts_with(STOPPED.as_bytes()) => Came::Stopped,
        40 if output.is_empty() => Came::Refused,
        _ => Came::Wrong,
    }
}

/// Serves one line. Where there is no memory for what is written it is not served.
fn serve_line<N: Serves>(alloc: Global, near: N, line: &str, reply: &str, way: Way) -> (N, Came) {
    let mut output = Vec::new(alloc);
    if output.reserve(REPLY_BYTES).is_err() {
        return (near, Came::Refused);
    }
    let (mut source, mut sink) = (Source::whole(line.as_bytes()), Sink::whole(output));
    let (near, number) = near.serve(alloc, &mut source, &mut sink, way);
    (near, came_of(number, sink.bytes.as_slice(), reply))
}

/// Whether this may come of a line that is sent again. In turns a stop comes after each request: one that was not
/// answered hears `NodeStopped` also where the store did not fail.
fn may_follow(first: Came, second: Came, way: Way) -> bool {
    match (first, second, way) {
        (Came::Refused, Came::Replied, _) => true,
        (Came::Stopped, Came::Stopped, _) => true,
        (Came::Stopped, Came::Replied, Way::Turns(_)) => true,
        _ => false,
    }
}

/// Serves a line, and once more where it is to be sent again or the store failed: it is replied then, or stays stopped.
fn serve_at_last<N: Serves>(
    alloc: Global,
    near: N,
    line: &str,
    reply: &str,
    way: Way,
) -> (N, Came) {
    let (near, first) = serve_line(alloc, near, line, reply, way);
    if first == Came::Replied {
        return (near, first);
    }
    let (near, second) = serve_line(alloc, near, line, reply, way);
    let is_well = may_follow(first, second, way);
    (near, if is_well { second } else { Came::Wrong })
}

/// How rows end where this came of the row of this number.
fn ended_by(came: Came, at: usize) -> Ended {
    match came {
        Came::Stopped => Ended::Stopped(at),
        _ => Ended::Wrong,
    }
}

/// Serves the rows from this one on.
fn serve_rows<N: Serves>(alloc: Global, near: N, first: usize, way: Way) -> (N, Ended) {
    let mut near = near;
    let mut at = 0usize;
    for &(line, reply) in ROWS {
        if at >= first {
            let (back, came) = serve_at_last(alloc, near, line, reply, way);
            near = back;
            if came != Came::Replied {
                return (near, ended_by(came, at));
            }
        }
        at = at.wrapping_add(1);
    }
    (near, Ended::Done)
}

/// So many items share a save.
const IN_TURNS: Way = Way::Turns(64);

/// The rows of lines, whose requests are done in this way.
struct LineRows {
    way: Way,
}

impl DrivesRows for LineRows {
    // After all rows three commands are done.
    fn drive_rows<N: Serves>(&self, alloc: Global, near: N, failed: Option<usize>) -> (N, Ended) {
        let (near, ended) = serve_rows(alloc, near, failed.unwrap_or(0), self.way);
        let stand = near.stand();
        let is_well = ended != Ended::Done || (stand.commit, stand.published) == (3, 3);
        (near, if is_well { ended } else { Ended::Wrong })
    }
}

#[test]
fn each_line_is_replied_at_last(rt: HostRuntime) {
    let alloc = rt.alloc();
    assert!(rt; is_done_in_memory(&LineRows { way: Way::Items }, rt, alloc));
}

#[test]
fn each_line_of_turns_is_replied_at_last(rt: HostRuntime) {
    let alloc = rt.alloc();
    assert!(rt; is_done_in_memory(&LineRows { way: IN_TURNS }, rt, alloc));
}
