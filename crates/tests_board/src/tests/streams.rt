//! Runs of the program whose readers and writers give or take little, or fail in mid-stream. Runs that end well are the
//! examples of the repository.

mod failures;

use desk_options::HostRun;
use desk_program::{RunEnd, run_words};
use desk_types::{HashSeed, Refusal};
use std::alloc::Global;
use std::io;
use std::io::Read;
use tests_streams::{AtEnd, Sink, Source};

/// A run of the program: its words, what it reads, and what it writes where no call fails.
#[derive(Clone, Copy)]
struct Run {
    words: &'static [&'static str],
    input: &'static str,
    output: &'static str,
}

const OPEN: &str =
    r#"{"session":7,"number":1,"at":"2026-03-01T12:00:00Z","do":"open","kind":"fire","where":"12 Elm St"}"#;

const OPENED: &str = concat!(
    r#"{"incident":"urn:emergency:uid:incidentid:000000000001:desk.example","#,
    r#""number":1,"ok":"opened","place":1,"session":7}"#
);

/// An open, an empty line, a show, and the same open again.
const INPUT: &str =
    r#"{"session":7,"number":1,"at":"2026-03-01T12:00:00Z","do":"open","kind":"fire","where":"12 Elm St"}

{"do":"show","session":7}
{"session":7,"number":1,"at":"2026-03-01T12:00:00Z","do":"open","kind":"fire","where":"12 Elm St"}
"#;

const OUTPUT: &str = concat!(
    r#"{"incident":"urn:emergency:uid:incidentid:000000000001:desk.example","#,
    r#""number":1,"ok":"opened","place":1,"session":7}
{"incidents":1,"ok":"board","place":1,"session":7,"units":0}
{"incident":"urn:emergency:uid:incidentid:000000000001:desk.example","#,
    r#""number":1,"ok":"opened","place":1,"session":7}
"#
);

const REPLAY: Run = Run {
    words: &["replay", "--domain", "desk.example"],
    input: INPUT,
    output: OUTPUT,
};

/// Requests at a primary and at another node, and two packets.
const EVENTS: &str =
    r#"request 0 {"session":7,"number":1,"at":"2026-03-01T12:00:00Z","do":"open","kind":"fire","where":"12 Elm St"}
request 1 {"session":7,"number":1,"at":"2026-03-01T12:00:00Z","do":"open","kind":"fire","where":"12 Elm St"}
deliver 2
deliver 4
"#;

const REPORT: &str = concat!(
    r#"packet 1: 0 to 0 PrepareOk view 0 place 1
packet 2: 0 to 1 Prepare view 0 place 1 commit 0
packet 3: 0 to 2 Prepare view 0 place 1 commit 0
answer 1: {"node":0,"number":1,"refusal":30,"session":7,"view":0}
packet 4: 1 to 0 PrepareOk view 0 place 1
packet 5: 0 to 1 Commit view 0 commit 1
packet 6: 0 to 2 Commit view 0 commit 1
answer 0: {"incident":"urn:emergency:uid:incidentid:000000000001:desk.example","#,
    r#""number":1,"ok":"opened","place":1,"session":7}
node 0: view 0 normal 0 log 1 commit 1
node 1: view 0 normal 0 log 1 commit 0
node 2: view 0 normal 0 log 0 commit 0
"#
);

const WORLD: Run = Run {
    words: &["world", "--nodes", "3", "--domain", "desk.example"],
    input: EVENTS,
    output: REPORT,
};

/// What is told of a read that fails, and of a write.
const READ_FAULT: &[u8] = b"desk: 43 ReadFault\n";

const WRITE_FAULT: &[u8] = b"desk: 44 WriteFault\n";

/// The number of a fault, where it is what was told, and else 255.
fn number_of_digits(fault: &Refusal, errors: &[u8]) -> u8 {
    match fault {
        Refusal::ReadFault if errors == READ_FAULT => 43,
        Refusal::WriteFault if errors == WRITE_FAULT => 44,
        _ => 255,
    }
}

/// The number by which a run ends, 0 where it ends well, and 255 where it ends otherwise.
fn number_of(ran: Result<RunEnd, HostRun>, errors: &[u8]) -> u8 {
    match ran {
        Ok(RunEnd::Done) if errors.is_empty() => 0,
        Ok(RunEnd::Failed { fault }) => number_of_digits(&fault, errors),
        _ => 255,
    }
}

/// The same of a run of these words over these devices.
fn ended<R: Read>(alloc: Global, words: &[&str], source: &mut R, sink: &mut Sink) -> u8 {
    let mut errors = Vec::new(alloc);
    let ran = run_words(alloc, HashSeed::new(0), words, source, sink, &mut errors);
    number_of(ran, errors.as_slice())
}

/// What the devices of a run give and take.
#[derive(Clone, Copy)]
struct DeviceLimits {
    /// How many bytes of the input there are at most, and what the read after them does.
    input: usize,
    at_end_of_input: AtEnd,
    /// How many bytes a read gives at most, and a write takes.
    reads: usize,
    writes: usize,
    /// How many bytes are taken in all, and what comes after them.
    room: usize,
    at_end: AtEnd,
    flush_fails: bool,
}

/// Those of which no call fails.
const WHOLE: DeviceLimits = DeviceLimits {
    input: 10_000,
    at_end_of_input: AtEnd::NoBytes,
    reads: 1_000,
    writes: 1_000,
    room: 10_000,
    at_end: AtEnd::Fails,
    flush_fails: false,
};

/// The number by which a run over devices ends, and what they took.
fn run_over(alloc: Global, run: &Run, devices: DeviceLimits) -> (u8, Sink) {
    let input = run.input.as_bytes();
    let (given, _) = input.split_at(devices.input.min(input.len()));
    let mut source = Source::in_pieces(given, devices.reads);
    source.at_end = devices.at_end_of_input;
    let mut sink = Sink::in_pieces(Vec::new(alloc), devices.writes);
    sink.room = devices.room;
    sink.at_end = devices.at_end;
    sink.flush_fails = devices.flush_fails;
    let number = ended(alloc, run.words, &mut source, &mut sink);
    (number, sink)
}

/// Whether a run over devices ends by this number, and they took exactly so many of the first bytes of its output.
fn ends_after(alloc: Global, run: &Run, devices: DeviceLimits, number: u8, taken: usize) -> bool {
    let (ended, sink) = run_over(alloc, run, devices);
    ended == number
        && sink.bytes.len() == taken
        && run.output.as_bytes().starts_with(sink.bytes.as_slice())
}

#[test]
fn writes_the_same_in_short_reads_and_writes(rt: HostRuntime) {
    for run in [&REPLAY, &WORLD] {
        for (reads, writes) in [(1, 1), (1, 1000), (7, 3), (1000, 1), (1000, 1000)] {
            let devices = DeviceLimits {
                reads,
                writes,
                ..WHOLE
            };
            assert!(rt;
                ends_after(rt.alloc(), run, devices, 0, run.output.len()),
                "{reads} {writes}"
            );
        }
    }
}

/// Of a replay, whole replies come before a read that fails; of a script nothing does.
#[test]
fn a_read_that_fails_ends_a_run_after_whole_replies(rt: HostRuntime) {
    for (run, input, taken) in [
        (&REPLAY, 0, 0),
        (&REPLAY, OPEN.len(), 0),
        (&REPLAY, OPEN.len() + 1, OPENED.len() + 1),
        (&REPLAY, OPEN.len() + 10, OPENED.len() + 1),
        (&REPLAY, INPUT.len(), OUTPUT.len()),
        (&WORLD, EVENTS.len(), 0),
    ] {
        let devices = DeviceLimits {
            input,
            at_end_of_input: AtEnd::Fails,
            reads: 16,
            ..WHOLE
        };
        assert!(rt; ends_after(rt.alloc(), run, devices, 43, taken), "{input}");
    }
}

#[test]
fn a_write_that_fails_ends_a_run_after_a_prefix(rt: HostRuntime) {
    for (run, room) in [
        (&REPLAY, 0),
        (&REPLAY, 1),
        (&REPLAY, OPENED.len()),
        (&REPLAY, OPENED.len() + 1),
        (&REPLAY, OUTPUT.len().saturating_sub(1)),
        (&WORLD, 0),
        (&WORLD, 1),
        (&WORLD, 60),
        (&WORLD, REPORT.len().saturating_sub(1)),
    ] {
        for at_end in [AtEnd::Fails, AtEnd::NoBytes] {
            let devices = DeviceLimits {
                writes: 10,
                room,
                at_end,
                ..WHOLE
            };
            assert!(rt; ends_after(rt.alloc(), run, devices, 44, room), "{room}");
        }
    }
}

/// Whether a run over devices ends by this number, and what they let go is this.
fn flushes(alloc: Global, run: &Run, devices: DeviceLimits, number: u8, sent: &str) -> bool {
    let (ended, sink) = run_over(alloc, run, devices);
    ended == number && sink.sent() == sent.as_bytes()
}

// What the reader does at its end, whether the writer fails where it is flushed, the number, and what the writer let
// go.
const FLUSHED: &[(&Run, AtEnd, bool, u8, &str)] = &[
    (&REPLAY, AtEnd::NoBytes, false, 0, OUTPUT),
    (&REPLAY, AtEnd::Fails, false, 43, OUTPUT),
    (&REPLAY, AtEnd::Fails, true, 44, ""),
    (&WORLD, AtEnd::NoBytes, false, 0, REPORT),
];

#[test]
fn no_reply_waits_for_input(rt: HostRuntime) {
    for &(run, at_end_of_input, flush_fails, number, sent) in FLUSHED {
        let devices = DeviceLimits {
            at_end_of_input,
            flush_fails,
            ..WHOLE
        };
        assert!(rt; flushes(rt.alloc(), run, devices, number, sent), "{number}");
    }
}

/// How many reads a run makes of an input that is there at once.
fn reads_of(alloc: Global, run: &Run) -> u64 {
    let mut source = Source::whole(run.input.as_bytes());
    let mut sink = Sink::whole(Vec::new(alloc));
    let _ = ended(alloc, run.words, &mut source, &mut sink);
    source.calls.count_made()
}

// A read of what is there, and one that finds the end. No contract shows how many bytes a read asks for.
#[test]
fn an_input_that_is_there_takes_two_reads(rt: HostRuntime) {
    for run in [&REPLAY, &WORLD] {
        assert!(rt; reads_of(rt.alloc(), run) == 2);
    }
}

/// A reader that gives so many spaces, one a read, before another's bytes. Each thousandth is the end of a line.
#[derive(Drop)]
struct Spaced<'a> {
    spaces: u64,
    source: Source<'a>,
}

impl<'a> Read for Spaced<'a> {
    fn read(&mut self, buf: &mut [u8]) -> io::Result<usize> {
        if self.spaces > 0 && !buf.is_empty() {
            buf[0] = if self.spaces % 1000 == 0 { b'\n' } else { b' ' };
            self.spaces -= 1;
            return Ok(1);
        }
        self.source.read(buf)
    }
}

/// Whether an open is answered after so many spaces and ends of lines, one a read.
fn answers_behind(alloc: Global, spaces: u64) -> bool {
    let mut source = Spaced {
        spaces,
        source: Source::whole(OPEN.as_bytes()),
    };
    let mut sink = Sink::whole(Vec::new(alloc));
    ended(alloc, REPLAY.words, &mut source, &mut sink) == 0
        && sink.bytes.as_slice().starts_with(OPENED.as_bytes())
}

#[test]
fn two_million_reads_are_not_too_many(rt: HostRuntime) {
    assert!(rt; answers_behind(rt.alloc(), 2_000_000));
}
