//! Sessions whose reader or writer fails at a call, and at those after it or not.

ghost use Rattle.std.specs.Prelude.{◌≡◌};

use super::keeping::{Stand, Way};
use super::near::{Drives, Serves, drive_over};
use desk_log::MemoryStore;
use desk_threads::{BoardName, NewHistory};
use desk_types::Domain;
use std::alloc::Global;
use std::marker::Brand;
use std::sync::Wait;
use tests_streams::{AtEnd, Calls, Sink, Source};

/// Three commands, each of a client of its own, and a line that is no document.
const INPUT: &str = concat!(
    r#"{"session":7,"number":1,"at":"2026-03-01T12:00:00Z","do":"open","kind":"fire","where":"12 Elm St"}

{"session":8,"number":1,"at":"2026-03-01T12:00:00Z","do":"sign_on","unit":"E1"}
[]
{"session":9,"number":1,"at":"2026-03-01T12:00:00Z","do":"assign","unit":"E1","#,
    r#""incident":"urn:emergency:uid:incidentid:000000000001:desk.example"}
"#
);

/// Their replies, where no call fails.
const OUTPUT: &str = concat!(
    r#"{"incident":"urn:emergency:uid:incidentid:000000000001:desk.example","#,
    r#""number":1,"ok":"opened","place":1,"session":7}
{"number":1,"ok":"signed_on","place":2,"session":8}
{"refusal":1}
{"number":1,"ok":"assigned","place":3,"session":9}
"#
);

/// How many replies are written in whole before so many commands are answered.
const ANSWERED: &[u64] = &[0, 1, 2, 2, 3];

/// The calls of a session's devices, how many bytes each call takes, and what the writer does in one that fails.
#[derive(Clone, Copy)]
struct Devices {
    reads: Calls,
    writes: Calls,
    most: usize,
    at_end: AtEnd,
}

impl Devices {
    /// Those that do not fail.
    fn whole() -> Devices {
        Devices {
            reads: Calls::all_pass(),
            writes: Calls::all_pass(),
            most: 1_000,
            at_end: AtEnd::Fails,
        }
    }
}

/// Serves a session from its first line on, whose requests are done in this way: the number of the refusal, 0 where
/// there is none, and what was written.
fn serve_over<N: Serves>(alloc: Global, near: N, devices: Devices, way: Way) -> (N, u8, Vec<u8>) {
    let mut source = Source::in_pieces(INPUT.as_bytes(), devices.most);
    source.calls = devices.reads;
    let mut sink = Sink::in_pieces(Vec::new(alloc), devices.most);
    sink.calls = devices.writes;
    sink.at_end = devices.at_end;
    let (near, number) = near.serve(alloc, &mut source, &mut sink, way);
    (near, number, sink.bytes)
}

/// How many whole lines there are.
fn count_lines(bytes: &[u8]) -> usize {
    let mut count = 0usize;
    for byte in bytes {
        if *byte == b'\n' {
            count = count.wrapping_add(1);
        }
    }
    count
}

/// How many commands are answered by so many of the replies.
fn answered_by(replies: usize) -> u64 {
    match ANSWERED.get(replies) {
        Some(count) => *count,
        None => 3,
    }
}

/// Whether the first of the replies were written, all lines whole unless a write failed, and each command was done that
/// they answer, or that the next does.
fn is_cut(number: u8, output: &[u8], stand: Stand) -> bool {
    let lines = count_lines(output);
    let is_whole = output.is_empty() || output.ends_with(b"\n");
    OUTPUT.as_bytes().starts_with(output)
        && (is_whole || number == 44)
        && answered_by(lines) <= stand.published
        && stand.published <= answered_by(lines.saturating_add(1))
        && stand.commit == stand.published
}

/// Serves a session that these devices end: the number by which it ended, and whether the first replies were written,
/// and what was put was done once.
fn serve_cut<N: Serves>(alloc: Global, near: N, devices: Devices, way: Way) -> (N, u8, bool) {
    let (near, number, output) = serve_over(alloc, near, devices, way);
    let stand = near.stand();
    let is_well = is_cut(number, output.as_slice(), stand);
    (near, number, is_well)
}

/// Whether the same lines are served once more: all replies are those of three commands that were done in turn.
fn is_served_again<N: Serves>(alloc: Global, near: N, way: Way) -> (N, bool) {
    let (near, number, output) = serve_over(alloc, near, Devices::whole(), way);
    let stand = near.stand();
    let is_well = number == 0 && output.as_slice() == OUTPUT.as_bytes() && stand.commit == 3;
    (near, is_well)
}

/// A session that these devices end, and whose requests are done in this way, and the number by which it ended, where
/// it and another are well.
#[derive(Clone, Copy)]
struct Ending {
    devices: Devices,
    way: Way,
    number: Option<u8>,
}

impl Drives for Ending {
    // It serves a session that the devices end, and then the same lines once more.
    fn drive<N: Serves>(&mut self, alloc: Global, near: N) -> N {
        let (near, number, is_well) = serve_cut(alloc, near, self.devices, self.way);
        let (near, is_served) = is_served_again(alloc, near, self.way);
        if is_well && is_served {
            self.number = Some(number);
        }
        near
    }
}

/// The same of a new node, by the name of its board.
fn end_named<B: BoardName, R: Wait + Drop + Copy>(
    rt: R,
    alloc: Global,
    history: NewHistory,
    domain: &Domain,
    devices: Devices,
    way: Way,
) -> Option<u8>
    requires book { history.seen.book ≡ B.book }
    requires domain { domain.now ≡ B.domain }
{
    let mut ending = Ending {
        devices,
        way,
        number: None,
    };
    let store = MemoryStore::new(alloc);
    let left = drive_over::<Ending, B, _, R>(&mut ending, rt, alloc, history, domain, store);
    drop(left);
    ending.number
}

/// The same over a store in memory.
fn end_of<R: Wait + Drop + Copy>(rt: R, alloc: Global, devices: Devices, way: Way) -> Option<u8> {
    let domain = Domain::new(alloc, "desk.example").ok()?;
    end_named::<Brand, R>(rt, alloc, NewHistory::new(), &domain, devices, way)
}

/// The device that fails, a writer by what it does then.
#[derive(Clone, Copy)]
enum Side {
    Reader,
    Writer(AtEnd),
}

/// Devices of which one has these calls.
fn devices_of(side: Side, calls: Calls, most: usize) -> Devices {
    let whole = Devices::whole();
    match side {
        Side::Reader => Devices {
            reads: calls,
            most,
            ..whole
        },
        Side::Writer(at_end) => Devices {
            writes: calls,
            most,
            at_end,
            ..whole
        },
    }
}

/// Has a device fail at each of its calls in turn, and at those after it or not, until a session comes to its end: how
/// many sessions were ended. Each of them by the number of the row, else it is `None`.
fn count_ends<R: Wait + Drop + Copy>(
    rt: R,
    alloc: Global,
    row: Row,
    goes_on: bool,
    way: Way,
) -> Option<u64> {
    let (side, most, number, _) = row;
    for passing in 0..1_000u64 {
        let calls = Calls { passing, goes_on };
        let ended = end_of(rt, alloc, devices_of(side, calls, most), way)?;
        if ended == 0 {
            return Some(passing);
        }
        if ended != number {
            return None;
        }
    }
    None
}

/// A device, the bytes of a call, how a session ends by it, and how many calls it takes at least.
type Row = (Side, usize, u8, u64);

const ROWS: &[Row] = &[
    (Side::Reader, 1_000, 43, 2),
    (Side::Reader, 16, 43, 20),
    (Side::Writer(AtEnd::Fails), 1_000, 44, 5),
    (Side::Writer(AtEnd::Fails), 24, 44, 20),
    (Side::Writer(AtEnd::NoBytes), 1_000, 44, 5),
    (Side::Writer(AtEnd::NoBytes), 24, 44, 20),
];

/// The rows, twice each, whose device ends fewer sessions than it takes, or one in another way: 1 for the first, 2 for
/// the next, 4 for the one after it, and so on.
fn wrong_rows<R: Wait + Drop + Copy>(rt: R, alloc: Global, way: Way) -> u64 {
    let (mut wrong, mut bit) = (0u64, 1u64);
    for &row in ROWS {
        for goes_on in [false, true] {
            if count_ends(rt, alloc, row, goes_on, way).unwrap_or(0) < row.3 {
                wrong |= bit;
            }
            bit = bit.wrapping_mul(2);
        }
    }
    wrong
}

#[test]
fn what_was_put_before_a_device_failed_is_done(rt: HostRuntime) {
    let alloc = rt.alloc();
    let wrong = wrong_rows(rt, alloc, Way::Items);
    assert!(rt; wrong == 0, "{wrong}");
}

#[test]
fn what_was_put_in_turns_before_a_device_failed_is_done(rt: HostRuntime) {
    let alloc = rt.alloc();
    for most in [2, 64] {
        let wrong = wrong_rows(rt, alloc, Way::Turns(most));
        assert!(rt; wrong == 0, "{most}: {wrong}");
    }
}
