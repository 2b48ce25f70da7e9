//! Runs of the program in which a read or a write fails, each in turn; the calls after it pass, or fail too.

use super::{REPLAY, Run, WORLD, ended};
use std::alloc::Global;
use tests_streams::{Calls, Sink, Source};

/// Which calls come to the one that fails.
#[derive(Clone, Copy)]
enum Side {
    Reads,
    Writes,
}

/// The number by which a run ends of which a call fails, 0 where it ends well and wrote all; 255 where it ends
/// otherwise, or what it wrote is no prefix of its output, or anything where the first call fails.
fn ended_by(alloc: Global, run: &Run, side: Side, calls: Calls) -> u8 {
    let mut source = Source::in_pieces(run.input.as_bytes(), 16);
    let mut sink = Sink::in_pieces(Vec::new(alloc), 10);
    match side {
        Side::Reads => source.calls = calls,
        Side::Writes => sink.calls = calls,
    }
    let number = ended(alloc, run.words, &mut source, &mut sink);
    let least = if number == 0 { run.output.len() } else { 0 };
    let most = if calls.passing == 0 {
        0
    } else {
        run.output.len()
    };
    let is_prefix = run.output.as_bytes().starts_with(sink.bytes.as_slice());
    if is_prefix && least <= sink.bytes.len() && sink.bytes.len() <= most {
        number
    } else {
        255
    }
}

/// What is told of the call that fails.
fn reported(side: Side) -> u8 {
    match side {
        Side::Reads => 43,
        Side::Writes => 44,
    }
}

/// How many calls fail in turn, each with its fault and a prefix, until a run meets none. It is None where a run ends
/// in another way.
fn failures(alloc: Global, run: &Run, side: Side, goes_on: bool) -> Option<u64> {
    for passing in 0..1_000u64 {
        let number = ended_by(alloc, run, side, Calls { passing, goes_on });
        if number == 0 {
            return Some(passing);
        }
        if number != reported(side) {
            return None;
        }
    }
    None
}

#[test]
fn a_call_that_fails_is_told_after_a_prefix(rt: HostRuntime) {
    for run in [&REPLAY, &WORLD] {
        for goes_on in [false, true] {
            let reads = failures(rt.alloc(), run, Side::Reads, goes_on).unwrap_or(0);
            let writes = failures(rt.alloc(), run, Side::Writes, goes_on).unwrap_or(0);
            assert!(rt; reads > 8);
            assert!(rt; writes > 30);
        }
    }
}
