//! A node of which one read or one write fails, each in turn; the calls after it would pass.

use super::disks::{Trial, answer_of};
use super::{FIRST, INITIAL, NODE_1, OTHER, SECOND, State, domain_at_last, load, open_file};
use desk_answer::{Answered, answer_database};
use desk_saved::SavedState;
use desk_types::{Owner, Refusal};
use sqlite::{Alter, Connection};
use std::alloc::{AllocError, Global};
use tests_streams::{Calls, Sink, Source};

/// Node 0's Prepare in view 0 for place 1, with commit 0, up to its entry.
const PREPARE: &[u8] = b"\0\0\0\x47\x01\x01\0\0\0\0\0\0\0\0\0\0\0\0\0\0\0\0\x01\0\0\0\0\0\0\0\0";

/// The entry: client 7 opens an incident by its request 1.
const ENTRY: &[u8] =
    b"\0\0\0\0\0\0\0\x07\0\0\0\0\0\0\0\x01\0\x1a\x01\0\0\0\0\x69\xa4\x2a\x40\x04fire\x0912 Elm St\0\0";

/// Node 0's Prepare in view 0 for place 2, with commit 1, up to its entry.
const PREPARE_2: &[u8] =
    b"\0\0\0\x39\x01\x01\0\0\0\0\0\0\0\0\0\0\0\0\0\0\0\0\x02\0\0\0\0\0\0\0\x01";

/// Node 0's Prepare in view 0 for place 3, with commit 2, up to its entry.
const PREPARE_3: &[u8] =
    b"\0\0\0\x39\x01\x01\0\0\0\0\0\0\0\0\0\0\0\0\0\0\0\0\x03\0\0\0\0\0\0\0\x02";

/// What node 1 answers: its PrepareOk for each place.
const OUTPUT: &[u8] = b"\0\0\0\x13\x01\x02\x01\0\0\0\0\0\0\0\0\0\0\0\0\0\0\0\x01\
\0\0\0\x13\x01\x02\x01\0\0\0\0\0\0\0\0\0\0\0\0\0\0\0\x02\
\0\0\0\x13\x01\x02\x01\0\0\0\0\0\0\0\0\0\0\0\0\0\0\0\x03";

/// How many bytes each of them has.
const ANSWER_BYTES: usize = 23;

/// Where each packet ends in the input.
const ENDS: [u64; 3] = [75, 136, 197];

/// What is saved after each of the packets.
const STATES: &[State] = &[
    INITIAL,
    State {
        view: 0,
        normal: 0,
        entries: &[FIRST],
        commit: 0,
    },
    State {
        view: 0,
        normal: 0,
        entries: &[FIRST, SECOND],
        commit: 1,
    },
    State {
        view: 0,
        normal: 0,
        entries: &[FIRST, SECOND, OTHER],
        commit: 2,
    },
];

/// The three packets.
fn input(alloc: Global) -> Result<Vec<u8>, AllocError> {
    let mut input = Vec::new(alloc);
    for part in [PREPARE, ENTRY, PREPARE_2, SECOND, PREPARE_3, OTHER] {
        input.extend_from_slice(part)?;
    }
    Ok(input)
}

/// How many bytes a read gives at most, and a write takes.
const READ_BYTES: u64 = 16;

const WRITE_BYTES: usize = 10;

/// How many packets were taken, by the state that is saved.
fn taken_by<S: Alter>(alloc: Global, file: &mut SavedState<S>) -> Option<usize> {
    for (taken, state) in STATES.iter().enumerate() {
        if load(alloc, file, state) == 0 {
            return Some(taken);
        }
    }
    None
}

/// The same, by the state that a database holds.
fn taken_in<S: Alter>(alloc: Global, connection: Connection<S>) -> (Option<usize>, Connection<S>) {
    match open_file(alloc, connection, &NODE_1) {
        Ok(mut file) => {
            let taken = taken_by(alloc, &mut file);
            (taken, file.into_connection())
        }
        Err((_, connection)) => (None, connection),
    }
}

/// The number of the refusal, 0 where there is none.
fn number_of(answered: &Result<(), Refusal>) -> u8 {
    match answered {
        Ok(()) => 0,
        Err(refusal) => refusal.number(),
    }
}

/// The number of the refusal that ends a run over an empty database, 0 where it reads to the end, and the database.
fn serve<S: Alter>(
    alloc: Global,
    empty: Connection<S>,
    source: &mut Source<'_>,
    sink: &mut Sink,
) -> (u8, Connection<S>) {
    let Some(domain) = domain_at_last(alloc, NODE_1.domain) else {
        return (255, empty);
    };
    let owner = Owner {
        id: NODE_1.id,
        n: 3,
        domain,
    };
    let Answered { connection, result } = answer_database(alloc, source, sink, empty, owner);
    let number = number_of(&result);
    drop(result);
    (number, connection)
}

/// How many packets end within so many bytes.
fn whole_packets(bytes: u64) -> usize {
    let mut whole: usize = 0;
    for end in ENDS {
        if end <= bytes {
            whole = whole.saturating_add(1);
        }
    }
    whole
}

/// Which calls come to the one that fails.
#[derive(Clone, Copy)]
enum Side {
    Reads,
    Writes,
}

/// Whether a run ends as it should: whole; or by a read that fails, and all that was read whole is taken and answered;
/// or by a write that fails, and of the last packet that is taken the answer may be missing, or a part of it.
fn is_well_ended(side: Side, passing: u64, number: u8, taken: usize, written: usize) -> bool {
    let answers = taken.saturating_mul(ANSWER_BYTES);
    let read = passing.saturating_mul(READ_BYTES);
    match (side, number) {
        (_, 0) => taken == ENDS.len() && written == OUTPUT.len(),
        (Side::Reads, 43) => taken == whole_packets(read) && written == answers,
        (Side::Writes, 44) => {
            taken > 0 && answers.saturating_sub(ANSWER_BYTES) <= written && written <= answers
        }
        _ => false,
    }
}

/// A run over devices of which one call fails, after so many others of its side.
#[derive(Clone, Copy)]
struct Cut<'a> {
    input: &'a [u8],
    side: Side,
    passing: u64,
}

impl<'a> Cut<'a> {
    /// The devices.
    fn devices(&self, alloc: Global) -> (Source<'a>, Sink) {
        let mut source = Source::in_pieces(self.input, READ_BYTES as usize);
        let mut sink = Sink::in_pieces(Vec::new(alloc), WRITE_BYTES);
        match self.side {
            Side::Reads => source.calls = Calls::one_fails(self.passing),
            Side::Writes => sink.calls = Calls::one_fails(self.passing),
        }
        (source, sink)
    }

    /// Whether a run ends as it should by this number, with so many packets taken and these bytes written.
    fn is_well(&self, number: u8, taken: Option<usize>, written: &[u8]) -> bool {
        match taken {
            Some(taken) => {
                OUTPUT.starts_with(written)
                    && is_well_ended(self.side, self.passing, number, taken, written.len())
            }
            None => false,
        }
    }
}

impl<'a> Trial for Cut<'a> {
    // 0 where the run is whole, the number of the refusal where the call that fails ends it as it should.
    fn run<S: Alter>(&self, alloc: Global, connection: Connection<S>) -> (u8, Connection<S>) {
        let (mut source, mut sink) = self.devices(alloc);
        let (number, connection) = serve(alloc, connection, &mut source, &mut sink);
        let (taken, connection) = taken_in(alloc, connection);
        let is_well = self.is_well(number, taken, sink.bytes.as_slice());
        (if is_well { number } else { 255 }, connection)
    }
}

/// How many calls fail in turn, until a run meets none. It is None where a run ends in another way.
fn failures(alloc: Global, side: Side) -> Option<u64> {
    let input = input(alloc).ok()?;
    for passing in 0..1_000u64 {
        let cut = Cut {
            input: input.as_slice(),
            side,
            passing,
        };
        match answer_of(alloc, &cut) {
            0 => return Some(passing),
            43 | 44 => {}
            _ => return None,
        }
    }
    None
}

#[test]
fn what_is_taken_is_saved_where_a_call_fails(rt: HostRuntime) {
    let reads = failures(rt.alloc(), Side::Reads).unwrap_or(0);
    let writes = failures(rt.alloc(), Side::Writes).unwrap_or(0);
    assert!(rt; reads > 12);
    assert!(rt; writes > 9);
}
