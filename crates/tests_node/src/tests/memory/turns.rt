//! A keeper's turns where memory is refused.

use super::super::keeping::{Given, Keeps, Made, PREPARE, START_VIEW, Stand, give, put_all};
use super::super::near::Serves;
use super::over::{DrivesRows, Ended, is_done_in_memory};
use std::alloc::Global;

/// What waits for a keeper, and what may come of it.
struct TurnRow {
    items: &'static [Given],
    /// Where the store does not fail: how many items are refused, the entries of the log, how many of them are
    /// committed, and the packets that go out.
    outcomes: &'static [(u64, u64, u64, u64)],
    /// What may be found where the store failed: the packets that had gone out, with the entries and the commit of the
    /// states before the turn at which it failed and after it.
    faults: &'static [(u64, (u64, u64), (u64, u64))],
    /// The entries and the commit at last.
    last: (u64, u64),
}

/// Two clients ask, and another item comes after them, in one turn. Of three items that a backup is handed by node 1
/// after the log of its view, one turn is made after that of the log.
const ROWS: &[TurnRow] = &[
    TurnRow {
        items: &[Given::Request(7), Given::Request(8), Given::Answer(1)],
        outcomes: &[(0, 2, 1, 8), (1, 1, 1, 5), (1, 2, 0, 6)],
        faults: &[(0, (0, 0), (2, 1))],
        last: (2, 1),
    },
    TurnRow {
        items: &[Given::Request(7), Given::Request(8), Given::Tick],
        outcomes: &[(0, 2, 0, 12), (1, 1, 0, 7), (1, 2, 0, 6)],
        faults: &[(0, (0, 0), (2, 0))],
        last: (2, 0),
    },
    TurnRow {
        items: &[
            Given::Packet(START_VIEW),
            Given::Packet(PREPARE),
            Given::Packet(PREPARE),
            Given::Tick,
        ],
        outcomes: &[(0, 2, 1, 4), (1, 2, 1, 3), (1, 0, 0, 4)],
        faults: &[(0, (0, 0), (1, 0)), (1, (1, 0), (2, 1))],
        last: (2, 1),
    },
];

/// What comes of turns.
#[derive(Clone, Copy, PartialEq, Eq)]
enum Came {
    /// All is done, or all but one item, which was refused and is counted.
    Done,
    /// The store failed, and nothing is sent.
    Failed,
    Wrong,
}

/// Whether all is done, or all but what is counted as refused.
fn is_done(stand: Stand, row: &TurnRow, packets: u64) -> bool {
    let done = (stand.refused, stand.entries, stand.commit, packets);
    for outcome in row.outcomes {
        if *outcome == done {
            return true;
        }
    }
    false
}

/// Whether so many packets may have gone out where the store failed.
fn is_cut(row: &TurnRow, packets: u64) -> bool {
    for &(sent, _, _) in row.faults {
        if sent == packets {
            return true;
        }
    }
    false
}

/// What turns come to at a keeper that had done nothing.
fn came_of(made: Made, stand: Stand, row: &TurnRow, packets: u64) -> Came {
    match made {
        Made::Done if is_done(stand, row, packets) => Came::Done,
        Made::Unpublished if is_done(stand, row, packets) => Came::Done,
        Made::StoreFault if is_cut(row, packets) && stand.published == 0 => Came::Failed,
        _ => Came::Wrong,
    }
}

/// Gives each item once more, and what is not published yet with the last: whether all is done then, and published.
fn is_done_at_last<N: Serves>(alloc: Global, near: N, row: &TurnRow) -> (N, bool) {
    let mut near = near;
    for given in row.items {
        let (back, _, _) = give(alloc, near, *given);
        near = back;
    }
    let stand = near.stand();
    let is_well = (stand.entries, stand.commit) == row.last && stand.published == stand.commit;
    (near, is_well)
}

/// Whether a keeper refuses an item by `NodeStopped`, with no packet.
fn is_stopped<N: Serves>(alloc: Global, near: N) -> (N, bool) {
    let (near, made, packets) = give(alloc, near, Given::Tick);
    (near, made == Made::NodeStopped && packets == 0)
}

/// How a keeper ends its rows where this came of its turns, and so many packets went out.
fn end_turns<N: Serves>(
    alloc: Global,
    near: N,
    row: &TurnRow,
    came: Came,
    packets: u64,
) -> (N, Ended) {
    let (near, is_well) = match came {
        Came::Done => is_done_at_last(alloc, near, row),
        Came::Failed => is_stopped(alloc, near),
        Came::Wrong => (near, false),
    };
    let ended = match came {
        _ if !is_well => Ended::Wrong,
        Came::Failed => Ended::Stopped(packets as usize),
        _ => Ended::Done,
    };
    (near, ended)
}

/// Whether a keeper that goes on where another's store had failed, of which so many packets had gone out, finds the
/// state before all of the turn that failed, or the one after all.
fn is_before_or_behind(stand: Stand, row: &TurnRow, packets: u64) -> bool {
    let found = (stand.entries, stand.commit);
    for &(sent, before, after) in row.faults {
        if sent == packets {
            return found == before || found == after;
        }
    }
    false
}

impl DrivesRows for TurnRow {
    // Its number of a fault is that of the packets that had gone out.
    fn drive_rows<N: Serves>(&self, alloc: Global, near: N, failed: Option<usize>) -> (N, Ended) {
        if let Some(packets) = failed {
            let is_well = is_before_or_behind(near.stand(), self, packets as u64);
            let (near, is_done) = is_done_at_last(alloc, near, self);
            let is_well = is_well && is_done;
            return (near, if is_well { Ended::Done } else { Ended::Wrong });
        }
        let near = put_all(alloc, near, self.items).close();
        let (near, made, sent) = near.do_turns(64);
        let came = came_of(made, near.stand(), self, sent.packets);
        end_turns(alloc, near, self, came, sent.packets)
    }
}

#[test]
fn turns_are_done_but_for_what_is_refused(rt: HostRuntime) {
    let alloc = rt.alloc();
    for row in ROWS {
        assert!(rt; is_done_in_memory(row, rt, alloc));
    }
}
