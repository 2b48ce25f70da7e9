//! A keeper's items where memory is refused.

use super::super::keeping::{Given, Keeps, Made, PREPARE, START_VIEW, Stand, give};
use super::super::near::{Heard, Serves};
use super::over::{DrivesRows, Ended, is_done_in_memory};
use desk_types::Purpose;
use desk_types::limits::SUSPECT_TICKS;
use std::alloc::Global;

/// An item, and what it comes to where there is memory.
#[derive(Clone, Copy)]
struct Row {
    given: Given,
    /// The view of the node, where that is said.
    view: Option<u64>,
    /// The entries of the log, and how many are committed.
    entries: u64,
    commit: u64,
    /// The packets that go out, where that is said.
    packets: Option<u64>,
    /// The session is told, where that is said.
    is_reported: Option<bool>,
}

/// An item, how often it is given, the view, the entries and the commit after it, the packets, and whether the session
/// is told.
type ItemRow = (Given, u64, u64, u64, u64, u64, bool);

/// Two clients ask; a tick has the open entry sent again; and the first asks once more. A request has its node
/// acknowledge the entry to itself and hand it to the two others, and a commit is told to these.
const PRIMARY: &[ItemRow] = &[
    (Given::Request(7), 1, 0, 1, 0, 3, false),
    (Given::Answer(1), 1, 0, 1, 1, 2, true),
    (Given::Request(8), 1, 0, 2, 1, 3, false),
    (Given::Tick, 1, 0, 2, 1, 4, false),
    (Given::Answer(2), 1, 0, 2, 2, 2, true),
    (Given::Tick, 1, 0, 2, 2, 2, false),
    (Given::Request(7), 1, 0, 2, 2, 0, true),
];

/// What node 1 sends the backup, in a later epoch.
const LATER_EPOCH: Given = Given::Under(1, Purpose::Step, START_VIEW);

/// The same as what is no step.
const ASK: Given = Given::Under(0, Purpose::Ask, START_VIEW);

const TELL: Given = Given::Under(0, Purpose::Tell, PREPARE);

/// Node 1 starts a view, of which the node is a backup, and hands it an entry, twice. The node acknowledges these, and
/// at each tick, until it suspects node 1 and asks both others for the next view. What is of a later epoch, or is no
/// step, leaves it as it is.
const BACKUP: &[ItemRow] = &[
    (LATER_EPOCH, 1, 0, 0, 0, 0, false),
    (ASK, 1, 0, 0, 0, 0, false),
    (Given::Packet(START_VIEW), 1, 1, 1, 0, 1, false),
    (TELL, 1, 1, 1, 0, 0, false),
    (Given::Packet(PREPARE), 2, 1, 2, 1, 1, false),
    (Given::Tick, SUSPECT_TICKS - 1, 1, 2, 1, 1, false),
    (Given::Tick, 1, 2, 2, 1, 2, false),
];

/// A row, of which a keeper that goes on says no more than where its log stands.
fn row_of(row: ItemRow, goes_on: bool) -> Row {
    let (given, _, view, entries, commit, packets, is_reported) = row;
    Row {
        given,
        view: if goes_on { None } else { Some(view) },
        entries,
        commit,
        packets: if goes_on { None } else { Some(packets) },
        is_reported: if goes_on { None } else { Some(is_reported) },
    }
}

/// What comes of an item.
#[derive(Clone, Copy, PartialEq, Eq)]
enum Came {
    Done,
    /// It is done, and not all that is committed is published.
    Unpublished,
    /// Memory was refused: it is counted, and nothing else is done.
    Refused,
    /// The store failed.
    Failed,
    /// The store had failed before.
    Stopped,
    Wrong,
}

/// Whether a keeper stands as a row says.
fn is_at(stand: Stand, row: Row) -> bool {
    stand.entries == row.entries
        && stand.commit == row.commit
        && row.view.unwrap_or(stand.view) == stand.view
}

/// Whether a keeper has done nothing, but that more of what is committed may be published.
fn is_same(before: Stand, after: Stand) -> bool {
    before.view == after.view
        && before.entries == after.entries
        && before.commit == after.commit
        && before.published <= after.published
        && after.published <= after.commit
}

/// What an outcome comes to, by where the keeper stood and stands, and the packets that went out.
fn came_of(made: Made, before: Stand, after: Stand, packets: u64, row: Row) -> Came {
    let is_counted = after.refused == before.refused.saturating_add(1);
    let is_silent = packets == 0 && before.published <= after.published;
    let is_done = is_at(after, row)
        && after.refused == before.refused
        && row.packets.unwrap_or(packets) == packets;
    match made {
        Made::Done if is_done && after.published == after.commit => Came::Done,
        Made::Unpublished if is_done && after.published < after.commit => Came::Unpublished,
        Made::WantOfMemory if is_silent && is_counted && is_same(before, after) => Came::Refused,
        Made::StoreFault if is_silent && before.published == after.published => Came::Failed,
        Made::NodeStopped if is_silent && before == after => Came::Stopped,
        _ => Came::Wrong,
    }
}

/// Has a keeper do the item of a row once.
fn do_once<N: Serves>(alloc: Global, near: N, row: Row) -> (N, Came) {
    let before = near.stand();
    let (near, made, packets) = give(alloc, near, row.given);
    let came = came_of(made, before, near.stand(), packets, row);
    (near, came)
}

/// The row of a tick after that of a row, which says no more than where the keeper stands.
fn tick_after(row: Row) -> Row {
    Row {
        given: Given::Tick,
        packets: None,
        is_reported: None,
        ..row
    }
}

/// Has a keeper do the item of a row, again where it was refused memory, and a tick where the publish was. After a
/// fault of the store no item is done.
fn do_at_last<N: Serves>(alloc: Global, near: N, row: Row) -> (N, Came) {
    let (near, first) = do_once(alloc, near, row);
    let (next, wanted) = match first {
        Came::Refused => (row, Came::Done),
        Came::Unpublished => (tick_after(row), Came::Done),
        Came::Failed => (row, Came::Stopped),
        Came::Done => return (near, Came::Done),
        Came::Stopped | Came::Wrong => return (near, Came::Wrong),
    };
    let (near, second) = do_once(alloc, near, next);
    (
        near,
        if second == wanted {
            second
        } else {
            Came::Wrong
        },
    )
}

/// Has a keeper do the item of a row at last, and tell its session.
fn do_row<N: Serves>(alloc: Global, near: N, row: Row) -> (N, Came) {
    let (near, came) = do_at_last(alloc, near, row);
    if came != Came::Done {
        return (near, came);
    }
    let is_reported = near.hear() != Heard::Nothing;
    let is_well = row.is_reported.unwrap_or(is_reported) == is_reported;
    (near, if is_well { Came::Done } else { Came::Wrong })
}

/// Has a keeper do the item of a row so often, until it is not done.
fn do_often<N: Serves>(alloc: Global, near: N, row: Row, times: u64) -> (N, Came) {
    let mut near = near;
    for _time in 0..times {
        let (back, came) = do_row(alloc, near, row);
        near = back;
        if came != Came::Done {
            return (near, came);
        }
    }
    (near, Came::Done)
}

/// Rows of items.
struct ItemRows {
    rows: &'static [ItemRow],
}

impl DrivesRows for ItemRows {
    // A keeper that goes on begins with the row that another had failed to save, which may be done.
    fn drive_rows<N: Serves>(&self, alloc: Global, near: N, failed: Option<usize>) -> (N, Ended) {
        let mut near = near;
        let mut at = 0usize;
        for &row in self.rows {
            if failed.unwrap_or(0) <= at {
                let said = row_of(row, failed == Some(at));
                let (back, came) = do_often(alloc, near, said, row.1);
                near = back;
                if came != Came::Done {
                    return (near, ended_by(came, at));
                }
            }
            at = at.wrapping_add(1);
        }
        (near, Ended::Done)
    }
}

/// How rows end where this came of the row of this number.
fn ended_by(came: Came, at: usize) -> Ended {
    match came {
        Came::Stopped => Ended::Stopped(at),
        _ => Ended::Wrong,
    }
}

#[test]
fn each_item_is_done_at_last(rt: HostRuntime) {
    let alloc = rt.alloc();
    assert!(rt; is_done_in_memory(&ItemRows { rows: PRIMARY }, rt, alloc));
}

#[test]
fn each_item_of_a_backup_is_done_at_last(rt: HostRuntime) {
    let alloc = rt.alloc();
    assert!(rt; is_done_in_memory(&ItemRows { rows: BACKUP }, rt, alloc));
}
