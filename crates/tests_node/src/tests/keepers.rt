//! Keepers over files that fail at a call: no packet of an item goes out before the item is saved, and none of a turn
//! before all its items are.

ghost use Rattle.std.specs.Prelude.{◌≡◌};

use super::keeping::{Given, Keeps, Made, NEXT_PREPARE, PREPARE, START_VIEW, give, put_all};
use super::near::{Drives, Serves, drive_database};
use super::store::counting::count_saved;
use super::store::disks::{connect, crash};
use desk_threads::{BoardName, NewHistory};
use desk_types::Domain;
use sqlite::{Alter, Connection, FileStore, Files};
use sqlite_disk::{Crash, Fuse, Memory};
use std::alloc::Global;
use std::marker::Brand;
use std::sync::Wait;

/// What a keeper is given in turn, and the packets that go out then.
const ROWS: &[(Given, u64)] = &[
    (Given::Request(7), 3),
    (Given::Answer(1), 2),
    (Given::Request(8), 3),
];

/// Items in a mailbox that is closed, each of which adds an entry; how many packets go out of each; how many items
/// share a save at most; and the entries that may be found in the files, as `Failures::found`: those of whole turns.
type Waiting = (&'static [Given], u64, u64, u64);

/// What a keeper does.
#[derive(Clone, Copy)]
enum Work {
    /// The rows, one by one.
    Rows,
    /// What waits, in turns.
    Turns(Waiting),
}

/// How a keeper ended.
#[derive(Clone, Copy, PartialEq, Eq)]
enum End {
    /// Each item is done, and its packets went out.
    Done,
    /// The store failed at an item or a turn: no packet of it went out, and no item was done any more.
    Failed,
    Wrong,
}

/// Whether a keeper refuses an item by `NodeStopped`, with no packet.
fn is_stopped<K: Keeps>(alloc: Global, keeper: K) -> (K, bool) {
    let (keeper, made, packets) = give(alloc, keeper, Given::Tick);
    (keeper, made == Made::NodeStopped && packets == 0)
}

/// Has a keeper do an item of which so many packets go out, unless the store fails.
fn do_row<K: Keeps>(alloc: Global, keeper: K, given: Given, wanted: u64) -> (K, End) {
    let (keeper, made, packets) = give(alloc, keeper, given);
    let is_done = packets == wanted && (made == Made::Done || made == Made::Unpublished);
    if is_done {
        return (keeper, End::Done);
    }
    if made != Made::StoreFault || packets != 0 {
        return (keeper, End::Wrong);
    }
    let (keeper, is_stopped) = is_stopped(alloc, keeper);
    (keeper, if is_stopped { End::Failed } else { End::Wrong })
}

/// Has a keeper do the rows until the store fails: how it ended, and the entries whose packets went out.
fn do_rows<K: Keeps>(alloc: Global, keeper: K) -> (K, End, u64) {
    let mut keeper = keeper;
    let mut sent = 0u64;
    for &(given, packets) in ROWS {
        let (back, end) = do_row(alloc, keeper, given, packets);
        if end != End::Done {
            return (back, end, sent);
        }
        sent = back.stand().entries;
        keeper = back;
    }
    (keeper, End::Done, sent)
}

/// How a keeper ended of whose turns so many packets went out, by what was made of the last turn, and the entries whose
/// packets went out.
fn end_of_turns(made: Made, waiting: Waiting, packets: u64) -> (End, u64) {
    let (items, of_each, _, found) = waiting;
    let sent = packets.checked_div(of_each).unwrap_or(0);
    let is_whole = packets == sent.wrapping_mul(of_each);
    let end = match made {
        Made::Done | Made::Unpublished if is_whole && sent == items.len() as u64 => End::Done,
        Made::StoreFault if is_whole && found & bit(sent) != 0 => End::Failed,
        _ => End::Wrong,
    };
    (end, sent)
}

/// Has a keeper do what waits in turns until the store fails: how it ended, and the entries whose packets went out.
fn do_turns<K: Keeps>(alloc: Global, keeper: K, waiting: Waiting) -> (K, End, u64) {
    let keeper = put_all(alloc, keeper, waiting.0).close();
    let (keeper, made, sent) = keeper.do_turns(waiting.2);
    let (end, sent) = end_of_turns(made, waiting, sent.packets);
    if end != End::Failed {
        return (keeper, end, sent);
    }
    let (keeper, is_stopped) = is_stopped(alloc, keeper);
    (keeper, if is_stopped { end } else { End::Wrong }, sent)
}

/// How a keeper that did its work ended, and the entries whose packets went out.
#[derive(Clone, Copy)]
struct Doing {
    work: Work,
    end: End,
    sent: u64,
}

impl Drives for Doing {
    fn drive<N: Serves>(&mut self, alloc: Global, near: N) -> N {
        let (near, end, sent) = match self.work {
            Work::Rows => do_rows(alloc, near),
            Work::Turns(waiting) => do_turns(alloc, near, waiting),
        };
        self.end = end;
        self.sent = sent;
        near
    }
}

/// Has a new keeper do its items over a database: how it ended, and the database.
fn keep<B: BoardName, S: Alter + Drop, R: Wait + Drop + Copy>(
    rt: R,
    alloc: Global,
    history: NewHistory,
    domain: &Domain,
    connection: Connection<S>,
    work: Work,
) -> Option<(Doing, Connection<S>)>
    requires book { history.seen.book ≡ B.book }
    requires domain { domain.now ≡ B.domain }
{
    let mut doing = Doing {
        work,
        end: End::Wrong,
        sent: 0,
    };
    match drive_database::<Doing, B, S, R>(&mut doing, rt, alloc, history, domain, connection) {
        Some(connection) => Some((doing, connection)),
        None => None,
    }
}

/// How many entries the saved state has in what is synced of files.
fn count_synced<D: Crash + Drop>(
    alloc: Global,
    connection: Connection<FileStore<D>>,
) -> Option<u64> {
    let mut disks = connection.into_store().close();
    crash(&mut disks);
    count_saved(alloc, disks)
}

/// Whether each entry whose packets went out is saved, and where each item is done no other entry is.
fn is_as_saved(done: Doing, saved: u64) -> bool {
    match done.end {
        End::Done => done.sent == saved,
        End::Failed | End::Wrong => done.sent <= saved,
    }
}

/// How a new keeper over files ended, and how many entries are in the files then, without what is not synced.
#[derive(Clone, Copy)]
struct Left {
    end: End,
    saved: u64,
}

/// How a new keeper over files ends, and what it leaves, where they do not fail before. Each entry whose packets went
/// out is in the files then.
fn keep_on_disks<B: BoardName, D: Crash + Drop, R: Wait + Drop + Copy>(
    rt: R,
    alloc: Global,
    history: NewHistory,
    domain: &Domain,
    disks: Files<D>,
    work: Work,
) -> Option<Left>
    requires book { history.seen.book ≡ B.book }
    requires domain { domain.now ≡ B.domain }
{
    let connection = connect(alloc, disks).ok()?;
    let (done, connection) = keep::<B, FileStore<D>, R>(
        rt, alloc, history, domain, connection, work,
    )?;
    let saved = count_synced(alloc, connection)?;
    let end = if is_as_saved(done, saved) {
        done.end
    } else {
        End::Wrong
    };
    Some(Left { end, saved })
}

/// The file that fails.
#[derive(Clone, Copy)]
enum Side {
    Log,
    Database,
}

/// New files, of which one fails after so many calls.
fn disks_of(alloc: Global, side: Side, calls: u64) -> Files<Fuse<Memory>> {
    let (log, db) = match side {
        Side::Log => (calls, u64::MAX),
        Side::Database => (u64::MAX, calls),
    };
    Files {
        log: Fuse::new(Memory::new(alloc), log),
        db: Fuse::new(Memory::new(alloc), db),
    }
}

/// How a new keeper ends over these, by the name of its board, and what it leaves.
fn end_of<R: Wait + Drop + Copy>(
    rt: R,
    alloc: Global,
    side: Side,
    calls: u64,
    work: Work,
) -> Option<Left> {
    let domain = Domain::new(alloc, "desk.example").ok()?;
    let disks = disks_of(alloc, side, calls);
    keep_on_disks::<Brand, _, R>(rt, alloc, NewHistory::new(), &domain, disks, work)
}

/// What keepers left whose file failed.
#[derive(Clone, Copy)]
struct Failures {
    count: u64,
    /// For each number of entries that was found in the files, and for the last keeper's, the bit of that place.
    found: u64,
}

/// The bit of a place.
fn bit(place: u64) -> u64 {
    1u64.wrapping_shl((place % 64) as u32)
}

/// Has a file fail at each of its calls in turn, until a keeper does all its items: how often it failed, and what it
/// left.
fn fail_each<R: Wait + Drop + Copy>(
    rt: R,
    alloc: Global,
    side: Side,
    work: Work,
) -> Option<Failures> {
    let (mut count, mut found) = (0u64, 0u64);
    for calls in 0..1_000u64 {
        let Some(left) = end_of(rt, alloc, side, calls, work) else {
            continue;
        };
        found |= bit(left.saved);
        match left.end {
            End::Failed => count = count.saturating_add(1),
            End::Done => return Some(Failures { count, found }),
            End::Wrong => return None,
        }
    }
    None
}

/// How often a file failed at an item.
fn count_failures<R: Wait + Drop + Copy>(rt: R, alloc: Global, side: Side) -> Option<u64> {
    Some(fail_each(rt, alloc, side, Work::Rows)?.count)
}

/// What is found in files where one of them fails at a call of a turn, and where none does, as `Failures::found`, and
/// beside that no entry.
fn found_in_turns<R: Wait + Drop + Copy>(
    rt: R,
    alloc: Global,
    side: Side,
    waiting: Waiting,
) -> Option<u64> {
    let failures = fail_each(rt, alloc, side, Work::Turns(waiting))?;
    if failures.count == 0 {
        return None;
    }
    Some(failures.found | bit(0))
}

#[test]
fn no_packet_goes_out_before_its_item_is_saved(rt: HostRuntime) {
    let alloc = rt.alloc();
    for side in [Side::Log, Side::Database] {
        let failures = count_failures(rt, alloc, side).unwrap_or(0);
        assert!(rt; failures >= 3, "{failures}");
    }
}

/// Requests of three clients.
const REQUESTS: &[Given] = &[Given::Request(7), Given::Request(8), Given::Request(9)];

/// Node 1 hands a log to its backup, which ends the turn, and two entries more.
const HANDED: &[Given] = &[
    Given::Packet(START_VIEW),
    Given::Packet(PREPARE),
    Given::Packet(NEXT_PREPARE),
];

const TURNS: &[Waiting] = &[
    (REQUESTS, 3, 1, 0b1111),
    (REQUESTS, 3, 2, 0b1101),
    (REQUESTS, 3, 3, 0b1001),
    (REQUESTS, 3, 64, 0b1001),
    (HANDED, 1, 1, 0b1111),
    (HANDED, 1, 2, 0b1011),
    (HANDED, 1, 64, 0b1011),
];

#[test]
fn no_packet_goes_out_before_its_turn_is_saved(rt: HostRuntime) {
    let alloc = rt.alloc();
    for side in [Side::Log, Side::Database] {
        for &waiting in TURNS {
            let found = found_in_turns(rt, alloc, side, waiting).unwrap_or(0);
            let (_, _, most, wanted) = waiting;
            assert!(rt; found == wanted, "{most}: {found}");
        }
    }
}
