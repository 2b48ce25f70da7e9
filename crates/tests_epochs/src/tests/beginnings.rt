//! How a keeper begins the next epoch of node 0 of three, which leads epochs of two entries and holds a request, or is
//! told their logs.

ghost use Rattle.desk_epoch_replica.specs.DeferringSaves.{IsSavedDeferring};

use super::epochs::Comes;
use super::keeping::{answered, item};
use super::stores::{GivenStores, stores};
use desk_epoch_replica::{DeferringReplica, EpochReplica};
use desk_epoch_stores::OpenedEpoch;
use desk_log::{MemoryStore, StateStore};
use desk_mailbox::Item;
use desk_replica::{ItemStep, Replica, SavedReplica};
use desk_types::{Domain, Owner, WantOfMemory};
use std::alloc::Global;

/// A replica whose last state is saved.
#[derive(Drop)]
pub(super) struct Running {
    replica: DeferringReplica<GivenStores>,
    pub ghost saved: { IsSavedDeferring ⟦<MemoryStore as StateStore>⟧ replica },
}

/// The replica at its start.
pub(super) fn start(alloc: Global) -> Option<Running> {
    let mut none = stores(alloc, &[])?;
    let Ok(opened) = OpenedEpoch::current(alloc, &mut none, 2) else {
        return None;
    };
    let owner = Owner {
        id: 0,
        n: 3,
        domain: Domain::new(alloc, "desk.example").ok()?,
    };
    let replica = EpochReplica::start(alloc, none, opened, owner, 0).ok()?;
    Some(Running {
        replica: DeferringReplica::new(alloc, replica),
    })
}

/// What a keeper does.
#[derive(Clone, Copy)]
pub(super) enum Turn {
    /// It does an item, and saves what that made.
    Item(Comes),
    /// It prepares a beginning.
    Prepare,
    /// It begins the next epoch where that is due.
    Begin,
    /// It publishes all of a log that it was told.
    Publish,
}

/// How many packets go out, and which place is answered.
type Gone = (usize, u64);

/// None where memory is refused.
fn gone_out(made: Result<ItemStep, WantOfMemory>) -> Option<Gone> {
    match made {
        Ok(step) => Some((step.packets.len(), answered(&step))),
        Err(_) => None,
    }
}

fn served(alloc: Global, running: Running, item: Item) -> Option<(Running, Option<Gone>)> {
    let Running { mut replica } = running;
    let known = replica.committed().len() as u64;
    let gone = gone_out(replica.do_item(alloc, item));
    match replica.save(known) {
        Ok(()) => Some((Running { replica }, gone)),
        Err(_) => None,
    }
}

fn prepared(running: Running) -> Option<(Running, Option<Gone>)> {
    let Running { mut replica } = running;
    match replica.prepare() {
        Ok(()) => Some((Running { replica }, Some((0, 0)))),
        Err(_) => None,
    }
}

fn begun(running: Running) -> Option<(Running, Option<Gone>)> {
    let Running { mut replica } = running;
    match replica.begin_next() {
        Ok(Some(step)) => {
            let gone = (step.packets.len(), 0);
            drop(step);
            Some((Running { replica }, Some(gone)))
        }
        Ok(None) => Some((Running { replica }, Some((0, 0)))),
        Err(refusal) => {
            if refusal.is_want_of_memory() {
                Some((Running { replica }, None))
            } else {
                None
            }
        }
    }
}

fn published(running: Running) -> Running {
    let Running { mut replica } = running;
    replica.forget_reported();
    Running { replica }
}

/// What goes out in a turn, or nothing where memory is refused. There is no replica any more where its store failed.
pub(super) fn done(alloc: Global, running: Running, turn: Turn) -> Option<(Running, Option<Gone>)> {
    match turn {
        Turn::Item(comes) => match item(alloc, comes) {
            Some(item) => served(alloc, running, item),
            None => Some((running, None)),
        },
        Turn::Prepare => prepared(running),
        Turn::Begin => begun(running),
        Turn::Publish => Some((published(running), Some((0, 0)))),
    }
}

/// The epoch, and how many requests are held.
pub(super) fn stand(running: &Running) -> (u64, usize) {
    let replica = &running.replica;
    (replica.replica().node().epoch(), replica.deferred())
}

/// What the keeper does; what goes out, and the epoch and how many requests are held then.
pub(super) type Row = (Turn, Gone, (u64, usize));

pub(super) const LEADS: &[Row] = &[
    (Turn::Item(Comes::Request(7, 1)), (3, 0), (0, 0)),
    (Turn::Item(Comes::Request(7, 2)), (3, 0), (0, 0)),
    // The log is full.
    (Turn::Item(Comes::Request(8, 1)), (0, 0), (0, 1)),
    (Turn::Begin, (0, 0), (0, 1)),
    (Turn::Item(Comes::PrepareOk(0, 2)), (2, 2), (0, 1)),
    // The next store is not open.
    (Turn::Begin, (0, 0), (0, 1)),
    (Turn::Prepare, (0, 0), (0, 1)),
    (Turn::Begin, (0, 0), (1, 1)),
    (Turn::Prepare, (0, 0), (1, 1)),
    // Two packets of the tick, and three of the request that is done again.
    (Turn::Item(Comes::Resend), (5, 0), (1, 0)),
    (Turn::Item(Comes::PrepareOk(1, 1)), (2, 3), (1, 0)),
];

pub(super) const IS_TOLD: &[Row] = &[
    (Turn::Prepare, (0, 0), (0, 0)),
    (Turn::Item(Comes::Tell(0, 0, 2)), (0, 0), (1, 0)),
    (Turn::Prepare, (0, 0), (1, 0)),
    // The log before is not published.
    (Turn::Item(Comes::Tell(1, 0, 2)), (0, 0), (1, 0)),
    (Turn::Publish, (0, 0), (1, 0)),
    (Turn::Item(Comes::Tell(1, 0, 2)), (0, 0), (2, 0)),
];

/// The first row, counted from 1, that does not come true; 0 where there is no replica.
fn first_untrue(alloc: Global, rows: &[Row]) -> Option<usize> {
    let Some(mut running) = start(alloc) else {
        return Some(0);
    };
    for (index, row) in rows.iter().enumerate() {
        let Some((next, gone)) = done(alloc, running, row.0) else {
            return Some(index + 1);
        };
        if gone != Some(row.1) || stand(&next) != row.2 {
            return Some(index + 1);
        }
        running = next;
    }
    None
}

#[test]
fn a_keeper_begins_the_epoch_after_a_full_one(rt: HostRuntime) {
    let alloc = rt.alloc();
    assert!(rt; first_untrue(alloc, LEADS) == None);
    assert!(rt; first_untrue(alloc, IS_TOLD) == None);
}
