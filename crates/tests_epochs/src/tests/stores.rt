//! The stores of node 0 of three, which leads epochs of two entries, and how it starts again with what they hold.

ghost use Rattle.std.specs.Prelude.{◌≡◌};

use super::epochs::{Comes, entry, event, first_node};
use desk_epoch_node::{EpochEvent, EpochNode};
use desk_epoch_stores::{EpochStores, NodeStores, OpenedEpoch, reported_state};
use desk_log::{Log, MemoryStore, Saved, StateStore};
use desk_types::{Domain, Owner, Refusal};
use std::alloc::Global;

/// What the stores of the first epochs hold. That of a later one holds the state of a node that has done nothing.
#[derive(Drop)]
pub(super) struct GivenStores {
    alloc: Global,
    states: Vec<Saved>,
    /// The epoch whose store is missing, where one is.
    pub(super) missing: Option<u64>,
    /// How many stores are open.
    pub(super) open: u64,
}

impl EpochStores for GivenStores {
    type Store = MemoryStore;

    ghost may_hold = { λ _ _ _. Unit {0} };

    fn open(&mut self, epoch: u64) -> Result<MemoryStore, Refusal> {
        if self.missing == Some(epoch) {
            return Err(Refusal::WrongFile);
        }
        let mut store = MemoryStore::new(self.alloc);
        if let Some(state) = self.states.get(epoch as usize) {
            if store.save_state(state, 0).is_err() {
                return Err(Refusal::StoreFault);
            }
        }
        self.open = self.open.saturating_add(1);
        Ok(store)
    }

    fn close(&mut self, epoch: u64, store: MemoryStore) -> bool
        ensures alloc { self.new.alloc ≡ self.old.alloc }
    {
        let _ = (epoch, store);
        self.open = self.open.saturating_sub(1);
        true
    }
}

/// The log of requests 1 to a number of client 7.
fn log(alloc: Global, last: u64) -> Option<Log> {
    let mut log = Log::new(alloc);
    for number in 1..=last {
        log.append(entry(alloc, 7, number)?).ok()?;
    }
    Some(log)
}

/// The log that replaces a node.
fn replacing(alloc: Global, node: u8) -> Option<Log> {
    match event(alloc, Comes::Replace(node))? {
        EpochEvent::Request(entry) => {
            let mut log = Log::new(alloc);
            log.append(entry).ok()?;
            Some(log)
        }
        other => {
            drop(other);
            None
        }
    }
}

/// A state with such a log, of which so many entries are committed.
fn state(log: Log, commit: u64) -> Option<Saved> {
    if commit > log.len() {
        return None;
    }
    Some(Saved::new(0, 0, log, commit))
}

/// Stores with such states.
pub(super) fn stores(alloc: Global, rows: &[(u64, u64)]) -> Option<GivenStores> {
    let mut states = Vec::new(alloc);
    for row in rows {
        states.push(state(log(alloc, row.0)?, row.1)?).ok()?;
    }
    Some(GivenStores {
        alloc,
        states,
        missing: None,
        open: 0,
    })
}

/// Stores of which the first replaces a node.
pub(super) fn replaced_stores(alloc: Global, node: u8) -> Option<GivenStores> {
    let mut stores = stores(alloc, &[])?;
    stores.states.push(state(replacing(alloc, node)?, 1)?).ok()?;
    Some(stores)
}

/// Opens epochs as long as one is over.
fn open(alloc: Global, rows: &[(u64, u64)]) -> Option<OpenedEpoch<GivenStores>> {
    let mut stores = stores(alloc, rows)?;
    OpenedEpoch::current(alloc, &mut stores, 2).ok()
}

/// The epoch in which the node starts, how many entries stand before it, and how many of its own are committed.
fn start(alloc: Global, rows: &[(u64, u64)]) -> Option<(u64, u64, u64)> {
    let opened = open(alloc, rows)?;
    let committed = opened.committed().len() as u64;
    let domain = Domain::new(alloc, "desk.example").ok()?;
    let owner = Owner {
        id: 0,
        n: 3,
        domain,
    };
    let (node, store) = opened.into_node(alloc, owner, 0);
    drop(store);
    Some((node.epoch(), node.past().len(), committed))
}

/// How many entries the store of each epoch holds, and how many of them are committed; and how the node starts.
type Start = (&'static [(u64, u64)], (u64, u64, u64));

const STARTS: &[Start] = &[
    (&[], (0, 0, 0)),
    (&[(2, 1)], (0, 0, 1)),
    (&[(2, 2)], (1, 2, 0)),
    // What stands after an epoch's end counts for nothing.
    (&[(3, 3)], (1, 2, 0)),
    (&[(2, 2), (1, 1)], (1, 2, 1)),
    (&[(2, 2), (2, 2)], (2, 4, 0)),
];

/// The first row, counted from 1, that does not come true.
fn first_other_start(alloc: Global) -> Option<usize> {
    for (index, row) in STARTS.iter().enumerate() {
        if start(alloc, row.0) != Some(row.1) {
            return Some(index + 1);
        }
    }
    None
}

#[test]
fn a_node_starts_after_epochs_that_are_over(rt: HostRuntime) {
    let alloc = rt.alloc();
    assert!(rt; first_other_start(alloc) == None);
}

/// How many stores are open where a node has started.
fn open_after_start(alloc: Global, rows: &[(u64, u64)]) -> Option<u64> {
    let mut stores = stores(alloc, rows)?;
    let opened = OpenedEpoch::current(alloc, &mut stores, 2).ok()?;
    drop(opened);
    Some(stores.open)
}

#[test]
fn a_start_closes_the_stores_of_epochs_that_are_over(rt: HostRuntime) {
    for row in STARTS {
        assert!(rt;
            open_after_start(rt.alloc(), row.0) == Some(1),
            "{}",
            row.0.len()
        );
    }
}

/// What is asked of a node and its stores.
#[derive(Clone, Copy)]
enum Asked {
    Meet(Comes),
    /// The store of the next epoch is opened.
    Prepare,
    /// What the node is now is saved, and the next epoch begins where it is due.
    Begin,
}

/// The epoch of the node then, and whether it was begun now.
fn begun(node: &mut EpochNode, stores: &mut NodeStores<GivenStores>) -> Option<(u64, bool)> {
    let Ok(()) = stores.save(node.node().saved(), 0) else {
        return None;
    };
    let ended = stores.begin_next(node).ok()?;
    Some((node.epoch(), ended.is_some()))
}

fn done(
    alloc: Global,
    node: &mut EpochNode,
    stores: &mut NodeStores<GivenStores>,
    asked: Asked,
) -> Option<(u64, bool)> {
    match asked {
        Asked::Meet(comes) => {
            let step = node.step(event(alloc, comes)?).ok()?;
            drop(step);
            Some((node.epoch(), false))
        }
        Asked::Prepare => {
            stores.prepare(node).ok()?;
            Some((node.epoch(), stores.is_ready()))
        }
        Asked::Begin => begun(node, stores),
    }
}

/// What is asked; and the epoch of the node then, and whether it begins or is ready for the next.
const ENDS: &[(Asked, (u64, bool))] = &[
    (Asked::Prepare, (0, true)),
    (Asked::Meet(Comes::Request(7, 1)), (0, false)),
    (Asked::Meet(Comes::Request(7, 2)), (0, false)),
    // The log is full, and not committed.
    (Asked::Begin, (0, false)),
    (Asked::Meet(Comes::PrepareOk(0, 2)), (0, false)),
    (Asked::Begin, (1, true)),
    (Asked::Meet(Comes::Request(8, 1)), (1, false)),
    (Asked::Meet(Comes::Request(8, 2)), (1, false)),
    (Asked::Meet(Comes::PrepareOk(1, 2)), (1, false)),
    // The store of the next epoch is not open.
    (Asked::Begin, (1, false)),
    (Asked::Prepare, (1, true)),
    (Asked::Begin, (2, true)),
];

/// The stores of a node that has done nothing: that of the first epoch is open.
fn first_stores(alloc: Global) -> NodeStores<GivenStores> {
    let opens = GivenStores {
        alloc,
        states: Vec::new(alloc),
        missing: None,
        open: 1,
    };
    NodeStores::new(opens, MemoryStore::new(alloc))
}

/// The first row, counted from 1, that does not come true; 0 where there is no node.
fn first_other_end(alloc: Global) -> Option<usize> {
    let Some(mut node) = first_node(alloc, 0, 0) else {
        return Some(0);
    };
    let mut stores = first_stores(alloc);
    for (index, row) in ENDS.iter().enumerate() {
        if done(alloc, &mut node, &mut stores, row.0) != Some(row.1) {
            return Some(index + 1);
        }
    }
    None
}

#[test]
fn an_epoch_begins_once_its_store_is_open(rt: HostRuntime) {
    let alloc = rt.alloc();
    assert!(rt; first_other_end(alloc) == None);
}

/// How many stores are open after the rows.
fn open_after_ends(alloc: Global) -> Option<u64> {
    let mut node = first_node(alloc, 0, 0)?;
    let mut stores = first_stores(alloc);
    for row in ENDS {
        done(alloc, &mut node, &mut stores, row.0)?;
    }
    let (opens, current, next) = stores.into_parts();
    drop((current, next));
    Some(opens.open)
}

#[test]
fn the_store_of_an_epoch_that_ends_is_closed(rt: HostRuntime) {
    assert!(rt; open_after_ends(rt.alloc()) == Some(1));
}

/// What the store of an epoch holds whose log was told: how many entries, and how many of them are committed.
fn held_after_report(alloc: Global) -> Option<(u64, u64)> {
    let node = first_node(alloc, 0, 0)?;
    let mut stores = NodeStores::new(stores(alloc, &[])?, MemoryStore::new(alloc));
    let Ok(()) = stores.prepare(&node) else {
        return None;
    };
    let reported = reported_state(log(alloc, 2)?);
    let before = stores.begin_with_rest(&node, &reported, 0).ok()?;
    let held = before.copy_last().ok()?;
    drop(before);
    Some((held.log().len(), held.commit()))
}

#[test]
fn a_reported_log_is_held_as_committed(rt: HostRuntime) {
    let alloc = rt.alloc();
    assert!(rt; held_after_report(alloc) == Some((2, 2)));
}
