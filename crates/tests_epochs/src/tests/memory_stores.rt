//! The stores of a node's epochs in memory.

use super::epochs::entry;
use desk_epoch_stores::{EpochStores, MemoryStores};
use desk_log::{Log, Saved, StateStore};
use std::alloc::Global;

/// What is asked of stores in memory.
#[derive(Clone, Copy)]
enum Asked {
    /// The store of an epoch is opened, and closed again: how many entries it holds.
    Look(u64),
    /// A state of one entry is saved in the store of an epoch, which is closed then.
    Save(u64),
}

/// A state of one entry, which is not committed.
fn state(alloc: Global) -> Option<Saved> {
    let mut log = Log::new(alloc);
    log.append(entry(alloc, 7, 1)?).ok()?;
    Some(Saved::new(0, 0, log, 0))
}

/// How many entries the store of the epoch holds then.
fn held(alloc: Global, stores: &mut MemoryStores, asked: Asked) -> Option<u64> {
    let (epoch, saves) = match asked {
        Asked::Look(epoch) => (epoch, false),
        Asked::Save(epoch) => (epoch, true),
    };
    let mut store = stores.open(epoch).ok()?;
    if saves {
        store.save_state(&state(alloc)?, 0).ok()?;
    }
    let entries = store.copy_last().ok()?.log().len();
    if stores.close(epoch, store) {
        Some(entries)
    } else {
        None
    }
}

const ROWS: &[(Asked, u64)] = &[
    (Asked::Look(0), 0),
    (Asked::Save(0), 1),
    (Asked::Look(1), 0),
    (Asked::Look(0), 1),
    (Asked::Save(2), 1),
    (Asked::Look(1), 0),
    (Asked::Look(0), 1),
];

/// The first row, counted from 1, that does not come true.
fn first_other(alloc: Global) -> Option<usize> {
    let mut stores = MemoryStores::new(alloc);
    for (index, row) in ROWS.iter().enumerate() {
        if held(alloc, &mut stores, row.0) != Some(row.1) {
            return Some(index + 1);
        }
    }
    None
}

#[test]
fn a_store_in_memory_is_found_again_once_it_was_closed(rt: HostRuntime) {
    let alloc = rt.alloc();
    assert!(rt; first_other(alloc) == None);
}
