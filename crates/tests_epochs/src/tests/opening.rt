//! How the keeper of node 0 of three comes to be, whose epochs end after two entries, and what it has published then.

ghost use Rattle.std.specs.Prelude.{◌≡◌};

use super::stores::{GivenStores, stores};
use desk_epoch_opening::{RefusedOpening, open_epochs};
use desk_epoch_stores::{EpochStores, MemoryStores};
use desk_published::{BoardName, NewHistory};
use desk_types::{Domain, Owner, Refusal};
use std::alloc::Global;
use std::marker::Brand;
use std::sync::Wait;

/// How many entries are published, the epoch of the node, and how many entries stand before it.
type Opened = (u64, u64, u64);

/// Opens a keeper whose published board has this name, and ends it.
fn open_named<B: BoardName, T: EpochStores + Drop, R: Wait>(
    rt: &R,
    alloc: Global,
    history: NewHistory,
    domain: Domain,
    stores: T,
) -> Result<Opened, RefusedOpening<T>>
    requires book { history.seen.book ≡ B.book }
    requires domain { domain ≡ B.domain }
{
    let owner = Owner {
        id: 0,
        n: 3,
        domain,
    };
    match open_epochs::<B, T, R>(rt, alloc, history, owner, 0, 2, stores) {
        Ok((keeper, senders, sessions)) => {
            let published = keeper.published_len();
            let (taker, replica) = keeper.end(rt);
            let node = replica.replica().node();
            let opened = (published, node.epoch(), node.past().len());
            drop((taker, replica, senders, sessions));
            Ok(opened)
        }
        Err(refused) => Err(refused),
    }
}

fn open_over<T: EpochStores + Drop, R: Wait + Drop>(
    rt: R,
    alloc: Global,
    stores: T,
) -> Option<Result<Opened, RefusedOpening<T>>> {
    let domain = Domain::new(alloc, "desk.example").ok()?;
    Some(open_named::<Brand, T, R>(&rt, alloc, NewHistory::new(), domain, stores))
}

/// How many entries the store of each epoch holds, and how many of them are committed; and how the keeper starts.
type Row = (&'static [(u64, u64)], Opened);

const ROWS: &[Row] = &[
    (&[], (0, 0, 0)),
    (&[(2, 1)], (1, 0, 0)),
    (&[(2, 2)], (2, 1, 2)),
    // What stands after an epoch's end is not published.
    (&[(3, 3)], (2, 1, 2)),
    (&[(2, 2), (1, 1)], (3, 1, 2)),
    (&[(2, 2), (2, 2)], (4, 2, 4)),
];

/// The first row, counted from 1, that does not come true; 0 where there are no stores.
fn first_other<R: Wait + Drop + Copy>(rt: R, alloc: Global) -> Option<usize> {
    for (index, row) in ROWS.iter().enumerate() {
        let Some(stores) = stores(alloc, row.0) else {
            return Some(0);
        };
        match open_over(rt, alloc, stores) {
            Some(Ok(opened)) if opened == row.1 => {}
            _ => return Some(index + 1),
        }
    }
    None
}

#[test]
fn a_keeper_publishes_what_all_epochs_have_committed(rt: HostRuntime) {
    let alloc = rt.alloc();
    assert!(rt; first_other(rt, alloc) == None);
}

/// Opens a keeper over new stores in memory.
fn open_in_memory<R: Wait + Drop>(rt: R, alloc: Global) -> Option<Opened> {
    open_over(rt, alloc, MemoryStores::new(alloc))?.ok()
}

#[test]
fn a_keeper_in_memory_starts_in_the_first_epoch(rt: HostRuntime) {
    let alloc = rt.alloc();
    assert!(rt; open_in_memory(rt, alloc) == Some((0, 0, 0)));
}

/// Whether a wrong file is why no keeper is opened where the store of an epoch is missing, and how many stores are open
/// then.
fn refused<R: Wait + Drop>(
    rt: R,
    alloc: Global,
    rows: &[(u64, u64)],
    missing: u64,
) -> Option<(bool, u64)> {
    let mut stores = stores(alloc, rows)?;
    stores.missing = Some(missing);
    let Err(RefusedOpening { refusal, stores }) = open_over(rt, alloc, stores)? else {
        return None;
    };
    let open = stores.as_ref().map(|stores| stores.open);
    drop(stores);
    Some((matches!(&refusal, Refusal::WrongFile), open?))
}

/// How many entries the store of each epoch holds, and how many of them are committed; and which store is missing.
const MISSING: &[(&[(u64, u64)], u64)] = &[
    (&[], 0),
    // It is that of the next epoch.
    (&[], 1),
    (&[(2, 2)], 1),
    (&[(2, 2)], 2),
];

#[test]
fn a_missing_store_is_named_and_no_other_stays_open(rt: HostRuntime) {
    for row in MISSING {
        assert!(rt;
            refused(rt, rt.alloc(), row.0, row.1) == Some((true, 0)),
            "{}",
            row.1
        );
    }
}
