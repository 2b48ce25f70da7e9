//! How the keeper of node 0 of three ends where a node was replaced.

ghost use Rattle.std.specs.Prelude.{◌≡◌};

use super::epochs::Comes;
use super::keeping::item;
use super::stores::{GivenStores, replaced_stores, stores};
use desk_epoch_opening::open_epochs;
use desk_mailbox::{Item, Sender};
use desk_published::{BoardName, NewHistory};
use desk_threads::Out;
use desk_types::{Domain, EpochPacket, Owner, Refusal};
use std::alloc::Global;
use std::marker::Brand;
use std::sync::Wait;

/// No packet reaches another node.
#[derive(Drop)]
struct Unsent {}

impl Out for Unsent {
    ghost takes = { λ _ _ _. Unit {0} };

    fn hand(&mut self, to: u8, packet: EpochPacket) {
        let _ = to;
        drop(packet);
    }

    ghost takes_none = { λ _. tt };

    ghost takes_then = { λ _ _ _ _ _ _ _. tt };
}

/// Whether the keeper was opened, and the number of the refusal by which it ended; 0 after a stop.
type Ended = (bool, u8);

fn number(outcome: Result<(), Refusal>) -> u8 {
    match outcome {
        Ok(()) => 0,
        Err(refusal) => refusal.number(),
    }
}

/// Puts the items and a stop.
fn put_all<R: Wait>(rt: &R, senders: Vec<Sender<Item>>, items: Vec<Item>) {
    let mut senders = senders;
    let Some(mut sender) = senders.pop() else {
        return;
    };
    for item in items {
        let (back, put) = sender.put(rt, item);
        drop(put);
        sender = back;
    }
    let (sender, put) = sender.put(rt, Item::Stop);
    drop((sender, put, senders));
}

/// Runs the keeper of a node with a token over the items, up to a stop, unless it ends before.
fn end_named<B: BoardName, R: Wait>(
    rt: &R,
    alloc: Global,
    history: NewHistory,
    domain: Domain,
    token: u64,
    stores: GivenStores,
    items: Vec<Item>,
) -> Ended
    requires book { history.seen.book ≡ B.book }
    requires domain { domain ≡ B.domain }
{
    let owner = Owner {
        id: 0,
        n: 3,
        domain,
    };
    match open_epochs::<B, GivenStores, R>(rt, alloc, history, owner, token, 2, stores) {
        Ok((keeper, senders, sessions)) => {
            put_all(rt, senders, items);
            let (keeper, outcome) = keeper.run_turns(rt, 1, &mut Unsent {});
            let (taker, replica) = keeper.end(rt);
            drop((taker, replica, sessions));
            (true, number(outcome))
        }
        Err(refused) => (false, refused.refusal.number()),
    }
}

/// The node that the store of the first epoch replaces, and the token of node 0; the node that the log of that epoch
/// replaces, of which a packet tells; and how the keeper ends.
type Row = (Option<u8>, u64, Option<u8>, Ended);

/// The token that a replacement names.
const NAMED: u64 = 5;

const ROWS: &[Row] = &[
    (None, 0, None, (true, 0)),
    (None, 0, Some(1), (true, 0)),
    // It ends before the stop.
    (None, 0, Some(0), (true, 34)),
    (None, NAMED, Some(0), (true, 0)),
    (Some(1), 0, None, (true, 0)),
    (Some(0), 0, None, (false, 34)),
    (Some(0), NAMED, None, (true, 0)),
];

fn ended<R: Wait + Drop>(rt: R, alloc: Global, row: &Row) -> Option<Ended> {
    let stores = match row.0 {
        Some(node) => replaced_stores(alloc, node)?,
        None => stores(alloc, &[])?,
    };
    let mut items = Vec::new(alloc);
    if let Some(node) = row.2 {
        items.push(item(alloc, Comes::TellReplace(node))?).ok()?;
    }
    let domain = Domain::new(alloc, "desk.example").ok()?;
    Some(end_named::<Brand, R>(&rt, alloc, NewHistory::new(), domain, row.1, stores, items))
}

/// The first row, counted from 1, that does not come true.
fn first_other<R: Wait + Drop + Copy>(rt: R, alloc: Global) -> Option<usize> {
    for (index, row) in ROWS.iter().enumerate() {
        if ended(rt, alloc, row) != Some(row.3) {
            return Some(index + 1);
        }
    }
    None
}

#[test]
fn a_keeper_ends_where_its_node_was_replaced(rt: HostRuntime) {
    let alloc = rt.alloc();
    assert!(rt; first_other(rt, alloc) == None);
}
