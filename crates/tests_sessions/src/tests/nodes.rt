//! Nodes that run, with and without sessions that are served.

ghost use Rattle.std.specs.Prelude.{◌≡◌, ◌<◌, All, IfSome};
ghost use Rattle.desk_mailbox.specs.Ends.{SendsTo, IsSameTaker};

use super::carrying::{Inbox, Outbox, carry, stop_node};
use super::ends::{NodeEnds, give_sender, give_session, take_all};
use super::joining::join_three;
use super::loopback::send_and_raise;
use super::opening::open_at;
use super::settling::{EndedNode, settle};
use super::talking::{Meeting, Talks, talk};
use desk_log::{MemoryStore, StateStore};
use desk_threads::{
    BoardName, Item, Keeper, KeeperGuard, NewHistory, SavedNode, Sender, TURN_ITEMS,
};
use desk_types::Domain;
use std::alloc::Global;
use std::net::Shutdown;
use std::rt::Clock;
use std::sync::Wait;
use std::thread;
use std::thread::Threads;

/// How many items share a save at a keeper, at most: at node 1 each has one of its own.
fn turn_items<B: BoardName, S: StateStore>(keeper: &Keeper<B, SavedNode<S>>) -> usize
    ensures { 0 < result }
{
    if keeper.node().id() == 1 {
        1
    } else {
        TURN_ITEMS
    }
}

/// Runs a keeper to its end. `None` where a fault ended it.
fn keep<B: BoardName, S: StateStore + Drop, R: Wait + Drop + Copy>(
    rt: &R,
    alloc: Global,
    guard: KeeperGuard<B, SavedNode<S>, R>,
    inboxes: &[Inbox],
) -> Option<KeeperGuard<B, SavedNode<S>, R>>
    ensures { IfSome result (λ g. IsSameTaker guard.keeper.value.taker g.keeper.value.taker) }
{
    let mut outbox = Outbox { rt, inboxes };
    let keeper = guard.into_keeper();
    let most = turn_items(&keeper);
    let (keeper, outcome) = keeper.run_turns(rt, most, &mut outbox);
    let is_ok = outcome.is_ok();
    drop(outcome);
    drop(outbox);
    match KeeperGuard::new(alloc, keeper, *rt) {
        Ok(guard) if is_ok => Some(guard),
        _ => None,
    }
}

/// Runs a keeper to its end, with what carries to its mailbox and what talks to it each in a thread of its own. No
/// guard comes back where a fault ended it.
fn keep_beside<
    B: BoardName,
    S: StateStore + Drop,
    R: Threads + Wait + Drop + Copy + Sync,
    F: FnOnce() -> T + Send,
    G: FnOnce() -> U + Send,
    T: Send,
    U: Send,
>(
    rt: &R,
    alloc: Global,
    guard: KeeperGuard<B, SavedNode<S>, R>,
    inboxes: &[Inbox],
    carrying: F,
    talking: G,
) -> ((T, U), Option<KeeperGuard<B, SavedNode<S>, R>>)
    requires { F.pre carrying × G.pre talking }
    ensures guard { IfSome result.1 (λ g. IsSameTaker guard.keeper.value.taker g.keeper.value.taker) }
    ensures carried { F.post carrying result.0.0 }
    ensures talked { G.post talking result.0.1 }
{
    join_three(rt, carrying, talking, || keep(rt, alloc, guard, inboxes))
}

/// Runs a node that is open to its end. `None` where a fault ended it, or where its sessions did not see what they
/// should.
fn run_opened<
    B: BoardName + Send + Sync,
    S: StateStore + Drop,
    R: Threads + Wait + Clock + Drop + Copy + Send + Sync,
>(
    rt: &R,
    alloc: Global,
    id: u8,
    guard: KeeperGuard<B, SavedNode<S>, R>,
    ends: NodeEnds<B>,
    meeting: Option<&Meeting>,
    inboxes: &[Inbox],
) -> Option<EndedNode>
    requires { All (SendsTo guard.keeper.value.taker) ends.senders.items }
{
    let mut ends = ends;
    let Some((peer, first, second)) = take_all(&guard, &mut ends) else {
        return None;
    };
    let (carried, guard) = keep_beside(
        rt,
        alloc,
        guard,
        inboxes,
        || carry(rt, inboxes, id, peer),
        || talk(rt, alloc, (first, second), meeting, inboxes),
    );
    match guard {
        Some(guard) => settle_talks(rt, guard, ends, carried),
        None => None,
    }
}

/// The end of a node, with its senders and sessions given back. `None` where these did not see what they should.
fn settle_talks<B: BoardName, S: StateStore + Drop, R: Wait + Drop>(
    rt: &R,
    guard: KeeperGuard<B, SavedNode<S>, R>,
    ends: NodeEnds<B>,
    carried: (Sender<Item>, Talks<B>),
) -> Option<EndedNode>
    requires rest { All (SendsTo guard.keeper.value.taker) ends.senders.items }
    requires peer { SendsTo guard.keeper.value.taker carried.0 }
    requires first { SendsTo guard.keeper.value.taker carried.1.first.sender }
    requires second { SendsTo guard.keeper.value.taker carried.1.second.sender }
{
    let mut ends = ends;
    let (peer, talks) = carried;
    let Talks {
        first,
        second,
        is_well,
    } = talks;
    give_sender(&guard, &mut ends, peer);
    give_session(&guard, &mut ends, first);
    give_session(&guard, &mut ends, second);
    let ended = settle(rt, guard, ends);
    if is_well { Some(ended) } else { None }
}

/// Opens node `id` of three over an empty store, and runs it to its end, with two sessions where there is a meeting.
/// `None` where a fault ended it, or where the sessions did not see what they should.
pub(super) fn run_node<
    B: BoardName + Send + Sync,
    R: Threads + Wait + Clock + Drop + Copy + Send + Sync,
>(
    rt: &R,
    alloc: Global,
    history: NewHistory,
    id: u8,
    domain: &Domain,
    meeting: Option<&Meeting>,
    inboxes: &[Inbox],
) -> Option<EndedNode>
    requires book { history.seen.book ≡ B.book }
    requires domain { domain.now ≡ B.domain }
    requires id { id < 3 }
{
    let store = MemoryStore::new(alloc);
    let Ok((keeper, senders, sessions)) = open_at::<B, MemoryStore, R>(
        rt, alloc, history, id, domain, store,
    ) else {
        return None;
    };
    let Ok(guard) = KeeperGuard::new(alloc, keeper, *rt) else {
        return None;
    };
    run_opened(
        rt,
        alloc,
        id,
        guard,
        NodeEnds { senders, sessions },
        meeting,
        inboxes,
    )
}

/// Runs node 0 with two sessions to its end, and the client of the second in a thread of its own. The other nodes stop
/// after it. `None` where a fault ended it, or where the sessions did not see what they should.
pub(super) fn run_primary<
    B: BoardName + Send + Sync,
    R: Threads + Wait + Clock + Drop + Copy + Send + Sync,
>(
    rt: &R,
    alloc: Global,
    history: NewHistory,
    domain: &Domain,
    meeting: &Meeting,
    inboxes: &[Inbox],
) -> Option<EndedNode>
    requires book { history.seen.book ≡ B.book }
    requires domain { domain.now ≡ B.domain }
{
    let Meeting { flag, loopback } = meeting;
    let ((), ended) = thread::join(
        rt,
        || send_and_raise(alloc, &loopback.client, flag),
        ||
            requires book { history.seen.book ≡ B.book }
            requires domain { domain.now ≡ B.domain }
        {
            let ended = run_node::<B, R>(rt, alloc, history, 0, domain, Some(meeting), inboxes);
            // where it ended before it served the client, that waits no longer
            let _ = loopback.served.shutdown(Shutdown::Both);
            ended
        },
    );
    stop_node(rt, inboxes, 1);
    stop_node(rt, inboxes, 2);
    ended
}
