//! The thread that reads the board.

use crate::server::{BestNode, SharedFollowers};
use desk_connections::NodeRuntime;
use desk_follow::{Follower, GroupNodes, Nodes};
use desk_page::{publish_listed, publish_liveness, published_place, read_place};
use std::alloc::Global;
use std::sync::atomic::Ordering;
use std::thread;
use std::time::{Duration, Instant};

/// The session in which the board is asked for. Neither a show nor a list leaves a trace of it.
const SESSION: u64 = 1;

/// Between two looks at the place, in milliseconds.
const LOOK_MILLISECONDS: u64 = 50;

/// A pause after a list is so many times what the list took by the clock, the waits on a busy host with it,
const LIST_SHARE: u32 = 4;

/// at least so many milliseconds,
const LEAST_PAUSE_MILLISECONDS: u64 = 100;

/// and at most so many.
const MOST_PAUSE_MILLISECONDS: u64 = 1_000;

/// How long is waited after a list that took so long.
fn next_pause(took: Duration) -> Duration {
    let least = Duration::from_millis(LEAST_PAUSE_MILLISECONDS);
    let most = Duration::from_millis(MOST_PAUSE_MILLISECONDS);
    match took.checked_mul(LIST_SHARE) {
        Some(pause) if pause < least => least,
        Some(pause) if pause < most => pause,
        _ => most,
    }
}

/// Has a reader ask this node next, where the group has it.
fn at_node<N: Nodes>(reader: Follower<N>, node: u8) -> Follower<N> {
    let mut reader = reader;
    if node < reader.count {
        reader.node = node;
    }
    reader
}

/// Whether a place is above that of the board that was announced last.
fn is_new<R: NodeRuntime>(rt: &R, shared: &SharedFollowers<R>, place: u64) -> bool {
    match published_place(rt, shared) {
        Some(known) => known < place,
        None => true,
    }
}

/// How long is waited after a list that was begun at this time. It is the most where the clock fails.
fn pause_since<R: NodeRuntime>(rt: &R, began: &Option<Instant>) -> Duration {
    let most = Duration::from_millis(MOST_PAUSE_MILLISECONDS);
    match began {
        Some(began) => match began.elapsed(rt) {
            Ok(took) => next_pause(took),
            Err(_) => most,
        },
        None => most,
    }
}

/// Lists the open incidents, and tells them. Gives how long is waited before the next look.
fn list_board<R: NodeRuntime>(
    rt: &R,
    alloc: Global,
    shared: &SharedFollowers<R>,
    reader: Follower<GroupNodes<R>>,
) -> (Follower<GroupNodes<R>>, Duration) {
    let began = Instant::now(rt).ok();
    // where no board came, the one that was announced last stays
    let (reader, _reported) = publish_listed(rt, alloc, shared, reader, SESSION);
    (reader, pause_since(rt, &began))
}

/// Looks at the place, and reads the board where that has grown. Gives how long is waited before the next look.
fn read_once<R: NodeRuntime>(
    rt: &R,
    alloc: Global,
    shared: &SharedFollowers<R>,
    reader: Follower<GroupNodes<R>>,
) -> (Follower<GroupNodes<R>>, Duration) {
    let look = Duration::from_millis(LOOK_MILLISECONDS);
    let (reader, place) = read_place(alloc, reader, SESSION);
    let Ok(Some(place)) = place else {
        publish_liveness(rt, shared, false);
        return (reader, look);
    };
    publish_liveness(rt, shared, true);
    if is_new(rt, shared, place) {
        list_board(rt, alloc, shared, reader)
    } else {
        (reader, look)
    }
}

/// Has the next look be at the node that the reader has come to, where the one that it asked gave no reply: that one
/// is not asked again before the watcher names it.
fn move_on(best: &BestNode, asked: u8, node: u8) {
    if node != asked {
        best.store(node, Ordering::SeqCst);
    }
}

/// Reads the board of the nodes, as long as the process.
pub(crate) fn read_boards<R: NodeRuntime>(
    rt: &R,
    alloc: Global,
    shared: &SharedFollowers<R>,
    best: &BestNode,
    reader: Follower<GroupNodes<R>>,
) {
    let mut reader = reader;
    for _look in 0..u64::MAX {
        let node = best.load(Ordering::SeqCst);
        let (back, pause) = read_once(rt, alloc, shared, at_node(reader, node));
        move_on(best, node, back.node);
        reader = back;
        thread::sleep(rt, pause);
    }
}
