//! The thread that watches the nodes.

use crate::server::{BestNode, SharedFollowers};
use desk_admission::GroupAddress;
use desk_connections::NodeRuntime;
use desk_follow::ask_nodes;
use desk_page::publish_nodes;
use desk_status::{NodeAnswer, greatest_place};
use desk_types::WantOfMemory;
use std::alloc::Global;
use std::sync::atomic::Ordering;
use std::thread;
use std::time::Duration;

/// Between two looks at all nodes, in milliseconds.
const LOOK_MILLISECONDS: u64 = 1_000;

/// The place that a node reported.
fn place_of(answer: &NodeAnswer) -> Option<u64> {
    match answer {
        NodeAnswer::Down => None,
        NodeAnswer::Up {
            place,
            milliseconds: _,
        } => Some(*place),
    }
}

/// The places that the nodes reported.
fn places_of(alloc: Global, answers: &[NodeAnswer]) -> Result<Vec<Option<u64>>, WantOfMemory> {
    let mut places = Vec::new(alloc);
    for answer in answers {
        places.push(place_of(answer))?;
    }
    Ok(places)
}

/// The first node at a place. None where there is none, as where all are down.
fn node_at(places: &[Option<u64>], greatest: u64) -> Option<u8> {
    let mut node: u8 = 0;
    for place in places {
        if *place == Some(greatest) {
            return Some(node);
        }
        node = node.saturating_add(1);
    }
    None
}

/// Tells what each node answers, and which the board is to be read from.
fn report_nodes<R: NodeRuntime>(
    rt: &R,
    alloc: Global,
    shared: &SharedFollowers<R>,
    best: &BestNode,
    answers: &[NodeAnswer],
) {
    let Ok(places) = places_of(alloc, answers) else {
        return;
    };
    publish_nodes(rt, shared, places.as_slice());
    if let Some(node) = node_at(places.as_slice(), greatest_place(answers)) {
        best.store(node, Ordering::SeqCst);
    }
}

/// Watches the nodes, as long as the process.
pub(crate) fn watch_nodes<R: NodeRuntime>(
    rt: &R,
    alloc: Global,
    address: &GroupAddress,
    nodes: u8,
    shared: &SharedFollowers<R>,
    best: &BestNode,
) {
    for _look in 0..u64::MAX {
        if let Ok(answers) = ask_nodes(rt, alloc, address, nodes) {
            report_nodes(rt, alloc, shared, best, answers.as_slice());
        }
        thread::sleep(rt, Duration::from_millis(LOOK_MILLISECONDS));
    }
}
