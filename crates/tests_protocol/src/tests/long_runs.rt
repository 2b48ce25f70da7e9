//! A node with a long log, and a long run of a group: that no clause says when memory is wanted, a body could refuse
//! these by `WantOfMemory`.

use super::{domain, entry};
use desk_log::Saved;
use desk_node::{Event, Node};
use desk_world::{WorldEvent, run};
use std::alloc::Global;

/// The length of the log of a primary after so many requests of one client.
fn length_after(alloc: Global, requests: u64) -> Option<u64> {
    let mut node = Node::from_saved(alloc, 0, 3, domain(alloc)?, Saved::initial(alloc));
    for number in 1..=requests {
        let step = node.step(Event::Request(entry(alloc, 7, number)?)).ok()?;
        drop(step);
    }
    let length = node.saved().log().len();
    drop(node);
    Some(length)
}

#[test]
fn a_long_log_wants_no_more_memory_than_there_is(rt: HostRuntime) {
    assert!(rt; length_after(rt.alloc(), 5_000) == Some(5_000));
}

/// Whether a group takes so many events.
fn takes(alloc: Global, count: usize) -> Option<bool> {
    let mut events = Vec::new(alloc);
    for _ in 0..count {
        events.push(WorldEvent::Restart(1)).ok()?;
    }
    Some(run(alloc, 3, domain(alloc)?, events.as_slice()).is_ok())
}

#[test]
fn a_long_run_wants_no_more_memory_than_there_is(rt: HostRuntime) {
    assert!(rt; takes(rt.alloc(), 6_000) == Some(true));
}
