//! What is left where memory is refused as a keeper goes over the ends of epochs. This test is for runs in which one
//! request for memory is refused; in any other run it says no more than the rest.

use super::beginnings::{IS_TOLD, LEADS, Row, Running, done, stand, start};
use std::alloc::Global;

/// Does what a row says; where not all of it comes true, nothing has begun, and it is done again. The other is whether
/// that is so. There is no replica any more where its store failed.
fn done_at_last(alloc: Global, running: Running, row: &Row) -> Option<(Running, bool)> {
    let before = stand(&running);
    let (next, gone) = done(alloc, running, row.0)?;
    if gone == Some(row.1) && stand(&next) == row.2 {
        return Some((next, true));
    }
    let is_unchanged = stand(&next) == before;
    let (last, _) = done(alloc, next, row.0)?;
    let is_done = stand(&last) == row.2;
    Some((last, is_unchanged && is_done))
}

/// Whether each row comes true at last. None where there is no replica, or its store failed.
fn come_true(alloc: Global, rows: &[Row]) -> Option<bool> {
    let mut running = start(alloc)?;
    for row in rows {
        let (next, is_done) = done_at_last(alloc, running, row)?;
        if !is_done {
            return Some(false);
        }
        running = next;
    }
    Some(true)
}

/// The same; another replica goes over the rows where one has failed.
fn come_true_at_last(alloc: Global, rows: &[Row]) -> bool {
    match come_true(alloc, rows) {
        Some(are_true) => are_true,
        None => come_true(alloc, rows) == Some(true),
    }
}

#[test]
fn a_keeper_goes_over_where_memory_is_refused(rt: HostRuntime) {
    let alloc = rt.alloc();
    assert!(rt; come_true_at_last(alloc, LEADS));
    assert!(rt; come_true_at_last(alloc, IS_TOLD));
}
