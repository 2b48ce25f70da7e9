//! Copies of logs, whole and after a place.

use super::{Request, are_requests, entries_of, holds};
use desk_log::{Log, laws};
use desk_types::limits::LOG_ENTRIES;
use std::alloc::Global;

const REQUESTS: &[Request] = &[(7, 1), (8, 1), (7, 3)];

fn is_copied(log: &Log) -> bool {
    match log.copy() {
        Ok(copy) => holds(&copy, REQUESTS),
        Err(_) => false,
    }
}

fn are_entries_copied(log: &Log) -> bool {
    match log.copy_entries() {
        Ok(entries) => are_requests(entries.as_slice(), REQUESTS),
        Err(_) => false,
    }
}

/// Whether the entries after a place are copied.
fn is_rest_copied(log: &Log, place: u64, wanted: &[Request]) -> bool {
    if place > log.len() {
        return false;
    }
    match log.copy_after(place) {
        Ok(entries) => are_requests(entries.as_slice(), wanted),
        Err(_) => false,
    }
}

// A place, and what stands after it.
const RESTS: &[(u64, &[Request])] = &[
    (0, &[(7, 1), (8, 1), (7, 3)]),
    (1, &[(8, 1), (7, 3)]),
    (3, &[]),
];

/// Whether the entries after each place are copied.
fn are_rests_copied(log: &Log) -> bool {
    for &(place, wanted) in RESTS {
        if !is_rest_copied(log, place, wanted) {
            return false;
        }
    }
    true
}

/// Whether a log of these entries holds them, and is copied whole and in parts.
fn is_log_of(alloc: Global, requests: &[Request]) -> Option<bool> {
    let entries = entries_of(alloc, requests).ok()?;
    if entries.len() as u64 > LOG_ENTRIES {
        return None;
    }
    match Log::from_entries(alloc, entries) {
        Ok(log) => {
            let is_whole = holds(&log, requests) && is_copied(&log) && are_entries_copied(&log);
            let is_copied = is_whole && are_rests_copied(&log);
            drop(log);
            Some(is_copied)
        }
        Err(_) => None,
    }
}

#[test]
fn a_log_is_made_of_its_entries_and_copied(rt: HostRuntime) {
    assert!(rt; is_log_of(rt.alloc(), REQUESTS) == Some(true));
    laws();
}
