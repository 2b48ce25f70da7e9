//! What a log holds, finds, compares and replaces.

use super::{Request, entries_of, holds, is_request, log_of, place_given};
use desk_log::Log;
use desk_types::ClientId;
use desk_types::limits::LOG_ENTRIES;
use std::alloc::Global;

/// Whether a request stands at a place.
pub fn is_at(log: &Log, place: u64, request: Request) -> bool {
    1 <= place && place <= log.len() && is_request(log.at(place), request)
}

/// The last place of a client, 0 where it has none.
pub fn latest(log: &Log, client: u64) -> u64 {
    match ClientId::new(client) {
        Some(client) => log.latest(client).unwrap_or(0),
        None => 0,
    }
}

// Requests, the place that each is given, and then the latest places of the clients 7, 8 and 9.
const PUT: &[(Request, u64, [u64; 3])] = &[
    ((7, 1), 1, [1, 0, 0]),
    ((8, 1), 2, [1, 2, 0]),
    ((7, 3), 3, [3, 2, 0]),
    ((9, 4), 4, [3, 2, 4]),
];

/// The first place at which a log is given something else, or tells something else then. It is 0 where the log is not
/// empty.
fn first_other(alloc: Global, log: &mut Log) -> Option<u64> {
    if !log.is_empty() || log.len() > 0 || !log.entries().is_empty() || latest(log, 7) > 0 {
        return Some(0);
    }
    for &(request, place, wanted) in PUT {
        let given = place_given(alloc, log, request);
        let found = [latest(log, 7), latest(log, 8), latest(log, 9)];
        let is_last = given == place && log.len() == place && is_at(log, place, request);
        if !is_last || found != wanted || log.is_empty() || log.is_full() {
            return Some(place);
        }
    }
    None
}

#[test]
fn entries_are_put_last_and_found(rt: HostRuntime) {
    let mut log = Log::new(rt.alloc());
    let other = first_other(rt.alloc(), &mut log);
    let is_held = holds(&log, [(7, 1), (8, 1), (7, 3), (9, 4)].as_slice());
    drop(log);
    assert!(rt; other == None && is_held);
}

/// Whether the clients of a log of these requests are these, each with the number and the place of its latest.
fn has_clients(alloc: Global, requests: &[Request], wanted: &[(u64, u64, u64)]) -> Option<bool> {
    let log = log_of(alloc, requests)?;
    let rows = log.clients().ok()?;
    let mut is_same = rows.len() == wanted.len();
    for (row, &(client, number, place)) in rows.as_slice().iter().zip(wanted) {
        let is_reported = row.client.get() == client && row.number.get() == number;
        is_same = is_same && is_reported && row.place == place;
    }
    Some(is_same)
}

#[test]
fn each_client_has_a_row_with_its_latest_entry(rt: HostRuntime) {
    let requests = [(9, 1), (3, 1), (9, 2), (5, 1), (3, 2)];
    let wanted = [(9, 2, 3), (3, 2, 5), (5, 1, 4)];
    assert!(rt; has_clients(rt.alloc(), &requests, &wanted) == Some(true));
    assert!(rt; has_clients(rt.alloc(), &[(7, 5), (7, 3)], &[(7, 3, 2)]) == Some(true));
    assert!(rt; has_clients(rt.alloc(), &[], &[]) == Some(true));
}

const LONG: &[Request] = &[(7, 1), (8, 1), (7, 3)];

const OTHER: &[Request] = &[(7, 1), (8, 1), (7, 4)];

const SHORT: &[Request] = &[(7, 1)];

/// Whether logs of these requests have the same first entries, so many of them.
fn have_prefix(alloc: Global, first: &[Request], second: &[Request], k: u64) -> Option<bool> {
    let first = log_of(alloc, first)?;
    let second = log_of(alloc, second)?;
    Some(first.front_of(&second, k))
}

const PREFIXES: &[(&[Request], &[Request], u64, bool)] = &[
    (LONG, OTHER, 0, true),
    (LONG, OTHER, 1, true),
    (LONG, OTHER, 2, true),
    (LONG, OTHER, 3, false),
    (LONG, OTHER, 4, false),
    (LONG, SHORT, 0, true),
    (SHORT, LONG, 0, true),
    (LONG, SHORT, 1, true),
    (SHORT, LONG, 1, true),
    (LONG, SHORT, 2, false),
    (SHORT, LONG, 2, false),
    (LONG, LONG, 3, true),
    (LONG, LONG, 4, false),
];

#[test]
fn prefixes_are_compared(rt: HostRuntime) {
    for &(first, second, k, wanted) in PREFIXES {
        let found = have_prefix(rt.alloc(), first, second, k);
        assert!(rt; found == Some(wanted), "{k}");
    }
}

/// Puts requests after the first entries, so many of them. `None` where there are not so many, or where the requests
/// do not come about.
pub fn replaced(alloc: Global, log: &mut Log, k: u64, requests: &[Request]) -> Option<bool> {
    let given = entries_of(alloc, requests).ok()?;
    let length = given.len() as u64;
    if k > log.len() || length > LOG_ENTRIES - k {
        return None;
    }
    Some(log.replace_after(k, given).is_ok())
}

// A place, what is put after it, and the log then.
const REPLACED: &[(u64, &[Request], &[Request])] = &[
    (
        1,
        &[(9, 1), (9, 2), (9, 3)],
        &[(7, 1), (9, 1), (9, 2), (9, 3)],
    ),
    (2, &[], &[(7, 1), (9, 1)]),
    (0, &[(8, 2)], &[(8, 2)]),
];

/// The first place of `REPLACED` after which a log holds something else.
fn first_wrong(alloc: Global, log: &mut Log) -> Option<u64> {
    for &(k, given, wanted) in REPLACED {
        if replaced(alloc, log, k, given) != Some(true) || !holds(log, wanted) {
            return Some(k);
        }
    }
    None
}

/// The same of a log of three entries; 0 where there is none.
fn first_wrong_of(alloc: Global) -> Option<u64> {
    match log_of(alloc, LONG) {
        Some(mut log) => {
            let wrong = first_wrong(alloc, &mut log);
            drop(log);
            wrong
        }
        None => Some(0),
    }
}

#[test]
fn what_stands_after_a_place_is_replaced(rt: HostRuntime) {
    assert!(rt; first_wrong_of(rt.alloc()) == None);
}
