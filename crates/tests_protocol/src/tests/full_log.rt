//! A log of 65,536 entries.

use super::log::{is_at, latest, replaced};
use super::{Request, place_given};
use desk_log::{Admission, Log};
use desk_types::limits::LOG_ENTRIES;
use desk_types::{ClientId, RequestNumber};
use std::alloc::Global;

/// A full log of the requests of two clients in turn.
fn full_log(alloc: Global) -> Option<Log> {
    let mut log = Log::new(alloc);
    for place in 1..=LOG_ENTRIES {
        let client = 8 - place % 2;
        if place_given(alloc, &mut log, (client, 1)) != place {
            return None;
        }
    }
    Some(log)
}

/// Whether a log is full, and tells what it holds.
fn is_read(log: &Log) -> bool {
    log.is_full()
        && log.len() == 65_536
        && is_at(log, 65_536, (8, 1))
        && latest(log, 7) == 65_535
        && latest(log, 9) == 0
        && log.front_of(log, 65_536)
}

/// What a log makes of a request, with the place of a retry or the latest number of a stale one.
fn admission_of(log: &Log, request: Request) -> Option<(&'static str, u64)> {
    let client = ClientId::new(request.0)?;
    let number = RequestNumber::new(request.1)?;
    match log.admission(client, number) {
        Admission::Append => Some(("append", 0)),
        Admission::Retry { place } => Some(("retry", place)),
        Admission::Stale { latest } => Some(("stale", latest.get())),
        Admission::Full => Some(("full", 0)),
    }
}

/// A request, and what a log makes of it.
type Row = (Request, (&'static str, u64));

/// The first request of which a log makes something else.
fn first_other(log: &Log, rows: &[Row]) -> Option<Request> {
    for (request, wanted) in rows {
        if admission_of(log, *request) != Some(*wanted) {
            return Some(*request);
        }
    }
    None
}

// A retry is told also where the log is full.
const ADMITTED: &[Row] = &[
    ((9, 1), ("full", 0)),
    ((7, 2), ("full", 0)),
    ((7, 1), ("retry", 65_535)),
];

/// Whether a log takes no entry, and one where its last is taken away.
fn is_full_to_the_last(alloc: Global, log: &mut Log) -> bool {
    place_given(alloc, log, (9, 1)) == 100_033
        && log.len() == 65_536
        && replaced(alloc, log, 65_535, [].as_slice()) == Some(true)
        && place_given(alloc, log, (9, 1)) == 65_536
}

/// Whether a full log is read, admits no request, and takes no entry.
fn is_as_told(alloc: Global, log: &mut Log) -> bool {
    is_read(log) && first_other(log, ADMITTED).is_none() && is_full_to_the_last(alloc, log)
}

// One log for all, since making one takes seconds.
#[test]
fn a_full_log_is_read_and_takes_no_entry(rt: HostRuntime) {
    let is_reported = match full_log(rt.alloc()) {
        Some(mut log) => {
            let is_reported = is_as_told(rt.alloc(), &mut log);
            drop(log);
            is_reported
        }
        None => false,
    };
    assert!(rt; is_reported);
}
