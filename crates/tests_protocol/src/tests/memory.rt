//! What is left of a log, and of a node, where memory is refused. These tests are for runs in which one allocation
//! fails; in any other run they say no more than the rest.

use super::log::replaced;
use super::others::Other::{Commit, DoViewChange, GetState, NewState, Prepare, StartViewChange};
use super::others::Requests;
use super::saved::{is_saved, kept_states, saved_of};
use super::steps::{Comes, Row, first_wrong};
use super::{Request, are_requests, holds, log_of, place_given};
use desk_log::{Log, Saved};
use std::alloc::Global;

const REQUESTS: &[Request] = &[(7, 1), (7, 2), (7, 3), (7, 4), (7, 5)];

/// Whether a log that is given requests one by one holds those before the one that is refused, or all.
fn is_filled(alloc: Global) -> bool {
    let mut log = Log::new(alloc);
    for (before, request) in REQUESTS.iter().enumerate() {
        if place_given(alloc, &mut log, *request) != before as u64 + 1 {
            return holds(&log, &REQUESTS[..before]);
        }
    }
    holds(&log, REQUESTS)
}

#[test]
fn an_entry_is_put_last_or_changes_nothing(rt: HostRuntime) {
    assert!(rt; is_filled(rt.alloc()));
}

/// Whether the entries after the first are replaced, or stay where memory is refused.
fn is_replaced_or_kept(alloc: Global) -> bool {
    let Some(mut log) = log_of(alloc, [(7, 1), (8, 1)].as_slice()) else {
        return true;
    };
    match replaced(alloc, &mut log, 1, [(9, 1), (9, 2)].as_slice()) {
        Some(true) => holds(&log, [(7, 1), (9, 1), (9, 2)].as_slice()),
        _ => holds(&log, [(7, 1), (8, 1)].as_slice()),
    }
}

#[test]
fn entries_are_replaced_or_kept(rt: HostRuntime) {
    assert!(rt; is_replaced_or_kept(rt.alloc()));
}

const COPIED: &[Request] = &[(7, 1), (8, 1), (7, 2)];

fn are_whole_or_refused(log: &Log) -> bool {
    let is_log_whole = match log.copy() {
        Ok(copy) => holds(&copy, COPIED),
        Err(_) => true,
    };
    let are_entries_whole = match log.copy_entries() {
        Ok(copy) => are_requests(copy.as_slice(), COPIED),
        Err(_) => true,
    };
    is_log_whole && are_entries_whole
}

fn is_whole_or_refused(saved: &Saved) -> bool {
    match saved.copy() {
        Ok(copy) => is_saved(&copy, (4, 2, 0), COPIED),
        Err(_) => true,
    }
}

#[test]
fn copies_are_whole_or_refused(rt: HostRuntime) {
    let alloc = rt.alloc();
    if let Some(saved) = saved_of(alloc, (4, 2, 0), COPIED) {
        assert!(rt; are_whole_or_refused(saved.log()));
        assert!(rt; is_whole_or_refused(&saved));
        assert!(rt; is_saved(&saved, (4, 2, 0), COPIED));
    }
}

#[test]
fn a_store_in_memory_keeps_the_last_state(rt: HostRuntime) {
    assert!(rt; kept_states(rt.alloc()).is_some());
}

// A backup asks for what it lacks of a later view, and takes a log in which its last entry is another.
const AT_A_BACKUP: &[Row] = &[
    (
        Comes::Other(NewState(2, 0, 0, Requests(7, 0, 3), 2)),
        "1 to 0 PrepareOk view 0 place 3\n",
        (0, 0, 3, 2),
    ),
    (
        Comes::Other(Commit(2, 5, 9)),
        "1 to 2 GetState view 5 base 2\n",
        (0, 0, 3, 2),
    ),
    (
        Comes::Other(Prepare(2, 5, 4)),
        "1 to 2 GetState view 5 base 2\n",
        (0, 0, 3, 2),
    ),
    (
        Comes::Other(NewState(0, 5, 2, Requests(8, 0, 3), 3)),
        "1 to 2 PrepareOk view 5 place 5\n",
        (5, 5, 5, 3),
    ),
    (
        Comes::Request(9, 1),
        "answer 1: client 9 number 1 refusal 30 view 5 node 2\n",
        (5, 5, 5, 3),
    ),
];

#[test]
fn a_backup_steps_or_is_as_it_was(rt: HostRuntime) {
    assert!(rt; first_wrong(rt.alloc(), 1, AT_A_BACKUP) == None);
}

const PREPARES: &str = "\
0 to 0 PrepareOk view 0 place 1
0 to 1 Prepare view 0 place 1 commit 0 client 7 number 2
0 to 2 Prepare view 0 place 1 commit 0 client 7 number 2
";

const ASKS_AND_OFFERS: &str = "\
0 to 1 StartViewChange view 2
0 to 2 StartViewChange view 2
0 to 2 DoViewChange view 2 normal 0 log 1 commit 0
";

const CHOOSES: &str = "\
0 to 0 DoViewChange view 3 normal 0 log 1 commit 0
0 to 0 PrepareOk view 3 place 2
0 to 1 StartView view 3 log 2 commit 1
0 to 2 StartView view 3 log 2 commit 1
answer 0: client 7 number 2 place 1 opens urn:emergency:uid:incidentid:000000000001:desk.example
";

const SENDS_AGAIN: &str = "\
0 to 1 Prepare view 3 place 2 commit 1 client 7 number 3
0 to 2 Prepare view 3 place 2 commit 1 client 7 number 3
0 to 1 Commit view 3 commit 1
0 to 2 Commit view 3 commit 1
";

// A primary refuses an older number, offers its log, and then chooses one of a later view and answers by it.
const AT_A_PRIMARY: &[Row] = &[
    (Comes::Request(7, 2), PREPARES, (0, 0, 1, 0)),
    (
        Comes::Request(7, 1),
        "answer 0: client 7 number 1 refusal 31 latest 2\n",
        (0, 0, 1, 0),
    ),
    (
        Comes::Other(StartViewChange(1, 2)),
        ASKS_AND_OFFERS,
        (2, 0, 1, 0),
    ),
    (Comes::Resend, ASKS_AND_OFFERS, (2, 0, 1, 0)),
    (
        Comes::Other(DoViewChange(1, 3, Requests(7, 1, 2), 1)),
        "0 to 1 StartViewChange view 3\n0 to 2 StartViewChange view 3\n",
        (3, 0, 1, 0),
    ),
    (Comes::Other(StartViewChange(1, 3)), CHOOSES, (3, 3, 2, 1)),
    (Comes::Resend, SENDS_AGAIN, (3, 3, 2, 1)),
    (
        Comes::Other(GetState(1, 3, 0)),
        "0 to 1 NewState view 3 base 0 log 2 commit 1\n",
        (3, 3, 2, 1),
    ),
];

#[test]
fn a_primary_steps_or_is_as_it_was(rt: HostRuntime) {
    assert!(rt; first_wrong(rt.alloc(), 0, AT_A_PRIMARY) == None);
}
