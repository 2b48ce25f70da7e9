//! Packets that no honest node sends: they take no committed entry from a node, and bring it at most to a later view.

use super::others::Other::{
    Commit, GetState, NewState, OfferOfLastView, PrepareOk, StartView, StartViewChange,
};
use super::others::{MOST, Requests};
use super::steps::{Comes, Row, first_untrue, new_node_at_last};
use super::{Request, holds};
use desk_types::limits::LAST_VIEW;
use std::alloc::Global;

/// Whether the rows come true at a new node of three, and its log then holds the requests.
fn holds_after(alloc: Global, id: u8, rows: &[Row], requests: &[Request]) -> bool {
    match new_node_at_last(alloc, id) {
        Some(mut node) => {
            let is_well = first_untrue(alloc, id, &mut node, rows).is_none()
                && holds(node.saved().log(), requests);
            drop(node);
            is_well
        }
        None => false,
    }
}

const AFTER_A_COMMIT: &[Row] = &[
    (
        Comes::Prepare(1, 1),
        "2 to 0 PrepareOk view 0 place 1\n",
        (0, 0, 1, 1),
    ),
    // Logs of a later view that lack the committed entry, and a base past the commit.
    (
        Comes::Other(StartView(1, 1, Requests(7, 0, 0), 0)),
        "",
        (0, 0, 1, 1),
    ),
    (
        Comes::Other(NewState(1, 1, 0, Requests(7, 0, 0), 0)),
        "",
        (0, 0, 1, 1),
    ),
    (
        Comes::Other(NewState(1, 1, 2, Requests(7, 2, 0), 0)),
        "",
        (0, 0, 1, 1),
    ),
    // A commit past the log, of the primary and of another node.
    (
        Comes::Other(Commit(0, 0, MOST)),
        "2 to 0 GetState view 0 base 1\n",
        (0, 0, 1, 1),
    ),
    (Comes::Other(Commit(1, 0, MOST)), "", (0, 0, 1, 1)),
    (Comes::Other(PrepareOk(9, 0, 1)), "", (0, 0, 1, 1)),
    (
        Comes::Other(GetState(1, 0, 0)),
        "2 to 1 NewState view 0 base 0 log 1 commit 1\n",
        (0, 0, 1, 1),
    ),
];

#[test]
fn a_backup_keeps_its_committed_entry(rt: HostRuntime) {
    assert!(rt; holds_after(rt.alloc(), 2, AFTER_A_COMMIT, [(7, 1)].as_slice()));
}

const ASKS_FOR_THE_LAST_VIEW: &str = "\
1 to 0 StartViewChange view 1000000000000
1 to 2 StartViewChange view 1000000000000
";

const IN_THE_LAST_VIEW: &[Row] = &[
    (
        Comes::Other(OfferOfLastView(0)),
        ASKS_FOR_THE_LAST_VIEW,
        (LAST_VIEW, 0, 0, 0),
    ),
    (Comes::Suspect, "", (LAST_VIEW, 0, 0, 0)),
    (
        Comes::Other(StartViewChange(0, 1)),
        "",
        (LAST_VIEW, 0, 0, 0),
    ),
];

#[test]
fn no_view_follows_the_last(rt: HostRuntime) {
    assert!(rt; holds_after(rt.alloc(), 1, IN_THE_LAST_VIEW, [].as_slice()));
}
