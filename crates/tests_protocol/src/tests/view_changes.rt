//! Steps of a node whose view changes, which hands over its log and gets another. Packets that no honest node sends are
//! among them, and change nothing.

use super::others::Other::{
    Commit, DoViewChange, GetState, NewState, PrepareOk, StartView, StartViewChange,
};
use super::others::{MOST, Requests};
use super::steps::{Comes, Row, first_wrong};

const LYING_PEERS: &[Row] = &[
    (
        Comes::Prepare(1, 1),
        "1 to 0 PrepareOk view 0 place 1\n",
        (0, 0, 1, 1),
    ),
    // Logs that lack the committed entry, and one that its view's primary did not send.
    (
        Comes::Other(StartView(2, 2, Requests(7, 0, 0), 0)),
        "",
        (0, 0, 1, 1),
    ),
    (
        Comes::Other(StartView(2, 2, Requests(8, 0, 1), 1)),
        "",
        (0, 0, 1, 1),
    ),
    (
        Comes::Other(StartView(0, 2, Requests(7, 0, 1), 1)),
        "",
        (0, 0, 1, 1),
    ),
    (
        Comes::Other(NewState(2, 2, 0, Requests(7, 0, 0), 0)),
        "",
        (0, 0, 1, 1),
    ),
    (
        Comes::Other(NewState(2, 2, 0, Requests(8, 0, 1), 1)),
        "",
        (0, 0, 1, 1),
    ),
    // A base past the commit, a log that is not longer, and a view of which the node is the primary.
    (
        Comes::Other(NewState(2, 2, 2, Requests(7, 0, 1), 1)),
        "",
        (0, 0, 1, 1),
    ),
    (
        Comes::Other(NewState(2, 0, 1, Requests(7, 1, 0), 1)),
        "",
        (0, 0, 1, 1),
    ),
    (
        Comes::Other(NewState(2, 1, 1, Requests(7, 1, 1), 2)),
        "",
        (0, 0, 1, 1),
    ),
    (
        Comes::Other(NewState(2, 0, 1, Requests(7, 1, 1), 2)),
        "1 to 0 PrepareOk view 0 place 2\n",
        (0, 0, 2, 2),
    ),
    (
        Comes::Other(Commit(0, 0, MOST)),
        "1 to 0 GetState view 0 base 2\n",
        (0, 0, 2, 2),
    ),
    (Comes::Other(Commit(2, 0, MOST)), "", (0, 0, 2, 2)),
    (Comes::Other(PrepareOk(9, 0, 1)), "", (0, 0, 2, 2)),
];

#[test]
fn a_committed_entry_is_kept_from_lying_peers(rt: HostRuntime) {
    assert!(rt; first_wrong(rt.alloc(), 1, LYING_PEERS) == None);
}

const PREPARES_THE_FIRST: &str = "\
0 to 0 PrepareOk view 0 place 1
0 to 1 Prepare view 0 place 1 commit 0 client 7 number 1
0 to 2 Prepare view 0 place 1 commit 0 client 7 number 1
";

const HANDED_OVER: &[Row] = &[
    (
        Comes::Other(GetState(1, 0, 0)),
        "0 to 1 NewState view 0 base 0 log 0 commit 0\n",
        (0, 0, 0, 0),
    ),
    (Comes::Request(7, 1), PREPARES_THE_FIRST, (0, 0, 1, 0)),
    (
        Comes::Other(GetState(2, 0, 0)),
        "0 to 2 NewState view 0 base 0 log 1 commit 0\n",
        (0, 0, 1, 0),
    ),
    (Comes::Other(GetState(2, 0, 2)), "", (0, 0, 1, 0)),
    (Comes::Other(GetState(2, 1, 0)), "", (0, 0, 1, 0)),
    (Comes::Other(GetState(0, 0, 0)), "", (0, 0, 1, 0)),
    (Comes::Other(PrepareOk(9, 0, 1)), "", (0, 0, 1, 0)),
    (Comes::Other(PrepareOk(1, 1, 1)), "", (0, 0, 1, 0)),
];

#[test]
fn a_primary_hands_over_its_entries(rt: HostRuntime) {
    assert!(rt; first_wrong(rt.alloc(), 0, HANDED_OVER) == None);
}

const ASKS_FOR_VIEW_1: &str = "\
1 to 0 StartViewChange view 1
1 to 2 StartViewChange view 1
";

const STARTS_VIEW_1: &str = "\
1 to 1 PrepareOk view 1 place 3
1 to 0 StartView view 1 log 3 commit 1
1 to 2 StartView view 1 log 3 commit 1
";

const PREPARES_THE_FOURTH: &str = "\
1 to 1 PrepareOk view 1 place 4
1 to 0 Prepare view 1 place 4 commit 1 client 9 number 1
1 to 2 Prepare view 1 place 4 commit 1 client 9 number 1
";

const COMMITS_THE_FOURTH: &str = "\
1 to 0 Commit view 1 commit 4
1 to 2 Commit view 1 commit 4
answer 1: client 7 number 2 place 2 opens urn:emergency:uid:incidentid:000000000002:desk.example
answer 1: client 7 number 3 place 3 opens urn:emergency:uid:incidentid:000000000003:desk.example
answer 1: client 9 number 1 place 4 opens urn:emergency:uid:incidentid:000000000004:desk.example
";

const ASKS_FOR_VIEW_2: &str = "\
1 to 0 StartViewChange view 2
1 to 2 StartViewChange view 2
";

const NEW_PRIMARY: &[Row] = &[
    (
        Comes::Prepare(1, 1),
        "1 to 0 PrepareOk view 0 place 1\n",
        (0, 0, 1, 1),
    ),
    (Comes::Other(StartViewChange(1, 1)), "", (0, 0, 1, 1)),
    (Comes::Other(StartViewChange(3, 1)), "", (0, 0, 1, 1)),
    (Comes::Suspect, ASKS_FOR_VIEW_1, (1, 0, 1, 1)),
    (Comes::Other(GetState(2, 1, 0)), "", (1, 0, 1, 1)),
    (Comes::Prepare(2, 9), "", (1, 0, 1, 1)),
    (Comes::Resend, ASKS_FOR_VIEW_1, (1, 0, 1, 1)),
    (
        Comes::Other(StartViewChange(2, 1)),
        "1 to 1 DoViewChange view 1 normal 0 log 1 commit 1\n",
        (1, 0, 1, 1),
    ),
    // A quorum is told once, and the primary does not send itself its offer again.
    (Comes::Other(StartViewChange(0, 1)), "", (1, 0, 1, 1)),
    (Comes::Resend, ASKS_FOR_VIEW_1, (1, 0, 1, 1)),
    (
        Comes::Other(DoViewChange(3, 1, Requests(7, 0, 3), 1)),
        "",
        (1, 0, 1, 1),
    ),
    (
        Comes::Other(DoViewChange(0, 1, Requests(7, 0, 3), 1)),
        STARTS_VIEW_1,
        (1, 1, 3, 1),
    ),
    (
        Comes::Other(DoViewChange(2, 1, Requests(7, 0, 4), 2)),
        "",
        (1, 1, 3, 1),
    ),
    (Comes::Other(StartViewChange(2, 1)), "", (1, 1, 3, 1)),
    (Comes::Request(9, 1), PREPARES_THE_FOURTH, (1, 1, 4, 1)),
    (Comes::Other(PrepareOk(2, 0, 4)), "", (1, 1, 4, 1)),
    (
        Comes::Other(PrepareOk(2, 1, 4)),
        COMMITS_THE_FOURTH,
        (1, 1, 4, 4),
    ),
];

#[test]
fn a_new_primary_starts_its_view(rt: HostRuntime) {
    assert!(rt; first_wrong(rt.alloc(), 1, NEW_PRIMARY) == None);
}

const ASKS_FOR_VIEW_2_AND_OFFERS: &str = "\
1 to 0 StartViewChange view 2
1 to 2 StartViewChange view 2
1 to 2 DoViewChange view 2 normal 0 log 4 commit 4
";

const PREPARE_OF_FOUR: &str = "1 to 0 PrepareOk view 0 place 4\n";

const LATER_VIEW: &[Row] = &[
    (
        Comes::Other(NewState(2, 0, 0, Requests(7, 0, 4), 4)),
        PREPARE_OF_FOUR,
        (0, 0, 4, 4),
    ),
    (
        Comes::Other(StartViewChange(0, 2)),
        ASKS_FOR_VIEW_2_AND_OFFERS,
        (2, 0, 4, 4),
    ),
    (Comes::Resend, ASKS_FOR_VIEW_2_AND_OFFERS, (2, 0, 4, 4)),
    // Not its own choice, and a log that lacks the fourth entry.
    (
        Comes::Other(DoViewChange(0, 2, Requests(7, 0, 4), 4)),
        "",
        (2, 0, 4, 4),
    ),
    (
        Comes::Other(StartView(2, 2, Requests(7, 0, 3), 3)),
        "",
        (2, 0, 4, 4),
    ),
    (
        Comes::Request(7, 9),
        "answer 1: client 7 number 9 refusal 30 view 2 node 2\n",
        (2, 0, 4, 4),
    ),
    (Comes::Restart, "", (2, 0, 4, 4)),
    (Comes::Resend, ASKS_FOR_VIEW_2, (2, 0, 4, 4)),
    (
        Comes::Other(StartView(2, 2, Requests(7, 0, 5), 5)),
        "1 to 2 PrepareOk view 2 place 5\n",
        (2, 2, 5, 5),
    ),
];

#[test]
fn a_backup_asks_for_a_later_view(rt: HostRuntime) {
    assert!(rt; first_wrong(rt.alloc(), 1, LATER_VIEW) == None);
}

const CHOOSES_ITS_OWN: &str = "\
2 to 2 DoViewChange view 2 normal 1 log 2 commit 1
2 to 2 PrepareOk view 2 place 2
2 to 0 StartView view 2 log 2 commit 2
2 to 1 StartView view 2 log 2 commit 2
answer 2: client 7 number 2 place 2 opens urn:emergency:uid:incidentid:000000000002:desk.example
";

const LATEST_NORMAL_VIEW: &[Row] = &[
    (
        Comes::Other(StartView(1, 1, Requests(7, 0, 2), 1)),
        "2 to 1 PrepareOk view 1 place 2\n",
        (1, 1, 2, 1),
    ),
    (
        Comes::Other(DoViewChange(0, 2, Requests(7, 0, 3), 2)),
        "2 to 0 StartViewChange view 2\n2 to 1 StartViewChange view 2\n",
        (2, 1, 2, 1),
    ),
    (
        Comes::Other(StartViewChange(0, 2)),
        CHOOSES_ITS_OWN,
        (2, 2, 2, 2),
    ),
    (
        Comes::Suspect,
        "2 to 0 StartViewChange view 3\n2 to 1 StartViewChange view 3\n",
        (3, 2, 2, 2),
    ),
];

// The longest log is of an older view, so it is not chosen; its commit counts.
#[test]
fn the_log_of_the_latest_normal_view_is_chosen(rt: HostRuntime) {
    assert!(rt; first_wrong(rt.alloc(), 2, LATEST_NORMAL_VIEW) == None);
}
