//! Steps of a node. Where one growth is refused, the node is as it was, and the same step made again gives what it
//! would have given.

use super::others::{Other, Requests, long, other_packet, packet_of, short};
use super::texts::StepText;
use super::{domain, entry};
use desk_log::{Log, Saved};
use desk_node::{Event, Node, Step};
use desk_types::Packet;
use desk_types::limits::LOG_ENTRIES;
use std::alloc::Global;

// What comes to a node: a client's request by its number, the primary's Prepare of a place with a commit in view 0, a
// node's PrepareOk of a place in view 0, the primary's Commit in view 0, another packet, and the rest.
#[derive(Clone, Copy)]
pub enum Comes {
    Request(u64, u64),
    Prepare(u8, u8),
    PrepareOk(u8, u8),
    Commit(u8),
    Other(Other),
    Resend,
    Suspect,
    Restart,
}

/// The packet that comes, where it is one.
fn packet(alloc: Global, comes: Comes) -> Option<Packet> {
    match comes {
        Comes::Prepare(place, commit) => {
            let numbers = [0, place.max(1) as u64, commit as u64];
            packet_of(alloc, &long(1, 0, numbers, Requests(7, 0, 1)))
        }
        Comes::PrepareOk(from, place) => packet_of(alloc, &short(2, from, 0, place as u64)),
        Comes::Commit(commit) => packet_of(alloc, &short(3, 0, 0, commit as u64)),
        Comes::Other(other) => other_packet(alloc, other),
        _ => None,
    }
}

fn event(alloc: Global, comes: Comes) -> Option<Event> {
    match comes {
        Comes::Request(client, number) => Some(Event::Request(entry(alloc, client, number)?)),
        Comes::Resend => Some(Event::Resend),
        Comes::Suspect => Some(Event::Suspect),
        Comes::Restart => Some(Event::Restart),
        _ => Some(Event::Packet(packet(alloc, comes)?)),
    }
}

/// A node's view, its last normal view, the length of its log, and its commit.
pub type Numbers = (u64, u64, u64, u64);

pub fn numbers(node: &Node) -> Numbers {
    let saved = node.saved();
    (
        saved.view(),
        saved.normal(),
        saved.log().len(),
        saved.commit(),
    )
}

fn tried(alloc: Global, node: &mut Node, comes: Comes) -> Option<Step> {
    let event = event(alloc, comes)?;
    node.step(event).ok()
}

/// A number that tells the requests of a log from those of others.
pub fn digest(log: &Log) -> u64 {
    let mut digest = 0;
    for entry in log.entries() {
        let request = entry.client.get().wrapping_mul(1_000_003) ^ entry.number.get();
        digest = request
            .wrapping_add(digest)
            .wrapping_mul(0x9e37_79b9_7f4a_7c15);
    }
    digest
}

/// What a node saves, as numbers.
pub fn state(node: &Node) -> (Numbers, u64) {
    (numbers(node), digest(node.saved().log()))
}

/// Makes a step, and makes it again where memory is refused and the node is as it was.
fn made(alloc: Global, node: &mut Node, comes: Comes) -> Option<Step> {
    let before = state(node);
    match tried(alloc, node, comes) {
        None if state(node) == before => tried(alloc, node, comes),
        step => step,
    }
}

/// Whether a step has this text, as far as memory for the text is there.
fn is_text(alloc: Global, node: u8, step: &Step, wanted: &str) -> bool {
    match format!(in alloc; "{}", StepText { node, step }) {
        Ok(text) => text.as_str() == wanted,
        Err(_) => true,
    }
}

// What comes to a node, the packets and the answers that it gives, and its numbers after it.
pub type Row = (Comes, &'static str, Numbers);

fn comes_true(alloc: Global, node: &mut Node, id: u8, row: &Row) -> bool {
    match made(alloc, node, row.0) {
        Some(step) => is_text(alloc, id, &step, row.1) && numbers(node) == row.2,
        None => false,
    }
}

/// The first row, counted from 1, that does not come true.
pub fn first_untrue(alloc: Global, id: u8, node: &mut Node, rows: &[Row]) -> Option<usize> {
    for (index, row) in rows.iter().enumerate() {
        if !comes_true(alloc, node, id, row) {
            return Some(index + 1);
        }
    }
    None
}

/// The same. It is 0 where there is no node.
fn first_wrong_at(alloc: Global, id: u8, node: Option<Node>, rows: &[Row]) -> Option<usize> {
    match node {
        Some(mut node) => {
            let row = first_untrue(alloc, id, &mut node, rows);
            drop(node);
            row
        }
        None => Some(0),
    }
}

fn new_node(alloc: Global, id: u8) -> Option<Node> {
    let domain = domain(alloc)?;
    if id >= 3 {
        return None;
    }
    Some(Node::from_saved(alloc, id, 3, domain, Saved::initial(alloc)))
}

/// A new node of three, in a second try where memory is refused in the first.
pub fn new_node_at_last(alloc: Global, id: u8) -> Option<Node> {
    match new_node(alloc, id) {
        Some(node) => Some(node),
        None => new_node(alloc, id),
    }
}

/// The first row, counted from 1, that does not come true at a new node; 0 where there is none.
pub fn first_wrong(alloc: Global, id: u8, rows: &[Row]) -> Option<usize> {
    first_wrong_at(alloc, id, new_node_at_last(alloc, id), rows)
}

const COMMITS_THE_FIRST: &str = "\
0 to 1 Commit view 0 commit 1
0 to 2 Commit view 0 commit 1
answer 0: client 7 number 1 place 1 opens urn:emergency:uid:incidentid:000000000001:desk.example
";

const ANSWERS_THE_FIRST: &str = "\
answer 0: client 7 number 1 place 1 opens urn:emergency:uid:incidentid:000000000001:desk.example
";

const COMMITS_THE_SECOND: &str = "\
0 to 1 Commit view 0 commit 2
0 to 2 Commit view 0 commit 2
answer 0: client 8 number 1 place 2 opens urn:emergency:uid:incidentid:000000000002:desk.example
";

const PREPARES_THE_FIRST: &str = "\
0 to 0 PrepareOk view 0 place 1
0 to 1 Prepare view 0 place 1 commit 0 client 7 number 1
0 to 2 Prepare view 0 place 1 commit 0 client 7 number 1
";

const PREPARES_THE_SECOND: &str = "\
0 to 0 PrepareOk view 0 place 2
0 to 1 Prepare view 0 place 2 commit 1 client 8 number 1
0 to 2 Prepare view 0 place 2 commit 1 client 8 number 1
";

const SENDS_THE_SECOND_AGAIN: &str = "\
0 to 1 Prepare view 0 place 2 commit 1 client 8 number 1
0 to 2 Prepare view 0 place 2 commit 1 client 8 number 1
0 to 1 Commit view 0 commit 1
0 to 2 Commit view 0 commit 1
";

const PRIMARY_ROWS: &[Row] = &[
    (Comes::PrepareOk(1, 1), "", (0, 0, 0, 0)),
    (Comes::Restart, "", (0, 0, 0, 0)),
    (Comes::Request(7, 1), PREPARES_THE_FIRST, (0, 0, 1, 0)),
    // A sender that is no node, and the node itself, settle nothing.
    (Comes::PrepareOk(3, 1), "", (0, 0, 1, 0)),
    (Comes::PrepareOk(0, 1), "", (0, 0, 1, 0)),
    (Comes::PrepareOk(1, 9), COMMITS_THE_FIRST, (0, 0, 1, 1)),
    (Comes::Request(7, 1), ANSWERS_THE_FIRST, (0, 0, 1, 1)),
    (Comes::Request(8, 1), PREPARES_THE_SECOND, (0, 0, 2, 1)),
    (Comes::Request(8, 1), "", (0, 0, 2, 1)),
    (Comes::Resend, SENDS_THE_SECOND_AGAIN, (0, 0, 2, 1)),
    (Comes::Restart, "", (0, 0, 2, 1)),
    (Comes::PrepareOk(2, 2), COMMITS_THE_SECOND, (0, 0, 2, 2)),
    (Comes::Request(7, 1), ANSWERS_THE_FIRST, (0, 0, 2, 2)),
    (Comes::Commit(1), "", (0, 0, 2, 2)),
];

#[test]
fn a_primary_steps(rt: HostRuntime) {
    assert!(rt; first_wrong(rt.alloc(), 0, PRIMARY_ROWS) == None);
}

const ASKS_FOR_ALL: &str = "1 to 0 GetState view 0 base 0\n";

const ASKS_BEHIND_THE_FIRST: &str = "1 to 0 GetState view 0 base 1\n";

const ACKNOWLEDGES_THE_FIRST: &str = "1 to 0 PrepareOk view 0 place 1\n";

const ACKNOWLEDGES_THE_SECOND: &str = "1 to 0 PrepareOk view 0 place 2\n";

const REFUSES: &str = "answer 1: client 7 number 2 refusal 30 view 0 node 0\n";

const BACKUP_ROWS: &[Row] = &[
    (Comes::Prepare(3, 0), ASKS_FOR_ALL, (0, 0, 0, 0)),
    (Comes::Prepare(1, 0), ACKNOWLEDGES_THE_FIRST, (0, 0, 1, 0)),
    (Comes::Prepare(1, 0), ACKNOWLEDGES_THE_FIRST, (0, 0, 1, 0)),
    (Comes::Commit(0), "", (0, 0, 1, 0)),
    (Comes::Commit(5), ASKS_BEHIND_THE_FIRST, (0, 0, 1, 1)),
    (Comes::Commit(0), "", (0, 0, 1, 1)),
    (Comes::Prepare(3, 9), ASKS_BEHIND_THE_FIRST, (0, 0, 1, 1)),
    (Comes::Prepare(2, 9), ACKNOWLEDGES_THE_SECOND, (0, 0, 2, 2)),
    (Comes::Resend, ACKNOWLEDGES_THE_SECOND, (0, 0, 2, 2)),
    (Comes::Restart, "", (0, 0, 2, 2)),
    (Comes::Request(7, 2), REFUSES, (0, 0, 2, 2)),
    (Comes::PrepareOk(2, 1), "", (0, 0, 2, 2)),
];

#[test]
fn a_backup_steps(rt: HostRuntime) {
    assert!(rt; first_wrong(rt.alloc(), 1, BACKUP_ROWS) == None);
}

fn is_appended(alloc: Global, saved: &mut Saved, number: u64) -> bool {
    match entry(alloc, 7, number) {
        Some(entry) => saved.append(entry).is_ok(),
        None => false,
    }
}

fn node_of_full_log(alloc: Global) -> Option<Node> {
    let domain = domain(alloc)?;
    let mut saved = Saved::initial(alloc);
    for number in 1..=LOG_ENTRIES {
        if !is_appended(alloc, &mut saved, number) {
            return None;
        }
    }
    Some(Node::from_saved(alloc, 0, 3, domain, saved))
}

const FULL_LOG_ROWS: &[Row] = &[
    (
        Comes::Request(7, 65_537),
        "answer 0: client 7 number 65537 refusal 33\n",
        (0, 0, 65_536, 0),
    ),
    (
        Comes::Request(8, 1),
        "answer 0: client 8 number 1 refusal 33\n",
        (0, 0, 65_536, 0),
    ),
    (Comes::Request(7, 65_536), "", (0, 0, 65_536, 0)),
    (
        Comes::Request(7, 3),
        "answer 0: client 7 number 3 refusal 31 latest 65536\n",
        (0, 0, 65_536, 0),
    ),
];

#[test]
fn a_full_log_refuses_new_requests(rt: HostRuntime) {
    let alloc = rt.alloc();
    assert!(rt; first_wrong_at(alloc, 0, node_of_full_log(alloc), FULL_LOG_ROWS) == None);
}
