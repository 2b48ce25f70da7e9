//! Groups of three in which one node lies. Each of the two others keeps what it has committed, whatever it is told;
//! that both commit the same is promised of honest senders alone, and does not hold here.

use super::others::Other::{DoViewChange, NewState, PrepareOk, StartView, StartViewChange};
use super::others::Requests;
use super::random::{Watched, drawn_packet};
use super::steps::{Comes, Row, first_untrue, new_node_at_last};
use super::worlds::{Flight, Random, launched};
use super::{entry, holds};
use desk_node::{Event, Node};
use std::alloc::Global;

const COMMITS_AT_ONCE: &str = "\
0 to 1 Commit view 0 commit 1
0 to 2 Commit view 0 commit 1
answer 0: client 7 number 1 place 1 opens urn:emergency:uid:incidentid:000000000001:desk.example
";

const PREPARES_THE_FIRST: &str = "\
0 to 0 PrepareOk view 0 place 1
0 to 1 Prepare view 0 place 1 commit 0 client 7 number 1
0 to 2 Prepare view 0 place 1 commit 0 client 7 number 1
";

/// Node 2 acknowledges what it does not keep, and offers the next view a log without it.
const AT_NODE_0: &[Row] = &[
    (Comes::Request(7, 1), PREPARES_THE_FIRST, (0, 0, 1, 0)),
    (
        Comes::Other(PrepareOk(2, 0, 1)),
        COMMITS_AT_ONCE,
        (0, 0, 1, 1),
    ),
    // What it has committed stays, though the next view started without it.
    (
        Comes::Other(StartView(1, 1, Requests(7, 0, 0), 0)),
        "",
        (0, 0, 1, 1),
    ),
    (
        Comes::Other(NewState(1, 1, 0, Requests(8, 0, 1), 1)),
        "",
        (0, 0, 1, 1),
    ),
];

const STARTS_WITH_NOTHING: &str = "\
1 to 1 PrepareOk view 1 place 0
1 to 0 StartView view 1 log 0 commit 0
1 to 2 StartView view 1 log 0 commit 0
";

const PREPARES_ANOTHER: &str = "\
1 to 1 PrepareOk view 1 place 1
1 to 0 Prepare view 1 place 1 commit 0 client 8 number 1
1 to 2 Prepare view 1 place 1 commit 0 client 8 number 1
";

const COMMITS_ANOTHER: &str = "\
1 to 0 Commit view 1 commit 1
1 to 2 Commit view 1 commit 1
answer 1: client 8 number 1 place 1 opens urn:emergency:uid:incidentid:000000000001:desk.example
";

const AT_NODE_1: &[Row] = &[
    (
        Comes::Suspect,
        "1 to 0 StartViewChange view 1\n1 to 2 StartViewChange view 1\n",
        (1, 0, 0, 0),
    ),
    (
        Comes::Other(StartViewChange(2, 1)),
        "1 to 1 DoViewChange view 1 normal 0 log 0 commit 0\n",
        (1, 0, 0, 0),
    ),
    (
        Comes::Other(DoViewChange(2, 1, Requests(7, 0, 0), 0)),
        STARTS_WITH_NOTHING,
        (1, 1, 0, 0),
    ),
    (Comes::Request(8, 1), PREPARES_ANOTHER, (1, 1, 1, 0)),
    (
        Comes::Other(PrepareOk(2, 1, 1)),
        COMMITS_ANOTHER,
        (1, 1, 1, 1),
    ),
];

/// A node of three after rows that come true.
fn node_after(alloc: Global, id: u8, rows: &[Row]) -> Option<Node> {
    let mut node = new_node_at_last(alloc, id)?;
    match first_untrue(alloc, id, &mut node, rows) {
        None => Some(node),
        Some(_) => {
            drop(node);
            None
        }
    }
}

/// Whether a client's first request is all that a node has after rows, and it has committed that.
fn commits_first_of(alloc: Global, id: u8, rows: &[Row], client: u64) -> Option<bool> {
    let node = node_after(alloc, id, rows)?;
    let saved = node.saved();
    let is_first = saved.commit() == 1 && holds(saved.log(), [(client, 1)].as_slice());
    drop(node);
    Some(is_first)
}

// One lying node of three suffices: at place 1 node 0 commits and answers one request, and node 1 another.
#[test]
fn agreement_is_lost_where_a_node_lies(rt: HostRuntime) {
    assert!(rt; commits_first_of(rt.alloc(), 0, AT_NODE_0, 7) == Some(true));
    assert!(rt; commits_first_of(rt.alloc(), 1, AT_NODE_1, 8) == Some(true));
}

/// The honest nodes 0 and 1, and the packets on their way. Node 2 is not run: whatever it may say is drawn.
#[derive(Drop)]
struct Honest {
    nodes: Vec<Watched>,
    flights: Vec<Flight>,
    sent: u64,
    random: Random,
    alloc: Global,
}

impl Honest {
    fn new(alloc: Global, seed: u64) -> Option<Honest> {
        let mut nodes = Vec::new(alloc);
        for id in 0..2 {
            nodes.push(Watched::new(alloc, id, 3)?).ok()?;
        }
        Some(Honest {
            nodes,
            flights: Vec::new(alloc),
            sent: 0,
            random: Random(seed),
            alloc,
        })
    }

    /// An event at a node, which keeps what it has.
    fn act(&mut self, i: u64, event: Event) -> Option<()> {
        let Some(watched) = self.nodes.get_mut(i as usize) else {
            // What is sent to the liar is lost on it.
            drop(event);
            return Some(());
        };
        let packets = watched.sends(event)?;
        self.sent = launched(&mut self.flights, self.sent, packets)?;
        Some(())
    }

    /// Some packet of node 2, near what the node that gets it has.
    fn lie(&mut self) -> Option<()> {
        let i = self.random.below(2);
        let saved = self.nodes.get(i as usize)?.node.saved();
        let packet = drawn_packet(self.alloc, &mut self.random, 2, saved)?;
        self.act(i, Event::Packet(packet))
    }

    /// Some packet that an honest node sent.
    fn deliver(&mut self) -> Option<()> {
        let index = self.random.below(self.flights.len() as u64) as usize;
        if index >= self.flights.len() {
            return Some(());
        }
        let flight = self.flights.swap_remove(index);
        let Flight { to, packet, .. } = flight;
        self.act(to as u64, Event::Packet(packet))
    }

    fn request(&mut self) -> Option<()> {
        let i = self.random.below(2);
        let client = self.random.below(4).saturating_add(1);
        let request = entry(self.alloc, client, self.sent.saturating_add(1))?;
        self.act(i, Event::Request(request))
    }

    /// Draws an event.
    fn happen(&mut self) -> Option<()> {
        let i = self.random.below(2);
        match self.random.below(40) {
            0..=9 => self.lie(),
            10..=33 => self.deliver(),
            34..=36 => self.request(),
            37..=38 => self.act(i, Event::Resend),
            _ => self.act(i, Event::Suspect),
        }
    }

    /// How many of so many events each node bears without a loss.
    fn borne(&mut self, count: u64) -> u64 {
        for event in 0..count {
            if self.happen().is_none() {
                return event;
            }
        }
        count
    }

    /// How many entries a node has committed.
    fn commit(&self, i: usize) -> u64 {
        match self.nodes.get(i) {
            Some(watched) => watched.node.saved().commit(),
            None => 0,
        }
    }
}

/// How many of so many events beside a liar two nodes bear, and how many entries each has committed.
fn borne(alloc: Global, seed: u64, count: u64) -> Option<(u64, u64, u64)> {
    let mut honest = Honest::new(alloc, seed)?;
    let borne = honest.borne(count);
    let commits = (honest.commit(0), honest.commit(1));
    drop(honest);
    Some((borne, commits.0, commits.1))
}

#[test]
fn honest_nodes_keep_what_they_committed(rt: HostRuntime) {
    for group in 1..=10 {
        let seed = 0x9e37_79b9_7f4a_7c15u64.wrapping_mul(group);
        let (borne, first, second) = borne(rt.alloc(), seed, 2_000).unwrap_or((0, 0, 0));
        assert!(rt; borne == 2_000, "{group} {borne}");
        assert!(rt; first >= 3 && second >= 3, "{group} {first} {second}");
    }
}
