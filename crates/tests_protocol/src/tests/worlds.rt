//! Generated runs of groups: packets are lost, repeated and reordered, nodes suspect their primary and start again.
//! What a node has committed at a place must be what every node commits there; and the run of the same events must end
//! alike.

ghost use Rattle.std.specs.Prelude.{◌<◌};
ghost use Rattle.desk_types.specs.Group.{IsGroup};

use super::{domain, entry};
use desk_log::{Log, Saved};
use desk_node::{Event, Node, Step};
use desk_types::Packet;
use desk_world::{WorldEvent, run};
use std::alloc::Global;

/// Numbers that look random, by the xorshift of Marsaglia.
#[derive(Clone, Copy)]
pub struct Random(pub u64);

impl Random {
    /// A number below `n`, or 0.
    pub fn below(&mut self, n: u64) -> u64 {
        let mut x = self.0;
        x ^= x << 13;
        x ^= x >> 7;
        x ^= x << 17;
        self.0 = x;
        if n == 0 { 0 } else { x % n }
    }
}

/// A packet that was sent, by its number.
#[derive(Drop)]
pub struct Flight {
    pub number: u64,
    pub to: u8,
    pub packet: Packet,
}

/// A group in which events are drawn, what happened in it, and the longest log that a node has committed.
#[derive(Drop)]
struct Group {
    nodes: Vec<Node>,
    flights: Vec<Flight>,
    events: Vec<WorldEvent>,
    committed: Log,
    sent: u64,
    random: Random,
    alloc: Global,
}

fn new_node(alloc: Global, id: u8, n: u8) -> Option<Node>
    requires group { IsGroup n }
    requires id { id < n }
{
    Some(Node::from_saved(alloc, id, n, domain(alloc)?, Saved::initial(alloc)))
}

fn new_nodes(alloc: Global, n: u8) -> Option<Vec<Node>>
    requires group { IsGroup n }
{
    let mut nodes = Vec::new(alloc);
    for id in 0..n {
        nodes.push(new_node(alloc, id, n)?).ok()?;
    }
    Some(nodes)
}

/// Puts sent packets after the others, and gives the number of the last.
pub fn launched(flights: &mut Vec<Flight>, sent: u64, packets: Vec<(u8, Packet)>) -> Option<u64> {
    let mut number = sent;
    for (to, packet) in packets {
        number = number.saturating_add(1);
        let flight = Flight { number, to, packet };
        flights.push(flight).ok()?;
    }
    Some(number)
}

/// Makes a step, and gives the packets that it sends.
fn sent(node: &mut Node, event: Event) -> Option<Vec<(u8, Packet)>> {
    match node.step(event) {
        Ok(step) => {
            let Step { packets, answers } = step;
            drop(answers);
            Some(packets)
        }
        Err(_) => None,
    }
}

/// Whether what a node has committed goes on as the longest committed log does, which becomes that of the node where
/// that is longer.
pub fn agrees(saved: &Saved, committed: &mut Log) -> Option<bool> {
    let both = saved.commit().min(committed.len());
    if !saved.log().front_of(committed, both) {
        return Some(false);
    }
    for place in committed.len() + 1..saved.commit() + 1 {
        let entry = saved.log().at(place).copy().ok()?;
        committed.append(entry).ok()?;
    }
    Some(true)
}

impl Group {
    fn new(alloc: Global, n: u8, seed: u64) -> Option<Group>
        requires group { IsGroup n }
    {
        Some(Group {
            nodes: new_nodes(alloc, n)?,
            flights: Vec::new(alloc),
            events: Vec::new(alloc),
            committed: Log::new(alloc),
            sent: 0,
            random: Random(seed),
            alloc,
        })
    }

    /// An event at a node, and whether what it has committed agrees.
    fn act(&mut self, i: u64, event: Event) -> Option<bool> {
        let Some(node) = self.nodes.get_mut(i as usize) else {
            drop(event);
            return None;
        };
        let packets = sent(node, event)?;
        let agrees = agrees(node.saved(), &mut self.committed);
        self.sent = launched(&mut self.flights, self.sent, packets)?;
        agrees
    }

    fn any_node(&mut self) -> u64 {
        let count = self.nodes.len() as u64;
        self.random.below(count)
    }

    /// Some packet that was sent and not lost.
    fn any_flight(&mut self) -> Option<usize> {
        let count = self.flights.len();
        if count == 0 {
            return None;
        }
        Some(self.random.below(count as u64) as usize)
    }

    /// Delivers some packet.
    fn deliver(&mut self) -> Option<bool> {
        match self.any_flight() {
            Some(index) => self.deliver_at(index),
            None => Some(true),
        }
    }

    /// Delivers a packet, which may be delivered again later.
    fn deliver_at(&mut self, index: usize) -> Option<bool> {
        let flight = self.flights.get(index)?;
        let to = flight.to;
        self.events.push(WorldEvent::Deliver(flight.number)).ok()?;
        let packet = flight.packet.copy().ok()?;
        if self.random.below(5) > 0 {
            self.lose(index);
        }
        self.act(to as u64, Event::Packet(packet))
    }

    fn lose(&mut self, index: usize) {
        if index < self.flights.len() {
            drop(self.flights.swap_remove(index));
        }
    }

    fn request(&mut self) -> Option<bool> {
        let i = self.any_node();
        let client = self.random.below(4).saturating_add(1);
        let number = self.events.len() as u64 + 1
            - self.random.below(3).min(self.events.len() as u64);
        let reported = entry(self.alloc, client, number)?;
        self.events.push(WorldEvent::Request(i, reported)).ok()?;
        self.act(i, Event::Request(entry(self.alloc, client, number)?))
    }

    /// A node sends again, suspects its primary or starts again.
    fn tick(&mut self, kind: u64) -> Option<bool> {
        let i = self.any_node();
        let (reported, event) = match kind {
            900..=989 => (WorldEvent::Resend(i), Event::Resend),
            990..=994 => (WorldEvent::Suspect(i), Event::Suspect),
            _ => (WorldEvent::Restart(i), Event::Restart),
        };
        self.events.push(reported).ok()?;
        self.act(i, event)
    }

    /// Draws an event.
    fn happen(&mut self) -> Option<bool> {
        let kind = self.random.below(1_000);
        if kind >= 950 {
            return self.tick(kind);
        }
        if kind >= 900 {
            return self.request();
        }
        if kind >= 850 {
            let index = self.any_flight().unwrap_or(0);
            self.lose(index);
        }
        self.deliver()
    }

    /// Draws so many events, and tells whether all that was committed agrees.
    fn happen_often(&mut self, count: u64) -> bool {
        for _event in 0..count {
            if self.happen() != Some(true) {
                return false;
            }
        }
        true
    }

    /// Whether the run of what happened ends with the same saved states.
    fn is_run(&self, n: u8) -> Option<bool>
        requires group { IsGroup n }
    {
        let domain = domain(self.alloc)?;
        match run(self.alloc, n, domain, self.events.as_slice()) {
            Ok(report) => {
                let is_run = are_saved(report.nodes.as_slice(), self.nodes.as_slice());
                drop(report);
                Some(is_run)
            }
            Err(_) => None,
        }
    }

    /// The latest view of a node.
    fn latest_view(&self) -> u64 {
        let mut view = 0;
        for node in &self.nodes {
            view = node.saved().view().max(view);
        }
        view
    }
}

fn are_equal(one: &Saved, other: &Saved) -> bool {
    one.view() == other.view()
        && one.normal() == other.normal()
        && one.commit() == other.commit()
        && one.log().len() == other.log().len()
        && one.log().front_of(other.log(), one.log().len())
}

/// Whether the nodes have just these saved states.
fn are_saved(saved: &[Saved], nodes: &[Node]) -> bool {
    for (one, node) in saved.iter().zip(nodes) {
        if !are_equal(one, node.saved()) {
            return false;
        }
    }
    saved.len() == nodes.len()
}

/// Draws so many events, and gives how many entries were committed and the latest view; nothing where committed logs
/// differ, or the run of the events ends otherwise.
fn drawn(alloc: Global, n: u8, seed: u64, count: u64) -> Option<(u64, u64)>
    requires group { IsGroup n }
{
    let mut group = Group::new(alloc, n, seed)?;
    let agrees = group.happen_often(count) && group.is_run(n) == Some(true);
    let found = (group.committed.len(), group.latest_view());
    drop(group);
    if agrees { Some(found) } else { None }
}

/// How many nodes a group has, and how many such groups are drawn.
const GROUPS: &[(u8, u64)] = &[(3, 30), (5, 20), (7, 5)];

/// How many entries a group of `n` nodes committed in 2,000 events, and its latest view.
fn drawn_group(alloc: Global, n: u8, group: u64) -> (u64, u64) {
    if n % 2 != 1 || n < 3 {
        return (0, 0);
    }
    let seed = group.wrapping_mul(0x9e37_79b9_7f4a_7c15);
    drawn(alloc, n, seed, 2_000).unwrap_or((0, 0))
}

// In each group committed logs agree, enough is committed, and the view changes.
#[test]
fn groups_agree(rt: HostRuntime) {
    for &(n, groups) in GROUPS {
        for group in 1..=groups {
            let (committed, view) = drawn_group(rt.alloc(), n, group);
            assert!(rt;
                committed >= 3 && view >= 2,
                "{n} {group} {committed} {view}"
            );
        }
    }
}
