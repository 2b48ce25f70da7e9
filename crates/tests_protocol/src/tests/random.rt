//! Generated packets, of any sender and of every kind, at one node, one after the other. Whatever comes, its view, its
//! last normal view and its commit do not fall, what it has committed stays, the last normal view is not past the view
//! nor the commit past the log, and a sender that is no node of the group changes nothing and is sent nothing.

ghost use Rattle.std.specs.Prelude.{◌<◌, ◌%◌};

use super::others::{packet_in, packet_of, put_numbers, short};
use super::steps::{Numbers, numbers, state};
use super::worlds::{Random, agrees};
use super::{OPEN, domain};
use desk_codec::put_entry;
use desk_log::{Log, Saved};
use desk_node::{Event, Node, Step};
use desk_types::limits::{LAST_VIEW, LOG_ENTRIES};
use desk_types::{Command, Packet};
use std::alloc::Global;

/// A number that differs from another by at most one, or now and then one below `wild`.
fn near(random: &mut Random, number: u64, wild: u64) -> u64 {
    if random.below(64) == 0 {
        return random.below(wild);
    }
    number.saturating_add(random.below(3)).saturating_sub(1)
}

/// What stands after the client and the number of a request of each verb, in the order of their numbers.
const BODIES: &[&[u8]] = &[
    b"\0\x1a\x01\0\0\0\0\x69\xa4\x2a\x40\x04fire\x0912 Elm St\0\0",
    b"\0\x48\x02\0\0\0\0\x69\xa4\x2a\x40\x20urn:emergency:uid:incidentid:1:a\x1durn:emergency:uid:callid:c1:a",
    b"\0\x4a\x03\0\0\0\0\x69\xa4\x2a\x40\x20urn:emergency:uid:incidentid:1:a\x1furn:nena:uid:incidentid:B-2:b.c",
    b"\0\x4a\x04\0\0\0\0\x69\xa4\x2a\x40\x20urn:emergency:uid:incidentid:1:a\x1furn:nena:uid:incidentid:B-2:b.c",
    b"\0\x4a\x05\0\0\0\0\x69\xa4\x2a\x40\x20urn:emergency:uid:incidentid:1:a\x1furn:nena:uid:incidentid:B-2:b.c",
    b"\0\x52\x06\0\0\0\0\x69\xa4\x2a\x40\x20urn:emergency:uid:incidentid:1:a\
\x1durn:emergency:uid:callid:c1:a\x04fire\x04rear",
    b"\0\x2a\x07\0\0\0\0\x69\xa4\x2a\x40\x20urn:emergency:uid:incidentid:1:a",
    b"\0\x2a\x08\0\0\0\0\x69\xa4\x2a\x40\x20urn:emergency:uid:incidentid:1:a",
    b"\0\x2f\x09\0\0\0\0\x69\xa4\x2a\x40\x20urn:emergency:uid:incidentid:1:a\x04note",
    b"\0\x0c\x0a\0\0\0\0\x69\xa4\x2a\x40\x02E1",
    b"\0\x0c\x0b\0\0\0\0\x69\xa4\x2a\x40\x02E1",
    b"\0\x2d\x0c\0\0\0\0\x69\xa4\x2a\x40\x02E1\x20urn:emergency:uid:incidentid:1:a",
    b"\0\x0d\x0d\0\0\0\0\x69\xa4\x2a\x40\x02E1\x03",
    b"\0\x0c\x0e\0\0\0\0\x69\xa4\x2a\x40\x02E1",
    b"\0\x2d\x0f\0\0\0\0\x69\xa4\x2a\x40\x02E1\x20urn:emergency:uid:incidentid:1:a",
    b"\0\x0c\x10\0\0\0\0\x69\xa4\x2a\x40\x02E1",
    b"\0\x12\x11\0\0\0\0\x69\xa4\x2a\x40\x01\0\0\0\0\0\0\0\x09",
];

/// Puts a client's request of a verb that is drawn after other bytes: as often one that version 2 alone tells as any.
fn put_drawn_request(bytes: &mut Vec<u8>, random: &mut Random, client: u64, number: u64) -> bool {
    let verb = match random.below(34) {
        verb @ 0..=16 => verb,
        late => 14 + late % 3,
    };
    let body = BODIES.get(verb as usize).unwrap_or(&OPEN);
    put_numbers(bytes, &[client, number]).is_ok() && bytes.extend_from_slice(body).is_ok()
}

/// Puts the entry that a log has at a place after other bytes, or now and then another, as where it has none.
fn put_drawn_entry(bytes: &mut Vec<u8>, random: &mut Random, log: &Log, place: u64) -> bool {
    if 1 <= place && place <= log.len() && random.below(64) > 0 {
        return put_entry(log.at(place), bytes).is_ok();
    }
    let client = random.below(3).saturating_add(7);
    put_drawn_request(bytes, random, client, place.max(1))
}

/// Puts entries of the places from one after `base` to another, and before them how many they are.
fn put_drawn_log(
    bytes: &mut Vec<u8>,
    random: &mut Random,
    log: &Log,
    base: u64,
    last: u64,
) -> bool {
    let count = last.saturating_sub(base).min(LOG_ENTRIES) as u32;
    if bytes.extend_from_slice(&count.to_be_bytes()).is_err() {
        return false;
    }
    for before in base..last {
        if !put_drawn_entry(bytes, random, log, before.saturating_add(1)) {
            return false;
        }
    }
    true
}

/// Numbers near those of a node.
#[derive(Clone, Copy)]
struct Draws {
    view: u64,
    normal: u64,
    place: u64,
    commit: u64,
    last: u64,
}

fn drawn_numbers(random: &mut Random, saved: &Saved) -> Draws {
    let length = saved.log().len();
    Draws {
        view: near(random, saved.view(), LAST_VIEW),
        normal: near(random, saved.normal(), LAST_VIEW),
        place: near(random, length, LOG_ENTRIES),
        commit: near(random, saved.commit(), LOG_ENTRIES),
        last: near(random, length, 64),
    }
}

/// Puts the numbers of a message of a kind after other bytes.
fn put_drawn_numbers(bytes: &mut Vec<u8>, random: &mut Random, kind: u8, drawn: Draws) -> bool {
    let Draws {
        view,
        normal,
        place,
        commit,
        last,
    } = drawn;
    let whole = last.min(48);
    match kind {
        1 => put_numbers(bytes, &[view, place, commit]),
        2 => put_numbers(bytes, &[view, place]),
        4 => put_numbers(bytes, &[view]),
        5 => put_numbers(bytes, &[view, normal, commit.min(whole)]),
        6 => put_numbers(bytes, &[view, commit.min(whole)]),
        8 => {
            let reported = commit.max(last).saturating_sub(random.below(2));
            put_numbers(bytes, &[view, commit, reported])
        }
        _ => put_numbers(bytes, &[view, commit]),
    }
    .is_ok()
}

/// Puts the entries of a message of a kind after its numbers. A whole log has at most 48 of them.
fn put_drawn_entries(
    bytes: &mut Vec<u8>,
    random: &mut Random,
    kind: u8,
    drawn: Draws,
    log: &Log,
) -> bool {
    match kind {
        1 => put_drawn_entry(bytes, random, log, drawn.place),
        5 | 6 => put_drawn_log(bytes, random, log, 0, drawn.last.min(48)),
        8 => put_drawn_log(bytes, random, log, drawn.commit, drawn.last),
        _ => true,
    }
}

/// A kind: as often one that carries a log as one that does not.
fn drawn_kind(random: &mut Random) -> u8 {
    match random.below(30) {
        0..=4 => 5,
        5..=9 => 6,
        10..=14 => 8,
        15..=17 => 1,
        18..=20 => 2,
        21..=23 => 3,
        24..=26 => 4,
        _ => 7,
    }
}

/// A packet of a sender that is drawn for a node with this saved state; a StartViewChange where what is drawn is none.
pub fn drawn_packet(alloc: Global, random: &mut Random, from: u8, saved: &Saved) -> Option<Packet> {
    let kind = drawn_kind(random);
    let drawn = drawn_numbers(random, saved);
    let mut bytes = Vec::new(alloc);
    if bytes.extend_from_slice(&[1, kind, from]).is_err()
        || !put_drawn_numbers(&mut bytes, random, kind, drawn)
        || !put_drawn_entries(&mut bytes, random, kind, drawn, saved.log())
    {
        return None;
    }
    match packet_in(alloc, &mut bytes) {
        Some(packet) => Some(packet),
        None => packet_of(alloc, &short(4, from, 0, 0)),
    }
}

/// A sender: as often one of the first three nodes as any.
fn drawn_sender(random: &mut Random) -> u8 {
    let most = if random.below(2) == 0 { 3 } else { 10 };
    (random.below(most) % 10) as u8
}

/// A node of a group of `n`, and all that it has committed.
#[derive(Drop)]
pub struct Watched {
    pub node: Node,
    n: u8,
    committed: Log,
}

/// Whether no number falls, and the last normal view and the commit are where they may be.
fn keeps_numbers(before: Numbers, after: Numbers) -> bool {
    before.0 <= after.0
        && before.1 <= after.1
        && before.3 <= after.3
        && after.1 <= after.0
        && after.3 <= after.2
}

/// What is left of a step where it is lawful.
fn lawful(step: Step, is_lawful: bool) -> Option<Vec<(u8, Packet)>> {
    let Step { packets, answers } = step;
    drop(answers);
    if is_lawful {
        return Some(packets);
    }
    drop(packets);
    None
}

impl Watched {
    pub fn new(alloc: Global, id: u8, n: u8) -> Option<Watched> {
        if n < 3 || n % 2 != 1 || id >= n {
            return None;
        }
        Some(Watched {
            node: Node::from_saved(alloc, id, n, domain(alloc)?, Saved::initial(alloc)),
            n,
            committed: Log::new(alloc),
        })
    }

    /// Whether all that it had committed is committed, by which it learns what more is.
    fn keeps_committed(&mut self) -> bool {
        let saved = self.node.saved();
        self.committed.len() <= saved.commit() && agrees(saved, &mut self.committed) == Some(true)
    }

    /// What an event sends; nothing where it is refused, or something falls or is lost.
    pub fn sends(&mut self, event: Event) -> Option<Vec<(u8, Packet)>> {
        let before = numbers(&self.node);
        match self.node.step(event) {
            Ok(step) => {
                let is_lawful = keeps_numbers(before, numbers(&self.node))
                    && self.keeps_committed();
                lawful(step, is_lawful)
            }
            Err(_) => None,
        }
    }

    /// Whether nothing at all comes of the packet of a stranger.
    fn ignores(&mut self, packet: Packet) -> bool {
        let before = state(&self.node);
        match self.sends(Event::Packet(packet)) {
            Some(packets) => packets.is_empty() && state(&self.node) == before,
            None => false,
        }
    }

    /// Whether nothing falls or is lost by a packet, and nothing comes of that of a stranger.
    fn bears(&mut self, packet: Packet) -> bool {
        if packet.message().from() >= self.n {
            return self.ignores(packet);
        }
        self.sends(Event::Packet(packet)).is_some()
    }

    /// Draws a packet, and tells whether the node bears it so.
    fn bears_another(&mut self, alloc: Global, random: &mut Random) -> Option<bool> {
        let from = drawn_sender(random);
        let packet = drawn_packet(alloc, random, from, self.node.saved())?;
        Some(self.bears(packet))
    }

    /// The first of so many packets, counted from 1, that the node does not bear; 0 where it bears all.
    fn first_wrong(&mut self, alloc: Global, random: &mut Random, count: u64) -> u64 {
        for number in 1..=count {
            if self.bears_another(alloc, random) != Some(true) {
                return number;
            }
        }
        0
    }
}

/// How many of a log's commands version 2 alone tells.
fn count_late(log: &Log) -> u64 {
    let mut count = 0u64;
    for entry in log.entries() {
        if matches!(
            entry.command,
            Command::StandBy { .. } | Command::StandDown { .. } | Command::Replace { .. }
        ) {
            count = count.saturating_add(1);
        }
    }
    count
}

/// What came of 10,000 packets.
#[derive(Clone, Copy)]
struct Drawn {
    /// The first, counted from 1, that the node did not bear; 0 where it bore all.
    wrong: u64,
    /// How many entries it then has committed, and how many of them version 2 alone tells.
    commit: u64,
    late: u64,
    /// Its last normal view.
    normal: u64,
}

/// What comes of 10,000 packets at node `id` of `n`.
fn bear_packets(alloc: Global, id: u8, n: u8) -> Option<Drawn> {
    let mut watched = Watched::new(alloc, id, n)?;
    let mut random = Random(0x9e37_79b9_7f4a_7c15);
    let wrong = watched.first_wrong(alloc, &mut random, 10_000);
    let after = numbers(&watched.node);
    let late = count_late(&watched.committed);
    drop(watched);
    Some(Drawn {
        wrong,
        commit: after.3,
        late,
        normal: after.1,
    })
}

/// Nothing is borne.
const NONE: Drawn = Drawn {
    wrong: 1,
    commit: 0,
    late: 0,
    normal: 0,
};

#[test]
fn a_node_bears_any_packets(rt: HostRuntime) {
    for (id, n) in [(1, 3), (3, 5)] {
        let drawn = bear_packets(rt.alloc(), id, n).unwrap_or(NONE);
        assert!(rt; drawn.wrong == 0, "{id} {}", drawn.wrong);
        assert!(rt; drawn.commit >= 10 && drawn.normal >= 10, "{id}");
        assert!(rt; drawn.late >= 5, "{id} {}", drawn.late);
    }
}
