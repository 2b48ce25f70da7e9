//! Node 0 of three leads an epoch of two entries, or up to a replacement, and goes over to the next. Node 1 is told the
//! epoch's log.

ghost use Rattle.std.specs.Prelude.{◌<◌};

use desk_codec::get_entry;
use desk_epoch_node::{EpochEvent, EpochNode, EpochStep, PastLogs};
use desk_log::Saved;
use desk_node::Node;
use desk_types::{
    Domain, Entry, EpochPacket, Items, Message, Packet, Purpose, Refusal, WantOfMemory,
};
use std::alloc::{AllocError, Global};

/// What stands after the client and the number of a request to open an incident for a fire at 12 Elm St.
const OPEN: &[u8] = b"\0\x1a\x01\0\0\0\0\x69\xa4\x2a\x40\x04fire\x0912 Elm St\0\0";

/// What stands after the client and the number of a request to replace a node, before the number of that node and the
/// token.
const REPLACE: &[u8] = b"\0\x12\x11\0\0\0\0\x69\xa4\x2a\x40";

/// The token that a replacement names.
pub const TOKEN: u64 = 5;

fn put_request(
    bytes: &mut Vec<u8>,
    client: u64,
    number: u64,
    rest: &[u8],
) -> Result<(), AllocError> {
    bytes.extend_from_slice(&client.to_be_bytes())?;
    bytes.extend_from_slice(&number.to_be_bytes())?;
    bytes.extend_from_slice(rest)
}

fn entry_of(alloc: Global, bytes: &[u8]) -> Option<Entry> {
    match get_entry(alloc, bytes) {
        Ok((entry, _)) => Some(entry),
        Err(_) => None,
    }
}

pub fn entry(alloc: Global, client: u64, number: u64) -> Option<Entry> {
    let mut bytes = Vec::new(alloc);
    put_request(&mut bytes, client, number, OPEN).ok()?;
    entry_of(alloc, bytes.as_slice())
}

/// The request 1 of a client, which names a token for a node.
fn replacement(alloc: Global, client: u64, node: u8, token: u64) -> Option<Entry> {
    let mut bytes = Vec::new(alloc);
    put_request(&mut bytes, client, 1, REPLACE).ok()?;
    bytes.push(node).ok()?;
    bytes.extend_from_slice(&token.to_be_bytes()).ok()?;
    entry_of(alloc, bytes.as_slice())
}

/// A node of three with a token in epoch 0, which ends after two entries.
pub fn first_node(alloc: Global, id: u8, token: u64) -> Option<EpochNode>
    requires { id < 3 }
{
    let domain = Domain::new(alloc, "desk.example").ok()?;
    let node = Node::from_saved(alloc, id, 3, domain, Saved::initial(alloc));
    Some(EpochNode::new(0, PastLogs::new(alloc), 2, token, node))
}

/// What comes to a node, with numbers of its own.
#[derive(Clone, Copy)]
pub enum Comes {
    /// The request of a client with a number.
    Request(u64, u64),
    /// The request 1 of client 7, which names the token for a node.
    Replace(u8),
    /// The request 1 of a client, which names a token for a node.
    ReplaceAs(u64, u8, u64),
    /// A PrepareOk of node 1 of an epoch, for a place of view 0.
    PrepareOk(u64, u64),
    /// Node 1 asks for what stands after a place of an epoch.
    Ask(u64, u64),
    /// Node 1 asks for all of an epoch, and says its token.
    AskAs(u64, u64),
    /// Node 2 tells the requests 1 to a number of client 7 after a place of an epoch.
    Tell(u64, u64, u64),
    /// Node 2 tells the log of epoch 0 that has such a request alone.
    TellReplace(u8),
    /// It is time to send again what is not acknowledged.
    Resend,
    /// It is time to go over to the next epoch.
    Begin,
}

fn sent(epoch: u64, purpose: Purpose, message: Message) -> Option<EpochEvent> {
    if !message.is_in_range() {
        drop(message);
        return None;
    }
    let packet = Packet::new(message);
    Some(EpochEvent::Packet(EpochPacket {
        epoch,
        purpose,
        packet,
    }))
}

fn entries(alloc: Global, last: u64) -> Option<Items<Entry>> {
    let mut entries = Items::new(alloc);
    for number in 1..=last {
        entries.push(entry(alloc, 7, number)?).ok()?;
    }
    Some(entries)
}

/// Node 2 tells so many entries of an epoch, all of them committed, behind a place.
fn reported(epoch: u64, base: u64, commit: u64, entries: Items<Entry>) -> Option<EpochEvent> {
    let (from, view) = (2, 0);
    sent(
        epoch,
        Purpose::Tell,
        Message::NewState {
            from,
            view,
            base,
            commit,
            entries,
        },
    )
}

/// Node 1 asks, with its token in the place of a view, for what stands after a place of an epoch.
fn asked(epoch: u64, view: u64, base: u64) -> Option<EpochEvent> {
    sent(
        epoch,
        Purpose::Ask,
        Message::GetState {
            from: 1,
            view,
            base,
        },
    )
}

fn replaced(alloc: Global, node: u8) -> Option<EpochEvent> {
    let mut entries = Items::new(alloc);
    entries.push(replacement(alloc, 7, node, TOKEN)?).ok()?;
    reported(0, 0, 1, entries)
}

pub fn event(alloc: Global, comes: Comes) -> Option<EpochEvent> {
    match comes {
        Comes::Request(client, number) => Some(EpochEvent::Request(entry(alloc, client, number)?)),
        Comes::Replace(node) => Some(EpochEvent::Request(replacement(alloc, 7, node, TOKEN)?)),
        Comes::ReplaceAs(client, node, token) => {
            Some(EpochEvent::Request(replacement(alloc, client, node, token)?))
        }
        Comes::PrepareOk(epoch, place) => {
            let (from, view) = (1, 0);
            sent(
                epoch,
                Purpose::Step,
                Message::PrepareOk { from, view, place },
            )
        }
        Comes::Ask(epoch, base) => asked(epoch, 0, base),
        Comes::AskAs(epoch, token) => asked(epoch, token, 0),
        Comes::Tell(epoch, base, last) => reported(epoch, base, last, entries(alloc, last)?),
        Comes::TellReplace(node) => replaced(alloc, node),
        Comes::Resend => Some(EpochEvent::Resend),
        Comes::Begin => None,
    }
}

/// A word of what a node does, with a number that it says.
fn word(step: &EpochStep) -> (&'static str, u64) {
    match step {
        EpochStep::Nothing => ("nothing", 0),
        EpochStep::Own(step) => ("own", step.packets.len() as u64),
        EpochStep::Known { place, .. } => ("known", *place),
        EpochStep::Refused { refusal, .. } => match refusal {
            Refusal::Stale { latest } => ("stale", *latest),
            _ => ("refused", 0),
        },
        EpochStep::Deferred(_) => ("kept", 0),
        EpochStep::Ask { to, .. } => ("ask", *to as u64),
        EpochStep::AskAll { packets } => ("ask all", packets.len() as u64),
        EpochStep::Tell { base, .. } => ("tell", *base),
        EpochStep::Began { log, .. } => ("began", log.len()),
        EpochStep::Replaced => ("replaced", 0),
    }
}

fn begun(node: &mut EpochNode) -> Result<(&'static str, u64), WantOfMemory> {
    match node.begin_next()? {
        Some(ended) => Ok(("ended", ended.node.saved().commit())),
        None => Ok(("goes on", node.epoch())),
    }
}

fn done(alloc: Global, node: &mut EpochNode, comes: Comes) -> Option<(&'static str, u64)> {
    if let Comes::Begin = comes {
        return begun(node).ok();
    }
    let step = node.step(event(alloc, comes)?).ok()?;
    Some(word(&step))
}

/// What comes to a node, and what it does.
type Row = (Comes, (&'static str, u64));

/// The first row, counted from 1, that does not come true; 0 where there is no node.
fn first_untrue(alloc: Global, node: Option<EpochNode>, rows: &[Row]) -> Option<usize> {
    let Some(mut node) = node else {
        return Some(0);
    };
    for (index, row) in rows.iter().enumerate() {
        if done(alloc, &mut node, row.0) != Some(row.1) {
            return Some(index + 1);
        }
    }
    None
}

const LEADS: &[Row] = &[
    (Comes::Request(7, 1), ("own", 3)),
    (Comes::Begin, ("goes on", 0)),
    (Comes::Request(7, 2), ("own", 3)),
    (Comes::Request(8, 1), ("kept", 0)),
    // The log is full, and not committed.
    (Comes::Begin, ("goes on", 0)),
    (Comes::PrepareOk(0, 2), ("own", 2)),
    (Comes::Begin, ("ended", 2)),
    // Past logs know client 7, and not client 8.
    (Comes::Request(7, 1), ("stale", 2)),
    (Comes::Request(7, 2), ("known", 2)),
    (Comes::Request(8, 1), ("own", 3)),
    (Comes::Request(7, 3), ("own", 3)),
    (Comes::PrepareOk(0, 2), ("ask", 1)),
    (Comes::PrepareOk(2, 1), ("ask", 1)),
    (Comes::PrepareOk(1, 2), ("own", 2)),
    (Comes::Begin, ("ended", 2)),
    (Comes::Request(7, 3), ("known", 4)),
    (Comes::Request(8, 1), ("known", 3)),
];

const ASKED: &[Row] = &[
    (Comes::Ask(0, 0), ("nothing", 0)),
    (Comes::Ask(1, 0), ("ask", 1)),
    // No log but the whole one is taken, and none after what the node lacks.
    (Comes::Tell(0, 0, 1), ("nothing", 0)),
    (Comes::Tell(0, 1, 1), ("nothing", 0)),
    (Comes::Tell(1, 0, 2), ("nothing", 0)),
    (Comes::Tell(0, 0, 2), ("began", 2)),
    (Comes::Tell(0, 0, 2), ("nothing", 0)),
    (Comes::Ask(0, 1), ("tell", 1)),
];

/// No entry names the token of the node.
const AWAITS: &[Row] = &[
    (Comes::Request(7, 1), ("refused", 0)),
    (Comes::Resend, ("ask all", 2)),
    (Comes::PrepareOk(0, 1), ("nothing", 0)),
    (Comes::PrepareOk(1, 1), ("ask", 1)),
    (Comes::Tell(0, 0, 2), ("began", 2)),
    (Comes::Begin, ("goes on", 1)),
    // Who acts would tell it.
    (Comes::Ask(0, 1), ("nothing", 0)),
    (Comes::Request(8, 1), ("refused", 0)),
    (Comes::Resend, ("ask all", 2)),
];

/// An epoch ends after a replacement; node 0 goes on to lead.
const REPLACES: &[Row] = &[
    (Comes::Replace(2), ("own", 3)),
    (Comes::Begin, ("goes on", 0)),
    (Comes::Request(8, 1), ("kept", 0)),
    (Comes::PrepareOk(0, 1), ("own", 2)),
    (Comes::Begin, ("ended", 1)),
    (Comes::Replace(2), ("known", 1)),
    (Comes::Request(8, 1), ("own", 3)),
];

/// Node 0 was replaced by another.
const STOPS: &[Row] = &[
    (Comes::Replace(0), ("own", 3)),
    (Comes::PrepareOk(0, 1), ("own", 2)),
    (Comes::Begin, ("ended", 1)),
    (Comes::Request(8, 1), ("refused", 0)),
    (Comes::Resend, ("replaced", 0)),
];

/// The node with the token acts once it is told the log that names it: so it tells that log.
const NAMED: &[Row] = &[
    (Comes::Request(7, 1), ("refused", 0)),
    (Comes::TellReplace(0), ("began", 1)),
    (Comes::Ask(0, 0), ("tell", 0)),
];

/// It awaits its number where another one is named for.
const NAMED_FOR_ANOTHER: &[Row] = &[
    (Comes::TellReplace(2), ("began", 1)),
    (Comes::Ask(0, 0), ("nothing", 0)),
    (Comes::Request(8, 1), ("refused", 0)),
];

/// The token of node 0, what comes to it, and what it does.
const REPLACEMENTS: &[(u64, &[Row])] = &[
    (0, REPLACES),
    (0, STOPS),
    (TOKEN, NAMED),
    (TOKEN, NAMED_FOR_ANOTHER),
];

#[test]
fn a_replacement_ends_its_epoch_and_names_who_acts(rt: HostRuntime) {
    let alloc = rt.alloc();
    for (token, rows) in REPLACEMENTS {
        let node = first_node(alloc, 0, *token);
        assert!(rt; first_untrue(alloc, node, *rows) == None, "{token}");
    }
}

#[test]
fn who_leads_goes_over(rt: HostRuntime) {
    let alloc = rt.alloc();
    assert!(rt; first_untrue(alloc, first_node(alloc, 0, 0), LEADS) == None);
}

#[test]
fn who_is_told_goes_over(rt: HostRuntime) {
    let alloc = rt.alloc();
    assert!(rt; first_untrue(alloc, first_node(alloc, 0, 0), ASKED) == None);
}

#[test]
fn who_awaits_its_number_asks_and_is_told(rt: HostRuntime) {
    let alloc = rt.alloc();
    assert!(rt; first_untrue(alloc, first_node(alloc, 0, 5), AWAITS) == None);
}
