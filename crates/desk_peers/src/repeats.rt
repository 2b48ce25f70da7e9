//! Long packets, and asks for such, that come again for a node.

use desk_types::{EpochPacket, Message, Purpose};
use std::time::{Clock, Instant};

/// A packet with so many entries or more is long.
pub const LONG_PACKET_ENTRIES: usize = 256;
/// Of a long packet that comes again and again for a node, one in so many is put.
pub const REPEATS_A_PUT: u32 = 10;
/// So long after an ask for entries was put for a node, the same one is put again, in milliseconds.
const ASK_MILLISECONDS: u128 = 200;
/// The same of a past log. It may take some seconds to send.
const PAST_LOG_MILLISECONDS: u128 = 5_000;

/// The kinds of packets that may be long, or ask for one.
#[derive(Clone, Copy, PartialEq)]
enum LongKind {
    DoViewChange,
    StartView,
    GetState,
    NewState,
}

/// What a long packet, or an ask, has in common with the same one when it is sent again.
#[derive(Clone, Copy, PartialEq)]
struct LongPacket {
    epoch: u64,
    purpose: Purpose,
    kind: LongKind,
    view: u64,
    /// The place after which its entries stand, or those that it asks for.
    base: u64,
}

/// What an ask is that goes by the rules of its epoch. Any other is seldom.
fn ask_by_rules(packet: &EpochPacket, view: u64, base: u64) -> Option<LongPacket> {
    match packet.purpose {
        Purpose::Step => Some(LongPacket {
            epoch: packet.epoch,
            purpose: Purpose::Step,
            kind: LongKind::GetState,
            view,
            base,
        }),
        Purpose::Ask | Purpose::Tell => None,
    }
}

/// What a packet is as a long one, if it is long, or asks for one. An answer by the rules is as seldom as its ask.
fn long_packet(packet: &EpochPacket) -> Option<LongPacket> {
    let (kind, view, base, entries) = match packet.packet.message() {
        Message::DoViewChange { view, log, .. } => (LongKind::DoViewChange, *view, 0, log),
        Message::StartView { view, log, .. } => (LongKind::StartView, *view, 0, log),
        Message::NewState {
            view,
            base,
            entries,
            ..
        } if packet.purpose == Purpose::Tell => (LongKind::NewState, *view, *base, entries),
        Message::GetState { view, base, .. } => return ask_by_rules(packet, *view, *base),
        _ => return None,
    };
    if entries.as_slice().len() < LONG_PACKET_ENTRIES {
        return None;
    }
    Some(LongPacket {
        epoch: packet.epoch,
        purpose: packet.purpose,
        kind,
        view,
        base,
    })
}

/// The long packet, or the ask, that came last for a node, how often it came again since it was put, and when one that
/// is put again by the clock was put, where that said it.
#[derive(Clone, Copy)]
pub(crate) struct Repeats {
    last: Option<LongPacket>,
    since: u32,
    put: Option<Instant>,
}

impl Repeats {
    /// No long packet came yet.
    pub(crate) fn new() -> Repeats {
        Repeats {
            last: None,
            since: 0,
            put: None,
        }
    }

    /// Whether a long packet that came again is to be put: for the tenth time since it was put.
    fn admit_log(&mut self) -> bool {
        if self.since < REPEATS_A_PUT - 1 {
            self.since += 1;
            return false;
        }
        self.since = 0;
        true
    }

    /// Whether what came again is to be put, since it was put so many milliseconds ago. A node that lacks entries asks
    /// at each packet of its primary, and that copies all of them each time. One that was lost is soon put again.
    fn admit_after<R: Clock>(&mut self, rt: &R, milliseconds: u128) -> bool {
        let is_due = match self.put {
            Some(put) => match put.elapsed(rt) {
                Ok(passed) => passed.as_millis() >= milliseconds,
                Err(_) => true,
            },
            None => true,
        };
        if is_due {
            self.put = Instant::now(rt).ok();
        }
        is_due
    }

    /// Whether a packet is to be put: it is not long and asks for none, or is another than the one that came last, or
    /// that one once more, as `admit_log` and `admit_after` say.
    pub(crate) fn admit<R: Clock>(&mut self, rt: &R, packet: &EpochPacket) -> bool {
        let Some(long) = long_packet(packet) else {
            return true;
        };
        if self.last != Some(long) {
            *self = Repeats {
                last: Some(long),
                since: 0,
                put: Instant::now(rt).ok(),
            };
            return true;
        }
        match long.kind {
            LongKind::GetState => self.admit_after(rt, ASK_MILLISECONDS),
            LongKind::NewState => self.admit_after(rt, PAST_LOG_MILLISECONDS),
            LongKind::DoViewChange | LongKind::StartView => self.admit_log(),
        }
    }
}
