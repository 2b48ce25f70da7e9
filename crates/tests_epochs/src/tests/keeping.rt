//! What a keeper's items make of node 0 of three, which leads epochs of two entries, and holds requests for the next
//! one.

use super::epochs::{Comes, event};
use super::stores::{GivenStores, stores};
use desk_epoch_node::EpochEvent;
use desk_epoch_replica::{DeferringReplica, EpochReplica};
use desk_epoch_stores::OpenedEpoch;
use desk_mailbox::Item;
use desk_replica::{Answer, ItemStep, Replica, session_answer};
use desk_types::{Domain, Message, Owner, Purpose};
use std::alloc::Global;

/// The replica at its start, where the store of the first epoch may be read as one that is over.
fn start(alloc: Global) -> Option<DeferringReplica<GivenStores>> {
    let mut none = stores(alloc, &[])?;
    let Ok(opened) = OpenedEpoch::current(alloc, &mut none, 2) else {
        return None;
    };
    let owner = Owner {
        id: 0,
        n: 3,
        domain: Domain::new(alloc, "desk.example").ok()?,
    };
    let past = stores(alloc, &[(2, 2)])?;
    let mut replica = EpochReplica::start(alloc, past, opened, owner, 0).ok()?;
    replica.prepare().ok()?;
    Some(DeferringReplica::new(alloc, replica))
}

pub(super) fn item(alloc: Global, comes: Comes) -> Option<Item> {
    match event(alloc, comes)? {
        EpochEvent::Request(entry) => Some(Item::Request { session: 0, entry }),
        EpochEvent::Packet(packet) => Some(Item::Packet(packet)),
        EpochEvent::Resend => Some(Item::Tick),
        other => {
            drop(other);
            None
        }
    }
}

/// How many entries the first packet tells.
fn told(step: &ItemStep) -> u64 {
    if step.purpose != Purpose::Tell || step.packets.is_empty() {
        return 0;
    }
    match step.packets[0].1.message() {
        Message::NewState { entries, .. } => entries.as_slice().len() as u64,
        _ => 0,
    }
}

fn place(answer: &Answer) -> u64 {
    match answer {
        Answer::Committed { place, .. } => *place,
        Answer::Refused { .. } => 0,
    }
}

/// The last place that is answered; 0 where there is none.
pub(super) fn answered(step: &ItemStep) -> u64 {
    let (base, outcomes, own) = step.answers.parts();
    let mut last = 0;
    for outcome in outcomes {
        if let Some(answer) = session_answer(base, outcome) {
            last = place(&answer);
        }
    }
    match own {
        Some(answer) => place(answer),
        None => last,
    }
}

/// How many packets go out, how many entries they tell, which place is answered, and how many requests are held then.
type Done = (usize, u64, u64, usize);

fn done(alloc: Global, replica: &mut DeferringReplica<GivenStores>, comes: Comes) -> Option<Done> {
    let step = replica.do_item(alloc, item(alloc, comes)?).ok()?;
    let held = replica.deferred();
    Some((step.packets.len(), told(&step), answered(&step), held))
}

const ROWS: &[(Comes, Done)] = &[
    (Comes::Request(7, 1), (3, 0, 0, 0)),
    (Comes::Request(7, 2), (3, 0, 0, 0)),
    // The log is full.
    (Comes::Request(8, 1), (0, 0, 0, 1)),
    (Comes::Tell(0, 0, 2), (0, 0, 0, 1)),
    // The next epoch has begun: two packets of the tick, and three of the request that is done again.
    (Comes::Resend, (5, 0, 0, 0)),
    (Comes::PrepareOk(1, 1), (2, 0, 3, 0)),
    (Comes::Request(7, 2), (0, 0, 2, 0)),
    (Comes::Ask(0, 0), (1, 2, 0, 0)),
    // It was told so shortly before.
    (Comes::Ask(0, 0), (0, 0, 0, 0)),
];

/// The first row, counted from 1, that does not come true; 0 where there is no replica.
fn first_untrue(alloc: Global) -> Option<usize> {
    let Some(mut replica) = start(alloc) else {
        return Some(0);
    };
    for (index, row) in ROWS.iter().enumerate() {
        if done(alloc, &mut replica, row.0) != Some(row.1) {
            return Some(index + 1);
        }
    }
    None
}

#[test]
fn a_request_at_a_full_log_is_answered_in_the_next_epoch(rt: HostRuntime) {
    let alloc = rt.alloc();
    assert!(rt; first_untrue(alloc) == None);
}
