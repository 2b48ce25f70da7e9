//! What nodes hand to each other.

ghost use Rattle.desk_mailbox.specs.Ends.{IsSameSender};

use crossbeam_channel::{Receiver, Sender as InboxSender, bounded};
use desk_threads::{Item, Out, Sender};
use desk_types::{EpochPacket, WantOfMemory};
use std::alloc::Global;
use std::sync::Wait;

/// The items that wait to be carried at most.
const INBOX_ITEMS: usize = 1_024;

/// What is to be carried to a node's mailbox.
#[derive(Drop)]
pub(super) struct Inbox {
    to: InboxSender<Item>,
    from: Receiver<Item>,
}

/// The inboxes of three nodes, by their numbers.
pub(super) fn open_inboxes(alloc: Global) -> Result<Vec<Inbox>, WantOfMemory> {
    let mut inboxes = Vec::new(alloc);
    for _ in 0..3 {
        let (to, from) = bounded(alloc, INBOX_ITEMS)?;
        inboxes.push(Inbox { to, from })?;
    }
    Ok(inboxes)
}

/// Hands packets to the inboxes.
#[derive(Drop)]
pub(super) struct Outbox<'a, R: Wait> {
    pub(super) rt: &'a R,
    pub(super) inboxes: &'a [Inbox],
}

impl<'a, R: Wait> Out for Outbox<'a, R> {
    ghost takes = { λ _ _ _. Unit {0} };

    fn hand(&mut self, to: u8, packet: EpochPacket) {
        if let Some(inbox) = self.inboxes.get(to as usize) {
            // where the inbox is full, the packet is lost
            drop(inbox.to.try_send(self.rt, Item::Packet(packet)));
        }
    }

    ghost takes_none = { λ _. tt };

    ghost takes_then = { λ _ _ _ _ _ _ _. tt };
}

/// Has a node's keeper stop after a tick, once all is done that waits in its inbox.
pub(super) fn stop_node<R: Wait>(rt: &R, inboxes: &[Inbox], id: usize) {
    if let Some(inbox) = inboxes.get(id) {
        drop(inbox.to.send(rt, Item::Tick));
        drop(inbox.to.send(rt, Item::Stop));
    }
}

/// Puts an item into a mailbox, unless its keeper has ended.
fn put_item<R: Wait>(rt: &R, sender: Sender<Item>, item: Item) -> Sender<Item>
    ensures { IsSameSender sender result }
{
    let (sender, put) = sender.put(rt, item);
    drop(put);
    sender
}

/// Carries what comes into an inbox to a mailbox, up to a stop.
fn carry_from<R: Wait>(rt: &R, inbox: &Inbox, sender: Sender<Item>) -> Sender<Item>
    ensures { IsSameSender sender result }
{
    let mut sender = sender;
    for _ in rt.forever() {
        let item = inbox.from.recv(rt).unwrap_or(Item::Stop);
        let is_last = matches!(&item, Item::Stop);
        sender = put_item(rt, sender, item);
        if is_last {
            return sender;
        }
    }
    unreachable!()
}

/// Carries what comes into the inbox of a node to its mailbox, up to a stop.
pub(super) fn carry<R: Wait>(
    rt: &R,
    inboxes: &[Inbox],
    id: u8,
    sender: Sender<Item>,
) -> Sender<Item>
    ensures { IsSameSender sender result }
{
    match inboxes.get(id as usize) {
        Some(inbox) => carry_from(rt, inbox, sender),
        None => sender,
    }
}
