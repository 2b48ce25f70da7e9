//! The queues of packets to the other nodes.

ghost use Rattle.std.specs.Prelude.{map, ◌≡◌, ◌≢◌, ◌≤◌, ◌<◌, ◌++◌, ◌∷◌, ℕ, [], None, All, length, IfOk, OnOk};
ghost use Rattle.std.specs.Prelude.{if◌then◌else◌};
ghost use Rattle.desk_types.specs.Lists.{others_below};
ghost use Rattle.desk_mailbox.specs.Ends.{IsNewSender};
ghost use Rattle.desk_peers.specs.Queues.{end_to, put_in, put_to, IsSameEnd, Feeds, IsNewQueue, AddsNode};

use crate::QUEUE_PACKETS;
use crate::repeats::Repeats;
use desk_mailbox::{Sender, Taker, open_mailbox};
use desk_types::{EpochPacket, WantOfMemory};
use std::alloc::Global;
use std::marker::Model;
use std::sync::Wait;
use std::time::Clock;

/// The taking end of the queue to another node.
#[derive(Drop)]
pub struct PeerQueue {
    /// The number of that node.
    pub node: u8,
    pub(crate) taker: Taker<EpochPacket>,
}

/// The queues to the other nodes of a group. A contract sees their putting ends, by the numbers of the nodes.
pub struct PeerQueues<R: Wait + Drop> {
    rt: R,
    ends: Vec<Option<Sender<EpochPacket>>>,
    repeats: Vec<Repeats>,
}

// Written out, so that callers need not prove each part's drop.
impl<R: Wait + Drop> Drop for PeerQueues<R> {
    fn drop(self) {
        let PeerQueues {
            rt: _,
            ends: _,
            repeats: _,
        } = self;
    }
}

impl<R: Wait + Drop> Model for PeerQueues<R> {
    ghost use Rattle.std.specs.Prelude.{List, Option};
    ghost use Rattle.desk_types.specs.declared.epoch_packet.EpochPacket.{EpochPacket as AnEpochPacket};
    ghost use Rattle.desk_mailbox.specs.declared.sender.Sender.{Sender};

    ghost Value = { List (Option (Sender AnEpochPacket)) };

    ghost view = { λ q. q.ends.items };
}

/// A queue with its putting end.
fn open_queue(alloc: Global, node: u8) -> Result<(Sender<EpochPacket>, PeerQueue), WantOfMemory>
    ensures node { IfOk result (λ both. both.1.node ≡ node) }
    ensures sender { IfOk result (λ both. IsNewSender both.1.taker both.0) }
    ensures new { IfOk result (λ both. IsNewQueue both.1) }
{
    let (taker, senders) = open_mailbox::<EpochPacket>(alloc, QUEUE_PACKETS, 1)?;
    let mut senders = senders;
    match senders.pop() {
        Some(sender) => Ok((sender, PeerQueue { node, taker })),
        None => unreachable!(),
    }
}

/// Adds the queue to one more node, which this node itself does not get.
fn add_node(
    alloc: Global,
    id: u8,
    node: u8,
    ends: &mut Vec<Option<Sender<EpochPacket>>>,
    queues: &mut Vec<PeerQueue>,
) -> Result<(), WantOfMemory>
    ensures { OnOk result (AddsNode id node ends.old.items queues.old.items ends.new.items queues.new.items) }
{
    if node == id {
        ends.push(None)?;
        return Ok(());
    }
    let (sender, queue) = open_queue(alloc, node)?;
    ends.push(Some(sender))?;
    queues.push(queue)?;
    Ok(())
}

/// What came again for so many nodes, of which nothing came yet.
fn no_repeats(alloc: Global, n: u8) -> Result<Vec<Repeats>, WantOfMemory> {
    let mut repeats = Vec::new(alloc);
    for _ in 0..n {
        repeats.push(Repeats::new())?;
    }
    Ok(repeats)
}

/// Opens an empty queue of 1,024 packets to each other node of a group of `n`, of at least three, for the node `id`.
/// Memory alone is refused.
pub fn open_queues<R: Wait + Drop + Copy>(
    rt: R,
    alloc: Global,
    id: u8,
    n: u8,
) -> Result<(PeerQueues<R>, Vec<PeerQueue>), WantOfMemory>
    requires least { 3 ≤ n }
    requires id { id < n }
    // The taking ends come in the order of the nodes' numbers.
    ensures nodes { IfOk result (λ all. map (λ q. q.node) all.1.items ≡ others_below id n) }
    ensures own { IfOk result (λ all. end_to all.0 id ≡ None) }
    ensures count { IfOk result (λ all. length all.0 ≡ n) }
    // What is put into the queue to a node comes out at that node's taking end.
    ensures feeds { IfOk result (λ all. All (Feeds all.0) all.1.items) }
    ensures empty { IfOk result (λ all. (node : ℕ) → put_to all.0 node ≡ []) }
    ensures new { IfOk result (λ all. All IsNewQueue all.1.items) }
{
    let mut ends = Vec::new(alloc);
    let mut queues = Vec::new(alloc);
    for node in 0..n {
        add_node(alloc, id, node, &mut ends, &mut queues)?;
    }
    let repeats = no_repeats(alloc, n)?;
    Ok((PeerQueues { rt, ends, repeats }, queues))
}

/// Puts a packet into a queue where there is room. It is false where the packet is lost.
fn put_in_end<R: Wait>(rt: &R, end: &mut Option<Sender<EpochPacket>>, packet: EpochPacket) -> bool
    ensures same { IsSameEnd end.old end.new }
    ensures put { put_in end.new ≡ (if result then put_in end.old ++ packet ∷ [] else put_in end.old) }
{
    if let Some(sender) = end.take() {
        let (back, outcome) = sender.try_put(rt, packet);
        *end = Some(back);
        let put = outcome.is_ok();
        drop(outcome);
        return put;
    }
    drop(packet);
    false
}

/// Whether a packet for a node is to be put, and is no long one, and no ask for such, that came just before.
fn is_admitted<R: Clock>(rt: &R, repeats: &mut Vec<Repeats>, to: u8, packet: &EpochPacket) -> bool {
    match repeats.get_mut(to as usize) {
        Some(repeats) => repeats.admit(rt, packet),
        None => true,
    }
}

impl<R: Wait + Clock + Drop> PeerQueues<R> {
    /// Puts a packet into the queue to a node, without waiting. It is false where the packet is lost: the queue is
    /// full, or its taking end is gone, or the node is this one itself, or none of the group. A `DoViewChange` or a
    /// `StartView` of 256 entries or more that comes again for a node, of the same epoch, purpose and view, is lost,
    /// too, but each tenth time: what takes a tick's time to send would fill the queue otherwise. So is a past log of
    /// as many, but once in five seconds, and a `GetState` by the rules of its epoch, but once in 200 ms.
    pub fn put(&mut self, to: u8, packet: EpochPacket) -> bool
        ensures put { put_to self.new to ≡ (if result then put_to self.old to ++ packet ∷ [] else put_to self.old to) }
        ensures same { IsSameEnd (end_to self.old to) (end_to self.new to) }
        ensures others { (node : ℕ) → node ≢ to → end_to self.new node ≡ end_to self.old node }
        ensures count { length self.new ≡ length self.old }
    {
        let PeerQueues { rt, ends, repeats } = self;
        if !is_admitted(rt, repeats, to, &packet) {
            drop(packet);
            return false;
        }
        if let Some(end) = ends.get_mut(to as usize) {
            return put_in_end(rt, end, packet);
        }
        drop(packet);
        false
    }
}
