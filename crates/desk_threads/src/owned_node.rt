//! A node between the items of its mailbox. It knows no threads.

ghost use Rattle.std.specs.Prelude.{◌≡◌, ◌≤◌, ◌<◌, ◌==◌, if◌then◌else◌, [], true, false, IfOk, OnOk, OnErr};
ghost use Rattle.desk_types.specs.declared.limits.TheConstants.{SUSPECT_TICKS};
ghost use Rattle.desk_log.specs.Entries.{IsLogPrefix};
ghost use Rattle.desk_log.specs.Quorum.{primary};
ghost use Rattle.desk_log.specs.SavedValue.{committed_entries};
ghost use Rattle.desk_mailbox.specs.declared.item.Item.TheVariants as items;
ghost use Rattle.desk_node.specs.NodeValue.{DoesStep, IsSameNode};
ghost use Rattle.desk_replica.specs.EpochPackets.{first_steps, is_first_step};
ghost use Rattle.desk_threads.specs.OwnedValue.{with_one_refused, DoesItem};
ghost use Rattle.desk_threads.specs.ItemAnswers.{Answers};
ghost use Rattle.desk_threads.specs.Keeper.{tick_event, ticks_after_tick, suspects};

use desk_log::GroupNode;
use desk_mailbox::Item;
use desk_node::{Event, Node, Step};
use desk_types::limits::SUSPECT_TICKS;
use desk_types::{EpochPacket, Purpose, WantOfMemory};
use std::alloc::Global;
use std::marker::Model;

/// A node, the ticks since it last heard of its primary or suspected it, and how many items were refused for want of
/// memory. The node stands in a block of memory of its own, so that what holds it moves as a few words.
pub struct OwnedNode {
    node: Box<Node>,
    ticks: u64,
    refused: u64,
}

// Written out, so that callers need not prove each part's drop.
impl Drop for OwnedNode {
    fn drop(self) {
        let OwnedNode {
            node: _,
            ticks: _,
            refused: _,
        } = self;
    }
}

impl Model for OwnedNode {
    ghost use Rattle.std.specs.Prelude.{◌≤◌};
    ghost use Rattle.desk_types.specs.declared.limits.TheConstants.{SUSPECT_TICKS};
    ghost use Rattle.desk_threads.specs.OwnedValue.{OwnedValue};

    ghost Value = { OwnedValue };

    ghost view = { λ k. record { node = k.node.value; ticks = k.ticks; refused = k.refused } };

    ghost invariant = { λ k. k.ticks ≤ SUSPECT_TICKS };
}

/// At a tick a node that does not suspect its primary sends again what is not acknowledged.
fn tick_event(suspects: bool) -> Event
    ensures { result ≡ tick_event suspects }
{
    if suspects {
        Event::Suspect
    } else {
        Event::Resend
    }
}

/// The count starts again where the node suspects its primary, and else stays at `SUSPECT_TICKS` once it is there.
fn ticks_after_tick(suspects: bool, ticks: u64) -> u64
    requires { ticks ≤ SUSPECT_TICKS }
    ensures value { result ≡ ticks_after_tick suspects ticks }
    ensures most { result ≤ SUSPECT_TICKS }
{
    if suspects {
        0
    } else if ticks < SUSPECT_TICKS {
        ticks + 1
    } else {
        ticks
    }
}

/// The count starts again at a packet of the primary of the view that the node has then.
fn ticks_after_packet(from: u8, member: GroupNode, view: u64, ticks: u64) -> u64
    requires within { 0 < member.n }
    ensures value { result ≡ (if from == primary member.n view then 0 else ticks) }
    ensures most { result ≤ ticks }
{
    if from == member.primary(view) {
        0
    } else {
        ticks
    }
}

/// Whether a packet goes by the rules of the first epoch, the only one of the node.
fn is_first_step(sent: &EpochPacket) -> bool
    ensures { result ≡ is_first_step sent.now }
{
    sent.epoch == 0 && sent.purpose == Purpose::Step
}

/// What comes of an item at which the node does nothing.
fn idle_step(alloc: Global) -> Step
    ensures packets { result.packets.items ≡ [] }
    ensures answers { result.answers.items ≡ [] }
{
    Step {
        packets: Vec::new(alloc),
        answers: Vec::new(alloc),
    }
}

impl OwnedNode {
    /// A node at its start. Err where there is no memory for its block.
    pub fn new(alloc: Global, node: Node) -> Result<OwnedNode, WantOfMemory>
        ensures { IfOk result (λ owned. owned ≡ record { node = node; ticks = 0; refused = 0 }) }
    {
        let node = Box::new(alloc, node)?;
        Ok(OwnedNode {
            node,
            ticks: 0,
            refused: 0,
        })
    }

    /// The node as the items so far left it.
    pub fn node(&self) -> &Node
        ensures { result.now ≡ self.now.node }
    {
        &self.node
    }

    /// How many items were refused for want of memory since the start. The count stays at its greatest value.
    pub fn refused(&self) -> u64
        ensures { result ≡ self.now.refused }
    {
        self.refused
    }

    /// Counts an item that was refused for want of memory.
    pub fn refuse(&mut self)
        ensures { self.new ≡ with_one_refused self.old }
    {
        self.refused = self.refused.saturating_add(1);
    }

    // A step of the node, or one refused item more.
    fn step(&mut self, event: Event) -> Result<Step, WantOfMemory>
        ensures step { IfOk result (λ step. DoesStep self.old.node event self.new.node step.packets.items
            step.answers.items) }
        ensures rest { OnOk result ((self.new.ticks ≡ self.old.ticks) × (self.new.refused ≡ self.old.refused)) }
        ensures err { OnErr result (self.new ≡ with_one_refused self.old) }
        ensures same { IsSameNode self.old.node self.new.node }
        ensures committed { IsLogPrefix (committed_entries self.old.node.saved)
            (committed_entries self.new.node.saved) }
    {
        match self.node.step(event) {
            Ok(step) => Ok(step),
            Err(refused) => {
                self.refuse();
                Err(refused)
            }
        }
    }

    // Whether the node suspects its primary at this tick.
    fn suspects(&self) -> bool
        ensures { result ≡ suspects self.now.node.id self.now.node.n self.now.node.saved self.now.ticks }
    {
        let leads = self.node.member().leads(self.node.saved());
        !leads && ticks_after_tick(false, self.ticks) == SUSPECT_TICKS
    }

    #[tactic(auto, using(crate::proofs::Items::tick_does, crate::proofs::ItemAnswers::tick_answers))]
    fn tick(&mut self) -> Result<Step, WantOfMemory>
        ensures did { IfOk result (λ step. DoesItem self.old items.Tick (first_steps step.packets.items) self.new) }
        ensures answers { IfOk result (λ step. Answers self.old items.Tick step.answers.items) }
        ensures err { OnErr result (self.new ≡ with_one_refused self.old) }
        ensures same { IsSameNode self.old.node self.new.node }
        ensures committed { IsLogPrefix (committed_entries self.old.node.saved)
            (committed_entries self.new.node.saved) }
    {
        let suspects = self.suspects();
        let step = self.step(tick_event(suspects))?;
        self.ticks = ticks_after_tick(suspects, self.ticks);
        Ok(step)
    }

    // A step of the node at a packet by the rules of the first epoch.
    #[tactic(auto, using(crate::proofs::Items::packet_does, crate::proofs::ItemAnswers::packet_answers))]
    fn step_packet(&mut self, sent: EpochPacket) -> Result<Step, WantOfMemory>
        requires { is_first_step sent ≡ true }
        ensures did { IfOk result (λ step. DoesItem self.old (items.Packet sent) (first_steps step.packets.items)
            self.new) }
        ensures answers { IfOk result (λ step. Answers self.old (items.Packet sent) step.answers.items) }
        ensures err { OnErr result (self.new ≡ with_one_refused self.old) }
        ensures same { IsSameNode self.old.node self.new.node }
        ensures committed { IsLogPrefix (committed_entries self.old.node.saved)
            (committed_entries self.new.node.saved) }
    {
        let EpochPacket {
            epoch: _,
            purpose: _,
            packet,
        } = sent;
        let from = packet.message().from();
        let step = self.step(Event::Packet(packet))?;
        let view = self.node.saved().view();
        self.ticks = ticks_after_packet(from, self.node.member(), view, self.ticks);
        Ok(step)
    }

    // Another packet is dropped.
    #[tactic(auto, using(crate::proofs::Items::dropped_does, crate::proofs::ItemAnswers::dropped_answers))]
    fn drop_packet(&self, alloc: Global, sent: EpochPacket) -> Step
        requires { is_first_step sent ≡ false }
        ensures did { DoesItem self.now (items.Packet sent) (first_steps result.packets.items) self.now }
        ensures answers { Answers self.now (items.Packet sent) result.answers.items }
    {
        drop(sent);
        idle_step(alloc)
    }

    #[tactic(auto, using(crate::proofs::Items::same_prefix))]
    fn packet(&mut self, alloc: Global, sent: EpochPacket) -> Result<Step, WantOfMemory>
        ensures did { IfOk result (λ step. DoesItem self.old (items.Packet sent) (first_steps step.packets.items)
            self.new) }
        ensures answers { IfOk result (λ step. Answers self.old (items.Packet sent) step.answers.items) }
        ensures err { OnErr result (self.new ≡ with_one_refused self.old) }
        ensures same { IsSameNode self.old.node self.new.node }
        ensures committed { IsLogPrefix (committed_entries self.old.node.saved)
            (committed_entries self.new.node.saved) }
    {
        if is_first_step(&sent) {
            self.step_packet(sent)
        } else {
            Ok(self.drop_packet(alloc, sent))
        }
    }

    // At a stop the node does nothing.
    #[tactic(auto, using(crate::proofs::Items::stop_does, crate::proofs::Items::same_prefix))]
    fn stop(&self, alloc: Global) -> Step
        ensures did { DoesItem self.now items.Stop (first_steps result.packets.items) self.now }
        ensures answers { Answers self.now items.Stop result.answers.items }
        ensures same { IsSameNode self.now.node self.now.node }
        ensures committed { IsLogPrefix (committed_entries self.now.node.saved)
            (committed_entries self.now.node.saved) }
    {
        idle_step(alloc)
    }

    /// Does the event of an item, whichever received packets say what the node held; its packets are those of the
    /// event, and what was committed stays committed. A packet of another epoch than the first, or one that is no step,
    /// is dropped: nothing is done, and nothing goes out. Where memory is refused the item is counted, and nothing else
    /// changes.
    #[tactic(auto, using(crate::proofs::Items::request_does, crate::proofs::ItemAnswers::request_answers))]
    pub fn act(&mut self, alloc: Global, item: Item) -> Result<Step, WantOfMemory>
        ensures did { IfOk result (λ step. DoesItem self.old item (first_steps step.packets.items) self.new) }
        ensures answers { IfOk result (λ step. Answers self.old item step.answers.items) }
        ensures err { OnErr result (self.new ≡ with_one_refused self.old) }
        ensures same { IsSameNode self.old.node self.new.node }
        ensures committed { IsLogPrefix (committed_entries self.old.node.saved)
            (committed_entries self.new.node.saved) }
    {
        match item {
            Item::Request { session: _, entry } => self.step(Event::Request(entry)),
            Item::Packet(sent) => self.packet(alloc, sent),
            Item::Tick => self.tick(),
            Item::Stop => Ok(self.stop(alloc)),
        }
    }
}
