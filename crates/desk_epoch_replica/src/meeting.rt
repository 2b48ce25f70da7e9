//! What items make of a member's node.

ghost use Rattle.std.specs.Prelude.{◌≡◌, if◌then◌else◌, false, List, None, IfOk, OnErr};
ghost use Rattle.desk_types.specs.declared.command.Entry.{Entry as AnEntry};
ghost use Rattle.desk_types.specs.EpochPackets.{goes_by_rules};
ghost use Rattle.desk_types.specs.declared.refusal.Refusal.TheVariants as refusals;
ghost use Rattle.desk_epoch_node.specs.declared.step.EpochStep.TheVariants as steps;
ghost use Rattle.desk_epoch_node.specs.PastRows.{StandFor};
ghost use Rattle.desk_epoch_node.specs.Deeds.{deed};
ghost use Rattle.desk_epoch_node.specs.Does.{DoesDeed};
ghost use Rattle.desk_epoch_replica.specs.declared.item.EpochItem.TheVariants as items;
ghost use Rattle.desk_epoch_replica.specs.Follows.{EpochFollows};
ghost use Rattle.desk_epoch_replica.specs.Items.{MemberMeets, begins_epoch, hears_primary, is_tell};
ghost use Rattle.desk_epoch_replica.specs.Items.{hears_new, is_token_named, refuses_replacement};
ghost use Rattle.desk_epoch_replica.specs.Steps.{reported_log};

use crate::epoch_member::EpochMember;
use crate::heard::{age_rows, asker, hears, note_asker};
use crate::item::EpochItem;
use crate::limits::ASK_TICKS;
use crate::ticking::{one_more, tick_event, tick_rows};
use desk_epoch_node::{EpochEvent, EpochStep, Replacement, named_by};
use desk_types::limits::SUSPECT_TICKS;
use desk_types::{Entry, EpochPacket, Purpose, Refusal, WantOfMemory};

/// Whether a packet follows the rules of its epoch.
fn is_step(purpose: Purpose) -> bool
    ensures { result ≡ goes_by_rules purpose }
{
    match purpose {
        Purpose::Step => true,
        Purpose::Ask | Purpose::Tell => false,
    }
}

/// Whether a packet tells a log.
fn is_tell(purpose: Purpose) -> bool
    ensures { result ≡ is_tell purpose }
{
    match purpose {
        Purpose::Tell => true,
        Purpose::Step | Purpose::Ask => false,
    }
}

/// Whether the node began an epoch.
fn begins_epoch(made: &EpochStep) -> bool
    ensures { result ≡ begins_epoch made.now }
{
    match made {
        EpochStep::Began { .. } => true,
        _ => false,
    }
}

/// Whether one of these replacements names the token, for any number.
fn is_token_named(replacements: &[Replacement], token: u64) -> bool
    ensures { result ≡ is_token_named token replacements.now }
{
    replacements
        .iter()
        .any(|replacement| replacement.token == token)
}

/// The refusal of a request that names a node which was not heard.
fn refuse_unheard(entry: Entry) -> EpochStep
    ensures { result ≡ steps.Refused entry.client entry.number refusals.MemberUnheard }
{
    let (client, number) = (entry.client, entry.number);
    drop(entry);
    EpochStep::Refused {
        client,
        number,
        refusal: Refusal::MemberUnheard,
    }
}

impl EpochMember {
    /// The node deals with an event. Where memory is refused nothing changes.
    fn step(&mut self, event: EpochEvent) -> Result<EpochStep, WantOfMemory>
        ensures does { IfOk result (λ made. (past : List AnEntry) → StandFor past self.old.node.past →
            DoesDeed past (deed past self.old.node event) self.old.node self.new.node made) }
        ensures follows { IfOk result (λ made. EpochFollows (reported_log made) self.old.node self.new.node) }
        ensures rest { IfOk result (λ made. self.new ≡ record {
          node = self.new.node;
          ticks = self.old.ticks;
          ask_ticks = self.old.ask_ticks;
          tell_ticks = self.old.tell_ticks;
          heard = self.old.heard;
          refused = self.old.refused;
        }) }
        ensures err { OnErr result (self.new ≡ self.old) }
    {
        self.node.step(event)
    }

    /// Whether a packet with this epoch and purpose is by the rules of the node's epoch, from the primary of its view.
    fn hears_primary(&self, purpose: Purpose, epoch: u64, from: u8) -> bool
        ensures { result ≡ hears_primary self.now.node purpose epoch from }
    {
        let node = self.node.node();
        is_step(purpose)
            && epoch == self.node.epoch()
            && from == node.member().primary(node.saved().view())
    }

    /// The ticks are counted again where an epoch began, or the primary was heard.
    fn count_again(&mut self, again: bool)
        ensures { self.new ≡ record {
          node = self.old.node;
          ticks = if again then 0 else self.old.ticks;
          ask_ticks = self.old.ask_ticks;
          tell_ticks = self.old.tell_ticks;
          heard = self.old.heard;
          refused = self.old.refused;
        } }
    {
        if again {
            self.ticks = 0;
        }
    }

    /// Whether the node that is named was heard, and past logs did not name its token before: a node that was replaced
    /// never acts again, though it may have been heard a moment ago.
    fn hears_new(&self, named: &Replacement) -> bool
        ensures { result ≡ hears_new self.now named.now }
    {
        hears(&self.heard, named.node, named.token)
            && !is_token_named(self.node.past().replacements(), named.token)
    }

    /// Whether a request for a replacement is refused: the node would put it last, and has not heard who is named, or
    /// past logs named that token before.
    fn refuses_replacement(&self, entry: &Entry) -> bool
        ensures { (past : List AnEntry) → StandFor past self.now.node.past →
            result ≡ refuses_replacement past self.now entry.now }
    {
        match named_by(entry) {
            Some(named) => !self.hears_new(&named) && self.node.appends(entry),
            None => false,
        }
    }

    fn request(&mut self, entry: Entry) -> Result<EpochStep, WantOfMemory>
        ensures met { IfOk result (λ made. (takes : _) → (past : List AnEntry) → StandFor past self.old.node.past →
            MemberMeets past takes self.old (items.Request entry) made self.new) }
        ensures follows { IfOk result (λ made. EpochFollows (reported_log made) self.old.node self.new.node) }
        ensures err { OnErr result (self.new ≡ self.old) }
    {
        if self.refuses_replacement(&entry) {
            return Ok(refuse_unheard(entry));
        }
        self.step(EpochEvent::Request(entry))
    }

    fn packet(&mut self, takes: bool, packet: EpochPacket) -> Result<EpochStep, WantOfMemory>
        ensures met { IfOk result (λ made. (past : List AnEntry) → StandFor past self.old.node.past →
            MemberMeets past takes self.old (items.Packet packet) made self.new) }
        ensures follows { IfOk result (λ made. EpochFollows (reported_log made) self.old.node self.new.node) }
        ensures err { OnErr result (self.new ≡ self.old) }
    {
        let (epoch, purpose) = (packet.epoch, packet.purpose);
        let from = packet.packet.message().from();
        if !takes && is_tell(purpose) {
            drop(packet);
            return Ok(EpochStep::Nothing);
        }
        let asked = asker(&packet);
        let made = self.step(EpochEvent::Packet(packet))?;
        note_asker(&mut self.heard, asked);
        let again = begins_epoch(&made) || self.hears_primary(purpose, epoch, from);
        self.count_again(again);
        Ok(made)
    }

    fn tick(&mut self) -> Result<EpochStep, WantOfMemory>
        ensures met { IfOk result (λ made. (takes : _) → (past : List AnEntry) → StandFor past self.old.node.past →
            MemberMeets past takes self.old items.Tick made self.new) }
        ensures follows { IfOk result (λ made. EpochFollows (reported_log made) self.old.node self.new.node) }
        ensures err { OnErr result (self.new ≡ self.old) }
    {
        let suspects = self.suspects();
        let made = self.step(tick_event(suspects))?;
        self.ticks = if suspects {
            0
        } else {
            one_more(SUSPECT_TICKS, self.ticks)
        };
        self.ask_ticks = one_more(ASK_TICKS, self.ask_ticks);
        tick_rows(&mut self.tell_ticks);
        age_rows(&mut self.heard);
        Ok(made)
    }

    /// The node does what an item asks of it. Where memory is refused nothing changes.
    pub(crate) fn meet(&mut self, takes: bool, item: EpochItem) -> Result<EpochStep, WantOfMemory>
        ensures met { IfOk result (λ made. (past : List AnEntry) → StandFor past self.old.node.past →
            MemberMeets past takes self.old item made self.new) }
        ensures follows { IfOk result (λ made. EpochFollows (reported_log made) self.old.node self.new.node) }
        ensures untaken { IfOk result (λ made. takes ≡ false → reported_log made ≡ None) }
        ensures err { OnErr result (self.new ≡ self.old) }
    {
        // What it holds of past logs is of some logs.
        let _ = &self.node;
        match item {
            EpochItem::Request(entry) => self.request(entry),
            EpochItem::Packet(packet) => self.packet(takes, packet),
            EpochItem::Tick => self.tick(),
        }
    }
}
