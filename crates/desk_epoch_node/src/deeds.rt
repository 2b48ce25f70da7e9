//! What comes to a node over epochs, and what it asks of the node.

ghost use Rattle.std.specs.Prelude.{◌≡◌, List};
ghost use Rattle.desk_types.specs.declared.command.Entry.{Entry as AnEntry};
ghost use Rattle.desk_epoch_node.specs.declared.deed.Deed.TheVariants.{Answer, Refuse};
ghost use Rattle.desk_epoch_node.specs.Deeds.{acting_deed, appends, asks_later, asks_other, awaiting_deed};
ghost use Rattle.desk_epoch_node.specs.Deeds.{awaiting_packet, deed, deed_by, deed_here, is_append, is_other};
ghost use Rattle.desk_epoch_node.specs.Deeds.{looks_back};
ghost use Rattle.desk_epoch_node.specs.Deeds.{packet_deed, replaced_deed, request_deed, taking, telling};
ghost use Rattle.desk_epoch_node.specs.Ends.{reaches_end};
ghost use Rattle.desk_epoch_node.specs.EpochValue.{is_acting};
ghost use Rattle.desk_epoch_node.specs.PastRows.{StandFor};

use crate::cut::cut_with;
use crate::deed::Deed;
use crate::epoch_node::EpochNode;
use crate::event::EpochEvent;
use crate::standing::Standing;
use desk_log::Admission;
use desk_node::Event;
use desk_types::{Entry, EpochPacket, Message, Packet, Purpose, Refusal};

/// The answer that a request stands at a place of past logs.
fn answer(entry: Entry, place: u64) -> Deed
    ensures { result ≡ Answer entry.client entry.number place }
{
    let (client, number) = (entry.client, entry.number);
    drop(entry);
    Deed::Answer {
        client,
        number,
        place,
    }
}

/// The refusal of a request.
fn refuse(entry: Entry, refusal: Refusal) -> Deed
    ensures { result ≡ Refuse entry.client entry.number refusal }
{
    let (client, number) = (entry.client, entry.number);
    drop(entry);
    Deed::Refuse {
        client,
        number,
        refusal,
    }
}

/// Entries of the epoch's log are taken.
fn taking(message: Message) -> Deed
    ensures { result ≡ taking message }
{
    match message {
        Message::NewState { base, entries, .. } => Deed::Take { base, entries },
        other => {
            drop(other);
            Deed::Ignore
        }
    }
}

/// Whether a request is put last as a new one.
fn is_append(admission: Admission) -> bool
    ensures { result ≡ is_append admission }
{
    matches!(admission, Admission::Append)
}

/// Whether a node with this standing acts.
fn is_acting(standing: Standing) -> bool
    ensures { result ≡ is_acting standing }
{
    matches!(standing, Standing::Acts)
}

/// What is asked of a node that was replaced.
fn replaced_deed(event: EpochEvent) -> Deed
    ensures { result ≡ replaced_deed event }
{
    match event {
        EpochEvent::Request(request) => refuse(request, Refusal::NodeStopped),
        other => {
            drop(other);
            Deed::Stop
        }
    }
}

impl EpochNode {
    /// Whether the epoch's log reaches the epoch's end, committed or not. The time is linear in the entries that are
    /// not committed.
    fn is_log_full(&self) -> bool
        ensures { result ≡ reaches_end self.now.most self.now.node.saved.log }
    {
        let saved = self.node.saved();
        // What is committed stands in the log.
        prove!(saved.commit() <= saved.log().len());
        let rest = &saved.log().entries()[saved.commit() as usize..];
        cut_with(self.cut, rest, self.most).ended
    }

    /// A request that past logs do not answer.
    fn deed_here(&self, entry: Entry) -> Deed
        ensures { result ≡ deed_here self.now entry }
    {
        if !self.is_log_full() {
            return Deed::Own(Event::Request(entry));
        }
        if self.has_next() {
            return Deed::Keep(entry);
        }
        refuse(entry, Refusal::BookFull)
    }

    /// A request, by what the one log of all epochs makes of it.
    fn deed_by(&self, entry: Entry, admission: Admission) -> Deed
        ensures { result ≡ deed_by self.now entry admission }
    {
        match admission {
            Admission::Retry { place } => answer(entry, place),
            Admission::Stale { latest } => {
                let latest = latest.get();
                refuse(entry, Refusal::Stale { latest })
            }
            Admission::Append | Admission::Full => self.deed_here(entry),
        }
    }

    /// Whether a request is looked up in past logs.
    fn looks_back(&self, entry: &Entry) -> bool
        ensures { result ≡ looks_back self.now entry.now }
    {
        let saved = self.node.saved();
        self.node.member().leads(saved) && saved.log().latest(entry.client).is_none()
    }

    fn request_deed(&self, entry: Entry) -> Deed
        ensures { (past : List AnEntry) → StandFor past self.now.past → result ≡ request_deed past self.now entry }
    {
        if !self.looks_back(&entry) {
            return self.deed_here(entry);
        }
        let log = self.node.saved().log();
        let admission = self.past.admission(log, entry.client, entry.number);
        self.deed_by(entry, admission)
    }

    /// Whether the node puts a request last as a new one: it acts, it leads its view, its log has not reached the
    /// epoch's end, and no log has the request or a later one of its client. The time is linear in the entries that are
    /// not committed.
    pub fn appends(&self, entry: &Entry) -> bool
        ensures { (past : List AnEntry) → StandFor past self.now.past → result ≡ appends past self.now entry.now }
    {
        let saved = self.node.saved();
        is_acting(self.standing)
            && self.node.member().leads(saved)
            && !self.is_log_full()
            && is_append(self.past.admission(saved.log(), entry.client, entry.number))
    }

    /// Whether it is another node of the group.
    fn is_other(&self, from: u8) -> bool
        ensures { result ≡ is_other self.now from }
    {
        let member = self.node.member();
        from < member.n && from != member.id
    }

    fn asks_other(&self, from: u8) -> Deed
        ensures { result ≡ asks_other self.now from }
    {
        if self.is_other(from) {
            Deed::Ask { to: from }
        } else {
            Deed::Ignore
        }
    }

    fn telling(&self, epoch: u64, message: &Message) -> Deed
        ensures { result ≡ telling self.now epoch message.now }
    {
        match message {
            Message::GetState { from, base, .. } => {
                if self.is_other(*from) {
                    Deed::Tell {
                        to: *from,
                        epoch,
                        base: *base,
                    }
                } else {
                    Deed::Ignore
                }
            }
            _ => Deed::Ignore,
        }
    }

    fn packet_deed(&self, purpose: Purpose, epoch: u64, packet: Packet) -> Deed
        ensures { result ≡ packet_deed self.now purpose epoch packet }
    {
        match purpose {
            Purpose::Step => {
                if epoch == self.epoch {
                    return Deed::Own(Event::Packet(packet));
                }
                self.asks_other(packet.message().from())
            }
            Purpose::Ask => {
                if epoch < self.epoch {
                    return self.telling(epoch, packet.message());
                }
                if epoch == self.epoch {
                    return Deed::Ignore;
                }
                self.asks_other(packet.message().from())
            }
            Purpose::Tell => {
                if epoch == self.epoch {
                    return taking(packet.into_message());
                }
                Deed::Ignore
            }
        }
    }

    /// What is asked of a node that acts.
    fn acting_deed(&self, event: EpochEvent) -> Deed
        ensures { (past : List AnEntry) → StandFor past self.now.past → result ≡ acting_deed past self.now event }
    {
        match event {
            EpochEvent::Request(entry) => self.request_deed(entry),
            EpochEvent::Packet(
                EpochPacket {
                    epoch,
                    purpose,
                    packet,
                },
            ) => self.packet_deed(purpose, epoch, packet),
            EpochEvent::Resend => Deed::Own(Event::Resend),
            EpochEvent::Suspect => Deed::Own(Event::Suspect),
            EpochEvent::Restart => Deed::Own(Event::Restart),
        }
    }

    /// What a packet of a later epoch asks of a node that does not act.
    fn asks_later(&self, epoch: u64, packet: &Packet) -> Deed
        ensures { result ≡ asks_later self.now epoch packet.now }
    {
        if self.epoch < epoch {
            return self.asks_other(packet.message().from());
        }
        Deed::Ignore
    }

    fn awaiting_packet(&self, purpose: Purpose, epoch: u64, packet: Packet) -> Deed
        ensures { result ≡ awaiting_packet self.now purpose epoch packet }
    {
        match purpose {
            Purpose::Step | Purpose::Ask => self.asks_later(epoch, &packet),
            Purpose::Tell => {
                if epoch == self.epoch {
                    return taking(packet.into_message());
                }
                Deed::Ignore
            }
        }
    }

    /// What is asked of a node whose token is not yet named.
    fn awaiting_deed(&self, event: EpochEvent) -> Deed
        ensures { result ≡ awaiting_deed self.now event }
    {
        match event {
            EpochEvent::Request(entry) => refuse(entry, Refusal::NodeStopped),
            EpochEvent::Packet(
                EpochPacket {
                    epoch,
                    purpose,
                    packet,
                },
            ) => self.awaiting_packet(purpose, epoch, packet),
            EpochEvent::Resend => Deed::AskAll,
            EpochEvent::Suspect | EpochEvent::Restart => Deed::Ignore,
        }
    }

    /// What is asked of the node by what comes to it.
    pub(crate) fn deed(&self, event: EpochEvent) -> Deed
        ensures { (past : List AnEntry) → StandFor past self.now.past → result ≡ deed past self.now event }
    {
        match self.standing {
            Standing::Acts => self.acting_deed(event),
            Standing::Awaits => self.awaiting_deed(event),
            Standing::Replaced => replaced_deed(event),
        }
    }
}
