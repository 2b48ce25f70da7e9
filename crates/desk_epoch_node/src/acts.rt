//! How a node over epochs does what is asked of it.

ghost use Rattle.std.specs.Prelude.{◌≡◌, ◌≤◌, ◌++◌, List, length, take, true, IfOk, OnErr};
ghost use Rattle.desk_types.specs.declared.command.Entry.{Entry as AnEntry};
ghost use Rattle.desk_types.specs.declared.limits.TheConstants.{LAST_TOKEN, LOG_ENTRIES};
ghost use Rattle.desk_epoch_node.specs.Deeds.{deed};
ghost use Rattle.desk_epoch_node.specs.Does.{DoesDeed, IsAskAll, IsBegun, IsOwn, IsTaken, asking_packet};
ghost use Rattle.desk_epoch_node.specs.Does.{is_rest, said_token, whole_log};
ghost use Rattle.desk_epoch_node.specs.Ends.{is_whole};
ghost use Rattle.desk_epoch_node.specs.PastRows.{StandFor};

use crate::cut::{cut_at_commit, cut_with, first_cut};
use crate::deed::Deed;
use crate::epoch_node::EpochNode;
use crate::event::EpochEvent;
use crate::step::{Ended, EpochStep};
use desk_log::{Log, push_to_others};
use desk_node::Event;
use desk_types::limits::LAST_TOKEN;
use desk_types::{Entry, Items, Message, Packet, WantOfMemory};

/// Whether the first entries of a log, and these after them, are the whole log of an epoch.
#[tactic(auto, using(crate::proofs::Cuts::whole_of_cut, crate::proofs::Cuts::not_whole))]
fn is_whole(log: &Log, base: u64, entries: &[Entry], most: u64) -> bool
    requires base { base ≤ length log.now }
    requires least { 1 ≤ most }
    requires most { most ≤ LOG_ENTRIES }
    ensures { result ≡ is_whole most (take base log.now ++ entries.now) }
{
    let first = cut_with(first_cut(), &log.entries()[..base as usize], most);
    let cut = cut_with(first, entries, most);
    let count = entries.len() as u64;
    if !cut.ended {
        return false;
    }
    if count > most {
        return false;
    }
    cut.count == base + count
}

/// The token that a node says where it asks. It is 0 where no replacement can name its own.
fn said_token(token: u64) -> u64
    ensures value { result ≡ said_token token }
    ensures within { result ≤ LAST_TOKEN }
{
    if token <= LAST_TOKEN { token } else { 0 }
}

impl EpochNode {
    /// Its node of the epoch deals with an event.
    fn own(&mut self, event: Event) -> Result<EpochStep, WantOfMemory>
        ensures step { IfOk result (λ step. IsOwn self.old event self.new step) }
        ensures err { OnErr result (self.new ≡ self.old) }
    {
        let known = self.node.saved().commit();
        let step = self.node.step(event)?;
        self.cut = cut_at_commit(self.cut, known, self.node.saved(), self.most);
        Ok(EpochStep::Own(step))
    }

    /// The packet by which the node asks for what it lacks of its epoch.
    fn ask(&self) -> Packet
        ensures { result ≡ asking_packet self.now }
    {
        Packet::new(Message::GetState {
            from: self.node.id(),
            view: said_token(self.token),
            base: self.committed(),
        })
    }

    /// Asks all others for what the node lacks of its epoch.
    fn ask_all(&self) -> Result<EpochStep, WantOfMemory>
        ensures { IfOk result (λ step. IsAskAll self.now self.now step) }
    {
        let member = self.node.member();
        let mut packets = Vec::new(member.alloc);
        push_to_others(member, &mut packets, self.ask())?;
        Ok(EpochStep::AskAll { packets })
    }

    /// Whether entries are the rest of the epoch's log, after a place within what the node has committed.
    fn is_rest(&self, base: u64, entries: &[Entry]) -> bool
        ensures { result ≡ is_rest self.now base entries.now }
    {
        let log = self.node.saved().log();
        self.has_next()
            && base <= self.committed()
            && is_whole(log, base, entries, self.most)
            && self.node.saved().keeps_committed(base, entries)
    }

    /// Takes the rest of its epoch's log, and begins the next.
    #[tactic(auto, using(crate::proofs::Cuts::whole_least, crate::proofs::Cuts::whole_most))]
    fn begin_with_rest(
        &mut self,
        base: u64,
        entries: Items<Entry>,
    ) -> Result<EpochStep, WantOfMemory>
        requires rest { is_rest self.old base entries ≡ true }
        ensures begun { IfOk result (λ step. (past : List AnEntry) → StandFor past self.old.past →
            IsBegun past (whole_log self.old base entries) self.old self.new step) }
        ensures err { OnErr result (self.new ≡ self.old) }
    {
        let mut log = self.node.saved().log().copy()?;
        log.replace_after(base, entries.into_vec())?;
        let past = self.past.followed_by(log.entries())?;
        let Ended { node, packets } = self.begin(past)?;
        drop(node);
        Ok(EpochStep::Began { log, packets })
    }

    /// Takes entries after a place, where they are the rest of its epoch's log.
    fn take(&mut self, base: u64, entries: Items<Entry>) -> Result<EpochStep, WantOfMemory>
        ensures taken { IfOk result (λ step. (past : List AnEntry) → StandFor past self.old.past →
            IsTaken (is_rest self.old base entries) past (whole_log self.old base entries) self.old self.new step) }
        ensures err { OnErr result (self.new ≡ self.old) }
    {
        if self.is_rest(base, entries.as_slice()) {
            return self.begin_with_rest(base, entries);
        }
        drop(entries);
        Ok(EpochStep::Nothing)
    }

    /// Does what is asked of the node.
    fn act(&mut self, deed: Deed) -> Result<EpochStep, WantOfMemory>
        ensures done { IfOk result (λ step. (past : List AnEntry) → StandFor past self.old.past →
            DoesDeed past deed self.old self.new step) }
        ensures err { OnErr result (self.new ≡ self.old) }
    {
        match deed {
            Deed::Ignore => Ok(EpochStep::Nothing),
            Deed::Own(event) => self.own(event),
            Deed::Answer {
                client,
                number,
                place,
            } => Ok(EpochStep::Known {
                client,
                number,
                place,
            }),
            Deed::Refuse {
                client,
                number,
                refusal,
            } => Ok(EpochStep::Refused {
                client,
                number,
                refusal,
            }),
            Deed::Keep(entry) => Ok(EpochStep::Deferred(entry)),
            Deed::Ask { to } => Ok(EpochStep::Ask {
                to,
                packet: self.ask(),
            }),
            Deed::AskAll => self.ask_all(),
            Deed::Tell { to, epoch, base } => Ok(EpochStep::Tell { to, epoch, base }),
            Deed::Take { base, entries } => self.take(base, entries),
            Deed::Stop => Ok(EpochStep::Replaced),
        }
    }

    /// Does what is asked by what comes to the node. Where memory is refused nothing changes.
    pub fn step(&mut self, event: EpochEvent) -> Result<EpochStep, WantOfMemory>
        ensures step { IfOk result (λ step. (past : List AnEntry) → StandFor past self.old.past →
            DoesDeed past (deed past self.old event) self.old self.new step) }
        ensures err { OnErr result (self.new ≡ self.old) }
    {
        let deed = self.deed(event);
        self.act(deed)
    }
}
