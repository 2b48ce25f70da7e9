//! What a member sends and answers for what its node did.

ghost use Rattle.std.specs.Prelude.{◌≡◌, false, if◌then◌else◌, List, None, IfOk, OnErr};
ghost use Rattle.desk_types.specs.declared.command.Entry.{Entry as AnEntry};
ghost use Rattle.desk_epoch_node.specs.declared.step.EpochStep.TheVariants as steps;
ghost use Rattle.desk_epoch_node.specs.PastRows.{StandFor};
ghost use Rattle.desk_epoch_replica.specs.declared.replica_step.EpochAnswer.TheVariants as answers;
ghost use Rattle.desk_epoch_replica.specs.declared.replica_step.ReplicaStep.TheVariants as out;
ghost use Rattle.desk_epoch_replica.specs.Follows.{EpochFollows};
ghost use Rattle.desk_epoch_replica.specs.MemberValue.{member_refused_once};
ghost use Rattle.desk_epoch_replica.specs.Steps.{MemberDoes, after_sending, may_ask, reported_log, step_to_send};

use crate::epoch_member::EpochMember;
use crate::item::EpochItem;
use crate::limits::ASK_TICKS;
use crate::replica_step::{EpochAnswer, ReplicaStep};
use crate::ticking::may_tell;
use desk_epoch_node::EpochStep;
use desk_log::Log;
use desk_types::{ClientId, Packet, Refusal, RequestNumber, WantOfMemory};

/// The answer that a request is committed at a place of the history.
fn committed(client: ClientId, number: RequestNumber, place: u64) -> ReplicaStep
    ensures { result ≡ out.Answer (answers.Committed client number place) }
{
    ReplicaStep::Answer(EpochAnswer::Committed {
        client,
        number,
        place,
    })
}

/// The answer that a request is refused.
fn refused(client: ClientId, number: RequestNumber, refusal: Refusal) -> ReplicaStep
    ensures { result ≡ out.Answer (answers.Refused client number refusal) }
{
    ReplicaStep::Answer(EpochAnswer::Refused {
        client,
        number,
        refusal,
    })
}

impl EpochMember {
    /// Whether an ask may go out, and then does: the ticks are counted again.
    fn starts_ask(&mut self) -> bool
        ensures may { result ≡ may_ask self.old.ask_ticks }
        ensures new { self.new ≡ record {
          node = self.old.node;
          ticks = self.old.ticks;
          ask_ticks = if may_ask self.old.ask_ticks then 0 else self.old.ask_ticks;
          tell_ticks = self.old.tell_ticks;
          heard = self.old.heard;
          refused = self.old.refused;
        } }
    {
        if self.ask_ticks != ASK_TICKS {
            return false;
        }
        self.ask_ticks = 0;
        true
    }

    /// A packet that asks a node goes out, unless an ask went out shortly before.
    fn ask(&mut self, to: u8, packet: Packet) -> ReplicaStep
        ensures new { self.new ≡ after_sending self.old (steps.Ask to packet) }
        ensures step { result ≡ step_to_send self.old (steps.Ask to packet) }
    {
        if !self.starts_ask() {
            drop(packet);
            return ReplicaStep::Nothing;
        }
        ReplicaStep::Ask {
            epoch: self.node.epoch(),
            to,
            packet,
        }
    }

    /// Packets that ask all others go out, unless an ask went out shortly before.
    fn ask_all(&mut self, packets: Vec<(u8, Packet)>) -> ReplicaStep
        ensures new { self.new ≡ after_sending self.old (steps.AskAll packets) }
        ensures step { result ≡ step_to_send self.old (steps.AskAll packets) }
    {
        if !self.starts_ask() {
            drop(packets);
            return ReplicaStep::Nothing;
        }
        let epoch = self.node.epoch();
        ReplicaStep::AskAll { epoch, packets }
    }

    /// A node is to be told a log, unless it was told one shortly before.
    fn tell(&mut self, to: u8, epoch: u64, base: u64) -> ReplicaStep
        ensures new { self.new ≡ after_sending self.old (steps.Tell to epoch base) }
        ensures step { result ≡ step_to_send self.old (steps.Tell to epoch base) }
    {
        if !may_tell(&self.tell_ticks, to) {
            return ReplicaStep::Nothing;
        }
        self.tell_ticks[to as usize] = 0;
        ReplicaStep::Tell { to, epoch, base }
    }

    /// What is sent and answered for what the node did, and the log that it was told.
    fn send(&mut self, made: EpochStep) -> (ReplicaStep, Option<Log>)
        ensures new { self.new ≡ after_sending self.old made }
        ensures step { result.0 ≡ step_to_send self.old made }
        ensures log { result.1 ≡ reported_log made }
    {
        let epoch = self.node.epoch();
        match made {
            EpochStep::Nothing => (ReplicaStep::Nothing, None),
            EpochStep::Own(step) => {
                let base = self.node.past().len();
                (ReplicaStep::Own { epoch, base, step }, None)
            }
            EpochStep::Known {
                client,
                number,
                place,
            } => (committed(client, number, place), None),
            EpochStep::Refused {
                client,
                number,
                refusal,
            } => (refused(client, number, refusal), None),
            EpochStep::Deferred(entry) => (ReplicaStep::Answer(EpochAnswer::Deferred(entry)), None),
            EpochStep::Ask { to, packet } => (self.ask(to, packet), None),
            EpochStep::AskAll { packets } => (self.ask_all(packets), None),
            EpochStep::Tell { to, epoch, base } => (self.tell(to, epoch, base), None),
            EpochStep::Began { log, packets } => (ReplicaStep::Began { epoch, packets }, Some(log)),
            EpochStep::Replaced => (ReplicaStep::Replaced, None),
        }
    }

    /// Does an item, and gives what is sent and answered, and the log that the node was told. Where memory is refused
    /// the item is counted, and nothing else changes.
    pub(crate) fn act(
        &mut self,
        takes: bool,
        item: EpochItem,
    ) -> Result<(ReplicaStep, Option<Log>), WantOfMemory>
        ensures did { IfOk result (λ both. (past : List AnEntry) → StandFor past self.old.node.past →
            MemberDoes past takes self.old item self.new both.0 both.1) }
        ensures follows { IfOk result (λ both. EpochFollows both.1 self.old.node self.new.node) }
        ensures untaken { IfOk result (λ both. takes ≡ false → both.1 ≡ None) }
        ensures err { OnErr result (self.new ≡ member_refused_once self.old) }
    {
        match self.meet(takes, item) {
            Ok(made) => Ok(self.send(made)),
            Err(refused) => {
                self.refuse();
                Err(refused)
            }
        }
    }
}
