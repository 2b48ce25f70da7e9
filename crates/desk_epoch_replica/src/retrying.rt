//! How a request that was held is done again.

ghost use Rattle.std.specs.Prelude.{◌≡◌, ◌⊎◌, ◌<◌, ℕ, List, [], drop, length, MatchBool};
ghost use Rattle.desk_types.specs.declared.outcome.Outcome.{Outcome as AnOutcome};
ghost use Rattle.desk_types.specs.declared.packet.Message.{Message as AMessage};
ghost use Rattle.desk_epoch_replica.specs.Deferring.{HasAdded, IsPut, Retries, held_after};
ghost use Rattle.desk_epoch_replica.specs.Follows.{ReplicaFollows};

use crate::deferring_replica::DeferringReplica;
use crate::item::EpochItem;
use crate::outgoing::{is_deferred, own_answer, split_own};
use crate::replica_step::ReplicaStep;
use desk_epoch_stores::EpochStores;
use desk_node::Step;
use desk_replica::Answer;

/// Puts packets and answers after those of a step. False where memory is refused: no answers were put, and there may be
/// no packets.
fn put_after(step: &mut Step, more: Step) -> bool
    ensures { MatchBool result (HasAdded step.old more.packets.items more.answers.items step.new)
        (HasAdded step.old [] [] step.new ⊎ HasAdded step.old more.packets.items [] step.new) }
{
    let Step {
        mut packets,
        mut answers,
    } = more;
    step.packets.append(&mut packets).is_ok() && step.answers.append(&mut answers).is_ok()
}

impl<T: EpochStores> DeferringReplica<T> {
    /// The first request is held no more.
    fn let_go(&mut self)
        requires { 0 < length self.old.deferred.items }
        ensures deferred { self.new.deferred.items ≡ drop 1 self.old.deferred.items }
        ensures same { self.new.replica ≡ self.old.replica }
    {
        drop(self.deferred.remove(0));
    }

    /// The first request is held no more, unless it was deferred again.
    fn hold_on_where_deferred(&mut self, step: &ReplicaStep)
        requires { 0 < length self.old.deferred.items }
        ensures deferred { self.new.deferred.items ≡ held_after self.old.deferred.items step.now }
        ensures same { self.new.replica ≡ self.old.replica }
    {
        if is_deferred(step) {
            return;
        }
        self.let_go();
    }

    /// Puts what came of the first request that is held after what came before, and gives the replica's own answer. The
    /// request is held no more, unless it was deferred again, or memory is refused.
    fn put(&mut self, step: &mut Step, made: ReplicaStep) -> Option<Answer>
        requires { 0 < length self.old.deferred.items }
        ensures put { (packets : List (ℕ × AMessage)) × (outcomes : List AnOutcome)
            × IsPut made self.old.deferred.items packets outcomes result self.new.deferred.items
            × HasAdded step.old packets outcomes step.new }
        ensures same { self.new.replica ≡ self.old.replica }
    {
        match split_own(made) {
            Ok((_epoch, _base, more)) => {
                if put_after(step, more) {
                    self.let_go();
                }
                None
            }
            Err(other) => {
                self.hold_on_where_deferred(&other);
                own_answer(other)
            }
        }
    }

    /// Does the first request that is held again, and puts what comes of it after what came of a tick. It gives the
    /// replica's own answer.
    pub(crate) fn retry(&mut self, step: &mut Step) -> Option<Answer>
        ensures retried { (packets : List (ℕ × AMessage)) × (outcomes : List AnOutcome)
            × Retries self.old.replica self.old.deferred.items packets outcomes result self.new.replica
            self.new.deferred.items
            × HasAdded step.old packets outcomes step.new }
        ensures follows { ReplicaFollows self.old.replica self.new.replica }
    {
        let Some(first) = self.deferred.first() else {
            return None;
        };
        let Ok(entry) = first.copy() else {
            self.replica.count_refused();
            return None;
        };
        match self.replica.act(EpochItem::Request(entry)) {
            Ok(made) => self.put(step, made),
            Err(_) => None,
        }
    }
}
