//! What goes out for a step of a replica.

ghost use Rattle.std.specs.Prelude.{◌≡◌, [], true, false, Some, MatchResult, option_to_list};
ghost use Rattle.desk_replica.specs.Answers.{answers_with_own};
ghost use Rattle.desk_replica.specs.EpochPackets.{packets_of_step, packets_under};
ghost use Rattle.desk_types.specs.declared.epoch_packet.Purpose.TheVariants as purposes;
ghost use Rattle.desk_epoch_replica.specs.declared.replica_step.ReplicaStep.TheVariants as out;
ghost use Rattle.desk_epoch_replica.specs.declared.replica_step.EpochAnswer.TheVariants as answers;
ghost use Rattle.desk_epoch_replica.specs.Outgoing.{is_beginning, is_deferred, is_node_step, own_answer, step_packets};

use crate::replica_step::{EpochAnswer, ReplicaStep};
use desk_node::Step;
use desk_replica::{Answer, ItemStep, StepAnswers};
use desk_types::{Entry, Packet, Purpose};
use std::alloc::Global;

/// Packets of an epoch for a purpose, and no answers.
pub(crate) fn only_packets(
    alloc: Global,
    epoch: u64,
    purpose: Purpose,
    packets: Vec<(u8, Packet)>,
) -> ItemStep
    ensures packets { packets_of_step result ≡ packets_under epoch purpose packets.items }
    ensures answers { result.answers ≡ [] }
{
    ItemStep {
        epoch,
        purpose,
        packets,
        answers: StepAnswers::new(0, Vec::new(alloc), None),
    }
}

/// An answer of the replica's own, and no packets.
pub(crate) fn only_answer(alloc: Global, none: Vec<(u8, Packet)>, own: Option<Answer>) -> ItemStep
    requires { none.items ≡ [] }
    ensures packets { packets_of_step result ≡ [] }
    ensures answers { result.answers ≡ option_to_list own }
{
    ItemStep {
        epoch: 0,
        purpose: Purpose::Step,
        packets: none,
        answers: StepAnswers::new(0, Vec::new(alloc), own),
    }
}

/// The packets that go out first in an epoch.
pub(crate) fn first_packets(alloc: Global, step: ReplicaStep) -> ItemStep
    requires { is_beginning step ≡ true }
    ensures { packets_of_step result ≡ step_packets step }
{
    match step {
        ReplicaStep::Began { epoch, packets } => {
            only_packets(alloc, epoch, Purpose::Step, packets)
        }
        _ => unreachable!(),
    }
}

/// What the node of an epoch sends and answers, and an answer of the replica's own after it.
pub(crate) fn own_step(epoch: u64, base: u64, step: Step, own: Option<Answer>) -> ItemStep
    ensures packets { packets_of_step result ≡ packets_under epoch purposes.Step step.packets.items }
    ensures answers { result.answers ≡ answers_with_own base step.answers.items own }
{
    let Step { packets, answers } = step;
    ItemStep {
        epoch,
        purpose: Purpose::Step,
        packets,
        answers: StepAnswers::new(base, answers, own),
    }
}

/// The epoch, the base and the step of the node of the epoch, where it is one; else the step as it was.
pub(crate) fn split_own(step: ReplicaStep) -> Result<(u64, u64, Step), ReplicaStep>
    ensures { MatchResult result (λ own. step ≡ out.Own own.0 own.1 own.2)
        (λ other. (other ≡ step) × (is_node_step step ≡ false)) }
{
    match step {
        ReplicaStep::Own { epoch, base, step } => Ok((epoch, base, step)),
        other => Err(other),
    }
}

/// Whether it is a request that is to be asked again in the next epoch.
pub(crate) fn is_deferred(step: &ReplicaStep) -> bool
    ensures { result ≡ is_deferred step.now }
{
    matches!(step, ReplicaStep::Answer(EpochAnswer::Deferred(_)))
}

/// What becomes of a request that the node of the epoch did not meet; else the request, where it is deferred.
pub(crate) fn answer_or_deferred(answer: EpochAnswer) -> Result<Answer, Entry>
    ensures { MatchResult result (λ own. own_answer (out.Answer answer) ≡ Some own)
        (λ entry. answer ≡ answers.Deferred entry) }
{
    match answer {
        EpochAnswer::Committed {
            client,
            number,
            place,
        } => Ok(Answer::Committed {
            client,
            number,
            place,
        }),
        EpochAnswer::Refused {
            client,
            number,
            refusal,
        } => Ok(Answer::Refused {
            client,
            number,
            refusal,
        }),
        EpochAnswer::Deferred(entry) => Err(entry),
    }
}

/// What the replica answers of its own. Of a request that is deferred nothing is said.
pub(crate) fn own_answer(step: ReplicaStep) -> Option<Answer>
    ensures { result ≡ own_answer step }
{
    match step {
        ReplicaStep::Answer(answer) => match answer_or_deferred(answer) {
            Ok(own) => Some(own),
            Err(entry) => {
                drop(entry);
                None
            }
        },
        other => {
            drop(other);
            None
        }
    }
}
