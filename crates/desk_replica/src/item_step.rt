//! What comes of an item.

ghost use Rattle.std.specs.Prelude.{◌≡◌, ◌++◌, ◌∷◌, [], None, MatchOption};
ghost use Rattle.desk_replica.specs.Answers.{answers_with_own, session_answers};
ghost use Rattle.desk_replica.specs.EpochPackets.{first_steps, packets_of_step};

use crate::answer::Answer;
use desk_node::Step;
use desk_types::{Outcome, Packet, Purpose};
use std::marker::Model;

/// What an item answers, as the node gave it, so that no memory is taken for it: outcomes, whose places stand after so
/// many entries of past logs, and then an answer of the replica's own. A contract sees what the sessions that wait hear
/// of it.
pub struct StepAnswers {
    base: u64,
    outcomes: Vec<Outcome>,
    own: Option<Answer>,
}

// Written out, so that callers need not prove each part's drop.
impl Drop for StepAnswers {
    fn drop(self) {
        let StepAnswers {
            base: _,
            outcomes: _,
            own: _,
        } = self;
    }
}

impl Model for StepAnswers {
    ghost use Rattle.std.specs.Prelude.{List};
    ghost use Rattle.desk_replica.specs.declared.answer.Answer.{Answer};
    ghost use Rattle.desk_replica.specs.Answers.{answers_with_own};

    ghost Value = { List Answer };

    ghost view = { λ a. answers_with_own a.base a.outcomes.items a.own };
}

/// What comes of an item: the packets in the order of their sending, each with its receiver, all of one epoch and for
/// one purpose, and the answers.
#[derive(Drop)]
pub struct ItemStep {
    pub epoch: u64,
    pub purpose: Purpose,
    pub packets: Vec<(u8, Packet)>,
    pub answers: StepAnswers,
}

impl StepAnswers {
    /// Outcomes, whose places stand after so many entries of past logs, and then an answer of the replica's own.
    pub fn new(base: u64, outcomes: Vec<Outcome>, own: Option<Answer>) -> StepAnswers
        ensures { result ≡ answers_with_own base outcomes.items own }
    {
        StepAnswers {
            base,
            outcomes,
            own,
        }
    }

    /// What the sessions hear of, in this order: after how many entries the places of the outcomes stand, the outcomes,
    /// and the replica's own answer.
    pub fn parts(&self) -> (u64, &[Outcome], Option<&Answer>)
        ensures { MatchOption result.2 (self.now ≡ session_answers result.0 result.1.now)
            (λ own. self.now ≡ session_answers result.0 result.1.now ++ own.now ∷ []) }
    {
        (self.base, self.outcomes.as_slice(), self.own.as_ref())
    }
}

impl ItemStep {
    /// A step of a node, which is in the first epoch.
    pub fn of_node(step: Step) -> ItemStep
        ensures packets { packets_of_step result ≡ first_steps step.packets.items }
        ensures answers { result.answers ≡ session_answers 0 step.answers.items }
    {
        let Step { packets, answers } = step;
        ItemStep {
            epoch: 0,
            purpose: Purpose::Step,
            packets,
            answers: StepAnswers::new(0, answers, None),
        }
    }
}
