//! What a node answers to clients.

ghost use Rattle.std.specs.Prelude.{◌≡◌, ◌≢◌, ◌≤◌, ◌∷◌, [], length, take, None, IfOk, OnErr};
ghost use Rattle.desk_types.specs.declared.outcome.Outcome.TheVariants as outcomes;
ghost use Rattle.desk_log.specs.declared.answers.Answers.TheVariants.{Nothing};
ghost use Rattle.desk_node.specs.Answers.{IsAnswerable, IsCommittedLatest, answer_at, outcomes_of};
ghost use Rattle.desk_node.specs.PrefixBoard.{FollowsLog};

use crate::answer_board::AnswerBoard;
use desk_log::{Answers, Log};
use desk_types::{ClientId, Outcome, Refusal, RequestNumber, WantOfMemory};
use std::alloc::Global;

/// The one answer by which a request is refused.
fn refused(
    alloc: Global,
    client: ClientId,
    number: RequestNumber,
    refusal: Refusal,
) -> Result<Vec<Outcome>, WantOfMemory>
    ensures { IfOk result (λ answers. answers.items ≡ outcomes.Node client number refusal ∷ []) }
{
    let mut answers = Vec::new(alloc);
    answers.push(Outcome::Node {
        client,
        number,
        refusal,
    })?;
    Ok(answers)
}

impl AnswerBoard {
    /// The reply to the entry at a place again.
    #[tactic(auto, using(crate::proofs::FollowedLogs::repeated, crate::proofs::FollowedLogs::latest_most))]
    fn repeat(&mut self, log: &Log, commit: u64, place: u64) -> Result<Vec<Outcome>, WantOfMemory>
        requires follows { FollowsLog self.old.domain self.old.board (take commit log.now) }
        requires within { commit ≤ length log.now }
        requires latest { IsCommittedLatest log.now commit place }
        ensures answers { IfOk result (λ answers. answers.items ≡ answer_at self.old.domain log.now place) }
        ensures follows { IfOk result (λ _. FollowsLog self.old.domain self.new.board (take commit log.now)) }
        ensures domain { self.new.domain ≡ self.old.domain }
    {
        let client = log.at(place).client;
        let answers = self.reply_again(log, commit, client)?;
        Ok(answers)
    }

    /// What a rule answers, as the next function gives it, whatever becomes of the board where memory is refused.
    fn try_outcomes(
        &mut self,
        log: &Log,
        commit: u64,
        answers: Answers,
    ) -> Result<Vec<Outcome>, WantOfMemory>
        requires follows { FollowsLog self.old.domain self.old.board (take commit log.now) }
        requires within { commit ≤ length log.now }
        requires answerable { IsAnswerable log.now commit answers }
        ensures answers { IfOk result (λ outcomes. outcomes.items ≡ outcomes_of self.old.domain log.now answers) }
        ensures follows { IfOk result (λ _. FollowsLog self.old.domain self.new.board (take commit log.now)) }
        ensures domain { self.new.domain ≡ self.old.domain }
        ensures some { OnErr result (answers ≢ Nothing) }
    {
        match answers {
            Answers::Nothing => Ok(Vec::new(self.alloc)),
            Answers::Replies { after, upto } => self.replies(log, after, upto),
            Answers::Repeat { place } => self.repeat(log, commit, place),
            Answers::Refusal {
                client,
                number,
                refusal,
            } => refused(self.alloc, client, number, refusal),
        }
    }

    /// What a rule answers to clients, where so many entries of the log are committed. The board follows them then, and
    /// where memory is refused it is dropped. Where nothing is answered it takes no memory.
    pub(crate) fn outcomes(
        &mut self,
        log: &Log,
        commit: u64,
        answers: Answers,
    ) -> Result<Vec<Outcome>, WantOfMemory>
        requires follows { FollowsLog self.old.domain self.old.board (take commit log.now) }
        requires within { commit ≤ length log.now }
        requires answerable { IsAnswerable log.now commit answers }
        ensures answers { IfOk result (λ outcomes. outcomes.items ≡ outcomes_of self.old.domain log.now answers) }
        ensures follows { IfOk result (λ _. FollowsLog self.old.domain self.new.board (take commit log.now)) }
        ensures domain { self.new.domain ≡ self.old.domain }
        ensures some { OnErr result (answers ≢ Nothing) }
        ensures none { OnErr result (self.new.board ≡ None) }
    {
        match self.try_outcomes(log, commit, answers) {
            Ok(outcomes) => Ok(outcomes),
            Err(refused) => {
                self.forget();
                Err(refused)
            }
        }
    }
}
