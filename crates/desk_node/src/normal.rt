//! What a node does while its view does not change.

ghost use Rattle.std.specs.Prelude.{◌≡◌, ◌≢◌, ◌<◌, ◌≤◌, IfOk, OnErr};
ghost use Rattle.desk_log.specs.Change.{nothing};
ghost use Rattle.desk_normal.specs.Rules.{on_request, on_prepare, on_prepare_ok, on_commit};
ghost use Rattle.desk_node.specs.Heard.{heard_at};
ghost use Rattle.desk_node.specs.HeldStep.{DoesRule, MakesHeldStep};
ghost use Rattle.desk_node.specs.NodeValue.{IsSameNode};
ghost use Rattle.desk_node.specs.Planned.{IsCommitReady, commit_step};

use crate::node::Node;
use crate::step::Step;
use desk_log::Sending;
use desk_normal::{
    CommitPlan, ignores_acknowledgement, on_commit, on_prepare, on_prepare_ok, on_request,
};
use desk_types::limits::{LAST_VIEW, LOG_ENTRIES};
use desk_types::{Entry, WantOfMemory};

impl Node {
    /// A client's request. Where it is put last in the log nothing is answered, and where something is answered nothing
    /// changes; so what is answered can be refused memory after the rule.
    #[tactic(auto, using(crate::proofs::FollowedLogs::follows_none))]
    pub(crate) fn on_request(&mut self, entry: Entry) -> Result<Step, WantOfMemory>
        ensures step { IfOk result (λ step. DoesRule self.old
            (on_request self.old.id self.old.n self.old.saved entry)
            self.new step.packets.items step.answers.items) }
        ensures same { IsSameNode self.old self.new }
        ensures err { OnErr result (self.new ≡ self.old) }
        ensures some { OnErr result (on_request self.old.id self.old.n self.old.saved entry ≢ nothing self.old.saved) }
    {
        let Sending { packets, answers } = on_request(self.member(), &mut self.saved, entry)?;
        let commit = self.saved.commit();
        let outcomes = self
            .answer_board
            .outcomes(self.saved.log(), commit, answers)?;
        Ok(Step {
            packets,
            answers: outcomes,
        })
    }

    #[tactic(auto, using(crate::proofs::Silent::silent_rules, crate::proofs::FollowedChanges::follows_rules))]
    pub(crate) fn on_prepare(
        &mut self,
        from: u8,
        view: u64,
        place: u64,
        commit: u64,
        entry: Entry,
    ) -> Result<Step, WantOfMemory>
        requires view { view ≤ LAST_VIEW }
        requires place { place ≤ LOG_ENTRIES }
        ensures step { IfOk result (λ step. DoesRule self.old
            (on_prepare self.old.id self.old.n self.old.saved from view place commit entry)
            self.new step.packets.items step.answers.items) }
        ensures same { IsSameNode self.old self.new }
        ensures err { OnErr result (self.new ≡ self.old) }
        ensures some { OnErr result
            (on_prepare self.old.id self.old.n self.old.saved from view place commit entry ≢ nothing self.old.saved) }
    {
        let before = self.view();
        let member = self.member();
        let sending = on_prepare(member, &mut self.saved, from, view, place, commit, entry)?;
        Ok(self.unanswered(before, sending))
    }

    #[tactic(auto, using(crate::proofs::Silent::silent_rules, crate::proofs::FollowedChanges::follows_rules))]
    pub(crate) fn on_commit(
        &mut self,
        from: u8,
        view: u64,
        commit: u64,
    ) -> Result<Step, WantOfMemory>
        requires view { view ≤ LAST_VIEW }
        ensures step { IfOk result (λ step. DoesRule self.old
            (on_commit self.old.id self.old.n self.old.saved from view commit)
            self.new step.packets.items step.answers.items) }
        ensures same { IsSameNode self.old self.new }
        ensures err { OnErr result (self.new ≡ self.old) }
        ensures some { OnErr result
            (on_commit self.old.id self.old.n self.old.saved from view commit ≢ nothing self.old.saved) }
    {
        let before = self.view();
        let member = self.member();
        let sending = on_commit(member, &mut self.saved, from, view, commit)?;
        Ok(self.unanswered(before, sending))
    }

    pub(crate) fn on_prepare_ok(
        &mut self,
        from: u8,
        view: u64,
        place: u64,
    ) -> Result<Step, WantOfMemory>
        requires from { from < self.old.n }
        ensures step { IfOk result (λ step. DoesRule self.old
            (on_prepare_ok self.old.id self.old.n self.old.saved
            (heard_at self.old.n self.old.saved.view view self.old.heard).places from view place)
            self.new step.packets.items step.answers.items) }
        ensures same { IsSameNode self.old self.new }
        ensures err { OnErr result (self.new ≡ self.old) }
        ensures some { OnErr result
            (on_prepare_ok self.old.id self.old.n self.old.saved
            (heard_at self.old.n self.old.saved.view view self.old.heard).places from view place
            ≢ nothing self.old.saved) }
    {
        let member = self.member();
        if ignores_acknowledgement(member, &self.saved, from, view) {
            return Ok(Step::nothing(self.alloc));
        }
        let plan = on_prepare_ok(member, &self.saved, self.heard.places(), from, view, place)?;
        let step = self.commit_by(from, place, plan)?;
        Ok(step)
    }

    /// Does what a primary plans with an acknowledgement of a place. All that can be refused memory comes before the
    /// commit. Where it is refused, the board that is ahead of the commit is dropped.
    #[tactic(auto, using(crate::proofs::FollowedLogs::follows_none, crate::proofs::HeldRows::rows_acknowledged))]
    fn commit_by(&mut self, from: u8, place: u64, plan: CommitPlan) -> Result<Step, WantOfMemory>
        requires from { from < self.old.n }
        requires ready { IsCommitReady self.old.saved plan }
        ensures step { IfOk result (λ step. MakesHeldStep (commit_step self.old from place plan)
            self.new step.packets.items step.answers.items) }
        ensures same { IsSameNode self.old self.new }
        ensures err { OnErr result (self.new ≡ self.old) }
    {
        let CommitPlan {
            commit,
            acknowledged,
            sending,
        } = plan;
        let Sending { packets, answers } = sending;
        let outcomes = self
            .answer_board
            .outcomes(self.saved.log(), commit, answers)?;
        match self.heard.acknowledge(acknowledged, from, place) {
            Ok(()) => {
                self.saved.set_commit(commit);
                Ok(Step {
                    packets,
                    answers: outcomes,
                })
            }
            Err(refused) => {
                self.answer_board.forget();
                Err(refused)
            }
        }
    }
}
