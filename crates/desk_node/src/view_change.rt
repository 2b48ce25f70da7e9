//! What a node does while its view changes.

ghost use Rattle.std.specs.Prelude.{◌≡◌, ◌≢◌, ◌<◌, ◌≤◌, length, None, IfOk, OnErr};
ghost use Rattle.desk_log.specs.Change.{nothing};
ghost use Rattle.desk_log.specs.SavedValue.{committed_entries, in_view};
ghost use Rattle.desk_view_change.specs.Heard.{no_view_change};
ghost use Rattle.desk_view_change.specs.Plan.{IsStart, saved_with_start};
ghost use Rattle.desk_view_change.specs.Rules.{on_start_view_change, on_do_view_change, on_start_view, on_suspect};
ghost use Rattle.desk_node.specs.Answers.{IsAnswerable, outcomes_of};
ghost use Rattle.desk_node.specs.Heard.{heard_at};
ghost use Rattle.desk_node.specs.HeldStep.{DoesRule, MakesHeldStep};
ghost use Rattle.desk_node.specs.NodeValue.{IsSameNode};
ghost use Rattle.desk_node.specs.Planned.{IsViewReady, view_change_step};
ghost use Rattle.desk_node.specs.PrefixBoard.{FollowsLog};

use crate::answer_board::AnswerBoard;
use crate::node::Node;
use crate::step::Step;
use desk_log::{Answers, Log, Saved, Sending};
use desk_types::limits::{LAST_VIEW, LOG_ENTRIES};
use desk_types::{Entry, Items, Outcome, WantOfMemory};
use desk_view_change::{
    Offer, Start, ViewChangePlan, ViewChangeRows, ignores_offer, ignores_view_request,
    on_do_view_change, on_start_view, on_start_view_change, on_suspect,
};

/// Goes to a view, and starts it with a log where there is one.
fn go_to_view(saved: &mut Saved, view: u64, start: Option<Start>)
    requires least { saved.old.view ≤ view }
    requires most { view ≤ LAST_VIEW }
    requires start { IsStart saved.old start }
    ensures { saved.new ≡ saved_with_start (in_view view saved.old) start }
{
    match start {
        None => saved.set_view(view),
        Some(Start { log, commit }) => saved.install(view, log, commit),
    }
}

/// What is answered to clients by a node that starts its view, where it does.
fn start_outcomes(
    board: &mut AnswerBoard,
    saved: &Saved,
    start: &Option<Start>,
    answers: Answers,
) -> Result<Vec<Outcome>, WantOfMemory>
    requires follows { FollowsLog board.old.domain board.old.board
        (committed_entries (saved_with_start saved.now start.now)) }
    requires start { IsStart saved.now start.now }
    requires answerable { IsAnswerable
        (saved_with_start saved.now start.now).log (saved_with_start saved.now start.now).commit answers }
    ensures answers { IfOk result (λ outcomes. outcomes.items
        ≡ outcomes_of board.old.domain (saved_with_start saved.now start.now).log answers) }
    ensures follows { IfOk result (λ _. FollowsLog board.old.domain board.new.board
        (committed_entries (saved_with_start saved.now start.now))) }
    ensures domain { board.new.domain ≡ board.old.domain }
    ensures none { OnErr result (board.new.board ≡ None) }
{
    match start {
        None => board.outcomes(saved.log(), saved.commit(), answers),
        Some(start) => board.outcomes(&start.log, start.commit, answers),
    }
}

impl Node {
    /// What the node heard of a view: nothing, where the view is past its own.
    fn heard_of<'a>(&'a self, nothing: &'a ViewChangeRows, view: u64) -> &'a ViewChangeRows
        requires { nothing.now ≡ no_view_change self.now.n }
        ensures { result.now ≡ (heard_at self.now.n self.now.saved.view view self.now.heard).view_change }
    {
        if self.saved.view() < view {
            return nothing;
        }
        self.heard.view_change()
    }

    #[tactic(auto, using(crate::proofs::Plans::start_view_change_ready))]
    pub(crate) fn on_start_view_change(&mut self, from: u8, view: u64) -> Result<Step, WantOfMemory>
        requires from { from < self.old.n }
        requires view { view ≤ LAST_VIEW }
        ensures step { IfOk result (λ step. DoesRule self.old
            (on_start_view_change self.old.id self.old.n self.old.saved
            (heard_at self.old.n self.old.saved.view view self.old.heard).view_change from view)
            self.new step.packets.items step.answers.items) }
        ensures same { IsSameNode self.old self.new }
        ensures err { OnErr result (self.new ≡ self.old) }
        ensures some { OnErr result
            (on_start_view_change self.old.id self.old.n self.old.saved
            (heard_at self.old.n self.old.saved.view view self.old.heard).view_change from view
            ≢ nothing self.old.saved) }
    {
        let member = self.member();
        if ignores_view_request(member, &self.saved, from, view) {
            return Ok(Step::nothing(self.alloc));
        }
        // What the plan keeps rests on this.
        prove!(self.saved().normal() <= self.view());
        let nothing = ViewChangeRows::new(self.alloc, self.n);
        let heard = self.heard_of(&nothing, view);
        let plan = on_start_view_change(member, &self.saved, heard, from, view)?;
        let step = self.change_view(plan)?;
        Ok(step)
    }

    #[tactic(auto, using(crate::proofs::Plans::do_view_change_ready))]
    pub(crate) fn on_do_view_change(
        &mut self,
        from: u8,
        view: u64,
        normal: u64,
        commit: u64,
        log: Items<Entry>,
    ) -> Result<Step, WantOfMemory>
        requires from { from < self.old.n }
        requires view { view ≤ LAST_VIEW }
        requires log { length log ≤ LOG_ENTRIES }
        ensures step { IfOk result (λ step. DoesRule self.old
            (on_do_view_change self.old.id self.old.n self.old.saved
            (heard_at self.old.n self.old.saved.view view self.old.heard).view_change from view normal commit log)
            self.new step.packets.items step.answers.items) }
        ensures same { IsSameNode self.old self.new }
        ensures err { OnErr result (self.new ≡ self.old) }
        ensures some { OnErr result
            (on_do_view_change self.old.id self.old.n self.old.saved
            (heard_at self.old.n self.old.saved.view view self.old.heard).view_change from view normal commit log
            ≢ nothing self.old.saved) }
    {
        let member = self.member();
        // A log that is not taken is not made: that takes memory.
        if ignores_offer(member, &self.saved, view) {
            return Ok(Step::nothing(self.alloc));
        }
        let log = Log::from_entries(self.alloc, log.into_vec())?;
        let offer = Offer {
            normal,
            commit,
            log,
        };
        // What the plan keeps rests on this.
        prove!(self.saved().normal() <= self.view());
        let nothing = ViewChangeRows::new(self.alloc, self.n);
        let heard = self.heard_of(&nothing, view);
        let plan = on_do_view_change(member, &self.saved, heard, from, view, offer)?;
        let step = self.change_view(plan)?;
        Ok(step)
    }

    /// Does what it plans while its view changes. All that can be refused memory comes first. Where it is refused, the
    /// board that follows the log of the new view is dropped.
    #[tactic(auto, using(crate::proofs::FollowedLogs::follows_none))]
    fn change_view(&mut self, plan: ViewChangePlan) -> Result<Step, WantOfMemory>
        requires ready { IsViewReady self.old.saved plan }
        ensures step { IfOk result (λ step. MakesHeldStep (view_change_step self.old plan)
            self.new step.packets.items step.answers.items) }
        ensures same { IsSameNode self.old self.new }
        ensures err { OnErr result (self.new ≡ self.old) }
    {
        let ViewChangePlan {
            view,
            start,
            asker,
            offer,
            sending,
        } = plan;
        let Sending { packets, answers } = sending;
        let before = self.saved.view();
        let outcomes = start_outcomes(&mut self.answer_board, &self.saved, &start, answers)?;
        match self
            .heard
            .hear(self.alloc, self.n, before, view, asker, offer)
        {
            Ok(()) => {
                go_to_view(&mut self.saved, view, start);
                Ok(Step {
                    packets,
                    answers: outcomes,
                })
            }
            Err(refused) => {
                self.answer_board.forget();
                Err(refused)
            }
        }
    }

    #[tactic(auto, using(crate::proofs::Silent::silent_rules, crate::proofs::FollowedChanges::follows_rules))]
    pub(crate) fn on_start_view(
        &mut self,
        from: u8,
        view: u64,
        commit: u64,
        log: Items<Entry>,
    ) -> Result<Step, WantOfMemory>
        requires view { view ≤ LAST_VIEW }
        requires log { length log ≤ LOG_ENTRIES }
        ensures step { IfOk result (λ step. DoesRule self.old
            (on_start_view self.old.id self.old.n self.old.saved from view commit log)
            self.new step.packets.items step.answers.items) }
        ensures same { IsSameNode self.old self.new }
        ensures err { OnErr result (self.new ≡ self.old) }
        ensures some { OnErr result
            (on_start_view self.old.id self.old.n self.old.saved from view commit log ≢ nothing self.old.saved) }
    {
        let before = self.view();
        let member = self.member();
        let sending = on_start_view(member, &mut self.saved, from, view, commit, log)?;
        Ok(self.unanswered(before, sending))
    }

    #[tactic(auto, using(crate::proofs::Silent::silent_rules, crate::proofs::FollowedChanges::follows_rules))]
    pub(crate) fn on_suspect(&mut self) -> Result<Step, WantOfMemory>
        ensures step { IfOk result (λ step. DoesRule self.old
            (on_suspect self.old.id self.old.n self.old.saved)
            self.new step.packets.items step.answers.items) }
        ensures same { IsSameNode self.old self.new }
        ensures err { OnErr result (self.new ≡ self.old) }
        ensures some { OnErr result (on_suspect self.old.id self.old.n self.old.saved ≢ nothing self.old.saved) }
    {
        let before = self.view();
        let member = self.member();
        let sending = on_suspect(member, &mut self.saved)?;
        Ok(self.unanswered(before, sending))
    }
}
