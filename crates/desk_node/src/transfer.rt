//! How a node hands over entries, and gets those that it lacks.

ghost use Rattle.std.specs.Prelude.{◌≡◌, ◌≢◌, ◌≤◌, ◌+◌, length, IfOk, OnErr};
ghost use Rattle.desk_log.specs.Change.{nothing};
ghost use Rattle.desk_transfer.specs.Rules.{on_get_state, on_new_state};
ghost use Rattle.desk_node.specs.HeldStep.{DoesRule};
ghost use Rattle.desk_node.specs.NodeValue.{IsSameNode};

use crate::node::Node;
use crate::step::Step;
use desk_transfer::{on_get_state, on_new_state};
use desk_types::limits::{LAST_VIEW, LOG_ENTRIES};
use desk_types::{Entry, Items, WantOfMemory};

impl Node {
    #[tactic(auto, using(crate::proofs::Silent::did_plain, crate::proofs::Silent::get_state_silent))]
    pub(crate) fn on_get_state(&self, from: u8, view: u64, base: u64) -> Result<Step, WantOfMemory>
        ensures step { IfOk result (λ step. DoesRule self.now
            (on_get_state self.now.id self.now.saved from view base)
            self.now step.packets.items step.answers.items) }
        ensures some { OnErr result (on_get_state self.now.id self.now.saved from view base ≢ nothing self.now.saved) }
    {
        let sending = on_get_state(self.member(), &self.saved, from, view, base)?;
        Ok(Step::unanswered(self.alloc, sending))
    }

    #[tactic(auto, using(crate::proofs::Silent::silent_rules, crate::proofs::FollowedChanges::follows_rules))]
    pub(crate) fn on_new_state(
        &mut self,
        view: u64,
        base: u64,
        commit: u64,
        entries: Items<Entry>,
    ) -> Result<Step, WantOfMemory>
        requires view { view ≤ LAST_VIEW }
        requires entries { base + length entries ≤ LOG_ENTRIES }
        ensures step { IfOk result (λ step. DoesRule self.old
            (on_new_state self.old.id self.old.n self.old.saved view base commit entries)
            self.new step.packets.items step.answers.items) }
        ensures same { IsSameNode self.old self.new }
        ensures err { OnErr result (self.new ≡ self.old) }
        ensures some { OnErr result
            (on_new_state self.old.id self.old.n self.old.saved view base commit entries ≢ nothing self.old.saved) }
    {
        let before = self.view();
        let member = self.member();
        let sending = on_new_state(member, &mut self.saved, view, base, commit, entries)?;
        Ok(self.unanswered(before, sending))
    }
}
