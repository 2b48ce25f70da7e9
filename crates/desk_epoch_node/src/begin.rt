//! How a node begins the next epoch.

ghost use Rattle.std.specs.Prelude.{◌≡◌, ◌+◌, ◌++◌, ◌<◌, ◌≤◌, List, take, true, false, IfOk, OnErr, OnOk, MatchOption};
ghost use Rattle.desk_types.specs.Group.{IsGroup};
ghost use Rattle.desk_types.specs.declared.command.Entry.{Entry as AnEntry};
ghost use Rattle.desk_types.specs.declared.limits.TheConstants.{LAST_PLACE};
ghost use Rattle.desk_log.specs.SavedValue.{committed_entries};
ghost use Rattle.desk_view_change.specs.Rules.{view_requests};
ghost use Rattle.desk_epoch_node.specs.Does.{BeginsAfter, node_in_view, is_due, next_node, next_packets};
ghost use Rattle.desk_epoch_node.specs.Ends.{reaches_end};
ghost use Rattle.desk_epoch_node.specs.EpochValue.{acts, committed_cut, has_next};
ghost use Rattle.desk_epoch_node.specs.PastRows.{StandFor};

use crate::cut::first_cut;
use crate::epoch_node::EpochNode;
use crate::past_logs::PastLogs;
use crate::standing::{Standing, standing_after};
use crate::step::Ended;
use desk_log::{GroupNode, Log, Saved, push_to_others};
use desk_node::Node;
use desk_types::{Domain, Message, Packet, WantOfMemory};
use std::mem;

/// Past logs with the cut of what is committed after them, which has so many entries.
#[tactic(auto, using(crate::proofs::Beginnings::stand_with_cut, crate::proofs::Beginnings::cut_length))]
fn past_with_cut(past: &PastLogs, saved: &Saved, count: u64) -> Result<PastLogs, WantOfMemory>
    requires places { past.now.length + count ≤ LAST_PLACE }
    requires within { count ≤ saved.now.commit }
    ensures stand { IfOk result (λ longer. (before : List AnEntry) → StandFor before past.now →
        StandFor (before ++ take count (committed_entries saved.now)) longer) }
    ensures length { IfOk result (λ longer. longer.length ≡ past.now.length + count) }
{
    // What is committed stands in the log.
    prove!(saved.commit() <= saved.log().len());
    let entries = saved.log().entries();
    past.followed_by(&entries[..count as usize])
}

/// The packets by which a first node asks the others for a view, where it is not the first one.
fn view_requests(member: GroupNode, view: u8) -> Result<Vec<(u8, Packet)>, WantOfMemory>
    ensures { IfOk result (λ packets. packets.items ≡ view_requests member.id member.n 0 view) }
{
    let mut packets = Vec::new(member.alloc);
    if view > 0 {
        let packet = Packet::new(Message::StartViewChange {
            from: member.id,
            view: view as u64,
        });
        push_to_others(member, &mut packets, packet)?;
    }
    Ok(packets)
}

/// A first node in a view, which has heard nothing.
fn node_in_view(member: GroupNode, domain: &Domain, view: u8) -> Result<Node, WantOfMemory>
    requires group { IsGroup member.n }
    requires id { member.id < member.n }
    ensures { IfOk result (λ node. node ≡ node_in_view domain.now member.id member.n view) }
{
    let saved = Saved::new(view as u64, 0, Log::new(member.alloc), 0);
    Ok(Node::from_saved(member.alloc, member.id, member.n, domain.copy()?, saved))
}

impl EpochNode {
    /// Begins the next epoch, after these past logs, and gives the node of the epoch before. Where memory is refused
    /// nothing changes.
    pub(crate) fn begin(&mut self, past: PastLogs) -> Result<Ended, WantOfMemory>
        requires longer { self.old.past.length < past.length }
        requires length { past.length ≤ self.old.past.length + self.old.most }
        requires next { has_next self.old ≡ true }
        ensures node { IfOk result (λ ended. ended.node ≡ self.old.node) }
        ensures packets { IfOk result (λ ended. ended.packets.items ≡ next_packets (acts self.new) self.old.node) }
        ensures new { OnOk result (self.new ≡ record {
          epoch = self.old.epoch + 1;
          past = past;
          most = self.old.most;
          token = self.old.token;
          node = next_node (acts self.new) self.old.node;
        }) }
        ensures err { OnErr result (self.new ≡ self.old) }
    {
        let member = self.node.member();
        let standing = standing_after(past.replacements(), member.id, self.token);
        let view = match standing {
            Standing::Acts => member.primary(self.node.saved().normal()),
            Standing::Awaits | Standing::Replaced => 0,
        };
        let packets = view_requests(member, view)?;
        let first = node_in_view(member, self.node.domain(), view)?;
        self.past = past;
        self.epoch += 1;
        self.cut = first_cut();
        self.standing = standing;
        let node = mem::replace(&mut self.node, first);
        Ok(Ended { node, packets })
    }

    /// The past logs of the next epoch, where the node has committed the end of its own.
    #[tactic(auto, using(crate::proofs::Cuts::count_first))]
    fn past_with_own(&self) -> Result<PastLogs, WantOfMemory>
        requires ended { reaches_end self.now.most (committed_entries self.now.node.saved) ≡ true }
        requires next { has_next self.now ≡ true }
        ensures stand { IfOk result (λ longer. (past : List AnEntry) → StandFor past self.now.past →
            StandFor (past ++ committed_cut self.now) longer) }
        ensures longer { IfOk result (λ longer. self.now.past.length < longer.length) }
        ensures length { IfOk result (λ longer. longer.length ≤ self.now.past.length + self.now.most) }
    {
        past_with_cut(&self.past, self.node.saved(), self.cut.count)
    }

    /// Begins the next epoch, where the node has committed the end of its own and there are places for one more, and
    /// gives the node of the epoch that ended. It takes memory for each client of past logs. Where memory is refused
    /// nothing changes.
    pub fn begin_next(&mut self) -> Result<Option<Ended>, WantOfMemory>
        ensures begun { IfOk result (λ ended. MatchOption ended
            ((is_due self.old ≡ false) × (self.new ≡ self.old))
            (λ ended. (is_due self.old ≡ true) × (ended.node ≡ self.old.node)
            × ((past : List AnEntry) → StandFor past self.old.past →
            BeginsAfter past (committed_cut self.old) self.old self.new ended.packets.items))) }
        ensures err { OnErr result (self.new ≡ self.old) }
    {
        if !self.has_ended() || !self.has_next() {
            return Ok(None);
        }
        let past = self.past_with_own()?;
        let ended = self.begin(past)?;
        Ok(Some(ended))
    }
}
