//! A node, and its steps.

ghost use Rattle.std.specs.Prelude.{◌≡◌, ◌≢◌, ◌<◌, ◌≤◌, [], IfOk, OnErr};
ghost use Rattle.desk_types.specs.Group.{IsGroup};
ghost use Rattle.desk_types.specs.Packet.{IsInRange};
ghost use Rattle.desk_log.specs.Change.{nothing};
ghost use Rattle.desk_log.specs.Entries.{IsLogPrefix};
ghost use Rattle.desk_log.specs.Makes.{Makes};
ghost use Rattle.desk_log.specs.SavedValue.{committed_entries};
ghost use Rattle.desk_types.specs.Packet.{sender, packet_view};
ghost use Rattle.desk_node.specs.Heard.{silence, HasHeardRows, heard_at};
ghost use Rattle.desk_node.specs.HeldStep.{DoesRule, MakesHeldStep, IsAsked, held_step};
ghost use Rattle.desk_node.specs.NodeValue.{DoesStep, DoesSomething, IsSameNode};
ghost use Rattle.desk_node.specs.Rules.{on_packet, on_packet_within, on_resend};

use crate::answer_board::AnswerBoard;
use crate::event::Event;
use crate::heard::HeardRows;
use crate::step::Step;
use desk_log::{GroupNode, Saved, Sending};
use desk_types::{Domain, Message, Packet, WantOfMemory};
use std::alloc::Global;
use std::marker::Model;

/// A node of a group: what it saves, and what it heard of its view since its last start. Beside them it keeps a board
/// of the first entries of its log, for its answers.
pub struct Node {
    pub(crate) id: u8,
    pub(crate) n: u8,
    pub(crate) saved: Saved,
    pub(crate) heard: HeardRows,
    pub(crate) answer_board: AnswerBoard,
    pub(crate) alloc: Global,
}

// Written out, so that callers need not prove each part's drop.
impl Drop for Node {
    fn drop(self) {
        let Node {
            id: _,
            n: _,
            saved: _,
            heard: _,
            answer_board: _,
            alloc: _,
        } = self;
    }
}

impl Model for Node {
    ghost use Rattle.std.specs.Prelude.{◌<◌, ◌≤◌};
    ghost use Rattle.desk_log.specs.SavedValue.{committed_entries};
    ghost use Rattle.desk_node.specs.Heard.{HasHeardRows};
    ghost use Rattle.desk_node.specs.NodeValue.{NodeValue};
    ghost use Rattle.desk_node.specs.PrefixBoard.{FollowsLog};

    ghost Value = { NodeValue };

    ghost view = { λ a. record {
      domain = a.answer_board.domain;
      id = a.id;
      n = a.n;
      saved = a.saved;
      heard = a.heard;
    } };

    ghost invariant = { λ a. (a.id < a.n) × HasHeardRows a.n a.heard
        × FollowsLog a.answer_board.domain a.answer_board.board (committed_entries a.saved) × (3 ≤ a.n) };
}

/// What a node sends again, by whether it is normal in its view.
#[tactic(auto, unfolding(crate::specs::Rules::on_resend))]
fn on_resend(member: GroupNode, saved: &Saved, heard: &HeardRows) -> Result<Sending, WantOfMemory>
    requires id { member.id < member.n }
    requires rows { HasHeardRows member.n heard.now }
    ensures { IfOk result (λ sending. Makes
        (on_resend member.id member.n saved.now heard.now) saved.now sending.packets.items sending.answers) }
{
    if saved.is_normal() {
        return desk_normal::on_resend(member, saved);
    }
    desk_view_change::on_resend(member, saved, heard.view_change())
}

impl Node {
    /// Node `id` of `n`, which has heard nothing. It takes no memory.
    #[tactic(auto, using(crate::proofs::HeldRows::silent_rows, crate::proofs::FollowedLogs::follows_none))]
    pub fn from_saved(alloc: Global, id: u8, n: u8, domain: Domain, saved: Saved) -> Node
        requires group { IsGroup n }
        requires id { id < n }
        ensures { result ≡ record { domain = domain; id = id; n = n; saved = saved; heard = silence n } }
    {
        Node {
            id,
            n,
            saved,
            heard: HeardRows::new(alloc, n),
            answer_board: AnswerBoard::new(alloc, domain),
            alloc,
        }
    }

    /// What the node keeps across a restart, as it is after the last step.
    pub fn saved(&self) -> &Saved
        ensures { result.now ≡ self.now.saved }
    {
        &self.saved
    }

    /// The node's number in its group, from 0.
    pub fn id(&self) -> u8
        ensures { result ≡ self.now.id }
    {
        self.id
    }

    /// The domain of the desk, which is the same at each node of the group.
    pub fn domain(&self) -> &Domain
        ensures { result.now ≡ self.now.domain }
    {
        &self.answer_board.domain
    }

    /// The node's number with the size of its group, and with the allocator of what it sends.
    pub fn member(&self) -> GroupNode
        ensures id { result.id ≡ self.now.id }
        ensures n { result.n ≡ self.now.n }
        ensures within { result.id < result.n }
    {
        GroupNode {
            id: self.id,
            n: self.n,
            alloc: self.alloc,
        }
    }

    /// The node's view. The last one in which it was normal is not past it.
    pub(crate) fn view(&self) -> u64
        ensures value { result ≡ self.now.saved.view }
        ensures order { self.now.saved.normal ≤ self.now.saved.view }
    {
        self.saved.view()
    }

    /// Ends a rule that took nothing in and answers nothing: what was heard of a view that the node left is dropped.
    #[tactic(auto, using(crate::proofs::HeldRows::rows_left))]
    pub(crate) fn unanswered(&mut self, before: u64, sending: Sending) -> Step
        ensures saved { self.new.saved ≡ self.old.saved }
        ensures heard { self.new.heard ≡ heard_at self.old.n before self.old.saved.view self.old.heard }
        ensures same { IsSameNode self.old self.new }
        ensures packets { result.packets.items ≡ sending.packets.items }
        ensures answers { result.answers.items ≡ [] }
    {
        self.heard
            .leave(self.alloc, self.n, before, self.saved.view());
        Step::unanswered(self.alloc, sending)
    }

    /// A packet of a node of the group, by its kind.
    #[tactic(auto, unfolding(crate::specs::Rules::on_packet_within))]
    fn on_packet_within(&mut self, message: Message) -> Result<Step, WantOfMemory>
        requires from { sender message < self.old.n }
        requires range { IsInRange message }
        ensures step { IfOk result (λ step. DoesRule self.old
            (on_packet_within self.old.id self.old.n self.old.saved
            (heard_at self.old.n self.old.saved.view (packet_view message) self.old.heard) message)
            self.new step.packets.items step.answers.items) }
        ensures same { IsSameNode self.old self.new }
        ensures err { OnErr result (self.new ≡ self.old) }
        ensures some { OnErr result (on_packet_within self.old.id self.old.n self.old.saved
            (heard_at self.old.n self.old.saved.view (packet_view message) self.old.heard) message
            ≢ nothing self.old.saved) }
    {
        match message {
            Message::Prepare {
                from,
                view,
                place,
                commit,
                entry,
            } => self.on_prepare(from, view, place, commit, entry),
            Message::PrepareOk { from, view, place } => self.on_prepare_ok(from, view, place),
            Message::Commit { from, view, commit } => self.on_commit(from, view, commit),
            Message::StartViewChange { from, view } => self.on_start_view_change(from, view),
            Message::DoViewChange {
                from,
                view,
                normal,
                commit,
                log,
            } => self.on_do_view_change(from, view, normal, commit, log),
            Message::StartView {
                from,
                view,
                commit,
                log,
            } => self.on_start_view(from, view, commit, log),
            Message::GetState { from, view, base } => self.on_get_state(from, view, base),
            Message::NewState {
                view,
                base,
                commit,
                entries,
                ..
            } => self.on_new_state(view, base, commit, entries),
        }
    }

    #[tactic(auto, unfolding(crate::specs::Rules::on_packet))]
    fn on_packet(&mut self, packet: Packet) -> Result<Step, WantOfMemory>
        ensures step { IfOk result (λ step. DoesRule self.old
            (on_packet self.old.id self.old.n self.old.saved
            (heard_at self.old.n self.old.saved.view (packet_view packet) self.old.heard) packet)
            self.new step.packets.items step.answers.items) }
        ensures same { IsSameNode self.old self.new }
        ensures err { OnErr result (self.new ≡ self.old) }
        ensures some { OnErr result (on_packet self.old.id self.old.n self.old.saved
            (heard_at self.old.n self.old.saved.view (packet_view packet) self.old.heard) packet
            ≢ nothing self.old.saved) }
    {
        let message = packet.into_message();
        if message.from() < self.n {
            return self.on_packet_within(message);
        }
        // Where the function's end drops the message, its proof takes longer.
        drop(message);
        Ok(Step::nothing(self.alloc))
    }

    /// What the node sends again. Nothing of it changes.
    #[tactic(auto, using(crate::proofs::Silent::did_plain, crate::proofs::Silent::resend_silent))]
    fn on_resend(&self) -> Result<Step, WantOfMemory>
        ensures step { IfOk result (λ step. DoesRule self.now
            (on_resend self.now.id self.now.n self.now.saved self.now.heard)
            self.now step.packets.items step.answers.items) }
        ensures some { OnErr result
            (on_resend self.now.id self.now.n self.now.saved self.now.heard ≢ nothing self.now.saved) }
    {
        let sending = on_resend(self.member(), &self.saved, &self.heard)?;
        Ok(Step::unanswered(self.alloc, sending))
    }

    /// What an event asks of a node that holds what it heard.
    #[tactic(auto, unfolding(crate::specs::HeldStep::held_step, crate::specs::HeldStep::IsAsked))]
    fn handle(&mut self, event: Event) -> Result<Step, WantOfMemory>
        ensures step { IfOk result (λ step. MakesHeldStep (held_step self.old event)
            self.new step.packets.items step.answers.items) }
        ensures same { IsSameNode self.old self.new }
        ensures err { OnErr result (self.new ≡ self.old) }
        ensures some { OnErr result (IsAsked self.old event) }
    {
        match event {
            Event::Request(entry) => self.on_request(entry),
            Event::Packet(packet) => self.on_packet(packet),
            Event::Resend => self.on_resend(),
            Event::Suspect => self.on_suspect(),
            Event::Restart => {
                self.heard = HeardRows::new(self.alloc, self.n);
                Ok(Step::nothing(self.alloc))
            }
        }
    }

    /// Does what an event asks of the node. Whichever received packets say of the node's view what the node holds, the
    /// saved state, the packets and the answers are those of the protocol's step, and what the node then holds is what
    /// the packets that the step leaves say. Where memory is refused nothing changes, and nothing is sent or answered;
    /// and it is refused only where the protocol's step does something: an event that no rule takes is always answered.
    pub fn step(&mut self, event: Event) -> Result<Step, WantOfMemory>
        ensures step { IfOk result (λ step. DoesStep self.old event self.new step.packets.items step.answers.items) }
        ensures same { IsSameNode self.old self.new }
        ensures err { OnErr result (self.new ≡ self.old) }
        ensures some { OnErr result (DoesSomething self.old event) }
        // Whatever comes, also from a lying peer, nothing falls, and what was committed stays committed.
        ensures view { self.old.saved.view ≤ self.new.saved.view }
        ensures normal { self.old.saved.normal ≤ self.new.saved.normal }
        ensures commit { self.old.saved.commit ≤ self.new.saved.commit }
        ensures committed { IsLogPrefix (committed_entries self.old.saved) (committed_entries self.new.saved) }
    {
        // What no step undoes rests on this.
        prove!(self.saved().normal() <= self.view());
        match self.handle(event) {
            Ok(step) => Ok(step),
            Err(refused) => Err(refused),
        }
    }
}
