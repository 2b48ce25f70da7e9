//! The packets of the normal case.

ghost use Rattle.std.specs.Prelude.{◌≡◌, ◌≤◌, [], ◌∷◌, ◌++◌, IfOk};
ghost use Rattle.desk_types.specs.declared.packet.Message.TheVariants as messages;
ghost use Rattle.desk_log.specs.declared.answers.Answers.TheVariants as answers;
ghost use Rattle.desk_log.specs.Change.{to_others};

use desk_log::{GroupNode, Saved, Sending, push_to_others};
use desk_types::limits::{LAST_VIEW, LOG_ENTRIES};
use desk_types::{Entry, Message, Packet, WantOfMemory};

/// Puts a Prepare of the entry at a place to each other node last.
pub(crate) fn push_prepare(
    member: GroupNode,
    packets: &mut Vec<(u8, Packet)>,
    saved: &Saved,
    place: u64,
    entry: &Entry,
) -> Result<(), WantOfMemory>
    requires least { 1 ≤ place }
    requires most { place ≤ LOG_ENTRIES }
    ensures { IfOk result (λ _. packets.new.items
        ≡ packets.old.items
        ++ to_others member.id member.n (messages.Prepare member.id saved.now.view place saved.now.commit entry.now)) }
{
    let packet = Packet::new(Message::Prepare {
        from: member.id,
        view: saved.view(),
        place,
        commit: saved.commit(),
        entry: entry.copy()?,
    });
    push_to_others(member, packets, packet)
}

/// Puts a Commit to each other node last.
pub(crate) fn push_commits(
    member: GroupNode,
    packets: &mut Vec<(u8, Packet)>,
    view: u64,
    commit: u64,
) -> Result<(), WantOfMemory>
    requires view { view ≤ LAST_VIEW }
    requires commit { commit ≤ LOG_ENTRIES }
    ensures { IfOk result (λ _. packets.new.items
        ≡ packets.old.items ++ to_others member.id member.n (messages.Commit member.id view commit)) }
{
    let packet = Packet::new(Message::Commit {
        from: member.id,
        view,
        commit,
    });
    push_to_others(member, packets, packet)
}

/// The node asks for the entries after a place.
pub(crate) fn state_request(
    member: GroupNode,
    to: u8,
    view: u64,
    base: u64,
) -> Result<Sending, WantOfMemory>
    requires view { view ≤ LAST_VIEW }
    requires base { base ≤ LOG_ENTRIES }
    ensures packets { IfOk result (λ sending.
        sending.packets.items ≡ (to, messages.GetState member.id view base) ∷ []) }
    ensures answers { IfOk result (λ sending. sending.answers ≡ answers.Nothing) }
{
    let packet = Packet::new(Message::GetState {
        from: member.id,
        view,
        base,
    });
    Sending::one_packet(member.alloc, to, packet)
}
