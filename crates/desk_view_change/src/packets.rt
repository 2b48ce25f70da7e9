//! What a node sends while its view changes.

ghost use Rattle.std.specs.Prelude.{◌≡◌, ◌<◌, ◌≤◌, [], ◌∷◌, ◌++◌, length, IfOk};
ghost use Rattle.desk_types.specs.declared.packet.Message.TheVariants as messages;
ghost use Rattle.desk_log.specs.Change.{to_others};
ghost use Rattle.desk_log.specs.SavedValue.{in_view};
ghost use Rattle.desk_view_change.specs.Rules.{view_requests, offer_packet};

use desk_log::{GroupNode, Log, Saved, acknowledgement, push_to_others};
use desk_types::limits::{LAST_VIEW, LOG_ENTRIES};
use desk_types::{Items, Message, Packet, WantOfMemory};

/// Puts a StartViewChange to each other node last.
pub(crate) fn push_view_request(
    member: GroupNode,
    view: u64,
    packets: &mut Vec<(u8, Packet)>,
) -> Result<(), WantOfMemory>
    requires { view ≤ LAST_VIEW }
    ensures { IfOk result (λ _. packets.new.items
        ≡ packets.old.items ++ to_others member.id member.n (messages.StartViewChange member.id view)) }
{
    let packet = Packet::new(Message::StartViewChange {
        from: member.id,
        view,
    });
    push_to_others(member, packets, packet)
}

/// A StartViewChange to each other node, where the view is a new one.
pub(crate) fn view_requests(
    member: GroupNode,
    old: u64,
    view: u64,
) -> Result<Vec<(u8, Packet)>, WantOfMemory>
    requires { view ≤ LAST_VIEW }
    ensures { IfOk result (λ packets. packets.items ≡ view_requests member.id member.n old view) }
{
    let mut packets = Vec::new(member.alloc);
    if old < view {
        push_view_request(member, view, &mut packets)?;
    }
    Ok(packets)
}

/// The DoViewChange with the node's own offer, of which the log is a copy.
fn offer_packet(member: GroupNode, saved: &Saved, view: u64) -> Result<Packet, WantOfMemory>
    requires view { view ≤ LAST_VIEW }
    requires change { saved.now.normal < view }
    ensures { IfOk result (λ packet. packet ≡ offer_packet member.id (in_view view saved.now)) }
{
    let log = saved.log().copy_entries()?;
    Ok(Packet::new(Message::DoViewChange {
        from: member.id,
        view,
        normal: saved.normal(),
        commit: saved.commit(),
        log: Items::from_vec(log),
    }))
}

/// Puts the node's own offer last.
pub(crate) fn push_offer(
    member: GroupNode,
    saved: &Saved,
    view: u64,
    to: u8,
    packets: &mut Vec<(u8, Packet)>,
) -> Result<(), WantOfMemory>
    requires view { view ≤ LAST_VIEW }
    requires change { saved.now.normal < view }
    ensures { IfOk result (λ _. packets.new.items
        ≡ packets.old.items ++ (to, offer_packet member.id (in_view view saved.now)) ∷ []) }
{
    let packet = offer_packet(member, saved, view)?;
    packets.push((to, packet))?;
    Ok(())
}

/// The StartView by which a primary starts its view, with a copy of the log.
fn start_packet(
    member: GroupNode,
    view: u64,
    commit: u64,
    log: &Log,
) -> Result<Packet, WantOfMemory>
    requires view { view ≤ LAST_VIEW }
    requires commit { commit ≤ length log.now }
    requires log { length log.now ≤ LOG_ENTRIES }
    ensures { IfOk result (λ packet. packet ≡ messages.StartView member.id view commit log.now) }
{
    let entries = log.copy_entries()?;
    Ok(Packet::new(Message::StartView {
        from: member.id,
        view,
        commit,
        log: Items::from_vec(entries),
    }))
}

/// Puts the primary's own PrepareOk last, and then a StartView to each other node.
pub(crate) fn push_start(
    member: GroupNode,
    view: u64,
    commit: u64,
    log: &Log,
    packets: &mut Vec<(u8, Packet)>,
) -> Result<(), WantOfMemory>
    requires view { view ≤ LAST_VIEW }
    requires commit { commit ≤ length log.now }
    ensures { IfOk result (λ _. packets.new.items
        ≡ packets.old.items ++ (member.id, messages.PrepareOk member.id view (length log.now))
        ∷ to_others member.id member.n (messages.StartView member.id view commit log.now)) }
{
    packets.push((member.id, acknowledgement(member, view, log.len())))?;
    let packet = start_packet(member, view, commit, log)?;
    push_to_others(member, packets, packet)
}
