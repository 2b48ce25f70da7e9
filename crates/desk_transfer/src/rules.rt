//! The rules of state transfer.

ghost use Rattle.std.specs.Prelude.{◌≡◌, ◌<◌, ◌≤◌, ◌≢◌, ◌+◌, ◌++◌, List, true, false, length, take, drop, IfOk, OnErr};
ghost use Rattle.desk_types.specs.declared.command.Entry.{Entry};
ghost use Rattle.desk_types.specs.declared.packet.Message.TheVariants as messages;
ghost use Rattle.desk_log.specs.Change.{nothing, one_packet, adoption};
ghost use Rattle.desk_log.specs.Makes.{Makes};
ghost use Rattle.desk_transfer.specs.Rules.{is_no_longer, on_get_state, on_new_state};

use desk_log::{GroupNode, Saved, Sending, adopt_log};
use desk_types::limits::{LAST_VIEW, LOG_ENTRIES};
use desk_types::{Entry, Items, Message, Packet, WantOfMemory};

/// Sends a node the entries after a place.
fn hand_over(member: GroupNode, saved: &Saved, to: u8, base: u64) -> Result<Sending, WantOfMemory>
    requires { base ≤ length saved.now.log }
    ensures { IfOk result (λ sending. Makes
        (one_packet saved.now to
        (messages.NewState member.id saved.now.view base saved.now.commit (drop base saved.now.log)))
        saved.now sending.packets.items sending.answers) }
{
    let entries = saved.log().copy_after(base)?;
    let packet = Packet::new(Message::NewState {
        from: member.id,
        view: saved.view(),
        base,
        commit: saved.commit(),
        entries: Items::from_vec(entries),
    });
    Sending::one_packet(member.alloc, to, packet)
}

/// A GetState: a normal node of the view hands over its entries after a place.
#[tactic(auto, unfolding(crate::specs::Rules::on_get_state))]
pub fn on_get_state(
    member: GroupNode,
    saved: &Saved,
    from: u8,
    view: u64,
    base: u64,
) -> Result<Sending, WantOfMemory>
    ensures change { IfOk result (λ sending. Makes
        (on_get_state member.id saved.now from view base) saved.now sending.packets.items sending.answers) }
    ensures some { OnErr result (on_get_state member.id saved.now from view base ≢ nothing saved.now) }
{
    let has_base = view == saved.view() && base <= saved.log().len();
    if saved.is_normal() && has_base && from != member.id {
        return hand_over(member, saved, from, base);
    }
    Ok(Sending::nothing(member.alloc))
}

/// Whether a log of a view, of so many entries, is no longer than that of the node, which is normal there.
fn is_no_longer(saved: &Saved, view: u64, count: u64) -> bool
    ensures { (log : List Entry) → length log ≡ count → result ≡ is_no_longer saved.now view log }
{
    saved.is_normal() && view == saved.view() && count <= saved.log().len()
}

/// Whether the node takes the entries after a place in the place of its own.
#[tactic(auto, using(desk_log::proofs::JoinedLogs::length_joined), unfolding(crate::specs::Rules::on_new_state))]
fn is_taken(member: GroupNode, saved: &Saved, view: u64, base: u64, entries: &[Entry]) -> bool
    requires id { member.id < member.n }
    requires entries { base + length entries.now ≤ LOG_ENTRIES }
    ensures nothing { (commit : _) → result ≡ false →
        on_new_state member.id member.n saved.now view base commit entries.now ≡ nothing saved.now }
    ensures adoption { (commit : _) → result ≡ true →
        on_new_state member.id member.n saved.now view base commit entries.now
        ≡ adoption member.id member.n saved.now view commit (take base saved.now.log ++ entries.now) }
    ensures view { result ≡ true → saved.now.view ≤ view }
    ensures prefix { result ≡ true → base ≤ length saved.now.log }
    ensures preserved { result ≡ true → saved.now.commit ≤ base + length entries.now }
{
    if view < saved.view() || member.id == member.primary(view) || saved.commit() < base {
        return false;
    }
    if is_no_longer(saved, view, base + entries.len() as u64) {
        return false;
    }
    saved.keeps_committed(base, entries)
}

/// A NewState: the node takes the entries that it lacks. Its entries up to the base are not copied. Where memory is
/// refused nothing changes.
pub fn on_new_state(
    member: GroupNode,
    saved: &mut Saved,
    view: u64,
    base: u64,
    commit: u64,
    entries: Items<Entry>,
) -> Result<Sending, WantOfMemory>
    requires id { member.id < member.n }
    requires view { view ≤ LAST_VIEW }
    requires entries { base + length entries ≤ LOG_ENTRIES }
    ensures change { IfOk result (λ sending. Makes
        (on_new_state member.id member.n saved.old view base commit entries)
        saved.new sending.packets.items sending.answers) }
    ensures err { OnErr result (saved.new ≡ saved.old) }
    ensures some { OnErr result
        (on_new_state member.id member.n saved.old view base commit entries ≢ nothing saved.old) }
{
    if is_taken(member, saved, view, base, entries.as_slice()) {
        return adopt_log(member, saved, view, base, commit, entries);
    }
    Ok(Sending::nothing(member.alloc))
}
