//! What a normal node sends again.

ghost use Rattle.std.specs.Prelude.{◌≡◌, ◌<◌, ◌≤◌, ◌+◌, ◌++◌, suc, length, drop, IfOk};
ghost use Rattle.desk_types.specs.declared.packet.Message.TheVariants as messages;
ghost use Rattle.desk_log.specs.Change.{to_others};
ghost use Rattle.desk_log.specs.Makes.{Makes};
ghost use Rattle.desk_normal.specs.Rules.{prepare_packets, normal_resend};

use crate::packets::{push_commits, push_prepare};
use desk_log::{GroupNode, Saved, Sending, acknowledgement};
use desk_types::limits::LOG_ENTRIES;
use desk_types::{Entry, Packet, WantOfMemory};

/// Puts a Prepare of each entry, of which the first stands at a place, to each other node last.
fn push_prepares(
    member: GroupNode,
    packets: &mut Vec<(u8, Packet)>,
    saved: &Saved,
    first: u64,
    entries: &[Entry],
) -> Result<(), WantOfMemory>
    requires least { 1 ≤ first }
    requires most { length entries.now + first ≤ LOG_ENTRIES + 1 }
    ensures { IfOk result (λ _. packets.new.items
        ≡ packets.old.items ++ prepare_packets member.id member.n saved.now first entries.now) }
{
    let mut place = first;
    for entry in entries {
        push_prepare(member, packets, saved, place, entry)?;
        place += 1;
    }
    Ok(())
}

/// What a primary sends again: each entry that is not committed, and its commit.
fn resent_packets(member: GroupNode, saved: &Saved) -> Result<Vec<(u8, Packet)>, WantOfMemory>
    ensures { IfOk result (λ packets. packets.items
        ≡ prepare_packets member.id member.n saved.now (suc saved.now.commit) (drop saved.now.commit saved.now.log)
        ++ to_others member.id member.n (messages.Commit member.id saved.now.view saved.now.commit)) }
{
    let mut packets = Vec::new(member.alloc);
    let commit = saved.commit();
    let waiting = &saved.log().entries()[commit as usize..];
    push_prepares(member, &mut packets, saved, commit + 1, waiting)?;
    push_commits(member, &mut packets, saved.view(), commit)?;
    Ok(packets)
}

/// What a normal node sends again.
#[tactic(auto, unfolding(crate::specs::Rules::normal_resend))]
pub fn on_resend(member: GroupNode, saved: &Saved) -> Result<Sending, WantOfMemory>
    requires id { member.id < member.n }
    ensures { IfOk result (λ sending. Makes
        (normal_resend member.id member.n saved.now) saved.now sending.packets.items sending.answers) }
{
    let view = saved.view();
    if member.leads(saved) {
        let packets = resent_packets(member, saved)?;
        return Ok(Sending::packets(packets));
    }
    let packet = acknowledgement(member, view, saved.log().len());
    Sending::one_packet(member.alloc, member.primary(view), packet)
}
