//! A node takes the log of a view.

ghost use Rattle.std.specs.Prelude.{◌≡◌, ◌<◌, ◌≤◌, ◌≢◌, ◌+◌, ◌++◌, length, take, IfOk, OnErr};
ghost use Rattle.desk_log.specs.Change.{nothing, adoption};
ghost use Rattle.desk_log.specs.Makes.{Makes};

use crate::group_node::GroupNode;
use crate::saved::Saved;
use crate::sending::{Sending, acknowledgement};
use desk_types::limits::{LAST_VIEW, LOG_ENTRIES};
use desk_types::{Entry, Items, WantOfMemory};

/// Takes the first `base` entries of the node's log followed by the given ones in the place of that log, is normal in
/// the view, and acknowledges them to its primary. The first entries are not copied. Where memory is refused nothing
/// changes.
#[tactic(auto, using(crate::proofs::JoinedLogs::length_joined), unfolding(crate::specs::Change::adoption))]
pub fn adopt_log(
    member: GroupNode,
    saved: &mut Saved,
    view: u64,
    base: u64,
    commit: u64,
    entries: Items<Entry>,
) -> Result<Sending, WantOfMemory>
    requires id { member.id < member.n }
    requires least_view { saved.old.view ≤ view }
    requires most_view { view ≤ LAST_VIEW }
    requires prefix { base ≤ length saved.old.log }
    requires room { base + length entries ≤ LOG_ENTRIES }
    requires preserved { saved.old.commit ≤ base + length entries }
    ensures change { IfOk result (λ sending. Makes
        (adoption member.id member.n saved.old view commit (take base saved.old.log ++ entries))
        saved.new sending.packets.items sending.answers) }
    ensures err { OnErr result (saved.new ≡ saved.old) }
    ensures some { OnErr result (adoption member.id member.n saved.old view commit (take base saved.old.log ++ entries)
        ≢ nothing saved.old) }
{
    let entries = entries.into_vec();
    let to = member.primary(view);
    let place = base + entries.len() as u64;
    let sending = Sending::one_packet(member.alloc, to, acknowledgement(member, view, place))?;
    saved.adopt(view, base, entries, commit)?;
    Ok(sending)
}
