//! A Commit.

ghost use Rattle.std.specs.Prelude.{◌≡◌, ◌<◌, ◌≤◌, ◌≢◌, IfOk, OnErr};
ghost use Rattle.desk_log.specs.Change.{nothing};
ghost use Rattle.desk_log.specs.Makes.{Makes};
ghost use Rattle.desk_normal.specs.Rules.{on_commit};

use crate::packets::state_request;
use crate::views::{is_ahead, is_stray};
use desk_log::{GroupNode, Saved, Sending};
use desk_types::WantOfMemory;
use desk_types::limits::LAST_VIEW;

/// A Commit: the node commits as far as its log goes, and asks for the entries that it lacks. Where memory is refused
/// nothing changes.
#[tactic(auto, unfolding(crate::specs::Rules::on_commit))]
pub fn on_commit(
    member: GroupNode,
    saved: &mut Saved,
    from: u8,
    view: u64,
    commit: u64,
) -> Result<Sending, WantOfMemory>
    requires id { member.id < member.n }
    requires view { view ≤ LAST_VIEW }
    ensures change { IfOk result (λ sending. Makes
        (on_commit member.id member.n saved.old from view commit) saved.new sending.packets.items sending.answers) }
    ensures err { OnErr result (saved.new ≡ saved.old) }
    ensures some { OnErr result (on_commit member.id member.n saved.old from view commit ≢ nothing saved.old) }
{
    if is_stray(member, saved, from, view) {
        return Ok(Sending::nothing(member.alloc));
    }
    if is_ahead(saved, view) {
        return state_request(member, from, view, saved.commit());
    }
    let length = saved.log().len();
    if length < commit {
        // The commit that it is going to have.
        let base = saved.commit().max(length);
        let sending = state_request(member, from, view, base)?;
        saved.commit_up_to(commit);
        return Ok(sending);
    }
    saved.commit_up_to(commit);
    Ok(Sending::nothing(member.alloc))
}
