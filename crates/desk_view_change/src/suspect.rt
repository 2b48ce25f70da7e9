//! The primary is not heard of.

ghost use Rattle.std.specs.Prelude.{◌≡◌, ◌<◌, IfOk, OnErr};
ghost use Rattle.desk_log.specs.Makes.{Makes};
ghost use Rattle.desk_view_change.specs.Rules.{on_suspect};

use crate::packets::view_requests;
use desk_log::{GroupNode, Saved, Sending};
use desk_types::WantOfMemory;
use desk_types::limits::LAST_VIEW;

/// The primary was not heard of for too long. Where memory is refused nothing changes.
#[tactic(auto, unfolding(crate::specs::Rules::on_suspect))]
pub fn on_suspect(member: GroupNode, saved: &mut Saved) -> Result<Sending, WantOfMemory>
    ensures change { IfOk result (λ sending. Makes
        (on_suspect member.id member.n saved.old) saved.new sending.packets.items sending.answers) }
    ensures err { OnErr result (saved.new ≡ saved.old) }
    ensures some { OnErr result (saved.old.view < LAST_VIEW) }
{
    let old = saved.view();
    if old >= LAST_VIEW {
        return Ok(Sending::nothing(member.alloc));
    }
    let packets = view_requests(member, old, old + 1)?;
    saved.set_view(old + 1);
    Ok(Sending::packets(packets))
}
