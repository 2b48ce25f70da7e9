//! What a node sends again while its view changes.

ghost use Rattle.std.specs.Prelude.{◌<◌, ◌&&◌, IfOk};
ghost use Rattle.desk_log.specs.Makes.{Makes};
ghost use Rattle.desk_log.specs.Quorum.{faults};
ghost use Rattle.desk_view_change.specs.Heard.{HasRowForEach};
ghost use Rattle.desk_view_change.specs.Rules.{view_change_resend};

use crate::askers::asker_count;
use crate::heard::ViewChangeRows;
use crate::packets::{push_offer, push_view_request};
use desk_log::{GroupNode, Saved, Sending};
use desk_types::WantOfMemory;

/// Asks each other node for the view again, and offers the log again where enough of them ask, too.
#[tactic(auto, unfolding(crate::specs::Rules::view_change_resend))]
pub fn on_resend(
    member: GroupNode,
    saved: &Saved,
    heard: &ViewChangeRows,
) -> Result<Sending, WantOfMemory>
    requires id { member.id < member.n }
    requires rows { HasRowForEach member.n heard.now }
    requires change { saved.now.normal < saved.now.view }
    ensures { IfOk result (λ sending. Makes
        (view_change_resend member.id member.n saved.now heard.now.askers)
        saved.now sending.packets.items sending.answers) }
{
    let view = saved.view();
    let to = member.primary(view);
    let mut packets = Vec::new(member.alloc);
    push_view_request(member, view, &mut packets)?;
    if member.faults() <= asker_count(member, heard, None) && to != member.id {
        push_offer(member, saved, view, to, &mut packets)?;
    }
    Ok(Sending::packets(packets))
}
