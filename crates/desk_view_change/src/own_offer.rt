//! A node offers its log to the primary of its view.

ghost use Rattle.std.specs.Prelude.{◌≡◌, ◌<◌, ◌≤◌, [], None, IfOk};
ghost use Rattle.desk_log.specs.Change.{change_after};
ghost use Rattle.desk_log.specs.SavedValue.{in_view};
ghost use Rattle.desk_view_change.specs.Heard.{HasRowForEach};
ghost use Rattle.desk_view_change.specs.Plan.{IsPlan};
ghost use Rattle.desk_view_change.specs.Rules.{own_offer, offering};

use crate::choice::take_offer;
use crate::heard::ViewChangeRows;
use crate::offer::Offer;
use crate::packets::push_offer;
use crate::plan::ViewChangePlan;
use desk_log::{GroupNode, Saved};
use desk_types::limits::LAST_VIEW;
use desk_types::{Packet, WantOfMemory};

/// A copy of the node's log, with its commit and its last normal view.
fn own_offer(saved: &Saved) -> Result<Offer, WantOfMemory>
    ensures { IfOk result (λ offer. offer ≡ own_offer saved.now) }
{
    Ok(Offer {
        normal: saved.normal(),
        commit: saved.commit(),
        log: saved.log().copy()?,
    })
}

/// Offers the node's log to the primary of a view; where the node is that primary itself, the choice follows.
#[tactic(auto, using(std::proofs::Common::append_assoc), unfolding(crate::specs::Rules::offering))]
pub(crate) fn offer_log(
    member: GroupNode,
    saved: &Saved,
    view: u64,
    heard: &ViewChangeRows,
    mut packets: Vec<(u8, Packet)>,
) -> Result<ViewChangePlan, WantOfMemory>
    requires id { member.id < member.n }
    requires rows { HasRowForEach member.n heard.now }
    requires least_view { saved.now.view ≤ view }
    requires most_view { view ≤ LAST_VIEW }
    requires change { saved.now.normal < view }
    ensures plan { IfOk result (λ plan. IsPlan (change_after [] packets.items
        (offering member.id member.n (in_view view saved.now) heard.now)) saved.now plan) }
    ensures heard { IfOk result (λ plan. (plan.view ≡ view) × (plan.asker ≡ None)) }
{
    let to = member.primary(view);
    push_offer(member, saved, view, to, &mut packets)?;
    if to != member.id {
        return Ok(ViewChangePlan::with_packets(view, packets));
    }
    let offer = own_offer(saved)?;
    take_offer(member, saved, view, heard, member.id, offer, packets)
}
