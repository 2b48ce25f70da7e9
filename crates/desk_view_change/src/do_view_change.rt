//! A node offers its log for a view.

ghost use Rattle.std.specs.Prelude.{◌≡◌, ◌<◌, ◌≤◌, ◌≢◌, not, ◌||◌, ◌==◌, false, IfOk, OnErr};
ghost use Rattle.desk_log.specs.Change.{nothing};
ghost use Rattle.desk_log.specs.Quorum.{primary};
ghost use Rattle.desk_view_change.specs.Heard.{HasRowForEach};
ghost use Rattle.desk_view_change.specs.Plan.{IsPlan};
ghost use Rattle.desk_view_change.specs.Rules.{is_over, on_do_view_change};

use crate::choice::take_offer;
use crate::heard::ViewChangeRows;
use crate::offer::Offer;
use crate::packets::view_requests;
use crate::plan::ViewChangePlan;
use crate::views::is_over;
use desk_log::{GroupNode, Saved};
use desk_types::WantOfMemory;
use desk_types::limits::LAST_VIEW;

/// Whether a DoViewChange is for a view that is over, or of which the node is not the primary.
pub fn ignores_offer(member: GroupNode, saved: &Saved, view: u64) -> bool
    requires { member.id < member.n }
    ensures value { result ≡ (is_over saved.now view || not (member.id == primary member.n view)) }
    ensures least { result ≡ false → saved.now.view ≤ view }
{
    is_over(saved, view) || member.id != member.primary(view)
}

/// A DoViewChange, beside what was heard before of the later of its view and the node's: what the node is going to do.
#[tactic(auto, unfolding(crate::specs::Rules::on_do_view_change))]
pub fn on_do_view_change(
    member: GroupNode,
    saved: &Saved,
    heard: &ViewChangeRows,
    from: u8,
    view: u64,
    offer: Offer,
) -> Result<ViewChangePlan, WantOfMemory>
    requires id { member.id < member.n }
    requires from { from < member.n }
    requires rows { HasRowForEach member.n heard.now }
    requires view { view ≤ LAST_VIEW }
    ensures plan { IfOk result (λ plan. IsPlan
        (on_do_view_change member.id member.n saved.now heard.now from view offer.normal offer.commit offer.log)
        saved.now plan) }
    ensures some { OnErr result
        (on_do_view_change member.id member.n saved.now heard.now from view offer.normal offer.commit offer.log
        ≢ nothing saved.now) }
{
    if ignores_offer(member, saved, view) {
        return Ok(ViewChangePlan::nothing(member, saved));
    }
    let packets = view_requests(member, saved.view(), view)?;
    take_offer(member, saved, view, heard, from, offer, packets)
}
