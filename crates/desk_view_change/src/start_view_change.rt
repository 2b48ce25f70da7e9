//! A node asks for a view.

ghost use Rattle.std.specs.Prelude.{◌≡◌, ◌<◌, ◌≤◌, ◌≢◌, ◌||◌, ◌==◌, false, [], None, IfOk, OnErr, if◌then◌else◌};
ghost use Rattle.desk_log.specs.Change.{nothing, change_after};
ghost use Rattle.desk_log.specs.SavedValue.{in_view};
ghost use Rattle.desk_view_change.specs.Heard.{HasRowForEach, with_asker};
ghost use Rattle.desk_view_change.specs.Plan.{IsPlan};
ghost use Rattle.desk_view_change.specs.Rules.{is_over, is_quorum_new, offering, view_support, on_start_view_change};

use crate::askers::is_quorum_new;
use crate::heard::ViewChangeRows;
use crate::own_offer::offer_log;
use crate::packets::view_requests;
use crate::plan::ViewChangePlan;
use crate::views::is_over;
use desk_log::{GroupNode, Saved};
use desk_types::limits::LAST_VIEW;
use desk_types::{Packet, WantOfMemory};

/// Offers the node's log, where as many others ask now as may fail, and fewer did before.
#[tactic(auto, unfolding(crate::specs::Rules::offering))]
fn offer_at_quorum(
    member: GroupNode,
    saved: &Saved,
    view: u64,
    heard: &ViewChangeRows,
    from: u8,
    packets: Vec<(u8, Packet)>,
) -> Result<ViewChangePlan, WantOfMemory>
    requires id { member.id < member.n }
    requires from { from < member.n }
    requires rows { HasRowForEach member.n heard.now }
    requires least_view { saved.now.view ≤ view }
    requires most_view { view ≤ LAST_VIEW }
    requires change { saved.now.normal < view }
    ensures plan { IfOk result (λ plan. IsPlan (change_after [] packets.items
        (if is_quorum_new member.id member.n heard.now.askers (with_asker from heard.now).askers
        then offering member.id member.n (in_view view saved.now) (with_asker from heard.now)
        else nothing (in_view view saved.now))) saved.now plan) }
    ensures heard { IfOk result (λ plan. (plan.view ≡ view) × (plan.asker ≡ None)) }
{
    if is_quorum_new(member, heard, from) {
        return offer_log(member, saved, view, heard, packets);
    }
    Ok(ViewChangePlan::with_packets(view, packets))
}

/// A node asked for a view that is not over.
#[tactic(auto, unfolding(crate::specs::Rules::view_support))]
fn support_view(
    member: GroupNode,
    saved: &Saved,
    heard: &ViewChangeRows,
    from: u8,
    view: u64,
) -> Result<ViewChangePlan, WantOfMemory>
    requires id { member.id < member.n }
    requires from { from < member.n }
    requires rows { HasRowForEach member.n heard.now }
    requires least_view { saved.now.view ≤ view }
    requires most_view { view ≤ LAST_VIEW }
    requires change { saved.now.normal < view }
    ensures plan { IfOk result (λ plan. IsPlan
        (view_support member.id member.n saved.now.view (in_view view saved.now) heard.now from) saved.now plan) }
    ensures some { OnErr result
        (view_support member.id member.n saved.now.view (in_view view saved.now) heard.now from ≢ nothing saved.now) }
{
    let packets = view_requests(member, saved.view(), view)?;
    let ViewChangePlan {
        start,
        offer,
        sending,
        ..
    } = offer_at_quorum(member, saved, view, heard, from, packets)?;
    Ok(ViewChangePlan {
        view,
        start,
        asker: Some(from),
        offer,
        sending,
    })
}

/// Whether a StartViewChange is for a view that is over, or is the node's own.
pub fn ignores_view_request(member: GroupNode, saved: &Saved, from: u8, view: u64) -> bool
    ensures value { result ≡ (is_over saved.now view || from == member.id) }
    ensures least { result ≡ false → saved.now.view ≤ view }
    ensures change { result ≡ false → saved.now.normal < view }
{
    is_over(saved, view) || from == member.id
}

/// A StartViewChange, beside what was heard before of the later of its view and the node's: what the node is going to
/// do.
#[tactic(auto, unfolding(crate::specs::Rules::on_start_view_change))]
pub fn on_start_view_change(
    member: GroupNode,
    saved: &Saved,
    heard: &ViewChangeRows,
    from: u8,
    view: u64,
) -> Result<ViewChangePlan, WantOfMemory>
    requires id { member.id < member.n }
    requires from { from < member.n }
    requires rows { HasRowForEach member.n heard.now }
    requires view { view ≤ LAST_VIEW }
    ensures plan { IfOk result (λ plan. IsPlan
        (on_start_view_change member.id member.n saved.now heard.now from view) saved.now plan) }
    ensures some { OnErr result
        (on_start_view_change member.id member.n saved.now heard.now from view ≢ nothing saved.now) }
{
    if ignores_view_request(member, saved, from, view) {
        return Ok(ViewChangePlan::nothing(member, saved));
    }
    support_view(member, saved, heard, from, view)
}
