//! The choice of the log with which a primary starts its view.

ghost use Rattle.std.specs.Prelude.{◌≡◌, ◌<◌, ◌≤◌, [], ◌∷◌, Some, None, length, IfOk};
ghost use Rattle.desk_types.specs.declared.packet.Message.TheVariants as messages;
ghost use Rattle.desk_log.specs.Change.{change_after};
ghost use Rattle.desk_log.specs.SavedValue.{in_view};
ghost use Rattle.desk_view_change.specs.Choice.{new_view_with, choice};
ghost use Rattle.desk_view_change.specs.Heard.{with_offer};
ghost use Rattle.desk_view_change.specs.Plan.{IsPlan, HearsNothing};

use crate::heard::ViewChangeRows;
use crate::offer::Offer;
use crate::offers::{best_offer, greatest_commit, may_choose};
use crate::packets::push_start;
use crate::plan::{Start, ViewChangePlan};
use desk_log::{Answers, GroupNode, Saved, Sending};
use desk_types::limits::LAST_VIEW;
use desk_types::{Packet, WantOfMemory};

/// Starts a view with the log of an offer, where that keeps what is committed. Packets that are sent before are handed
/// in.
#[tactic(auto, unfolding(crate::specs::Choice::new_view_with, crate::specs::Choice::new_view))]
fn start_with(
    member: GroupNode,
    saved: &Saved,
    view: u64,
    commit: u64,
    offer: &Offer,
    mut packets: Vec<(u8, Packet)>,
) -> Result<ViewChangePlan, WantOfMemory>
    requires least_view { saved.now.view ≤ view }
    requires most_view { view ≤ LAST_VIEW }
    ensures plan { IfOk result (λ plan. IsPlan (change_after [] packets.items
        (new_view_with member.id member.n (in_view view saved.now) commit (Some offer.now))) saved.now plan) }
    ensures heard { IfOk result (λ plan. HearsNothing view plan) }
{
    if !saved.keeps_committed(0, offer.log.entries()) {
        return Ok(ViewChangePlan::with_packets(view, packets));
    }
    let commit = saved.commit().max(commit.min(offer.log.len()));
    push_start(member, view, commit, &offer.log, &mut packets)?;
    let log = offer.log.copy()?;
    Ok(ViewChangePlan {
        view,
        start: Some(Start { log, commit }),
        asker: None,
        offer: None,
        sending: Sending {
            packets,
            answers: Answers::Replies {
                after: saved.commit(),
                upto: commit,
            },
        },
    })
}

/// Chooses the best of what was offered and one offer more, once it may.
#[tactic(auto, unfolding(crate::specs::Choice::choice, crate::specs::Choice::new_view_with))]
fn choose(
    member: GroupNode,
    saved: &Saved,
    view: u64,
    heard: &ViewChangeRows,
    from: u8,
    more: &Offer,
    packets: Vec<(u8, Packet)>,
) -> Result<ViewChangePlan, WantOfMemory>
    requires id { member.id < member.n }
    requires from { from < length heard.now.offers }
    requires least_view { saved.now.view ≤ view }
    requires most_view { view ≤ LAST_VIEW }
    ensures plan { IfOk result (λ plan. IsPlan (change_after [] packets.items
        (choice member.id member.n (in_view view saved.now) (with_offer from more.now heard.now).offers))
        saved.now plan) }
    ensures heard { IfOk result (λ plan. HearsNothing view plan) }
{
    if !may_choose(member, heard, from, more) {
        return Ok(ViewChangePlan::with_packets(view, packets));
    }
    match best_offer(heard, from, more, member.n) {
        None => Ok(ViewChangePlan::with_packets(view, packets)),
        Some(best) => {
            let commit = greatest_commit(heard, from, more, member.n);
            start_with(member, saved, view, commit, best, packets)
        }
    }
}

/// Hears the offer of a node for the view whose primary this node is, and chooses once it may.
pub(crate) fn take_offer(
    member: GroupNode,
    saved: &Saved,
    view: u64,
    heard: &ViewChangeRows,
    from: u8,
    offer: Offer,
    packets: Vec<(u8, Packet)>,
) -> Result<ViewChangePlan, WantOfMemory>
    requires id { member.id < member.n }
    requires from { from < length heard.now.offers }
    requires least_view { saved.now.view ≤ view }
    requires most_view { view ≤ LAST_VIEW }
    ensures plan { IfOk result (λ plan. IsPlan
        (change_after (messages.DoViewChange from view offer.normal offer.commit offer.log ∷ []) packets.items
        (choice member.id member.n (in_view view saved.now) (with_offer from offer heard.now).offers))
        saved.now plan) }
    ensures heard { IfOk result (λ plan. (plan.view ≡ view) × (plan.asker ≡ None)) }
{
    let ViewChangePlan { start, sending, .. } = choose(
        member, saved, view, heard, from, &offer, packets,
    )?;
    Ok(ViewChangePlan {
        view,
        start,
        asker: None,
        offer: Some((from, offer)),
        sending,
    })
}
