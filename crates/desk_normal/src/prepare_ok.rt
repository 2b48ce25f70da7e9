//! A PrepareOk.

ghost use Rattle.std.specs.Prelude.{◌≡◌, ◌<◌, ◌≤◌, ◌≢◌, [], ◌∷◌, length, IfOk, OnErr, nat_lt, if◌then◌else◌};
ghost use Rattle.std.specs.Prelude.{not, ◌&&◌, ◌==◌, false};
ghost use Rattle.desk_types.specs.declared.packet.Message.TheVariants as messages;
ghost use Rattle.desk_log.specs.Change.{nothing, leads, to_others, commit_up_to};
ghost use Rattle.desk_normal.specs.Acknowledgements.{places_with, acknowledged_place};
ghost use Rattle.desk_normal.specs.CommitPlan.{IsCommitPlan};
ghost use Rattle.desk_normal.specs.Rules.{commit_acknowledged, on_prepare_ok};

use crate::acknowledgements::Acknowledgements;
use crate::commit_plan::CommitPlan;
use crate::packets::push_commits;
use crate::votes::{NewAcknowledgement, acknowledged_place};
use desk_log::{Answers, GroupNode, Saved, Sending};
use desk_types::limits::{LAST_VIEW, LOG_ENTRIES};
use desk_types::{Packet, WantOfMemory};

/// A Commit to each other node, where the commit rises.
fn commit_packets(
    member: GroupNode,
    view: u64,
    old: u64,
    new: u64,
) -> Result<Vec<(u8, Packet)>, WantOfMemory>
    requires view { view ≤ LAST_VIEW }
    requires commit { new ≤ LOG_ENTRIES }
    ensures { IfOk result (λ packets. packets.items
        ≡ if nat_lt old new then to_others member.id member.n (messages.Commit member.id view new) else []) }
{
    let mut packets = Vec::new(member.alloc);
    if old < new {
        push_commits(member, &mut packets, view, new)?;
    }
    Ok(packets)
}

/// The place up to which the log is committed once the new acknowledgement is taken in.
fn commit_with(
    member: GroupNode,
    saved: &Saved,
    places: &Acknowledgements,
    new: NewAcknowledgement,
) -> u64
    requires rows { length places.now ≡ member.n }
    requires from { new.from < member.n }
    ensures value { result ≡ (commit_up_to
        (acknowledged_place member.id member.n (places_with new.from new.place places.now) (length saved.now.log))
        saved.now).commit }
    ensures least { saved.now.commit ≤ result }
    ensures within { result ≤ length saved.now.log }
    ensures most { result ≤ LOG_ENTRIES }
{
    let length = saved.log().len();
    let place = acknowledged_place(member, places, new, length);
    saved.commit().max(place.min(length))
}

/// The primary takes the new acknowledgement in, and commits what enough others acknowledged.
#[tactic(auto, unfolding(crate::specs::Rules::commit_acknowledged))]
fn plan_with(
    member: GroupNode,
    saved: &Saved,
    places: &Acknowledgements,
    new: NewAcknowledgement,
) -> Result<CommitPlan, WantOfMemory>
    requires rows { length places.now ≡ member.n }
    requires from { new.from < member.n }
    ensures plan { IfOk result (λ plan. IsCommitPlan
        (commit_acknowledged member.id member.n saved.now (places_with new.from new.place places.now)
        (messages.PrepareOk new.from saved.now.view new.place ∷ []))
        saved.now new.from new.place plan) }
    ensures some { OnErr result
        (commit_acknowledged member.id member.n saved.now (places_with new.from new.place places.now)
        (messages.PrepareOk new.from saved.now.view new.place ∷ []) ≢ nothing saved.now) }
{
    let old = saved.commit();
    let commit = commit_with(member, saved, places, new);
    let packets = commit_packets(member, saved.view(), old, commit)?;
    let answers = Answers::Replies {
        after: old,
        upto: commit,
    };
    Ok(CommitPlan {
        commit,
        acknowledged: true,
        sending: Sending { packets, answers },
    })
}

/// Whether a PrepareOk is not of the view that the node leads, or is the node's own.
pub fn ignores_acknowledgement(member: GroupNode, saved: &Saved, from: u8, view: u64) -> bool
    requires { member.id < member.n }
    ensures value { result ≡ not (leads member.id member.n saved.now && (view == saved.now.view)
        && not (from == member.id)) }
    ensures view { result ≡ false → view ≡ saved.now.view }
{
    !member.leads(saved) || view != saved.view() || from == member.id
}

/// A PrepareOk, beside what was acknowledged before of the node's view: what the node is going to do. The time is
/// quadratic in the number of nodes, whatever the log.
#[tactic(auto, unfolding(crate::specs::Rules::on_prepare_ok))]
pub fn on_prepare_ok(
    member: GroupNode,
    saved: &Saved,
    places: &Acknowledgements,
    from: u8,
    view: u64,
    place: u64,
) -> Result<CommitPlan, WantOfMemory>
    requires id { member.id < member.n }
    requires from { from < member.n }
    requires rows { length places.now ≡ member.n }
    ensures plan { IfOk result (λ plan. IsCommitPlan
        (on_prepare_ok member.id member.n saved.now places.now from view place) saved.now from place plan) }
    ensures some { OnErr result
        (on_prepare_ok member.id member.n saved.now places.now from view place ≢ nothing saved.now) }
{
    if ignores_acknowledgement(member, saved, from, view) {
        return Ok(CommitPlan {
            commit: saved.commit(),
            acknowledged: false,
            sending: Sending::nothing(member.alloc),
        });
    }
    plan_with(member, saved, places, NewAcknowledgement { from, place })
}
