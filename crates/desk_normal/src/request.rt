//! A client's request.

ghost use Rattle.std.specs.Prelude.{◌≡◌, ◌<◌, ◌≤◌, ◌+◌, ◌≢◌, ◌∷◌, length, IfOk, OnErr};
ghost use Rattle.desk_types.specs.declared.packet.Message.TheVariants as messages;
ghost use Rattle.desk_log.specs.declared.admission.Admission.TheVariants as admissions;
ghost use Rattle.desk_log.specs.Admission.{admission as admission_of};
ghost use Rattle.desk_log.specs.Change.{nothing, to_others};
ghost use Rattle.desk_log.specs.Makes.{Makes};
ghost use Rattle.desk_normal.specs.Rules.{append_request, retry_request, admitted_request, on_request};

use crate::packets::push_prepare;
use desk_log::{Admission, Answers, GroupNode, Saved, Sending, acknowledgement};
use desk_types::limits::LOG_ENTRIES;
use desk_types::{Entry, Packet, Refusal, WantOfMemory};

/// The primary's own PrepareOk, and a Prepare of the entry to each other node.
fn request_packets(
    member: GroupNode,
    saved: &Saved,
    entry: &Entry,
) -> Result<Vec<(u8, Packet)>, WantOfMemory>
    requires { length saved.now.log + 1 ≤ LOG_ENTRIES }
    ensures { IfOk result (λ packets. packets.items
        ≡ (member.id, messages.PrepareOk member.id saved.now.view (length saved.now.log + 1))
        ∷ to_others member.id member.n
        (messages.Prepare member.id saved.now.view (length saved.now.log + 1) saved.now.commit entry.now)) }
{
    let place = saved.log().len() + 1;
    let mut packets = Vec::new(member.alloc);
    packets.push((member.id, acknowledgement(member, saved.view(), place)))?;
    push_prepare(member, &mut packets, saved, place, entry)?;
    Ok(packets)
}

/// Puts a new request last in the log, and hands it to the others. Where memory is refused nothing changes.
#[tactic(auto, using(desk_log::proofs::Admitted::append_has_room), unfolding(crate::specs::Rules::append_request))]
fn append_request(
    member: GroupNode,
    saved: &mut Saved,
    entry: Entry,
) -> Result<Sending, WantOfMemory>
    requires { admission_of saved.old.log entry.client entry.number ≡ admissions.Append }
    ensures change { IfOk result (λ sending. Makes
        (append_request member.id member.n saved.old entry) saved.new sending.packets.items sending.answers) }
    ensures err { OnErr result (saved.new ≡ saved.old) }
    ensures some { OnErr result (append_request member.id member.n saved.old entry ≢ nothing saved.old) }
{
    let packets = request_packets(member, saved, &entry)?;
    match saved.append(entry) {
        Ok(_) => Ok(Sending::packets(packets)),
        Err(_) => Err(WantOfMemory),
    }
}

/// Answers a request that stands at a place.
#[tactic(auto, unfolding(crate::specs::Rules::retry_request))]
fn retry_request(member: GroupNode, saved: &Saved, place: u64) -> Sending
    ensures { Makes (retry_request saved.now place) saved.now result.packets.items result.answers }
{
    if place > saved.commit() {
        return Sending::nothing(member.alloc);
    }
    Sending {
        packets: Vec::new(member.alloc),
        answers: Answers::Repeat { place },
    }
}

/// Answers a request that is not to be put last.
#[tactic(auto, unfolding(crate::specs::Rules::admitted_request))]
fn answer_request(member: GroupNode, saved: &Saved, entry: &Entry, admission: Admission) -> Sending
    requires { admission ≡ admissions.Append → ⊥ }
    ensures { Makes
        (admitted_request member.id member.n saved.now entry.now admission)
        saved.now result.packets.items result.answers }
{
    match admission {
        Admission::Append => unreachable!(),
        Admission::Retry { place } => retry_request(member, saved, place),
        Admission::Stale { latest } => {
            let latest = latest.get();
            Sending::refusal(member.alloc, entry, Refusal::Stale { latest })
        }
        Admission::Full => Sending::refusal(member.alloc, entry, Refusal::BookFull),
    }
}

/// Deals with a request as the log admits it. Where memory is refused nothing changes.
#[tactic(auto, unfolding(crate::specs::Rules::admitted_request))]
fn admit_request(
    member: GroupNode,
    saved: &mut Saved,
    entry: Entry,
) -> Result<Sending, WantOfMemory>
    ensures change { IfOk result (λ sending. Makes
        (admitted_request member.id member.n saved.old entry (admission_of saved.old.log entry.client entry.number))
        saved.new sending.packets.items sending.answers) }
    ensures err { OnErr result (saved.new ≡ saved.old) }
    ensures some { OnErr result
        (admitted_request member.id member.n saved.old entry (admission_of saved.old.log entry.client entry.number)
        ≢ nothing saved.old) }
{
    let admission = saved.log().admission(entry.client, entry.number);
    if let Admission::Append = admission {
        return append_request(member, saved, entry);
    }
    let sending = answer_request(member, saved, &entry, admission);
    // Where the function's end drops the entry, its proof takes longer.
    drop(entry);
    Ok(sending)
}

/// A client's request: the normal primary deals with it as its log admits it, and another node names the primary. Where
/// memory is refused nothing changes.
#[tactic(auto, unfolding(crate::specs::Rules::on_request))]
pub fn on_request(
    member: GroupNode,
    saved: &mut Saved,
    entry: Entry,
) -> Result<Sending, WantOfMemory>
    requires id { member.id < member.n }
    ensures change { IfOk result (λ sending. Makes
        (on_request member.id member.n saved.old entry) saved.new sending.packets.items sending.answers) }
    ensures err { OnErr result (saved.new ≡ saved.old) }
    ensures some { OnErr result (on_request member.id member.n saved.old entry ≢ nothing saved.old) }
{
    if member.leads(saved) {
        return admit_request(member, saved, entry);
    }
    let view = saved.view();
    let node = member.primary(view);
    let sending = Sending::refusal(member.alloc, &entry, Refusal::NotPrimary { view, node });
    drop(entry);
    Ok(sending)
}
