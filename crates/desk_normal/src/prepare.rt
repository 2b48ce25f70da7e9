//! A Prepare.

ghost use Rattle.std.specs.Prelude.{◌≡◌, ◌<◌, ◌≤◌, ◌+◌, ◌↔◌, ◌≢◌, length, IsTrue, IfOk, OnErr};
ghost use Rattle.desk_log.specs.Change.{nothing};
ghost use Rattle.desk_log.specs.Makes.{Makes};
ghost use Rattle.desk_normal.specs.Next.{IsNext};
ghost use Rattle.desk_normal.specs.Rules.{on_prepare};

use crate::packets::state_request;
use crate::views::{is_ahead, is_stray};
use desk_log::{GroupNode, Saved, Sending, acknowledgement};
use desk_types::limits::{LAST_VIEW, LOG_ENTRIES};
use desk_types::{Entry, WantOfMemory};

/// Whether a Prepare is of the view in which the node is a normal backup, and of the place after its log.
fn is_next(member: GroupNode, saved: &Saved, from: u8, view: u64, place: u64) -> bool
    requires { member.id < member.n }
    ensures { IsTrue result ↔ IsNext member.id member.n saved.now from view place }
{
    !is_stray(member, saved, from, view) && !is_ahead(saved, view) && place == saved.log().len() + 1
}

/// Takes the entry of a Prepare that is the next one. Where memory is refused nothing changes.
#[tactic(auto, unfolding(crate::specs::Rules::on_prepare))]
fn take_prepare(
    member: GroupNode,
    saved: &mut Saved,
    from: u8,
    view: u64,
    commit: u64,
    entry: Entry,
) -> Result<Sending, WantOfMemory>
    requires view { view ≤ LAST_VIEW }
    requires room { length saved.old.log < LOG_ENTRIES }
    requires next { IsNext member.id member.n saved.old from view (length saved.old.log + 1) }
    ensures change { IfOk result (λ sending. Makes
        (on_prepare member.id member.n saved.old from view (length saved.old.log + 1) commit entry)
        saved.new sending.packets.items sending.answers) }
    ensures err { OnErr result (saved.new ≡ saved.old) }
    ensures some { OnErr result
        (on_prepare member.id member.n saved.old from view (length saved.old.log + 1) commit entry
        ≢ nothing saved.old) }
{
    let place = saved.log().len() + 1;
    let sending = Sending::one_packet(member.alloc, from, acknowledgement(member, view, place))?;
    match saved.append(entry) {
        Ok(_) => {
            saved.commit_up_to(commit);
            Ok(sending)
        }
        Err(_) => Err(WantOfMemory),
    }
}

/// Answers a Prepare that is not the next one, of whatever entry. Where memory is refused nothing changes.
#[tactic(auto, unfolding(crate::specs::Rules::on_prepare))]
fn answer_prepare(
    member: GroupNode,
    saved: &mut Saved,
    from: u8,
    view: u64,
    place: u64,
    commit: u64,
) -> Result<Sending, WantOfMemory>
    requires id { member.id < member.n }
    requires view { view ≤ LAST_VIEW }
    requires other { IsNext member.id member.n saved.old from view place → ⊥ }
    ensures change { (entry : Entry) → IfOk result (λ sending. Makes
        (on_prepare member.id member.n saved.old from view place commit entry)
        saved.new sending.packets.items sending.answers) }
    ensures err { OnErr result (saved.new ≡ saved.old) }
    ensures some { (entry : Entry) → OnErr result
        (on_prepare member.id member.n saved.old from view place commit entry ≢ nothing saved.old) }
{
    if is_stray(member, saved, from, view) {
        return Ok(Sending::nothing(member.alloc));
    }
    let length = saved.log().len();
    if is_ahead(saved, view) || place > length {
        return state_request(member, from, view, saved.commit());
    }
    let sending = Sending::one_packet(member.alloc, from, acknowledgement(member, view, length))?;
    saved.commit_up_to(commit);
    Ok(sending)
}

/// A Prepare: the node takes the entry that is its next one, acknowledges what it has, and asks for what it lacks.
/// Where memory is refused nothing changes.
pub fn on_prepare(
    member: GroupNode,
    saved: &mut Saved,
    from: u8,
    view: u64,
    place: u64,
    commit: u64,
    entry: Entry,
) -> Result<Sending, WantOfMemory>
    requires id { member.id < member.n }
    requires view { view ≤ LAST_VIEW }
    requires place { place ≤ LOG_ENTRIES }
    ensures change { IfOk result (λ sending. Makes
        (on_prepare member.id member.n saved.old from view place commit entry)
        saved.new sending.packets.items sending.answers) }
    ensures err { OnErr result (saved.new ≡ saved.old) }
    ensures some { OnErr result
        (on_prepare member.id member.n saved.old from view place commit entry ≢ nothing saved.old) }
{
    if is_next(member, saved, from, view, place) {
        return take_prepare(member, saved, from, view, commit, entry);
    }
    // Where the function's end drops the entry, its proof takes longer.
    drop(entry);
    answer_prepare(member, saved, from, view, place, commit)
}
