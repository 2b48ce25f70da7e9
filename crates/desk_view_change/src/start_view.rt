//! A primary starts its view.

ghost use Rattle.std.specs.Prelude.{◌≡◌, ◌<◌, ◌≤◌, ◌≢◌, length, true, not, ◌||◌};
ghost use Rattle.std.specs.Prelude.{IfOk, OnErr};
ghost use Rattle.desk_log.specs.Change.{nothing, keeps_committed};
ghost use Rattle.desk_log.specs.Makes.{Makes};
ghost use Rattle.desk_log.specs.Quorum.{is_from_primary};
ghost use Rattle.desk_view_change.specs.Rules.{is_over, on_start_view};

use crate::views::is_over;
use desk_log::{GroupNode, Saved, Sending, adopt_log};
use desk_types::limits::{LAST_VIEW, LOG_ENTRIES};
use desk_types::{Entry, Items, WantOfMemory};

/// Whether a view that is not over is started by its primary, which is another node.
fn starts(member: GroupNode, saved: &Saved, from: u8, view: u64) -> bool
    requires { member.id < member.n }
    ensures value { result ≡ not (is_over saved.now view || not (is_from_primary member.id member.n from view)) }
    ensures least { result ≡ true → saved.now.view ≤ view }
{
    !is_over(saved, view) && member.is_from_primary(from, view)
}

/// A StartView: the node takes the log of the view, where that begins with what the node committed. Where memory is
/// refused nothing changes.
#[tactic(auto, unfolding(crate::specs::Rules::on_start_view))]
pub fn on_start_view(
    member: GroupNode,
    saved: &mut Saved,
    from: u8,
    view: u64,
    commit: u64,
    log: Items<Entry>,
) -> Result<Sending, WantOfMemory>
    requires id { member.id < member.n }
    requires view { view ≤ LAST_VIEW }
    requires log { length log ≤ LOG_ENTRIES }
    ensures change { IfOk result (λ sending. Makes
        (on_start_view member.id member.n saved.old from view commit log)
        saved.new sending.packets.items sending.answers) }
    ensures err { OnErr result (saved.new ≡ saved.old) }
    ensures some { OnErr result
        (on_start_view member.id member.n saved.old from view commit log ≢ nothing saved.old) }
{
    if starts(member, saved, from, view) && saved.keeps_committed(0, log.as_slice()) {
        return adopt_log(member, saved, view, 0, commit, log);
    }
    Ok(Sending::nothing(member.alloc))
}
