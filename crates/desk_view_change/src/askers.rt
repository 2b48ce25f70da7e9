//! Who asked for a view, with one more where there is one.

ghost use Rattle.std.specs.Prelude.{◌≡◌, ◌<◌, ◌&&◌, ◌==◌, not, false, length, slice_index_or, IfSome};
ghost use Rattle.desk_view_change.specs.Heard.{with_asker};
ghost use Rattle.desk_view_change.specs.OneMore.{askers_with};
ghost use Rattle.desk_view_change.specs.Rules.{asker_count, is_quorum_new};

use crate::heard::ViewChangeRows;
use desk_log::GroupNode;

/// Whether node `k` asked, or is the one more.
#[tactic(auto, using(crate::proofs::WithOneMore::asked_with))]
fn has_asked(heard: &ViewChangeRows, more: Option<u8>, k: u8) -> bool
    requires { IfSome more (λ j. j < length heard.now.askers) }
    ensures { result ≡ slice_index_or (askers_with more heard.now.askers) k false }
{
    match more {
        None => heard.has_asked(k),
        Some(j) => j == k || heard.has_asked(k),
    }
}

/// Whether a node other than this one asked.
fn is_asker(member: GroupNode, heard: &ViewChangeRows, more: Option<u8>, k: u8) -> bool
    requires { IfSome more (λ j. j < length heard.now.askers) }
    ensures { result ≡ (not (k == member.id) && slice_index_or (askers_with more heard.now.askers) k false) }
{
    k != member.id && has_asked(heard, more, k)
}

/// How many nodes other than this one asked.
pub(crate) fn asker_count(member: GroupNode, heard: &ViewChangeRows, more: Option<u8>) -> u8
    requires { IfSome more (λ j. j < length heard.now.askers) }
    ensures { result ≡ asker_count member.id member.n (askers_with more heard.now.askers) }
{
    let mut count: u8 = 0;
    for k in 0..member.n {
        if is_asker(member, heard, more, k) {
            count += 1;
        }
    }
    count
}

/// Whether with this one as many others asked as may fail, and fewer did before.
pub(crate) fn is_quorum_new(member: GroupNode, heard: &ViewChangeRows, from: u8) -> bool
    requires id { member.id < member.n }
    requires from { from < length heard.now.askers }
    ensures { result ≡ is_quorum_new member.id member.n heard.now.askers (with_asker from heard.now).askers }
{
    asker_count(member, heard, None) < member.faults()
        && member.faults() <= asker_count(member, heard, Some(from))
}
